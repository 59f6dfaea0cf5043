//! The four kinds of cell.
ghost use Rattle.std.specs.Prelude.{◌≡◌, None, IfOk};
ghost use Rattle.dbtg_cells.specs.Cells.{shown};

use crate::extent::Extent;
use crate::ring::Ring;
use crate::slot::Slot;
use crate::usage::Usage;
use std::alloc::{AllocError, Global};

/// What a run-unit takes, holds and gives back.
#[derive(Drop)]
pub enum Cell {
    Usage(Usage),
    Extent(Extent),
    Ring(Ring),
    Slot(Slot),
}

impl Cell {
    /// A cell that shows the same. Room for run-units that may still come is not copied.
    pub fn copy(&self, alloc: Global) -> Result<Self, AllocError>
        ensures { IfOk result (λ copy. shown copy ≡ shown self.now) }
    {
        match self {
            Cell::Usage(usage) => Ok(Cell::Usage(usage.copy(alloc)?)),
            Cell::Extent(extent) => Ok(Cell::Extent(extent.copy(alloc)?)),
            Cell::Ring(ring) => Ok(Cell::Ring(ring.copy(alloc)?)),
            Cell::Slot(slot) => Ok(Cell::Slot(slot.copy(alloc)?)),
        }
    }
}

impl Default for Cell {
    /// A vacant slot, which takes no memory.
    fn default() -> Self
        ensures { result ≡ Cell.Slot None }
    {
        Cell::Slot(Slot::vacant())
    }
}
