//! The names of cells.
ghost use Rattle.std.specs.Prelude.{◌≡◌};
ghost use Rattle.dbtg_cells.specs.Names.{name_eq, name_below};

use dbtg_schema::{AreaNo, RecordNo, SetNo};

/// The name of a cell. A ring is named by its set and its owner's record type and number, with none for SYSTEM; a
/// slot by record type and number. The generation is part of what the cell holds. Names are ordered by kind, and
/// then by what they name.
#[derive(Clone, Copy, Debug, PartialEq, Eq, PartialOrd)]
pub enum CellName {
    Usage(AreaNo),
    Extent(RecordNo),
    Ring(SetNo, Option<(RecordNo, u32)>),
    Slot(RecordNo, u32),
}

impl Default for CellName {
    /// The usage cell of the first area.
    fn default() -> Self
        ensures { result ≡ CellName.Usage 0 }
    {
        CellName::Usage(AreaNo::new(0))
    }
}

/// Whether two names are the same.
pub fn name_eq(a: CellName, b: CellName) -> bool
    ensures { result ≡ name_eq a b }
{
    a == b
}

/// Whether one name comes before another.
pub fn name_below(a: CellName, b: CellName) -> bool
    ensures { result ≡ name_below a b }
{
    a < b
}
