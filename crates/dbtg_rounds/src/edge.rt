//! Turns from state to state.

ghost use Rattle.std.specs.Prelude.{◌≡◌, IfOk};

use std::alloc::AllocError;

/// A turn of a unit, from one state to another. States are named by numbers, from 0.
#[derive(Clone, Copy)]
pub struct Edge {
    pub from: u32,
    pub unit: u8,
    pub to: u32,
}

impl Edge {
    /// A number that needs more than 32 bits is refused as memory is: its states would take more of it than there is.
    pub fn new(from: usize, unit: u8, to: usize) -> Result<Self, AllocError>
        ensures { IfOk result (λ e. e ≡ record { from = from; unit = unit; to = to }) }
    {
        match (u32::try_from(from), u32::try_from(to)) {
            (Ok(from), Ok(to)) => Ok(Self { from, unit, to }),
            _ => Err(AllocError),
        }
    }

    // From its end to its beginning.
    pub(crate) fn reversed(self) -> Self
        ensures { result ≡ record { from = self.to; unit = self.unit; to = self.from } }
    {
        Self {
            from: self.to,
            unit: self.unit,
            to: self.from,
        }
    }
}
