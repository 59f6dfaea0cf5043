//! The turns that made a history.

ghost use Rattle.std.specs.Prelude.{◌≡◌, IfOk, map};

use dbtg_unit::Entry;
use std::alloc::{AllocError, Global};

/// The units of a history, in the order of their tickets.
pub fn units_in_turn(alloc: Global, history: &[Entry]) -> Result<Vec<u8>, AllocError>
    ensures { IfOk result (λ units. units.items ≡ map (λ e. e.unit) history.now) }
{
    history.iter().map(|entry| entry.unit).collect(alloc)
}
