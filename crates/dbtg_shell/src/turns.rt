//! The turns of a session, by which its scripts make the same again.
ghost use Rattle.std.specs.Prelude.{IfOk};
ghost use Rattle.dbtg_shell.specs.Turns.{AreTurnsOf};

use dbtg_going::units_in_turn;
use dbtg_script::turns_text;
use dbtg_session::Session;
use std::alloc::{AllocError, Global};

/// The text of the turns in which the statements were made.
pub fn turns_of(alloc: Global, session: &Session<'_>) -> Result<Vec<u8>, AllocError>
    ensures { IfOk result (λ turns. AreTurnsOf session.now turns.items) }
{
    let units = units_in_turn(alloc, session.history())?;
    turns_text(alloc, units.as_slice())
}
