//! A unit makes a script, on any thread.
ghost use Rattle.std.specs.Prelude.{◌≡◌, ◌⊎◌, ◌<◌, ◌≤◌, true, length, All, IfOk, OnErr};
ghost use Rattle.dbtg_unit.specs.Database.Statements.Fits.{fits};
ghost use Rattle.dbtg_run.specs.Running.{IsWhole, Ran};
ghost use Rattle.dbtg_run.specs.UnitView.{BelongsTo};

use crate::database::Database;
use crate::outcome::{Gate, Outcome};
use crate::unit::RunUnit;
use dbtg_unit::{MOST_STATEMENTS, Statement};
use std::alloc::{AllocError, Global};
use std::sync::Wait;

/// The unit makes the statements of a script, one after the other, and insists on each; other units go on between its tries. It
/// stops when its journal is full. The error means that memory was refused: the unit has then made all statements before the one
/// that wanted it, holds nothing, and may go on from there.
pub fn run_script<R: Wait, G: Gate>(
    rt: &R,
    alloc: Global,
    db: &Database,
    unit: &mut RunUnit,
    script: &[Statement],
    gate: &G,
) -> Result<(), AllocError>
    requires belongs { BelongsTo db.now unit.old }
    requires fits { All (λ x. fits db.now.schema x ≡ true) script.now }
    ensures belongs { BelongsTo db.now unit.new }
    ensures ran { Ran script.now unit.old unit.new }
    ensures room { OnErr result (length unit.new.journal < MOST_STATEMENTS) }
    ensures whole { IfOk result (λ _. IsWhole script.now unit.old unit.new) }
{
    unit.make_room(script.len());
    'script: for statement in script {
        match db.insist_at(rt, alloc, unit, statement, gate) {
            Outcome::Done(_) => {}
            Outcome::NoMemory => return Err(AllocError),
            Outcome::Spent => return Ok(()),
            Outcome::Busy => unreachable!(),
        }
    }
    Ok(())
}
