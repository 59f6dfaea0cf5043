//! What is in the way of the refusals of a run.
ghost use Rattle.std.specs.Prelude.{◌≡◌, ◌≤◌, IfOk, length, true};
ghost use Rattle.dbtg_schema.specs.Sound.{IsSound};
ghost use Rattle.dbtg_step.specs.Laws.{scripts_fit};
ghost use Rattle.dbtg_step.specs.Machine.Headline.{RunIs};
ghost use Rattle.dbtg_replay.specs.Explaining.{said_of_run};

use dbtg_command::copy_each_script;
use dbtg_refusal::said_of_history;
use dbtg_schema::{Row, Schema};
use dbtg_step::{Run, run};
use dbtg_unit::{LAST_UNIT, Move, Statement};
use std::alloc::{AllocError, Global};

// The same of a run that was made.
fn said_of_given(
    alloc: Global,
    schema: &Schema,
    capacity: u16,
    statements: &[Row<Statement>],
    moves: &[Move],
    given: &Run,
) -> Result<Vec<Row<u8>>, AllocError>
    requires sound { IsSound schema.now }
    requires units { length statements.now ≤ LAST_UNIT }
    requires fit { scripts_fit schema.now statements.now ≡ true }
    requires is_run { RunIs schema.now capacity statements.now moves.now given.now }
    ensures { IfOk result (λ said. said.items ≡ said_of_run schema.now capacity statements.now moves.now) }
{
    let units = statements.len() as u8;
    said_of_history(alloc, schema, capacity, units, given.history.as_slice())
}

/// What is in the way of each refusal of the run of these moves, by ticket; nothing for a statement that is done. The run is made for it,
/// and each of its statements once more.
pub fn said_of_run(
    alloc: Global,
    schema: &Schema,
    capacity: u16,
    statements: &[Row<Statement>],
    moves: &[Move],
) -> Result<Vec<Row<u8>>, AllocError>
    requires sound { IsSound schema.now }
    requires units { length statements.now ≤ LAST_UNIT }
    requires fit { scripts_fit schema.now statements.now ≡ true }
    ensures { IfOk result (λ said. said.items ≡ said_of_run schema.now capacity statements.now moves.now) }
{
    let copies = copy_each_script(alloc, statements)?;
    let given = run(alloc, schema, capacity, copies, moves)?;
    said_of_given(alloc, schema, capacity, statements, moves, &given)
}
