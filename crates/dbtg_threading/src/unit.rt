//! A unit follows a program, on any thread.

ghost use Rattle.dbtg_run.specs.UnitView.{BelongsTo};
ghost use Rattle.dbtg_threading.specs.Inside.Gone.{HasGone, WentBy};
ghost use Rattle.std.specs.Prelude.{◌≡◌, [], IfOk};

use dbtg_going::Member;
use dbtg_program::Program;
use dbtg_run::{Database, Outcome, RunUnit};
use std::alloc::{AllocError, Global};
use std::sync::Wait;

// The unit makes the statements of a program from its beginning to its end, and insists on each; other units go on between its tries.
// It stops when its journal is full. Gives where the program then is; the error means that memory was refused.
fn go_by<R: Wait>(
    rt: &R,
    alloc: Global,
    db: &Database,
    unit: &mut RunUnit,
    program: &Program,
) -> Result<Member, AllocError>
    requires belongs { BelongsTo db.now unit.old }
    requires fresh { unit.old.journal ≡ [] }
    ensures belongs { BelongsTo db.now unit.new }
    ensures number { unit.new.unit.number ≡ unit.old.unit.number }
    ensures gone { IfOk result (HasGone db.now.schema program.now unit.new.journal) }
{
    let mut member = Member::beginning(alloc, &db.schema, program)?;
    while let Some(statement) = member.statement(&db.schema) {
        match db.insist(rt, alloc, unit, statement) {
            Outcome::Done(_) => {}
            Outcome::NoMemory => return Err(AllocError),
            Outcome::Spent => return Ok(member),
            Outcome::Busy => unreachable!(),
        }
        let entry = &unit.journal()[member.made];
        member.told(alloc, &db.schema, program, entry)?;
    }
    Ok(member)
}

/// A unit follows a program, and comes back with where the program then is; the error means that memory was refused to it.
pub fn run_one<R: Wait>(
    rt: &R,
    alloc: Global,
    db: &Database,
    unit: RunUnit,
    program: &Program,
) -> (RunUnit, Result<Member, AllocError>)
    requires belongs { BelongsTo db.now unit }
    requires fresh { unit.journal ≡ [] }
    ensures belongs { BelongsTo db.now result.0 }
    ensures went { IfOk result.1 (WentBy db.now.schema program.now unit result.0) }
{
    let mut unit = unit;
    let ran = go_by(rt, alloc, db, &mut unit, program);
    (unit, ran)
}
