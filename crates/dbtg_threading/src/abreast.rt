//! Units follow programs side by side, each on a thread of its own, after one that goes first and before one that goes last.

ghost use Rattle.dbtg_run.specs.UnitView.{BelongsTo};
ghost use Rattle.dbtg_threading.specs.Inside.Gone.{AreFresh, HaveGone, WentBy};
ghost use Rattle.std.specs.Prelude.{◌≡◌, ◌<◌, ◌≤◌, ◌++◌, ◌∷◌, [], All, IfOk, get_or, length, vec_capacity};
ghost use Rattle.std.specs.Result.{is_err};
ghost use Rattle.std.specs.Prelude.{false};
ghost use Rattle.std.specs.Thread.{IsSync};

use crate::unit::run_one;
use dbtg_going::{Around, Member};
use dbtg_program::Program;
use dbtg_run::{Database, RunUnit};
use std::alloc::{AllocError, Global};
use std::sync::Wait;
use std::thread::{Threads, join};

/// Programs that run together, and whether one goes first or last.
#[derive(Clone, Copy)]
pub struct Lineup<'a> {
    pub programs: &'a [Program],
    pub around: Around,
}

// The program at this place.
fn program_at(programs: &[Program], place: usize) -> &Program
    requires { place < length programs.now }
    ensures { result.now ≡ get_or programs.now place result.now }
{
    &programs[place]
}

// Where programs are, and behind them one more, if memory was refused to none of them.
fn with_member(
    others: Result<Vec<Member>, AllocError>,
    last: Result<Member, AllocError>,
) -> Result<Vec<Member>, AllocError>
    ensures fine { IfOk result (λ _. (is_err others ≡ false) × (is_err last ≡ false)) }
    ensures more { IfOk result (λ all. IfOk others (λ members. IfOk last (λ member. all.items ≡ members.items ++ member ∷ []))) }
{
    let mut members = others?;
    members.push(last?)?;
    Ok(members)
}

// Units that came back, and behind them the last.
fn with_last(
    others: (Vec<RunUnit>, Result<Vec<Member>, AllocError>),
    last: (RunUnit, Result<Member, AllocError>),
) -> (Vec<RunUnit>, Result<Vec<Member>, AllocError>)
    requires { length others.0.items < vec_capacity others.0 }
    ensures units { result.0.items ≡ others.0.items ++ last.0 ∷ [] }
    ensures room { vec_capacity result.0 ≡ vec_capacity others.0 }
    ensures fine { IfOk result.1 (λ _. (is_err others.1 ≡ false) × (is_err last.1 ≡ false)) }
    ensures more { IfOk result.1 (λ all. IfOk others.1 (λ members. IfOk last.1 (λ member. all.items ≡ members.items ++ member ∷ []))) }
{
    let (units, members) = others;
    let (unit, member) = last;
    let mut units = units;
    units.push_reserved(unit);
    (units, with_member(members, member))
}

// Each unit follows the program at its place, the last on a thread beside the others, and all come back in their order, with where the
// programs then are. The error means that memory was refused to one of them.
fn run_abreast<R: Threads + Wait + Sync>(
    rt: &R,
    alloc: Global,
    db: &Database,
    units: Vec<RunUnit>,
    programs: &[Program],
) -> (Vec<RunUnit>, Result<Vec<Member>, AllocError>)
    requires belong { All (BelongsTo db.now) units.items }
    requires fresh { AreFresh units.items }
    requires programs { length units.items ≤ length programs.now }
    ensures belong { All (BelongsTo db.now) result.0.items }
    ensures gone { IfOk result.1 (λ members. HaveGone db.now.schema programs.now units.items result.0.items members.items) }
    ensures count { length result.0.items ≡ length units.items }
    ensures room { vec_capacity result.0 ≡ vec_capacity units }
{
    let mut units = units;
    let Some(unit) = units.pop() else {
        return (units, Ok(Vec::new(alloc)));
    };
    let program = program_at(programs, units.as_slice().len());
    let (one, others) = join(
        rt,
        move || -> (RunUnit, Result<Member, AllocError>)
            requires { IsSync R.row × BelongsTo db.now unit × (unit.journal ≡ []) }
            ensures { BelongsTo db.entry.now result.0 × IfOk result.1 (WentBy db.entry.now.schema program.entry.now unit result.0) }
        { run_one(rt, alloc, db, unit, program) },
        move || -> (Vec<RunUnit>, Result<Vec<Member>, AllocError>)
            requires { IsSync R.row × All (BelongsTo db.now) units.items × AreFresh units.items × (length units.items ≤ length programs.now) }
            ensures { All (BelongsTo db.entry.now) result.0.items × IfOk result.1 (λ members. HaveGone db.entry.now.schema programs.entry.now units.items result.0.items members.items) × (length result.0.items ≡ length units.items) × (vec_capacity result.0 ≡ vec_capacity units) }
        { run_abreast(rt, alloc, db, units, programs) },
    );
    with_last(others, one)
}

// The same; but if one is to go first, it is the last of these units, and it comes to its end before the others begin.
fn run_behind_first<R: Threads + Wait + Sync>(
    rt: &R,
    alloc: Global,
    db: &Database,
    units: Vec<RunUnit>,
    lineup: Lineup<'_>,
) -> (Vec<RunUnit>, Result<Vec<Member>, AllocError>)
    requires belong { All (BelongsTo db.now) units.items }
    requires fresh { AreFresh units.items }
    requires programs { length units.items ≤ length lineup.programs.now }
    ensures belong { All (BelongsTo db.now) result.0.items }
    ensures gone { IfOk result.1 (λ members. HaveGone db.now.schema lineup.entry.programs.now units.items result.0.items members.items) }
    ensures count { length result.0.items ≡ length units.items }
    ensures room { vec_capacity result.0 ≡ vec_capacity units }
{
    if !lineup.around.first {
        return run_abreast(rt, alloc, db, units, lineup.programs);
    }
    let mut units = units;
    let Some(unit) = units.pop() else {
        return (units, Ok(Vec::new(alloc)));
    };
    let program = program_at(lineup.programs, units.as_slice().len());
    let one = run_one(rt, alloc, db, unit, program);
    let others = run_abreast(rt, alloc, db, units, lineup.programs);
    with_last(others, one)
}

/// Each unit follows the program at its place, and all come back in their order, with where the programs then are: the first comes to its
/// end before any other begins, the last begins when all others have ended, and those between run on a thread each. The error means that
/// memory was refused to one of them.
pub fn run_around<R: Threads + Wait + Sync>(
    rt: &R,
    alloc: Global,
    db: &Database,
    units: Vec<RunUnit>,
    lineup: Lineup<'_>,
) -> (Vec<RunUnit>, Result<Vec<Member>, AllocError>)
    requires belong { All (BelongsTo db.now) units.items }
    requires fresh { AreFresh units.items }
    requires programs { length units.items ≤ length lineup.programs.now }
    ensures belong { All (BelongsTo db.now) result.0.items }
    ensures gone { IfOk result.1 (λ members. HaveGone db.now.schema lineup.entry.programs.now units.items result.0.items members.items) }
{
    if !lineup.around.last {
        return run_behind_first(rt, alloc, db, units, lineup);
    }
    let mut units = units;
    let Some(unit) = units.pop() else {
        return (units, Ok(Vec::new(alloc)));
    };
    let program = program_at(lineup.programs, units.as_slice().len());
    let others = run_behind_first(rt, alloc, db, units, lineup);
    let one = run_one(rt, alloc, db, unit, program);
    with_last(others, one)
}
