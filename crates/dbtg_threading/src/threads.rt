//! Runs of programs on threads, from the opening database to the settled one.

ghost use Rattle.dbtg_going.specs.Goings.{reached_by};
ghost use Rattle.dbtg_schema.specs.Sound.{IsSound};
ghost use Rattle.dbtg_threading.specs.Inside.Gone.{IsHistoryOfAll};
ghost use Rattle.dbtg_threading.specs.Inside.Between.{AreBetween};
ghost use Rattle.dbtg_threading.specs.Threading.{IsRunOnThreads};
ghost use Rattle.std.specs.Prelude.{◌≡◌, ◌≤◌, ℕ, [], IfNone, IfOk, IfSome, List, length, map};

use crate::abreast::{Lineup, run_around};
use crate::between::turns_between;
use dbtg_going::{Around, Member, ProgramRun, reached_by_each, units_in_turn};
use dbtg_run::{Database, Settled, settle};
use dbtg_schema::{Row, Schema};
use dbtg_step::Run;
use dbtg_unit::Entry;
use std::alloc::{AllocError, Global};
use std::sync::Wait;
use std::thread::Threads;

/// A run of programs on threads, and the units that made the statements in turn, without those of the first program and of the last.
#[derive(Drop)]
pub struct OnThreads {
    pub given: ProgramRun,
    pub turns: Vec<u8>,
}

// Runs each program by a unit of its own, on a thread of its own, and settles the database. Gives also where the programs then are.
fn settled_of<R: Threads + Wait + Sync>(
    rt: &R,
    alloc: Global,
    schema: Schema,
    capacity: u16,
    lineup: Lineup<'_>,
) -> Result<(Settled, Vec<Member>), AllocError>
    requires sound { IsSound schema }
    requires count { (1 ≤ length lineup.programs.now) × (length lineup.programs.now ≤ 8) }
    ensures { IfOk result (λ made. IsHistoryOfAll schema capacity lineup.entry.programs.now made.0 made.1.items) }
{
    let (db, units) = Database::make(alloc, schema, capacity, lineup.programs.len() as u8)?;
    let (units, ran) = run_around(rt, alloc, &db, units, lineup);
    let members = ran?;
    match settle(alloc, db, units) {
        Ok(settled) => Ok((settled, members)),
        // All units of the database came, so it was memory that was refused.
        Err(_) => Err(AllocError),
    }
}

// The turns of the others, if the first program made its statements before all others and the last one after them.
fn turns_of(
    alloc: Global,
    around: Around,
    units: u8,
    history: &[Entry],
) -> Result<Option<Vec<u8>>, AllocError>
    requires few { units ≤ 8 }
    ensures found { IfOk result (λ found. IfSome found (λ turns. AreBetween around units (map (λ e. e.unit) history.now) turns.items)) }
    ensures none { IfOk result (λ found. IfNone found ((between : List ℕ) → AreBetween around units (map (λ e. e.unit) history.now) between → ⊥)) }
{
    let turns = units_in_turn(alloc, history)?;
    match turns_between(around, units, turns.as_slice()) {
        Some(between) => Ok(Some(Vec::from_slice(alloc, between)?)),
        None => Ok(None),
    }
}

// The settled database as a run of programs, without results of moves.
fn given_of(alloc: Global, settled: Settled, members: Vec<Member>) -> Result<ProgramRun, AllocError>
    ensures history { IfOk result (λ given. given.run.history ≡ settled.history) }
    ensures image { IfOk result (λ given. given.run.image ≡ settled.image) }
    ensures units { IfOk result (λ given. given.run.units ≡ settled.units) }
    ensures results { IfOk result (λ given. given.run.results ≡ []) }
    ensures programs { IfOk result (λ given. given.programs ≡ map reached_by members.items) }
{
    let programs = reached_by_each(alloc, members)?;
    let Settled {
        image,
        history,
        units,
        ..
    } = settled;
    let run = Run {
        results: Row::of(Vec::new(alloc)),
        image,
        history,
        units,
    };
    Ok(ProgramRun { run, programs })
}

/// Runs programs on threads to their ends, starting with the opening database, each by a unit of its own on a thread of its own. A first
/// program runs to its end before the others begin, and a last one begins when all others have ended. No contract of units says that they
/// draw the first and the last tickets: a run in which they did otherwise would be repeated.
pub fn run_on_threads<R: Threads + Wait + Sync>(
    rt: &R,
    alloc: Global,
    schema: &Schema,
    capacity: u16,
    lineup: Lineup<'_>,
) -> Result<OnThreads, AllocError>
    requires sound { IsSound schema.now }
    requires count { (1 ≤ length lineup.programs.now) × (length lineup.programs.now ≤ 8) }
    ensures { IfOk result (λ on. IsRunOnThreads schema.now capacity lineup.entry.programs.now lineup.entry.around on.turns.items on.given) }
{
    let units = lineup.programs.len() as u8;
    'again: for _ in rt.forever() {
        let own = schema.copy(alloc)?;
        let (settled, members) = settled_of(rt, alloc, own, capacity, lineup)?;
        let history = settled.history.as_slice();
        if let Some(turns) = turns_of(alloc, lineup.around, units, history)? {
            let given = given_of(alloc, settled, members)?;
            return Ok(OnThreads { given, turns });
        }
    }
    unreachable!()
}
