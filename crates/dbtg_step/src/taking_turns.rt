//! Interleavings by whole statements: units take turns, and each turn consists of the events of one statement.
ghost use Rattle.std.specs.Prelude.{◌≡◌, ℕ, ◌<◌, ◌≤◌, ◌-◌, ◌∷◌, ◌++◌, [], true, List, drop, length, map, take, IfOk, OnOk};
ghost use Rattle.std.specs.Bool.{Decides};
ghost use Rattle.dbtg_schema.specs.Lists.{Lists};
ghost use Rattle.dbtg_schema.specs.Sound.{IsSound};
ghost use Rattle.dbtg_unit.specs.declared.moves.Move.{Move};
ghost use Rattle.dbtg_step.specs.declared.parts.UnitState.{UnitState};
ghost use Rattle.dbtg_step.specs.declared.taking_turns.Noted.{Noted};
ghost use Rattle.dbtg_step.specs.Laws.{scripts_fit};
ghost use Rattle.dbtg_step.specs.Machine.Network.{network};
ghost use Rattle.dbtg_step.specs.Core.Parts.{machine, unit_state_of};
ghost use Rattle.dbtg_step.specs.Inside.Parts.{core_of, state_of};
ghost use Rattle.dbtg_step.specs.Inside.Events.{IsWell};
ghost use Rattle.dbtg_step.specs.Core.Turns.{AllBetween, AreGiven, TurnedIs};
ghost use Rattle.dbtg_step.specs.Inside.Turns.{HaveTurned, IsDone, IsNoted, NotesMore, TurnsLead};

use crate::machine::Core;
use crate::parts::{Parts, UnitState};
use crate::results::Run;
use crate::stepping::step;
use dbtg_schema::{Row, Schema};
use dbtg_unit::{LAST_UNIT, Move, Statement, Stepped};
use std::alloc::{AllocError, Global};

/// The result of a run by turns: the run, whose moves have no results, and the moves that its turns stand for; none if there are more
/// than were asked for.
#[derive(Drop)]
pub struct Turned {
    pub run: Run,
    pub moves: Option<Row<Move>>,
}

impl Turned {
    /// The moves alone.
    pub fn into_moves(self) -> Option<Row<Move>>
        ensures { result ≡ self.moves }
    {
        let Turned { moves, .. } = self;
        moves
    }
}

/// The first of the moves that were made, up to a limit, and whether there are more.
#[derive(Drop)]
pub struct Noted {
    pub moves: Vec<Move>,
    pub limit: usize,
    pub over: bool,
}

impl Noted {
    // Notes one more move.
    fn note(&mut self, made: Move) -> Result<(), AllocError>
        ensures { OnOk result (NotesMore self.old self.new (made ∷ [])) }
    {
        if self.moves.len() < self.limit {
            self.moves.push(made)?;
        } else {
            self.over = true;
        }
        Ok(())
    }

    // Nothing yet.
    fn new(alloc: Global, limit: usize) -> Noted
        ensures limit { result.limit ≡ limit }
        ensures nothing { IsNoted result [] }
    {
        Noted {
            moves: Vec::new(alloc),
            limit,
            over: false,
        }
    }

    // The moves, if no more of them were made than the limit.
    fn into_moves(self) -> Option<Row<Move>>
        ensures { (moves : List Move) → IsNoted self moves → AreGiven self.limit moves result }
    {
        let Noted { moves, over, .. } = self;
        if over { None } else { Some(Row::of(moves)) }
    }
}

// How many statements the unit has left.
fn statements_left(runner: &UnitState) -> usize
    ensures { result ≡ length (drop runner.now.next runner.now.script) }
{
    runner.script.len().saturating_sub(runner.next)
}

// Whether the unit is between statements, with at most `left` of them to make.
fn is_done(runner: &UnitState, left: usize) -> bool
    ensures { (schema : Lists) (capacity : ℕ) → Decides result (IsDone (network schema capacity) left (unit_state_of schema capacity runner.now)) }
{
    runner.progress.is_none() & (statements_left(runner) <= left)
}

/// One turn of a unit, step by step; nothing if there is no such unit, or its script is at its end. No other unit holds
/// anything, so the unit never waits, and its steps come to an end.
pub fn take_one_turn(
    alloc: Global,
    schema: &Schema,
    capacity: u16,
    parts: &mut Parts,
    unit: u8,
    noted: &mut Noted,
) -> Result<(), AllocError>
    requires well { IsWell schema.now capacity parts.old }
    requires between { AllBetween (network schema.now capacity) (state_of schema.now capacity parts.old) }
    ensures well { IsWell schema.now capacity parts.new }
    ensures turned { OnOk result (HaveTurned (core_of schema.now capacity parts.old) (unit ∷ []) (core_of schema.now capacity parts.new) noted.old noted.new) }
{
    if unit == 0 || parts.runners.len() < unit as usize {
        return Ok(());
    }
    let left = statements_left(&parts.runners[unit as usize - 1]);
    if left == 0 {
        return Ok(());
    }
    while !is_done(&parts.runners[unit as usize - 1], left - 1) {
        match step(alloc, schema, capacity, parts, unit) {
            Stepped::Moved => noted.note(Move::Step(unit))?,
            Stepped::NoMemory => return Err(AllocError),
            Stepped::Blocked => unreachable!(),
            Stepped::Idle => unreachable!(),
        }
    }
    Ok(())
}

/// The units take these turns, one after another. If memory is refused it stops there.
pub fn take_turns(
    alloc: Global,
    schema: &Schema,
    capacity: u16,
    parts: &mut Parts,
    turns: &[u8],
    noted: &mut Noted,
) -> Result<(), AllocError>
    requires well { IsWell schema.now capacity parts.old }
    requires between { AllBetween (network schema.now capacity) (state_of schema.now capacity parts.old) }
    ensures well { IsWell schema.now capacity parts.new }
    ensures turned { OnOk result (HaveTurned (core_of schema.now capacity parts.old) turns.now (core_of schema.now capacity parts.new) noted.old noted.new) }
{
    for unit in turns {
        take_one_turn(alloc, schema, capacity, parts, *unit, noted)?;
    }
    Ok(())
}

// The units of the core take these turns; the moves that the turns stand for, if these are no more than the limit.
fn moves_of_turns(
    alloc: Global,
    core: &mut Core,
    turns: &[u8],
    limit: usize,
) -> Result<Option<Row<Move>>, AllocError>
    requires { AllBetween (network (machine core.old).schema (machine core.old).capacity) (machine core.old).state }
    ensures { IfOk result (λ given. (moves : List Move) × TurnsLead (machine core.old) turns.now moves (machine core.new) × AreGiven limit moves given) }
{
    let mut noted = Noted::new(alloc, limit);
    core.take_turns(turns, &mut noted)?;
    Ok(noted.into_moves())
}

/// The units take these turns, starting with the opening database, with a unit for each script: a turn is the events of a unit up to
/// the last of its next statement, and nothing if there is no such unit or its script is at its end. The moves that the turns
/// stand for are given if they are no more than the limit; a run with more of them still goes on to its end. A step for
/// which memory is refused ends it.
pub fn run_turns(
    alloc: Global,
    schema: &Schema,
    capacity: u16,
    scripts: Row<Row<Statement>>,
    turns: &[u8],
    limit: usize,
) -> Result<Turned, AllocError>
    requires sound { IsSound schema.now }
    requires units { length scripts ≤ LAST_UNIT }
    requires fit { scripts_fit schema.now scripts ≡ true }
    ensures { IfOk result (λ given. TurnedIs schema.now capacity scripts turns.now limit given) }
{
    let mut core = Core::new(alloc, schema, capacity, scripts)?;
    let moves = moves_of_turns(alloc, &mut core, turns, limit)?;
    let run = core.into_run(Vec::new(alloc))?;
    Ok(Turned { run, moves })
}
