//! The order in which units make their statements: turns, the moves that they stand for, and the script that is made first.
ghost use Rattle.std.specs.Prelude.{◌≡◌, ◌≤◌, ◌++◌, IfOk, List, OnOk, drop, length, replicate, true};
ghost use Rattle.dbtg_schema.specs.Sound.{IsSound};
ghost use Rattle.dbtg_unit.specs.declared.moves.Move.{Move};
ghost use Rattle.dbtg_step.specs.Laws.{scripts_fit};
ghost use Rattle.dbtg_replay.specs.Ordering.{AreFirstMoves, StandFor, first_turns, serial_turns};

use dbtg_command::copy_each_script;
use dbtg_schema::{Row, Schema};
use dbtg_step::run_turns;
use dbtg_unit::{LAST_UNIT, Move, Statement};
use std::alloc::{AllocError, Global};

/// The moves of a run, and how many of them, at the beginning, make the script that is made first.
#[derive(Drop)]
pub struct AllMoves {
    pub moves: Vec<Move>,
    pub before: usize,
}

/// The elements of a list without the first `count`.
pub fn behind<T>(all: &[T], count: usize) -> &[T]
    ensures { result.now ≡ drop count all.now }
{
    &all[count.min(all.len())..]
}

fn push_turns(turns: &mut Vec<u8>, unit: u8, count: usize) -> Result<(), AllocError>
    ensures { OnOk result (turns.new.items ≡ turns.old.items ++ replicate count unit) }
{
    for _turn in 0..count {
        turns.push(unit)?;
    }
    Ok(())
}

/// The turns by which one script is made after the other.
pub fn serial_turns(alloc: Global, scripts: &[Row<Statement>]) -> Result<Vec<u8>, AllocError>
    requires { length scripts.now ≤ LAST_UNIT }
    ensures { IfOk result (λ turns. turns.items ≡ serial_turns 1 scripts.now) }
{
    let mut turns = Vec::new(alloc);
    let mut unit = 0;
    for script in scripts {
        unit += 1;
        push_turns(&mut turns, unit, script.len())?;
    }
    Ok(turns)
}

/// The turns that make the last script, if it is to be made first.
pub fn first_turns(
    alloc: Global,
    first: bool,
    scripts: &[Row<Statement>],
) -> Result<Vec<u8>, AllocError>
    requires { length scripts.now ≤ LAST_UNIT }
    ensures { IfOk result (λ turns. turns.items ≡ first_turns first scripts.now) }
{
    let mut turns = Vec::new(alloc);
    if !first {
        return Ok(turns);
    }
    if let Some(script) = scripts.get(scripts.len().saturating_sub(1)) {
        push_turns(&mut turns, scripts.len() as u8, script.len())?;
    }
    Ok(turns)
}

/// These turns, after those that make the last script if it is to be made first.
pub fn turns_behind_first(
    alloc: Global,
    first: bool,
    scripts: &[Row<Statement>],
    turns: &[u8],
) -> Result<Vec<u8>, AllocError>
    requires { length scripts.now ≤ LAST_UNIT }
    ensures { IfOk result (λ all. all.items ≡ first_turns first scripts.now ++ turns.now) }
{
    let mut all = first_turns(alloc, first, scripts)?;
    all.extend_from_slice(turns)?;
    Ok(all)
}

/// The moves that turns stand for, all of them.
pub fn moves_of_turns(
    alloc: Global,
    schema: &Schema,
    capacity: u16,
    scripts: Row<Row<Statement>>,
    turns: &[u8],
) -> Result<Row<Move>, AllocError>
    requires sound { IsSound schema.now }
    requires units { length scripts ≤ LAST_UNIT }
    requires fit { scripts_fit schema.now scripts ≡ true }
    ensures { IfOk result (λ moves. StandFor schema.now capacity scripts turns.now moves) }
{
    let turned = run_turns(alloc, schema, capacity, scripts, turns, usize::MAX)?;
    match turned.into_moves() {
        Some(moves) => Ok(moves),
        None => Err(AllocError),
    }
}

/// These moves, after those that make the last script if it is to be made first.
pub fn moves_behind_first(
    alloc: Global,
    first: bool,
    schema: &Schema,
    capacity: u16,
    scripts: &[Row<Statement>],
    moves: Vec<Move>,
) -> Result<AllMoves, AllocError>
    requires sound { IsSound schema.now }
    requires units { length scripts.now ≤ LAST_UNIT }
    requires fit { scripts_fit schema.now scripts.now ≡ true }
    ensures { IfOk result (λ all. (before : List Move) × AreFirstMoves first schema.now capacity scripts.now before × (all.moves.items ≡ before ++ moves.items) × (all.before ≡ length before)) }
{
    if !first {
        return Ok(AllMoves { moves, before: 0 });
    }
    let turns = first_turns(alloc, true, scripts)?;
    let copies = copy_each_script(alloc, scripts)?;
    let mut all = moves_of_turns(alloc, schema, capacity, copies, turns.as_slice())?.into_vec();
    let before = all.len();
    all.extend_from_slice(moves.as_slice())?;
    Ok(AllMoves { moves: all, before })
}
