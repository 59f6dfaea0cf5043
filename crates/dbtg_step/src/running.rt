//! Runs: the results of a list of moves, one unit after another, and turns of whole statements.
ghost use Rattle.std.specs.Prelude.{◌≡◌, ◌≤◌, ◌<◌, true, List, length, map, reverse, take, IfOk, OnErr, OnOk};
ghost use Rattle.std.specs.List.{list_all};
ghost use Rattle.std.specs.Option.{option_to_list};
ghost use Rattle.dbtg_schema.specs.Sound.{IsSound};
ghost use Rattle.dbtg_unit.specs.declared.moves.Move.{Move};
ghost use Rattle.dbtg_unit.specs.Database.Statements.Fits.{fits};
ghost use Rattle.dbtg_step.specs.Core.CoreSteps.{after_move, result_of_move};
ghost use Rattle.dbtg_step.specs.Machine.Headline.{RunIs};
ghost use Rattle.dbtg_step.specs.Laws.{scripts_fit};
ghost use Rattle.dbtg_step.specs.Core.Parts.{machine};
ghost use Rattle.dbtg_step.specs.Inside.Runs.{after_moves, results_of_moves};
ghost use Rattle.dbtg_step.specs.Core.Serial.{SerialRunIs, in_turn_from};
ghost use Rattle.dbtg_step.specs.Core.Turns.{IsRunByTurns};
ghost use Rattle.dbtg_step.specs.Inside.Turns.{after_turn, left_at, made_in_turn, statements_in_turn};
ghost use Rattle.dbtg_step.specs.Inside.Whole.{HasMadeAll};

use crate::machine::Core;
use crate::results::Run;
use crate::whole::WholeDatabase;
use dbtg_schema::{Row, Schema};
use dbtg_unit::{LAST_UNIT, Move, Statement, Stepped};
use std::alloc::{AllocError, Global};

/// Makes one move; a step for which memory is refused is an error, and changes nothing.
pub fn make_move(core: &mut Core, one: Move) -> Result<Stepped, AllocError>
    ensures core { OnOk result (machine core.new ≡ after_move (machine core.old) one) }
    ensures result { IfOk result (λ stepped. stepped ≡ result_of_move (machine core.old) one) }
    ensures unchanged { OnErr result (machine core.new ≡ machine core.old) }
{
    let stepped = match one {
        Move::Step(unit) => core.step(unit),
        Move::Quit(unit) => core.quit(unit),
    };
    match stepped {
        Stepped::NoMemory => Err(AllocError),
        stepped => Ok(stepped),
    }
}

// Makes the moves in turn, and gives their results.
fn make_each_move(
    alloc: Global,
    core: &mut Core,
    moves: &[Move],
) -> Result<Vec<Stepped>, AllocError>
    ensures core { OnOk result (machine core.new ≡ after_moves (machine core.old) moves.now) }
    ensures results { IfOk result (λ results. results.items ≡ results_of_moves (machine core.old) moves.now) }
{
    let mut results = Vec::with_capacity(alloc, moves.len())?;
    for one in moves {
        results.push(make_move(core, *one)?)?;
    }
    Ok(results)
}

/// Makes the moves in turn, starting with the opening database, with a unit for each script. A step for which memory is refused ends it.
pub fn run(
    alloc: Global,
    schema: &Schema,
    capacity: u16,
    scripts: Row<Row<Statement>>,
    moves: &[Move],
) -> Result<Run, AllocError>
    requires sound { IsSound schema.now }
    requires units { length scripts ≤ LAST_UNIT }
    requires fit { scripts_fit schema.now scripts ≡ true }
    ensures { IfOk result (λ given. RunIs schema.now capacity scripts moves.now given) }
{
    let mut core = Core::new(alloc, schema, capacity, scripts)?;
    let results = make_each_move(alloc, &mut core, moves)?;
    core.into_run(results)
}

// The statements of a unit's script, one after another.
fn make_script(
    database: &mut WholeDatabase<'_>,
    unit: u8,
    script: Row<Statement>,
) -> Result<(), AllocError>
    requires numbered { 0 < unit }
    requires within { unit ≤ database.old.units }
    requires fitting { list_all (fits database.old.schema) script ≡ true }
    ensures { OnOk result (HasMadeAll database.old (map (λ x. (unit, x)) script) database.new) }
{
    for statement in script.into_vec() {
        database.make(unit, statement)?;
    }
    Ok(())
}

// The scripts of the units, one after another.
fn make_each_script(
    database: &mut WholeDatabase<'_>,
    scripts: Row<Row<Statement>>,
) -> Result<(), AllocError>
    requires units { length scripts ≡ database.old.units }
    requires few { length scripts ≤ LAST_UNIT }
    requires fitting { scripts_fit database.old.schema scripts ≡ true }
    ensures { OnOk result (HasMadeAll database.old (in_turn_from 1 scripts) database.new) }
{
    let mut before = 0;
    for script in scripts.into_vec() {
        make_script(database, before + 1, script)?;
        before += 1;
    }
    Ok(())
}

/// Makes all statements of unit 1 whole, one after another, then those of unit 2, and so on, however long the scripts are. No
/// move has a result. If memory is refused, it ends.
pub fn run_serial(
    alloc: Global,
    schema: &Schema,
    capacity: u16,
    scripts: Row<Row<Statement>>,
) -> Result<Run, AllocError>
    requires sound { IsSound schema.now }
    requires units { length scripts ≤ LAST_UNIT }
    requires fit { scripts_fit schema.now scripts ≡ true }
    ensures { IfOk result (λ given. SerialRunIs schema.now capacity scripts given) }
{
    let units = scripts.len() as u8;
    let mut database = WholeDatabase::opening(alloc, schema, capacity, units)?;
    make_each_script(&mut database, scripts)?;
    database.into_run()
}

// The statements of each script, the first of them last.
fn whole_scripts(
    alloc: Global,
    scripts: Row<Row<Statement>>,
) -> Result<Vec<Vec<Statement>>, AllocError>
    ensures { IfOk result (λ left. map (λ script. reverse script.items) left.items ≡ scripts) }
{
    let mut left = Vec::with_capacity(alloc, scripts.len())?;
    for script in scripts.into_vec() {
        let mut script = script.into_vec();
        script.reverse();
        left.push(script)?;
    }
    Ok(left)
}

// The next statement of the unit with this number; none if there is no such unit, or its script is at its end.
fn next_statement(left: &mut Vec<Vec<Statement>>, unit: u8) -> Option<Statement>
    ensures given { option_to_list result ≡ take 1 (left_at (map (λ script. reverse script.items) left.old.items) unit) }
    ensures left { map (λ script. reverse script.items) left.new.items ≡ after_turn (map (λ script. reverse script.items) left.old.items) unit }
{
    if unit == 0 || left.len() < unit as usize {
        return None;
    }
    left[unit as usize - 1].pop()
}

// The unit makes its next statement, if it has one.
fn make_turn(
    database: &mut WholeDatabase<'_>,
    left: &mut Vec<Vec<Statement>>,
    unit: u8,
) -> Result<(), AllocError>
    requires units { length left.old.items ≡ database.old.units }
    requires fitting { scripts_fit database.old.schema (map (λ script. reverse script.items) left.old.items) ≡ true }
    ensures made { OnOk result (HasMadeAll database.old (made_in_turn (map (λ script. reverse script.items) left.old.items) unit) database.new) }
    ensures left { map (λ script. reverse script.items) left.new.items ≡ after_turn (map (λ script. reverse script.items) left.old.items) unit }
{
    match next_statement(left, unit) {
        Some(statement) => database.make(unit, statement),
        None => Ok(()),
    }
}

// The statements of these turns, one after another.
fn make_each_turn(
    database: &mut WholeDatabase<'_>,
    mut left: Vec<Vec<Statement>>,
    turns: &[u8],
) -> Result<(), AllocError>
    requires units { length left.items ≡ database.old.units }
    requires fitting { scripts_fit database.old.schema (map (λ script. reverse script.items) left.items) ≡ true }
    ensures { OnOk result (HasMadeAll database.old (statements_in_turn (map (λ script. reverse script.items) left.items) turns.now) database.new) }
{
    for unit in turns {
        make_turn(database, &mut left, *unit)?;
    }
    Ok(())
}

/// The same run as `run_turns` gives, without its moves: each statement is made whole.
pub fn run_whole_turns(
    alloc: Global,
    schema: &Schema,
    capacity: u16,
    scripts: Row<Row<Statement>>,
    turns: &[u8],
) -> Result<Run, AllocError>
    requires sound { IsSound schema.now }
    requires units { length scripts ≤ LAST_UNIT }
    requires fit { scripts_fit schema.now scripts ≡ true }
    ensures { IfOk result (λ given. (moves : List Move) × IsRunByTurns schema.now capacity scripts turns.now moves given) }
{
    let units = scripts.len() as u8;
    let mut database = WholeDatabase::opening(alloc, schema, capacity, units)?;
    let left = whole_scripts(alloc, scripts)?;
    make_each_turn(&mut database, left, turns)?;
    database.into_run()
}
