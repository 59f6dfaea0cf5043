//! The turns that were taken before programs meet.

ghost use Rattle.dbtg_exploring.specs.Exploring.{Begins, IsRunBefore};
ghost use Rattle.dbtg_going.specs.Turns.{first_turns, is_heard, turns_before};
ghost use Rattle.dbtg_schema.specs.Sound.{IsSound};
ghost use Rattle.std.specs.Prelude.{◌≡◌, ◌≤◌, ◌++◌, IfOk, OnOk, Some, filter, length};

use crate::setting::Setting;
use dbtg_going::{Around, ProgramRun, run_programs, units_in_turn};
use dbtg_unit::{LAST_UNIT, MOST_STATEMENTS};
use std::alloc::{AllocError, Global};

// The turns in which the first program goes to its end, if there is one.
fn first_turns(alloc: Global, around: Around, units: u8) -> Result<Vec<u8>, AllocError>
    ensures { IfOk result (λ turns. turns.items ≡ first_turns around units) }
{
    let mut turns = Vec::new(alloc);
    if !around.first {
        return Ok(turns);
    }
    let unit = around.others(units) + 1;
    turns.resize(MOST_STATEMENTS, unit)?;
    Ok(turns)
}

// Appends the turns that count: all but those of the last program's unit.
fn push_heard(turns: &mut Vec<u8>, around: Around, units: u8, told: &[u8]) -> Result<(), AllocError>
    ensures { OnOk result (turns.new.items ≡ turns.old.items ++ filter (is_heard around units) told.now) }
{
    for unit in told {
        if around.is_heard(units, *unit) {
            turns.push(*unit)?;
        }
    }
    Ok(())
}

// The turns before programs meet.
fn turns_before(
    alloc: Global,
    around: Around,
    units: u8,
    told: &[u8],
) -> Result<Vec<u8>, AllocError>
    ensures { IfOk result (λ turns. turns.items ≡ turns_before around units (Some told.now)) }
{
    let mut turns = first_turns(alloc, around, units)?;
    push_heard(&mut turns, around, units, told)?;
    Ok(turns)
}

/// The run of these turns.
pub fn run_before(alloc: Global, setting: &Setting) -> Result<ProgramRun, AllocError>
    requires sound { IsSound setting.now.schema.now }
    requires few { length setting.now.programs.now ≤ LAST_UNIT }
    ensures { IfOk result (IsRunBefore setting.now.schema.now setting.now.programs.now setting.now.told.now setting.now.asked) }
{
    let Setting {
        schema,
        programs,
        told,
        asked,
        ..
    } = *setting;
    let turns = turns_before(alloc, asked.around, programs.len() as u8, told)?;
    // The first program's turns are among these.
    let alike = Around {
        first: false,
        last: false,
    };
    run_programs(
        alloc,
        schema,
        asked.capacity,
        programs,
        alike,
        Some(turns.as_slice()),
    )
}

/// The turns of its statements. Those that make no statement are left out: the first program is given as many turns as a unit can have, and
/// each state that is made anew would take them all.
pub fn begun_turns(
    alloc: Global,
    setting: &Setting,
    before: &ProgramRun,
) -> Result<Vec<u8>, AllocError>
    requires { IsRunBefore setting.now.schema.now setting.now.programs.now setting.now.told.now setting.now.asked before.now }
    ensures { IfOk result (λ begun. Begins setting.now.schema.now setting.now.programs.now setting.now.told.now setting.now.asked begun.items) }
{
    units_in_turn(alloc, before.run.history.as_slice())
}
