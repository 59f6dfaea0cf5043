//! A unit quits: before its ticket it gives back all that it holds. This takes no memory.
ghost use Rattle.std.specs.Prelude.{◌≡◌, ◌≤◌, ◌<◌, ◌-◌, [], length, None, reverse, slice_get, Some};
ghost use Rattle.dbtg_step.specs.declared.parts.UnitState.{UnitState};
ghost use Rattle.dbtg_step.specs.Inside.Parts.{written_homes};
ghost use Rattle.dbtg_step.specs.Inside.Stands.{HavePlaces, StandsUnticketed};
ghost use Rattle.dbtg_step.specs.Inside.Events.{IsQuit, IsWell};

use crate::parts::{CellLocation, Parts};
use crate::table::put_home;
use dbtg_schema::Schema;
use dbtg_unit::{Held, Stepped};

/// All cells go home, the newest first.
fn give_each_cell(schema: &Schema, capacity: u16, table: &mut Vec<CellLocation>, held: &mut Held)
    requires { HavePlaces schema.now capacity held.old.cells table.old.items }
    ensures table { table.new.items ≡ written_homes schema.now capacity (reverse held.old.cells) table.old.items }
    ensures held { held.new ≡ record held.old { cells = [] } }
{
    while let Some((name, cell)) = held.pop_cell() {
        put_home(schema, capacity, table, &name, cell);
    }
}

/// All areas are left.
fn leave_areas(held: &mut Held)
    ensures { held.new ≡ record held.old { areas = [] } }
{
    while let Some(_area) = held.pop_area() {}
}

fn quit_event(schema: &Schema, capacity: u16, parts: &mut Parts, unit: u8) -> Stepped
    requires numbered { 0 < unit }
    requires within { unit ≤ length parts.old.runners.items }
    requires well { IsWell schema.now capacity parts.old }
    requires stands { (r : UnitState) → slice_get parts.old.runners.items (unit - 1) ≡ Some r → StandsUnticketed r }
    ensures { IsQuit schema.now capacity unit result parts.old parts.new }
{
    let runner = &mut parts.runners[unit as usize - 1];
    give_each_cell(schema, capacity, &mut parts.table, &mut runner.held);
    leave_areas(&mut runner.held);
    runner.progress = None;
    Stepped::Moved
}

/// The unit quits.
pub fn quit(schema: &Schema, capacity: u16, parts: &mut Parts, unit: u8) -> Stepped
    requires well { IsWell schema.now capacity parts.old }
    ensures { IsQuit schema.now capacity unit result parts.old parts.new }
{
    if unit == 0 || parts.runners.len() < unit as usize {
        return Stepped::Idle;
    }
    match parts.runners[unit as usize - 1].progress {
        None => Stepped::Idle,
        Some(progress) => {
            if progress.ticket.is_some() {
                Stepped::Idle
            } else {
                quit_event(schema, capacity, parts, unit)
            }
        }
    }
}
