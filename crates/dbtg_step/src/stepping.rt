//! The events of a unit, one per function; each is the machine's step in the state that it finds.
ghost use Rattle.std.specs.Prelude.{◌≡◌, ℕ, ◌≤◌, ◌<◌, ◌-◌, length, slice_get, [], Some};
ghost use Rattle.dbtg_schema.specs.Lists.{Lists};
ghost use Rattle.dbtg_step.specs.declared.parts.UnitState.{UnitState};
ghost use Rattle.dbtg_step.specs.Inside.Stands.{StandsBetween, StandsTicketed, StandsTurning};
ghost use Rattle.dbtg_step.specs.Inside.Events.{IsStepped, IsWell};

use crate::needing::event_before_ticket;
use crate::parts::{Parts, StatementProgress};
use crate::runner::{Phase, begin, close, link, phase_of, progress_of, turn_back};
use crate::table::give_cell;
use dbtg_schema::Schema;
use dbtg_unit::Stepped;
use std::alloc::Global;

/// Begins the next statement.
pub fn begin_event(parts: &mut Parts, unit: u8) -> Stepped
    requires numbered { 0 < unit }
    requires within { unit ≤ length parts.old.runners.items }
    requires stands { (r : UnitState) → slice_get parts.old.runners.items (unit - 1) ≡ Some r → StandsBetween r }
    ensures { (schema : Lists) (capacity : ℕ) → IsWell schema capacity parts.old → IsStepped schema capacity unit result parts.old parts.new }
{
    begin(&mut parts.runners[unit as usize - 1]);
    Stepped::Moved
}

/// Links a cell that is held.
pub fn link_event(parts: &mut Parts, unit: u8, progress: StatementProgress) -> Stepped
    requires numbered { 0 < unit }
    requires within { unit ≤ length parts.old.runners.items }
    requires stands { (r : UnitState) → slice_get parts.old.runners.items (unit - 1) ≡ Some r → StandsTicketed r progress }
    requires left { (r : UnitState) → slice_get parts.old.runners.items (unit - 1) ≡ Some r → progress.linked < length r.held.cells }
    ensures { (schema : Lists) (capacity : ℕ) → IsWell schema capacity parts.old → IsStepped schema capacity unit result parts.old parts.new }
{
    link(&mut parts.runners[unit as usize - 1], progress);
    Stepped::Moved
}

/// With a ticket and all links made, puts the newest cell home.
pub fn give_cell_event(
    schema: &Schema,
    capacity: u16,
    parts: &mut Parts,
    unit: u8,
    progress: StatementProgress,
) -> Stepped
    requires numbered { 0 < unit }
    requires within { unit ≤ length parts.old.runners.items }
    requires well { IsWell schema.now capacity parts.old }
    requires stands { (r : UnitState) → slice_get parts.old.runners.items (unit - 1) ≡ Some r → StandsTicketed r progress }
    requires linked { (r : UnitState) → slice_get parts.old.runners.items (unit - 1) ≡ Some r → length r.held.cells ≤ progress.linked }
    requires cells { (r : UnitState) → slice_get parts.old.runners.items (unit - 1) ≡ Some r → 0 < length r.held.cells }
    ensures { IsStepped schema.now capacity unit result parts.old parts.new }
{
    // Unused here; the contract mentions it.
    let _ = progress.linked;
    let runner = &mut parts.runners[unit as usize - 1];
    give_cell(schema, capacity, &mut parts.table, &mut runner.held);
    close(runner);
    Stepped::Moved
}

/// With a ticket and all cells at home, leaves the newest area.
pub fn leave_area_event(parts: &mut Parts, unit: u8, progress: StatementProgress) -> Stepped
    requires numbered { 0 < unit }
    requires within { unit ≤ length parts.old.runners.items }
    requires stands { (r : UnitState) → slice_get parts.old.runners.items (unit - 1) ≡ Some r → StandsTicketed r progress }
    requires cells { (r : UnitState) → slice_get parts.old.runners.items (unit - 1) ≡ Some r → length r.held.cells ≡ 0 }
    ensures { (schema : Lists) (capacity : ℕ) → IsWell schema capacity parts.old → IsStepped schema capacity unit result parts.old parts.new }
{
    // Unused here; the contract mentions it.
    let _ = progress.linked;
    let runner = &mut parts.runners[unit as usize - 1];
    let _ = runner.held.pop_area();
    close(runner);
    Stepped::Moved
}

/// A unit that turns back puts its newest cell back.
pub fn turn_back_event(
    schema: &Schema,
    capacity: u16,
    parts: &mut Parts,
    unit: u8,
    progress: StatementProgress,
) -> Stepped
    requires numbered { 0 < unit }
    requires within { unit ≤ length parts.old.runners.items }
    requires well { IsWell schema.now capacity parts.old }
    requires stands { (r : UnitState) → slice_get parts.old.runners.items (unit - 1) ≡ Some r → StandsTurning r progress }
    ensures { IsStepped schema.now capacity unit result parts.old parts.new }
{
    let runner = &mut parts.runners[unit as usize - 1];
    give_cell(schema, capacity, &mut parts.table, &mut runner.held);
    turn_back(runner, progress);
    Stepped::Moved
}

/// With a ticket: a link while one is left, then each cell goes home, then each area is left.
fn end_event(
    schema: &Schema,
    capacity: u16,
    parts: &mut Parts,
    unit: u8,
    progress: StatementProgress,
) -> Stepped
    requires numbered { 0 < unit }
    requires within { unit ≤ length parts.old.runners.items }
    requires well { IsWell schema.now capacity parts.old }
    requires stands { (r : UnitState) → slice_get parts.old.runners.items (unit - 1) ≡ Some r → StandsTicketed r progress }
    ensures { IsStepped schema.now capacity unit result parts.old parts.new }
{
    let count = parts.runners[unit as usize - 1].held.cell_count();
    if progress.linked < count {
        link_event(parts, unit, progress)
    } else if 0 < count {
        give_cell_event(schema, capacity, parts, unit, progress)
    } else {
        leave_area_event(parts, unit, progress)
    }
}

/// One step of a unit.
pub fn step(alloc: Global, schema: &Schema, capacity: u16, parts: &mut Parts, unit: u8) -> Stepped
    requires well { IsWell schema.now capacity parts.old }
    ensures { IsStepped schema.now capacity unit result parts.old parts.new }
{
    if unit == 0 || parts.runners.len() < unit as usize {
        return Stepped::Idle;
    }
    let runner = &parts.runners[unit as usize - 1];
    match phase_of(runner) {
        Phase::Over => Stepped::Idle,
        Phase::Between => begin_event(parts, unit),
        Phase::TurningBack => {
            let progress = progress_of(runner);
            turn_back_event(schema, capacity, parts, unit, progress)
        }
        Phase::Needing => {
            let progress = progress_of(runner);
            event_before_ticket(alloc, schema, capacity, parts, unit, progress)
        }
        Phase::Ticketed => {
            let progress = progress_of(runner);
            end_event(schema, capacity, parts, unit, progress)
        }
    }
}
