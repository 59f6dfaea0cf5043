//! The events of a statement before its ticket: it takes the area or the cell that it needs next, or turns back.
ghost use Rattle.std.specs.Prelude.{◌≡◌, ℕ, ◌≤◌, ◌<◌, ◌-◌, ◌++◌, ◌∷◌, ◌||◌, [], length, drop, take, slice_get, true, false, Some, IfOk, IfSome, OnErr, OnOk};
ghost use Rattle.std.specs.List.{list_any};
ghost use Rattle.dbtg_cells.specs.Names.{name_eq};
ghost use Rattle.dbtg_schema.specs.Lists.{Lists};
ghost use Rattle.dbtg_unit.specs.declared.held.Need.{Need};
ghost use Rattle.dbtg_unit.specs.declared.statement.Statement.{Statement};
ghost use Rattle.dbtg_step.specs.declared.parts.UnitState.{UnitState};
ghost use Rattle.dbtg_unit.specs.Database.State.Base.{Database};
ghost use Rattle.dbtg_unit.specs.Database.State.Belongs.{IsUnitOf, IsWithin};
ghost use Rattle.dbtg_unit.specs.Database.Statements.Fits.{fits};
ghost use Rattle.dbtg_unit.specs.Hands.Local.{Agrees};
ghost use Rattle.dbtg_unit.specs.Hands.Needs.{need};
ghost use Rattle.dbtg_step.specs.Machine.NeedOrder.{HasItsAreas};
ghost use Rattle.dbtg_step.specs.Machine.Network.{noted_owners};
ghost use Rattle.dbtg_step.specs.Core.Courses.{CourseMatches};
ghost use Rattle.dbtg_step.specs.Inside.Stands.{holds_against, StandsNeeding};
ghost use Rattle.dbtg_step.specs.Inside.Leaves.{IsTaken};
ghost use Rattle.dbtg_step.specs.Inside.Events.{ChangesCourseAlone, IsStepped, IsWell, NeedsNext};

use crate::drawing::ticket_event;
use crate::parts::{CellLocation, Parts, StatementProgress, UnitState};
use crate::runner::{statement_of, turn_back};
use crate::statements::{area_next, next_need, true_guesses};
use dbtg_cells::{Cell, CellName, Owners, cell_number};
use dbtg_schema::{AreaNo, Schema};
use dbtg_unit::{Held, Need, Stepped};
use std::alloc::{AllocError, Global};
use std::mem;

// What the unit's statement needs next. The unit keeps what is settled about its needs, so that it goes on from there.
fn need_of(
    alloc: Global,
    schema: &Schema,
    capacity: u16,
    runner: &mut UnitState,
) -> Result<Need, AllocError>
    requires left { runner.old.next < length runner.old.script }
    requires kept { (x : Statement) → slice_get runner.old.script runner.old.next ≡ Some x → CourseMatches schema.now capacity runner.old.held runner.old.unit x runner.old.course }
    requires fits { (x : Statement) → slice_get runner.old.script runner.old.next ≡ Some x → fits schema.now x ≡ true }
    requires of_schema { IsUnitOf schema.now runner.old.unit }
    requires within { IsWithin capacity runner.old.unit }
    ensures rest { runner.new ≡ record runner.old { course = runner.new.course } }
    ensures kept { (x : Statement) → slice_get runner.old.script runner.old.next ≡ Some x → CourseMatches schema.now capacity runner.old.held runner.old.unit x runner.new.course }
    ensures need { IfOk result (λ n. (x : Statement) (db : Database) → slice_get runner.old.script runner.old.next ≡ Some x → Agrees schema.now capacity db runner.old.held runner.old.unit → n ≡ need schema.now capacity db runner.old.unit runner.old.held x) }
    ensures refused { OnErr result ((x : Statement) → slice_get runner.old.script runner.old.next ≡ Some x → HasItsAreas schema.now runner.old.unit runner.old.held x) }
{
    let statement = &runner.script.as_slice()[runner.next];
    next_need(
        alloc,
        schema,
        capacity,
        &runner.unit,
        statement,
        &runner.held,
        &mut runner.course,
    )
}

/// What the unit needs next. Only the progress of its statement changes.
fn need_now(
    alloc: Global,
    schema: &Schema,
    capacity: u16,
    parts: &mut Parts,
    unit: u8,
    progress: StatementProgress,
) -> Result<Need, AllocError>
    requires numbered { 0 < unit }
    requires within { unit ≤ length parts.old.runners.items }
    requires well { IsWell schema.now capacity parts.old }
    requires stands { (r : UnitState) → slice_get parts.old.runners.items (unit - 1) ≡ Some r → StandsNeeding r progress }
    ensures alone { ChangesCourseAlone unit parts.old parts.new }
    ensures well { IsWell schema.now capacity parts.new }
    ensures stands { (r : UnitState) → slice_get parts.new.runners.items (unit - 1) ≡ Some r → StandsNeeding r progress }
    ensures need { IfOk result (λ n. NeedsNext schema.now capacity parts.new unit progress n) }
    ensures refused { OnErr result ((r : UnitState) (x : Statement) → slice_get parts.new.runners.items (unit - 1) ≡ Some r → slice_get r.script r.next ≡ Some x → HasItsAreas schema.now r.unit r.held x) }
{
    // Unused here; the contract mentions it.
    let _ = progress.linked;
    need_of(
        alloc,
        schema,
        capacity,
        &mut parts.runners[unit as usize - 1],
    )
}

// The area that the unit's statement needs next, if it still needs one. The unit keeps what is settled about its needs.
fn area_of(schema: &Schema, capacity: u16, runner: &mut UnitState) -> Option<AreaNo>
    requires left { runner.old.next < length runner.old.script }
    requires kept { (x : Statement) → slice_get runner.old.script runner.old.next ≡ Some x → CourseMatches schema.now capacity runner.old.held runner.old.unit x runner.old.course }
    ensures rest { runner.new ≡ record runner.old { course = runner.new.course } }
    ensures kept { (x : Statement) → slice_get runner.old.script runner.old.next ≡ Some x → CourseMatches schema.now capacity runner.old.held runner.old.unit x runner.new.course }
    ensures need { IfSome result (λ a. (x : Statement) (db : Database) → slice_get runner.old.script runner.old.next ≡ Some x → Agrees schema.now capacity db runner.old.held runner.old.unit → Need.Area a ≡ need schema.now capacity db runner.old.unit runner.old.held x) }
{
    let statement = &runner.script.as_slice()[runner.next];
    area_next(
        schema,
        capacity,
        &runner.unit,
        statement,
        &runner.held,
        &mut runner.course,
    )
}

/// The area that the unit needs next, if it still needs one: most needs are areas, and a `Need` is large. Only the progress of its
/// statement changes.
fn area_now(
    schema: &Schema,
    capacity: u16,
    parts: &mut Parts,
    unit: u8,
    progress: StatementProgress,
) -> Option<AreaNo>
    requires numbered { 0 < unit }
    requires within { unit ≤ length parts.old.runners.items }
    requires well { IsWell schema.now capacity parts.old }
    requires stands { (r : UnitState) → slice_get parts.old.runners.items (unit - 1) ≡ Some r → StandsNeeding r progress }
    ensures alone { ChangesCourseAlone unit parts.old parts.new }
    ensures well { IsWell schema.now capacity parts.new }
    ensures stands { (r : UnitState) → slice_get parts.new.runners.items (unit - 1) ≡ Some r → StandsNeeding r progress }
    ensures need { IfSome result (λ a. NeedsNext schema.now capacity parts.new unit progress (Need.Area a)) }
{
    // Unused here; the contract mentions it.
    let _ = progress.linked;
    area_of(schema, capacity, &mut parts.runners[unit as usize - 1])
}

/// Does the unit hold the area in a conflicting way?
pub fn holds_against(runner: &UnitState, exclusive: bool, area: AreaNo) -> bool
    ensures { result ≡ holds_against exclusive area runner.now }
{
    match runner.progress {
        None => false,
        Some(progress) => runner.held.has(area) && (exclusive || progress.exclusive),
    }
}

// Does one of these units hold the area in a conflicting way?
fn any_holds_against(runners: &[UnitState], exclusive: bool, area: AreaNo) -> bool
    ensures { result ≡ list_any (holds_against exclusive area) runners.now }
{
    for runner in runners {
        if holds_against(runner, exclusive, area) {
            return true;
        }
    }
    false
}

/// Does any other unit hold the area in a conflicting way?
pub fn other_holds_against(runners: &[UnitState], unit: u8, exclusive: bool, area: AreaNo) -> bool
    requires numbered { 0 < unit }
    requires within { unit ≤ length runners.now }
    ensures { result ≡ list_any (holds_against exclusive area) (take (unit - 1) runners.now) || list_any (holds_against exclusive area) (drop unit runners.now) }
{
    let next = unit as usize;
    any_holds_against(&runners[..next - 1], exclusive, area)
        || any_holds_against(&runners[next..], exclusive, area)
}

/// Takes an area, unless another unit holds it in a conflicting way.
fn take_area_event(
    parts: &mut Parts,
    unit: u8,
    progress: StatementProgress,
    area: AreaNo,
) -> Stepped
    requires numbered { 0 < unit }
    requires within { unit ≤ length parts.old.runners.items }
    requires stands { (r : UnitState) → slice_get parts.old.runners.items (unit - 1) ≡ Some r → StandsNeeding r progress }
    ensures { (schema : Lists) (capacity : ℕ) → IsWell schema capacity parts.old → NeedsNext schema capacity parts.old unit progress (Need.Area area) → IsStepped schema capacity unit result parts.old parts.new }
{
    if other_holds_against(&parts.runners, unit, progress.exclusive, area) {
        return Stepped::Blocked;
    }
    match parts.runners[unit as usize - 1].held.push_area(area) {
        Ok(()) => Stepped::Moved,
        Err(_) => Stepped::NoMemory,
    }
}

// Takes a cell that was at home in this place; if memory for it is refused it goes home again.
fn put_in_hand(
    place: &mut CellLocation,
    held: &mut Held,
    name: CellName,
    cell: Cell,
) -> Result<(), AllocError>
    requires free { list_any (λ e. name_eq name e.0) held.old.cells ≡ false }
    ensures taken { OnOk result ((place.new ≡ place.old) × (held.new ≡ record held.old { cells = held.old.cells ++ (name, cell) ∷ [] })) }
    ensures home { OnErr result ((place.new ≡ CellLocation.Home cell) × (held.new ≡ held.old)) }
{
    match held.push_cell(name, cell) {
        Ok(()) => Ok(()),
        Err(failed) => {
            *place = CellLocation::Home(failed.value);
            Err(AllocError)
        }
    }
}

// Takes the cell with this number out of the table, if it is at home.
fn take_cell(
    table: &mut Vec<CellLocation>,
    held: &mut Held,
    unit: u8,
    number: usize,
    name: CellName,
) -> Stepped
    requires within { number < length table.old.items }
    requires free { list_any (λ e. name_eq name e.0) held.old.cells ≡ false }
    ensures { IsTaken unit number name table.old.items table.new.items held.old held.new result }
{
    let place = &mut table[number];
    match mem::replace(place, CellLocation::HeldBy(unit)) {
        CellLocation::HeldBy(other) => {
            *place = CellLocation::HeldBy(other);
            Stepped::Blocked
        }
        CellLocation::Home(cell) => match put_in_hand(place, held, name, cell) {
            Ok(()) => Stepped::Moved,
            Err(_) => Stepped::NoMemory,
        },
    }
}

/// Takes a cell, if it is at home.
fn take_cell_event(
    schema: &Schema,
    capacity: u16,
    parts: &mut Parts,
    unit: u8,
    progress: StatementProgress,
    name: CellName,
) -> Stepped
    requires numbered { 0 < unit }
    requires within { unit ≤ length parts.old.runners.items }
    requires well { IsWell schema.now capacity parts.old }
    requires stands { (r : UnitState) → slice_get parts.old.runners.items (unit - 1) ≡ Some r → StandsNeeding r progress }
    requires needs { NeedsNext schema.now capacity parts.old unit progress (Need.Take name) }
    ensures { IsStepped schema.now capacity unit result parts.old parts.new }
{
    // Unused here; the contract mentions it.
    let _ = progress.linked;
    match cell_number(schema, capacity, &name) {
        Some(number) => {
            let runner = &mut parts.runners[unit as usize - 1];
            take_cell(&mut parts.table, &mut runner.held, unit, number, name)
        }
        None => unreachable!(),
    }
}

// The guesses with which the unit's statement goes on when it turns back.
fn noted_guesses(schema: &Schema, runner: &UnitState) -> Owners
    requires left { runner.now.next < length runner.now.script }
    requires fits { (x : Statement) → slice_get runner.now.script runner.now.next ≡ Some x → fits schema.now x ≡ true }
    requires count { length runner.now.held.guesses ≡ length schema.now.sets }
    ensures { (x : Statement) (capacity : ℕ) (db : Database) → slice_get runner.now.script runner.now.next ≡ Some x → Agrees schema.now capacity db runner.now.held runner.now.unit → need schema.now capacity db runner.now.unit runner.now.held x ≡ Need.Stale → result ≡ noted_owners schema.now capacity db runner.now.unit x runner.now.held.guesses }
{
    true_guesses(schema, &runner.unit, statement_of(runner), &runner.held)
}

/// Turns back with the true owners as guesses.
fn note_owners_event(
    schema: &Schema,
    capacity: u16,
    parts: &mut Parts,
    unit: u8,
    progress: StatementProgress,
) -> Stepped
    requires numbered { 0 < unit }
    requires within { unit ≤ length parts.old.runners.items }
    requires well { IsWell schema.now capacity parts.old }
    requires stands { (r : UnitState) → slice_get parts.old.runners.items (unit - 1) ≡ Some r → StandsNeeding r progress }
    requires needs { NeedsNext schema.now capacity parts.old unit progress Need.Stale }
    ensures { IsStepped schema.now capacity unit result parts.old parts.new }
{
    // Unused here; the contract mentions it.
    let _ = capacity;
    let runner = &mut parts.runners[unit as usize - 1];
    let guesses = noted_guesses(schema, runner);
    runner.held.set_guesses(guesses);
    turn_back(runner, progress);
    Stepped::Moved
}

// Meets the need.
fn need_event(
    alloc: Global,
    schema: &Schema,
    capacity: u16,
    parts: &mut Parts,
    unit: u8,
    progress: StatementProgress,
    need: Need,
) -> Stepped
    requires numbered { 0 < unit }
    requires within { unit ≤ length parts.old.runners.items }
    requires well { IsWell schema.now capacity parts.old }
    requires stands { (r : UnitState) → slice_get parts.old.runners.items (unit - 1) ≡ Some r → StandsNeeding r progress }
    requires needs { NeedsNext schema.now capacity parts.old unit progress need }
    ensures { IsStepped schema.now capacity unit result parts.old parts.new }
{
    match need {
        Need::Area(area) => take_area_event(parts, unit, progress, area),
        Need::Take(name) => take_cell_event(schema, capacity, parts, unit, progress, name),
        Need::Stale => note_owners_event(schema, capacity, parts, unit, progress),
        Need::Ready => ticket_event(alloc, schema, capacity, parts, unit, progress),
    }
}

// Asks for the next need, and meets it.
fn follows_need(
    alloc: Global,
    schema: &Schema,
    capacity: u16,
    parts: &mut Parts,
    unit: u8,
    progress: StatementProgress,
) -> Stepped
    requires numbered { 0 < unit }
    requires within { unit ≤ length parts.old.runners.items }
    requires well { IsWell schema.now capacity parts.old }
    requires stands { (r : UnitState) → slice_get parts.old.runners.items (unit - 1) ≡ Some r → StandsNeeding r progress }
    ensures { IsStepped schema.now capacity unit result parts.old parts.new }
{
    match need_now(alloc, schema, capacity, parts, unit, progress) {
        Ok(need) => need_event(alloc, schema, capacity, parts, unit, progress, need),
        Err(_) => Stepped::NoMemory,
    }
}

/// A statement without a ticket takes what it needs, its areas before its cells.
pub fn event_before_ticket(
    alloc: Global,
    schema: &Schema,
    capacity: u16,
    parts: &mut Parts,
    unit: u8,
    progress: StatementProgress,
) -> Stepped
    requires numbered { 0 < unit }
    requires within { unit ≤ length parts.old.runners.items }
    requires well { IsWell schema.now capacity parts.old }
    requires stands { (r : UnitState) → slice_get parts.old.runners.items (unit - 1) ≡ Some r → StandsNeeding r progress }
    ensures { IsStepped schema.now capacity unit result parts.old parts.new }
{
    match area_now(schema, capacity, parts, unit, progress) {
        Some(area) => take_area_event(parts, unit, progress, area),
        None => follows_need(alloc, schema, capacity, parts, unit, progress),
    }
}
