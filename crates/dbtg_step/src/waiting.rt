//! What a unit waits for when its step is blocked, and which other units have it.
ghost use Rattle.std.specs.Prelude.{◌≡◌, ◌≤◌, ◌<◌, ◌-◌, ℕ, IfOk, None, Some, if◌then◌else◌, length, slice_get, true};
ghost use Rattle.std.specs.List.{list_any};
ghost use Rattle.dbtg_cells.specs.Names.{name_eq};
ghost use Rattle.dbtg_schema.specs.Lists.{Lists};
ghost use Rattle.dbtg_unit.specs.declared.held.Need.{Need};
ghost use Rattle.dbtg_unit.specs.Hands.Needs.{need};
ghost use Rattle.dbtg_step.specs.declared.parts.UnitState.{UnitState};
ghost use Rattle.dbtg_step.specs.declared.waiting.Awaited.{Awaited};
ghost use Rattle.dbtg_step.specs.Core.Parts.{location_at};
ghost use Rattle.dbtg_step.specs.Core.Waiting.{TellsOfBlocked, blocking_of};
ghost use Rattle.dbtg_step.specs.Inside.Events.{IsWell, NeedsNext};
ghost use Rattle.dbtg_step.specs.Inside.Parts.{core_of};
ghost use Rattle.dbtg_step.specs.Inside.Stands.{StandsNeeding};
ghost use Rattle.dbtg_step.specs.Inside.Waiting.{IsAwaited, has_awaited, is_with_unit, numbers_from};

use crate::imaging::place_at;
use crate::needing::{holds_against, other_holds_against};
use crate::parts::{CellLocation, Parts, StatementProgress, UnitState};
use crate::runner::{Phase, phase_of, progress_of, statement_of};
use crate::statements::need_unless_delete;
use dbtg_cells::{CellName, cell_number};
use dbtg_schema::{AreaNo, Row, Schema};
use dbtg_unit::{Held, Need};
use std::alloc::{AllocError, Global};

/// What a unit waits for: an area that it wants to share, or wants exclusively, or a cell.
#[derive(Clone, Copy)]
pub enum Awaited {
    Area { area: AreaNo, exclusive: bool },
    Cell(CellName),
}

/// What a unit waits for, and the numbers of the units that have it, ascending.
#[derive(Drop)]
pub struct Blocking {
    pub awaited: Awaited,
    pub holders: Row<usize>,
}

#[tactic(auto, unfolding(crate::specs::Core::Parts::location_at))]
fn is_with_unit(schema: &Schema, capacity: u16, table: &[CellLocation], name: &CellName) -> bool
    ensures { result ≡ is_with_unit (location_at schema.now capacity table.now name.now) }
{
    match cell_number(schema, capacity, name) {
        Some(number) => match place_at(table, number) {
            Some(CellLocation::HeldBy(_)) => true,
            Some(CellLocation::Home(_)) => false,
            None => false,
        },
        None => false,
    }
}

fn where_held(is_held: bool, awaited: Awaited) -> Option<Awaited>
    ensures { result ≡ (if is_held then Some awaited else None) }
{
    if is_held { Some(awaited) } else { None }
}

// An area is waited for if another unit holds it in a conflicting way.
fn awaits_area(
    parts: &Parts,
    unit: u8,
    progress: StatementProgress,
    area: AreaNo,
) -> Option<Awaited>
    requires numbered { 0 < unit }
    requires within { unit ≤ length parts.now.runners.items }
    requires stands { (r : UnitState) → slice_get parts.now.runners.items (unit - 1) ≡ Some r → StandsNeeding r progress }
    ensures { (schema : Lists) (capacity : ℕ) → IsWell schema capacity parts.now → NeedsNext schema capacity parts.now unit progress (Need.Area area) → IsAwaited (core_of schema capacity parts.now) unit result }
{
    let exclusive = progress.exclusive;
    let is_held = other_holds_against(&parts.runners, unit, exclusive, area);
    where_held(is_held, Awaited::Area { area, exclusive })
}

// A cell is waited for if a unit has it.
fn awaits_cell(
    schema: &Schema,
    capacity: u16,
    parts: &Parts,
    unit: u8,
    progress: StatementProgress,
    name: CellName,
) -> Option<Awaited>
    requires numbered { 0 < unit }
    requires within { unit ≤ length parts.now.runners.items }
    requires well { IsWell schema.now capacity parts.now }
    requires stands { (r : UnitState) → slice_get parts.now.runners.items (unit - 1) ≡ Some r → StandsNeeding r progress }
    requires needs { NeedsNext schema.now capacity parts.now unit progress (Need.Take name) }
    ensures { IsAwaited (core_of schema.now capacity parts.now) unit result }
{
    // Unused here; the contract mentions it.
    let _ = progress.linked;
    let _ = unit;
    let is_held = is_with_unit(schema, capacity, parts.table.as_slice(), &name);
    where_held(is_held, Awaited::Cell(name))
}

// What the unit waits for, given what it needs next.
fn awaited_by_need(
    schema: &Schema,
    capacity: u16,
    parts: &Parts,
    unit: u8,
    progress: StatementProgress,
    need: Need,
) -> Option<Awaited>
    requires numbered { 0 < unit }
    requires within { unit ≤ length parts.now.runners.items }
    requires well { IsWell schema.now capacity parts.now }
    requires stands { (r : UnitState) → slice_get parts.now.runners.items (unit - 1) ≡ Some r → StandsNeeding r progress }
    requires needs { NeedsNext schema.now capacity parts.now unit progress need }
    ensures { IsAwaited (core_of schema.now capacity parts.now) unit result }
{
    match need {
        Need::Area(area) => awaits_area(parts, unit, progress, area),
        Need::Take(name) => awaits_cell(schema, capacity, parts, unit, progress, name),
        Need::Stale => None,
        Need::Ready => None,
    }
}

// The same for a unit that takes what it needs. A DELETE that has its areas waits for nobody.
fn awaited_by_needing(
    schema: &Schema,
    capacity: u16,
    parts: &Parts,
    unit: u8,
    progress: StatementProgress,
) -> Option<Awaited>
    requires numbered { 0 < unit }
    requires within { unit ≤ length parts.now.runners.items }
    requires well { IsWell schema.now capacity parts.now }
    requires stands { (r : UnitState) → slice_get parts.now.runners.items (unit - 1) ≡ Some r → StandsNeeding r progress }
    ensures { IsAwaited (core_of schema.now capacity parts.now) unit result }
{
    let runner = &parts.runners[unit as usize - 1];
    let statement = statement_of(runner);
    match need_unless_delete(schema, capacity, &runner.unit, statement, &runner.held) {
        Some(need) => awaited_by_need(schema, capacity, parts, unit, progress, need),
        None => None,
    }
}

/// What the unit waits for, if its step is blocked.
fn awaited_of(schema: &Schema, capacity: u16, parts: &Parts, unit: u8) -> Option<Awaited>
    requires well { IsWell schema.now capacity parts.now }
    ensures { IsAwaited (core_of schema.now capacity parts.now) unit result }
{
    if unit == 0 || parts.runners.len() < unit as usize {
        return None;
    }
    let runner = &parts.runners[unit as usize - 1];
    match phase_of(runner) {
        Phase::Over => None,
        Phase::Between => None,
        Phase::TurningBack => None,
        Phase::Needing => {
            let progress = progress_of(runner);
            awaited_by_needing(schema, capacity, parts, unit, progress)
        }
        Phase::Ticketed => None,
    }
}

fn has_cell(held: &Held, name: &CellName) -> bool
    ensures { result ≡ list_any (λ e. name_eq name.now e.0) held.now.cells }
{
    match held.cell(name) {
        Some(_cell) => true,
        None => false,
    }
}

fn has_awaited(runner: &UnitState, awaited: &Awaited) -> bool
    ensures { result ≡ has_awaited awaited.now runner.now }
{
    match awaited {
        Awaited::Area { area, exclusive } => holds_against(runner, *exclusive, *area),
        Awaited::Cell(name) => runner.progress.is_some() && has_cell(&runner.held, name),
    }
}

// The other units that have it.
fn holders_among(
    alloc: Global,
    runners: &[UnitState],
    unit: u8,
    awaited: &Awaited,
) -> Result<Row<usize>, AllocError>
    ensures { IfOk result (λ all. all ≡ numbers_from unit awaited.now 1 runners.now) }
{
    let mut holders = Vec::new(alloc);
    for (index, runner) in runners.iter().enumerate() {
        let number = index + 1;
        if number != unit as usize && has_awaited(runner, awaited) {
            holders.push(number)?;
        }
    }
    Ok(Row::of(holders))
}

/// What the unit waits for, if its step is blocked, with all units that have it.
pub fn blocking_of(
    alloc: Global,
    schema: &Schema,
    capacity: u16,
    parts: &Parts,
    unit: u8,
) -> Result<Option<Blocking>, AllocError>
    requires well { IsWell schema.now capacity parts.now }
    ensures found { IfOk result (λ found. found ≡ blocking_of (core_of schema.now capacity parts.now) unit) }
    ensures blocked { IfOk result (λ found. TellsOfBlocked (core_of schema.now capacity parts.now) unit found) }
{
    match awaited_of(schema, capacity, parts, unit) {
        Some(awaited) => {
            let holders = holders_among(alloc, parts.runners.as_slice(), unit, &awaited)?;
            Ok(Some(Blocking { awaited, holders }))
        }
        None => Ok(None),
    }
}
