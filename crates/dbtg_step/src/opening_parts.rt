//! The core before its first step: all cells at home as in the opening database, each unit before its script.
ghost use Rattle.std.specs.Prelude.{◌≡◌, ◌≤◌, ◌++◌, ◌∷◌, [], None, Some, map, length, replicate, IfOk, OnOk};
ghost use Rattle.std.specs.List.{flat_map, range_with_len};
ghost use Rattle.dbtg_schema.specs.Structure.{set_numbers};
ghost use Rattle.dbtg_cells.specs.Cells.{shown};
ghost use Rattle.dbtg_cells.specs.CellNumbers.{cells_in_order, rings_of, slots_of};
ghost use Rattle.dbtg_unit.specs.Database.State.Base.{opening};
ghost use Rattle.dbtg_unit.specs.Database.State.Units.{opening_unit};
ghost use Rattle.dbtg_unit.specs.Hands.Local.{AllAgree, names_of};
ghost use Rattle.dbtg_step.specs.Core.Openings.{homes_of, homes_shown};
ghost use Rattle.dbtg_step.specs.Core.Parts.{location_of};
ghost use Rattle.dbtg_step.specs.Inside.Openings.{homes_opened, opening_runner, opening_value, runners_from};

use crate::parts::{CellLocation, UnitState};
use dbtg_cells::{Cell, CellName, Extent, Layout, Owner, Owners, Ring, Slot, Usage, cell_count};
use dbtg_schema::{AreaNo, RecordNo, Row, Schema, SetNo};
use dbtg_unit::{Currency, Held, Kept, LAST_UNIT, Statement, Unit};
use std::alloc::{AllocError, Global};

// The items with one more.
fn add<T: Copy>(items: &mut Vec<T>, item: &T) -> Result<(), AllocError>
    ensures { OnOk result (items.new.items ≡ items.old.items ++ item.now ∷ []) }
{
    items.push(*item)?;
    Ok(())
}

fn add_usages(schema: &Schema, names: &mut Vec<CellName>) -> Result<(), AllocError>
    ensures { OnOk result (names.new.items ≡ names.old.items ++ map CellName.Usage (range_with_len 0 (length schema.now.areas))) }
{
    for area in 0..schema.areas().len() as u8 {
        add(names, &CellName::Usage(AreaNo::new(area)))?;
    }
    Ok(())
}

fn add_extents(schema: &Schema, names: &mut Vec<CellName>) -> Result<(), AllocError>
    ensures { OnOk result (names.new.items ≡ names.old.items ++ map CellName.Extent (range_with_len 0 (length schema.now.types))) }
{
    for rtype in 0..schema.types().len() as u8 {
        add(names, &CellName::Extent(RecordNo::new(rtype)))?;
    }
    Ok(())
}

fn add_owned_rings(
    capacity: u16,
    set: SetNo,
    owner: RecordNo,
    names: &mut Vec<CellName>,
) -> Result<(), AllocError>
    ensures { OnOk result (names.new.items ≡ names.old.items ++ map (λ n. CellName.Ring set (Some (owner, n))) (range_with_len 1 capacity)) }
{
    for lower in 0..capacity {
        add(names, &CellName::Ring(set, Some((owner, lower as u32 + 1))))?;
    }
    Ok(())
}

fn add_rings_of(
    schema: &Schema,
    capacity: u16,
    set: SetNo,
    names: &mut Vec<CellName>,
) -> Result<(), AllocError>
    ensures { OnOk result (names.new.items ≡ names.old.items ++ rings_of schema.now capacity set) }
{
    if schema.is_system(set) {
        return add(names, &CellName::Ring(set, None));
    }
    match schema.owner_type(set) {
        Some(owner) => add_owned_rings(capacity, set, owner, names),
        None => Ok(()),
    }
}

fn add_rings(schema: &Schema, capacity: u16, names: &mut Vec<CellName>) -> Result<(), AllocError>
    ensures { OnOk result (names.new.items ≡ names.old.items ++ flat_map (rings_of schema.now capacity) (set_numbers schema.now)) }
{
    for set in 0..schema.sets().len() as u8 {
        add_rings_of(schema, capacity, SetNo::new(set), names)?;
    }
    Ok(())
}

fn add_slots_of(capacity: u16, rtype: RecordNo, names: &mut Vec<CellName>) -> Result<(), AllocError>
    ensures { OnOk result (names.new.items ≡ names.old.items ++ slots_of capacity rtype) }
{
    for lower in 0..capacity {
        add(names, &CellName::Slot(rtype, lower as u32 + 1))?;
    }
    Ok(())
}

fn add_slots(schema: &Schema, capacity: u16, names: &mut Vec<CellName>) -> Result<(), AllocError>
    ensures { OnOk result (names.new.items ≡ names.old.items ++ flat_map (slots_of capacity) (range_with_len 0 (length schema.now.types))) }
{
    for rtype in 0..schema.types().len() as u8 {
        add_slots_of(capacity, RecordNo::new(rtype), names)?;
    }
    Ok(())
}

/// The names of all cells of the schema at this capacity, in the order of their numbers.
pub fn cell_names(
    alloc: Global,
    schema: &Schema,
    capacity: u16,
) -> Result<Vec<CellName>, AllocError>
    ensures { IfOk result (λ names. names.items ≡ cells_in_order schema.now capacity) }
{
    let mut names = Vec::with_capacity(alloc, cell_count(schema, capacity))?;
    add_usages(schema, &mut names)?;
    add_extents(schema, &mut names)?;
    add_rings(schema, capacity, &mut names)?;
    add_slots(schema, capacity, &mut names)?;
    Ok(names)
}

// The ring of SYSTEM, whose occurrence is always there.
fn system_ring(alloc: Global) -> Ring
    ensures { result.occurrence ≡ Some (record { owner = Owner.System; members = [] }) }
{
    let mut ring = Ring::absent(alloc);
    ring.open(Owner::System);
    ring
}

// The cell of this name, as the opening database has it.
fn opening_cell(alloc: Global, capacity: u16, name: &CellName) -> Result<Cell, AllocError>
    ensures { IfOk result (λ cell. shown cell ≡ opening_value capacity name.now) }
{
    match name {
        CellName::Usage(_) => Ok(Cell::Usage(Usage::new(alloc))),
        CellName::Extent(_) => {
            let extent = Extent::new(alloc, capacity)?;
            Ok(Cell::Extent(extent))
        }
        CellName::Ring(_, None) => Ok(Cell::Ring(system_ring(alloc))),
        CellName::Ring(_, Some(_)) => Ok(Cell::Ring(Ring::absent(alloc))),
        CellName::Slot(_, _) => Ok(Cell::Slot(Slot::vacant())),
    }
}

// The cells of these names, as the opening database has them.
fn cells_of(alloc: Global, capacity: u16, names: &[CellName]) -> Result<Vec<Cell>, AllocError>
    ensures { IfOk result (λ cells. homes_shown cells.items ≡ homes_opened capacity names.now) }
{
    let mut cells = Vec::with_capacity(alloc, names.len())?;
    for name in names {
        cells.push(opening_cell(alloc, capacity, name)?)?;
    }
    Ok(cells)
}

/// All cells of the schema at this capacity in the order of their numbers, as the opening database has them.
pub fn opening_cells(alloc: Global, schema: &Schema, capacity: u16) -> Result<Vec<Cell>, AllocError>
    ensures { IfOk result (λ cells. homes_shown cells.items ≡ homes_of schema.now capacity (cells_in_order schema.now capacity)) }
{
    let names = cell_names(alloc, schema, capacity)?;
    cells_of(alloc, capacity, names.as_slice())
}

// A table that has these cells at home.
fn at_home(alloc: Global, cells: Vec<Cell>) -> Result<Vec<CellLocation>, AllocError>
    ensures { IfOk result (λ table. map location_of table.items ≡ homes_shown cells.items) }
{
    let mut table = Vec::with_capacity(alloc, cells.len())?;
    for cell in cells {
        table.push_reserved(CellLocation::Home(cell));
    }
    Ok(table)
}

/// All cells of the schema at this capacity, at home as in the opening database.
pub fn opening_table(
    alloc: Global,
    schema: &Schema,
    capacity: u16,
) -> Result<Vec<CellLocation>, AllocError>
    ensures { IfOk result (λ table. map location_of table.items ≡ homes_of schema.now capacity (cells_in_order schema.now capacity)) }
{
    at_home(alloc, opening_cells(alloc, schema, capacity)?)
}

/// Hands with all cells of the schema at this capacity, each at its number and as the opening database has it.
pub fn hold_opening_cells(alloc: Global, schema: &Schema, capacity: u16) -> Result<Held, AllocError>
    ensures areas { IfOk result (λ held. held.areas ≡ []) }
    ensures names { IfOk result (λ held. names_of held.cells ≡ cells_in_order schema.now capacity) }
    ensures cells { IfOk result (λ held. AllAgree schema.now capacity (opening schema.now) held.cells) }
{
    let names = cell_names(alloc, schema, capacity)?;
    let cells = cells_of(alloc, capacity, names.as_slice())?;
    let layout = Layout::of(schema, capacity);
    let guesses = Owners::none(schema.sets().len());
    Ok(Held::numbered(alloc, layout, names, cells, guesses))
}

fn nones<T: Copy>(alloc: Global, count: usize) -> Result<Row<Option<T>>, AllocError>
    ensures { IfOk result (λ row. row ≡ replicate count None) }
{
    let mut items = Vec::with_capacity(alloc, count)?;
    for _turn in 0..count {
        items.push(None)?;
    }
    Ok(Row::of(items))
}

/// A unit with this number, before its first statement.
pub fn opening_unit(alloc: Global, schema: &Schema, number: u8) -> Result<Unit, AllocError>
    ensures { IfOk result (λ unit. unit ≡ opening_unit schema.now number) }
{
    let types = nones(alloc, schema.types().len())?;
    let areas = nones(alloc, schema.areas().len())?;
    let sets = nones(alloc, schema.sets().len())?;
    let modes = nones(alloc, schema.areas().len())?;
    Ok(Unit {
        number,
        currency: Currency {
            run_unit: None,
            types,
            areas,
            sets,
        },
        modes,
        kept: Kept::of(Vec::new(alloc)),
    })
}

fn new_runner(
    alloc: Global,
    schema: &Schema,
    number: u8,
    script: Row<Statement>,
) -> Result<UnitState, AllocError>
    ensures { IfOk result (λ r. r ≡ opening_runner schema.now number script) }
{
    let unit = opening_unit(alloc, schema, number)?;
    let held = Held::new(alloc, Owners::none(schema.sets().len()));
    Ok(UnitState {
        unit,
        held,
        script,
        next: 0,
        progress: None,
        course: None,
    })
}

/// The units, numbered from 1, each before its script.
pub fn opening_runners(
    alloc: Global,
    schema: &Schema,
    scripts: Row<Row<Statement>>,
) -> Result<Vec<UnitState>, AllocError>
    requires { length scripts ≤ LAST_UNIT }
    ensures { IfOk result (λ runners. runners.items ≡ runners_from schema.now 1 scripts) }
{
    let mut runners = Vec::new(alloc);
    for script in scripts.into_vec() {
        let number = runners.len() as u8 + 1;
        runners.push(new_runner(alloc, schema, number, script)?)?;
    }
    Ok(runners)
}
