//! The way back from a statement: what it changes, as it was before.
ghost use Rattle.std.specs.Prelude.{◌≡◌, ℕ, [], true, false, not, map, IfOk, OnErr, OnOk};
ghost use Rattle.dbtg_cells.specs.Names.{name_eq};
ghost use Rattle.dbtg_unit.specs.Database.State.Base.{Database};
ghost use Rattle.dbtg_unit.specs.Database.State.Legal.{pairwise};
ghost use Rattle.dbtg_unit.specs.Hands.Lends.{holding};
ghost use Rattle.dbtg_unit.specs.Hands.Local.{Agrees};
ghost use Rattle.dbtg_unit.specs.Hands.Locality.{IsMadeOnEach, seen};
ghost use Rattle.dbtg_unit.specs.Hands.Making.{MayPrepare, ShowsTheSame};
ghost use Rattle.dbtg_unit.specs.Hands.Prepared.{values_of};
ghost use Rattle.dbtg_step.specs.Core.Reversible.{is_named};
ghost use Rattle.dbtg_step.specs.Inside.Reversible.{IsWayBack, values_at, with_copies, with_name, with_names};

use crate::statements::prepare;
use dbtg_cells::{Cell, CellName, name_eq};
use dbtg_schema::{Row, Schema};
use dbtg_unit::{Answer, Held, Prepared, Statement, Unit, finish};
use std::alloc::{AllocError, Global};

/// The way back from a statement: the names of the cells that it changes, each once, copies of these cells as they were before, and so
/// of its unit.
#[derive(Drop)]
pub struct WayBack {
    pub names: Row<CellName>,
    pub cells: Row<(CellName, Cell)>,
    pub unit: Unit,
}

fn is_among(names: &[CellName], name: &CellName) -> bool
    ensures { result ≡ is_named names.now name.now }
{
    for other in names {
        if name_eq(*name, *other) {
            return true;
        }
    }
    false
}

fn add_name(names: &mut Vec<CellName>, name: &CellName) -> Result<(), AllocError>
    ensures { OnOk result (names.new.items ≡ with_name names.old.items name.now) }
{
    if !is_among(names.as_slice(), name) {
        names.push(*name)?;
    }
    Ok(())
}

// These names, each once.
fn each_once(alloc: Global, names: &[CellName]) -> Result<Row<CellName>, AllocError>
    ensures { IfOk result (λ once. once ≡ with_names [] names.now) }
{
    let mut once = Vec::with_capacity(alloc, names.len())?;
    for name in names {
        add_name(&mut once, name)?;
    }
    Ok(Row::of(once))
}

// Copies of the held cells of these names.
fn copies_of(
    alloc: Global,
    held: &Held,
    names: &[CellName],
) -> Result<Row<(CellName, Cell)>, AllocError>
    ensures { IfOk result (λ copies. values_of copies ≡ values_at held.now.cells names.now) }
{
    let mut copies = Vec::with_capacity(alloc, names.len())?;
    for name in names {
        if let Some(cell) = held.cell(name) {
            copies.push((*name, cell.copy(alloc)?))?;
        }
    }
    Ok(Row::of(copies))
}

// The way back from what is prepared.
fn way_back(
    alloc: Global,
    unit: &Unit,
    held: &Held,
    prepared: &Prepared,
) -> Result<WayBack, AllocError>
    ensures names { IfOk result (λ way. way.names ≡ with_names [] (map (λ e. e.name) prepared.now.cells)) }
    ensures cells { IfOk result (λ way. values_of way.cells ≡ values_at held.now.cells way.names) }
    ensures unit { IfOk result (λ way. way.unit ≡ unit.now) }
{
    let edited = prepared.names(alloc)?;
    let names = each_once(alloc, edited.as_slice())?;
    let cells = copies_of(alloc, held, names.as_slice())?;
    let unit = unit.copy(alloc)?;
    Ok(WayBack { names, cells, unit })
}

/// Makes the statement on the held cells by its plan, which names the cells that it changes, and gives the way back. If memory is
/// refused, nothing visible changes.
#[inline(never)]
pub fn make_with_way(
    alloc: Global,
    schema: &Schema,
    capacity: u16,
    unit: &mut Unit,
    held: &mut Held,
    statement: &Statement,
) -> Result<(Answer, WayBack), AllocError>
    requires may { MayPrepare schema.now capacity unit.old held.old statement.now }
    requires agrees { (db : Database) × Agrees schema.now capacity db held.old unit.old }
    ensures made { IfOk result (λ made. IsMadeOnEach schema.now capacity unit.old held.old statement.now (seen made.0 unit.new held.new)) }
    ensures back { IfOk result (λ made. IsWayBack schema.now capacity unit.old held.old statement.now made.1) }
    ensures unit { OnErr result (unit.new ≡ unit.old) }
    ensures shows { OnErr result (ShowsTheSame held.old held.new) }
{
    let prepared = prepare(alloc, schema, capacity, unit, statement, held)?;
    let way = way_back(alloc, unit, held, &prepared)?;
    Ok((finish(schema, prepared, held, unit), way))
}

// Puts a cell in the place of the held cell of its name.
fn put_back(held: &mut Held, name: &CellName, copy: Cell)
    ensures { held.new ≡ holding name.now held.old copy }
{
    match held.cell_mut(name) {
        Some(cell) => *cell = copy,
        None => {}
    }
}

/// Puts each of the copies in the place of the held cell of its name. It takes no memory.
pub fn put_each_back(held: &mut Held, copies: Row<(CellName, Cell)>)
    ensures { held.new ≡ record held.old { cells = with_copies copies held.old.cells } }
{
    for (name, copy) in copies.into_vec() {
        put_back(held, &name, copy);
    }
}
