//! Units without the versions of the records that they keep: what counts is only whether a record still has the version that is kept of it.

ghost use Rattle.dbtg_cells.specs.Cells.{shown};
ghost use Rattle.dbtg_unit.specs.Database.State.Legal.{Legal};
ghost use Rattle.dbtg_step.specs.Core.Whole.{state_now};
ghost use Rattle.dbtg_explore.specs.Inside.Versions.{is_in_order, shows_version};
ghost use Rattle.dbtg_explore.specs.Versions.{is_own, unversioned_entry, unversioned_unit};
ghost use Rattle.std.specs.List.{list_all};
ghost use Rattle.std.specs.Prelude.{◌≡◌, map, true, IfOk};

use dbtg_cells::{Cell, CellName, DbKey};
use dbtg_schema::Row;
use dbtg_step::WholeDatabase;
use dbtg_unit::{Kept, Unit};
use std::alloc::{AllocError, Global};

// Is it the slot of the record, with the version that is kept of it?
fn has_version(cell: &Cell, entry: &(DbKey, u64)) -> bool
    ensures { result ≡ shows_version (shown cell.now) entry.now }
{
    match cell {
        Cell::Slot(slot) => slot.record().is_some_and(|it| it.generation == entry.0.generation
            && it.version == entry.1),
        Cell::Usage(_) | Cell::Extent(_) | Cell::Ring(_) => false,
    }
}

// Does the record still have the version that is kept of it?
fn is_own(database: &WholeDatabase, entry: &(DbKey, u64)) -> bool
    requires { Legal database.now.schema database.now.capacity (state_now database.now).database }
    ensures { result ≡ is_own (state_now database.now).database entry.now }
{
    match database.cell(&CellName::Slot(entry.0.rtype, entry.0.number)) {
        Some(cell) => has_version(cell, entry),
        None => false,
    }
}

// What is kept of a record: 1 if the record still has this version, and 0 otherwise.
fn unversioned_entry(database: &WholeDatabase, entry: &(DbKey, u64)) -> (DbKey, u64)
    requires { Legal database.now.schema database.now.capacity (state_now database.now).database }
    ensures { result ≡ unversioned_entry (state_now database.now).database entry.now }
{
    let flag = if is_own(database, entry) { 1 } else { 0 };
    (entry.0, flag)
}

// Each of these.
fn unversioned_entries(
    alloc: Global,
    database: &WholeDatabase,
    entries: &[(DbKey, u64)],
) -> Result<Vec<(DbKey, u64)>, AllocError>
    requires { Legal database.now.schema database.now.capacity (state_now database.now).database }
    ensures { IfOk result (λ all. all.items ≡ map (unversioned_entry (state_now database.now).database) entries.now) }
{
    let mut all = Vec::new(alloc);
    for entry in entries {
        all.push(unversioned_entry(database, entry))?;
    }
    Ok(all)
}

fn unversioned_kept(
    alloc: Global,
    database: &WholeDatabase,
    kept: &Kept,
) -> Result<Kept, AllocError>
    requires legal { Legal database.now.schema database.now.capacity (state_now database.now).database }
    requires order { is_in_order kept.now ≡ true }
    ensures { IfOk result (λ list. list ≡ map (unversioned_entry (state_now database.now).database) kept.now) }
{
    let entries = unversioned_entries(alloc, database, kept.as_slice())?;
    Ok(Kept::of(entries))
}

/// A unit of the database without versions.
pub fn unversioned_unit(
    alloc: Global,
    database: &WholeDatabase,
    unit: &Unit,
) -> Result<Unit, AllocError>
    requires legal { Legal database.now.schema database.now.capacity (state_now database.now).database }
    requires order { is_in_order unit.now.kept ≡ true }
    ensures { IfOk result (λ copy. copy ≡ unversioned_unit (state_now database.now).database unit.now) }
{
    let currency = unit.currency.copy(alloc)?;
    let modes = unit.modes.copy(alloc)?;
    let kept = unversioned_kept(alloc, database, &unit.kept)?;
    Ok(Unit {
        number: unit.number,
        currency,
        modes,
        kept,
    })
}

/// Units of the database without versions.
pub fn unversioned_units(
    alloc: Global,
    database: &WholeDatabase,
    units: &[Unit],
) -> Result<Row<Unit>, AllocError>
    requires legal { Legal database.now.schema database.now.capacity (state_now database.now).database }
    requires order { list_all (λ u. is_in_order u.kept) units.now ≡ true }
    ensures { IfOk result (λ all. all ≡ map (unversioned_unit (state_now database.now).database) units.now) }
{
    let mut all = Vec::new(alloc);
    for unit in units {
        all.push(unversioned_unit(alloc, database, unit)?)?;
    }
    Ok(Row::of(all))
}
