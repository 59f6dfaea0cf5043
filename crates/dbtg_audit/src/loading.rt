//! The database on which a trace is audited: opened, and after a script that is made first, if there is one.
ghost use Rattle.std.specs.Prelude.{◌≡◌, ◌+◌, ◌≤◌, ◌<◌, ◌++◌, IfOk, OnOk, Option, MatchOption, map, true};
ghost use Rattle.std.specs.List.{list_all};
ghost use Rattle.dbtg_schema.specs.Sound.{IsSound};
ghost use Rattle.dbtg_unit.specs.Database.Statements.Fits.{fits};
ghost use Rattle.dbtg_step.specs.Inside.Whole.{HasMadeAll};
ghost use Rattle.dbtg_audit.specs.Inside.Audits.{IsLoaded};

use dbtg_schema::{Row, Schema};
use dbtg_step::WholeDatabase;
use dbtg_unit::{LAST_UNIT, Statement};
use std::alloc::{AllocError, Global};

// The statements of a unit's script, one after another.
fn make_load(
    database: &mut WholeDatabase<'_>,
    unit: u8,
    script: Row<Statement>,
) -> Result<(), AllocError>
    requires numbered { 0 < unit }
    requires within { unit ≤ database.old.units }
    requires fitting { list_all (fits database.old.schema) script ≡ true }
    ensures { OnOk result (HasMadeAll database.old (map (λ x. (unit, x)) script) database.new) }
{
    for statement in script.into_vec() {
        database.make(unit, statement)?;
    }
    Ok(())
}

// The same on a database of its own, which has a unit for it.
fn opened_with<'a>(
    alloc: Global,
    schema: &'a Schema,
    capacity: u16,
    units: u8,
    script: Row<Statement>,
) -> Result<WholeDatabase<'a>, AllocError>
    requires sound { IsSound schema.now }
    requires few { units < LAST_UNIT }
    requires fitting { list_all (fits schema.now) script ≡ true }
    ensures { IfOk result (λ database. IsLoaded schema.now capacity units (Option.Some script) database) }
{
    let mut database = WholeDatabase::opening(alloc, schema, capacity, units + 1)?;
    make_load(&mut database, units + 1, script)?;
    Ok(database)
}

/// The database with its units, after the script that is made first.
pub fn loaded<'a>(
    alloc: Global,
    schema: &'a Schema,
    capacity: u16,
    units: u8,
    load: Option<Row<Statement>>,
) -> Result<WholeDatabase<'a>, AllocError>
    requires sound { IsSound schema.now }
    requires few { units < LAST_UNIT }
    requires fitting { MatchOption load (Unit {0}) (λ script. list_all (fits schema.now) script ≡ true) }
    ensures { IfOk result (λ database. IsLoaded schema.now capacity units load database) }
{
    match load {
        None => WholeDatabase::opening(alloc, schema, capacity, units),
        Some(script) => opened_with(alloc, schema, capacity, units, script),
    }
}
