//! One script after another, of which the answers alone are printed: each is printed as soon as its statement is made, and no history is
//! kept. May touch: a database of its own, and the text.
ghost use Rattle.std.specs.Prelude.{◌≡◌, ◌≤◌, ◌<◌, [], ◌∷◌, true, length, map, List, IfOk, OnOk};
ghost use Rattle.std.specs.List.{list_all};
ghost use Rattle.dbtg_schema.specs.Sound.{IsSound};
ghost use Rattle.dbtg_unit.specs.declared.unit.Entry.{Entry};
ghost use Rattle.dbtg_unit.specs.Database.Statements.Fits.{fits};
ghost use Rattle.dbtg_step.specs.Core.Bare.{StandsAfter};
ghost use Rattle.dbtg_step.specs.Core.Serial.{SerialRunIs, in_turn_from};
ghost use Rattle.dbtg_step.specs.Laws.{scripts_fit};
ghost use Rattle.dbtg_replay.specs.Inside.Serial.{HasPrinted};
ghost use Rattle.dbtg_replay.specs.Replaying.{IsPrinted, given_text};

use dbtg_schema::{Row, Schema};
use dbtg_script::{push_answer, push_rest};
use dbtg_step::BareDatabase;
use dbtg_unit::{LAST_UNIT, Statement};
use std::alloc::{AllocError, Global};

// Makes a statement, and appends its answer.
fn push_made(
    out: &mut Vec<u8>,
    schema: &Schema,
    database: &mut BareDatabase<'_>,
    unit: u8,
    statement: Statement,
) -> Result<(), AllocError>
    requires numbered { 0 < unit }
    requires within { unit ≤ length database.old.units }
    requires fitting { fits database.old.schema statement ≡ true }
    requires stands { (history : List Entry) × StandsAfter database.old history }
    ensures { OnOk result (HasPrinted schema.now database.old out.old.items ((unit, statement) ∷ []) database.new out.new.items) }
{
    let entry = database.make(unit, statement)?;
    push_answer(out, schema, &entry)
}

// Makes the statements of a unit's script, one after another, and appends the answer of each.
fn push_script(
    out: &mut Vec<u8>,
    schema: &Schema,
    database: &mut BareDatabase<'_>,
    unit: u8,
    script: Row<Statement>,
) -> Result<(), AllocError>
    requires numbered { 0 < unit }
    requires within { unit ≤ length database.old.units }
    requires fitting { list_all (fits database.old.schema) script ≡ true }
    requires stands { (history : List Entry) × StandsAfter database.old history }
    ensures { OnOk result (HasPrinted schema.now database.old out.old.items (map (λ x. (unit, x)) script) database.new out.new.items) }
{
    for statement in script.into_vec() {
        push_made(out, schema, database, unit, statement)?;
    }
    Ok(())
}

// The same of each unit's script, one unit after another.
fn push_each_script(
    out: &mut Vec<u8>,
    schema: &Schema,
    database: &mut BareDatabase<'_>,
    scripts: Row<Row<Statement>>,
) -> Result<(), AllocError>
    requires units { length scripts ≡ length database.old.units }
    requires few { length scripts ≤ LAST_UNIT }
    requires fitting { scripts_fit database.old.schema scripts ≡ true }
    requires stands { (history : List Entry) × StandsAfter database.old history }
    ensures { OnOk result (HasPrinted schema.now database.old out.old.items (in_turn_from 1 scripts) database.new out.new.items) }
{
    let mut before = 0;
    for script in scripts.into_vec() {
        push_script(out, schema, database, before + 1, script)?;
        before += 1;
    }
    Ok(())
}

// The answers, the image and the units of a database on which nothing was made yet.
fn text_from(
    alloc: Global,
    schema: &Schema,
    mut database: BareDatabase<'_>,
    scripts: Row<Row<Statement>>,
) -> Result<Vec<u8>, AllocError>
    requires schema { database.schema ≡ schema.now }
    requires units { length scripts ≡ length database.units }
    requires few { length scripts ≤ LAST_UNIT }
    requires fit { scripts_fit schema.now scripts ≡ true }
    requires opens { StandsAfter database [] }
    ensures { IfOk result (λ out. IsPrinted (SerialRunIs schema.now database.entry.capacity scripts) (given_text schema.now) out.items) }
{
    let mut out = Vec::new(alloc);
    match push_each_script(&mut out, schema, &mut database, scripts) {
        Ok(()) => {
            let (image, units) = database.into_image_and_units()?;
            push_rest(alloc, &mut out, schema, &image, units.as_slice())?;
            Ok(out)
        }
        Err(error) => {
            drop(database);
            Err(error)
        }
    }
}

/// Runs one script after the other, and prints each answer as it comes; then the image and the units.
pub fn answered_text(
    alloc: Global,
    schema: &Schema,
    capacity: u16,
    scripts: Row<Row<Statement>>,
) -> Result<Vec<u8>, AllocError>
    requires sound { IsSound schema.now }
    requires units { length scripts ≤ LAST_UNIT }
    requires fit { scripts_fit schema.now scripts ≡ true }
    ensures { IfOk result (λ out. IsPrinted (SerialRunIs schema.now capacity scripts) (given_text schema.now) out.items) }
{
    let units = scripts.len() as u8;
    let database = BareDatabase::opening(alloc, schema, capacity, units)?;
    text_from(alloc, schema, database, scripts)
}
