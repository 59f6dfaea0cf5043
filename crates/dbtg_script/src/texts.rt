//! The printed texts: answers and units.

ghost use Rattle.dbtg_script.specs.Printing.Appending.{Appends};
ghost use Rattle.dbtg_script.specs.Printing.Texts.{answer_front, answer_text, answered_text, answers_text, current_text, found_text, named_answer_text, place_text, unit_text, units_text};
ghost use Rattle.std.specs.List.{flat_map};
ghost use Rattle.std.specs.Prelude.{◌≡◌, ◌++◌, IfOk, OnOk, codes, decimal, option_map};

use crate::print::{
    push_current, push_each_current, push_each_item, push_each_place, push_kept, push_number,
    push_spaced_key, push_status, push_unit_and_status,
};
use dbtg_cells::{DbKey, SharedItems};
use dbtg_schema::Schema;
use dbtg_unit::{Entry, Place, Unit};
use std::alloc::{AllocError, Global};

/// More bytes than most lines of a history have. Room that is not used is not touched.
const USUAL_LINE: usize = 48;

fn push_found(
    out: &mut Vec<u8>,
    schema: &Schema,
    key: Option<DbKey>,
    items: Option<&SharedItems>,
) -> Result<(), AllocError>
    ensures { Appends (found_text schema.now key (option_map (λ r. r.now) items.entry)) out.old result out.new }
{
    match key {
        None => Ok(()),
        Some(key) => {
            push_spaced_key(out, schema, &key)?;
            match items {
                None => Ok(()),
                Some(values) => push_each_item(
                    out,
                    values.get().as_slice(),
                    schema.items(key.rtype),
                ),
            }
        }
    }
}

/// Appends what was answered: a status, and a key and items if there are any.
pub fn push_answered(
    out: &mut Vec<u8>,
    schema: &Schema,
    status: u16,
    key: Option<DbKey>,
    items: Option<&SharedItems>,
) -> Result<(), AllocError>
    ensures { OnOk result (out.new.items ≡ out.old.items ++ answered_text schema.now status key (option_map (λ r. r.now) items.entry)) }
{
    push_status(out, status)?;
    push_found(out, schema, key, items)
}

fn push_answer_front(out: &mut Vec<u8>, schema: &Schema, entry: &Entry) -> Result<(), AllocError>
    ensures { Appends (answer_front schema.now entry.now) out.old result out.new }
{
    push_number(out, entry.ticket)?;
    let answer = &entry.answer;
    let status = answer.status.code(&entry.statement);
    push_unit_and_status(out, entry.unit, status)?;
    push_found(out, schema, answer.key, answer.items.as_ref())
}

/// Appends a line of a history: the ticket, unit and answer of an entry.
pub fn push_answer(out: &mut Vec<u8>, schema: &Schema, entry: &Entry) -> Result<(), AllocError>
    ensures { Appends (answer_text schema.now entry.now) out.old result out.new }
{
    push_answer_front(out, schema, entry)?;
    out.extend_from_slice(b"\n")
}

/// The same line with a name after the answer.
pub fn push_named_answer(
    out: &mut Vec<u8>,
    schema: &Schema,
    entry: &Entry,
    name: &[u8],
) -> Result<(), AllocError>
    ensures { Appends (named_answer_text schema.now entry.now name.now) out.old result out.new }
{
    push_answer_front(out, schema, entry)?;
    out.push(b' ')?;
    out.extend_from_slice(name)?;
    out.extend_from_slice(b"\n")
}

/// Appends the lines of a history. Room for lines of usual length is made at once.
pub fn push_each_answer(
    out: &mut Vec<u8>,
    schema: &Schema,
    history: &[Entry],
) -> Result<(), AllocError>
    ensures { OnOk result (out.new.items ≡ out.old.items ++ answers_text schema.now history.now) }
{
    out.reserve(history.len().saturating_mul(USUAL_LINE))?;
    for entry in history {
        push_answer(out, schema, entry)?;
    }
    Ok(())
}

/// A line for each entry of a history: its ticket, unit and answer.
pub fn answers_text(
    alloc: Global,
    schema: &Schema,
    history: &[Entry],
) -> Result<Vec<u8>, AllocError>
    ensures { IfOk result (λ text. text.items ≡ answers_text schema.now history.now) }
{
    let mut out = Vec::new(alloc);
    push_each_answer(&mut out, schema, history)?;
    Ok(out)
}

fn push_unit_front(out: &mut Vec<u8>, schema: &Schema, unit: &Unit) -> Result<(), AllocError>
    ensures { OnOk result (out.new.items ≡ out.old.items ++ codes "UNIT " ++ decimal unit.now.number ++ codes " RUN" ++ current_text schema.now unit.now.currency.run_unit) }
{
    out.extend_from_slice(b"UNIT ")?;
    push_number(out, unit.number as u64)?;
    out.extend_from_slice(b" RUN")?;
    push_current(out, schema, unit.currency.run_unit)
}

fn push_currents(
    out: &mut Vec<u8>,
    schema: &Schema,
    word: &[u8],
    currents: &[Option<DbKey>],
) -> Result<(), AllocError>
    ensures { OnOk result (out.new.items ≡ out.old.items ++ word.now ++ flat_map (current_text schema.now) currents.now) }
{
    out.extend_from_slice(word)?;
    push_each_current(out, schema, currents)
}

fn push_places(
    out: &mut Vec<u8>,
    schema: &Schema,
    places: &[Option<Place>],
) -> Result<(), AllocError>
    ensures { OnOk result (out.new.items ≡ out.old.items ++ codes " SET" ++ flat_map (place_text schema.now) places.now) }
{
    out.extend_from_slice(b" SET")?;
    push_each_place(out, schema, places)
}

/// Appends the line of a unit: its currents, and what it keeps.
pub fn push_unit(out: &mut Vec<u8>, schema: &Schema, unit: &Unit) -> Result<(), AllocError>
    ensures { OnOk result (out.new.items ≡ out.old.items ++ unit_text schema.now unit.now) }
{
    push_unit_front(out, schema, unit)?;
    push_currents(out, schema, b" RECORD", unit.currency.types.as_slice())?;
    push_places(out, schema, unit.currency.sets.as_slice())?;
    push_currents(out, schema, b" AREA", unit.currency.areas.as_slice())?;
    push_kept(out, schema, unit.kept.as_slice())?;
    out.extend_from_slice(b"\n")
}

/// A line for each unit: its currents, and what it keeps.
pub fn units_text(alloc: Global, schema: &Schema, units: &[Unit]) -> Result<Vec<u8>, AllocError>
    ensures { IfOk result (λ text. text.items ≡ units_text schema.now units.now) }
{
    let mut out = Vec::new(alloc);
    for unit in units {
        push_unit(&mut out, schema, unit)?;
    }
    Ok(out)
}
