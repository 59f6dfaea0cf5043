//! The printed texts: the image of a database, and the result of each move of a run.

ghost use Rattle.dbtg_script.specs.Printing.Texts.{area_text, areas_text, image_text, letter, letters_text, list_text, lists_text, moves_text, next_text, opened_text, record_text, records_text, spaced_number};
ghost use Rattle.std.specs.List.{flat_map};
ghost use Rattle.std.specs.Prelude.{◌≡◌, ◌++◌, IfOk, OnOk, map};

use crate::print::{
    push_each_item, push_each_key, push_key, push_marked_number, push_mode, push_owner,
};
use dbtg_cells::{DbKey, Mode, Owner, SharedItems};
use dbtg_schema::{Area, Row, Schema, SetType};
use dbtg_unit::{Image, Stepped};
use std::alloc::{AllocError, Global};

fn push_record(
    out: &mut Vec<u8>,
    schema: &Schema,
    entry: &(DbKey, SharedItems),
) -> Result<(), AllocError>
    ensures { OnOk result (out.new.items ≡ out.old.items ++ record_text schema.now entry.now) }
{
    push_key(out, schema, &entry.0)?;
    push_each_item(out, entry.1.get().as_slice(), schema.items(entry.0.rtype))?;
    out.extend_from_slice(b"\n")
}

fn push_each_record(
    out: &mut Vec<u8>,
    schema: &Schema,
    records: &[(DbKey, SharedItems)],
) -> Result<(), AllocError>
    ensures { OnOk result (out.new.items ≡ out.old.items ++ records_text schema.now records.now) }
{
    for entry in records {
        push_record(out, schema, entry)?;
    }
    Ok(())
}

fn push_list(
    out: &mut Vec<u8>,
    schema: &Schema,
    name: &[u8],
    list: &(Owner, Row<DbKey>),
) -> Result<(), AllocError>
    ensures { OnOk result (out.new.items ≡ out.old.items ++ list_text schema.now name.now list.now) }
{
    out.extend_from_slice(name)?;
    out.push(b' ')?;
    push_owner(out, schema, &list.0)?;
    out.push(b':')?;
    push_each_key(out, schema, list.1.as_slice())?;
    out.extend_from_slice(b"\n")
}

fn push_lists_of(
    out: &mut Vec<u8>,
    schema: &Schema,
    name: &[u8],
    lists: &[(Owner, Row<DbKey>)],
) -> Result<(), AllocError>
    ensures { OnOk result (out.new.items ≡ out.old.items ++ flat_map (list_text schema.now name.now) lists.now) }
{
    for list in lists {
        push_list(out, schema, name, list)?;
    }
    Ok(())
}

fn push_each_list(
    out: &mut Vec<u8>,
    schema: &Schema,
    lists: &[Row<(Owner, Row<DbKey>)>],
    sets: &[SetType],
) -> Result<(), AllocError>
    ensures { OnOk result (out.new.items ≡ out.old.items ++ lists_text schema.now lists.now sets.now) }
{
    for (i, list) in lists.iter().enumerate() {
        if i >= sets.len() {
            return Ok(());
        }
        push_lists_of(out, schema, sets[i].name.as_slice(), list.as_slice())?;
    }
    Ok(())
}

fn push_each_spaced_number(out: &mut Vec<u8>, numbers: &[u32]) -> Result<(), AllocError>
    ensures { OnOk result (out.new.items ≡ out.old.items ++ flat_map spaced_number numbers.now) }
{
    for number in numbers {
        push_marked_number(out, b' ', *number as u64)?;
    }
    Ok(())
}

fn push_next(out: &mut Vec<u8>, next: &[u32]) -> Result<(), AllocError>
    ensures { OnOk result (out.new.items ≡ out.old.items ++ next_text next.now) }
{
    out.extend_from_slice(b"NEXT")?;
    push_each_spaced_number(out, next)?;
    out.extend_from_slice(b"\n")
}

fn push_opened(out: &mut Vec<u8>, user: &(u8, Mode)) -> Result<(), AllocError>
    ensures { OnOk result (out.new.items ≡ out.old.items ++ opened_text user.now) }
{
    push_marked_number(out, b' ', user.0 as u64)?;
    out.push(b':')?;
    push_mode(out, user.1)
}

fn push_users(out: &mut Vec<u8>, users: &[(u8, Mode)]) -> Result<(), AllocError>
    ensures { OnOk result (out.new.items ≡ out.old.items ++ flat_map opened_text users.now) }
{
    for user in users {
        push_opened(out, user)?;
    }
    Ok(())
}

fn push_area(out: &mut Vec<u8>, name: &[u8], users: &[(u8, Mode)]) -> Result<(), AllocError>
    ensures { OnOk result (out.new.items ≡ out.old.items ++ area_text name.now users.now) }
{
    out.extend_from_slice(b"AREA ")?;
    out.extend_from_slice(name)?;
    push_users(out, users)?;
    out.extend_from_slice(b"\n")
}

fn push_each_area(
    out: &mut Vec<u8>,
    usage: &[Row<(u8, Mode)>],
    areas: &[Area],
) -> Result<(), AllocError>
    ensures { OnOk result (out.new.items ≡ out.old.items ++ areas_text usage.now areas.now) }
{
    for (i, users) in usage.iter().enumerate() {
        if i >= areas.len() {
            return Ok(());
        }
        push_area(out, areas[i].name.as_slice(), users.as_slice())?;
    }
    Ok(())
}

/// The image of a database of this schema: records, lists, least free numbers, and who has each area open.
pub fn image_text(alloc: Global, schema: &Schema, image: &Image) -> Result<Vec<u8>, AllocError>
    ensures { IfOk result (λ text. text.items ≡ image_text schema.now image.now.records image.now.lists image.now.next image.now.usage) }
{
    let mut out = Vec::new(alloc);
    push_each_record(&mut out, schema, image.records.as_slice())?;
    push_each_list(&mut out, schema, image.lists.as_slice(), schema.sets())?;
    push_next(&mut out, image.next.as_slice())?;
    push_each_area(&mut out, image.usage.as_slice(), schema.areas())?;
    Ok(out)
}

// A run that ends well has no step for which memory was refused.
fn letter(step: Stepped) -> u8
    ensures { result ≡ letter step }
{
    match step {
        Stepped::Moved => b'M',
        Stepped::Blocked => b'B',
        Stepped::Idle => b'I',
        Stepped::NoMemory => b'N',
    }
}

fn push_letters(out: &mut Vec<u8>, steps: &[Stepped]) -> Result<(), AllocError>
    ensures { OnOk result (out.new.items ≡ out.old.items ++ map letter steps.now) }
{
    for step in steps {
        out.push(letter(*step))?;
    }
    Ok(())
}

fn push_spaced_letters(out: &mut Vec<u8>, steps: &[Stepped]) -> Result<(), AllocError>
    ensures { OnOk result (out.new.items ≡ out.old.items ++ letters_text steps.now) }
{
    match steps.split_first() {
        None => Ok(()),
        Some(_) => {
            out.push(b' ')?;
            push_letters(out, steps)
        }
    }
}

/// One letter for each move: M for moved, B for blocked, I for idle.
pub fn moves_text(alloc: Global, results: &[Stepped]) -> Result<Vec<u8>, AllocError>
    ensures { IfOk result (λ text. text.items ≡ moves_text results.now) }
{
    let mut out = Vec::new(alloc);
    out.extend_from_slice(b"MOVES")?;
    push_spaced_letters(&mut out, results)?;
    out.push(b'\n')?;
    Ok(out)
}
