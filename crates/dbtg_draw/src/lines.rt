//! The words that a diagram shows: for a record type, and for the arrow to a member.

ghost use Rattle.dbtg_draw.specs.Lines.{allowed_text, area_name, calc_text, class_text, direction_text, duplicates_text, further_item, item_name, names_of_items, item_text, key_name, key_text, member_text, order_text, picture_text, type_name};
ghost use Rattle.std.specs.List.{flat_map};
ghost use Rattle.std.specs.Prelude.{◌≡◌, ◌++◌, OnOk};

use crate::print::{push_all, push_number};
use dbtg_schema::{
    AreaNo, Calc, Class, Duplicates, Item, ItemNo, Member, Order, Picture, RecordNo, Schema,
    SetType,
};
use std::alloc::AllocError;

pub fn area_name(schema: &Schema, area: AreaNo) -> &[u8]
    ensures { result.now ≡ area_name schema.now area }
{
    match schema.area_name(area) {
        Some(name) => name,
        None => b"",
    }
}

pub fn type_name(schema: &Schema, rtype: RecordNo) -> &[u8]
    ensures { result.now ≡ type_name schema.now rtype }
{
    match schema.rtype_name(rtype) {
        Some(name) => name,
        None => b"",
    }
}

fn item_name(items: &[Item], item: ItemNo) -> &[u8]
    ensures { result.now ≡ item_name items.now item }
{
    match items.get(item.index() as usize) {
        Some(item) => item.name.as_slice(),
        None => b"",
    }
}

fn push_picture(out: &mut Vec<u8>, picture: Picture) -> Result<(), AllocError>
    ensures { OnOk result (out.new.items ≡ out.old.items ++ picture_text picture) }
{
    let (kind, length) = match picture {
        Picture::Number(digits) => (b'9', digits),
        Picture::Text(bytes) => (b'X', bytes),
    };
    out.extend_from_slice(&[kind, b'('])?;
    push_number(out, length as u64)?;
    out.extend_from_slice(b")")
}

/// An item with its picture.
pub fn push_item(out: &mut Vec<u8>, item: &Item) -> Result<(), AllocError>
    ensures { OnOk result (out.new.items ≡ out.old.items ++ item_text item.now) }
{
    push_all(out, &[item.name.as_slice(), b" "])?;
    push_picture(out, item.picture)
}

fn push_further_item(out: &mut Vec<u8>, items: &[Item], item: ItemNo) -> Result<(), AllocError>
    ensures { OnOk result (out.new.items ≡ out.old.items ++ further_item items.now item) }
{
    push_all(out, &[b", ", item_name(items, item)])
}

fn push_each_further_item(
    out: &mut Vec<u8>,
    items: &[Item],
    numbers: &[ItemNo],
) -> Result<(), AllocError>
    ensures { OnOk result (out.new.items ≡ out.old.items ++ flat_map (further_item items.now) numbers.now) }
{
    for number in numbers {
        push_further_item(out, items, *number)?;
    }
    Ok(())
}

fn push_item_names(out: &mut Vec<u8>, items: &[Item], numbers: &[ItemNo]) -> Result<(), AllocError>
    ensures { OnOk result (out.new.items ≡ out.old.items ++ names_of_items items.now numbers.now) }
{
    match numbers.split_first() {
        None => Ok(()),
        Some((first, further)) => {
            out.extend_from_slice(item_name(items, *first))?;
            push_each_further_item(out, items, further)
        }
    }
}

fn allowed_text(allowed: bool) -> &'static [u8]
    ensures { result.now ≡ allowed_text allowed }
{
    if allowed { b") DA" } else { b") DN" }
}

/// The CALC key of a record type, and whether duplicates are allowed.
pub fn push_calc(out: &mut Vec<u8>, items: &[Item], calc: &Calc) -> Result<(), AllocError>
    ensures { OnOk result (out.new.items ≡ out.old.items ++ calc_text items.now calc.now) }
{
    out.extend_from_slice(b"CALC (")?;
    push_item_names(out, items, calc.items.as_slice())?;
    out.extend_from_slice(allowed_text(calc.duplicates_allowed))
}

/// How a record becomes a member and may cease to be one.
pub fn class_text(class: Class) -> &'static [u8]
    ensures { result.now ≡ class_text class }
{
    match class {
        Class::MandatoryAutomatic => b" MA",
        Class::MandatoryManual => b" MM",
        Class::OptionalAutomatic => b" OA",
        Class::OptionalManual => b" OM",
    }
}

/// The set, and how the member belongs to it.
pub fn push_member(out: &mut Vec<u8>, set: &SetType, member: &Member) -> Result<(), AllocError>
    ensures { OnOk result (out.new.items ≡ out.old.items ++ member_text set.now member.now) }
{
    out.extend_from_slice(set.name.as_slice())?;
    out.extend_from_slice(class_text(member.class))
}

fn direction_text(ascending: bool) -> &'static [u8]
    ensures { result.now ≡ direction_text ascending }
{
    if ascending {
        b"SORTED ASC"
    } else {
        b"SORTED DES"
    }
}

fn duplicates_text(duplicates: Duplicates) -> &'static [u8]
    ensures { result.now ≡ duplicates_text duplicates }
{
    match duplicates {
        Duplicates::First => b" DF",
        Duplicates::Last => b" DL",
        Duplicates::NotAllowed => b" DN",
    }
}

fn push_key_name(out: &mut Vec<u8>, items: &[Item], item: ItemNo) -> Result<(), AllocError>
    ensures { OnOk result (out.new.items ≡ out.old.items ++ key_name items.now item) }
{
    push_all(out, &[b" (", item_name(items, item), b")"])
}

fn push_key(out: &mut Vec<u8>, schema: &Schema, member: &Member) -> Result<(), AllocError>
    ensures { OnOk result (out.new.items ≡ out.old.items ++ key_text schema.now member.now) }
{
    match member.key {
        None => Ok(()),
        Some(item) => push_key_name(out, schema.items(member.rtype), item),
    }
}

/// Where a new member goes, with the sort key of this member.
pub fn push_order(
    out: &mut Vec<u8>,
    schema: &Schema,
    order: Order,
    member: &Member,
) -> Result<(), AllocError>
    ensures { OnOk result (out.new.items ≡ out.old.items ++ order_text schema.now order member.now) }
{
    match order {
        Order::First => out.extend_from_slice(b"FIRST"),
        Order::Last => out.extend_from_slice(b"LAST"),
        Order::Next => out.extend_from_slice(b"NEXT"),
        Order::Prior => out.extend_from_slice(b"PRIOR"),
        Order::Sorted {
            ascending,
            duplicates,
        } => {
            out.extend_from_slice(direction_text(ascending))?;
            push_key(out, schema, member)?;
            out.extend_from_slice(duplicates_text(duplicates))
        }
    }
}
