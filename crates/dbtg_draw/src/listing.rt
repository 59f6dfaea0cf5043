//! A schema in lines, in the words of its diagram.

ghost use Rattle.dbtg_draw.specs.Listing.{area_line, behind_comma, listed_calc, listed_item, listed_member, listed_owner, named_line, record_line, schema_lines, set_line};
ghost use Rattle.std.specs.List.{flat_map};
ghost use Rattle.std.specs.Prelude.{◌≡◌, ◌++◌, IfOk, OnOk, option_map};

use crate::lines::{area_name, class_text, push_calc, push_item, push_order, type_name};
use crate::print::push_all;
use dbtg_schema::{Area, Calc, Item, Member, RecordNo, RecordType, Schema, SetType};
use std::alloc::{AllocError, Global};

fn push_named(out: &mut Vec<u8>, word: &[u8], name: &[u8]) -> Result<(), AllocError>
    ensures { OnOk result (out.new.items ≡ out.old.items ++ named_line word.now name.now) }
{
    push_all(out, &[word, name, b"\n"])
}

fn push_each_area(out: &mut Vec<u8>, areas: &[Area]) -> Result<(), AllocError>
    ensures { OnOk result (out.new.items ≡ out.old.items ++ flat_map area_line areas.now) }
{
    for area in areas {
        push_named(out, b"AREA ", area.name.as_slice())?;
    }
    Ok(())
}

fn push_listed_item(out: &mut Vec<u8>, item: &Item) -> Result<(), AllocError>
    ensures { OnOk result (out.new.items ≡ out.old.items ++ listed_item item.now) }
{
    out.extend_from_slice(b", ")?;
    push_item(out, item)
}

fn push_each_item(out: &mut Vec<u8>, items: &[Item]) -> Result<(), AllocError>
    ensures { OnOk result (out.new.items ≡ out.old.items ++ flat_map listed_item items.now) }
{
    for item in items {
        push_listed_item(out, item)?;
    }
    Ok(())
}

fn push_listed_calc(
    out: &mut Vec<u8>,
    items: &[Item],
    calc: Option<&Calc>,
) -> Result<(), AllocError>
    ensures { OnOk result (out.new.items ≡ out.old.items ++ listed_calc items.now (option_map (λ c. c.now) calc.entry)) }
{
    match calc {
        None => Ok(()),
        Some(calc) => {
            out.extend_from_slice(b", ")?;
            push_calc(out, items, calc)
        }
    }
}

fn push_record(out: &mut Vec<u8>, schema: &Schema, record: &RecordType) -> Result<(), AllocError>
    ensures { OnOk result (out.new.items ≡ out.old.items ++ record_line schema.now record.now) }
{
    let area = area_name(schema, record.area);
    push_all(
        out,
        &[b"RECORD ", record.name.as_slice(), b" WITHIN ", area],
    )?;
    push_each_item(out, record.items.as_slice())?;
    push_listed_calc(out, record.items.as_slice(), record.calc.as_ref())?;
    out.extend_from_slice(b"\n")
}

fn push_each_record(
    out: &mut Vec<u8>,
    schema: &Schema,
    records: &[RecordType],
) -> Result<(), AllocError>
    ensures { OnOk result (out.new.items ≡ out.old.items ++ flat_map (record_line schema.now) records.now) }
{
    for record in records {
        push_record(out, schema, record)?;
    }
    Ok(())
}

fn listed_owner(schema: &Schema, owner: Option<RecordNo>) -> &[u8]
    ensures { result.now ≡ listed_owner schema.now owner }
{
    match owner {
        None => b"SYSTEM",
        Some(rtype) => type_name(schema, rtype),
    }
}

fn push_listed_member(
    out: &mut Vec<u8>,
    schema: &Schema,
    set: &SetType,
    member: &Member,
) -> Result<(), AllocError>
    ensures { OnOk result (out.new.items ≡ out.old.items ++ listed_member schema.now set.now member.now) }
{
    push_all(out, &[b", MEMBER ", type_name(schema, member.rtype)])?;
    out.extend_from_slice(class_text(member.class))?;
    out.extend_from_slice(b" ")?;
    push_order(out, schema, set.order, member)
}

fn push_each_member(
    out: &mut Vec<u8>,
    schema: &Schema,
    set: &SetType,
    members: &[Member],
) -> Result<(), AllocError>
    ensures { OnOk result (out.new.items ≡ out.old.items ++ flat_map (listed_member schema.now set.now) members.now) }
{
    for member in members {
        push_listed_member(out, schema, set, member)?;
    }
    Ok(())
}

fn push_set(out: &mut Vec<u8>, schema: &Schema, set: &SetType) -> Result<(), AllocError>
    ensures { OnOk result (out.new.items ≡ out.old.items ++ set_line schema.now set.now) }
{
    let owner = listed_owner(schema, set.owner);
    push_all(out, &[b"SET ", set.name.as_slice(), b" OWNER ", owner])?;
    push_each_member(out, schema, set, set.members.as_slice())?;
    out.extend_from_slice(b"\n")
}

fn push_each_set(out: &mut Vec<u8>, schema: &Schema, sets: &[SetType]) -> Result<(), AllocError>
    ensures { OnOk result (out.new.items ≡ out.old.items ++ flat_map (set_line schema.now) sets.now) }
{
    for set in sets {
        push_set(out, schema, set)?;
    }
    Ok(())
}

/// A schema in lines: its name, its areas, its record types with their items and CALC keys, and its sets with owners and members.
pub fn schema_lines(alloc: Global, schema: &Schema) -> Result<Vec<u8>, AllocError>
    ensures { IfOk result (λ out. out.items ≡ schema_lines schema.now) }
{
    let mut out = Vec::new(alloc);
    push_named(&mut out, b"SCHEMA ", schema.name())?;
    push_each_area(&mut out, schema.areas())?;
    push_each_record(&mut out, schema, schema.types())?;
    push_each_set(&mut out, schema, schema.sets())?;
    Ok(out)
}
