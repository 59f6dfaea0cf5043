//! What the picture says of a unit that waits: what it waits for, and who holds it.
ghost use Rattle.std.specs.Prelude.{◌≡◌, ◌++◌, IfOk, OnOk};
ghost use Rattle.std.specs.List.{flat_map};
ghost use Rattle.dbtg_timeline.specs.Waiting.{area_name, awaited_text, cell_text, holders_text, next_holder, owner_text, record_text, set_name, type_name, waiting_text};

use crate::columns::{push_all, push_number};
use dbtg_cells::CellName;
use dbtg_schema::{AreaNo, RecordNo, Schema, SetNo};
use dbtg_step::{Awaited, Blocking};
use std::alloc::AllocError;

/// The name of an area, empty if the schema has none with this number.
pub fn area_name(schema: &Schema, area: AreaNo) -> &[u8]
    ensures { result.now ≡ area_name schema.now area }
{
    match schema.area_name(area) {
        Some(name) => name,
        None => b"",
    }
}

fn type_name(schema: &Schema, rtype: RecordNo) -> &[u8]
    ensures { result.now ≡ type_name schema.now rtype }
{
    match schema.rtype_name(rtype) {
        Some(name) => name,
        None => b"",
    }
}

fn set_name(schema: &Schema, set: SetNo) -> &[u8]
    ensures { result.now ≡ set_name schema.now set }
{
    match schema.set_name(set) {
        Some(name) => name,
        None => b"",
    }
}

#[tactic(auto, unfolding(crate::specs::Waiting::record_text))]
fn push_record(
    out: &mut Vec<u8>,
    schema: &Schema,
    rtype: RecordNo,
    number: u32,
) -> Result<(), AllocError>
    ensures { OnOk result (out.new.items ≡ out.old.items ++ record_text schema.now rtype number) }
{
    push_all(out, &[type_name(schema, rtype), b":"])?;
    push_number(out, number as u128)
}

#[tactic(auto, unfolding(crate::specs::Waiting::owner_text))]
fn push_owner(
    out: &mut Vec<u8>,
    schema: &Schema,
    owner: Option<(RecordNo, u32)>,
) -> Result<(), AllocError>
    ensures { OnOk result (out.new.items ≡ out.old.items ++ owner_text schema.now owner) }
{
    match owner {
        None => out.extend_from_slice(b"SYSTEM"),
        Some((rtype, number)) => push_record(out, schema, rtype, number),
    }
}

/// The text of a cell, such as `Ring(HAS, CUSTOMER:1)`: see docs/profile/events.md.
#[tactic(auto, unfolding(crate::specs::Waiting::cell_text))]
pub fn push_cell(out: &mut Vec<u8>, schema: &Schema, cell: CellName) -> Result<(), AllocError>
    ensures { OnOk result (out.new.items ≡ out.old.items ++ cell_text schema.now cell) }
{
    match cell {
        CellName::Usage(area) => push_all(out, &[b"Usage(", area_name(schema, area), b")"]),
        CellName::Extent(rtype) => push_all(out, &[b"Extent(", type_name(schema, rtype), b")"]),
        CellName::Ring(set, owner) => {
            push_all(out, &[b"Ring(", set_name(schema, set), b", "])?;
            push_owner(out, schema, owner)?;
            out.extend_from_slice(b")")
        }
        CellName::Slot(rtype, number) => {
            out.extend_from_slice(b"Slot(")?;
            push_record(out, schema, rtype, number)?;
            out.extend_from_slice(b")")
        }
    }
}

#[tactic(auto, unfolding(crate::specs::Waiting::awaited_text))]
fn push_awaited(out: &mut Vec<u8>, schema: &Schema, awaited: Awaited) -> Result<(), AllocError>
    ensures { OnOk result (out.new.items ≡ out.old.items ++ awaited_text schema.now awaited) }
{
    match awaited {
        Awaited::Area { area, exclusive } => {
            out.extend_from_slice(area_name(schema, area))?;
            if exclusive {
                out.extend_from_slice(b" exclusively, held")
            } else {
                out.extend_from_slice(b", held exclusively")
            }
        }
        Awaited::Cell(cell) => {
            push_cell(out, schema, cell)?;
            out.extend_from_slice(b", held")
        }
    }
}

#[tactic(auto, unfolding(crate::specs::Waiting::next_holder))]
fn push_next_holder(out: &mut Vec<u8>, number: usize) -> Result<(), AllocError>
    ensures { OnOk result (out.new.items ≡ out.old.items ++ next_holder number) }
{
    out.extend_from_slice(b", ")?;
    push_number(out, number as u128)
}

fn push_each_next_holder(out: &mut Vec<u8>, numbers: &[usize]) -> Result<(), AllocError>
    ensures { OnOk result (out.new.items ≡ out.old.items ++ flat_map next_holder numbers.now) }
{
    for number in numbers {
        push_next_holder(out, *number)?;
    }
    Ok(())
}

#[tactic(auto, unfolding(crate::specs::Waiting::holders_text))]
fn push_holders(out: &mut Vec<u8>, holders: &[usize]) -> Result<(), AllocError>
    ensures { OnOk result (out.new.items ≡ out.old.items ++ holders_text holders.now) }
{
    match holders.split_first() {
        None => Ok(()),
        Some((first, rest)) => {
            if rest.is_empty() {
                out.extend_from_slice(b" by unit ")?;
            } else {
                out.extend_from_slice(b" by units ")?;
            }
            push_number(out, *first as u128)?;
            push_each_next_holder(out, rest)
        }
    }
}

/// What a unit waits for, and who holds it.
#[tactic(auto, unfolding(crate::specs::Waiting::waiting_text))]
pub fn push_waiting(
    out: &mut Vec<u8>,
    schema: &Schema,
    blocking: &Option<Blocking>,
) -> Result<(), AllocError>
    ensures { OnOk result (out.new.items ≡ out.old.items ++ waiting_text schema.now blocking.now) }
{
    match blocking {
        None => Ok(()),
        Some(blocking) => {
            out.extend_from_slice(b"waits for ")?;
            push_awaited(out, schema, blocking.awaited)?;
            push_holders(out, blocking.holders.as_slice())
        }
    }
}
