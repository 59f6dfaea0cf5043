//! The CALC items of a record: whether another record has them, and which number a new record gets. Nothing here takes memory
//! except the copies.
ghost use Rattle.std.specs.Prelude.{◌≡◌, option_map, IfOk};
ghost use Rattle.std.specs.List.{slice_index_or};
ghost use Rattle.dbtg_unit.specs.Database.State.Base.{calc_items, picked};
ghost use Rattle.dbtg_unit.specs.Database.Statements.Conditions.{calc_taken};
ghost use Rattle.dbtg_unit.specs.Hands.InHand.{in_hand};
ghost use Rattle.dbtg_plan.specs.Inside.Calc.{fresh_key};

use dbtg_cells::{DbKey, Extent, Value};
use dbtg_schema::{ItemNo, RecordNo, Row, Schema};
use dbtg_unit::{Held, numbers};
use std::alloc::{AllocError, Global};

fn number_of(key: Option<DbKey>) -> Option<u32>
    ensures { result ≡ option_map (λ k. k.number) key }
{
    Some(key?.number)
}

/// If duplicates of the CALC items are not allowed, does a held record other than the one left out have the same ones as
/// these?
pub(crate) fn calc_taken(
    schema: &Schema,
    held: &Held,
    rtype: RecordNo,
    items: &[Value],
    left_out: Option<DbKey>,
) -> bool
    ensures { result ≡ calc_taken schema.now (in_hand held.now) rtype items.now left_out }
{
    let Some(calc) = schema.calc_of(rtype) else {
        return false;
    };
    let Some(extent) = numbers(held, rtype) else {
        return false;
    };
    !calc.duplicates_allowed && extent.has_picked(calc.items.as_slice(), items, number_of(left_out))
}

/// The key of a new record: the least free number of its type, in its next generation.
pub(crate) fn fresh_key(extent: &Extent, rtype: RecordNo) -> Option<DbKey>
    ensures { result ≡ fresh_key extent.now.numbers rtype }
{
    match extent.least_free() {
        Some(number) => {
            Some(DbKey {
                rtype,
                number,
                generation: extent.generation(number) + 1,
            })
        }
        None => None,
    }
}

/// A copy of an item; 0 if there is none.
pub(crate) fn copy_item(alloc: Global, items: &[Value], item: ItemNo) -> Result<Value, AllocError>
    ensures { IfOk result (λ value. value ≡ slice_index_or items.now item (Value.Num 0)) }
{
    match items.get(item.index() as usize) {
        Some(value) => value.copy(alloc),
        None => Ok(Value::Num(0)),
    }
}

fn copy_picked(alloc: Global, numbers: &[ItemNo], items: &[Value]) -> Result<Row<Value>, AllocError>
    ensures { IfOk result (λ row. row ≡ picked numbers.now items.now) }
{
    let mut copies = Row::of(Vec::with_capacity(alloc, numbers.len())?);
    for number in numbers {
        copies.push(copy_item(alloc, items, *number)?)?;
    }
    Ok(copies)
}

/// Copies of the CALC items.
pub(crate) fn copy_calc(
    alloc: Global,
    schema: &Schema,
    rtype: RecordNo,
    items: &[Value],
) -> Result<Row<Value>, AllocError>
    ensures { IfOk result (λ row. row ≡ calc_items schema.now rtype items.now) }
{
    match schema.calc_of(rtype) {
        Some(calc) => copy_picked(alloc, calc.items.as_slice(), items),
        None => copy_picked(alloc, &[], items),
    }
}
