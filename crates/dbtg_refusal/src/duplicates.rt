//! Records that have the same CALC items or the same sort key as a record would have.
ghost use Rattle.std.specs.Prelude.{◌≡◌, ◌&&◌, ◌==◌, IfOk, map, option_and_then, slice_set};
ghost use Rattle.std.specs.List.{find, list_any};
ghost use Rattle.dbtg_schema.specs.Lookups.{some_and};
ghost use Rattle.dbtg_schema.specs.Structure.{member_clause, order_of, rekeyed_sets};
ghost use Rattle.dbtg_cells.specs.Keys.{picked, values_eq};
ghost use Rattle.dbtg_unit.specs.declared.statement.Statement.TheVariants.{Insert, Store};
ghost use Rattle.dbtg_unit.specs.declared.statement.Suppress.{Suppress};
ghost use Rattle.dbtg_unit.specs.Database.State.Base.{calc_items};
ghost use Rattle.dbtg_unit.specs.Database.Statements.Conditions.{calc_taken, changed_items, names_calc, refuses_equal, sort_key_taken};
ghost use Rattle.dbtg_refusal.specs.Inside.Imaged.{holder_in_image, holds, imaged, items_in};
ghost use Rattle.dbtg_refusal.specs.Obstacles.{duplicate_for, in_modify, rekeyed_member};

use crate::finding::record_of;
use crate::imaged::{items_in, owner_in};
use crate::obstacle::Obstacle;
use crate::placing::{Items, at_place, in_store, is_other, member_of, member_with, same_item};
use dbtg_cells::{DbKey, SharedItems, Value};
use dbtg_schema::{ItemNo, RecordNo, Row, Schema, SetNo};
use dbtg_unit::{
    Cause, Change, Image, Statement, Unit, is_rekeyed_in, names_calc, refuses_equal, set_count,
};
use std::alloc::{AllocError, Global};

// Do two records have the same values of these items?
fn same_picked(numbers: &[ItemNo], one: &[Value], two: &[Value]) -> bool
    ensures { result ≡ values_eq (picked numbers.now one.now) (picked numbers.now two.now) }
{
    for item in numbers {
        if !same_item(one, *item, two, *item) {
            return false;
        }
    }
    true
}

// Do two records of a type have the same CALC items?
fn same_calc(schema: &Schema, rtype: RecordNo, one: &[Value], two: &[Value]) -> bool
    ensures { result ≡ values_eq (calc_items schema.now rtype one.now) (calc_items schema.now rtype two.now) }
{
    match schema.calc_of(rtype) {
        Some(calc) => same_picked(calc.items.as_slice(), one, two),
        None => true,
    }
}

// Is the record of this type, not the one that is left out, and does it have the CALC items of these?
fn holds(
    schema: &Schema,
    entry: &(DbKey, SharedItems),
    items: &Items<'_>,
    left_out: &Option<DbKey>,
) -> bool
    ensures { result ≡ holds schema.now items.now.rtype (calc_items schema.now items.now.rtype items.now.values.now) left_out.now entry.now }
{
    entry.0.rtype.index() == items.rtype.index()
        && same_calc(schema, items.rtype, entry.1.get().as_slice(), items.values)
        && is_other(left_out, &entry.0)
}

// The first record that has the CALC items of these, other than the one that is left out.
fn holder_of(
    schema: &Schema,
    image: &Image,
    items: &Items<'_>,
    left_out: &Option<DbKey>,
) -> Option<DbKey>
    ensures { result ≡ holder_in_image schema.now image.now items.now.rtype (calc_items schema.now items.now.rtype items.now.values.now) left_out.now }
{
    for entry in image.records.as_slice() {
        if holds(schema, entry, items, left_out) {
            return Some(entry.0);
        }
    }
    None
}

// Does another record have the CALC items, if their duplicates are not allowed?
fn calc_taken(schema: &Schema, image: &Image, items: &Items<'_>, left_out: &Option<DbKey>) -> bool
    ensures { result ≡ calc_taken schema.now (imaged schema.now image.now) items.now.rtype items.now.values.now left_out.now }
{
    match schema.calc_of(items.rtype) {
        Some(calc) => {
            !calc.duplicates_allowed && holder_of(schema, image, items, left_out).is_some()
        }
        None => false,
    }
}

fn copy_values(alloc: Global, values: &[Value]) -> Result<Vec<Value>, AllocError>
    ensures { IfOk result (λ copies. copies.items ≡ values.now) }
{
    let mut copies = Vec::with_capacity(alloc, values.len())?;
    for value in values {
        copies.push(value.copy(alloc)?)?;
    }
    Ok(copies)
}

fn set_item(items: &mut Vec<Value>, index: usize, value: Value)
    ensures { items.new.items ≡ slice_set items.old.items index value }
{
    if index < items.len() {
        items[index] = value;
    }
}

// The values after the changes.
fn changed(alloc: Global, values: &[Value], changes: &[Change]) -> Result<Vec<Value>, AllocError>
    ensures { IfOk result (λ copies. copies.items ≡ changed_items changes.now values.now) }
{
    let mut copies = copy_values(alloc, values)?;
    for change in changes {
        let value = change.value.copy(alloc)?;
        set_item(&mut copies, change.item.index() as usize, value);
    }
    Ok(copies)
}

// The member with the sort key that a record would have with these items, in the list in which it is.
fn member_beside(
    schema: &Schema,
    image: &Image,
    key: &DbKey,
    items: &[Value],
    set: SetNo,
) -> Option<Obstacle>
    ensures { result ≡ rekeyed_member schema.now (imaged schema.now image.now) key.now items.now set }
{
    let items = Items {
        rtype: key.rtype,
        values: items,
    };
    match owner_in(image, set, key) {
        Some(owner) => {
            let member = member_with(schema, image, set, &owner, &Some(*key), &items);
            member_of(set, owner, member)
        }
        None => None,
    }
}

// Is this such a set, and does another member have the sort key in it?
fn is_taken(schema: &Schema, image: &Image, key: &DbKey, items: &[Value], set: SetNo) -> bool
    ensures { result ≡ (refuses_equal (order_of schema.now set) && sort_key_taken schema.now (imaged schema.now image.now) key.now items.now set) }
{
    refuses_equal(schema.order_of(set)) && member_beside(schema, image, key, items, set).is_some()
}

fn is_taken_anew(
    schema: &Schema,
    image: &Image,
    key: &DbKey,
    items: &[Value],
    changes: &[Change],
    set: SetNo,
) -> bool
    ensures { result ≡ (some_and (λ m. some_and (λ i. list_any (λ j. j == i) (map (λ c. c.item) changes.now)) m.key) (member_clause schema.now set key.now.rtype) && (refuses_equal (order_of schema.now set) && sort_key_taken schema.now (imaged schema.now image.now) key.now items.now set)) }
{
    is_rekeyed_in(schema, set, key.rtype, changes) && is_taken(schema, image, key, items, set)
}

// The first set that is sorted by a named item and in which another member has the sort key.
#[tactic(auto, using(dbtg_schema::proofs::Public::numbers_end))]
fn taken_set(
    schema: &Schema,
    image: &Image,
    key: &DbKey,
    items: &[Value],
    changes: &[Change],
) -> Option<SetNo>
    ensures { result ≡ find (λ s. refuses_equal (order_of schema.now s) && sort_key_taken schema.now (imaged schema.now image.now) key.now items.now s) (rekeyed_sets schema.now key.now.rtype (map (λ c. c.item) changes.now)) }
{
    for s in 0..set_count(schema) {
        let set = SetNo::new(s);
        if is_taken_anew(schema, image, key, items, changes, set) {
            return Some(set);
        }
    }
    None
}

// Does a MODIFY name a CALC item, and does another record have the CALC items that this one would have with these values?
fn takes_calc(
    schema: &Schema,
    image: &Image,
    changes: &[Change],
    items: &Items<'_>,
    own: &Option<DbKey>,
) -> bool
    ensures { result ≡ (names_calc schema.now items.now.rtype changes.now && calc_taken schema.now (imaged schema.now image.now) items.now.rtype items.now.values.now own.now) }
{
    names_calc(schema, items.rtype, changes) && calc_taken(schema, image, items, own)
}

// The member with the sort key that a record would have with these values, in the first set that has one.
fn in_sets(
    schema: &Schema,
    image: &Image,
    changes: &[Change],
    key: &DbKey,
    values: &[Value],
) -> Option<Obstacle>
    ensures { result ≡ option_and_then (rekeyed_member schema.now (imaged schema.now image.now) key.now values.now) (find (λ s. refuses_equal (order_of schema.now s) && sort_key_taken schema.now (imaged schema.now image.now) key.now values.now s) (rekeyed_sets schema.now key.now.rtype (map (λ c. c.item) changes.now))) }
{
    match taken_set(schema, image, key, values, changes) {
        Some(set) => member_beside(schema, image, key, values, set),
        None => None,
    }
}

// A record that has the CALC items or the sort key which a record would have with these values.
fn in_modify(
    schema: &Schema,
    image: &Image,
    changes: &[Change],
    key: &DbKey,
    values: &[Value],
) -> Option<Obstacle>
    ensures { result ≡ in_modify schema.now (imaged schema.now image.now) (holder_in_image schema.now image.now) changes.now key.now values.now }
{
    let items = Items {
        rtype: key.rtype,
        values,
    };
    let own = Some(*key);
    if takes_calc(schema, image, changes, &items, &own) {
        record_of(holder_of(schema, image, &items, &own))
    } else {
        in_sets(schema, image, changes, key, values)
    }
}

// The same for the values that it would have after a MODIFY.
fn in_modifying(
    alloc: Global,
    schema: &Schema,
    image: &Image,
    changes: &[Change],
    key: &DbKey,
) -> Result<Option<Obstacle>, AllocError>
    ensures { IfOk result (λ o. o ≡ in_modify schema.now (imaged schema.now image.now) (holder_in_image schema.now image.now) changes.now key.now (changed_items changes.now (items_in image.now key.now))) }
{
    let values = changed(alloc, items_in(image, key), changes)?;
    let found = in_modify(schema, image, changes, key, values.as_slice());
    Ok(found)
}

fn in_storing(schema: &Schema, image: &Image, unit: &Unit, items: &Items<'_>) -> Option<Obstacle>
    ensures { (suppress : Suppress) → result ≡ duplicate_for schema.now (imaged schema.now image.now) (holder_in_image schema.now image.now) unit.now (Store items.now.rtype items.now.values.now suppress) }
{
    if calc_taken(schema, image, items, &None) {
        return record_of(holder_of(schema, image, items, &None));
    }
    in_store(schema, image, unit, items, Cause::DuplicatesNotAllowed)
}

fn in_inserting(schema: &Schema, image: &Image, unit: &Unit, set: SetNo) -> Option<Obstacle>
    ensures { result ≡ duplicate_for schema.now (imaged schema.now image.now) (holder_in_image schema.now image.now) unit.now (Insert set) }
{
    match unit.currency.run_unit {
        Some(key) => {
            let values = items_in(image, &key);
            let items = Items {
                rtype: key.rtype,
                values,
            };
            let place = unit.joined_place(schema, set);
            at_place(
                schema,
                image,
                set,
                place,
                &items,
                Cause::DuplicatesNotAllowed,
            )
        }
        None => None,
    }
}

/// Who has the same CALC items or sort key.
pub(crate) fn duplicate_for(
    alloc: Global,
    schema: &Schema,
    image: &Image,
    unit: &Unit,
    statement: &Statement,
) -> Result<Option<Obstacle>, AllocError>
    ensures { IfOk result (λ o. o ≡ duplicate_for schema.now (imaged schema.now image.now) (holder_in_image schema.now image.now) unit.now statement.now) }
{
    match statement {
        Statement::Store { rtype, items, .. } => {
            let items = Items {
                rtype: *rtype,
                values: items.get().as_slice(),
            };
            Ok(in_storing(schema, image, unit, &items))
        }
        Statement::Insert(set) => Ok(in_inserting(schema, image, unit, *set)),
        Statement::Modify { changes, .. } => {
            match unit.currency.run_unit {
                Some(key) => in_modifying(alloc, schema, image, changes.get().as_slice(), &key),
                None => Ok(None),
            }
        }
        _ => Ok(None),
    }
}
