//! A record that is to join an occurrence: what refuses it there, and what is in its way.
ghost use Rattle.std.specs.Prelude.{◌≡◌, ◌&&◌, not, None, is_some, option_and_then, option_map, slice_index_or};
ghost use Rattle.dbtg_schema.specs.Lookups.{first_cause};
ghost use Rattle.dbtg_schema.specs.Structure.{member_clause, order_of};
ghost use Rattle.dbtg_cells.specs.Keys.{option_value_eq, value_eq};
ghost use Rattle.dbtg_cells.specs.Members.{is_left_out};
ghost use Rattle.dbtg_cells.specs.declared.key.Value.TheVariants.{Num};
ghost use Rattle.dbtg_unit.specs.Database.State.Base.{key_item};
ghost use Rattle.dbtg_unit.specs.Database.Statements.Checks.{place_checks};
ghost use Rattle.dbtg_unit.specs.Database.Statements.Conditions.{joined_place, refuses_equal, uses_position};
ghost use Rattle.dbtg_unit.specs.Database.Statements.Found.{is_lost};
ghost use Rattle.dbtg_refusal.specs.declared.obstacle.Obstacle.TheVariants as obstacle;
ghost use Rattle.dbtg_refusal.specs.Inside.Imaged.{imaged, items_in, members_in};
ghost use Rattle.dbtg_refusal.specs.Obstacles.{at_place, in_store, member_with, refusing_set};

use crate::imaged::{has_key, items_in, list_in};
use crate::obstacle::Obstacle;
use dbtg_cells::{DbKey, Owner, Value, value_eq};
use dbtg_schema::{ItemNo, Order, RecordNo, Schema, SetNo};
use dbtg_unit::{Cause, Image, Place, Unit, refuses_equal};

/// The items of a record of a type, stored or not.
#[derive(Clone, Copy)]
pub(crate) struct Items<'a> {
    pub(crate) rtype: RecordNo,
    pub(crate) values: &'a [Value],
}

/// Is this not the key that is left out?
pub(crate) fn is_other(left_out: &Option<DbKey>, key: &DbKey) -> bool
    ensures { result ≡ not (is_left_out left_out.now key.now) }
{
    match left_out {
        Some(left) => !(*left == *key),
        None => true,
    }
}

fn is_zero(value: &Value) -> bool
    ensures { result ≡ value_eq value.now (Num 0) }
{
    match value {
        Value::Num(n) => *n == 0,
        Value::Text(_) => false,
    }
}

/// Do two records have the same value in an item each?
pub(crate) fn same_item(one: &[Value], item: ItemNo, two: &[Value], other: ItemNo) -> bool
    ensures { result ≡ value_eq (slice_index_or one.now item (Num 0)) (slice_index_or two.now other (Num 0)) }
{
    match (
        one.get(item.index() as usize),
        two.get(other.index() as usize),
    ) {
        (Some(a), Some(b)) => value_eq(a, b),
        (Some(a), None) => is_zero(a),
        (None, Some(b)) => is_zero(b),
        (None, None) => true,
    }
}

fn sort_item(schema: &Schema, set: SetNo, rtype: RecordNo) -> Option<ItemNo>
    ensures { result ≡ option_and_then (λ m. m.key) (member_clause schema.now set rtype) }
{
    match schema.member_clause(set, rtype) {
        Some(member) => member.key,
        None => None,
    }
}

// Do two records have the same sort key in a set?
fn same_sort_key(schema: &Schema, set: SetNo, one: &Items<'_>, two: &Items<'_>) -> bool
    ensures { result ≡ option_value_eq (key_item schema.now set one.now.rtype one.now.values.now) (key_item schema.now set two.now.rtype two.now.values.now) }
{
    let Some(item) = sort_item(schema, set, one.rtype) else {
        return false;
    };
    match sort_item(schema, set, two.rtype) {
        Some(other) => same_item(one.values, item, two.values, other),
        None => false,
    }
}

/// The members of an occurrence; none if there is no such occurrence.
pub(crate) fn members_in<'a>(image: &'a Image, set: SetNo, owner: &Owner) -> &'a [DbKey]
    ensures { result.now ≡ members_in image.now set owner.now }
{
    match list_in(image, set, owner) {
        Some(members) => members,
        None => &[],
    }
}

// Is this not the member that is left out, and does it have the sort key of these items?
fn has_same_key(
    schema: &Schema,
    image: &Image,
    set: SetNo,
    member: &DbKey,
    left_out: &Option<DbKey>,
    items: &Items<'_>,
) -> bool
    ensures { result ≡ (not (is_left_out left_out.now member.now) && option_value_eq (key_item schema.now set member.now.rtype (items_in image.now member.now)) (key_item schema.now set items.now.rtype items.now.values.now)) }
{
    let own = Items {
        rtype: member.rtype,
        values: items_in(image, member),
    };
    is_other(left_out, member) && same_sort_key(schema, set, &own, items)
}

/// The first member of an occurrence that has the sort key of these items, other than the one that is left out.
pub(crate) fn member_with(
    schema: &Schema,
    image: &Image,
    set: SetNo,
    owner: &Owner,
    left_out: &Option<DbKey>,
    items: &Items<'_>,
) -> Option<DbKey>
    ensures { result ≡ member_with schema.now (imaged schema.now image.now) set owner.now left_out.now (key_item schema.now set items.now.rtype items.now.values.now) }
{
    for member in members_in(image, set, owner) {
        if has_same_key(schema, image, set, member, left_out, items) {
            return Some(*member);
        }
    }
    None
}

// Is the position lost, and does the order depend on it?
fn loses_position(order: Order, at: Option<DbKey>, members: &[DbKey]) -> bool
    ensures { result ≡ (uses_position order && is_lost at members.now) }
{
    match (order, at) {
        (Order::Next | Order::Prior, Some(key)) => !has_key(members, &key),
        _ => false,
    }
}

// Does a member have the sort key of these items, and does the order refuse equal ones?
fn takes_twice(schema: &Schema, image: &Image, set: SetNo, owner: &Owner, items: &Items<'_>) -> bool
    ensures { result ≡ (refuses_equal (order_of schema.now set) && is_some (member_with schema.now (imaged schema.now image.now) set owner.now None (key_item schema.now set items.now.rtype items.now.values.now))) }
{
    refuses_equal(schema.order_of(set))
        && member_with(schema, image, set, owner, &None, items).is_some()
}

// Why a record with these items may not join the current occurrence of a set.
fn place_refusal(
    schema: &Schema,
    image: &Image,
    unit: &Unit,
    set: SetNo,
    items: &Items<'_>,
) -> Option<Cause>
    ensures { result ≡ first_cause (place_checks schema.now (imaged schema.now image.now) unit.now set (key_item schema.now set items.now.rtype items.now.values.now)) }
{
    let place = unit.joined_place(schema, set);
    let Some(members) = list_in(image, set, &place.owner) else {
        return Some(Cause::Deleted);
    };
    if loses_position(schema.order_of(set), place.at, members) {
        return Some(Cause::PositionLost);
    }
    if takes_twice(schema, image, set, &place.owner, items) {
        return Some(Cause::DuplicatesNotAllowed);
    }
    None
}

pub(crate) fn member_of(set: SetNo, owner: Owner, key: Option<DbKey>) -> Option<Obstacle>
    ensures { result ≡ option_map (obstacle.Member set owner) key }
{
    match key {
        Some(key) => Some(Obstacle::Member { set, owner, key }),
        None => None,
    }
}

/// What is in the way of a record with these items at a place of a set, for a cause.
pub(crate) fn at_place(
    schema: &Schema,
    image: &Image,
    set: SetNo,
    place: Place,
    items: &Items<'_>,
    cause: Cause,
) -> Option<Obstacle>
    ensures { result ≡ at_place schema.now (imaged schema.now image.now) set place (key_item schema.now set items.now.rtype items.now.values.now) cause }
{
    match cause {
        Cause::PositionLost => member_of(set, place.owner, place.at),
        Cause::DuplicatesNotAllowed => {
            let member = member_with(schema, image, set, &place.owner, &None, items);
            member_of(set, place.owner, member)
        }
        _ => {
            Some(Obstacle::Occurrence {
                set,
                owner: place.owner,
            })
        }
    }
}

fn refusing_set(schema: &Schema, image: &Image, unit: &Unit, items: &Items<'_>) -> Option<SetNo>
    ensures { result ≡ refusing_set schema.now (imaged schema.now image.now) unit.now items.now.rtype items.now.values.now }
{
    for set in schema.automatic_sets(items.rtype) {
        if place_refusal(schema, image, unit, *set, items).is_some() {
            return Some(*set);
        }
    }
    None
}

/// What is in the way of a STORE, in the first set in which it may not connect the record.
pub(crate) fn in_store(
    schema: &Schema,
    image: &Image,
    unit: &Unit,
    items: &Items<'_>,
    cause: Cause,
) -> Option<Obstacle>
    ensures { result ≡ in_store schema.now (imaged schema.now image.now) unit.now items.now.rtype items.now.values.now cause }
{
    match refusing_set(schema, image, unit, items) {
        Some(set) => {
            let place = unit.joined_place(schema, set);
            at_place(schema, image, set, place, items, cause)
        }
        None => None,
    }
}
