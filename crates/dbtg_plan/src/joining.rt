//! How a record joins the current occurrence of a set: why it may not, and at which place it does.
ghost use Rattle.std.specs.Prelude.{◌≡◌, ◌&&◌, OnOk};
ghost use Rattle.std.specs.List.{list_any};
ghost use Rattle.dbtg_schema.specs.Lookups.{first_cause};
ghost use Rattle.dbtg_cells.specs.Keys.{option_value_eq};
ghost use Rattle.dbtg_cells.specs.Members.{keys_in, members_in};
ghost use Rattle.dbtg_unit.specs.Hands.InHand.{in_hand};
ghost use Rattle.dbtg_unit.specs.Database.Statements.Checks.{place_checks};
ghost use Rattle.dbtg_unit.specs.Database.State.CellNames.{place_of};
ghost use Rattle.dbtg_unit.specs.Database.Statements.Conditions.{refuses_equal, uses_position};
ghost use Rattle.dbtg_unit.specs.Database.Statements.Found.{is_lost};
ghost use Rattle.dbtg_unit.specs.Hands.Making.{ShowsTheSame};
ghost use Rattle.dbtg_unit.specs.Hands.Needs.{current_owner};
ghost use Rattle.dbtg_unit.specs.Hands.Reserving.{CanTakeMember, KeepsOthers, OfHeld};
ghost use Rattle.dbtg_unit.specs.Database.Statements.Conditions.{joined_place};
ghost use Rattle.dbtg_unit.specs.Hands.PlanOf.{joining_edit};

use dbtg_cells::{CellName, DbKey, Owner, Ring, Value};
use dbtg_schema::{Duplicates, Order, Schema, SetNo};
use dbtg_unit::{Cause, CellEdit, Edit, Held, Unit, occurrence, reserve_member, ring_name};
use std::alloc::AllocError;

/// Is the position a key that is no longer in the list?
pub(crate) fn is_position_lost(at: Option<DbKey>, ring: &Ring) -> bool
    ensures { result ≡ is_lost at (keys_in ring.now.occurrence) }
{
    match at {
        Some(key) => !ring.contains(key),
        None => false,
    }
}

// Is the position lost, and does the order depend on it?
fn loses_position(order: Order, at: Option<DbKey>, ring: &Ring) -> bool
    ensures { result ≡ (uses_position order && is_lost at (keys_in ring.now.occurrence)) }
{
    match order {
        Order::Next => is_position_lost(at, ring),
        Order::Prior => is_position_lost(at, ring),
        _ => false,
    }
}

// Is the sort key taken, and does the order refuse equal ones?
fn takes_twice(order: Order, sort_key: &Option<Value>, ring: &Ring) -> bool
    ensures { result ≡ (refuses_equal order && list_any (λ e. option_value_eq e.1 sort_key.now) (members_in ring.now.occurrence)) }
{
    match order {
        Order::Sorted {
            ascending: _,
            duplicates: Duplicates::NotAllowed,
        } => ring.has_sort_key(sort_key, None),
        _ => false,
    }
}

/// Why a record with this sort key may not join the current occurrence of a set.
pub(crate) fn place_refusal(
    schema: &Schema,
    unit: &Unit,
    held: &Held,
    set: SetNo,
    sort_key: &Option<Value>,
) -> Option<Cause>
    ensures { result ≡ first_cause (place_checks schema.now (in_hand held.now) unit.now set sort_key.now) }
{
    let place = unit.joined_place(schema, set);
    let order = schema.order_of(set);
    let Some(ring) = occurrence(held, set, &place.owner) else {
        return Some(Cause::Deleted);
    };
    if loses_position(order, place.at, ring) {
        return Some(Cause::PositionLost);
    }
    if takes_twice(order, sort_key, ring) {
        return Some(Cause::DuplicatesNotAllowed);
    }
    None
}

/// The edit by which a record with this sort key joins the current occurrence of a set.
pub(crate) fn joining_edit(
    schema: &Schema,
    unit: &Unit,
    set: SetNo,
    key: &DbKey,
    sort_key: Option<Value>,
) -> CellEdit
    ensures { result ≡ joining_edit schema.now unit.now set key.now sort_key }
{
    let place = unit.joined_place(schema, set);
    CellEdit {
        name: ring_name(set, &place.owner),
        edit: Edit::PlaceMember {
            order: schema.order_of(set),
            position: place.at,
            key: *key,
            sort_key,
        },
    }
}

/// The owner in the current of a set.
pub(crate) fn current_owner(schema: &Schema, unit: &Unit, set: SetNo) -> Option<Owner>
    ensures { result ≡ current_owner schema.now unit.now set }
{
    match unit.place_in(schema, set) {
        Some(place) => Some(place.owner),
        None => None,
    }
}

/// Makes room for a record in the current occurrence of a set.
pub(crate) fn make_room(
    schema: &Schema,
    unit: &Unit,
    set: SetNo,
    held: &mut Held,
    key: &DbKey,
) -> Result<(), AllocError>
    ensures same { ShowsTheSame held.old held.new }
    ensures others { KeepsOthers (CellName.Ring set (place_of (joined_place schema.now unit.now set).owner)) held.old.cells held.new.cells }
    ensures room { OnOk result (OfHeld (CellName.Ring set (place_of (joined_place schema.now unit.now set).owner)) held.new.cells (CanTakeMember key.now)) }
{
    let owner = unit.joined_place(schema, set).owner;
    reserve_member(held, &ring_name(set, &owner), key)
}
