//! Making the edits of cells. Nothing here takes memory.
ghost use Rattle.std.specs.Prelude.{◌≡◌, IsTrue};
ghost use Rattle.dbtg_cells.specs.Cells.{shown};
ghost use Rattle.dbtg_unit.specs.Hands.CanEdit.{CanEdit, CanPlace};
ghost use Rattle.dbtg_unit.specs.Hands.Edits.{edited, member_spot};
ghost use Rattle.dbtg_cells.specs.Placed.{placed};
ghost use Rattle.dbtg_cells.specs.Members.{has_room, keys_in, with_members, without_key};
ghost use Rattle.dbtg_cells.specs.Keys.{is_member};
ghost use Rattle.dbtg_cells.specs.Shown.{UsageValue, ExtentValue, RingValue, SlotValue};

use crate::edit::Edit;
use dbtg_cells::{Cell, DbKey, Extent, Ring, Slot, Usage, Value};
use dbtg_schema::Order;

fn place_next(ring: &mut Ring, position: Option<DbKey>, key: DbKey, sort_key: Option<Value>)
    requires place { CanPlace Order.Next position sort_key ring.old.occurrence }
    requires room { IsTrue (has_room ring.old key) }
    ensures { ring.new.occurrence ≡ with_members (placed (member_spot Order.Next position sort_key) (key, sort_key)) ring.old.occurrence }
{
    match position {
        Some(other) => ring.place_after(other, key, sort_key),
        None => ring.place_first(key, sort_key),
    }
}

fn place_prior(ring: &mut Ring, position: Option<DbKey>, key: DbKey, sort_key: Option<Value>)
    requires place { CanPlace Order.Prior position sort_key ring.old.occurrence }
    requires room { IsTrue (has_room ring.old key) }
    ensures { ring.new.occurrence ≡ with_members (placed (member_spot Order.Prior position sort_key) (key, sort_key)) ring.old.occurrence }
{
    match position {
        Some(other) => ring.place_before(other, key, sort_key),
        None => ring.place_last(key, sort_key),
    }
}

fn place(
    ring: &mut Ring,
    order: Order,
    position: Option<DbKey>,
    key: DbKey,
    sort_key: Option<Value>,
)
    requires place { CanPlace order position sort_key ring.old.occurrence }
    requires room { IsTrue (has_room ring.old key) }
    ensures { ring.new.occurrence ≡ with_members (placed (member_spot order position sort_key) (key, sort_key)) ring.old.occurrence }
{
    match order {
        Order::First => ring.place_first(key, sort_key),
        Order::Last => ring.place_last(key, sort_key),
        Order::Next => place_next(ring, position, key, sort_key),
        Order::Prior => place_prior(ring, position, key, sort_key),
        Order::Sorted {
            ascending,
            duplicates,
        } => ring.place_sorted(ascending, duplicates, key, sort_key),
    }
}

fn place_anew(
    ring: &mut Ring,
    order: Order,
    position: Option<DbKey>,
    key: DbKey,
    sort_key: Option<Value>,
)
    requires member { IsTrue (is_member key (keys_in ring.old.occurrence)) }
    requires place { CanPlace order position sort_key (with_members (without_key key) ring.old.occurrence) }
    ensures { ring.new.occurrence ≡ with_members (placed (member_spot order position sort_key) (key, sort_key)) (with_members (without_key key) ring.old.occurrence) }
{
    let again = key;
    ring.take_out(again);
    place(ring, order, position, key, sort_key);
}

fn edit_usage(usage: &mut Usage, edit: Edit)
    requires { CanEdit edit (Cell.Usage usage.old) }
    ensures { UsageValue usage.new.users ≡ edited edit (UsageValue usage.old.users) }
{
    match edit {
        Edit::EnterUser { unit, mode } => usage.enter(unit, mode),
        Edit::LeaveUser { unit } => usage.leave(unit),
        _ => {}
    }
}

pub(crate) fn edit_extent(extent: &mut Extent, edit: Edit)
    requires { CanEdit edit (Cell.Extent extent.old) }
    ensures { ExtentValue extent.new.numbers ≡ edited edit (ExtentValue extent.old.numbers) }
{
    match edit {
        Edit::EnterNumber { number, calc } => extent.enter(number, calc),
        Edit::LeaveNumber { number } => extent.leave(number),
        Edit::ChangeNumber { number, calc } => extent.set_values(number, calc),
        _ => {}
    }
}

fn edit_slot(slot: &mut Slot, edit: Edit)
    requires { CanEdit edit (Cell.Slot slot.old) }
    ensures { SlotValue slot.new ≡ edited edit (SlotValue slot.old) }
{
    match edit {
        Edit::Fill { stored } => slot.fill(stored),
        Edit::Vacate => slot.vacate(),
        Edit::ChangeItems { items } => slot.set_items(items),
        Edit::ChangeOwner { set, owner } => slot.set_owner(set, owner),
        Edit::RaiseVersion => slot.raise_version(),
        _ => {}
    }
}

fn edit_ring(ring: &mut Ring, edit: Edit)
    requires { CanEdit edit (Cell.Ring ring.old) }
    ensures { RingValue ring.new.occurrence ≡ edited edit (RingValue ring.old.occurrence) }
{
    match edit {
        Edit::OpenRing { owner } => ring.open(owner),
        Edit::CloseRing => ring.close(),
        Edit::PlaceMember {
            order,
            position,
            key,
            sort_key,
        } => place(ring, order, position, key, sort_key),
        Edit::ReplaceMember {
            order,
            position,
            key,
            sort_key,
        } => place_anew(ring, order, position, key, sort_key),
        Edit::TakeOut { key } => ring.take_out(key),
        _ => {}
    }
}

/// Makes an edit of a cell. It takes no memory and cannot fail; an edit of another kind of cell leaves the cell as it was.
pub fn edit_cell(cell: &mut Cell, edit: Edit)
    requires { CanEdit edit cell.old }
    ensures { shown cell.new ≡ edited edit (shown cell.old) }
{
    match cell {
        Cell::Usage(usage) => edit_usage(usage, edit),
        Cell::Extent(extent) => edit_extent(extent, edit),
        Cell::Ring(ring) => edit_ring(ring, edit),
        Cell::Slot(slot) => edit_slot(slot, edit),
    }
}
