//! A held record as a member of sets: its sort key, and the edits of its slot.
ghost use Rattle.std.specs.Prelude.{◌≡◌, [], ◌∷◌, ◌++◌, IfOk, OnOk};
ghost use Rattle.dbtg_unit.specs.Database.State.Base.{key_item};
ghost use Rattle.dbtg_unit.specs.Hands.EditsOf.{slot_edit};
ghost use Rattle.dbtg_unit.specs.Hands.InHand.{items_in};
ghost use Rattle.dbtg_unit.specs.Hands.Making.{AreMade, CanMake};

use crate::calc::copy_item;
use dbtg_cells::{CellName, DbKey, Value};
use dbtg_schema::{RecordNo, Row, Schema, SetNo};
use dbtg_unit::{CellEdit, Edit, Held, edit_held, stored};
use std::alloc::{AllocError, Global};

/// An edit of the slot of a key.
pub(crate) fn slot_edit(key: &DbKey, edit: Edit) -> CellEdit
    ensures { result ≡ slot_edit key.now edit }
{
    CellEdit {
        name: CellName::Slot(key.rtype, key.number),
        edit,
    }
}

/// Adds an edit of the slot of a key, and the one that raises the version there.
pub(crate) fn push_slot(
    edits: &mut Row<CellEdit>,
    key: &DbKey,
    edit: Edit,
) -> Result<(), AllocError>
    ensures { OnOk result (edits.new ≡ edits.old ++ slot_edit key.now edit ∷ slot_edit key.now Edit.RaiseVersion ∷ []) }
{
    edits.push(slot_edit(key, edit))?;
    edits.push(slot_edit(key, Edit::RaiseVersion))?;
    Ok(())
}

/// Makes an edit of the slot of a key, and raises the version there.
pub(crate) fn change_slot(held: &mut Held, key: &DbKey, edit: Edit)
    requires { CanMake (slot_edit key.now edit ∷ slot_edit key.now Edit.RaiseVersion ∷ []) held.old.cells }
    ensures made { AreMade (slot_edit key.now edit ∷ slot_edit key.now Edit.RaiseVersion ∷ []) held.old.cells held.new.cells }
    ensures areas { held.new.areas ≡ held.old.areas }
    ensures guesses { held.new.guesses ≡ held.old.guesses }
{
    edit_held(held, slot_edit(key, edit));
    edit_held(held, slot_edit(key, Edit::RaiseVersion));
}

/// A copy of the sort key that a record with these items has in a set; none if the set is not sorted.
pub(crate) fn copy_sort_key(
    alloc: Global,
    schema: &Schema,
    set: SetNo,
    rtype: RecordNo,
    items: &[Value],
) -> Result<Option<Value>, AllocError>
    ensures { IfOk result (λ value. value ≡ key_item schema.now set rtype items.now) }
{
    let Some(member) = schema.member_clause(set, rtype) else {
        return Ok(None);
    };
    match member.key {
        Some(item) => Ok(Some(copy_item(alloc, items, item)?)),
        None => Ok(None),
    }
}

/// A copy of the sort key that a held record has in a set.
pub(crate) fn sort_key_in(
    alloc: Global,
    schema: &Schema,
    set: SetNo,
    held: &Held,
    key: &DbKey,
) -> Result<Option<Value>, AllocError>
    ensures { IfOk result (λ value. value ≡ key_item schema.now set key.now.rtype (items_in held.now key.now)) }
{
    match stored(held, key) {
        Some(stored) => copy_sort_key(alloc, schema, set, key.rtype, stored.items.get().as_slice()),
        None => copy_sort_key(alloc, schema, set, key.rtype, &[]),
    }
}
