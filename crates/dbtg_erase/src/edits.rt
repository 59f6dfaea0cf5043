//! The edits by which a DELETE changes the cells that it holds.
ghost use Rattle.std.specs.Prelude.{◌≡◌, [], ◌∷◌, ◌++◌, filter, map, IfOk, OnOk};
ghost use Rattle.std.specs.List.{flat_map};
ghost use Rattle.dbtg_schema.specs.Lookups.{some_and};
ghost use Rattle.dbtg_unit.specs.declared.edit.Edit.TheVariants.{ChangeOwner};
ghost use Rattle.dbtg_unit.specs.Hands.EditsOf.{edits_of_erased, leaving_edits, losing_edits, lost_sets, slot_edit, staying_owner};
ghost use Rattle.dbtg_unit.specs.Hands.Erasing.{own_rings};
ghost use Rattle.dbtg_unit.specs.Database.Statements.Effect.{is_gone};
ghost use Rattle.dbtg_unit.specs.Hands.InHand.{owner_in};
ghost use Rattle.dbtg_erase.specs.Inside.ErasePlan.{going_edits, lose_owner};

use crate::keys::Keys;
use dbtg_cells::{CellName, DbKey, NewOwner, Owner, owner_at};
use dbtg_schema::{Row, Schema, SetNo};
use dbtg_unit::{CellEdit, Edit, Erased, Held, owner_in, owners_of, push_taking_out, set_count};
use std::alloc::{AllocError, Global};

// Adds an edit of the slot of a key.
fn push_slot_edit(key: &DbKey, edit: Edit, edits: &mut Row<CellEdit>) -> Result<(), AllocError>
    ensures { OnOk result (edits.new ≡ edits.old ++ slot_edit key.now edit ∷ []) }
{
    let name = CellName::Slot(key.rtype, key.number);
    edits.push(CellEdit { name, edit })?;
    Ok(())
}

fn is_gone(gone: &Keys, owner: &Owner) -> bool
    ensures { result ≡ is_gone gone.now owner.now }
{
    match owner {
        Owner::System => false,
        Owner::Rec(key) => gone.contains(*key),
    }
}

// An owner, if it does not go.
fn staying_owner(gone: &Keys, owner: Option<Owner>) -> Option<Owner>
    ensures { result ≡ staying_owner gone.now owner }
{
    match owner {
        Some(owner) => {
            if is_gone(gone, &owner) {
                None
            } else {
                Some(owner)
            }
        }
        None => None,
    }
}

// Does the owner go?
fn is_lost(gone: &Keys, owner: Option<Owner>) -> bool
    ensures { result ≡ some_and (is_gone gone.now) owner }
{
    match owner {
        Some(owner) => is_gone(gone, &owner),
        None => false,
    }
}

// Takes a record out of the lists of the owners that stay.
fn leave_each_list(
    schema: &Schema,
    held: &Held,
    gone: &Keys,
    key: &DbKey,
    edits: &mut Row<CellEdit>,
) -> Result<(), AllocError>
    ensures { OnOk result (edits.new ≡ edits.old ++ leaving_edits schema.now (owner_in held.now) gone.now key.now) }
{
    let owners = owners_of(held, key);
    for s in 0..set_count(schema) {
        let owner = staying_owner(gone, owner_at(owners.as_slice(), s as usize));
        push_taking_out(edits, SetNo::new(s), owner, key)?;
    }
    Ok(())
}

#[tactic(auto, using(crate::proofs::EditLists::edits_append))]
fn leave_all_lists(
    schema: &Schema,
    held: &Held,
    gone: &Keys,
    edits: &mut Row<CellEdit>,
) -> Result<(), AllocError>
    ensures { OnOk result (edits.new ≡ edits.old ++ flat_map (leaving_edits schema.now (owner_in held.now) gone.now) gone.now) }
{
    for key in gone.as_slice() {
        leave_each_list(schema, held, gone, key, edits)?;
    }
    Ok(())
}

// The rings that a record owns.
#[tactic(auto, using(crate::proofs::EditLists::names_append))]
fn push_each_ring(schema: &Schema, key: &DbKey, rings: &mut Row<CellName>) -> Result<(), AllocError>
    ensures { OnOk result (rings.new ≡ rings.old ++ own_rings schema.now key.now) }
{
    for set in schema.owned_sets(key.rtype) {
        rings.push(CellName::Ring(*set, Some((key.rtype, key.number))))?;
    }
    Ok(())
}

// The rings owned by all records that go.
#[tactic(auto, using(crate::proofs::EditLists::names_append))]
fn rings_of_all(alloc: Global, schema: &Schema, gone: &[DbKey]) -> Result<Row<CellName>, AllocError>
    ensures { IfOk result (λ rings. rings ≡ flat_map (own_rings schema.now) gone.now) }
{
    let mut rings = Row::of(Vec::new(alloc));
    for key in gone {
        push_each_ring(schema, key, &mut rings)?;
    }
    Ok(rings)
}

// A member that stays loses its owner in a set if that owner goes.
fn lose_owner(
    held: &Held,
    gone: &Keys,
    key: &DbKey,
    set: SetNo,
    edits: &mut Row<CellEdit>,
) -> Result<(), AllocError>
    ensures { OnOk result (edits.new ≡ edits.old ++ map (lose_owner key.now) (filter (λ s. some_and (is_gone gone.now) (owner_in held.now s key.now)) (set ∷ []))) }
{
    if is_lost(gone, owner_in(held, set, key)) {
        push_slot_edit(
            key,
            Edit::ChangeOwner {
                set,
                owner: NewOwner::none(),
            },
            edits,
        )?;
    }
    Ok(())
}

// The member loses its owner in each set in which that owner goes.
fn lose_each_owner(
    schema: &Schema,
    held: &Held,
    gone: &Keys,
    key: &DbKey,
    edits: &mut Row<CellEdit>,
) -> Result<(), AllocError>
    ensures { OnOk result (edits.new ≡ edits.old ++ map (lose_owner key.now) (lost_sets schema.now (owner_in held.now) gone.now key.now)) }
{
    for s in 0..set_count(schema) {
        let set = SetNo::new(s);
        lose_owner(held, gone, key, set, edits)?;
    }
    Ok(())
}

// A member that stays loses its owners that go, and its version is raised.
#[tactic(auto, using(crate::proofs::EditLists::edits_append))]
fn lose(
    schema: &Schema,
    held: &Held,
    gone: &Keys,
    key: &DbKey,
    edits: &mut Row<CellEdit>,
) -> Result<(), AllocError>
    ensures { OnOk result (edits.new ≡ edits.old ++ losing_edits schema.now (owner_in held.now) gone.now key.now) }
{
    lose_each_owner(schema, held, gone, key, edits)?;
    push_slot_edit(key, Edit::RaiseVersion, edits)
}

#[tactic(auto, using(crate::proofs::EditLists::edits_append))]
fn lose_all(
    schema: &Schema,
    held: &Held,
    gone: &Keys,
    left: &[DbKey],
    edits: &mut Row<CellEdit>,
) -> Result<(), AllocError>
    ensures { OnOk result (edits.new ≡ edits.old ++ flat_map (losing_edits schema.now (owner_in held.now) gone.now) left.now) }
{
    for key in left {
        lose(schema, held, gone, key, edits)?;
    }
    Ok(())
}

/// What is taken out with the records that go.
pub(crate) fn erased(
    alloc: Global,
    schema: &Schema,
    held: &Held,
    gone: &Keys,
) -> Result<Erased, AllocError>
    ensures { IfOk result (λ erased. edits_of_erased erased ≡ going_edits schema.now (owner_in held.now) gone.now) }
{
    let mut places = Row::of(Vec::new(alloc));
    leave_all_lists(schema, held, gone, &mut places)?;
    let rings = rings_of_all(alloc, schema, gone.as_slice())?;
    let gone = gone.copy(alloc)?;
    Ok(Erased {
        gone,
        places,
        rings,
    })
}

/// The edits of the members that stay.
pub(crate) fn losing_edits(
    alloc: Global,
    schema: &Schema,
    held: &Held,
    gone: &Keys,
    left: &Keys,
) -> Result<Row<CellEdit>, AllocError>
    ensures { IfOk result (λ edits. edits ≡ flat_map (losing_edits schema.now (owner_in held.now) gone.now) left.now) }
{
    let mut edits = Row::of(Vec::new(alloc));
    lose_all(schema, held, gone, left.as_slice(), &mut edits)?;
    Ok(edits)
}
