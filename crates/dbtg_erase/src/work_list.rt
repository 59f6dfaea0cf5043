//! What a DELETE takes: a work list, first in, first out, over the cells that are held.
ghost use Rattle.std.specs.Prelude.{◌≡◌, ◌*◌, ◌^◌, ◌<◌, length, not, ◌&&◌, ◌==◌, IfOk, OnOk};
ghost use Rattle.dbtg_cells.specs.declared.key.Owner.TheVariants.{Rec};
ghost use Rattle.dbtg_cells.specs.Keys.{owner_eq};
ghost use Rattle.dbtg_schema.specs.Lookups.{some_and};
ghost use Rattle.dbtg_schema.specs.Structure.{is_mandatory, member_clause};
ghost use Rattle.dbtg_unit.specs.Database.Statements.Doomed.{takes_member};
ghost use Rattle.dbtg_unit.specs.Hands.Erasing.{with_those};
ghost use Rattle.dbtg_erase.specs.WorkList.{elsewhere_in, gone_in, list_in, most_gone, taken_in, taken_of_set};

use crate::keys::Keys;
use dbtg_cells::{DbKey, Owner, owner_eq};
use dbtg_schema::{Schema, SetNo};
use dbtg_unit::{Erase, Held, occurrence, owner_in, set_count, type_count};
use std::alloc::{AllocError, Global};

/// The members of a record's list of a set that is held.
pub(crate) fn list(
    alloc: Global,
    held: &Held,
    key: &DbKey,
    set: SetNo,
) -> Result<Vec<DbKey>, AllocError>
    ensures { IfOk result (λ keys. keys.items ≡ list_in held.now key.now set) }
{
    match occurrence(held, set, &Owner::Rec(*key)) {
        Some(ring) => ring.keys(alloc),
        None => Ok(Vec::new(alloc)),
    }
}

// Is this owner's list of this set another list than the given owner's list of its own set?
fn is_other(set: SetNo, owner: Option<Owner>, own_set: SetNo, own: &DbKey) -> bool
    ensures { result ≡ some_and (λ o. not (set == own_set && owner_eq o (Rec own.now))) owner }
{
    match owner {
        Some(owner) => { !(set.index() == own_set.index() && owner_eq(owner, Owner::Rec(*own))) }
        None => false,
    }
}

// Is a member of a record's list of this set a member of another list?
#[tactic(auto, using(dbtg_schema::proofs::Public::numbers_next, dbtg_schema::proofs::Public::numbers_end))]
fn is_elsewhere(schema: &Schema, held: &Held, set: SetNo, own: &DbKey, member: &DbKey) -> bool
    ensures { result ≡ elsewhere_in schema.now held.now set (Rec own.now) member.now }
{
    for s in 0..set_count(schema) {
        let other = SetNo::new(s);
        if is_other(other, owner_in(held, other, member), set, own) {
            return true;
        }
    }
    false
}

fn is_mandatory(schema: &Schema, set: SetNo, member: &DbKey) -> bool
    ensures { result ≡ some_and (λ c. is_mandatory c.class) (member_clause schema.now set member.now.rtype) }
{
    match schema.member_clause(set, member.rtype) {
        Some(clause) => clause.class.is_mandatory(),
        None => false,
    }
}

// Does the option take a member of the record's list of this set?
fn is_taken(
    schema: &Schema,
    held: &Held,
    option: Erase,
    key: &DbKey,
    set: SetNo,
    member: &DbKey,
) -> bool
    ensures { result ≡ takes_member schema.now option set (elsewhere_in schema.now held.now set (Rec key.now) member.now) member.now }
{
    match option {
        Erase::Plain => false,
        Erase::Only => is_mandatory(schema, set, member),
        Erase::Selective => {
            schema.member_clause(set, member.rtype).is_some()
                && (is_mandatory(schema, set, member)
                    || !is_elsewhere(schema, held, set, key, member))
        }
        Erase::All => true,
    }
}

// Adds the members of the record's list of this set that the option takes with it.
fn bring_of_set(
    alloc: Global,
    schema: &Schema,
    held: &Held,
    option: Erase,
    key: &DbKey,
    set: SetNo,
    gone: &mut Keys,
) -> Result<(), AllocError>
    ensures { OnOk result (gone.new ≡ with_those gone.old (taken_of_set schema.now held.now option key.now set)) }
{
    let members = list(alloc, held, key, set)?;
    for member in members.as_slice() {
        if is_taken(schema, held, option, key, set, member) {
            gone.push(*member)?;
        }
    }
    Ok(())
}

/// Adds all members that the option takes with the record, set by set.
pub(crate) fn bring(
    alloc: Global,
    schema: &Schema,
    held: &Held,
    option: Erase,
    key: &DbKey,
    gone: &mut Keys,
) -> Result<(), AllocError>
    ensures { OnOk result (gone.new ≡ with_those gone.old (taken_in schema.now held.now option key.now)) }
{
    for set in schema.owned_sets(key.rtype) {
        bring_of_set(alloc, schema, held, option, key, *set, gone)?;
    }
    Ok(())
}

/// The most records that can go: one for each number.
pub(crate) fn most_gone(schema: &Schema, capacity: u16) -> u32
    ensures { result ≡ most_gone schema.now capacity }
{
    type_count(schema) as u32 * capacity as u32
}

/// The records that go with one, in the order in which they are met.
pub(crate) fn gone(
    alloc: Global,
    schema: &Schema,
    capacity: u16,
    held: &Held,
    option: Erase,
    key: &DbKey,
) -> Result<Keys, AllocError>
    ensures { IfOk result (λ gone. gone ≡ gone_in schema.now capacity held.now option key.now) }
{
    let mut gone = Keys::new(alloc);
    gone.push(*key)?;
    let most = most_gone(schema, capacity);
    for place in 0..most {
        match gone.get(place as usize) {
            Some(next) => bring(alloc, schema, held, option, &next, &mut gone)?,
            None => return Ok(gone),
        }
    }
    Ok(gone)
}
