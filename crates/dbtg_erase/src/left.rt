//! The members that stay when their owners go.
ghost use Rattle.std.specs.Prelude.{◌≡◌, ◌++◌, filter, not, IfOk, IsTrue, OnOk};
ghost use Rattle.std.specs.List.{flat_map};
ghost use Rattle.dbtg_cells.specs.declared.key.DbKey.{DbKey};
ghost use Rattle.dbtg_cells.specs.Keys.{is_member};
ghost use Rattle.dbtg_unit.specs.Hands.EditsOf.{left_behind};
ghost use Rattle.dbtg_unit.specs.Hands.Erasing.{with_those};
ghost use Rattle.dbtg_erase.specs.WorkList.{gone_in, list_in, members_in_hand};

use crate::keys::Keys;
use crate::work_list::{list, most_gone};
use dbtg_cells::DbKey;
use dbtg_schema::{Schema, SetNo};
use dbtg_unit::{Erase, Held};
use std::alloc::{AllocError, Global};

// The keys of a list that do not go.
fn leave_list(members: &[DbKey], gone: &Keys, left: &mut Keys) -> Result<(), AllocError>
    ensures { OnOk result (left.new ≡ with_those left.old (filter (λ x. not (is_member x gone.now)) members.now)) }
{
    for member in members {
        if !gone.contains(*member) {
            left.push(*member)?;
        }
    }
    Ok(())
}

// Adds the members of a record's list of a set.
fn push_list(
    alloc: Global,
    held: &Held,
    key: &DbKey,
    set: SetNo,
    members: &mut Vec<DbKey>,
) -> Result<(), AllocError>
    ensures { OnOk result (members.new.items ≡ members.old.items ++ list_in held.now key.now set) }
{
    let list = list(alloc, held, key, set)?;
    members.extend_from_slice(list.as_slice())?;
    Ok(())
}

/// Adds the members of a record's lists, set by set.
#[tactic(auto, using(crate::proofs::KeyLists::keys_append))]
pub(crate) fn push_members(
    alloc: Global,
    schema: &Schema,
    held: &Held,
    key: &DbKey,
    members: &mut Vec<DbKey>,
) -> Result<(), AllocError>
    ensures { OnOk result (members.new.items ≡ members.old.items ++ members_in_hand schema.now held.now key.now) }
{
    for set in schema.owned_sets(key.rtype) {
        push_list(alloc, held, key, *set, members)?;
    }
    Ok(())
}

fn members_of_all(
    alloc: Global,
    schema: &Schema,
    held: &Held,
    gone: &[DbKey],
) -> Result<Vec<DbKey>, AllocError>
    ensures { IfOk result (λ members. members.items ≡ flat_map (members_in_hand schema.now held.now) gone.now) }
{
    let mut members = Vec::new(alloc);
    for key in gone {
        push_members(alloc, schema, held, key, &mut members)?;
    }
    Ok(members)
}

// Does each member go with its owner?
fn takes_all(option: Erase) -> bool
    ensures { IsTrue result → option ≡ Erase.All }
{
    matches!(option, Erase::All)
}

/// The members that stay, each once, of the lists of the records that go. If each member goes with its owner, none is looked for.
pub(crate) fn left(
    alloc: Global,
    schema: &Schema,
    capacity: u16,
    held: &Held,
    option: Erase,
    gone: &Keys,
) -> Result<Keys, AllocError>
    requires { (k : DbKey) × gone.now ≡ gone_in schema.now capacity held.now option k }
    ensures { IfOk result (λ left. left ≡ left_behind (members_in_hand schema.now held.now) gone.now) }
{
    if takes_all(option) && gone.as_slice().len() <= most_gone(schema, capacity) as usize {
        return Ok(Keys::new(alloc));
    }
    let members = members_of_all(alloc, schema, held, gone.as_slice())?;
    let mut left = Keys::new(alloc);
    leave_list(members.as_slice(), gone, &mut left)?;
    Ok(left)
}
