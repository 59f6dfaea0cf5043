//! What a DELETE that needs nothing more prepares.
ghost use Rattle.std.specs.Prelude.{◌≡◌, ◌+◌, length, map, nat_lt, IfOk};
ghost use Rattle.std.specs.List.{flat_map};
ghost use Rattle.dbtg_schema.specs.Lookups.{first_cause};
ghost use Rattle.dbtg_cells.specs.declared.key.DbKey.{DbKey};
ghost use Rattle.dbtg_unit.specs.Database.Statements.Checks.{delete_checks};
ghost use Rattle.dbtg_unit.specs.Database.Statements.Conditions.{has_members};
ghost use Rattle.dbtg_unit.specs.Hands.EditsOf.{left_behind, losing_edits};
ghost use Rattle.dbtg_unit.specs.Hands.InHand.{in_hand, owner_in, version_in};
ghost use Rattle.dbtg_unit.specs.Hands.Locality.{IsMadeOnEach, made_by};
ghost use Rattle.dbtg_unit.specs.Hands.Making.{CanFinish, HaveNextVersions, MayPrepare};
ghost use Rattle.dbtg_unit.specs.declared.statement.Statement.TheVariants.{Delete};
ghost use Rattle.dbtg_erase.specs.Inside.ErasePlan.{erasing_plan, raised_versions, whole_plan};
ghost use Rattle.dbtg_erase.specs.WorkList.{gone_in, list_in, members_in_hand};

use crate::edits::{erased, losing_edits};
use crate::keys::Keys;
use crate::left::left;
use crate::work_list::gone;
use dbtg_cells::{DbKey, Owner};
use dbtg_schema::{Row, Schema, SetNo};
use dbtg_unit::{
    Answer, Cause, CellEdit, Erase, Held, Prepared, Statement, Status, Unit, UnitEdit,
    next_version, occurrence, own_refusal, refused, refused_at_once, set_count,
};
use std::alloc::{AllocError, Global};

// Does a record have a member in its list of this set?
pub(crate) fn has_any(held: &Held, key: &DbKey, set: SetNo) -> bool
    ensures { result ≡ nat_lt 0 (length (list_in held.now key.now set)) }
{
    match occurrence(held, set, &Owner::Rec(*key)) {
        Some(ring) => ring.len() > 0,
        None => false,
    }
}

// Does a record have a member in some list that is held?
#[tactic(auto, using(dbtg_schema::proofs::Public::numbers_next, dbtg_schema::proofs::Public::numbers_end))]
fn has_members(schema: &Schema, held: &Held, key: &DbKey) -> bool
    ensures { result ≡ has_members schema.now (in_hand held.now) key.now }
{
    for s in 0..set_count(schema) {
        if has_any(held, key, SetNo::new(s)) {
            return true;
        }
    }
    false
}

// Why the current of run-unit is not deleted.
#[tactic(auto, using(crate::proofs::ErasePlan::cause_append))]
fn refusal_of(
    schema: &Schema,
    held: &Held,
    unit: &Unit,
    option: Erase,
    key: &DbKey,
) -> Option<Cause>
    ensures { result ≡ first_cause (delete_checks schema.now (in_hand held.now) unit.now option key.now) }
{
    if let Some(cause) = own_refusal(held, unit, key) {
        return Some(cause);
    }
    match option {
        Erase::Plain => {
            if has_members(schema, held, key) {
                Some(Cause::OwnerHasMembers)
            } else {
                None
            }
        }
        _ => None,
    }
}

// These records at their next versions.
fn next_versions(
    alloc: Global,
    held: &Held,
    keys: &[DbKey],
) -> Result<Row<(DbKey, u64)>, AllocError>
    requires { HaveNextVersions held.now.cells }
    ensures { IfOk result (λ versions. versions ≡ map (λ x. (x, version_in held.now x + 1)) keys.now) }
{
    let mut versions = Row::of(Vec::new(alloc));
    for key in keys {
        versions.push((*key, next_version(held, key)))?;
    }
    Ok(versions)
}

// How the cells and versions of the members that stay change when these records go.
fn losses(
    alloc: Global,
    schema: &Schema,
    capacity: u16,
    held: &Held,
    option: Erase,
    gone: &Keys,
) -> Result<(Row<CellEdit>, Row<(DbKey, u64)>), AllocError>
    requires gone { (k : DbKey) × gone.now ≡ gone_in schema.now capacity held.now option k }
    requires next { HaveNextVersions held.now.cells }
    ensures cells { IfOk result (λ made. made.0 ≡ flat_map (losing_edits schema.now (owner_in held.now) gone.now) (left_behind (members_in_hand schema.now held.now) gone.now)) }
    ensures versions { IfOk result (λ made. made.1 ≡ raised_versions schema.now held.now gone.now) }
{
    let left = left(alloc, schema, capacity, held, option, gone)?;
    let versions = next_versions(alloc, held, left.as_slice())?;
    let cells = losing_edits(alloc, schema, held, gone, &left)?;
    Ok((cells, versions))
}

// What a DELETE that nothing refuses prepares.
fn erasing(
    alloc: Global,
    schema: &Schema,
    capacity: u16,
    held: &Held,
    option: Erase,
    key: &DbKey,
) -> Result<Prepared, AllocError>
    requires { HaveNextVersions held.now.cells }
    ensures { IfOk result (λ plan. plan ≡ erasing_plan schema.now held.now (gone_in schema.now capacity held.now option key.now) key.now) }
{
    let gone = gone(alloc, schema, capacity, held, option, key)?;
    let (cells, versions) = losses(alloc, schema, capacity, held, option, &gone)?;
    let erased = erased(alloc, schema, held, &gone)?;
    let answer = Answer {
        status: Status::Done,
        key: None,
        items: None,
    };
    let unit = UnitEdit::LoseCurrent { key: *key };
    Ok(Prepared::erasing(answer, erased, cells, versions, unit))
}

// What is prepared, as read from the cells that are held.
fn planned(
    alloc: Global,
    schema: &Schema,
    capacity: u16,
    unit: &Unit,
    option: Erase,
    held: &Held,
) -> Result<Prepared, AllocError>
    requires { HaveNextVersions held.now.cells }
    ensures { IfOk result (λ plan. plan ≡ whole_plan schema.now capacity held.now unit.now option) }
{
    if let Some(cause) = refused_at_once(schema, capacity, unit, &Statement::Delete(option)) {
        return Ok(refused(alloc, cause));
    }
    let Some(key) = unit.currency.run_unit else {
        return Ok(refused(alloc, Cause::NoCurrentOfRunUnit));
    };
    if let Some(cause) = refusal_of(schema, held, unit, option, &key) {
        return Ok(refused(alloc, cause));
    }
    erasing(alloc, schema, capacity, held, option, &key)
}

/// What a DELETE of the current of run-unit that needs nothing more does: its records go, with their places in lists and
/// their own lists, and each member that stays loses the owners that go. The cells that are held stay as they are until it is done.
pub fn prepare(
    alloc: Global,
    schema: &Schema,
    capacity: u16,
    unit: &Unit,
    option: Erase,
    held: &Held,
) -> Result<Prepared, AllocError>
    requires { MayPrepare schema.now capacity unit.now held.now (Delete option) }
    ensures prepared { IfOk result (λ plan. CanFinish schema.now capacity unit.now held.now (Delete option) plan) }
    ensures made { IfOk result (λ plan. IsMadeOnEach schema.now capacity unit.now held.now (Delete option) (made_by schema.now unit.now held.now plan)) }
{
    planned(alloc, schema, capacity, unit, option, held)
}
