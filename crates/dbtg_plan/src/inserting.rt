//! INSERT: what it needs next, and what it does once it needs nothing more.
ghost use Rattle.std.specs.Prelude.{◌≡◌, ℕ, [], ◌∷◌, None, Some, IfOk, OnErr};
ghost use Rattle.dbtg_schema.specs.Lookups.{first_cause};
ghost use Rattle.dbtg_unit.specs.Database.Statements.Checks.{insert_checks};
ghost use Rattle.dbtg_unit.specs.declared.statement.Statement.TheVariants.{Insert};
ghost use Rattle.dbtg_unit.specs.Database.State.Base.{Database, key_item};
ghost use Rattle.dbtg_unit.specs.Database.Statements.Checks.{refused_at_once};
ghost use Rattle.dbtg_unit.specs.Hands.InHand.{items_in, in_hand};
ghost use Rattle.dbtg_unit.specs.Hands.Local.{Agrees};
ghost use Rattle.dbtg_unit.specs.Hands.Locality.{IsMadeOnEach, made_by, seen};
ghost use Rattle.dbtg_unit.specs.Hands.Making.{CanFinish, CanMake, MayPrepare, ShowsTheSame};
ghost use Rattle.dbtg_unit.specs.Hands.Needs.{cells_of, first_missing};
ghost use Rattle.dbtg_unit.specs.Database.Statements.Conditions.{joined_place};
ghost use Rattle.dbtg_unit.specs.Hands.PlanOf.{joining_edit};
ghost use Rattle.dbtg_plan.specs.Inside.Joining.{inserting_with};

use crate::joining::{current_owner, joining_edit, make_room, place_refusal};
use crate::members::{change_slot, push_slot, sort_key_in};
use crate::missing::{missing_ring, missing_slot};
use crate::unit_alone;
use crate::unit_alone::done_answer;
use dbtg_cells::{CellName, DbKey, NewOwner, Value};
use dbtg_schema::{Row, Schema, SetNo};
use dbtg_unit::{
    Answer, Cause, Edit, Held, Place, Prepared, Unit, UnitEdit, edit_held, next_version,
    own_refusal, owner_in, refused,
};
use std::alloc::{AllocError, Global};

/// The first cell that an INSERT needs and that is not held.
pub(crate) fn next_cell_of_insert(
    schema: &Schema,
    unit: &Unit,
    set: SetNo,
    held: &Held,
) -> Option<CellName>
    ensures { (capacity : ℕ) (db : Database) → result ≡ first_missing held.now (cells_of schema.now capacity db unit.now held.now.guesses (Insert set)) }
{
    let ring = missing_ring(held, set, current_owner(schema, unit, set));
    if ring.is_some() {
        return ring;
    }
    missing_slot(held, unit.currency.run_unit)
}

// Why the record, which has this sort key, is not inserted.
fn refusal(
    schema: &Schema,
    unit: &Unit,
    set: SetNo,
    held: &Held,
    key: &DbKey,
    sort_key: &Option<Value>,
) -> Option<Cause>
    requires { sort_key.now ≡ key_item schema.now set key.now.rtype (items_in held.now key.now) }
    ensures { result ≡ first_cause (insert_checks schema.now (in_hand held.now) unit.now set key.now) }
{
    let own = own_refusal(held, unit, key);
    if own.is_some() {
        return own;
    }
    if owner_in(held, set, key).is_some() {
        return Some(Cause::AlreadyMember);
    }
    place_refusal(schema, unit, held, set, sort_key)
}

// Its place in the ring, its owner, its version.
fn inserted(
    alloc: Global,
    schema: &Schema,
    unit: &Unit,
    set: SetNo,
    key: &DbKey,
    sort_key: Option<Value>,
    version: u64,
) -> Result<Prepared, AllocError>
    ensures { IfOk result (λ plan. plan ≡ inserting_with schema.now unit.now set key.now sort_key version) }
{
    let mut edits = Row::of(Vec::new(alloc));
    edits.push(joining_edit(schema, unit, set, key, sort_key))?;
    let place = Place {
        owner: unit.joined_place(schema, set).owner,
        at: Some(*key),
    };
    let owner = NewOwner::of(alloc, place.owner)?;
    push_slot(&mut edits, key, Edit::ChangeOwner { set, owner })?;
    let versions = Vec::from_slice(alloc, &[(*key, version)])?;
    Ok(Prepared::new(
        done_answer(),
        edits,
        Row::of(versions),
        UnitEdit::Move { set, place },
    ))
}

/// What an INSERT that needs nothing more does: the place in the current occurrence, the owner, the version.
pub(crate) fn prepare_insert(
    alloc: Global,
    schema: &Schema,
    capacity: u16,
    unit: &Unit,
    set: SetNo,
    held: &mut Held,
) -> Result<Prepared, AllocError>
    requires may { MayPrepare schema.now capacity unit.now held.old (Insert set) }
    requires passes { refused_at_once schema.now capacity unit.now (Insert set) ≡ None }
    ensures shows { ShowsTheSame held.old held.new }
    ensures prepared { IfOk result (λ plan. CanFinish schema.now capacity unit.now held.new (Insert set) plan) }
{
    // Unused here; the contract mentions it.
    let _ = capacity;
    let Some(key) = unit.currency.run_unit else {
        return Ok(refused(alloc, Cause::NoCurrentOfRunUnit));
    };
    let sort_key = sort_key_in(alloc, schema, set, held, &key)?;
    if let Some(cause) = refusal(schema, unit, set, held, &key, &sort_key) {
        return Ok(refused(alloc, cause));
    }
    let version = next_version(held, &key);
    make_room(schema, unit, set, held, &key)?;
    inserted(alloc, schema, unit, set, &key, sort_key, version)
}

// MADE AT ONCE

// Inserts a record for which there is room, with this sort key, the owner of the place and its next version. It takes no memory.
fn insert_record(
    schema: &Schema,
    unit: &mut Unit,
    set: SetNo,
    held: &mut Held,
    key: &DbKey,
    sort_key: Option<Value>,
    owner: NewOwner,
    version: u64,
) -> Answer
    requires owner { owner ≡ Some (joined_place schema.now unit.old set).owner }
    requires can { CanMake (inserting_with schema.now unit.old set key.now sort_key version).cells held.old.cells }
    ensures { seen result unit.new held.new ≡ made_by schema.now unit.old held.old (inserting_with schema.now unit.old set key.now sort_key version) }
{
    let place = Place {
        owner: unit.joined_place(schema, set).owner,
        at: Some(*key),
    };
    edit_held(held, joining_edit(schema, unit, set, key, sort_key));
    change_slot(held, key, Edit::ChangeOwner { set, owner });
    unit.renote(*key, version);
    held.set_guess(set, Some(place.owner));
    unit.move_to(set, place);
    done_answer()
}

/// Makes an INSERT that needs nothing more, without a plan.
pub(crate) fn make_insert(
    alloc: Global,
    schema: &Schema,
    capacity: u16,
    unit: &mut Unit,
    set: SetNo,
    held: &mut Held,
) -> Result<Answer, AllocError>
    requires may { MayPrepare schema.now capacity unit.old held.old (Insert set) }
    requires agrees { (db : Database) × Agrees schema.now capacity db held.old unit.old }
    requires passes { refused_at_once schema.now capacity unit.old (Insert set) ≡ None }
    ensures made { IfOk result (λ answer. IsMadeOnEach schema.now capacity unit.old held.old (Insert set) (seen answer unit.new held.new)) }
    ensures unit { OnErr result (unit.new ≡ unit.old) }
    ensures shows { OnErr result (ShowsTheSame held.old held.new) }
{
    // Unused here; the contract mentions it.
    let _ = capacity;
    let Some(key) = unit.currency.run_unit else {
        return Ok(unit_alone::refusal(Cause::NoCurrentOfRunUnit));
    };
    let sort_key = sort_key_in(alloc, schema, set, held, &key)?;
    if let Some(cause) = refusal(schema, unit, set, held, &key, &sort_key) {
        return Ok(unit_alone::refusal(cause));
    }
    let version = next_version(held, &key);
    let owner = NewOwner::of(alloc, unit.joined_place(schema, set).owner)?;
    make_room(schema, unit, set, held, &key)?;
    Ok(insert_record(schema, unit, set, held, &key, sort_key, owner, version))
}
