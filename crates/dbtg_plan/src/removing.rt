//! REMOVE: what it needs next, and what it does once it needs nothing more.
ghost use Rattle.std.specs.Prelude.{◌≡◌, ℕ, [], ◌∷◌, ◌++◌, None, is_some, IfOk};
ghost use Rattle.dbtg_schema.specs.Lists.{Lists};
ghost use Rattle.dbtg_schema.specs.Lookups.{first_cause};
ghost use Rattle.dbtg_unit.specs.Database.Statements.Checks.{refused_at_once, remove_checks};
ghost use Rattle.dbtg_unit.specs.declared.statement.Statement.TheVariants.{Remove};
ghost use Rattle.dbtg_unit.specs.Database.State.Base.{Database};
ghost use Rattle.dbtg_unit.specs.Hands.EditsOf.{ring_edits, slot_edit};
ghost use Rattle.dbtg_unit.specs.Hands.InHand.{owner_in, in_hand};
ghost use Rattle.dbtg_unit.specs.Hands.Local.{Agrees};
ghost use Rattle.dbtg_unit.specs.Hands.Locality.{IsMadeOnEach, made_by, seen};
ghost use Rattle.dbtg_unit.specs.Hands.Making.{AreMade, CanMake, HaveNextVersions, MayPrepare};
ghost use Rattle.dbtg_unit.specs.Hands.Needs.{cells_of, first_missing};
ghost use Rattle.dbtg_unit.specs.Hands.PlanOf.{removing};
ghost use Rattle.dbtg_unit.specs.Inside.PlanOf.{plan_of};

use crate::members::{change_slot, push_slot};
use crate::missing::{missing_ring, missing_slot};
use crate::unit_alone;
use crate::unit_alone::done_answer;
use dbtg_cells::{CellName, DbKey, NewOwner, Owner};
use dbtg_schema::{Row, Schema, SetNo};
use dbtg_unit::{
    Answer, Cause, CellEdit, Edit, Held, Prepared, Unit, UnitEdit, edit_held, next_version,
    own_refusal, owner_in, push_taking_out, refused, ring_name,
};
use std::alloc::{AllocError, Global};

/// The first cell that a REMOVE needs and that is not held.
pub(crate) fn next_cell_of_remove(unit: &Unit, set: SetNo, held: &Held) -> Option<CellName>
    ensures { (schema : Lists) (capacity : ℕ) (db : Database) → result ≡ first_missing held.now (cells_of schema capacity db unit.now held.now.guesses (Remove set)) }
{
    let ring = missing_ring(held, set, held.guess(set));
    if ring.is_some() {
        return ring;
    }
    missing_slot(held, unit.currency.run_unit)
}

// Why the record is not removed.
fn refusal(unit: &Unit, set: SetNo, held: &Held, key: &DbKey) -> Option<Cause>
    ensures { result ≡ first_cause (remove_checks (in_hand held.now) unit.now set key.now) }
{
    let own = own_refusal(held, unit, key);
    if own.is_some() {
        return own;
    }
    if owner_in(held, set, key).is_none() {
        return Some(Cause::NotMember);
    }
    None
}

// Out of the ring, its owner, its version.
fn edits_of(
    alloc: Global,
    set: SetNo,
    owner: Option<Owner>,
    key: &DbKey,
) -> Result<Row<CellEdit>, AllocError>
    ensures { IfOk result (λ edits. edits ≡ ring_edits set owner (Edit.TakeOut key.now ∷ []) ++ slot_edit key.now (Edit.ChangeOwner set None) ∷ slot_edit key.now Edit.RaiseVersion ∷ []) }
{
    let mut edits = Row::of(Vec::new(alloc));
    push_taking_out(&mut edits, set, owner, key)?;
    push_slot(
        &mut edits,
        key,
        Edit::ChangeOwner {
            set,
            owner: NewOwner::none(),
        },
    )?;
    Ok(edits)
}

fn removed(alloc: Global, set: SetNo, held: &Held, key: &DbKey) -> Result<Prepared, AllocError>
    requires { HaveNextVersions held.now.cells }
    ensures { IfOk result (λ plan. plan ≡ removing (in_hand held.now) set key.now) }
{
    let edits = edits_of(alloc, set, owner_in(held, set, key), key)?;
    let versions = Vec::from_slice(alloc, &[(*key, next_version(held, key))])?;
    Ok(Prepared::new(
        done_answer(),
        edits,
        Row::of(versions),
        UnitEdit::Leave { set },
    ))
}

/// What a REMOVE that needs nothing more does: out of the list of its owner, no owner there, the version.
pub(crate) fn remove(
    alloc: Global,
    schema: &Schema,
    unit: &Unit,
    set: SetNo,
    held: &Held,
) -> Result<Prepared, AllocError>
    requires { HaveNextVersions held.now.cells }
    ensures { IfOk result (λ plan. plan ≡ plan_of schema.now (in_hand held.now) unit.now (Remove set)) }
{
    // Unused here; the contract mentions it.
    let _ = schema;
    let Some(key) = unit.currency.run_unit else {
        return Ok(refused(alloc, Cause::NoCurrentOfRunUnit));
    };
    if let Some(cause) = refusal(unit, set, held, &key) {
        return Ok(refused(alloc, cause));
    }
    removed(alloc, set, held, &key)
}

// MADE AT ONCE

fn take_out(held: &mut Held, set: SetNo, owner: Option<Owner>, key: &DbKey)
    requires { CanMake (ring_edits set owner (Edit.TakeOut key.now ∷ [])) held.old.cells }
    ensures made { AreMade (ring_edits set owner (Edit.TakeOut key.now ∷ [])) held.old.cells held.new.cells }
    ensures areas { held.new.areas ≡ held.old.areas }
    ensures guesses { held.new.guesses ≡ held.old.guesses }
{
    if let Some(owner) = owner {
        edit_held(
            held,
            CellEdit {
                name: ring_name(set, &owner),
                edit: Edit::TakeOut { key: *key },
            },
        );
    }
}

// Removes a record that no check refuses. It takes no memory.
fn remove_record(unit: &mut Unit, set: SetNo, held: &mut Held, key: &DbKey) -> Answer
    requires can { CanMake (removing (in_hand held.old) set key.now).cells held.old.cells }
    requires versions { HaveNextVersions held.old.cells }
    ensures { (schema : Lists) → seen result unit.new held.new ≡ made_by schema unit.old held.old (removing (in_hand held.old) set key.now) }
{
    let version = next_version(held, key);
    take_out(held, set, owner_in(held, set, key), key);
    change_slot(
        held,
        key,
        Edit::ChangeOwner {
            set,
            owner: NewOwner::none(),
        },
    );
    unit.renote(*key, version);
    held.set_guess(set, None);
    done_answer()
}

/// Makes a REMOVE that needs nothing more, without a plan.
pub(crate) fn make_remove(
    schema: &Schema,
    capacity: u16,
    unit: &mut Unit,
    set: SetNo,
    held: &mut Held,
) -> Answer
    requires may { MayPrepare schema.now capacity unit.old held.old (Remove set) }
    requires agrees { (db : Database) × Agrees schema.now capacity db held.old unit.old }
    requires passes { refused_at_once schema.now capacity unit.old (Remove set) ≡ None }
    ensures { IsMadeOnEach schema.now capacity unit.old held.old (Remove set) (seen result unit.new held.new) }
{
    // Unused here; the contract mentions them.
    let _ = schema;
    let _ = capacity;
    let Some(key) = unit.currency.run_unit else {
        return unit_alone::refusal(Cause::NoCurrentOfRunUnit);
    };
    match refusal(unit, set, held, &key) {
        Some(cause) => unit_alone::refusal(cause),
        None => remove_record(unit, set, held, &key),
    }
}
