//! What is in the way of a statement, cause by cause.
ghost use Rattle.std.specs.Prelude.{◌≡◌, ℕ, IfOk, is_none, length, nat_lt, option_and_then, option_map};
ghost use Rattle.std.specs.List.{find};
ghost use Rattle.dbtg_schema.specs.Lists.{Lists};
ghost use Rattle.dbtg_schema.specs.Structure.{set_numbers};
ghost use Rattle.dbtg_unit.specs.Database.State.Base.{Database};
ghost use Rattle.dbtg_unit.specs.Database.State.Image.{image_of};
ghost use Rattle.dbtg_unit.specs.Database.State.Legal.{Legal};
ghost use Rattle.dbtg_unit.specs.declared.statement.Statement.TheVariants.{Find, Insert};
ghost use Rattle.dbtg_unit.specs.declared.statement.Suppress.{Suppress};
ghost use Rattle.dbtg_unit.specs.Database.Statements.Conditions.{joined_place};
ghost use Rattle.dbtg_refusal.specs.declared.obstacle.Obstacle.TheVariants as obstacle;
ghost use Rattle.dbtg_refusal.specs.Inside.Areas.{passes};
ghost use Rattle.dbtg_refusal.specs.Inside.Imaged.{imaged, members_in, obstacle_in, version_in};
ghost use Rattle.dbtg_refusal.specs.Obstacles.{area_with, changed_since, deleted_for, listed, lost_for, obstacle_of, opened_by, owning};

use crate::areas::{Opening, area_with, conflicting, opened_by};
use crate::duplicates::duplicate_for;
use crate::finding::{
    class_of, current_occurrence, record_of, searched, start_of, stored_type, unlisted,
    without_current,
};
use crate::imaged::{live_in, owner_in, version_in};
use crate::obstacle::Obstacle;
use crate::placing::{Items, in_store, member_of, members_in};
use dbtg_cells::{DbKey, Owner};
use dbtg_schema::{Schema, SetNo};
use dbtg_unit::{Cause, Form, Image, Statement, Unit, set_count};
use std::alloc::{AllocError, Global};

// The current of run-unit of an INSERT, or, if it lives, the owner in the current of the set.
fn deleted_for_insert(schema: &Schema, image: &Image, unit: &Unit, set: SetNo) -> Option<Obstacle>
    ensures { result ≡ deleted_for schema.now (imaged schema.now image.now) unit.now (Insert set) }
{
    match unit.currency.run_unit {
        Some(key) => {
            if live_in(image, &key) {
                Some(current_occurrence(schema, unit, set))
            } else {
                Some(Obstacle::Record(key))
            }
        }
        None => None,
    }
}

fn deleted_for(
    schema: &Schema,
    image: &Image,
    unit: &Unit,
    statement: &Statement,
) -> Option<Obstacle>
    ensures { result ≡ deleted_for schema.now (imaged schema.now image.now) unit.now statement.now }
{
    match statement {
        Statement::Find(_, form) => start_of(schema, unit, form),
        Statement::Store { rtype, items, .. } => {
            let items = Items {
                rtype: *rtype,
                values: items.get().as_slice(),
            };
            in_store(schema, image, unit, &items, Cause::Deleted)
        }
        Statement::Insert(set) => deleted_for_insert(schema, image, unit, *set),
        _ => record_of(unit.currency.run_unit),
    }
}

fn lost_in(schema: &Schema, unit: &Unit, set: SetNo) -> Option<Obstacle>
    ensures { result ≡ option_map (obstacle.Member set (joined_place schema.now unit.now set).owner) (joined_place schema.now unit.now set).at }
{
    let place = unit.joined_place(schema, set);
    member_of(set, place.owner, place.at)
}

fn lost_in_find(schema: &Schema, image: &Image, unit: &Unit, form: &Form) -> Option<Obstacle>
    ensures { (suppress : Suppress) → result ≡ lost_for schema.now (imaged schema.now image.now) unit.now (Find suppress form.now) }
{
    match form {
        Form::InSet { set, .. } => lost_in(schema, unit, *set),
        _ => None,
    }
}

fn lost_for(schema: &Schema, image: &Image, unit: &Unit, statement: &Statement) -> Option<Obstacle>
    ensures { result ≡ lost_for schema.now (imaged schema.now image.now) unit.now statement.now }
{
    match statement {
        Statement::Find(_, form) => lost_in_find(schema, image, unit, form),
        Statement::Store { rtype, items, .. } => {
            let items = Items {
                rtype: *rtype,
                values: items.get().as_slice(),
            };
            in_store(schema, image, unit, &items, Cause::PositionLost)
        }
        Statement::Insert(set) => lost_in(schema, unit, *set),
        _ => None,
    }
}

fn changed(image: &Image, key: &DbKey, kept: Option<u64>) -> Option<Obstacle>
    ensures { result ≡ option_map (λ n. obstacle.Changed key.now n (version_in image.now key.now)) kept }
{
    match kept {
        Some(kept) => {
            Some(Obstacle::Changed {
                key: *key,
                kept,
                now: version_in(image, key),
            })
        }
        None => None,
    }
}

fn changed_since(schema: &Schema, image: &Image, unit: &Unit) -> Option<Obstacle>
    ensures { result ≡ changed_since (imaged schema.now image.now) unit.now }
{
    match unit.currency.run_unit {
        Some(key) => {
            let kept = unit.kept_version(key);
            changed(image, &key, kept)
        }
        None => None,
    }
}

fn member_by(set: SetNo, owner: Option<Owner>, key: DbKey) -> Option<Obstacle>
    ensures { result ≡ option_map (λ o. obstacle.Member set o key) owner }
{
    match owner {
        Some(owner) => Some(Obstacle::Member { set, owner, key }),
        None => None,
    }
}

// The current of run-unit in the list of a set that has it.
fn listed_in(image: &Image, unit: &Unit, set: SetNo) -> Option<Obstacle>
    ensures { (schema : Lists) → result ≡ listed (imaged schema image.now) unit.now (Insert set) }
{
    match unit.currency.run_unit {
        Some(key) => {
            let owner = owner_in(image, set, &key);
            member_by(set, owner, key)
        }
        None => None,
    }
}

fn listed(schema: &Schema, image: &Image, unit: &Unit, statement: &Statement) -> Option<Obstacle>
    ensures { result ≡ listed (imaged schema.now image.now) unit.now statement.now }
{
    match statement {
        Statement::Insert(set) => listed_in(image, unit, *set),
        _ => None,
    }
}

// The first set in which an owner has members.
#[tactic(auto, using(dbtg_schema::proofs::Public::numbers_next, dbtg_schema::proofs::Public::numbers_end))]
fn set_with_members(schema: &Schema, image: &Image, owner: &Owner) -> Option<SetNo>
    ensures { result ≡ find (λ s. nat_lt 0 (length (members_in image.now s owner.now))) (set_numbers schema.now) }
{
    for s in 0..set_count(schema) {
        let set = SetNo::new(s);
        if !members_in(image, set, owner).is_empty() {
            return Some(set);
        }
    }
    None
}

fn occurrence(set: Option<SetNo>, owner: Owner) -> Option<Obstacle>
    ensures { result ≡ option_map (λ s. obstacle.Occurrence s owner) set }
{
    match set {
        Some(set) => Some(Obstacle::Occurrence { set, owner }),
        None => None,
    }
}

fn owning(schema: &Schema, image: &Image, unit: &Unit) -> Option<Obstacle>
    ensures { result ≡ owning schema.now (imaged schema.now image.now) unit.now }
{
    match unit.currency.run_unit {
        Some(key) => {
            let owner = Owner::Rec(key);
            occurrence(set_with_members(schema, image, &owner), owner)
        }
        None => None,
    }
}

fn area_of(
    schema: &Schema,
    unit: &Unit,
    statement: &Statement,
    opening: Opening,
) -> Option<Obstacle>
    ensures { result ≡ option_and_then (opened_by unit.now) (area_with (passes opening) schema.now unit.now statement.now) }
{
    match area_with(schema, unit, statement, opening) {
        Some(area) => opened_by(unit, area),
        None => None,
    }
}

fn closed_area(schema: &Schema, unit: &Unit, statement: &Statement) -> Option<Obstacle>
    ensures { result ≡ option_map obstacle.Area (area_with is_none schema.now unit.now statement.now) }
{
    match area_with(schema, unit, statement, Opening::NotOpen) {
        Some(area) => Some(Obstacle::Area(area)),
        None => None,
    }
}

fn obstacle_in(
    alloc: Global,
    schema: &Schema,
    image: &Image,
    unit: &Unit,
    statement: &Statement,
    cause: Cause,
) -> Result<Option<Obstacle>, AllocError>
    ensures { IfOk result (λ o. o ≡ obstacle_in schema.now image.now unit.now statement.now cause) }
{
    Ok(match cause {
        Cause::NoCurrentOfRunUnit => Some(Obstacle::RunUnit(unit.number)),
        Cause::OtherRecordType | Cause::NotKept => record_of(unit.currency.run_unit),
        Cause::MandatoryAutomatic | Cause::Mandatory => class_of(unit, statement),
        Cause::AreaAlreadyOpen => area_of(schema, unit, statement, Opening::Open),
        Cause::UpdateModeNeeded => area_of(schema, unit, statement, Opening::NotUpdate),
        Cause::AreaNotOpen => closed_area(schema, unit, statement),
        Cause::NoSuchCurrent => without_current(schema, unit, statement),
        Cause::UsageConflict => conflicting(schema, image, statement),
        Cause::End | Cause::NoneSatisfies => searched(schema, unit, statement),
        Cause::Deleted => deleted_for(schema, image, unit, statement),
        Cause::ChangedByAnother => changed_since(schema, image, unit),
        Cause::PositionLost => lost_for(schema, image, unit, statement),
        Cause::DuplicatesNotAllowed => {
            return duplicate_for(alloc, schema, image, unit, statement);
        }
        Cause::NoRoom => stored_type(statement),
        Cause::AlreadyMember => listed(schema, image, unit, statement),
        Cause::NotMember => unlisted(unit, statement),
        Cause::OwnerHasMembers => owning(schema, image, unit),
    })
}

/// What is in the way of a statement that is refused for this cause, by the unit and the image of the database. A refusal changes neither.
pub fn obstacle_of(
    alloc: Global,
    schema: &Schema,
    image: &Image,
    unit: &Unit,
    statement: &Statement,
    cause: Cause,
) -> Result<Option<Obstacle>, AllocError>
    ensures { IfOk result (λ o. (capacity : ℕ) (db : Database) → Legal schema.now capacity db → image.now ≡ image_of schema.now capacity db → o ≡ obstacle_of schema.now capacity db unit.now statement.now cause) }
{
    obstacle_in(alloc, schema, image, unit, statement, cause)
}
