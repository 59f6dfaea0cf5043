//! FIND: what is found, read from the cells that are held. Nothing here takes memory.
ghost use Rattle.std.specs.Prelude.{◌≡◌, ◌∷◌, [], true, take, None};
ghost use Rattle.dbtg_unit.specs.Database.State.Belongs.{IsWithin};
ghost use Rattle.dbtg_unit.specs.Database.Statements.Checks.{refused_at_once};
ghost use Rattle.dbtg_unit.specs.Database.Statements.Fits.{form_fits};
ghost use Rattle.dbtg_unit.specs.Hands.Locality.{IsMadeOnEach, made_by, seen};
ghost use Rattle.dbtg_unit.specs.Hands.Making.{CanFinish, MayPrepare};
ghost use Rattle.dbtg_unit.specs.Hands.Needs.{cells_to_find, current_owner, first_missing};
ghost use Rattle.dbtg_unit.specs.declared.statement.Statement.TheVariants.{Find};
ghost use Rattle.dbtg_plan.specs.Inside.Finding.{found_in, next_cell_in, owners_in, plan_of_found};

mod area;
mod current;
mod equal;
mod numbered;
mod set;

use crate::joining::current_owner;
use crate::missing::{missing, missing_ring, missing_slot};
use crate::unit_alone::{done_plan, refusal};
use dbtg_cells::{CellName, DbKey, Owners};
use dbtg_schema::{MOST_SETS, Schema};
use dbtg_unit::{
    Answer, Cause, Form, Held, Prepared, Status, Suppress, Unit, UnitEdit, refused, stored,
};
use std::alloc::Global;

// The key that is found, or the cause if none is.
fn found_in(
    schema: &Schema,
    capacity: u16,
    unit: &Unit,
    form: &Form,
    held: &Held,
) -> Result<DbKey, Cause>
    requires fits { form_fits schema.now form.now ≡ true }
    requires within { IsWithin capacity unit.now }
    ensures { result ≡ found_in schema.now unit.now held.now form.now }
{
    match form {
        Form::Key(key) => current::stored_or(held, *key, Cause::NoneSatisfies),
        Form::CurrentOfUnit => current::of_current(held, unit.currency.run_unit),
        Form::CurrentOfType(rtype) => current::of_current(held, current::of_type(unit, *rtype)),
        Form::CurrentOfSet(set) => current::of_current(held, unit.key_in(schema, *set)),
        Form::CurrentOfArea(area) => current::of_current(held, current::of_area(unit, *area)),
        Form::OwnerOf(set) => current::of_current(held, current::owner_key(schema, unit, *set)),
        Form::InSet { which, rtype, set } => {
            set::find_member(schema, unit, held, *which, *rtype, *set)
        }
        Form::Sorted { set, value } => set::find_by_sort_key(schema, unit, held, value.get(), *set),
        Form::InArea { which, rtype, area } => {
            area::find_in_area(schema, capacity, unit, held, *which, *rtype, *area)
        }
        Form::Calc { rtype, values } => equal::find_calc(held, *rtype, values.get().as_slice()),
        Form::NextDuplicate(rtype) => equal::find_duplicate(unit, held, *rtype),
    }
}

// The first cell that is not held, among those by which the record is found.
fn missing_to_find(schema: &Schema, unit: &Unit, form: &Form, held: &Held) -> Option<CellName>
    requires { form_fits schema.now form.now ≡ true }
    ensures { result ≡ first_missing held.now (cells_to_find schema.now unit.now form.now) }
{
    match form {
        Form::Key(key) => missing_slot(held, Some(*key)),
        Form::CurrentOfUnit => missing_slot(held, unit.currency.run_unit),
        Form::CurrentOfType(rtype) => missing_slot(held, current::of_type(unit, *rtype)),
        Form::CurrentOfSet(set) => missing_slot(held, unit.key_in(schema, *set)),
        Form::CurrentOfArea(area) => missing_slot(held, current::of_area(unit, *area)),
        Form::OwnerOf(set) => missing_slot(held, current::owner_key(schema, unit, *set)),
        Form::InSet { set, .. } | Form::Sorted { set, .. } => {
            missing_ring(held, *set, current_owner(schema, unit, *set))
        }
        Form::InArea { rtype, area, .. } => area::missing_extent(schema, held, *rtype, *area),
        Form::Calc { rtype, .. } | Form::NextDuplicate(rtype) => {
            missing(held, CellName::Extent(*rtype))
        }
    }
}

/// The first cell of a FIND that is not held: among those by which the record is found, and then the slot of what is found.
pub(crate) fn next_cell_of_find(
    schema: &Schema,
    capacity: u16,
    unit: &Unit,
    form: &Form,
    held: &Held,
) -> Option<CellName>
    requires fits { form_fits schema.now form.now ≡ true }
    requires within { IsWithin capacity unit.now }
    ensures { result ≡ next_cell_in schema.now unit.now held.now form.now }
{
    match missing_to_find(schema, unit, form, held) {
        Some(name) => Some(name),
        None => match found_in(schema, capacity, unit, form, held) {
            Ok(key) => missing_slot(held, Some(key)),
            Err(_cause) => None,
        },
    }
}

// The owners of a record that is held, by set.
fn owners_of(held: &Held, key: &DbKey) -> Owners
    ensures { result ≡ take MOST_SETS (owners_in held.now key.now) }
{
    match stored(held, key) {
        Some(stored) => stored.owners.all(),
        None => Owners::none(0),
    }
}

// What is done with what is found.
fn plan_of_found(
    alloc: Global,
    held: &Held,
    suppress: &Suppress,
    found: Result<DbKey, Cause>,
) -> Prepared
    ensures { result ≡ plan_of_found held.now suppress.now found }
{
    match found {
        Ok(key) => {
            let change = UnitEdit::See {
                key,
                owners: owners_of(held, &key),
                suppress: *suppress,
            };
            done_plan(alloc, change, Some(key), None)
        }
        Err(cause) => refused(alloc, cause),
    }
}

/// What a FIND does once it needs nothing more.
pub(crate) fn prepare_find(
    alloc: Global,
    schema: &Schema,
    capacity: u16,
    unit: &Unit,
    form: &Form,
    suppress: &Suppress,
    held: &Held,
) -> Prepared
    requires may { MayPrepare schema.now capacity unit.now held.now (Find suppress.now form.now) }
    requires passes { refused_at_once schema.now capacity unit.now (Find suppress.now form.now) ≡ None }
    ensures { CanFinish schema.now capacity unit.now held.now (Find suppress.now form.now) result }
{
    let found = found_in(schema, capacity, unit, form, held);
    plan_of_found(alloc, held, suppress, found)
}

// Makes what is found current, as the plan of the FIND would.
fn see_found(
    schema: &Schema,
    unit: &mut Unit,
    held: &mut Held,
    suppress: &Suppress,
    found: Result<DbKey, Cause>,
) -> Answer
    ensures { seen result unit.new held.new ≡ made_by schema.now unit.old held.old (plan_of_found held.old suppress.now found) }
{
    match found {
        Ok(key) => {
            held.guess_owners(&key);
            unit.see(schema, key, held.guesses(), suppress);
            Answer {
                status: Status::Done,
                key: Some(key),
                items: None,
            }
        }
        Err(cause) => refusal(cause),
    }
}

/// Makes a FIND that needs nothing more, without a plan.
pub(crate) fn make_find(
    schema: &Schema,
    capacity: u16,
    unit: &mut Unit,
    form: &Form,
    suppress: &Suppress,
    held: &mut Held,
) -> Answer
    requires may { MayPrepare schema.now capacity unit.old held.old (Find suppress.now form.now) }
    requires passes { refused_at_once schema.now capacity unit.old (Find suppress.now form.now) ≡ None }
    ensures { IsMadeOnEach schema.now capacity unit.old held.old (Find suppress.now form.now) (seen result unit.new held.new) }
{
    let found = found_in(schema, capacity, unit, form, held);
    see_found(schema, unit, held, suppress, found)
}
