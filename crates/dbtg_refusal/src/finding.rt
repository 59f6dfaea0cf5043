//! What is in the way of a FIND, and the currents that a statement wants. No image is looked into.
ghost use Rattle.std.specs.Prelude.{◌≡◌, is_none, option_map};
ghost use Rattle.std.specs.List.{find};
ghost use Rattle.dbtg_schema.specs.Structure.{automatic_sets};
ghost use Rattle.dbtg_unit.specs.Database.State.Units.{place_in};
ghost use Rattle.dbtg_unit.specs.Database.Statements.Conditions.{current_type, joined_place};
ghost use Rattle.dbtg_unit.specs.declared.statement.Statement.TheVariants.{Find};
ghost use Rattle.dbtg_unit.specs.declared.statement.Suppress.{Suppress};
ghost use Rattle.dbtg_refusal.specs.declared.obstacle.Obstacle.TheVariants as obstacle;
ghost use Rattle.dbtg_refusal.specs.Obstacles.{class_of, current_for, searched, start_of, stored_type, unlisted, without_current};

use crate::obstacle::Obstacle;
use dbtg_cells::DbKey;
use dbtg_schema::{RecordNo, Schema, SetNo};
use dbtg_unit::{Form, Statement, Unit, entry_at};

/// A record, if there is one.
pub(crate) fn record_of(key: Option<DbKey>) -> Option<Obstacle>
    ensures { result ≡ option_map obstacle.Record key }
{
    match key {
        Some(key) => Some(Obstacle::Record(key)),
        None => None,
    }
}

fn class_in(unit: &Unit, set: SetNo) -> Option<Obstacle>
    ensures { result ≡ option_map (λ t. obstacle.Class t set) (current_type unit.now) }
{
    match unit.currency.run_unit {
        Some(key) => {
            Some(Obstacle::Class {
                rtype: key.rtype,
                set,
            })
        }
        None => None,
    }
}

/// The type of the current of run-unit in the set of an INSERT or REMOVE.
pub(crate) fn class_of(unit: &Unit, statement: &Statement) -> Option<Obstacle>
    ensures { result ≡ class_of unit.now statement.now }
{
    match statement {
        Statement::Insert(set) | Statement::Remove(set) => class_in(unit, *set),
        _ => None,
    }
}

fn current_for(form: &Form) -> Option<Obstacle>
    ensures { result ≡ current_for form.now }
{
    match form {
        Form::CurrentOfType(rtype) | Form::NextDuplicate(rtype) => {
            Some(Obstacle::RecordType(*rtype))
        }
        Form::CurrentOfSet(set) | Form::OwnerOf(set) => Some(Obstacle::Set(*set)),
        Form::InSet { set, .. } | Form::Sorted { set, .. } => Some(Obstacle::Set(*set)),
        Form::CurrentOfArea(area) | Form::InArea { area, .. } => Some(Obstacle::Area(*area)),
        Form::Key(_) | Form::CurrentOfUnit | Form::Calc { .. } => None,
    }
}

// The first set with no current in which STORE would connect a record of this type.
fn null_set(schema: &Schema, unit: &Unit, rtype: RecordNo) -> Option<SetNo>
    ensures { result ≡ find (λ s. is_none (place_in schema.now unit.now s)) (automatic_sets schema.now rtype) }
{
    for set in schema.automatic_sets(rtype) {
        if unit.place_in(schema, *set).is_none() {
            return Some(*set);
        }
    }
    None
}

fn set_of(set: Option<SetNo>) -> Option<Obstacle>
    ensures { result ≡ option_map obstacle.Set set }
{
    match set {
        Some(set) => Some(Obstacle::Set(set)),
        None => None,
    }
}

/// The thing without a current that a statement wants.
pub(crate) fn without_current(
    schema: &Schema,
    unit: &Unit,
    statement: &Statement,
) -> Option<Obstacle>
    ensures { result ≡ without_current schema.now unit.now statement.now }
{
    match statement {
        Statement::Find(_, form) => current_for(form),
        Statement::Store { rtype, .. } => set_of(null_set(schema, unit, *rtype)),
        Statement::Insert(set) => Some(Obstacle::Set(*set)),
        _ => None,
    }
}

/// The current occurrence of a set.
pub(crate) fn current_occurrence(schema: &Schema, unit: &Unit, set: SetNo) -> Obstacle
    ensures { result ≡ obstacle.Occurrence set (joined_place schema.now unit.now set).owner }
{
    Obstacle::Occurrence {
        set,
        owner: unit.joined_place(schema, set).owner,
    }
}

/// The record or the occurrence from which a FIND starts.
pub(crate) fn start_of(schema: &Schema, unit: &Unit, form: &Form) -> Option<Obstacle>
    ensures { result ≡ start_of schema.now unit.now form.now }
{
    match form {
        Form::CurrentOfUnit => record_of(unit.currency.run_unit),
        Form::CurrentOfType(rtype) | Form::NextDuplicate(rtype) => {
            let types = unit.currency.types.as_slice();
            record_of(entry_at(types, rtype.index() as usize))
        }
        Form::CurrentOfSet(set) => record_of(unit.key_in(schema, *set)),
        Form::CurrentOfArea(area) => {
            let areas = unit.currency.areas.as_slice();
            record_of(entry_at(areas, area.index() as usize))
        }
        Form::InSet { set, .. } | Form::OwnerOf(set) | Form::Sorted { set, .. } => {
            Some(current_occurrence(schema, unit, *set))
        }
        Form::Key(_) | Form::InArea { .. } | Form::Calc { .. } => None,
    }
}

fn searched_by(schema: &Schema, unit: &Unit, form: &Form) -> Option<Obstacle>
    ensures { (suppress : Suppress) → result ≡ searched schema.now unit.now (Find suppress form.now) }
{
    match form {
        Form::Key(key) => Some(Obstacle::Record(*key)),
        Form::InSet { set, .. } | Form::Sorted { set, .. } => {
            Some(current_occurrence(schema, unit, *set))
        }
        Form::InArea { area, .. } => Some(Obstacle::Area(*area)),
        Form::Calc { rtype, .. } | Form::NextDuplicate(rtype) => {
            Some(Obstacle::RecordType(*rtype))
        }
        _ => None,
    }
}

/// Where a FIND looks in vain.
pub(crate) fn searched(schema: &Schema, unit: &Unit, statement: &Statement) -> Option<Obstacle>
    ensures { result ≡ searched schema.now unit.now statement.now }
{
    match statement {
        Statement::Find(_, form) => searched_by(schema, unit, form),
        _ => None,
    }
}

/// The record type of a STORE.
pub(crate) fn stored_type(statement: &Statement) -> Option<Obstacle>
    ensures { result ≡ stored_type statement.now }
{
    match statement {
        Statement::Store { rtype, .. } => Some(Obstacle::RecordType(*rtype)),
        _ => None,
    }
}

/// The set of a REMOVE, in which the current of run-unit is in no list.
pub(crate) fn unlisted(unit: &Unit, statement: &Statement) -> Option<Obstacle>
    ensures { result ≡ unlisted unit.now statement.now }
{
    match statement {
        Statement::Remove(set) => {
            Some(Obstacle::Outside {
                set: *set,
                key: unit.currency.run_unit?,
            })
        }
        _ => None,
    }
}
