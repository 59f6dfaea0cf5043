//! The checks of a statement that need only the schema and the unit, and no cell. Nothing here takes memory.
ghost use Rattle.std.specs.Prelude.{◌≡◌, ℕ, ◌&&◌, not, is_none, option_map, take, drop};
ghost use Rattle.std.specs.List.{list_any};
ghost use Rattle.dbtg_schema.specs.Lookups.{first_cause, some_and};
ghost use Rattle.dbtg_schema.specs.Structure.{automatic_sets};
ghost use Rattle.dbtg_unit.specs.Database.Statements.Checks.{accepts_type, changes_records, checks_at_once, class_in, current_type, find_lacks_current, frees_what_is_not_kept, is_beyond, is_inserting_mandatory_automatic, is_open_statement, is_opening_again, is_removing_mandatory, lacks_current, needs_current, refused_at_once};
ghost use Rattle.dbtg_unit.specs.Database.Statements.Found.{needs_position};
ghost use Rattle.dbtg_unit.specs.Database.State.Units.{place_in};
ghost use Rattle.dbtg_unit.specs.declared.statement.Statement.TheVariants.{Find};
ghost use Rattle.dbtg_unit.specs.declared.statement.Suppress.{Suppress};

use crate::areas::{Question, ask_of_areas, ask_of_find};
use crate::entries::entry_at;
use crate::statement::{Form, Statement, Which};
use crate::unit::{Cause, Unit};
use dbtg_schema::{Class, RecordNo, Schema, SetNo};

fn needs_current(statement: &Statement) -> bool
    ensures { result ≡ needs_current statement.now }
{
    match statement {
        Statement::Find(_, Form::CurrentOfUnit) => true,
        Statement::Get(_)
        | Statement::Insert(_)
        | Statement::Remove(_)
        | Statement::Modify { .. }
        | Statement::Delete(_)
        | Statement::Keep => true,
        Statement::Free { all } => !*all,
        _ => false,
    }
}

fn accepts_type(schema: &Schema, statement: &Statement, rtype: RecordNo) -> bool
    ensures { result ≡ accepts_type schema.now statement.now rtype }
{
    match *statement {
        Statement::Get(Some(named)) | Statement::Modify { rtype: named, .. } => {
            rtype.index() == named.index()
        }
        Statement::Insert(set) | Statement::Remove(set) => {
            schema.member_clause(set, rtype).is_some()
        }
        _ => true,
    }
}

fn is_of_other_type(schema: &Schema, unit: &Unit, statement: &Statement) -> bool
    ensures { result ≡ some_and (λ t. not (accepts_type schema.now statement.now t)) (current_type unit.now) }
{
    match unit.currency.run_unit {
        Some(key) => !accepts_type(schema, statement, key.rtype),
        None => false,
    }
}

fn class_in(schema: &Schema, unit: &Unit, set: SetNo) -> Option<Class>
    ensures { result ≡ class_in schema.now unit.now set }
{
    match unit.currency.run_unit {
        Some(key) => {
            match schema.member_clause(set, key.rtype) {
                Some(member) => Some(member.class),
                None => None,
            }
        }
        None => None,
    }
}

fn is_inserting_mandatory_automatic(schema: &Schema, unit: &Unit, statement: &Statement) -> bool
    ensures { result ≡ is_inserting_mandatory_automatic schema.now unit.now statement.now }
{
    match statement {
        Statement::Insert(set) => {
            match class_in(schema, unit, *set) {
                Some(class) => class.is_mandatory() & class.is_automatic(),
                None => false,
            }
        }
        _ => false,
    }
}

fn is_removing_mandatory(schema: &Schema, unit: &Unit, statement: &Statement) -> bool
    ensures { result ≡ is_removing_mandatory schema.now unit.now statement.now }
{
    match statement {
        Statement::Remove(set) => {
            match class_in(schema, unit, *set) {
                Some(class) => class.is_mandatory(),
                None => false,
            }
        }
        _ => false,
    }
}

fn is_opening_again(unit: &Unit, statement: &Statement) -> bool
    ensures { result ≡ is_opening_again unit.now statement.now }
{
    match statement {
        Statement::OpenArea { area, .. } => {
            entry_at(unit.modes.as_slice(), area.index() as usize).is_some()
        }
        _ => false,
    }
}

fn needs_position(which: Which) -> bool
    ensures { result ≡ needs_position which }
{
    matches!(which, Which::Next | Which::Prior)
}

fn find_lacks_current(schema: &Schema, unit: &Unit, form: &Form) -> bool
    ensures { result ≡ find_lacks_current schema.now unit.now form.now }
{
    match *form {
        Form::CurrentOfType(rtype) | Form::NextDuplicate(rtype) => {
            entry_at(unit.currency.types.as_slice(), rtype.index() as usize).is_none()
        }
        Form::CurrentOfSet(set) => unit.key_in(schema, set).is_none(),
        Form::CurrentOfArea(area) => {
            entry_at(unit.currency.areas.as_slice(), area.index() as usize).is_none()
        }
        Form::InArea { which, area, .. } => {
            needs_position(which)
                & entry_at(unit.currency.areas.as_slice(), area.index() as usize).is_none()
        }
        Form::InSet { set, .. } | Form::OwnerOf(set) | Form::Sorted { set, .. } => {
            has_null(schema, unit, set)
        }
        Form::Key(_) | Form::CurrentOfUnit | Form::Calc { .. } => false,
    }
}

fn has_null(schema: &Schema, unit: &Unit, set: SetNo) -> bool
    ensures { result ≡ is_none (place_in schema.now unit.now set) }
{
    unit.place_in(schema, set).is_none()
}

// Is there a set with a null current in which STORE would connect a record of this type?
fn store_wants_null(schema: &Schema, unit: &Unit, rtype: RecordNo) -> bool
    ensures { result ≡ list_any (λ s. is_none (place_in schema.now unit.now s)) (automatic_sets schema.now rtype) }
{
    for set in schema.automatic_sets(rtype) {
        if has_null(schema, unit, *set) {
            return true;
        }
    }
    false
}

fn lacks_current(schema: &Schema, unit: &Unit, statement: &Statement) -> bool
    ensures { result ≡ lacks_current schema.now unit.now statement.now }
{
    match *statement {
        Statement::Find(_, ref form) => find_lacks_current(schema, unit, form),
        Statement::Store { rtype, .. } => store_wants_null(schema, unit, rtype),
        Statement::Insert(set) => has_null(schema, unit, set),
        _ => false,
    }
}

fn is_open_statement(statement: &Statement) -> bool
    ensures { result ≡ is_open_statement statement.now }
{
    matches!(statement, Statement::OpenArea { .. })
}

fn changes_records(statement: &Statement) -> bool
    ensures { result ≡ changes_records statement.now }
{
    matches!(
        statement,
        Statement::Store { .. }
            | Statement::Insert(_)
            | Statement::Remove(_)
            | Statement::Modify { .. }
            | Statement::Delete(_)
    )
}

fn form_is_beyond(capacity: u16, form: &Form) -> bool
    ensures { (suppress : Suppress) → result ≡ is_beyond capacity (Find suppress form.now) }
{
    match form {
        Form::Key(key) => (capacity as u32) < key.number,
        _ => false,
    }
}

fn is_beyond(capacity: u16, statement: &Statement) -> bool
    ensures { result ≡ is_beyond capacity statement.now }
{
    match statement {
        Statement::Find(_, form) => form_is_beyond(capacity, form),
        _ => false,
    }
}

fn frees_what_is_not_kept(unit: &Unit, statement: &Statement) -> bool
    ensures { result ≡ frees_what_is_not_kept unit.now statement.now }
{
    match statement {
        Statement::Free { all: false } => {
            match unit.currency.run_unit {
                Some(key) => unit.kept_version(key).is_none(),
                None => true,
            }
        }
        _ => false,
    }
}

// Is the FIND that of a null current of run-unit?
fn wants_null(unit: &Unit, form: &Form) -> bool
    ensures { (suppress : Suppress) → result ≡ (needs_current (Find suppress form.now) && is_none unit.now.currency.run_unit) }
{
    match form {
        Form::CurrentOfUnit => unit.currency.run_unit.is_none(),
        _ => false,
    }
}

// The cause of a FIND: only these can apply to it.
#[tactic(auto, using(crate::proofs::Database::FindChecks::find_refused))]
fn find_refused_at_once(schema: &Schema, capacity: u16, unit: &Unit, form: &Form) -> Option<Cause>
    ensures { (suppress : Suppress) → result ≡ refused_at_once schema.now capacity unit.now (Find suppress form.now) }
{
    if wants_null(unit, form) {
        return Some(Cause::NoCurrentOfRunUnit);
    }
    if find_lacks_current(schema, unit, form) {
        return Some(Cause::NoSuchCurrent);
    }
    if ask_of_find(schema, unit, &Question::NotOpen, form) {
        return Some(Cause::AreaNotOpen);
    }
    if form_is_beyond(capacity, form) {
        return Some(Cause::NoneSatisfies);
    }
    None
}

// The first cause that has to do with the current of run-unit or with modes alone.
fn refused_by_current(schema: &Schema, unit: &Unit, statement: &Statement) -> Option<Cause>
    ensures { (capacity : ℕ) → result ≡ first_cause (take 5 (checks_at_once schema.now capacity unit.now statement.now)) }
{
    if needs_current(statement) & unit.currency.run_unit.is_none() {
        return Some(Cause::NoCurrentOfRunUnit);
    }
    if is_of_other_type(schema, unit, statement) {
        return Some(Cause::OtherRecordType);
    }
    if is_inserting_mandatory_automatic(schema, unit, statement) {
        return Some(Cause::MandatoryAutomatic);
    }
    if is_removing_mandatory(schema, unit, statement) {
        return Some(Cause::Mandatory);
    }
    if is_opening_again(unit, statement) {
        return Some(Cause::AreaAlreadyOpen);
    }
    None
}

// The first cause that has to do with currents of sets, areas, or what the unit keeps.
fn refused_by_areas(
    schema: &Schema,
    capacity: u16,
    unit: &Unit,
    statement: &Statement,
) -> Option<Cause>
    ensures { result ≡ first_cause (drop 5 (checks_at_once schema.now capacity unit.now statement.now)) }
{
    if lacks_current(schema, unit, statement) {
        return Some(Cause::NoSuchCurrent);
    }
    if !is_open_statement(statement) && ask_of_areas(schema, unit, &Question::NotOpen, statement) {
        return Some(Cause::AreaNotOpen);
    }
    if changes_records(statement) && ask_of_areas(schema, unit, &Question::NotUpdate, statement) {
        return Some(Cause::UpdateModeNeeded);
    }
    if is_beyond(capacity, statement) {
        return Some(Cause::NoneSatisfies);
    }
    if frees_what_is_not_kept(unit, statement) {
        return Some(Cause::NotKept);
    }
    None
}

/// The cause for which a statement is refused without looking at cells: the first that applies; none if cells decide.
pub fn refused_at_once(
    schema: &Schema,
    capacity: u16,
    unit: &Unit,
    statement: &Statement,
) -> Option<Cause>
    ensures { result ≡ refused_at_once schema.now capacity unit.now statement.now }
{
    if let Statement::Find(_suppress, form) = statement {
        return find_refused_at_once(schema, capacity, unit, form);
    }
    match refused_by_current(schema, unit, statement) {
        Some(cause) => Some(cause),
        None => refused_by_areas(schema, capacity, unit, statement),
    }
}
