//! The areas of a statement: whether one of them has a property, and the first that a unit does not hold. Nothing
//! here takes memory, since the areas are asked one by one.
ghost use Rattle.std.specs.Prelude.{◌≡◌, ◌&&◌, List, [], ◌∷◌, length, map, option_map, unwrap_or};
ghost use Rattle.std.specs.List.{list_any, range_with_len};
ghost use Rattle.dbtg_schema.specs.Erasing.{marked};
ghost use Rattle.dbtg_schema.specs.Lookups.{some_and};
ghost use Rattle.dbtg_schema.specs.Structure.{area_of, automatic_sets, erase_areas, home, is_automatic, member_clause, rekeyed_sets, set_member_types, set_numbers};
ghost use Rattle.dbtg_unit.specs.Inside.Areas.{asks};
ghost use Rattle.dbtg_unit.specs.Database.Statements.Checks.{area_of_current, areas_of, find_areas, is_update};

use crate::changes::is_rekeyed_in;
use crate::counts::{area_count, set_count};
use crate::entries::entry_at;
use crate::statement::{Change, Form, Statement};
use crate::unit::Unit;
use dbtg_cells::DbKey;
use dbtg_schema::{AreaNo, AreaSet, ItemNo, Member, RecordNo, Schema, SetNo};

/// The question about an area.
#[derive(Clone, Copy)]
pub enum Question {
    /// Does the unit not have it open?
    NotOpen,
    /// Does the unit not have it open in a mode for updates?
    NotUpdate,
    /// Is it this one?
    Is(AreaNo),
}

fn asks(unit: &Unit, question: &Question, area: AreaNo) -> bool
    ensures { result ≡ asks unit.now.modes question.now area }
{
    match *question {
        Question::NotOpen => entry_at(unit.modes.as_slice(), area.index() as usize).is_none(),
        Question::NotUpdate => {
            match entry_at(unit.modes.as_slice(), area.index() as usize) {
                Some(mode) => !mode.is_update(),
                None => true,
            }
        }
        Question::Is(other) => area.index() == other.index(),
    }
}

fn ask_of_key(schema: &Schema, unit: &Unit, question: &Question, key: Option<DbKey>) -> bool
    ensures { result ≡ list_any (asks unit.now.modes question.now) (area_of_current schema.now key) }
{
    match key {
        Some(key) => asks(unit, question, schema.area_of(key.rtype)),
        None => false,
    }
}

/// Does STORE connect a record of this type in the set?
pub fn is_automatic_in(schema: &Schema, set: SetNo, rtype: RecordNo) -> bool
    ensures { result ≡ some_and (λ m. is_automatic m.class) (member_clause schema.now set rtype) }
{
    schema.connects(set, rtype)
}

// About the home areas of the sets in which STORE connects a record of this type.
fn ask_of_automatic(schema: &Schema, unit: &Unit, question: &Question, rtype: RecordNo) -> bool
    ensures { result ≡ list_any (asks unit.now.modes question.now) (map (home schema.now) (automatic_sets schema.now rtype)) }
{
    for set in schema.automatic_sets(rtype) {
        if asks(unit, question, schema.home(*set)) {
            return true;
        }
    }
    false
}

// About the home areas of the sets in which a MODIFY with these changes moves a record of this type.
#[tactic(auto, using(dbtg_schema::proofs::Public::numbers_next, dbtg_schema::proofs::Public::numbers_end))]
fn ask_of_rekeyed(
    schema: &Schema,
    unit: &Unit,
    question: &Question,
    rtype: RecordNo,
    changes: &[Change],
) -> bool
    ensures { result ≡ list_any (asks unit.now.modes question.now) (map (home schema.now) (rekeyed_sets schema.now rtype (map (λ c. c.item) changes.now))) }
{
    for s in 0..set_count(schema) {
        let set = SetNo::new(s);
        if is_rekeyed_in(schema, set, rtype, changes) && asks(unit, question, schema.home(set)) {
            return true;
        }
    }
    false
}

// About the areas of the record types of these member clauses.
fn ask_of_clauses(schema: &Schema, unit: &Unit, question: &Question, clauses: &[Member]) -> bool
    ensures { result ≡ list_any (λ m. asks unit.now.modes question.now (area_of schema.now m.rtype)) clauses.now }
{
    for clause in clauses {
        if asks(unit, question, schema.area_of(clause.rtype)) {
            return true;
        }
    }
    false
}

// About the areas of the set's member types.
fn ask_of_members(schema: &Schema, unit: &Unit, question: &Question, set: SetNo) -> bool
    ensures { result ≡ list_any (asks unit.now.modes question.now) (map (area_of schema.now) (set_member_types schema.now set)) }
{
    schema.is_well_formed();
    match schema.set_type(set) {
        Some(it) => ask_of_clauses(schema, unit, question, it.members.as_slice()),
        None => false,
    }
}

// About the area of this record type, or of all the set's member types if none is named.
fn ask_of_named(
    schema: &Schema,
    unit: &Unit,
    question: &Question,
    set: SetNo,
    rtype: Option<RecordNo>,
) -> bool
    ensures { result ≡ list_any (asks unit.now.modes question.now) (map (area_of schema.now) (unwrap_or (option_map (λ t. t ∷ []) rtype) (set_member_types schema.now set))) }
{
    match rtype {
        Some(rtype) => asks(unit, question, schema.area_of(rtype)),
        None => ask_of_members(schema, unit, question, set),
    }
}

/// About the areas of a FIND.
pub(crate) fn ask_of_find(schema: &Schema, unit: &Unit, question: &Question, form: &Form) -> bool
    ensures { result ≡ list_any (asks unit.now.modes question.now) (find_areas schema.now unit.now form.now) }
{
    match *form {
        Form::CurrentOfUnit => ask_of_key(schema, unit, question, unit.currency.run_unit),
        Form::CurrentOfSet(set) => ask_of_key(schema, unit, question, unit.key_in(schema, set)),
        Form::CurrentOfArea(area) => {
            let current = entry_at(unit.currency.areas.as_slice(), area.index() as usize);
            ask_of_key(schema, unit, question, current)
        }
        Form::InSet { rtype, set, .. } => {
            asks(unit, question, schema.home(set))
                || ask_of_named(schema, unit, question, set, rtype)
        }
        Form::InArea { area, .. } => asks(unit, question, area),
        Form::OwnerOf(set) => asks(unit, question, schema.home(set)),
        Form::Key(DbKey { rtype, .. })
        | Form::CurrentOfType(rtype)
        | Form::NextDuplicate(rtype)
        | Form::Calc { rtype, .. } => asks(unit, question, schema.area_of(rtype)),
        Form::Sorted { set, .. } => {
            asks(unit, question, schema.home(set)) || ask_of_members(schema, unit, question, set)
        }
    }
}

// About the areas in the set.
#[tactic(auto, using(dbtg_schema::proofs::Public::numbers_next, dbtg_schema::proofs::Public::numbers_end))]
fn ask_of_marked(schema: &Schema, unit: &Unit, question: &Question, areas: &AreaSet) -> bool
    ensures { result ≡ list_any (λ a. marked areas.now a && asks unit.now.modes question.now a) (range_with_len 0 (length schema.now.areas)) }
{
    for a in 0..area_count(schema) {
        let area = AreaNo::new(a);
        if areas.contains(area) && asks(unit, question, area) {
            return true;
        }
    }
    false
}

// About the areas of a DELETE of a record of this type.
fn ask_of_erased(schema: &Schema, unit: &Unit, question: &Question, rtype: RecordNo) -> bool
    ensures { result ≡ list_any (asks unit.now.modes question.now) (erase_areas schema.now rtype) }
{
    schema.is_well_formed();
    ask_of_marked(schema, unit, question, &schema.erase_areas(rtype))
}

/// Is the answer yes for one of the areas of a statement?
pub(crate) fn ask_of_areas(
    schema: &Schema,
    unit: &Unit,
    question: &Question,
    statement: &Statement,
) -> bool
    ensures { result ≡ list_any (asks unit.now.modes question.now) (areas_of schema.now unit.now statement.now) }
{
    match *statement {
        Statement::OpenArea { area, .. } | Statement::CloseArea(area) => asks(unit, question, area),
        Statement::Find(_, ref form) => ask_of_find(schema, unit, question, form),
        Statement::Store { rtype, .. } => {
            asks(unit, question, schema.area_of(rtype))
                || ask_of_automatic(schema, unit, question, rtype)
        }
        Statement::Insert(set) | Statement::Remove(set) => {
            asks(unit, question, schema.home(set))
                || ask_of_key(schema, unit, question, unit.currency.run_unit)
        }
        Statement::Modify { rtype, ref changes } => {
            asks(unit, question, schema.area_of(rtype))
                || ask_of_rekeyed(schema, unit, question, rtype, changes.get().as_slice())
        }
        Statement::Delete(_) => {
            match unit.currency.run_unit {
                Some(key) => ask_of_erased(schema, unit, question, key.rtype),
                None => false,
            }
        }
        Statement::Get(_) | Statement::Keep => {
            ask_of_key(schema, unit, question, unit.currency.run_unit)
        }
        Statement::Free { .. } => false,
    }
}
