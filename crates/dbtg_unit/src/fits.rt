//! Whether a statement fits a schema: its numbers are in range, and its values have their items' pictures. It takes no memory.
ghost use Rattle.std.specs.Prelude.{◌≡◌, ◌&&◌, ◌==◌, not, length, map, nat_lt, nat_le, unwrap_or, is_some};
ghost use Rattle.std.specs.List.{list_all, list_any};
ghost use Rattle.dbtg_schema.specs.Lookups.{some_and};
ghost use Rattle.dbtg_schema.specs.Structure.{area_of, calc_of, member_clause, picture_of, pictures};
ghost use Rattle.dbtg_unit.specs.Database.Statements.Fits.{change_fits, member_key_fits, pictures_at, if_named, distinct_items, fits, form_fits, is_area, is_set, is_text_byte, is_type, key_fits, suppress_fits, value_fits, values_fit, which_fits};

use crate::changes::names_item;
use crate::statement::{Change, Form, Statement, Suppress, Which};
use dbtg_cells::{DbKey, Value};
use dbtg_schema::{
    AreaNo, Calc, Item, ItemNo, MOST_SETS, Member, Picture, RecordNo, Schema, SetNo,
};

fn is_text(bytes: &[u8]) -> bool
    ensures { result ≡ list_all is_text_byte bytes.now }
{
    for byte in bytes {
        if *byte < 32 || 126 < *byte || *byte == 34 {
            return false;
        }
    }
    true
}

// Does a number have at most this many decimal digits?
fn is_number_of(value: u64, digits: u8) -> bool
    ensures { result ≡ value_fits (Picture.Number digits) (Value.Num value) }
{
    match 10u64.checked_pow(digits as u32) {
        Some(limit) => value < limit,
        None => true,
    }
}

fn value_fits(value: &Value, picture: Picture) -> bool
    ensures { result ≡ value_fits picture value.now }
{
    match picture {
        Picture::Number(digits) => {
            match value {
                Value::Num(number) => is_number_of(*number, digits),
                Value::Text(_) => false,
            }
        }
        Picture::Text(count) => {
            match value {
                Value::Text(bytes) => bytes.len() == count as usize && is_text(bytes.as_slice()),
                Value::Num(_) => false,
            }
        }
    }
}

// Are there as many values as items, each with its item's picture?
#[tactic(auto, using(crate::proofs::Lists::SideBySide::drop_some, crate::proofs::Lists::SideBySide::drop_none))]
fn are_of_items(values: &[Value], items: &[Item]) -> bool
    ensures { result ≡ values_fit (map (λ i. i.picture) items.now) values.now }
{
    for (i, value) in values.iter().enumerate() {
        match items.get(i) {
            Some(item) => {
                if !value_fits(value, item.picture) {
                    return false;
                }
            }
            None => return false,
        }
    }
    items.get(values.len()).is_none()
}

// The picture of an item; 9(0) if there is none.
fn picture_or_none(schema: &Schema, rtype: RecordNo, item: ItemNo) -> Picture
    ensures { result ≡ unwrap_or (picture_of schema.now rtype item) (Picture.Number 0) }
{
    match schema.picture_of(rtype, item) {
        Some(picture) => picture,
        None => Picture::Number(0),
    }
}

// Are there as many values as these items of a record type, each with its item's picture?
#[tactic(auto, using(crate::proofs::Lists::SideBySide::drop_some, crate::proofs::Lists::SideBySide::drop_none))]
fn are_of_numbers(schema: &Schema, rtype: RecordNo, items: &[ItemNo], values: &[Value]) -> bool
    ensures { result ≡ values_fit (pictures_at schema.now rtype items.now) values.now }
{
    for (i, value) in values.iter().enumerate() {
        match items.get(i) {
            Some(item) => {
                if !value_fits(value, picture_or_none(schema, rtype, *item)) {
                    return false;
                }
            }
            None => return false,
        }
    }
    items.get(values.len()).is_none()
}

fn which_fits(which: Which) -> bool
    ensures { result ≡ which_fits which }
{
    match which {
        Which::Nth(n) => n != 0 && -999_999 <= n && n <= 999_999,
        _ => true,
    }
}

fn distinct_items(changes: &[Change]) -> bool
    ensures { result ≡ distinct_items changes.now }
{
    for (i, change) in changes.iter().enumerate() {
        if names_item(&changes[i + 1..], change.item) {
            return false;
        }
    }
    true
}

fn is_type(schema: &Schema, rtype: RecordNo) -> bool
    ensures { result ≡ is_type schema.now rtype }
{
    (rtype.index() as usize) < schema.types().len()
}

fn is_set(schema: &Schema, set: SetNo) -> bool
    ensures { result ≡ is_set schema.now set }
{
    (set.index() as usize) < schema.sets().len()
}

fn is_area(schema: &Schema, area: AreaNo) -> bool
    ensures { result ≡ is_area schema.now area }
{
    (area.index() as usize) < schema.areas().len()
}

// Does the value have the picture of this member's key item?
fn member_key_fits(schema: &Schema, member: &Member, value: &Value) -> bool
    ensures { result ≡ member_key_fits schema.now value.now member.now }
{
    match member.key {
        Some(item) => {
            match schema.picture_of(member.rtype, item) {
                Some(picture) => value_fits(value, picture),
                None => false,
            }
        }
        None => false,
    }
}

fn is_of_keys(schema: &Schema, members: &[Member], value: &Value) -> bool
    ensures { result ≡ list_all (member_key_fits schema.now value.now) members.now }
{
    for member in members {
        if !member_key_fits(schema, member, value) {
            return false;
        }
    }
    true
}

// Does the value have the picture of the set's keys?
fn key_fits(schema: &Schema, set: SetNo, value: &Value) -> bool
    ensures { result ≡ key_fits schema.now set value.now }
{
    match schema.set_type(set) {
        Some(set) => is_of_keys(schema, set.members.as_slice(), value),
        None => false,
    }
}

fn change_fits(schema: &Schema, rtype: RecordNo, change: &Change) -> bool
    ensures { result ≡ change_fits schema.now rtype change.now }
{
    match schema.picture_of(rtype, change.item) {
        Some(picture) => value_fits(&change.value, picture),
        None => false,
    }
}

fn are_changes_of(schema: &Schema, rtype: RecordNo, changes: &[Change]) -> bool
    ensures { result ≡ list_all (change_fits schema.now rtype) changes.now }
{
    for change in changes {
        if !change_fits(schema, rtype, change) {
            return false;
        }
    }
    true
}

fn is_key_of(schema: &Schema, key: &DbKey) -> bool
    ensures { result ≡ form_fits schema.now (Form.Key key.now) }
{
    is_type(schema, key.rtype) & (0 < key.number) & (key.number <= 999_999) & (0 < key.generation)
}

// Do these bits stand for sets of the schema alone?
fn suppress_fits(schema: &Schema, suppress: &Suppress) -> bool
    ensures { result ≡ suppress_fits schema.now suppress.now }
{
    let sets = suppress.sets as usize;
    let count = schema.sets().len();
    count >= MOST_SETS || sets < 2usize.pow(count as u32)
}

fn is_member_or_none(schema: &Schema, set: SetNo, rtype: Option<RecordNo>) -> bool
    ensures { result ≡ if_named (λ t. is_some (member_clause schema.now set t)) rtype }
{
    match rtype {
        Some(rtype) => schema.member_clause(set, rtype).is_some(),
        None => true,
    }
}

fn is_in_area_or_none(schema: &Schema, area: AreaNo, rtype: Option<RecordNo>) -> bool
    ensures { result ≡ if_named (λ t. is_type schema.now t && area_of schema.now t == area) rtype }
{
    match rtype {
        Some(rtype) => { is_type(schema, rtype) && schema.area_of(rtype).index() == area.index() }
        None => true,
    }
}

fn are_calc_values(schema: &Schema, rtype: RecordNo, values: &[Value]) -> bool
    ensures { result ≡ some_and (λ calc. values_fit (pictures_at schema.now rtype calc.items) values.now) (calc_of schema.now rtype) }
{
    match schema.calc_of(rtype) {
        Some(calc) => are_of_numbers(schema, rtype, calc.items.as_slice(), values),
        None => false,
    }
}

impl Form {
    /// Does this form fit the schema?
    pub fn fits(&self, schema: &Schema) -> bool
        ensures { result ≡ form_fits schema.now self.now }
    {
        match *self {
            Form::Key(ref key) => is_key_of(schema, key),
            Form::CurrentOfUnit => true,
            Form::CurrentOfType(rtype) => is_type(schema, rtype),
            Form::CurrentOfSet(set) => is_set(schema, set),
            Form::CurrentOfArea(area) => is_area(schema, area),
            Form::InSet { which, rtype, set } => {
                is_set(schema, set) & which_fits(which) & is_member_or_none(schema, set, rtype)
            }
            Form::InArea { which, rtype, area } => {
                is_area(schema, area) & which_fits(which) & is_in_area_or_none(schema, area, rtype)
            }
            Form::OwnerOf(set) => is_set(schema, set) & !schema.is_system(set),
            Form::Calc { rtype, ref values } => are_calc_values(
                schema,
                rtype,
                values.get().as_slice(),
            ),
            Form::NextDuplicate(rtype) => schema.calc_of(rtype).is_some(),
            Form::Sorted { set, ref value } => key_fits(schema, set, value.get()),
        }
    }
}

impl Statement {
    /// Does this statement fit the schema? It may contain any numbers, however high.
    pub fn fits(&self, schema: &Schema) -> bool
        ensures { result ≡ fits schema.now self.now }
    {
        match *self {
            Statement::OpenArea { area, .. } | Statement::CloseArea(area) => is_area(schema, area),
            Statement::Find(ref suppress, ref form) => {
                form.fits(schema) & suppress_fits(schema, suppress)
            }
            Statement::Get(Some(rtype)) => is_type(schema, rtype),
            Statement::Store {
                rtype,
                ref items,
                ref suppress,
            } => {
                is_type(schema, rtype)
                    & are_of_items(items.get().as_slice(), schema.items(rtype))
                    & suppress_fits(schema, suppress)
            }
            Statement::Insert(set) | Statement::Remove(set) => is_set(schema, set),
            Statement::Modify { rtype, ref changes } => {
                is_type(schema, rtype)
                    & distinct_items(changes.get().as_slice())
                    & are_changes_of(schema, rtype, changes.get().as_slice())
            }
            Statement::Get(None)
            | Statement::Delete(_)
            | Statement::Keep
            | Statement::Free { .. } => true,
        }
    }
}
