//! The statement that the words of a line say.

ghost use Rattle.dbtg_schema.specs.Texts.Spelling.{among};
ghost use Rattle.dbtg_schema.specs.Structure.{calc_of, item_list};
ghost use Rattle.dbtg_script.specs.Labels.{has, texts};
ghost use Rattle.dbtg_script.specs.StatementFaults.{set_in, type_in};
ghost use Rattle.dbtg_script.specs.Statements.{calc_value, calc_values, change_of, changes_of, current_of, erase_of, form_of, in_place, is_negative, key_of, mode_of, name_at, named_type, set_bits, signed, sorted_value, statement_by, statement_of, suppress_of, values_of, which_of};
ghost use Rattle.dbtg_script.specs.Inside.Views.{views};
ghost use Rattle.dbtg_script.specs.declared.role.Role.TheVariants as role;
ghost use Rattle.std.specs.Prelude.{◌≡◌, ◌<◌, ◌≤◌, ◌^◌, ◌||◌, IfOk, length};

use crate::checks::without_minus;
use crate::lookups::{
    area_in, area_no, item_no, item_picture, set_in, set_no, sort_picture, type_no,
};
use crate::queries::{Labelled, first_word, given, has_role, is_named, lead, named, text_of};
use crate::role::Role;
use crate::spelling::{generation, key_name, key_number, number};
use crate::values::{up_to, value_for};
use crate::words::Words;
use dbtg_cells::{DbKey, LAST_GENERATION, Mode, Shared, Value};
use dbtg_schema::{Item, ItemNo, MOST_SETS, Picture, RecordNo, Row, Schema, SetType};
use dbtg_unit::{Change, Erase, Form, Statement, Suppress, Which};
use std::alloc::{AllocError, Global};

fn mode_of(words: &Words) -> Mode
    ensures { result ≡ mode_of words.now.words }
{
    let update = words.has(Role::Update);
    if words.has(Role::Protected) {
        if update {
            Mode::ProtectedUpdate
        } else {
            Mode::ProtectedRetrieval
        }
    } else if words.has(Role::Exclusive) {
        if update {
            Mode::ExclusiveUpdate
        } else {
            Mode::ExclusiveRetrieval
        }
    } else if update {
        Mode::Update
    } else {
        Mode::Retrieval
    }
}

fn erase_of(words: &Words) -> Erase
    ensures { result ≡ erase_of words.now.words }
{
    if words.has(Role::Only) {
        Erase::Only
    } else if words.has(Role::Selective) {
        Erase::Selective
    } else if words.has(Role::All) {
        Erase::All
    } else {
        Erase::Plain
    }
}

fn is_suppressed(words: &Words, name: &[u8]) -> bool
    ensures { result ≡ (has role.SuppressAll words.now.words || among name.now (texts role.SuppressSet words.now.words)) }
{
    words.has(Role::SuppressAll) | is_named(words.list(), Role::SuppressSet, name)
}

/// A bit for each set, the first set's the lowest.
fn set_bits(words: &Words, sets: &[SetType]) -> u32
    requires { length sets.now ≤ MOST_SETS }
    ensures bits { result ≡ set_bits words.now.words sets.now }
    ensures bound { result < 2 ^ length sets.now }
{
    match sets.split_first() {
        None => 0,
        Some((set, rest)) => {
            let bits = set_bits(words, rest);
            if is_suppressed(words, set.name.as_slice()) {
                1 + 2 * bits
            } else {
                2 * bits
            }
        }
    }
}

/// The bits of the sets; none is looked at if no word suppresses one.
fn suppressed_sets(words: &Words) -> u16
    ensures { result ≡ set_bits words.now.words words.now.schema.sets }
{
    if words.has(Role::SuppressAll) | words.has(Role::SuppressSet) {
        set_bits(words, words.schema().sets()) as u16
    } else {
        0
    }
}

fn suppress_of(words: &Words) -> Suppress
    ensures { result ≡ suppress_of words.now.schema words.now.words }
{
    let all = words.has(Role::SuppressAll);
    Suppress {
        types: all | words.has(Role::SuppressTypes),
        areas: all | words.has(Role::SuppressAreas),
        sets: suppressed_sets(words),
    }
}

fn is_negative(text: &[u8]) -> bool
    ensures { result ≡ is_negative text.now }
{
    match text.first() {
        Some(b) => *b == b'-',
        None => false,
    }
}

/// The number that digits, or a minus and digits, spell; 0 if it is above 999,999.
pub fn signed(text: &[u8]) -> i32
    ensures { result ≡ signed text.now }
{
    let n = up_to(999_999, number(without_minus(text))) as i32;
    if is_negative(text) { -n } else { n }
}

fn which_of(words: &Words) -> Which
    ensures { result ≡ which_of words.now.words }
{
    if words.has(Role::WhichFirst) {
        Which::First
    } else if words.has(Role::WhichLast) {
        Which::Last
    } else if words.has(Role::WhichNext) {
        Which::Next
    } else if words.has(Role::WhichPrior) {
        Which::Prior
    } else {
        Which::Nth(signed(named(words.list(), Role::WhichNumber)))
    }
}

/// The key that a word spells.
pub fn key_of(schema: &Schema, text: &[u8]) -> DbKey
    ensures { result ≡ key_of schema.now text.now }
{
    DbKey {
        rtype: type_no(schema, key_name(text)),
        number: up_to(999_999, number(key_number(text))) as u32,
        generation: up_to(LAST_GENERATION as u64, generation(text)) as u8,
    }
}

fn values_of(alloc: Global, words: &[Labelled], items: &[Item]) -> Result<Vec<Value>, AllocError>
    ensures { IfOk result (λ v. v.items ≡ values_of (views words.now) items.now) }
{
    let mut values = Vec::new(alloc);
    for item in items {
        let token = given(words, item.name.as_slice());
        values.push(value_for(alloc, item.picture, token)?)?;
    }
    Ok(values)
}

fn name_at(schema: &Schema, rtype: RecordNo, item: ItemNo) -> &[u8]
    ensures { result.now ≡ name_at schema.now rtype item }
{
    match schema.item_name(rtype, item) {
        Some(name) => name,
        None => b"",
    }
}

fn calc_value(
    alloc: Global,
    schema: &Schema,
    rtype: RecordNo,
    words: &[Labelled],
    item: ItemNo,
) -> Result<Value, AllocError>
    ensures { IfOk result (λ v. v ≡ calc_value schema.now rtype (views words.now) item) }
{
    let picture = schema.picture_of(rtype, item).unwrap_or(Picture::Number(0));
    let token = given(words, name_at(schema, rtype, item));
    value_for(alloc, picture, token)
}

fn calc_values(
    alloc: Global,
    schema: &Schema,
    rtype: RecordNo,
    words: &[Labelled],
) -> Result<Vec<Value>, AllocError>
    ensures { IfOk result (λ v. v.items ≡ calc_values schema.now rtype (views words.now) (calc_of schema.now rtype)) }
{
    let mut values = Vec::new(alloc);
    if let Some(calc) = schema.calc_of(rtype) {
        for item in calc.items.as_slice() {
            values.push(calc_value(alloc, schema, rtype, words, *item)?)?;
        }
    }
    Ok(values)
}

fn change_of(
    alloc: Global,
    schema: &Schema,
    rtype: RecordNo,
    words: &[Labelled],
    name: &[u8],
) -> Result<Change, AllocError>
    ensures { IfOk result (λ c. c ≡ change_of schema.now rtype (views words.now) name.now) }
{
    let picture = item_picture(schema, rtype, name).unwrap_or(Picture::Number(0));
    let value = value_for(alloc, picture, given(words, name))?;
    Ok(Change {
        item: item_no(schema, rtype, name),
        value,
    })
}

fn changes_of(
    alloc: Global,
    schema: &Schema,
    rtype: RecordNo,
    words: &[Labelled],
) -> Result<Vec<Change>, AllocError>
    ensures { IfOk result (λ v. v.items ≡ changes_of schema.now rtype (views words.now)) }
{
    let mut changes = Vec::new(alloc);
    for word in words {
        if has_role(word, Role::ItemName) {
            changes.push(change_of(alloc, schema, rtype, words, text_of(word.token))?)?;
        }
    }
    Ok(changes)
}

fn named_type(words: &Words, role: Role) -> Option<RecordNo>
    ensures { result ≡ named_type words.now.schema words.now.words role }
{
    if words.has(role) {
        Some(words.type_in())
    } else {
        None
    }
}

fn in_place(words: &Words) -> Form
    ensures { result ≡ in_place words.now.schema words.now.words }
{
    let which = which_of(words);
    let rtype = named_type(words, Role::RecordName);
    if words.has(Role::KindSet) {
        Form::InSet {
            which,
            rtype,
            set: set_in(words),
        }
    } else {
        Form::InArea {
            which,
            rtype,
            area: area_in(words),
        }
    }
}

fn current_of(words: &Words) -> Form
    ensures { result ≡ current_of words.now.schema words.now.words }
{
    if words.has(Role::RunUnit) {
        Form::CurrentOfUnit
    } else if words.has(Role::KindRecord) {
        Form::CurrentOfType(type_no(words.schema(), named(words.list(), Role::Name)))
    } else if words.has(Role::KindSet) {
        Form::CurrentOfSet(set_in(words))
    } else {
        Form::CurrentOfArea(area_in(words))
    }
}

fn by_calc(alloc: Global, words: &Words) -> Result<Form, AllocError>
    ensures { IfOk result (λ f. f ≡ Form.Calc (type_in words.now.schema words.now.words) (calc_values words.now.schema (type_in words.now.schema words.now.words) words.now.words (calc_of words.now.schema (type_in words.now.schema words.now.words)))) }
{
    let rtype = words.type_in();
    let values = calc_values(alloc, words.schema(), rtype, words.list())?;
    Form::by_calc(alloc, rtype, Row::of(values))
}

fn by_sort_key(alloc: Global, words: &Words) -> Result<Form, AllocError>
    ensures { IfOk result (λ f. f ≡ Form.Sorted (set_in words.now.schema words.now.words) (sorted_value words.now.schema words.now.words)) }
{
    let set = set_in(words);
    let picture = sort_picture(words.schema(), set).unwrap_or(Picture::Number(0));
    let value = value_for(alloc, picture, first_word(words.list(), Role::SortedValue))?;
    Form::by_sort_key(alloc, set, value)
}

fn form_of(alloc: Global, words: &Words) -> Result<Form, AllocError>
    ensures { IfOk result (λ f. f ≡ form_of words.now.schema words.now.words) }
{
    if words.has(Role::FindKey) {
        Ok(Form::Key(key_of(words.schema(), named(words.list(), Role::Key))))
    } else if words.has(Role::FindCurrent) {
        Ok(current_of(words))
    } else if words.has(Role::FindOwner) {
        Ok(Form::OwnerOf(set_in(words)))
    } else if words.has(Role::FindCalc) {
        by_calc(alloc, words)
    } else if words.has(Role::FindSorted) {
        by_sort_key(alloc, words)
    } else if words.has(Role::FindDuplicate) {
        Ok(Form::NextDuplicate(words.type_in()))
    } else {
        Ok(in_place(words))
    }
}

fn find_of(alloc: Global, words: &Words) -> Result<Statement, AllocError>
    ensures { IfOk result (λ s. s ≡ Statement.Find (suppress_of words.now.schema words.now.words) (form_of words.now.schema words.now.words)) }
{
    let form = form_of(alloc, words)?;
    Ok(Statement::Find(suppress_of(words), form))
}

fn store_of(alloc: Global, words: &Words) -> Result<Statement, AllocError>
    ensures { IfOk result (λ s. s ≡ Statement.Store (type_in words.now.schema words.now.words) (values_of words.now.words (item_list words.now.schema (type_in words.now.schema words.now.words))) (suppress_of words.now.schema words.now.words)) }
{
    let rtype = words.type_in();
    let values = values_of(alloc, words.list(), words.schema().items(rtype))?;
    Ok(Statement::Store {
        rtype,
        items: Shared::new(alloc, Row::of(values))?,
        suppress: suppress_of(words),
    })
}

fn modify_of(alloc: Global, words: &Words) -> Result<Statement, AllocError>
    ensures { IfOk result (λ s. s ≡ Statement.Modify (type_in words.now.schema words.now.words) (changes_of words.now.schema (type_in words.now.schema words.now.words) words.now.words)) }
{
    let rtype = words.type_in();
    let changes = changes_of(alloc, words.schema(), rtype, words.list())?;
    Ok(Statement::Modify {
        rtype,
        changes: Shared::new(alloc, Row::of(changes))?,
    })
}

/// The statement that these words say.
pub fn statement_of(alloc: Global, words: &Words) -> Result<Statement, AllocError>
    ensures { IfOk result (λ s. s ≡ statement_of words.now.schema words.now.words) }
{
    match lead(words.list()) {
        Role::Open => Ok(Statement::OpenArea {
            area: area_no(words.schema(), named(words.list(), Role::AreaName)),
            mode: mode_of(words),
        }),
        Role::Close => Ok(Statement::CloseArea(area_no(
            words.schema(),
            named(words.list(), Role::AreaName),
        ))),
        Role::Find => find_of(alloc, words),
        Role::Get => Ok(Statement::Get(named_type(words, Role::TypeName))),
        Role::Store => store_of(alloc, words),
        Role::Insert => Ok(Statement::Insert(set_no(
            words.schema(),
            named(words.list(), Role::SetName),
        ))),
        Role::Remove => Ok(Statement::Remove(set_no(
            words.schema(),
            named(words.list(), Role::SetName),
        ))),
        Role::Modify => modify_of(alloc, words),
        Role::Delete => Ok(Statement::Delete(erase_of(words))),
        Role::Free => Ok(Statement::Free {
            all: words.has(Role::FreeAll),
        }),
        _ => Ok(Statement::Keep),
    }
}
