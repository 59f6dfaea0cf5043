//! The faults at a place of a statement.

ghost use Rattle.dbtg_schema.specs.Lookups.{first};
ghost use Rattle.dbtg_schema.specs.WellFormed.{is_sorted};
ghost use Rattle.dbtg_schema.specs.Structure.{calc_of};
ghost use Rattle.dbtg_schema.specs.Texts.Forms.{labelled};
ghost use Rattle.dbtg_script.specs.Lookups.{item_named, item_no, sort_picture};
ghost use Rattle.dbtg_script.specs.Labels.{first_word, has, texts};
ghost use Rattle.dbtg_script.specs.StatementFaults.{at_other, differs_from, end_faults, is_misused, is_outside, item_faults, items_in, key_faults, said, set_in, sorted_faults, type_in, value_faults, when, without_minus};
ghost use Rattle.dbtg_script.specs.Tokens.{view};
ghost use Rattle.dbtg_script.specs.Inside.Views.{views};
ghost use Rattle.dbtg_script.specs.Inside.Words.{IsNamed};
ghost use Rattle.dbtg_script.specs.declared.role.Role.TheVariants as role;
ghost use Rattle.std.specs.List.{list_all, list_any};
ghost use Rattle.std.specs.Prelude.{◌≡◌, ◌==◌, ◌&&◌, ◌||◌, is_none, map, option_map};

use crate::fault::Cause;
use crate::lookups::{area_in, item_no, set_in, sort_picture};
use crate::queries::{Labelled, count, first_word, has_role, is_named, named, text_of};
use crate::role::Role;
use crate::spelling::{generation, key_name, key_number, number};
use crate::token::Token;
use crate::values::{is_of_kind, is_spelled, up_to};
use crate::words::{Named, Words};
use dbtg_cells::LAST_GENERATION;
use dbtg_schema::{Calc, ItemNo, Order, Picture, RecordNo, Schema};

fn when(test: bool, cause: Cause) -> Option<Cause>
    ensures { result ≡ first (when test cause) }
{
    if test { Some(cause) } else { None }
}

fn value_fault(picture: Option<Picture>, token: Token) -> Option<Cause>
    ensures { result ≡ first (value_faults picture (view token.entry)) }
{
    match picture {
        None => None,
        Some(picture) => {
            if !is_of_kind(picture, token) {
                Some(Cause::OtherKind)
            } else if !is_spelled(picture, token) {
                Some(Cause::TooGreat)
            } else {
                None
            }
        }
    }
}

fn item_fault(words: &Words, item: Option<ItemNo>, name: &[u8]) -> Option<Cause>
    requires { item ≡ item_named words.now.schema (type_in words.now.schema words.now.words) name.now }
    ensures { result ≡ first (item_faults words.now.schema words.now.words name.now) }
{
    if item.is_none() {
        Some(Cause::UnknownItem)
    } else if is_named(words.list(), Role::ItemName, name) {
        Some(Cause::ItemTwice)
    } else {
        None
    }
}

/// The first fault of a key.
pub fn key_fault(schema: &Schema, text: &[u8]) -> Option<Cause>
    ensures { result ≡ first (key_faults schema.now text.now) }
{
    if schema.rtype(key_name(text)).is_none() {
        Some(Cause::UnknownRecordType)
    } else if up_to(999_999, number(key_number(text))) == 0 {
        Some(Cause::OutOfRange)
    } else if up_to(LAST_GENERATION as u64, generation(text)) == 0 {
        Some(Cause::OutOfRange)
    } else {
        None
    }
}

/// The digits after a minus.
pub fn without_minus(text: &[u8]) -> &[u8]
    ensures { result.now ≡ without_minus text.now }
{
    match text.split_first() {
        Some((b'-', digits)) => digits,
        _ => text,
    }
}

/// The first fault at a word that the grammar wants, given the words before it and what it names.
pub fn said(words: &Words, token: Token, role: Role, names: &Named) -> Option<Cause>
    requires { IsNamed words.now.schema words.now.words (labelled role (view token)) names.now }
    ensures { result ≡ first (said words.now.schema words.now.words (view token.entry) role) }
{
    let schema = words.schema();
    let text = text_of(token);
    match role {
        Role::AreaName => when(schema.area(text).is_none(), Cause::UnknownArea),
        Role::TypeName => when(names.rtype.is_none(), Cause::UnknownRecordType),
        Role::SetName | Role::SuppressSet => when(schema.set(text).is_none(), Cause::UnknownSet),
        Role::KindArea => when(
            schema.area(named(words.list(), Role::Name)).is_none(),
            Cause::UnknownArea,
        ),
        Role::KindRecord => when(
            schema.rtype(named(words.list(), Role::Name)).is_none(),
            Cause::UnknownRecordType,
        ),
        Role::KindSet => when(
            schema.set(named(words.list(), Role::Name)).is_none(),
            Cause::UnknownSet,
        ),
        Role::RecordWord => when(
            schema
                .rtype(named(words.list(), Role::RecordName))
                .is_none(),
            Cause::UnknownRecordType,
        ),
        Role::ItemName => item_fault(words, names.item, text),
        Role::Value => value_fault(words.picture(), token),
        Role::Key => key_fault(schema, text),
        Role::WhichNumber => when(
            up_to(999_999, number(without_minus(text))) == 0,
            Cause::OutOfRange,
        ),
        _ => None,
    }
}

fn is_outside(words: &Words) -> bool
    ensures { result ≡ is_outside words.now.schema words.now.words }
{
    if !words.has(Role::RecordName) {
        return false;
    }
    let schema = words.schema();
    let rtype = words.type_in();
    let no_member = words.has(Role::KindSet)
        && schema.member_clause(set_in(words), rtype).is_none();
    let elsewhere = words.has(Role::KindArea)
        && schema.area_of(rtype).index() != area_in(words).index();
    no_member || elsewhere
}

fn is_among(item: ItemNo, items: &[ItemNo]) -> bool
    ensures { result ≡ list_any (λ j. j == item) items.now }
{
    items.iter().any(|other| other.index() == item.index())
}

fn are_among(schema: &Schema, rtype: RecordNo, words: &[Labelled], items: &[ItemNo]) -> bool
    ensures { result ≡ list_all (λ i. list_any (λ j. j == i) items.now) (map (item_no schema.now rtype) (texts role.ItemName (views words.now))) }
{
    for word in words {
        if has_role(word, Role::ItemName) {
            if !is_among(item_no(schema, rtype, text_of(word.token)), items) {
                return false;
            }
        }
    }
    true
}

fn differs_from(words: &Words, calc: Option<&Calc>) -> bool
    ensures { result ≡ differs_from (option_map (λ c. c.now) calc.entry) (items_in words.now.schema words.now.words) }
{
    match calc {
        None => true,
        Some(calc) => {
            let items = calc.items.as_slice();
            count(words.list(), Role::ItemName) != items.len()
                || !are_among(words.schema(), words.type_in(), words.list(), items)
        }
    }
}

/// Does a FIND have other items than those of the CALC clause, or is there no CALC clause?
fn has_other_calc(words: &Words) -> bool
    ensures { result ≡ ((has role.FindCalc words.now.words && differs_from (calc_of words.now.schema (type_in words.now.schema words.now.words)) (items_in words.now.schema words.now.words)) || (has role.FindDuplicate words.now.words && is_none (calc_of words.now.schema (type_in words.now.schema words.now.words)))) }
{
    if words.has(Role::FindCalc) && differs_from(words, words.schema().calc_of(words.type_in())) {
        return true;
    }
    words.has(Role::FindDuplicate) && words.schema().calc_of(words.type_in()).is_none()
}

fn is_misused(words: &Words) -> bool
    ensures { result ≡ is_misused words.now.schema words.now.words }
{
    let unsorted = words.has(Role::FindSorted)
        && !is_sorted(words.schema().order_of(set_in(words)));
    let unowned = words.has(Role::FindOwner) && words.schema().is_system(set_in(words));
    has_other_calc(words) || unsorted || unowned
}

pub fn is_sorted(order: Order) -> bool
    ensures { result ≡ is_sorted order }
{
    matches!(order, Order::Sorted { .. })
}

/// The first fault of the value given for a sort key.
fn sorted_fault(words: &Words) -> Option<Cause>
    ensures { result ≡ first (sorted_faults (sort_picture words.now.schema (set_in words.now.schema words.now.words)) (first_word role.SortedValue words.now.words)) }
{
    if words.has(Role::SortedValue) {
        match first_word(words.list(), Role::SortedValue) {
            None => None,
            Some(token) => value_fault(sort_picture(words.schema(), set_in(words)), token),
        }
    } else {
        None
    }
}

/// The first fault of a statement as a whole.
#[tactic(auto, using(crate::proofs::Reading::Firsts::first_steps))]
pub fn end_fault(words: &Words) -> Option<Cause>
    ensures { result ≡ first (end_faults words.now.schema words.now.words) }
{
    if is_outside(words) {
        return Some(Cause::NotThere);
    }
    if is_misused(words) {
        return Some(Cause::NotThisWay);
    }
    sorted_fault(words)
}

/// The fault at a word that the grammar does not want.
pub fn at_other(words: &Words) -> Cause
    ensures { result ≡ at_other words.now.words }
{
    if words.list().is_empty() {
        Cause::NoStatementWord
    } else {
        Cause::UnexpectedWord
    }
}
