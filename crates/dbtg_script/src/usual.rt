//! Words of usual forms, read directly into their statements, without a list of their roles. Any other words, and any with a fault,
//! are left to the reader of all lines.

ghost use Rattle.dbtg_schema.specs.Lists.{Lists};
ghost use Rattle.dbtg_schema.specs.Structure.{calc_of, item_list};
ghost use Rattle.dbtg_script.specs.Inside.LineCache.{Says};
ghost use Rattle.dbtg_script.specs.Inside.Reading.{MayTakeMemory};
ghost use Rattle.dbtg_script.specs.Printing.Spelling.{is_key, is_number};
ghost use Rattle.dbtg_script.specs.Reading.{first_word_faults};
ghost use Rattle.dbtg_script.specs.StatementGrammar.{fits, value};
ghost use Rattle.dbtg_script.specs.StatementFaults.{key_faults};
ghost use Rattle.dbtg_script.specs.Statements.{key_of};
ghost use Rattle.dbtg_schema.specs.Lookups.{first};
ghost use Rattle.dbtg_script.specs.Tokens.{equals, plain, view};
ghost use Rattle.dbtg_script.specs.Values.{spelled};
ghost use Rattle.dbtg_script.specs.Inside.Usual.{AreAssigned, AreSaid, IsAssigned, IsCalcType, IsGiven, IsOfSet, IsOnlyGiven, calc_items, nothing, words_left};
ghost use Rattle.std.specs.Prelude.{◌≡◌, ◌<◌, ◌∷◌, ℕ, [], IfOk, IfSome, OnErr, Some, None, codes, false, is_err, true};

use crate::checks::{is_sorted, without_minus};
use crate::left::Left;
use crate::line::{is_allowed_and_closed, is_statement};
use crate::lookups::{is_other_name, item_named, sort_picture, type_named};
use crate::spelling::{behind, is_signed, key_name, number, short_number};
use crate::statement::signed;
use crate::token::{Token, Tokens};
use crate::values::{blank, spelled, up_to};
use dbtg_cells::{DbKey, Shared, Value};
use dbtg_schema::{Item, ItemNo, Picture, RecordNo, Row, Schema, SetNo};
use dbtg_unit::{Change, Form, MOST_STATEMENTS, Statement, Suppress, Which};
use std::alloc::{AllocError, Global};

/// The next word, if it is a plain one.
fn plain_word<'a>(left: &mut Left<'a>) -> Option<&'a [u8]>
    ensures { IfSome result (λ t. words_left left.old ≡ plain t.now ∷ words_left left.new) }
{
    match left.next() {
        Some(Token::Plain(text)) => Some(text),
        _ => None,
    }
}

/// Is the next word this one?
fn accept_word(left: &mut Left, word: &[u8]) -> bool
    ensures { result ≡ true → words_left left.old ≡ plain word.now ∷ words_left left.new }
{
    match plain_word(left) {
        Some(text) => text == word,
        None => false,
    }
}

/// Is no word left?
fn ends(left: &mut Left) -> bool
    ensures { result ≡ true → words_left left.old ≡ [] }
{
    left.next().is_none()
}

fn find(form: Form) -> Statement
    ensures { result ≡ Statement.Find nothing form }
{
    Statement::Find(
        Suppress {
            types: false,
            areas: false,
            sets: 0,
        },
        form,
    )
}

/// The set of `OF s SET`, if these are the last words.
fn of_set(schema: &Schema, left: &mut Left) -> Option<SetNo>
    ensures { IfSome result (λ s. IsOfSet schema.now (words_left left.old) s) }
{
    if !accept_word(left, b"OF") {
        return None;
    }
    let name = plain_word(left)?;
    if !accept_word(left, b"SET") {
        return None;
    }
    if !ends(left) {
        return None;
    }
    schema.set(name)
}

// The key that a word spells, if it has no fault and names no generation.
fn usual_key(schema: &Schema, text: &[u8]) -> Option<DbKey>
    ensures spelled { IfSome result (λ _. is_key text.now ≡ true) }
    ensures key { IfSome result (λ k. k ≡ key_of schema.now text.now) }
    ensures faultless { IfSome result (λ _. first (key_faults schema.now text.now) ≡ None) }
{
    let name = key_name(text);
    let number = short_number(behind(text, b':'))?;
    if name.is_empty() || number == 0 || number > 999_999 {
        return None;
    }
    let rtype = type_named(schema, name)?;
    Some(DbKey {
        rtype,
        number: number as u32,
        generation: 1,
    })
}

/// FIND KEY k
fn by_key(schema: &Schema, left: &mut Left) -> Option<Statement>
    ensures { IfSome result (λ s. AreSaid schema.now (plain (codes "FIND") ∷ plain (codes "KEY") ∷ words_left left.old) s) }
{
    let text = plain_word(left)?;
    if !ends(left) {
        return None;
    }
    let key = usual_key(schema, text)?;
    Some(find(Form::Key(key)))
}

/// FIND n OF s SET
fn nth(schema: &Schema, word: &[u8], left: &mut Left) -> Option<Statement>
    ensures { IfSome result (λ s. AreSaid schema.now (plain (codes "FIND") ∷ plain word.now ∷ words_left left.old) s) }
{
    if !is_signed(word) {
        return None;
    }
    if up_to(999_999, number(without_minus(word))) == 0 {
        return None;
    }
    let set = of_set(schema, left)?;
    Some(find(Form::InSet {
        which: Which::Nth(signed(word)),
        rtype: None,
        set,
    }))
}

/// FIND SORTED v OF s SET
fn by_sort_key(
    alloc: Global,
    schema: &Schema,
    left: &mut Left,
) -> Result<Option<Statement>, AllocError>
    ensures { IfOk result (λ found. IfSome found (λ s. AreSaid schema.now (plain (codes "FIND") ∷ plain (codes "SORTED") ∷ words_left left.old) s)) }
{
    let Some(token) = left.next() else {
        return Ok(None);
    };
    let Some(set) = of_set(schema, left) else {
        return Ok(None);
    };
    if !is_sorted(schema.order_of(set)) {
        return Ok(None);
    }
    let Some(picture) = sort_picture(schema, set) else {
        return Ok(None);
    };
    match usual_value(alloc, picture, token)? {
        None => Ok(None),
        Some(value) => {
            let form = Form::by_sort_key(alloc, set, value)?;
            Ok(Some(find(form)))
        }
    }
}

/// The item and its value of `i = v`, if these are the last words.
fn only_change(
    alloc: Global,
    schema: &Schema,
    rtype: RecordNo,
    left: &mut Left,
) -> Result<Option<Change>, AllocError>
    ensures { IfOk result (λ found. IfSome found (λ c. IsOnlyGiven schema.now rtype (words_left left.old) c.item c.value)) }
{
    let Some(name) = plain_word(left) else {
        return Ok(None);
    };
    let Some(item) = item_named(schema, rtype, name) else {
        return Ok(None);
    };
    let Some(picture) = schema.picture_of(rtype, item) else {
        return Ok(None);
    };
    let Some(token) = value_word(left) else {
        return Ok(None);
    };
    if !ends(left) {
        return Ok(None);
    }
    match usual_value(alloc, picture, token)? {
        None => Ok(None),
        Some(value) => Ok(Some(Change { item, value })),
    }
}

/// The record type of `r RECORD USING`.
fn calc_type(schema: &Schema, left: &mut Left) -> Option<RecordNo>
    ensures { IfSome result (λ r. IsCalcType schema.now r (words_left left.old) (words_left left.new)) }
{
    let name = plain_word(left)?;
    if !accept_word(left, b"RECORD") {
        return None;
    }
    if !accept_word(left, b"USING") {
        return None;
    }
    type_named(schema, name)
}

/// The item of a CALC clause, if it has only one.
fn only_calc_item(schema: &Schema, rtype: RecordNo) -> Option<ItemNo>
    ensures { IfSome result (λ i. calc_items (calc_of schema.now rtype) ≡ i ∷ []) }
{
    let calc = schema.calc_of(rtype)?;
    match calc.items.as_slice().split_first() {
        Some((item, [])) => Some(*item),
        _ => None,
    }
}

/// FIND CALC r RECORD USING i = v
fn by_calc(alloc: Global, schema: &Schema, left: &mut Left) -> Result<Option<Statement>, AllocError>
    ensures { IfOk result (λ found. IfSome found (λ s. AreSaid schema.now (plain (codes "FIND") ∷ plain (codes "CALC") ∷ words_left left.old) s)) }
{
    let Some(rtype) = calc_type(schema, left) else {
        return Ok(None);
    };
    let Some(item) = only_calc_item(schema, rtype) else {
        return Ok(None);
    };
    match only_change(alloc, schema, rtype, left)? {
        None => Ok(None),
        Some(change) => {
            if change.item.index() != item.index() {
                return Ok(None);
            }
            let mut values = Vec::with_capacity(alloc, 1)?;
            values.push(change.value)?;
            let form = Form::by_calc(alloc, rtype, Row::of(values))?;
            Ok(Some(find(form)))
        }
    }
}

/// FIND by a key, by CALC items, by a sort key or by a number in a set
fn usual_find(
    alloc: Global,
    schema: &Schema,
    left: &mut Left,
) -> Result<Option<Statement>, AllocError>
    ensures { IfOk result (λ found. IfSome found (λ s. AreSaid schema.now (plain (codes "FIND") ∷ words_left left.old) s)) }
{
    let Some(word) = plain_word(left) else {
        return Ok(None);
    };
    if word == b"KEY".as_slice() {
        Ok(by_key(schema, left))
    } else if word == b"SORTED".as_slice() {
        by_sort_key(alloc, schema, left)
    } else if word == b"CALC".as_slice() {
        by_calc(alloc, schema, left)
    } else {
        Ok(nth(schema, word, left))
    }
}

/// The word after `=`.
fn value_word<'a>(left: &mut Left<'a>) -> Option<Token<'a>>
    ensures { IfSome result (λ t. words_left left.old ≡ equals ∷ view t ∷ words_left left.new) }
{
    match left.next() {
        Some(Token::Equals) => left.next(),
        _ => None,
    }
}

// The value of an item of digits, from no more digits than it has.
fn usual_number(digits: u8, text: &[u8]) -> Option<Value>
    ensures fitting { IfSome result (λ _. is_number text.now ≡ true) }
    ensures value { IfSome result (λ v. spelled (Picture.Number digits) (plain text.now) ≡ Some v) }
{
    let number = short_number(text)?;
    if text.len() > digits as usize {
        return None;
    }
    Some(Value::Num(number))
}

/// The value that a word spells for a picture, if it can be a value and has no zeros in front that the picture has no room for.
fn usual_value(alloc: Global, picture: Picture, token: Token) -> Result<Option<Value>, AllocError>
    ensures fitting { IfOk result (λ found. IfSome found (λ _. fits value (view token.entry) ≡ true)) }
    ensures value { IfOk result (λ found. IfSome found (λ v. spelled picture (view token.entry) ≡ Some v)) }
{
    match (picture, token) {
        (Picture::Number(digits), Token::Plain(text)) => Ok(usual_number(digits, text)),
        (Picture::Text(_), Token::Literal(_)) => spelled(alloc, picture, token),
        _ => Ok(None),
    }
}

/// The value of an item that was named last, by `= v`; none if this is not a value of it.
fn value_behind(alloc: Global, left: &mut Left, item: &Item) -> Result<Option<Value>, AllocError>
    ensures { IfOk result (λ found. IfSome found (λ v. IsGiven item.now (plain item.now.name ∷ words_left left.old) (words_left left.new) v)) }
{
    if item.name.as_slice() == b"SUPPRESS".as_slice() {
        return Ok(None);
    }
    match value_word(left) {
        None => Ok(None),
        Some(token) => usual_value(alloc, item.picture, token),
    }
}

/// The value of an item; its blank if the item is not named next; none if it is named and its value is wrong.
fn next_value(alloc: Global, left: &mut Left, item: &Item) -> Result<Option<Value>, AllocError>
    ensures { IfOk result (λ found. IfSome found (λ v. IsAssigned item.now (words_left left.old) (words_left left.new) v)) }
{
    let mut ahead = *left;
    if !accept_word(&mut ahead, item.name.as_slice()) {
        return Ok(Some(blank(alloc, item.picture)?));
    }
    *left = ahead;
    value_behind(alloc, left, item)
}

/// The values of a record of this type, if the words that are left name its items in their order.
fn usual_values(
    alloc: Global,
    schema: &Schema,
    rtype: RecordNo,
    left: &mut Left,
) -> Result<Option<Vec<Value>>, AllocError>
    ensures { IfOk result (λ found. IfSome found (λ vs. AreAssigned schema.now rtype 0 (item_list schema.now rtype) (words_left left.old) vs.items)) }
{
    let items = schema.items(rtype);
    let mut values = Vec::with_capacity(alloc, items.len())?;
    for (i, item) in items.iter().enumerate() {
        let (earlier, _) = items.split_at(i);
        if !is_other_name(earlier, item.name.as_slice()) {
            return Ok(None);
        }
        match next_value(alloc, left, item)? {
            None => return Ok(None),
            Some(value) => values.push(value)?,
        }
    }
    if ends(left) {
        Ok(Some(values))
    } else {
        Ok(None)
    }
}

/// STORE r i = v ..
fn usual_store(
    alloc: Global,
    schema: &Schema,
    left: &mut Left,
) -> Result<Option<Statement>, AllocError>
    ensures { IfOk result (λ found. IfSome found (λ s. AreSaid schema.now (plain (codes "STORE") ∷ words_left left.old) s)) }
{
    let Some(name) = plain_word(left) else {
        return Ok(None);
    };
    let Some(rtype) = type_named(schema, name) else {
        return Ok(None);
    };
    // Without items the line is likely to come again, and is worth keeping.
    let mut ahead = *left;
    if ends(&mut ahead) {
        return Ok(None);
    }
    match usual_values(alloc, schema, rtype, left)? {
        None => Ok(None),
        Some(values) => Ok(Some(Statement::Store {
            rtype,
            items: Shared::new(alloc, Row::of(values))?,
            suppress: Suppress {
                types: false,
                areas: false,
                sets: 0,
            },
        })),
    }
}

/// MODIFY r i = v
fn usual_modify(
    alloc: Global,
    schema: &Schema,
    left: &mut Left,
) -> Result<Option<Statement>, AllocError>
    ensures { IfOk result (λ found. IfSome found (λ s. AreSaid schema.now (plain (codes "MODIFY") ∷ words_left left.old) s)) }
{
    let Some(name) = plain_word(left) else {
        return Ok(None);
    };
    let Some(rtype) = type_named(schema, name) else {
        return Ok(None);
    };
    match only_change(alloc, schema, rtype, left)? {
        None => Ok(None),
        Some(change) => {
            let mut changes = Vec::with_capacity(alloc, 1)?;
            changes.push(change)?;
            Ok(Some(Statement::Modify {
                rtype,
                changes: Shared::new(alloc, Row::of(changes))?,
            }))
        }
    }
}

/// GET, of whatever record is current
#[tactic(auto, using(crate::proofs::Reading::UsualLines::get_said))]
fn usual_get(left: &mut Left) -> Option<Statement>
    ensures { IfSome result (λ s. (schema : Lists) → AreSaid schema (plain (codes "GET") ∷ words_left left.old) s) }
{
    if ends(left) {
        Some(Statement::Get(None))
    } else {
        None
    }
}

/// The statement that words of a usual form say; none for some such words.
pub fn by_words(
    alloc: Global,
    schema: &Schema,
    left: &mut Left,
) -> Result<Option<Statement>, AllocError>
    ensures said { IfOk result (λ found. IfSome found (λ s. AreSaid schema.now (words_left left.old) s)) }
    ensures wanted { is_err result ≡ true → first_word_faults schema.now (words_left left.old) ≡ [] }
{
    let Some(word) = plain_word(left) else {
        return Ok(None);
    };
    if word == b"STORE".as_slice() {
        usual_store(alloc, schema, left)
    } else if word == b"FIND".as_slice() {
        usual_find(alloc, schema, left)
    } else if word == b"MODIFY".as_slice() {
        usual_modify(alloc, schema, left)
    } else if word == b"GET".as_slice() {
        Ok(usual_get(left))
    } else {
        Ok(None)
    }
}

/// The statement of a line of a usual form without a fault; none for some such lines.
pub fn usual_statement(
    alloc: Global,
    schema: &Schema,
    line: &[u8],
) -> Result<Option<Statement>, AllocError>
    ensures says { IfOk result (λ found. IfSome found (λ s. (count : ℕ) → count < MOST_STATEMENTS → Says schema.now count line.now s)) }
    ensures memory { OnErr result ((count : ℕ) → count < MOST_STATEMENTS → MayTakeMemory schema.now count line.now) }
{
    if !is_statement(line) {
        return Ok(None);
    }
    if !is_allowed_and_closed(line) {
        return Ok(None);
    }
    by_words(alloc, schema, &mut Left::Line(Tokens { rest: line }))
}
