//! Reading what follows the arrow: the answer that a line says was given.

ghost use Rattle.dbtg_script.specs.Tokens.{Token as SeenToken, equals, plain, tokens};
ghost use Rattle.dbtg_trace.specs.Answers.{answer_in, key_in, said_of, said_of_key, said_of_status, status_in, value_in, values_in};
ghost use Rattle.std.specs.Prelude.{◌≡◌, ◌∷◌, IfOk, List, MatchOption, None, Some, false, option_map, true};

use crate::traced::Said;
use dbtg_cells::{DbKey, Shared, Value};
use dbtg_schema::{Item, Row, Schema};
use dbtg_script::{
    Token, Tokens, ends_in_text, is_key, is_number, key_fault, key_of, number, spelled,
};
use std::alloc::{AllocError, Global};

/// The status of four digits that a word is.
#[tactic(auto, using(crate::proofs::WordSteps::four_digits, crate::proofs::WordSteps::status_read))]
fn status_in(text: &[u8]) -> Option<u16>
    ensures { result ≡ status_in text.now }
{
    if text.len() == 4 && is_number(text) {
        Some(number(text) as u16)
    } else {
        None
    }
}

/// The key that a word is, if it is one of the schema's.
fn key_in(schema: &Schema, text: &[u8]) -> Option<DbKey>
    ensures { result ≡ key_in schema.now text.now }
{
    if !is_key(text) {
        return None;
    }
    match key_fault(schema, text) {
        Some(_) => None,
        None => Some(key_of(schema, text)),
    }
}

/// Are the next words this name and `=`?
fn takes_name(left: &mut Tokens, name: &[u8]) -> bool
    ensures taken { result ≡ true → tokens false left.old.rest.now ≡ plain name.now ∷ equals ∷ tokens false left.new.rest.now }
    ensures other { result ≡ false → (ts : List SeenToken) → tokens false left.old.rest.now ≡ plain name.now ∷ equals ∷ ts → ⊥ }
{
    match left.next() {
        Some(Token::Plain(text)) => {
            if text != name {
                return false;
            }
        }
        _ => return false,
    }
    matches!(left.next(), Some(Token::Equals))
}

/// The value that the next words give to the item.
#[tactic(auto, using(crate::proofs::WordSteps::not_named, crate::proofs::WordSteps::value_missing, crate::proofs::WordSteps::value_read))]
fn value_in(alloc: Global, item: &Item, left: &mut Tokens) -> Result<Option<Value>, AllocError>
    ensures { IfOk result (λ found. MatchOption found (value_in item.now (tokens false left.old.rest.now) ≡ None)
        (λ v. value_in item.now (tokens false left.old.rest.now) ≡ Some (v, tokens false left.new.rest.now))) }
{
    if !takes_name(left, item.name.as_slice()) {
        return Ok(None);
    }
    match left.next() {
        None => Ok(None),
        Some(token) => spelled(alloc, item.picture, token),
    }
}

/// The values of all these items, if no other words are left.
fn values_in(
    alloc: Global,
    items: &[Item],
    left: &mut Tokens,
) -> Result<Option<Vec<Value>>, AllocError>
    ensures { IfOk result (λ found. option_map (λ vs. vs.items) found ≡ values_in items.now (tokens false left.old.rest.now)) }
{
    let mut values = Vec::with_capacity(alloc, items.len())?;
    for item in items {
        match value_in(alloc, item, left)? {
            None => return Ok(None),
            Some(value) => values.push(value)?,
        }
    }
    match left.next() {
        None => Ok(Some(values)),
        Some(_) => Ok(None),
    }
}

/// The answer with this status and key, and with the items that the words after the key say.
fn said_of_key(
    alloc: Global,
    schema: &Schema,
    status: u16,
    key: DbKey,
    left: &mut Tokens,
) -> Result<Option<Said>, AllocError>
    ensures { IfOk result (λ found. found ≡ said_of_key schema.now status (tokens false left.old.rest.now) key) }
{
    let mut ahead = *left;
    if ahead.next().is_none() {
        return Ok(Some(Said {
            status,
            key: Some(key),
            items: None,
        }));
    }
    match values_in(alloc, schema.items(key.rtype), left)? {
        None => Ok(None),
        Some(values) => Ok(Some(Said {
            status,
            key: Some(key),
            items: Some(Shared::new(alloc, Row::of(values))?),
        })),
    }
}

/// The answer with this status, and with what the words after it say.
fn said_of_status(
    alloc: Global,
    schema: &Schema,
    status: u16,
    left: &mut Tokens,
) -> Result<Option<Said>, AllocError>
    ensures { IfOk result (λ found. found ≡ said_of_status schema.now (tokens false left.old.rest.now) status) }
{
    match left.next() {
        None => Ok(Some(Said {
            status,
            key: None,
            items: None,
        })),
        Some(Token::Plain(text)) => {
            match key_in(schema, text) {
                None => Ok(None),
                Some(key) => said_of_key(alloc, schema, status, key, left),
            }
        }
        Some(_) => Ok(None),
    }
}

/// The answer that is written after an arrow.
pub fn answer_in(alloc: Global, schema: &Schema, text: &[u8]) -> Result<Option<Said>, AllocError>
    ensures { IfOk result (λ found. found ≡ answer_in schema.now text.now) }
{
    if ends_in_text(text) {
        return Ok(None);
    }
    let mut left = Tokens { rest: text };
    match left.next() {
        Some(Token::Plain(word)) => {
            match status_in(word) {
                None => Ok(None),
                Some(status) => said_of_status(alloc, schema, status, &mut left),
            }
        }
        _ => Ok(None),
    }
}
