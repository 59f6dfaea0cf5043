//! Values, as words spell them for a picture.

ghost use Rattle.dbtg_script.specs.Tokens.{plain, view};
ghost use Rattle.dbtg_script.specs.Values.{blank, filled, is_of_kind, spelled, up_to, value_for};
ghost use Rattle.std.specs.Prelude.{◌≡◌, ◌^◌, ◌≤◌, ◌++◌, ◌-◌, IfOk, OnOk, is_some, length, nat_lt, option_map, replicate, take};

use crate::spelling::number;
use crate::token::Token;
use dbtg_cells::Value;
use dbtg_schema::{Picture, Row};
use std::alloc::{AllocError, Global};

/// Is the word a number for a number item, or a text for a text item?
pub fn is_of_kind(picture: Picture, token: Token) -> bool
    ensures { result ≡ is_of_kind picture (view token.entry) }
{
    match picture {
        Picture::Number(_) => matches!(token, Token::Plain(_)),
        Picture::Text(_) => matches!(token, Token::Literal(_)),
    }
}

// Is a number below 10 to this power?
fn has_digits(value: u64, digits: u8) -> bool
    ensures { result ≡ nat_lt value (10 ^ digits) }
{
    match 10u64.checked_pow(digits as u32) {
        Some(limit) => value < limit,
        None => true,
    }
}

/// Does the word spell a value of this picture?
pub fn is_spelled(picture: Picture, token: Token) -> bool
    ensures { result ≡ is_some (spelled picture (view token.entry)) }
{
    match picture {
        Picture::Number(digits) => {
            match token {
                Token::Plain(text) => {
                    let value = number(text);
                    value < 1_000_000_000_000_000_000 && has_digits(value, digits)
                }
                _ => false,
            }
        }
        Picture::Text(size) => {
            match token {
                Token::Literal(text) => text.len() <= size as usize,
                _ => false,
            }
        }
    }
}

/// A text, padded with spaces to this length.
fn filled(alloc: Global, size: u8, text: &[u8]) -> Result<Value, AllocError>
    requires { length text.now ≤ size }
    ensures { IfOk result (λ v. v ≡ Value.Text (filled size text.now)) }
{
    let mut bytes = Vec::with_capacity(alloc, size as usize)?;
    bytes.extend_from_slice(text)?;
    bytes.resize(size as usize, b' ')?;
    Ok(Value::Text(Row::of(bytes)))
}

/// The value of an item that no word names.
pub fn blank(alloc: Global, picture: Picture) -> Result<Value, AllocError>
    ensures { IfOk result (λ v. v ≡ blank picture) }
{
    match picture {
        Picture::Number(_) => Ok(Value::Num(0)),
        Picture::Text(size) => filled(alloc, size, b""),
    }
}

/// The value that a word gives for a picture; 0 or all spaces if there is no word.
pub fn value_for(alloc: Global, picture: Picture, token: Option<Token>) -> Result<Value, AllocError>
    ensures { IfOk result (λ v. v ≡ value_for picture (option_map view token.entry)) }
{
    match token {
        None => blank(alloc, picture),
        Some(token) => {
            match spelled(alloc, picture, token)? {
                Some(value) => Ok(value),
                None => blank(alloc, picture),
            }
        }
    }
}

/// The value that a word spells for a picture, if it does.
pub fn spelled(alloc: Global, picture: Picture, token: Token) -> Result<Option<Value>, AllocError>
    ensures { IfOk result (λ v. v ≡ spelled picture (view token.entry)) }
{
    match (picture, token) {
        (Picture::Number(digits), Token::Plain(text)) => Ok(spelled_number(digits, text)),
        (Picture::Text(size), Token::Literal(text)) => {
            if text.len() <= size as usize {
                Ok(Some(filled(alloc, size, text)?))
            } else {
                Ok(None)
            }
        }
        _ => Ok(None),
    }
}

fn spelled_number(digits: u8, text: &[u8]) -> Option<Value>
    ensures { result ≡ spelled (Picture.Number digits) (plain text.now) }
{
    let value = number(text);
    if value < 1_000_000_000_000_000_000 && has_digits(value, digits) {
        Some(Value::Num(value))
    } else {
        None
    }
}

/// The number; 0 if it is above the greatest that is allowed.
pub fn up_to(most: u64, number: u64) -> u64
    ensures value { result ≡ up_to most number }
    ensures bound { result ≤ most }
{
    if number <= most { number } else { 0 }
}
