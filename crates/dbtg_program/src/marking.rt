//! The words of a statement, and which of them are fields.

ghost use Rattle.dbtg_script.specs.Tokens.{view};
ghost use Rattle.dbtg_program.specs.Faults.{unknown_word};
ghost use Rattle.dbtg_program.specs.Sentences.{as_it_is, fields_in, is_spelled, marked, marked_from, word_at, word_of};
ghost use Rattle.dbtg_program.specs.Inside.Reading.{unknown_verdict};
ghost use Rattle.dbtg_program.specs.Inside.Views.{view_marked};
ghost use Rattle.dbtg_schema.specs.Lookups.{first};
ghost use Rattle.std.specs.List.{list_any};
ghost use Rattle.std.specs.Prelude.{◌≡◌, ◌&&◌, ◌++◌, IfOk, OnOk, codes, false, length, map, nat_lt, true};

use crate::fault::ProgramCause;
use crate::program::Word;
use crate::text::Text;
use crate::word::{is_equals, is_field_word, is_spelled, text_in};
use dbtg_schema::Row;
use dbtg_script::Token;
use std::alloc::{AllocError, Global};

/// A word, and whether it is a field word.
#[derive(Clone, Copy)]
pub struct Marked<'a> {
    pub token: Token<'a>,
    pub is_field: bool,
}

/// Adds words; the flag says that the first is in a value's place.
fn push_marked<'a>(
    marked: &mut Vec<Marked<'a>>,
    here: bool,
    words: &[Token<'a>],
) -> Result<(), AllocError>
    ensures { OnOk result (map view_marked marked.new.items ≡ map view_marked marked.old.items ++ marked_from here (map view words.now)) }
{
    let mut here = here;
    for word in words {
        let token = *word;
        marked.push(Marked {
            token,
            is_field: here && is_field_word(token),
        })?;
        here = is_equals(token);
    }
    Ok(())
}

/// Adds the words of a FIND SORTED: a value follows its first two.
fn push_sorted<'a>(
    marked: &mut Vec<Marked<'a>>,
    words: &[Token<'a>],
    rest: &[Token<'a>],
) -> Result<(), AllocError>
    ensures { OnOk result (map view_marked marked.new.items ≡ (map view_marked marked.old.items ++ map (λ w. (view w, false)) words.now) ++ marked_from true (map view rest.now)) }
{
    for word in words {
        marked.push(Marked {
            token: *word,
            is_field: false,
        })?;
    }
    push_marked(marked, true, rest)
}

fn is_sorted(words: &[Token]) -> bool
    ensures { result ≡ (nat_lt 1 (length words.now) && is_spelled (codes "FIND") (word_at 0 (map view words.now)) && is_spelled (codes "SORTED") (word_at 1 (map view words.now))) }
{
    words.len() > 1 && is_spelled(words[0], "FIND") && is_spelled(words[1], "SORTED")
}

/// The words of a statement: values follow =, and FIND SORTED.
pub fn mark<'a>(alloc: Global, words: &[Token<'a>]) -> Result<Vec<Marked<'a>>, AllocError>
    ensures { IfOk result (λ v. map view_marked v.items ≡ marked (map view words.now)) }
{
    let mut marked = Vec::new(alloc);
    if is_sorted(words) {
        push_sorted(&mut marked, &words[..2], &words[2..])?;
        return Ok(marked);
    }
    push_marked(&mut marked, false, words)?;
    Ok(marked)
}

/// Is one of these words a field word? The flag says that the first is in a value's place.
fn has_field_from(here: bool, words: &[Token]) -> bool
    ensures { result ≡ list_any (λ m. m.1) (marked_from here (map view words.now)) }
{
    match words.split_first() {
        None => false,
        Some((word, rest)) => {
            (here && is_field_word(*word)) || has_field_from(is_equals(*word), rest)
        }
    }
}

/// Is one of the words of a statement a field word?
pub fn has_field(words: &[Token]) -> bool
    ensures { result ≡ list_any (λ m. m.1) (marked (map view words.now)) }
{
    if is_sorted(words) {
        has_field_from(true, &words[2..])
    } else {
        has_field_from(false, words)
    }
}

pub fn unknown_word(text: &Text, word: &Marked) -> Option<ProgramCause>
    ensures { result ≡ first (unknown_word text.now (view_marked word.now)) }
{
    if word.is_field && text.field(text_in(word.token)).is_none() {
        Some(ProgramCause::UnknownField)
    } else {
        None
    }
}

/// The fault of the first field word that names no field.
#[tactic(auto, using(crate::proofs::Judged::first_then, crate::proofs::Judged::first_else), unfolding(crate::specs::Inside::Reading::unknown_verdict))]
pub fn unknown_field(text: &Text, words: &[Marked]) -> Option<ProgramCause>
    ensures { result ≡ unknown_verdict text.now (map view_marked words.now) }
{
    match words.split_first() {
        None => None,
        Some((word, rest)) => {
            match unknown_word(text, word) {
                Some(cause) => Some(cause),
                None => unknown_field(text, rest),
            }
        }
    }
}

fn as_it_is(alloc: Global, token: Token) -> Result<Word, AllocError>
    ensures { IfOk result (λ w. w ≡ as_it_is (view token.entry)) }
{
    match token {
        Token::Plain(text) => Ok(Word::Plain(Row::of(Vec::from_slice(alloc, text)?))),
        Token::Equals => Ok(Word::Equals),
        Token::Literal(text) => Ok(Word::Literal(Row::of(Vec::from_slice(alloc, text)?))),
    }
}

/// A word of a statement.
fn word_of(alloc: Global, text: &Text, word: &Marked) -> Result<Word, AllocError>
    ensures { IfOk result (λ w. w ≡ word_of (fields_in text.now) (view_marked word.now)) }
{
    if !word.is_field {
        return as_it_is(alloc, word.token);
    }
    match text.field(text_in(word.token)) {
        Some(field) => Ok(Word::Field(field)),
        None => as_it_is(alloc, word.token),
    }
}

/// The words of a statement.
pub fn words_of(alloc: Global, text: &Text, words: &[Marked]) -> Result<Vec<Word>, AllocError>
    ensures { IfOk result (λ v. v.items ≡ map (word_of (fields_in text.now)) (map view_marked words.now)) }
{
    let mut out = Vec::new(alloc);
    for word in words {
        out.push(word_of(alloc, text, word)?)?;
    }
    Ok(out)
}
