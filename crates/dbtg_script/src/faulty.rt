//! The word of a line that its first fault is about.

ghost use Rattle.dbtg_schema.specs.Lookups.{first};
ghost use Rattle.dbtg_schema.specs.Texts.Forms.{labelled, start_with, starts};
ghost use Rattle.dbtg_script.specs.FaultyWord.{about, about_end, faulty_from, faulty_word};
ghost use Rattle.dbtg_script.specs.Inside.Automaton.{rest_of, view_start};
ghost use Rattle.dbtg_script.specs.Lines.{trimmed};
ghost use Rattle.dbtg_script.specs.StatementFaults.{said};
ghost use Rattle.dbtg_script.specs.StatementGrammar.{fits};
ghost use Rattle.dbtg_script.specs.Tokens.{Token as SeenToken, view};
ghost use Rattle.std.specs.Prelude.{◌≡◌, ◌∷◌, ◌++◌, List, [], IfOk, MatchResult, None, OnOk, Some, option_map};

use crate::automaton::{Start, State, follow};
use crate::checks::{end_fault, said};
use crate::fault::Cause;
use crate::line::{ends_in_text, trimmed};
use crate::queries::{Labelled, first_word};
use crate::role::Role;
use crate::token::{Token, Tokens};
use crate::words::Words;
use dbtg_schema::Schema;
use std::alloc::{AllocError, Global};

fn about<'a>(words: &Words<'a>, token: Token<'a>, role: Role) -> Option<Token<'a>>
    ensures { option_map view result ≡ about words.now.words (view token.entry) role }
{
    match role {
        Role::KindArea | Role::KindRecord | Role::KindSet => first_word(words.list(), Role::Name),
        Role::RecordWord => first_word(words.list(), Role::RecordName),
        _ => Some(token),
    }
}

fn about_end<'a>(words: &Words<'a>, cause: Cause) -> Option<Token<'a>>
    ensures { option_map view result ≡ about_end words.now.words cause }
{
    match cause {
        Cause::NotThere => first_word(words.list(), Role::RecordName),
        Cause::NotThisWay => None,
        _ => first_word(words.list(), Role::SortedValue),
    }
}

/// The word that a fault at the line's end is about.
fn faulty_at_end<'a>(words: &Words<'a>, state: State) -> Option<Token<'a>>
    ensures { option_map view result ≡ faulty_from words.now.schema words.now.words (rest_of state) [] }
{
    if !state.may_end() {
        return None;
    }
    match end_fault(words) {
        Some(cause) => about_end(words, cause),
        None => None,
    }
}

/// How to go on at a word without a fault; otherwise the word that its fault is about.
fn way_on<'a>(words: &Words<'a>, state: State, token: Token<'a>) -> Result<Start, Option<Token<'a>>>
    ensures { MatchResult result
        (λ start. (start_with fits (view token.entry) (starts (rest_of state)) ≡ Some (view_start start)) × (first (said words.now.schema words.now.words (view token.entry) start.role) ≡ None))
        (λ word. (left : List SeenToken) → faulty_from words.now.schema words.now.words (rest_of state) (view token.entry ∷ left) ≡ option_map view word) }
{
    match follow(state, token) {
        None => Err(Some(token)),
        Some(start) => {
            let names = words.named_by(token, start.role);
            match said(words, token, start.role, &names) {
                Some(_) => Err(about(words, token, start.role)),
                None => Ok(start),
            }
        }
    }
}

/// Adds a word with its role.
pub fn push_word<'a>(words: &mut Words<'a>, token: Token<'a>, role: Role) -> Result<(), AllocError>
    ensures { OnOk result (words.new ≡ record { schema = words.old.schema; words = words.old.words ++ labelled role (view token.entry) ∷ [] }) }
{
    let names = words.named_by(token, role);
    words.push(&Labelled { role, token }, &names)
}

/// The same for a line that was trimmed.
fn faulty_in<'a>(
    alloc: Global,
    schema: &'a Schema,
    line: &'a [u8],
) -> Result<Option<Token<'a>>, AllocError>
    ensures { IfOk result (λ word. option_map view word ≡ faulty_word schema.now line.now) }
{
    if ends_in_text(line) {
        return Ok(None);
    }
    let mut words = Words::new(alloc, schema);
    let mut state = State::Opening;
    let mut left = Tokens { rest: line };
    while let Some(token) = left.next() {
        match way_on(&words, state, token) {
            Err(word) => return Ok(word),
            Ok(start) => {
                push_word(&mut words, token, start.role)?;
                state = start.next;
            }
        }
    }
    Ok(faulty_at_end(&words, state))
}

/// The word that the first fault of a statement's line is about; none if the line ends too early, if a text is not closed, or
/// if the schema has no such way to find a record. What it says of a line without faults is of no use.
pub fn faulty_word<'a>(
    alloc: Global,
    schema: &'a Schema,
    line: &'a [u8],
) -> Result<Option<Token<'a>>, AllocError>
    ensures { IfOk result (λ word. option_map view word ≡ faulty_word schema.now (trimmed line.now)) }
{
    faulty_in(alloc, schema, trimmed(line))
}
