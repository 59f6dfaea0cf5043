//! What the grammar wants in place of the word of a schema text that does not fit.

ghost use Rattle.dbtg_schema.specs.Inside.Automaton.{rest_of, view_kind};
ghost use Rattle.dbtg_schema.specs.Texts.Forms.{left_behind, starts};
ghost use Rattle.dbtg_schema.specs.Texts.SchemaGrammar.{fits, schema};
ghost use Rattle.dbtg_schema.specs.Texts.Wanted.{in_words, name_in_words, things, wanted_in_schema};
ghost use Rattle.dbtg_schema.specs.Texts.Words.{text_words};
ghost use Rattle.std.specs.Prelude.{◌≡◌, ◌≤◌, IfOk, length, map};

use crate::automaton::{Keyword, Kind, Start, State, follow};
use crate::limits::SCHEMA_BYTES;
use crate::reader::is_noise;
use crate::role::Role;
use crate::scanner::Scanner;
use std::alloc::{AllocError, Global};

fn name_in_words(role: Role) -> &'static str
    ensures { result.now ≡ name_in_words role }
{
    match role {
        Role::WithinArea => "an area",
        Role::OwnerName | Role::MemberName => "a record type",
        Role::ViaSet => "a set",
        Role::CalcItem | Role::KeyItem => "an item",
        _ => "a name",
    }
}

/// What can come in one place.
fn in_words(start: Start) -> &'static str
    ensures { result.now ≡ in_words (view_kind start.kind) start.role }
{
    match start.kind {
        Kind::Key(Keyword::Period) => "a period",
        Kind::Key(keyword) => keyword.text(),
        Kind::Name => name_in_words(start.role),
        Kind::Picture => "a picture",
    }
}

/// The words that can come in this state.
fn starts_in_words(alloc: Global, state: State) -> Result<Vec<&'static [u8]>, AllocError>
    ensures { IfOk result (λ list. map (λ thing. thing.now) list.items ≡ map (λ s. in_words s.kind s.role) (starts (rest_of state))) }
{
    let mut list = Vec::new(alloc);
    for start in state.wants() {
        list.push(in_words(*start).as_bytes())?;
    }
    Ok(list)
}

/// What can come in this state.
fn things(alloc: Global, state: State) -> Result<Vec<&'static [u8]>, AllocError>
    ensures { IfOk result (λ list. map (λ thing. thing.now) list.items ≡ things (rest_of state)) }
{
    let mut list = starts_in_words(alloc, state)?;
    if !state.may_end() {
        return Ok(list);
    }
    list.push("the end of the text".as_bytes())?;
    Ok(list)
}

/// The state after the words of a text, as far as the grammar wants them.
fn stop_in(text: &[u8]) -> State
    requires { length text.now ≤ SCHEMA_BYTES }
    ensures { rest_of result ≡ left_behind fits schema (text_words text.now) }
{
    let mut state = State::Opening;
    let mut scanner = Scanner::new(text);
    while let Some(word) = scanner.scan() {
        if !is_noise(word) {
            match follow(state, word) {
                Some(start) => state = start.next,
                None => return state,
            }
        }
    }
    state
}

/// What the grammar wants in place of the first word that does not fit, or at the text's end: words as they are, other things described. A
/// text that is refused for fault 3 has its fault there.
pub fn wanted_in_schema(alloc: Global, text: &[u8]) -> Result<Vec<&'static [u8]>, AllocError>
    ensures { IfOk result (λ list. map (λ thing. thing.now) list.items ≡ wanted_in_schema text.now) }
{
    if text.len() > SCHEMA_BYTES {
        return Ok(Vec::new(alloc));
    }
    things(alloc, stop_in(text))
}
