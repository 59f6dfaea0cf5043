//! What the grammar wants in place of the word of a line that does not fit.

ghost use Rattle.dbtg_schema.specs.Texts.Forms.{labelled, labels, left_behind, starts};
ghost use Rattle.dbtg_script.specs.Inside.Automaton.{rest_of, view_kind};
ghost use Rattle.dbtg_script.specs.Lines.{trimmed};
ghost use Rattle.dbtg_script.specs.StatementGrammar.{fits, statement};
ghost use Rattle.dbtg_script.specs.Tokens.{tokens, view};
ghost use Rattle.dbtg_script.specs.Wanted.{in_words, name_in_words, things, value_in_words, wanted_in_line};
ghost use Rattle.std.specs.Prelude.{◌≡◌, ◌∷◌, ◌++◌, [], IfOk, OnOk, false, map};

use crate::automaton::{Kind, Start, State, follow};
use crate::faulty::push_word;
use crate::line::trimmed;
use crate::role::Role;
use crate::token::Tokens;
use crate::words::Words;
use dbtg_schema::{Picture, Schema};
use std::alloc::{AllocError, Global};

fn name_in_words(role: Role) -> &'static str
    ensures { result.now ≡ name_in_words role }
{
    match role {
        Role::AreaName => "an area",
        Role::RecordName | Role::TypeName => "a record type",
        Role::SetName | Role::SuppressSet => "a set",
        Role::ItemName => "an item",
        _ => "a name",
    }
}

fn value_in_words(picture: Option<Picture>) -> &'static str
    ensures { result.now ≡ value_in_words picture }
{
    match picture {
        None => "a number or a text in double quotes",
        Some(Picture::Number(_)) => "a number",
        Some(Picture::Text(_)) => "a text in double quotes",
    }
}

/// What can come in one place, given the picture of the item that was named last.
fn in_words(picture: Option<Picture>, start: Start) -> &'static str
    ensures { result.now ≡ in_words picture (view_kind start.kind) start.role }
{
    match start.kind {
        Kind::Key(keyword) => keyword.text(),
        Kind::OtherThan(_) | Kind::Name => name_in_words(start.role),
        Kind::Equals => "=",
        Kind::Signed => "a number",
        Kind::Keyed => "a key",
        Kind::Value => value_in_words(picture),
    }
}

/// The words that can come in this state.
fn starts_in_words(
    alloc: Global,
    picture: Option<Picture>,
    state: State,
) -> Result<Vec<&'static [u8]>, AllocError>
    ensures { IfOk result (λ list. map (λ thing. thing.now) list.items ≡ map (λ s. in_words picture s.kind s.role) (starts (rest_of state))) }
{
    let mut list = Vec::new(alloc);
    for start in state.wants() {
        list.push(in_words(picture, *start).as_bytes())?;
    }
    Ok(list)
}

/// What can come in this state.
fn things(
    alloc: Global,
    picture: Option<Picture>,
    state: State,
) -> Result<Vec<&'static [u8]>, AllocError>
    ensures { IfOk result (λ list. map (λ thing. thing.now) list.items ≡ things picture (rest_of state)) }
{
    let mut list = starts_in_words(alloc, picture, state)?;
    if !state.may_end() {
        return Ok(list);
    }
    list.push("the line's end".as_bytes())?;
    Ok(list)
}

/// Takes the words of a line as far as the grammar wants them, and gives the state after them.
fn stop_in<'a>(words: &mut Words<'a>, line: &'a [u8]) -> Result<State, AllocError>
    ensures words { OnOk result (words.new ≡ record { schema = words.old.schema; words = labels fits statement (tokens false line.now) }) }
    ensures state { IfOk result (λ state. rest_of state ≡ left_behind fits statement (tokens false line.now)) }
{
    words.clear();
    let mut state = State::Opening;
    let mut left = Tokens { rest: line };
    while let Some(token) = left.next() {
        match follow(state, token) {
            None => return Ok(state),
            Some(start) => {
                push_word(words, token, start.role)?;
                state = start.next;
            }
        }
    }
    Ok(state)
}

/// What the grammar wants in place of the first word of a statement's line that does not fit, or at the line's end: words as they are,
/// other things described. A line that is refused for fault 3, but not for a text that is not closed, has its fault there.
pub fn wanted_in_line<'a>(
    alloc: Global,
    schema: &'a Schema,
    line: &'a [u8],
) -> Result<Vec<&'static [u8]>, AllocError>
    ensures { IfOk result (λ list. map (λ thing. thing.now) list.items ≡ wanted_in_line schema.now (trimmed line.now)) }
{
    let mut words = Words::new(alloc, schema);
    let state = stop_in(&mut words, trimmed(line))?;
    things(alloc, words.picture(), state)
}
