//! What the shell replies to a line: answers, faults and currents, as texts.
ghost use Rattle.std.specs.List.{list_any};
ghost use Rattle.std.specs.Prelude.{◌≡◌, ◌-◌, ◌%◌, ◌≤◌, ◌<◌, [], ◌∷◌, ◌++◌, codes, decimal, IfOk, length, Some, option_and_then, option_map, slice_get};
ghost use Rattle.std.specs.Str.{bytes_eq};
ghost use Rattle.dbtg_script.specs.Printing.Appending.{Appends};
ghost use Rattle.dbtg_script.specs.Printing.Texts.{units_text};
ghost use Rattle.dbtg_step.specs.Core.Whole.{state_now};
ghost use Rattle.dbtg_session.specs.Replies.{IsFaultText, answer_page, answer_reply, cause_name, database_text, fault_page, help_words, hint_for, no_unit_text, quit_words, said_or, undone_text, unit_said, with_here};
ghost use Rattle.dbtg_session.specs.Sessions.{last_made};

use crate::session::Session;
use crate::words::unit_words;
use dbtg_explain::{
    CAUSES, Kind, explained, fault_topic, field, line_at, meaning_of, row_with, said_of_word,
    status_topic,
};
use dbtg_schema::Schema;
use dbtg_script::{
    Cause, behind, image_text, in_front, push_answer, push_named_answer, push_number, units_text,
};
use dbtg_unit::Entry;
use std::alloc::{AllocError, Global};

/// The name of the cause of a refusal, as the command explain names it.
fn cause_name(status: u16) -> Option<&'static [u8]>
    ensures { option_map (λ name. name.now) result ≡ cause_name (status % 100) }
{
    let row = row_with(CAUSES, status % 100)?;
    Some(field(row, 1))
}

/// Appends the answer of an entry, as `replay` prints it; a refusal with the name of its cause.
pub fn push_answer_reply(
    out: &mut Vec<u8>,
    schema: &Schema,
    entry: &Entry,
) -> Result<(), AllocError>
    ensures { Appends (answer_reply schema.now entry.now) out.old result out.new }
{
    let status = entry.answer.status.code(&entry.statement);
    if status == 0 {
        return push_answer(out, schema, entry);
    }
    match cause_name(status) {
        Some(name) => push_named_answer(out, schema, entry, name),
        None => push_answer(out, schema, entry),
    }
}

fn asks_to_quit(word: &[u8]) -> bool
    ensures { result ≡ list_any (bytes_eq word.now) quit_words }
{
    word == b"quit".as_slice()
        || word == b"exit".as_slice()
        || word == b"QUIT".as_slice()
        || word == b"EXIT".as_slice()
        || word == b"q".as_slice()
}

fn asks_for_help(word: &[u8]) -> bool
    ensures { result ≡ list_any (bytes_eq word.now) help_words }
{
    word == b"help".as_slice() || word == b"HELP".as_slice() || word == b"?".as_slice()
}

// The command that was meant, if it was typed without its period.
fn hint_for(line: &[u8]) -> &'static [u8]
    ensures { result.now ≡ hint_for line.now }
{
    let word = in_front(in_front(line, b'\r'), b' ');
    if asks_to_quit(word) {
        b"; .quit ends the shell"
    } else if asks_for_help(word) {
        b"; .help shows what can be typed"
    } else {
        b""
    }
}

// The line of a fault: its number; what is said of the word, otherwise the meaning; a hint.
fn fault_line(
    alloc: Global,
    number: u8,
    meaning: &[u8],
    word: &[u8],
    hint: &[u8],
) -> Result<Vec<u8>, AllocError>
    ensures { IfOk result (λ out. out.items ≡ codes "fault " ++ decimal number ++ codes ": " ++ said_or meaning.now word.now ++ hint.now ++ 10 ∷ []) }
{
    let mut out = Vec::from_slice(alloc, b"fault ")?;
    push_number(&mut out, number as u64)?;
    out.extend_from_slice(b": ")?;
    out.extend_from_slice(if word.is_empty() { meaning } else { word })?;
    out.extend_from_slice(hint)?;
    out.push(b'\n')?;
    Ok(out)
}

/// The fault of a line: its number, and what is said of the word that is at fault, or the meaning of the fault.
pub fn fault_reply(
    alloc: Global,
    schema: &Schema,
    line: &[u8],
    cause: Cause,
) -> Result<Vec<u8>, AllocError>
    ensures { IfOk result (λ out. IsFaultText schema.now line.now cause out.items) }
{
    let number = cause.number();
    let meaning = meaning_of(Kind::Script, number);
    let word = said_of_word(alloc, schema, line_at(line, 1), number)?;
    fault_line(alloc, number, meaning, word.as_slice(), hint_for(line))
}

// The page of a status, with what is said of the refusal as its second line.
fn with_here(alloc: Global, said: &[u8], page: Vec<u8>) -> Result<Vec<u8>, AllocError>
    ensures { IfOk result (λ out. out.items ≡ with_here said.now page.items) }
{
    if said.is_empty() {
        return Ok(page);
    }
    let mut out = Vec::from_slice(alloc, in_front(page.as_slice(), b'\n'))?;
    out.extend_from_slice(b"\nHere: ")?;
    out.extend_from_slice(said)?;
    out.push(b'\n')?;
    out.extend_from_slice(behind(page.as_slice(), b'\n'))?;
    Ok(out)
}

/// What `explain` says of a fault of a line, if there is one of this number.
pub fn fault_page(alloc: Global, number: u8) -> Result<Option<Vec<u8>>, AllocError>
    ensures { IfOk result (λ page. option_map (λ p. p.items) page ≡ fault_page number) }
{
    match fault_topic(Kind::Script, number as u16) {
        Some(topic) => Ok(Some(explained(alloc, &topic)?)),
        None => Ok(None),
    }
}

/// What `explain` says of the status of the last answer, if there is one, with what was in the way of its statement.
pub fn answer_page(alloc: Global, session: &Session<'_>) -> Result<Option<Vec<u8>>, AllocError>
    ensures { IfOk result (λ page. option_map (λ p. p.items) page ≡ option_and_then (answer_page session.now.making) (last_made session.now)) }
{
    let Some(entry) = session.last() else {
        return Ok(None);
    };
    let Some(topic) = status_topic(entry.answer.status.code(&entry.statement)) else {
        return Ok(None);
    };
    let said = session.last_said()?;
    let page = explained(alloc, &topic)?;
    Ok(Some(with_here(alloc, said.as_slice(), page)?))
}

/// The line that says which numbers units have, for a number that no unit has.
pub fn no_unit_reply(alloc: Global, units: usize) -> Result<Vec<u8>, AllocError>
    ensures { IfOk result (λ out. out.items ≡ no_unit_text units) }
{
    let mut out = Vec::from_slice(
        alloc,
        b"there is no such unit: they are numbered from 1 to ",
    )?;
    push_number(&mut out, units as u64)?;
    out.push(b'\n')?;
    Ok(out)
}

/// What is printed when the last statement is taken back.
pub fn undone_reply(alloc: Global, session: &Session<'_>) -> Result<Vec<u8>, AllocError>
    ensures { IfOk result (λ out. out.items ≡ undone_text session.now.making.schema (last_made session.now)) }
{
    match session.last() {
        None => Vec::from_slice(alloc, b"there is nothing to take back\n"),
        Some(entry) => {
            let mut out = Vec::from_slice(alloc, b"taken back: ")?;
            push_answer(&mut out, session.schema(), entry)?;
            Ok(out)
        }
    }
}

/// The records, the lists of the sets, the least free numbers, and who has each area open.
pub fn database_reply(alloc: Global, session: &Session<'_>) -> Result<Vec<u8>, AllocError>
    ensures { IfOk result (λ out. out.items ≡ database_text session.now.making) }
{
    image_text(alloc, session.schema(), &session.image()?)
}

/// The currents of all units.
pub fn units_reply(alloc: Global, session: &Session<'_>) -> Result<Vec<u8>, AllocError>
    ensures { IfOk result (λ out. out.items ≡ units_text session.now.making.schema (state_now session.now.making).units) }
{
    units_text(alloc, session.schema(), session.units())
}

/// What is current of the unit with this number, in words.
pub fn unit_reply(alloc: Global, session: &Session<'_>, unit: u8) -> Result<Vec<u8>, AllocError>
    requires low { 0 < unit }
    requires high { unit ≤ session.now.making.units }
    ensures { IfOk result (λ out. unit_said session.now.making unit ≡ Some out.items) }
{
    let image = session.image()?;
    let shown = &session.units()[unit as usize - 1];
    unit_words(alloc, session.schema(), &image, shown)
}
