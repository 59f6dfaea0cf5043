//! How the statement that is due in a program is spelled: as its line has it, with the values of its fields.

ghost use Rattle.dbtg_going.specs.Spelled.{filled_words, line_of, spelled, words_with_fields};
ghost use Rattle.dbtg_program.specs.Going.{line_at, line_number};
ghost use Rattle.dbtg_script.specs.Lines.{lines};
ghost use Rattle.std.specs.Prelude.{◌≡◌, ◌++◌, IfOk, None, OnOk, if◌then◌else◌, map, option_map};

use dbtg_program::{Program, Sentence, State, Word, push_said_words};
use dbtg_script::Lines;
use std::alloc::{AllocError, Global};

/// The lines of a text.
pub fn lines_of<'a>(alloc: Global, text: &'a [u8]) -> Result<Vec<&'a [u8]>, AllocError>
    ensures { IfOk result (λ found. map (λ l. l.now) found.items ≡ lines text.now) }
{
    let mut found = Vec::new(alloc);
    let mut left = Lines { rest: text };
    while let Some(line) = left.next() {
        found.push(line)?;
    }
    Ok(found)
}

// The line with this number, from 1; nothing if there is none.
fn line_of<'a>(lines: &[&'a [u8]], number: u64) -> &'a [u8]
    ensures { result.now ≡ line_of (map (λ l. l.now) lines.now) number }
{
    match lines.get((number as usize).saturating_sub(1)) {
        Some(line) => *line,
        None => b"",
    }
}

// The number of the line in which the program is.
fn line_number(program: &Program, state: &State) -> u64
    ensures { result ≡ line_number program.now state.now }
{
    match program.lines.get(state.at()) {
        Some(line) => line.number,
        None => 0,
    }
}

// The words of a statement with fields.
fn filled_words(sentence: &Sentence) -> Option<&[Word]>
    ensures { option_map (λ words. words.now) result ≡ filled_words sentence.now }
{
    match sentence {
        Sentence::Filled(words) => Some(words.as_slice()),
        _ => None,
    }
}

// The words of the statement with fields at which the program stands, if it does.
fn words_with_fields<'a>(program: &'a Program, state: &State) -> Option<&'a [Word]>
    ensures { option_map (λ words. words.now) result ≡ words_with_fields (line_at program.now state.now) }
{
    match program.lines.get(state.at()) {
        Some(line) => filled_words(&line.sentence),
        None => None,
    }
}

/// Appends the statement that is due in a program with these lines, as it is spelled: as its line has it, or with its fields as the literals
/// of their values.
pub fn push_spelled(
    out: &mut Vec<u8>,
    program: &Program,
    lines: &[&[u8]],
    state: &State,
) -> Result<(), AllocError>
    ensures { OnOk result (out.new.items ≡ out.old.items ++ spelled program.now (map (λ l. l.now) lines.now) state.now) }
{
    match words_with_fields(program, state) {
        Some(words) => push_said_words(out, state, words),
        None => out.extend_from_slice(line_of(lines, line_number(program, state))),
    }
}
