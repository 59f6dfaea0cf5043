//! Moves and turns as texts that are read back.

ghost use Rattle.dbtg_script.specs.Printing.WordTexts.{in_one_word, line_of, move_word, moves_words_text, onto_run, run_words, runs, times_text, turns_text};
ghost use Rattle.std.specs.Prelude.{◌≡◌, ◌++◌, IfOk, OnOk, map};

use crate::print::{push_marked_number, push_number};
use dbtg_unit::Move;
use std::alloc::{AllocError, Global};

fn in_one_word(one: Move, next: Move) -> bool
    ensures { result ≡ in_one_word one next }
{
    match (one, next) {
        (Move::Step(unit), Move::Step(other)) => unit == other,
        _ => false,
    }
}

fn push_times(out: &mut Vec<u8>, count: u64) -> Result<(), AllocError>
    ensures { OnOk result (out.new.items ≡ out.old.items ++ times_text count) }
{
    if count == 1 {
        return Ok(());
    }
    push_marked_number(out, b'*', count)
}

fn push_word(out: &mut Vec<u8>, one: Move, count: u64) -> Result<(), AllocError>
    ensures { OnOk result (out.new.items ≡ out.old.items ++ move_word one count) }
{
    match one {
        Move::Step(unit) => {
            push_number(out, unit as u64)?;
            push_times(out, count)
        }
        Move::Quit(unit) => push_marked_number(out, b'Q', unit as u64),
    }
}

/// The words of a move and of those after it, in one line.
fn push_line(out: &mut Vec<u8>, first: Move, rest: &[Move]) -> Result<(), AllocError>
    ensures { OnOk result (out.new.items ≡ out.old.items ++ line_of (run_words (onto_run first (runs rest.now)))) }
{
    let mut one = first;
    let mut count: u64 = 1;
    for next in rest {
        if in_one_word(one, *next) {
            count += 1;
        } else {
            push_word(out, one, count)?;
            out.push(b' ')?;
            one = *next;
            count = 1;
        }
    }
    push_word(out, one, count)?;
    out.push(b'\n')?;
    Ok(())
}

/// The text of a moves file that says these moves: consecutive steps of one unit are one word, each word is followed by a
/// space, and the last by a line feed. No moves are an empty text. `read_moves` reads the moves back from
/// it, if they are at most 1,000,000, of units from 1 to 99.
pub fn moves_words_text(alloc: Global, moves: &[Move]) -> Result<Vec<u8>, AllocError>
    ensures { IfOk result (λ text. text.items ≡ moves_words_text moves.now) }
{
    let mut out = Vec::new(alloc);
    if let Some((first, rest)) = moves.split_first() {
        push_line(&mut out, *first, rest)?;
    }
    Ok(out)
}

fn steps(alloc: Global, units: &[u8]) -> Result<Vec<Move>, AllocError>
    ensures { IfOk result (λ steps. steps.items ≡ map Move.Step units.now) }
{
    units.iter().map(|unit| Move::Step(*unit)).collect(alloc)
}

/// The text of a turns file that says these turns, each by its unit, written as the steps of a moves file. `read_turns` reads
/// the units back from it, if they are at most 1,000,000, from 1 to 99.
pub fn turns_text(alloc: Global, units: &[u8]) -> Result<Vec<u8>, AllocError>
    ensures { IfOk result (λ text. text.items ≡ turns_text units.now) }
{
    moves_words_text(alloc, steps(alloc, units)?.as_slice())
}
