//! Reading a program: the sentence of each line, or the first fault.

ghost use Rattle.dbtg_schema.specs.Lookups.{first};
ghost use Rattle.dbtg_script.specs.Lines.{ends_in_text, is_statement, lines};
ghost use Rattle.dbtg_program.specs.Faults.{refusal, too_long};
ghost use Rattle.dbtg_program.specs.Reading.{RefusesProgram, line_of, program, program_of};
ghost use Rattle.dbtg_program.specs.Sentences.{Holding as SeenHolding, sentences_of};
ghost use Rattle.dbtg_program.specs.Inside.Reading.{Refuses, Stands, at_line, line_said, line_verdict, lines_verdict, sentence_line, sentence_verdict, text_of, whole_verdict};
ghost use Rattle.dbtg_program.specs.declared.fault.Fault.{Fault as SeenFault};
ghost use Rattle.std.specs.Prelude.{◌≡◌, ◌&&◌, ◌++◌, ◌∷◌, ◌≤◌, [], IfErr, IfOk, MatchResult, None, OnOk, Some, false, length, map, nat_le, true};

use crate::fault::{LineFault, ProgramCause, ProgramFault};
use crate::program::{Line, Program};
use crate::statement::read_sentence;
use crate::text::Text;
use dbtg_schema::Schema;
use dbtg_script::{Cause, Lines, Token, ends_in_text, is_allowed, is_statement, trimmed};
use dbtg_unit::MOST_STATEMENTS;
use std::alloc::Global;

/// The first fault of a line as a whole, after this many sentences.
#[tactic(auto, unfolding(crate::specs::Inside::Reading::whole_verdict))]
fn whole_fault(at: usize, line: &[u8]) -> Option<ProgramCause>
    ensures { result ≡ whole_verdict at line.now }
{
    if MOST_STATEMENTS <= at && is_statement(line) {
        return Some(ProgramCause::AsInScript(Cause::TooMuch));
    }
    if !is_allowed(line) {
        return Some(ProgramCause::AsInScript(Cause::LineNotAllowed));
    }
    if ends_in_text(line) && is_statement(line) {
        return Some(ProgramCause::AsInScript(Cause::UnexpectedWord));
    }
    None
}

/// How many lines there are.
fn count(lines: &Vec<Line>) -> usize
    ensures { result ≡ length lines.now.items }
{
    lines.len()
}

/// Takes the next sentence.
fn take_sentence<'a>(
    alloc: Global,
    text: &Text<'a>,
    lines: &mut Vec<Line>,
    words: &mut Vec<Token<'a>>,
) -> Result<(), LineFault>
    ensures accepted { (l : SeenHolding) → Stands text.now (length lines.old.items) l → OnOk result (sentence_verdict text.now (length lines.old.items) l ≡ None) }
    ensures taken { (l : SeenHolding) → Stands text.now (length lines.old.items) l → OnOk result (lines.new.items ≡ lines.old.items ++ sentence_line text.now l ∷ []) }
    ensures refused { (l : SeenHolding) → Stands text.now (length lines.old.items) l → IfErr result (λ e. Refuses e (sentence_verdict text.now (length lines.old.items) l)) }
{
    let at = count(lines);
    if let Some(holding) = text.sentence(at) {
        let sentence = read_sentence(alloc, text, at, holding, words)?;
        lines.push(Line {
            number: holding.number,
            sentence,
        })?;
    }
    Ok(())
}

/// Takes a line: its sentence, if it holds one, is appended to those before it.
fn take_line<'a>(
    alloc: Global,
    text: &Text<'a>,
    lines: &mut Vec<Line>,
    words: &mut Vec<Token<'a>>,
    line: &[u8],
) -> Result<(), LineFault>
    ensures accepted { (l : SeenHolding) → (is_statement line.now ≡ true → Stands text.now (length lines.old.items) l) → OnOk result (line_verdict text.now (length lines.old.items) line.now l ≡ None) }
    ensures taken { (l : SeenHolding) → (is_statement line.now ≡ true → Stands text.now (length lines.old.items) l) → OnOk result (lines.new.items ≡ lines.old.items ++ line_said text.now line.now l) }
    ensures refused { (l : SeenHolding) → (is_statement line.now ≡ true → Stands text.now (length lines.old.items) l) → IfErr result (λ e. Refuses e (line_verdict text.now (length lines.old.items) line.now l)) }
{
    if let Some(cause) = whole_fault(count(lines), line) {
        return Err(LineFault::Refused(cause));
    }
    if is_statement(line) {
        return take_sentence(alloc, text, lines, words);
    }
    Ok(())
}

fn at_line(number: u64, fault: LineFault) -> ProgramFault
    ensures { result ≡ at_line number fault }
{
    match fault {
        LineFault::Refused(cause) => ProgramFault::Refused {
            line: number,
            cause,
        },
        LineFault::Memory => ProgramFault::Memory,
    }
}

/// The lines of a text whose names are known.
fn read_lines(alloc: Global, text: &Text, bytes: &[u8]) -> Result<Vec<Line>, ProgramFault>
    requires sentences { text.now.sentences ≡ sentences_of bytes.now }
    requires few { length bytes.now ≤ 1048576 }
    ensures accepted { OnOk result (lines_verdict text.now 0 1 (lines bytes.now) ≡ None) }
    ensures lines { IfOk result (λ v. v.items ≡ map (line_of text.now) text.now.sentences) }
    ensures refused { IfErr result (λ e. RefusesProgram e (lines_verdict text.now 0 1 (lines bytes.now))) }
{
    let mut lines = Vec::new(alloc);
    let mut words = Vec::new(alloc);
    let mut number: u64 = 1;
    let mut left = Lines { rest: bytes };
    while let Some(line) = left.next() {
        if let Err(fault) = take_line(alloc, text, &mut lines, &mut words, trimmed(line)) {
            return Err(at_line(number, fault));
        }
        number += 1;
    }
    Ok(lines)
}

/// Reads a program that is not too long.
fn read_short(alloc: Global, schema: &Schema, text: &[u8]) -> Result<Program, ProgramFault>
    requires { length text.now ≤ 1048576 }
    ensures accepted { OnOk result (lines_verdict (text_of schema.now text.now) 0 1 (lines text.now) ≡ None) }
    ensures program { IfOk result (λ p. p ≡ program_of (text_of schema.now text.now)) }
    ensures refused { IfErr result (λ e. RefusesProgram e (lines_verdict (text_of schema.now text.now) 0 1 (lines text.now))) }
{
    let gathered = Text::gather(alloc, schema, text)?;
    let lines = read_lines(alloc, &gathered, text)?;
    Ok(gathered.into_program(lines))
}

/// Reads a program of this schema. The text may hold any bytes. A refused text is refused for its first fault; `Memory` is
/// given if memory was refused before a fault was met, and never for a text that is too long.
pub fn read_program(alloc: Global, schema: &Schema, text: &[u8]) -> Result<Program, ProgramFault>
    ensures accepted { OnOk result (refusal schema.now text.now ≡ None) }
    ensures program { IfOk result (λ p. p ≡ program schema.now text.now) }
    ensures refused { IfErr result (λ e. RefusesProgram e (refusal schema.now text.now)) }
    ensures at_once { (fault : SeenFault) → first (too_long text.now) ≡ Some fault → MatchResult result (λ _. ⊥) (λ e. e ≡ ProgramFault.Refused fault.line fault.cause) }
{
    if text.len() > 1_048_576 {
        return Err(ProgramFault::Refused {
            line: 1,
            cause: ProgramCause::AsInScript(Cause::TooMuch),
        });
    }
    read_short(alloc, schema, text)
}
