//! Reading a trace: what each line says, or the first fault.

ghost use Rattle.dbtg_schema.specs.Lists.{Lists};
ghost use Rattle.dbtg_schema.specs.Lookups.{first};
ghost use Rattle.dbtg_schema.specs.Sound.{IsSound};
ghost use Rattle.dbtg_script.specs.LineCache.{IsCached, IsRead};
ghost use Rattle.dbtg_script.specs.Lines.{is_statement, trimmed};
ghost use Rattle.dbtg_script.specs.StatementFaults.{count_after};
ghost use Rattle.dbtg_script.specs.Statements.{line_statement};
ghost use Rattle.dbtg_trace.specs.Faults.{refusal, whole_faults};
ghost use Rattle.dbtg_trace.specs.Answers.{answer_in};
ghost use Rattle.dbtg_trace.specs.Inside.AnswerCache.{AreSaid, AreCached};
ghost use Rattle.dbtg_trace.specs.Inside.Reading.{IsToldAtOnce, Refuses, at_line, entry_verdict, in_entry, line_verdict, part_verdict, statements_in};
ghost use Rattle.dbtg_trace.specs.Parts.{is_unit};
ghost use Rattle.dbtg_trace.specs.Reading.{RefusesTrace, entry_faults_at_once, faults_at_once, line_faults_at_once, part_faults_at_once};
ghost use Rattle.dbtg_trace.specs.Traces.{entry_of, line_entry, trace};
ghost use Rattle.dbtg_trace.specs.declared.fault.Fault.{Fault as SeenFault};
ghost use Rattle.dbtg_unit.specs.Database.Statements.Fits.{fits};
ghost use Rattle.dbtg_unit.specs.declared.statement.Statement.{Statement as SaidStatement};
ghost use Rattle.std.specs.Prelude.{◌≡◌, ◌++◌, ◌∷◌, [], IfErr, IfOk, IfSome, List, MatchResult, None, OnErr, OnOk, Some, false, length, true};
ghost use Rattle.std.specs.List.{list_all};

use crate::answer::answer_in;
use crate::answer_cache::AnswerCache;
use crate::fault::{EntryFault, TraceCause, TraceFault};
use crate::parts::{halves, unit_named};
use crate::traced::{Said, Traced};
use dbtg_schema::Schema;
use dbtg_script::{
    Cause, LineCache, LineFault, Lines, is_allowed, is_printable, is_statement, read_script_line,
    trimmed,
};
use dbtg_unit::Statement;
use std::alloc::{AllocError, Global};

/// How many statements a trace has at most: as many as eight scripts.
const STATEMENTS: usize = 524_280;

/// How many bytes a trace has at most.
const BYTES: usize = 67_108_864;

/// A line without what is dropped at its end, and its number in the text.
#[derive(Clone, Copy)]
struct NumberedLine<'a> {
    number: u64,
    text: &'a [u8],
}

/// What the lines read so far say, and the script lines and the answers that are kept from them.
#[derive(Drop)]
struct ReadSoFar<'a> {
    cache: LineCache<'a>,
    answers: AnswerCache<'a>,
    entries: Vec<Traced>,
}

/// The fault of a part of a line, which is read as a line of a script.
fn in_entry(fault: LineFault) -> EntryFault
    ensures { result ≡ in_entry fault }
{
    match fault {
        LineFault::Refused(cause) => EntryFault::Refused(TraceCause::AsInScript(cause)),
        LineFault::Memory => EntryFault::Memory,
    }
}

/// The statement of a line of a script, if the line was read before.
fn said_again(so_far: &ReadSoFar, line: &[u8]) -> Result<Option<Statement>, AllocError>
    ensures says { (schema : Lists) → IsCached schema (statements_in so_far.now.entries.items) so_far.now.cache.places → IfOk result (λ found. IfSome found (λ s. IsRead schema (s ∷ []) line.now 0)) }
    ensures memory { (schema : Lists) → IsCached schema (statements_in so_far.now.entries.items) so_far.now.cache.places → OnErr result ((s : SaidStatement) × IsRead schema (s ∷ []) line.now 0) }
{
    let Some(at) = so_far.cache.find(line) else {
        return Ok(None);
    };
    match so_far.entries.get(at) {
        None => Ok(None),
        Some(entry) => Ok(Some(entry.statement.copy()?)),
    }
}

/// The same where the line is read anew; then it is kept as that of the next entry.
fn read_new<'a>(
    alloc: Global,
    schema: &Schema,
    so_far: &mut ReadSoFar<'a>,
    part: &'a [u8],
) -> Result<Statement, EntryFault>
    requires { IsCached schema.now (statements_in so_far.old.entries.items) so_far.old.cache.places }
    ensures accepted { OnOk result (part_verdict schema.now part.now ≡ None) }
    ensures statement { IfOk result (λ s. line_statement schema.now (trimmed part.now) ≡ Some s) }
    ensures cache { IfOk result (λ s. IsCached schema.now (statements_in so_far.old.entries.items ++ s ∷ []) so_far.new.cache.places) }
    ensures entries { so_far.new.entries.items ≡ so_far.old.entries.items }
    ensures answers { so_far.new.answers.places ≡ so_far.old.answers.places }
    ensures fitting { IsSound schema.now → IfOk result (λ s. fits schema.now s ≡ true) }
    ensures refused { IfErr result (λ e. Refuses e (part_verdict schema.now part.now)) }
    ensures at_once { IsToldAtOnce (part_faults_at_once schema.now part.now) result }
{
    if !is_statement(trimmed(part)) {
        return Err(EntryFault::Refused(TraceCause::AsInScript(Cause::NoStatementWord)));
    }
    match read_script_line(alloc, schema, 0, part) {
        Err(fault) => Err(in_entry(fault)),
        Ok(None) => Err(EntryFault::Refused(TraceCause::AsInScript(Cause::NoStatementWord))),
        Ok(Some(statement)) => {
            so_far.cache.note(trimmed(part), so_far.entries.len());
            Ok(statement)
        }
    }
}

/// The statement of what stands between a unit and an arrow: it is a line of a script, and has to hold one.
fn read_part<'a>(
    alloc: Global,
    schema: &Schema,
    so_far: &mut ReadSoFar<'a>,
    part: &'a [u8],
) -> Result<Statement, EntryFault>
    requires { IsCached schema.now (statements_in so_far.old.entries.items) so_far.old.cache.places }
    ensures accepted { OnOk result (part_verdict schema.now part.now ≡ None) }
    ensures statement { IfOk result (λ s. line_statement schema.now (trimmed part.now) ≡ Some s) }
    ensures cache { IfOk result (λ s. IsCached schema.now (statements_in so_far.old.entries.items ++ s ∷ []) so_far.new.cache.places) }
    ensures entries { so_far.new.entries.items ≡ so_far.old.entries.items }
    ensures answers { so_far.new.answers.places ≡ so_far.old.answers.places }
    ensures fitting { IsSound schema.now → IfOk result (λ s. fits schema.now s ≡ true) }
    ensures refused { IfErr result (λ e. Refuses e (part_verdict schema.now part.now)) }
    ensures at_once { IsToldAtOnce (part_faults_at_once schema.now part.now) result }
{
    match said_again(so_far, trimmed(part))? {
        Some(again) => Ok(again),
        None => read_new(alloc, schema, so_far, part),
    }
}

/// The answer that is written after an arrow: a copy, if the same bytes were read before.
fn read_answer(
    alloc: Global,
    schema: &Schema,
    so_far: &ReadSoFar,
    answer: &[u8],
) -> Result<Option<Said>, AllocError>
    requires { AreSaid schema.now so_far.now.entries.items so_far.now.answers.places }
    ensures { IfOk result (λ found. found ≡ answer_in schema.now answer.now) }
{
    let Some(at) = so_far.answers.find(answer) else {
        return answer_in(alloc, schema, answer);
    };
    match so_far.entries.get(at) {
        None => answer_in(alloc, schema, answer),
        Some(entry) => Ok(Some(entry.said.copy()?)),
    }
}

/// What a line that holds a statement says.
fn read_entry<'a>(
    alloc: Global,
    schema: &Schema,
    units: u8,
    so_far: &mut ReadSoFar<'a>,
    line: NumberedLine<'a>,
) -> Result<Traced, EntryFault>
    requires { AreCached schema.now so_far.old.entries.items so_far.old.cache.places so_far.old.answers.places }
    ensures accepted { OnOk result (entry_verdict schema.now units line.entry.text.now ≡ None) }
    ensures cache { IfOk result (λ t. IsCached schema.now (statements_in so_far.old.entries.items ++ t.statement ∷ []) so_far.new.cache.places) }
    ensures said { IfOk result (λ t. AreSaid schema.now (so_far.old.entries.items ++ t ∷ []) so_far.new.answers.places) }
    ensures entries { so_far.new.entries.items ≡ so_far.old.entries.items }
    ensures entry { IfOk result (λ t. entry_of schema.now units line.entry.number line.entry.text.now ≡ Some t) }
    ensures fitting { IsSound schema.now → IfOk result (λ t. fits schema.now t.statement ≡ true) }
    ensures unit { IfOk result (λ t. is_unit units t.unit ≡ true) }
    ensures refused { IfErr result (λ e. Refuses e (entry_verdict schema.now units line.entry.text.now)) }
    ensures at_once { IsToldAtOnce (entry_faults_at_once schema.now units line.entry.text.now) result }
{
    let Some(unit) = unit_named(units, line.text) else {
        return Err(EntryFault::Refused(TraceCause::NoUnit));
    };
    let Some((part, answer)) = halves(line.text) else {
        return Err(EntryFault::Refused(TraceCause::NoArrow));
    };
    let statement = read_part(alloc, schema, so_far, part)?;
    match read_answer(alloc, schema, so_far, answer)? {
        None => Err(EntryFault::Refused(TraceCause::NoAnswer)),
        Some(said) => {
            so_far.answers.note(answer, so_far.entries.len());
            Ok(Traced {
                line: line.number,
                unit,
                statement,
                said,
            })
        }
    }
}

/// The first fault of a line as a whole, after `count` statements.
fn whole_fault(line: &[u8], count: usize) -> Option<TraceCause>
    ensures { result ≡ first (whole_faults count line.now) }
{
    if !is_statement(line) {
        if is_allowed(line) {
            return None;
        }
        return Some(TraceCause::AsInScript(Cause::LineNotAllowed));
    }
    if STATEMENTS <= count {
        return Some(TraceCause::AsInScript(Cause::TooMuch));
    }
    if is_printable(line) {
        None
    } else {
        Some(TraceCause::AsInScript(Cause::LineNotAllowed))
    }
}

/// Takes a line: what it says is appended to what the earlier lines say.
fn take_line<'a>(
    alloc: Global,
    schema: &Schema,
    units: u8,
    so_far: &mut ReadSoFar<'a>,
    line: NumberedLine<'a>,
) -> Result<(), EntryFault>
    requires { AreCached schema.now so_far.old.entries.items so_far.old.cache.places so_far.old.answers.places }
    ensures kept { OnOk result (AreCached schema.now so_far.new.entries.items so_far.new.cache.places so_far.new.answers.places) }
    ensures accepted { OnOk result (line_verdict schema.now units (length so_far.old.entries.items) line.entry.text.now ≡ None) }
    ensures taken { OnOk result (so_far.new.entries.items ≡ so_far.old.entries.items ++ line_entry schema.now units line.entry.number line.entry.text.now) }
    ensures fitting { IsSound schema.now → OnOk result (list_all (λ t. fits schema.now t.statement) (line_entry schema.now units line.entry.number line.entry.text.now) ≡ true) }
    ensures counted { OnOk result (length so_far.new.entries.items ≡ count_after (length so_far.old.entries.items) line.entry.text.now) }
    ensures units { OnOk result (list_all (λ t. is_unit units t.unit) (line_entry schema.now units line.entry.number line.entry.text.now) ≡ true) }
    ensures refused { IfErr result (λ e. Refuses e (line_verdict schema.now units (length so_far.old.entries.items) line.entry.text.now)) }
    ensures at_once { IsToldAtOnce (line_faults_at_once schema.now units (length so_far.old.entries.items) line.entry.text.now) result }
    ensures note { is_statement line.entry.text.now ≡ false → IfErr result (λ e. e ≡ EntryFault.Memory → ⊥) }
{
    if let Some(cause) = whole_fault(line.text, so_far.entries.len()) {
        return Err(EntryFault::Refused(cause));
    }
    if !is_statement(line.text) {
        return Ok(());
    }
    match read_entry(alloc, schema, units, so_far, line) {
        Err(fault) => Err(fault),
        Ok(entry) => {
            so_far.entries.push(entry)?;
            Ok(())
        }
    }
}

fn at_line(number: u64, fault: EntryFault) -> TraceFault
    ensures { result ≡ at_line number fault }
{
    match fault {
        EntryFault::Refused(cause) => TraceFault::Refused {
            line: number,
            cause,
        },
        EntryFault::Memory => TraceFault::Memory,
    }
}

/// Reads a trace of a schema and this many units: what it says line by line, in the order of the lines. The text may hold any bytes.
/// A refused text is refused for its first fault; `Memory` is given if memory was refused before a fault was met. So it is
/// never given for a text that is too long, nor for one with a fault in a line before its first statement, or in the unit, the
/// arrow or the first word of that statement.
pub fn read_trace(
    alloc: Global,
    schema: &Schema,
    units: u8,
    text: &[u8],
) -> Result<Vec<Traced>, TraceFault>
    ensures accepted { OnOk result (refusal schema.now units text.now ≡ None) }
    ensures entries { IfOk result (λ v. v.items ≡ trace schema.now units text.now) }
    ensures fitting { IsSound schema.now → IfOk result (λ v. list_all (λ t. fits schema.now t.statement) v.items ≡ true) }
    ensures units { IfOk result (λ v. list_all (λ t. is_unit units t.unit) v.items ≡ true) }
    ensures refused { IfErr result (λ e. RefusesTrace e (refusal schema.now units text.now)) }
    ensures at_once { (fault : SeenFault) → first (faults_at_once schema.now units text.now) ≡ Some fault → MatchResult result (λ _. ⊥) (λ e. e ≡ TraceFault.Refused fault.line fault.cause) }
{
    if text.len() > BYTES {
        return Err(TraceFault::Refused {
            line: 1,
            cause: TraceCause::AsInScript(Cause::TooMuch),
        });
    }
    let mut so_far = ReadSoFar {
        cache: LineCache::none(),
        answers: AnswerCache::none(),
        entries: Vec::new(alloc),
    };
    let mut number: u64 = 1;
    let mut left = Lines { rest: text };
    while let Some(line) = left.next() {
        let line = NumberedLine {
            number,
            text: trimmed(line),
        };
        if let Err(fault) = take_line(alloc, schema, units, &mut so_far, line) {
            return Err(at_line(number, fault));
        }
        number += 1;
    }
    let ReadSoFar {
        cache: _,
        answers: _,
        entries,
    } = so_far;
    Ok(entries)
}
