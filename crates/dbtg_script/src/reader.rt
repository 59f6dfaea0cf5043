//! Reading a script: the statement of each line, or the first fault.

ghost use Rattle.dbtg_schema.specs.Texts.Forms.{labels};
ghost use Rattle.dbtg_script.specs.Inside.Automaton.{rest_of};
ghost use Rattle.dbtg_schema.specs.Lookups.{first};
ghost use Rattle.dbtg_schema.specs.Lists.{Lists};
ghost use Rattle.dbtg_script.specs.Inside.LineCache.{Says};
ghost use Rattle.dbtg_script.specs.LineCache.{IsCached};
ghost use Rattle.dbtg_script.specs.Lines.{ends_in_text, is_statement, trimmed};
ghost use Rattle.dbtg_script.specs.Reading.{IsToldAtOnce, Refuses, RefusesScript, faults_at, faults_at_once, first_word_faults, script_faults_at_once, verdict};
ghost use Rattle.dbtg_script.specs.Inside.Reading.{MayTakeMemory, at_line};
ghost use Rattle.dbtg_script.specs.StatementFaults.{line_faults, refusal, statement_faults, when};
ghost use Rattle.dbtg_script.specs.Statements.{line_statement, prepend, script, statement_of};
ghost use Rattle.dbtg_script.specs.StatementGrammar.{fits, statement};
ghost use Rattle.dbtg_script.specs.Tokens.{Token as SeenToken, tokens, view};
ghost use Rattle.std.specs.Prelude.{◌≡◌, ◌<◌, ◌∷◌, ◌++◌, ℕ, List, [], None, IfErr, IfOk, IfSome, MatchResult, OnErr, OnOk, Some, false, true, length};
ghost use Rattle.std.specs.List.{list_all};
ghost use Rattle.dbtg_schema.specs.Sound.{IsSound};
ghost use Rattle.dbtg_script.specs.declared.fault.Fault.{Fault as SeenFault};
ghost use Rattle.dbtg_unit.specs.Database.Statements.Fits.{fits as statement_fits};

use crate::automaton::{State, follow};
use crate::checks::{at_other, end_fault, said};
use crate::fault::{Cause, LineFault, ScriptFault};
use crate::limits::SCRIPT_BYTES;
use crate::line::{Lines, ends_in_text, is_allowed, is_statement, trimmed};
use crate::line_cache::LineCache;
use crate::queries::Labelled;
use crate::statement::statement_of;
use crate::token::{Token, Tokens};
use crate::usual::usual_statement;
use crate::words::Words;
use dbtg_schema::Schema;
use dbtg_unit::{MOST_STATEMENTS, Statement};
use std::alloc::{AllocError, Global};

/// Takes the next word: gives the state after it, or the fault at it.
pub fn take<'a>(words: &mut Words<'a>, state: State, token: Token<'a>) -> Result<State, LineFault>
    ensures schema { OnOk result (words.new.schema ≡ words.old.schema) }
    ensures reached { (left : List SeenToken) → MatchResult result
        (λ next. verdict words.old.schema words.old.words (rest_of state) (view token.entry ∷ left) ≡ verdict words.old.schema words.new.words (rest_of next) left)
        (λ e. Refuses e (verdict words.old.schema words.old.words (rest_of state) (view token.entry ∷ left))) }
    ensures faulty { IsToldAtOnce (faults_at words.old.schema words.old.words (rest_of state) (view token.entry)) result }
    ensures labels { IfOk result (λ next. (left : List SeenToken) → words.old.words ++ labels fits (rest_of state) (view token.entry ∷ left) ≡ words.new.words ++ labels fits (rest_of next) left) }
{
    match follow(state, token) {
        None => Err(LineFault::Refused(at_other(words))),
        Some(start) => {
            let labelled = Labelled {
                role: start.role,
                token,
            };
            let names = words.named_by(token, start.role);
            if let Some(cause) = said(words, token, start.role, &names) {
                return Err(LineFault::Refused(cause));
            }
            words.push(&labelled, &names)?;
            Ok(start.next)
        }
    }
}

#[tactic(auto, unfolding(crate::specs::Reading::verdict))]
pub fn end_of(words: &Words, state: State) -> Option<Cause>
    ensures { result ≡ verdict words.now.schema words.now.words (rest_of state) [] }
{
    if state.may_end() {
        end_fault(words)
    } else {
        Some(Cause::UnexpectedWord)
    }
}

/// Reads the words of a line that holds a statement, with their roles; they replace the earlier ones.
fn read_words<'a>(words: &mut Words<'a>, line: &'a [u8]) -> Result<(), LineFault>
    ensures schema { OnOk result (words.new.schema ≡ words.old.schema) }
    ensures accepted { OnOk result (verdict words.old.schema [] statement (tokens false line.now) ≡ None) }
    ensures words { OnOk result (words.new.words ≡ labels fits statement (tokens false line.now)) }
    ensures refused { IfErr result (λ e. Refuses e (verdict words.old.schema [] statement (tokens false line.now))) }
    ensures at_once { IsToldAtOnce (first_word_faults words.old.schema (tokens false line.now)) result }
{
    words.clear();
    let mut state = State::Opening;
    let mut left = Tokens { rest: line };
    while let Some(token) = left.next() {
        state = take(words, state, token)?;
    }
    match end_of(words, state) {
        Some(cause) => Err(LineFault::Refused(cause)),
        None => Ok(()),
    }
}

/// The statement of a line that holds one.
fn read_statement<'a>(
    alloc: Global,
    words: &mut Words<'a>,
    line: &'a [u8],
) -> Result<Statement, LineFault>
    ensures schema { OnOk result (words.new.schema ≡ words.old.schema) }
    ensures accepted { OnOk result (first (statement_faults words.old.schema line.now) ≡ None) }
    ensures statement { IfOk result (λ s. s ≡ statement_of words.old.schema (labels fits statement (tokens false line.now))) }
    ensures refused { IfErr result (λ e. Refuses e (first (statement_faults words.old.schema line.now))) }
    ensures at_once { IsToldAtOnce (when (ends_in_text false line.now) Cause.UnexpectedWord ++ first_word_faults words.old.schema (tokens false line.now)) result }
{
    if ends_in_text(line) {
        return Err(LineFault::Refused(Cause::UnexpectedWord));
    }
    match read_words(words, line) {
        Err(fault) => Err(fault),
        Ok(()) => Ok(statement_of(alloc, words)?),
    }
}

/// The statement of a line after `count` statements, if it holds one.
fn read_line<'a>(
    alloc: Global,
    words: &mut Words<'a>,
    count: usize,
    line: &'a [u8],
) -> Result<Option<Statement>, LineFault>
    ensures schema { OnOk result (words.new.schema ≡ words.old.schema) }
    ensures accepted { OnOk result (first (line_faults words.old.schema count line.now) ≡ None) }
    ensures statement { IfOk result (λ s. s ≡ line_statement words.old.schema line.now) }
    ensures refused { IfErr result (λ e. Refuses e (first (line_faults words.old.schema count line.now))) }
    ensures at_once { IsToldAtOnce (faults_at_once words.old.schema count line.now) result }
    ensures note { is_statement line.now ≡ false → IfErr result (λ e. e ≡ LineFault.Memory → ⊥) }
{
    let holds_one = is_statement(line);
    if holds_one && MOST_STATEMENTS <= count {
        return Err(LineFault::Refused(Cause::TooMuch));
    }
    if !is_allowed(line) {
        return Err(LineFault::Refused(Cause::LineNotAllowed));
    }
    if !holds_one {
        return Ok(None);
    }
    Ok(Some(read_statement(alloc, words, line)?))
}

/// The statement of a line of a usual form, if there is room for it after `count` statements; none for some such lines.
fn said_by_form(
    alloc: Global,
    schema: &Schema,
    count: usize,
    line: &[u8],
) -> Result<Option<Statement>, AllocError>
    ensures says { IfOk result (λ found. IfSome found (λ s. Says schema.now count line.now s)) }
    ensures memory { OnErr result (MayTakeMemory schema.now count line.now) }
{
    if MOST_STATEMENTS <= count {
        return Ok(None);
    }
    usual_statement(alloc, schema, line)
}

/// The statement of one more line, after `count` statements of a script; none if the line is a note or blank. A refusal of memory is
/// never reported for such a line, nor in place of a fault of the line as a whole or of its first word.
pub fn read_script_line(
    alloc: Global,
    schema: &Schema,
    count: usize,
    line: &[u8],
) -> Result<Option<Statement>, LineFault>
    ensures accepted { OnOk result (first (line_faults schema.now count (trimmed line.now)) ≡ None) }
    ensures statement { IfOk result (λ s. s ≡ line_statement schema.now (trimmed line.now)) }
    ensures fitting { IsSound schema.now → IfOk result (λ s. IfSome s (λ x. statement_fits schema.now x ≡ true)) }
    ensures refused { IfErr result (λ e. Refuses e (first (line_faults schema.now count (trimmed line.now)))) }
    ensures at_once { IsToldAtOnce (faults_at_once schema.now count (trimmed line.now)) result }
    ensures note { is_statement (trimmed line.now) ≡ false → IfErr result (λ e. e ≡ LineFault.Memory → ⊥) }
{
    let line = trimmed(line);
    if let Some(statement) = said_by_form(alloc, schema, count, line)? {
        return Ok(Some(statement));
    }
    let mut words = Words::new(alloc, schema);
    read_line(alloc, &mut words, count, line)
}

/// The statement of a line, if the line was read before and there is room for one more.
fn said_again(
    cache: &LineCache,
    statements: &[Statement],
    line: &[u8],
) -> Result<Option<Statement>, AllocError>
    ensures says { (schema : Lists) → IsCached schema statements.now cache.now.places → IfOk result (λ found. IfSome found (λ s. Says schema (length statements.now) line.now s)) }
    ensures memory { (schema : Lists) → IsCached schema statements.now cache.now.places → OnErr result (MayTakeMemory schema (length statements.now) line.now) }
{
    if MOST_STATEMENTS <= statements.len() {
        return Ok(None);
    }
    match cache.find(line) {
        None => Ok(None),
        Some(at) => {
            match statements.get(at) {
                None => Ok(None),
                Some(statement) => Ok(Some(statement.copy()?)),
            }
        }
    }
}

// The fewest bytes of a STORE or MODIFY with a value.
const LEAST_WITH_VALUE: usize = 11;

// Does the line begin as one whose words vary, by values, keys or numbers, so that it seldom comes again? These are STORE and MODIFY,
// and FIND with KEY, CALC, SORTED or a number.
fn has_varied_words(line: &[u8]) -> bool {
    if line.len() < LEAST_WITH_VALUE {
        return false;
    }
    match line[0] {
        b'S' | b'M' => true,
        b'F' => matches!(line[5], b'K' | b'C' | b'S' | b'-' | b'0'..=b'9'),
        _ => false,
    }
}

/// The statement of a line that was read before or has a usual form, if there is room for one more; none for some such lines.
fn said_at_once(
    alloc: Global,
    schema: &Schema,
    cache: &LineCache,
    statements: &[Statement],
    line: &[u8],
) -> Result<Option<Statement>, AllocError>
    requires { IsCached schema.now statements.now cache.now.places }
    ensures says { IfOk result (λ found. IfSome found (λ s. Says schema.now (length statements.now) line.now s)) }
    ensures memory { OnErr result (MayTakeMemory schema.now (length statements.now) line.now) }
{
    if MOST_STATEMENTS <= statements.len() {
        return Ok(None);
    }
    if has_varied_words(line) {
        if let Some(statement) = usual_statement(alloc, schema, line)? {
            return Ok(Some(statement));
        }
    }
    said_again(cache, statements, line)
}

/// Takes a line that is read anew: its statement is appended, and the line is kept.
fn take_new_line<'a>(
    alloc: Global,
    words: &mut Words<'a>,
    cache: &mut LineCache<'a>,
    statements: &mut Vec<Statement>,
    line: &'a [u8],
) -> Result<(), LineFault>
    requires { IsCached words.old.schema statements.old.items cache.old.places }
    ensures schema { OnOk result (words.new.schema ≡ words.old.schema) }
    ensures cache { OnOk result (IsCached words.old.schema statements.new.items cache.new.places) }
    ensures accepted { OnOk result (first (line_faults words.old.schema (length statements.old.items) line.now) ≡ None) }
    ensures taken { OnOk result (statements.new.items ≡ statements.old.items ++ prepend (line_statement words.old.schema line.now) []) }
    ensures refused { IfErr result (λ e. Refuses e (first (line_faults words.old.schema (length statements.old.items) line.now))) }
    ensures at_once { IsToldAtOnce (faults_at_once words.old.schema (length statements.old.items) line.now) result }
    ensures note { is_statement line.now ≡ false → IfErr result (λ e. e ≡ LineFault.Memory → ⊥) }
{
    match read_line(alloc, words, statements.len(), line) {
        Err(fault) => Err(fault),
        Ok(None) => Ok(()),
        Ok(Some(statement)) => {
            cache.note(line, statements.len());
            statements.push(statement)?;
            Ok(())
        }
    }
}

/// Takes a line: its statement is appended.
fn take_line<'a>(
    alloc: Global,
    words: &mut Words<'a>,
    cache: &mut LineCache<'a>,
    statements: &mut Vec<Statement>,
    line: &'a [u8],
) -> Result<(), LineFault>
    requires { IsCached words.old.schema statements.old.items cache.old.places }
    ensures schema { OnOk result (words.new.schema ≡ words.old.schema) }
    ensures cache { OnOk result (IsCached words.old.schema statements.new.items cache.new.places) }
    ensures accepted { OnOk result (first (line_faults words.old.schema (length statements.old.items) line.now) ≡ None) }
    ensures taken { OnOk result (statements.new.items ≡ statements.old.items ++ prepend (line_statement words.old.schema line.now) []) }
    ensures refused { IfErr result (λ e. Refuses e (first (line_faults words.old.schema (length statements.old.items) line.now))) }
    ensures at_once { IsToldAtOnce (faults_at_once words.old.schema (length statements.old.items) line.now) result }
    ensures note { is_statement line.now ≡ false → IfErr result (λ e. e ≡ LineFault.Memory → ⊥) }
{
    match said_at_once(alloc, words.schema(), cache, statements, line)? {
        None => take_new_line(alloc, words, cache, statements, line),
        Some(said) => {
            statements.push(said)?;
            Ok(())
        }
    }
}

fn at_line(number: u64, fault: LineFault) -> ScriptFault
    ensures { result ≡ at_line number fault }
{
    match fault {
        LineFault::Refused(cause) => ScriptFault::Refused {
            line: number,
            cause,
        },
        LineFault::Memory => ScriptFault::Memory,
    }
}

/// Reads a script of this schema: its statements, one a line, in their order. The text may hold any bytes. A refused text is
/// refused for its first fault; `Memory` is given if memory was refused before a fault was met. So it is never
/// given for a text that is too long, nor for one with a fault in a line before its first statement, or in the first word of
/// that statement.
pub fn read_script(
    alloc: Global,
    schema: &Schema,
    text: &[u8],
) -> Result<Vec<Statement>, ScriptFault>
    ensures accepted { OnOk result (refusal schema.now text.now ≡ None) }
    ensures statements { IfOk result (λ v. v.items ≡ script schema.now text.now) }
    ensures fitting { IsSound schema.now → IfOk result (λ v. list_all (statement_fits schema.now) v.items ≡ true) }
    ensures refused { IfErr result (λ e. RefusesScript e (refusal schema.now text.now)) }
    ensures at_once { (fault : SeenFault) → first (script_faults_at_once schema.now text.now) ≡ Some fault → MatchResult result (λ _. ⊥) (λ e. e ≡ ScriptFault.Refused fault.line fault.cause) }
{
    if text.len() > SCRIPT_BYTES {
        return Err(ScriptFault::Refused {
            line: 1,
            cause: Cause::TooMuch,
        });
    }
    let mut statements = Vec::new(alloc);
    let mut words = Words::new(alloc, schema);
    let mut cache = LineCache::none();
    let mut number: u64 = 1;
    let mut left = Lines { rest: text };
    while let Some(line) = left.next() {
        if let Err(fault) = take_line(
            alloc,
            &mut words,
            &mut cache,
            &mut statements,
            trimmed(line),
        ) {
            return Err(at_line(number, fault));
        }
        number += 1;
    }
    Ok(statements)
}
