//! Reading a schema text: its words with their roles, or the first fault.

ghost use Rattle.dbtg_schema.specs.Texts.Words.{is_noise, last_line, text_words, Word as SeenWord, words};
ghost use Rattle.dbtg_schema.specs.Texts.Forms.{Derives, labels};
ghost use Rattle.dbtg_schema.specs.Texts.SchemaGrammar.{fits, schema};
ghost use Rattle.dbtg_schema.specs.Texts.SchemaFaults.{refusal};
ghost use Rattle.std.specs.Prelude.{◌≡◌, ◌∷◌, ◌++◌, ℕ, List, [], Some, None, IfOk, OnOk, IfErr, MatchResult, not, ◌<◌, ◌≤◌, ◌^◌, length};
ghost use Rattle.dbtg_schema.specs.Inside.Words.{view};
ghost use Rattle.dbtg_schema.specs.Inside.Automaton.{rest_of};
ghost use Rattle.dbtg_schema.specs.Inside.Views.{views};
ghost use Rattle.dbtg_schema.specs.Texts.SchemaLists.{schema_of};
ghost use Rattle.dbtg_schema.specs.WellFormed.{IsSchema};
ghost use Rattle.dbtg_schema.specs.Sound.{IsSound};
ghost use Rattle.dbtg_schema.specs.Texts.Reading.{faults_at, RefusedAtOnce, Refuses};
ghost use Rattle.dbtg_schema.specs.Inside.Reading.{verdict, WithinLimits};
ghost use Rattle.dbtg_schema.specs.Lookups.{first};
ghost use Rattle.dbtg_schema.specs.declared.fault.Fault.{Fault as SeenFault};

use crate::automaton::{State, follow};
use crate::checks::{at_end, at_other, at_word};
use crate::fault::{Cause, Fault, SchemaFault};
use crate::limits::SCHEMA_BYTES;
use crate::queries::Labelled;
use crate::scanner::{Scanner, Word};
use std::alloc::Global;

pub fn is_noise(word: Word) -> bool
    ensures { result ≡ is_noise (view word.entry) }
{
    (word.text == b"IS".as_slice()) | (word.text == b"ARE".as_slice())
}

fn last_line(text: &[u8]) -> u64
    ensures { result ≡ last_line text.now }
{
    let mut line = 1;
    for (i, b) in text.iter().enumerate() {
        if *b == b'\n' && i + 1 < text.len() {
            line += 1;
        }
    }
    line
}

/// Takes the next word: gives the state after it, or the fault at it.
fn take<'a>(
    words: &mut Vec<Labelled<'a>>,
    state: State,
    word: Word<'a>,
) -> Result<State, SchemaFault>
    ensures reached { (end : ℕ) (left : List SeenWord) → MatchResult result
        (λ next. verdict end (views words.old.items) (rest_of state) (view word.entry ∷ left) ≡ verdict end (views words.new.items) (rest_of next) left)
        (λ e. Refuses e (verdict end (views words.old.items) (rest_of state) (view word.entry ∷ left))) }
    ensures faulty { (fault : SeenFault) → first (faults_at (views words.old.items) (rest_of state) (view word.entry)) ≡ Some fault → MatchResult result (λ _. ⊥) (λ e. e ≡ SchemaFault.Refused fault.line fault.cause) }
    ensures labels { IfOk result (λ next. (left : List SeenWord) → views words.old.items ++ labels fits (rest_of state) (view word.entry ∷ left) ≡ views words.new.items ++ labels fits (rest_of next) left) }
{
    match follow(state, word) {
        None => Err(SchemaFault::of(at_other(words, state, word))),
        Some(start) => {
            let labelled = Labelled {
                role: start.role,
                word,
            };
            if let Some(fault) = at_word(words, &labelled) {
                return Err(SchemaFault::of(fault));
            }
            words.push(labelled)?;
            Ok(start.next)
        }
    }
}

/// The words of a schema text with their roles, or its first fault.
pub fn read(alloc: Global, text: &[u8]) -> Result<Vec<Labelled<'_>>, SchemaFault>
    ensures accepted { OnOk result (refusal text.now ≡ None) }
    ensures words { IfOk result (λ v. views v.items ≡ labels fits schema (text_words text.now)) }
    ensures refused { IfErr result (λ e. Refuses e (refusal text.now)) }
    ensures derived { IfOk result (λ v. Derives fits schema (views v.items)) }
    ensures sound { IfOk result (λ v. IsSchema (schema_of (views v.items))) }
    ensures fitting { IfOk result (λ v. IsSound (schema_of (views v.items))) }
    ensures limits { IfOk result (λ v. WithinLimits (views v.items)) }
    ensures too_long { SCHEMA_BYTES < length text.now → MatchResult result (λ _. ⊥) (λ e. e ≡ SchemaFault.Refused 1 Cause.TextTooLong) }
    ensures at_once { RefusedAtOnce text.now (MatchResult result (λ _. ⊥) (λ e. e ≡ SchemaFault.Memory → ⊥)) }
{
    if text.len() > SCHEMA_BYTES {
        return Err(SchemaFault::of(Fault {
            line: 1,
            cause: Cause::TextTooLong,
        }));
    }
    let end = last_line(text);
    let mut words = Vec::new(alloc);
    let mut state = State::Opening;
    let mut scanner = Scanner::new(text);
    while let Some(word) = scanner.scan() {
        if !is_noise(word) {
            state = take(&mut words, state, word)?;
        }
    }
    match at_end(end, &words, state) {
        Some(fault) => Err(SchemaFault::of(fault)),
        None => Ok(words),
    }
}
