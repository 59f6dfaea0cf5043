//! A statement that is read from words, not from the bytes of a line.

ghost use Rattle.dbtg_schema.specs.Texts.Forms.{labels};
ghost use Rattle.dbtg_script.specs.Reading.{Refuses, verdict};
ghost use Rattle.dbtg_script.specs.StatementGrammar.{fits, statement};
ghost use Rattle.dbtg_script.specs.Statements.{statement_of};
ghost use Rattle.dbtg_script.specs.Tokens.{view};
ghost use Rattle.std.specs.Prelude.{◌≡◌, [], IfErr, IfOk, None, OnOk, map};

use crate::automaton::State;
use crate::fault::LineFault;
use crate::left::Left;
use crate::reader::{end_of, take};
use crate::statement::statement_of;
use crate::token::Token;
use crate::usual::by_words;
use crate::words::Words;
use dbtg_schema::Schema;
use dbtg_unit::Statement;
use std::alloc::Global;

/// Takes words, one after another; they replace the earlier ones.
fn take_each<'a>(words: &mut Words<'a>, tokens: &[Token<'a>]) -> Result<(), LineFault>
    ensures schema { OnOk result (words.new.schema ≡ words.old.schema) }
    ensures accepted { OnOk result (verdict words.old.schema [] statement (map view tokens.now) ≡ None) }
    ensures words { OnOk result (words.new.words ≡ labels fits statement (map view tokens.now)) }
    ensures refused { IfErr result (λ e. Refuses e (verdict words.old.schema [] statement (map view tokens.now))) }
{
    words.clear();
    let mut state = State::Opening;
    for token in tokens {
        state = take(words, state, *token)?;
    }
    match end_of(words, state) {
        Some(cause) => Err(LineFault::Refused(cause)),
        None => Ok(()),
    }
}

/// The statement that these words say, as if they were those of a line.
pub fn read_statement_words<'a>(
    alloc: Global,
    schema: &'a Schema,
    tokens: &[Token<'a>],
) -> Result<Statement, LineFault>
    ensures accepted { OnOk result (verdict schema.now [] statement (map view tokens.now) ≡ None) }
    ensures statement { IfOk result (λ s. s ≡ statement_of schema.now (labels fits statement (map view tokens.now))) }
    ensures refused { IfErr result (λ e. Refuses e (verdict schema.now [] statement (map view tokens.now))) }
{
    if let Some(statement) = by_words(alloc, schema, &mut Left::List(tokens))? {
        return Ok(statement);
    }
    let mut words = Words::new(alloc, schema);
    match take_each(&mut words, tokens) {
        Err(fault) => Err(fault),
        Ok(()) => Ok(statement_of(alloc, &words)?),
    }
}
