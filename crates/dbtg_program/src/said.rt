//! The statement that words with fields say in a state.

ghost use Rattle.dbtg_program.specs.Going.{read_words, said_word};
ghost use Rattle.dbtg_program.specs.Inside.Views.{digits_of};
ghost use Rattle.dbtg_schema.specs.Texts.Forms.{labels};
ghost use Rattle.dbtg_script.specs.Reading.{Refuses, verdict};
ghost use Rattle.dbtg_script.specs.StatementGrammar.{fits, statement};
ghost use Rattle.dbtg_script.specs.Statements.{statement_of};
ghost use Rattle.dbtg_script.specs.Tokens.{view};
ghost use Rattle.std.specs.Prelude.{◌≡◌, [], IfErr, IfOk, None, OnOk, map};

use crate::borrowed::Borrowed;
use crate::program::Word;
use crate::state::State;
use dbtg_schema::{Row, Schema};
use dbtg_script::{LineFault, Token, push_number, read_statement_words};
use dbtg_unit::Statement;
use std::alloc::{AllocError, Global};

/// The digits of the number that a word stands for, or None if it is not a field with a number.
fn digits_of(alloc: Global, state: &State, word: &Word) -> Result<Row<u8>, AllocError>
    ensures { IfOk result (λ digits. digits ≡ digits_of state.now word.now) }
{
    let mut digits = Vec::new(alloc);
    if let Word::Field(field) = word {
        if let Borrowed::Number(n) = state.field_value(*field) {
            push_number(&mut digits, n)?;
        }
    }
    Ok(Row::of(digits))
}

fn digits_of_each(alloc: Global, state: &State, words: &[Word]) -> Result<Vec<Row<u8>>, AllocError>
    ensures { IfOk result (λ each. each.items ≡ map (digits_of state.now) words.now) }
{
    let mut each = Vec::with_capacity(alloc, words.len())?;
    for word in words {
        each.push(digits_of(alloc, state, word)?)?;
    }
    Ok(each)
}

fn token_of<'a>(state: &'a State, word: &'a Word, digits: &'a [u8]) -> Token<'a>
    requires { digits.now ≡ digits_of state.now word.now }
    ensures { view result ≡ said_word state.now word.now }
{
    match word {
        Word::Plain(text) => Token::Plain(text.as_slice()),
        Word::Equals => Token::Equals,
        Word::Literal(text) => Token::Literal(text.as_slice()),
        Word::Field(field) => {
            match state.field_value(*field) {
                Borrowed::Number(_) => Token::Plain(digits),
                Borrowed::Text(text) => Token::Literal(text),
            }
        }
    }
}

fn tokens_of<'a>(
    alloc: Global,
    state: &'a State,
    words: &'a [Word],
    digits: &'a [Row<u8>],
) -> Result<Vec<Token<'a>>, AllocError>
    requires { digits.now ≡ map (digits_of state.now) words.now }
    ensures { IfOk result (λ tokens. map view tokens.items ≡ map (said_word state.now) words.now) }
{
    let mut tokens = Vec::with_capacity(alloc, words.len())?;
    for word in words {
        let digits = digits[tokens.len()].as_slice();
        tokens.push(token_of(state, word, digits))?;
    }
    Ok(tokens)
}

/// The statement that a script's reader would read from these words in this state.
pub fn read_said(
    alloc: Global,
    schema: &Schema,
    state: &State,
    words: &[Word],
) -> Result<Statement, LineFault>
    ensures accepted { OnOk result (verdict schema.now [] statement (map (said_word state.now) words.now) ≡ None) }
    ensures statement { IfOk result (λ s. s ≡ statement_of schema.now (labels fits statement (map (said_word state.now) words.now))) }
    ensures refused { IfErr result (λ e. Refuses e (verdict schema.now [] statement (map (said_word state.now) words.now))) }
{
    let digits = digits_of_each(alloc, state, words)?;
    let tokens = tokens_of(alloc, state, words, digits.as_slice())?;
    read_statement_words(alloc, schema, tokens.as_slice())
}

/// The same, or None if a value does not fit.
pub fn read_filled(
    alloc: Global,
    schema: &Schema,
    state: &State,
    words: &[Word],
) -> Result<Option<Statement>, AllocError>
    ensures { IfOk result (λ s. s ≡ read_words schema.now (map (said_word state.now) words.now)) }
{
    match read_said(alloc, schema, state, words) {
        Ok(statement) => Ok(Some(statement)),
        Err(LineFault::Refused(_)) => Ok(None),
        Err(LineFault::Memory) => Err(AllocError),
    }
}
