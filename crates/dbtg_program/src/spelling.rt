//! How a statement with fields is spelled in a state.

ghost use Rattle.dbtg_program.specs.Going.{said_word};
ghost use Rattle.dbtg_program.specs.Spelling.{word_text, words_text};
ghost use Rattle.std.specs.Prelude.{◌≡◌, ◌++◌, ◌∷◌, [], OnOk, map};

use crate::borrowed::Borrowed;
use crate::program::Word;
use crate::state::State;
use dbtg_script::push_number;
use std::alloc::AllocError;

fn push_literal(out: &mut Vec<u8>, text: &[u8]) -> Result<(), AllocError>
    ensures { OnOk result (out.new.items ≡ out.old.items ++ 34 ∷ text.now ++ 34 ∷ []) }
{
    out.push(b'"')?;
    out.extend_from_slice(text)?;
    out.push(b'"')?;
    Ok(())
}

fn push_word(out: &mut Vec<u8>, state: &State, word: &Word) -> Result<(), AllocError>
    ensures { OnOk result (out.new.items ≡ out.old.items ++ word_text (said_word state.now word.now)) }
{
    match word {
        Word::Plain(text) => out.extend_from_slice(text.as_slice()),
        Word::Equals => out.extend_from_slice(b"="),
        Word::Literal(text) => push_literal(out, text.as_slice()),
        Word::Field(field) => {
            match state.field_value(*field) {
                Borrowed::Number(n) => push_number(out, n),
                Borrowed::Text(text) => push_literal(out, text),
            }
        }
    }
}

/// Appends the words of a statement with a space between two of them, each field as the literal of its value.
pub fn push_said_words(out: &mut Vec<u8>, state: &State, words: &[Word]) -> Result<(), AllocError>
    ensures { OnOk result (out.new.items ≡ out.old.items ++ words_text (map (said_word state.now) words.now)) }
{
    let Some((first, others)) = words.split_first() else {
        return Ok(());
    };
    push_word(out, state, first)?;
    for word in others {
        out.push(b' ')?;
        push_word(out, state, word)?;
    }
    Ok(())
}
