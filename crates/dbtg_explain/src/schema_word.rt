//! The explanation of the word of a schema at which its fault is. The reader itself finds the word: it reads the text again, with each
//! word on a line of its own.
ghost use Rattle.std.specs.Prelude.{◌≡◌, ◌-◌, IfOk, map, take};
ghost use Rattle.dbtg_explain.specs.Saying.{said_of_schema_name, told_schema_part};
ghost use Rattle.dbtg_script.specs.Lines.{lines};

use crate::hints::name_hint;
use crate::laid::{fault_line, faulty_word, laid_out};
use crate::offered::{last_of, listed, names_in, seen_words, type_wanted};
use crate::row::next_row;
use crate::topic::{Kind, advice_for, meaning_of};
use crate::word::said_by;
use std::alloc::{AllocError, Global};

// A longer word is not shown.
const LONGEST: usize = 480;

// The form for a fault's number: 0 is the word, 1 the record type, 2 the names that exist, 4 what to do, 5 a hint.
const FORMS: &str = "\
4|0 is no name5. 4
6|0 is named twice
7|0 is no area (areas: 2)
8|0 is no record type (record types: 2)
9|0 is no item of 1 (items: 2)
10|0 is no set (sets: 2)
11|0 is no picture5. 4
18|0 is named twice";

// The lines of a text.
fn rows_of<'a>(alloc: Global, text: &'a [u8]) -> Result<Vec<&'a [u8]>, AllocError>
    ensures { IfOk result (λ rows. map (λ row. row.now) rows.items ≡ lines text.now) }
{
    let mut rows = Vec::new(alloc);
    let mut rest = text;
    while let Some((row, behind)) = next_row(rest) {
        rows.push(row)?;
        rest = behind;
    }
    Ok(rows)
}

// The lines before one, by its number from 1.
fn rows_in_front<'a, 'b>(rows: &'b [&'a [u8]], line: u64) -> &'b [&'a [u8]]
    ensures { map (λ row. row.now) result.now ≡ take (line - 1) (map (λ row. row.now) rows.now) }
{
    let count = (line.saturating_sub(1) as usize).min(rows.len());
    &rows[..count]
}

// No word is shown for a byte that is not allowed and for a text that is too long.
fn told_schema_part(word: &[u8], number: u8) -> &[u8]
    ensures { result.now ≡ told_schema_part number word.now }
{
    if number <= 2 || word.len() > LONGEST {
        &word[..0]
    } else {
        word
    }
}

/// The explanation of the name, the picture or the entry that a fault of a schema's text is about; empty if no single word is.
pub fn said_of_schema_name(alloc: Global, text: &[u8], number: u8) -> Result<Vec<u8>, AllocError>
    ensures { IfOk result (λ out. out.items ≡ said_of_schema_name number text.now) }
{
    let laid = laid_out(alloc, text)?;
    let laid = laid.as_slice();
    let line = fault_line(alloc, laid, number)?;
    let word = told_schema_part(faulty_word(laid, line, number), number);
    let rows = rows_of(alloc, laid)?;
    let front = seen_words(alloc, rows_in_front(rows.as_slice(), line))?;
    let words = seen_words(alloc, rows.as_slice())?;
    let rtype = type_wanted(alloc, front.as_slice())?;
    let names = names_in(alloc, number, rtype, words.as_slice(), front.as_slice())?;
    let names = listed(alloc, names.as_slice())?;
    let meaning = meaning_of(Kind::Schema, number);
    let advice = advice_for(Kind::Schema, number);
    let hint = name_hint(number, last_of(front.as_slice()), word);
    let parts = [word, rtype, names.as_slice(), meaning, advice, hint];
    said_by(alloc, FORMS, number, word, &parts)
}
