//! A schema's text with each word on a line of its own, so that the line of a fault gives its word.
ghost use Rattle.std.specs.Prelude.{◌≡◌, ◌++◌, IfOk, OnOk, option_map};
ghost use Rattle.dbtg_schema.specs.Texts.Words.{is_gap};
ghost use Rattle.dbtg_schema.specs.Texts.SchemaFaults.{refusal};
ghost use Rattle.dbtg_explain.specs.FaultyWord.{apart, entry_name, faulty_word, is_label, is_of_entry, laid_out, line_at, line_in};
ghost use Rattle.dbtg_script.specs.Lines.{lines};

use crate::row::{behind_all, next_row};
use dbtg_schema::{Schema, SchemaFault};
use dbtg_script::in_front;
use std::alloc::{AllocError, Global};

fn is_gap(b: u8) -> bool
    ensures { result ≡ is_gap b }
{
    matches!(b, b' ' | b'\t' | b'\r' | b'\n' | b',' | b';')
}

fn push_apart(out: &mut Vec<u8>, b: u8) -> Result<(), AllocError>
    ensures { OnOk result (out.new.items ≡ out.old.items ++ apart b) }
{
    if b == b'.' {
        out.extend_from_slice(b"\n.\n")?;
    } else {
        out.push(if is_gap(b) { b'\n' } else { b })?;
    }
    Ok(())
}

/// The text laid out in this way, with an empty last line, on which a text that ends too early is refused.
pub fn laid_out(alloc: Global, text: &[u8]) -> Result<Vec<u8>, AllocError>
    ensures { IfOk result (λ out. out.items ≡ laid_out text.now) }
{
    let mut out = Vec::new(alloc);
    for b in text {
        push_apart(&mut out, *b)?;
    }
    out.extend_from_slice(b"\n\n")?;
    Ok(out)
}

/// The line on which a text is refused for the cause with this number; 0 if it is not refused for it.
pub fn fault_line(alloc: Global, text: &[u8], number: u8) -> Result<u64, AllocError>
    ensures { IfOk result (λ line. line ≡ line_in number (refusal text.now)) }
{
    match Schema::read(alloc, text) {
        Ok(schema) => {
            drop(schema);
            Ok(0)
        }
        Err(SchemaFault::Refused { line, cause }) => {
            Ok(if cause.number() == number { line } else { 0 })
        }
        Err(SchemaFault::Memory) => Err(AllocError),
    }
}

/// The line with this number, from 1.
pub fn line_at(text: &[u8], line: u64) -> &[u8]
    ensures { result.now ≡ line_at line text.now }
{
    if line == 0 {
        return &text[..0];
    }
    in_front(behind_all(text, b'\n', (line - 1) as usize), b'\n')
}

fn is_label(word: &[u8]) -> bool
    ensures { result ≡ is_label word.now }
{
    word.is_empty()
        || word == "MEMBER".as_bytes()
        || word == "RECORD".as_bytes()
        || word == "NAME".as_bytes()
        || word == "IS".as_bytes()
        || word == "ARE".as_bytes()
}

// The name of the entry whose first word comes before these.
fn entry_name(words: &[u8]) -> Option<&[u8]>
    ensures { option_map (λ word. word.now) result ≡ entry_name (lines words.now) }
{
    let mut rest = words;
    while let Some((word, behind)) = next_row(rest) {
        if !is_label(word) {
            return Some(word);
        }
        rest = behind;
    }
    None
}

// Faults of a whole entry: the owner is the member, a member twice, other keys, a key misplaced; a record type without items.
fn is_of_entry(number: u8) -> bool
    ensures { result ≡ is_of_entry number }
{
    12 <= number && number <= 15 || number == 17
}

/// The word that a fault on this line of a laid-out text is about: the word there, or the name of the entry for a fault of a whole entry.
pub fn faulty_word(laid: &[u8], line: u64, number: u8) -> &[u8]
    ensures { result.now ≡ faulty_word number line laid.now }
{
    if line == 0 || !is_of_entry(number) {
        return line_at(laid, line);
    }
    let words = behind_all(laid, b'\n', (line - 1) as usize);
    entry_name(words).unwrap_or(line_at(laid, line))
}
