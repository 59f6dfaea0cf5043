//! Tables as texts: a row is a line, its fields are separated by bars, and the first of them is a code.
ghost use Rattle.std.specs.Prelude.{◌≡◌, ◌==◌, ◌<◌, ◌++◌, ◌∷◌, [], IfSome, MatchOption, OnOk, length, map, option_map};
ghost use Rattle.dbtg_script.specs.Lines.{lines};
ghost use Rattle.dbtg_explain.specs.Explaining.{code_in, field, filled, part_for, row_of};
ghost use Rattle.dbtg_explain.specs.FaultyWord.{behind_all};

use dbtg_script::{behind, in_front, number};
use std::alloc::AllocError;

/// What follows this many c; nothing if there are fewer.
pub fn behind_all(text: &[u8], c: u8, count: usize) -> &[u8]
    ensures { result.now ≡ behind_all c count text.now }
{
    let mut rest = text;
    for i in 0..count {
        rest = behind(rest, c);
    }
    rest
}

/// The field with this number, from 0; nothing if the row has fewer.
pub fn field(row: &[u8], number: usize) -> &[u8]
    ensures { result.now ≡ field number row.now }
{
    in_front(behind_all(row, b'|', number), b'|')
}

fn has_code(row: &[u8], code: u16) -> bool
    ensures { result ≡ (code_in row.now == code) }
{
    number(in_front(row, b'|')) == code as u64
}

/// The first row of a table, and the rest of the table.
#[tactic(auto, using(crate::proofs::Rows::no_row, crate::proofs::Rows::row_first, crate::proofs::Rows::behind_shorter))]
pub fn next_row(table: &[u8]) -> Option<(&[u8], &[u8])>
    ensures found { MatchOption result (lines table.now ≡ []) (λ next. lines table.now ≡ next.0.now ∷ lines next.1.now) }
    ensures shorter { IfSome result (λ next. length next.1.now < length table.now) }
{
    if table.is_empty() {
        None
    } else {
        Some((in_front(table, b'\n'), behind(table, b'\n')))
    }
}

/// The first row with this code.
pub fn row_with(table: &'static str, code: u16) -> Option<&'static [u8]>
    ensures { option_map (λ row. row.now) result ≡ row_of code table.now }
{
    let mut rest = table.as_bytes();
    while let Some((row, behind)) = next_row(rest) {
        if has_code(row, code) {
            return Some(row);
        }
        rest = behind;
    }
    None
}

/// Appends a form: each digit of the form stands for the part with that number.
pub fn push_form(out: &mut Vec<u8>, form: &[u8], parts: &[&[u8]]) -> Result<(), AllocError>
    ensures { OnOk result (out.new.items ≡ out.old.items ++ filled (map (λ part. part.now) parts.now) form.now) }
{
    for b in form {
        match part_for(parts, *b) {
            Some(part) => out.extend_from_slice(part)?,
            None => out.push(*b)?,
        }
    }
    Ok(())
}

fn part_for<'a>(parts: &[&'a [u8]], b: u8) -> Option<&'a [u8]>
    ensures { option_map (λ part. part.now) result ≡ part_for (map (λ part. part.now) parts.now) b }
{
    if b.is_ascii_digit() {
        parts.get((b - b'0') as usize).copied()
    } else {
        None
    }
}
