//! Answers with their statements beside them, in two columns, and below an answer what is noted of it.

ghost use Rattle.dbtg_script.specs.Printing.Echo.{echo_text, lines_beside, lines_for, note_line, note_of, padded, table_text, wider, widened};
ghost use Rattle.dbtg_script.specs.Printing.Texts.{answer_text};
ghost use Rattle.dbtg_script.specs.Lines.{statement_lines};
ghost use Rattle.std.specs.Prelude.{◌≡◌, ◌++◌, ◌<◌, ℕ, [], IfOk, OnOk, length, map, slice_get, slice_index, unwrap_or};

use crate::line::{Lines, is_statement, trimmed};
use crate::moves::push_times;
use crate::texts::push_answer;
use dbtg_schema::{Row, Schema};
use dbtg_unit::Entry;
use std::alloc::{AllocError, Global};

// A statement with more bytes does not widen the column.
const WIDEST: usize = 60;

/// What stands with answers: the texts of the scripts, which have the statements, and notes by ticket.
#[derive(Clone, Copy)]
pub struct Beside<'a> {
    pub texts: &'a [Row<u8>],
    pub notes: &'a [Row<u8>],
}

/// The lines of a script that hold a statement, trimmed.
pub fn statement_lines<'a>(alloc: Global, text: &'a [u8]) -> Result<Row<&'a [u8]>, AllocError>
    ensures { IfOk result (λ found. map (λ l. l.now) found ≡ statement_lines text.now) }
{
    let mut found = Vec::new(alloc);
    let mut left = Lines { rest: text };
    while let Some(line) = left.next() {
        let line = trimmed(line);
        if is_statement(line) {
            found.push(line)?;
        }
    }
    Ok(Row::of(found))
}

fn lines_of_scripts<'a>(
    alloc: Global,
    texts: &'a [Row<u8>],
) -> Result<Vec<Row<&'a [u8]>>, AllocError>
    ensures { IfOk result (λ scripts. map (map (λ l. l.now)) scripts.items ≡ map statement_lines texts.now) }
{
    let mut scripts = Vec::new(alloc);
    for text in texts {
        scripts.push(statement_lines(alloc, text.as_slice())?)?;
    }
    Ok(scripts)
}

/// The line at this place of a unit's script; nothing if there is none.
fn line_at<'a>(scripts: &[Row<&'a [u8]>], unit: u8, place: usize) -> &'a [u8]
    ensures { result.now ≡ unwrap_or (slice_get (lines_for (map (map (λ l. l.now)) scripts.now) unit) place) [] }
{
    let lines = match scripts.get((unit as usize).saturating_sub(1)) {
        Some(lines) => lines,
        None => return b"",
    };
    match lines.get(place) {
        Some(line) => *line,
        None => b"",
    }
}

/// The count of statements that each unit has made, by the unit's number, before the first.
fn nothing_made() -> [usize; 256]
    ensures none { (u : ℕ) → u < 256 → slice_index result u ≡ 0 }
    ensures len { length result ≡ 256 }
{
    [0; 256]
}

/// The line of each entry's statement.
fn lines_beside<'a>(
    alloc: Global,
    scripts: &[Row<&'a [u8]>],
    history: &[Entry],
) -> Result<Vec<&'a [u8]>, AllocError>
    ensures { IfOk result (λ lines. map (λ l. l.now) lines.items ≡ lines_beside (map (map (λ l. l.now)) scripts.now) [] history.now) }
{
    let mut lines = Vec::new(alloc);
    let mut made = nothing_made();
    for entry in history {
        let unit = entry.unit as usize;
        let place = made[unit];
        made[unit] = place + 1;
        lines.push(line_at(scripts, entry.unit, place))?;
    }
    Ok(lines)
}

fn wider(width: usize, line: &[u8]) -> usize
    ensures { result ≡ wider width line.now }
{
    if width < line.len() && line.len() <= WIDEST {
        line.len()
    } else {
        width
    }
}

/// As wide as the widest line for which the column has room.
fn column(lines: &[&[u8]]) -> usize
    ensures { result ≡ widened 0 (map (λ l. l.now) lines.now) }
{
    let mut width = 0;
    for line in lines {
        width = wider(width, *line);
    }
    width
}

fn push_padded(out: &mut Vec<u8>, width: usize, line: &[u8]) -> Result<(), AllocError>
    ensures { OnOk result (out.new.items ≡ out.old.items ++ padded width line.now) }
{
    out.extend_from_slice(line)?;
    push_times(out, b' ', width.saturating_sub(line.len()) as u64)?;
    push_times(out, b' ', 3)
}

fn note_of(notes: &[Row<u8>], ticket: u64) -> &[u8]
    ensures { result.now ≡ note_of notes.now ticket }
{
    match notes.get(ticket as usize) {
        Some(note) => note.as_slice(),
        None => b"",
    }
}

fn push_note(out: &mut Vec<u8>, note: &[u8]) -> Result<(), AllocError>
    ensures { OnOk result (out.new.items ≡ out.old.items ++ note_line note.now) }
{
    if note.is_empty() {
        return Ok(());
    }
    out.extend_from_slice(b"    ")?;
    out.extend_from_slice(note)?;
    out.extend_from_slice(b"\n")
}

// The answer of an entry after its statement, and below it the note of its ticket.
fn push_row(
    out: &mut Vec<u8>,
    schema: &Schema,
    width: usize,
    notes: &[Row<u8>],
    line: &[u8],
    entry: &Entry,
) -> Result<(), AllocError>
    ensures { OnOk result (out.new.items ≡ out.old.items ++ padded width line.now ++ answer_text schema.now entry.now ++ note_line (note_of notes.now entry.now.ticket)) }
{
    push_padded(out, width, line)?;
    push_answer(out, schema, entry)?;
    push_note(out, note_of(notes, entry.ticket))
}

fn push_each_row(
    out: &mut Vec<u8>,
    schema: &Schema,
    notes: &[Row<u8>],
    lines: &[&[u8]],
    history: &[Entry],
) -> Result<(), AllocError>
    ensures { OnOk result (out.new.items ≡ out.old.items ++ table_text schema.now notes.now (map (λ l. l.now) lines.now) history.now) }
{
    let width = column(lines);
    for (i, line) in lines.iter().enumerate() {
        if i >= history.len() {
            return Ok(());
        }
        push_row(out, schema, width, notes, *line, &history[i])?;
    }
    Ok(())
}

/// The line of each entry's statement, as the texts of the scripts have it.
pub fn lines_of_history<'a>(
    alloc: Global,
    texts: &'a [Row<u8>],
    history: &[Entry],
) -> Result<Vec<&'a [u8]>, AllocError>
    ensures { IfOk result (λ lines. map (λ l. l.now) lines.items ≡ lines_beside (map statement_lines texts.now) [] history.now) }
{
    let scripts = lines_of_scripts(alloc, texts)?;
    lines_beside(alloc, scripts.as_slice(), history)
}

/// A line for each entry of a history: its statement, as the texts of the scripts have it, and its ticket, unit and answer; below it the
/// note of its ticket, if there is one.
pub fn echo_text(
    alloc: Global,
    schema: &Schema,
    beside: Beside,
    history: &[Entry],
) -> Result<Vec<u8>, AllocError>
    ensures { IfOk result (λ text. text.items ≡ echo_text schema.now beside.entry.texts.now beside.entry.notes.now history.now) }
{
    let lines = lines_of_history(alloc, beside.texts, history)?;
    let mut out = Vec::new(alloc);
    push_each_row(&mut out, schema, beside.notes, lines.as_slice(), history)?;
    Ok(out)
}
