//! A line is printed in strips, one below another: the letters are folded, and so is the text of the statement.
ghost use Rattle.std.specs.Prelude.{◌≡◌, ◌++◌, IfOk, OnOk};
ghost use Rattle.dbtg_timeline.specs.Lines.{lines};
ghost use Rattle.dbtg_timeline.specs.Strips.{ends, folded, front_of, larger, part_at, strip_at, strips, strips_by, strips_of, word_length, words_of};

use crate::event::{Event, is_begin};
use crate::lines::{Drawn, Line, label, lines_of};
use dbtg_schema::Row;
use std::alloc::{AllocError, Global};

/// What only the first strip of a line shows: the number of its first move, and what it draws.
#[derive(Clone, Copy)]
pub struct Front {
    pub first: usize,
    pub drawn: Option<Drawn>,
}

/// A strip: its unit, whether the statement begins in it, whether the unit is in mid-statement after the line, a part of the letters
/// and a part of the statement's text.
#[derive(Drop)]
pub struct Strip {
    pub front: Option<Front>,
    pub unit: u8,
    pub begins: bool,
    pub midway: bool,
    pub letters: Row<u8>,
    pub words: Row<u8>,
}

// How many bytes come before the next space?
fn word_length(text: &[u8]) -> usize
    ensures { result ≡ word_length text.now }
{
    text.iter().take_while(|b| **b != b' ').count()
}

// Does a part of this many bytes end before those that are left?
fn ends(width: usize, count: usize, left: &[u8]) -> bool
    ensures { result ≡ ends width count left.now }
{
    match left.split_first() {
        None => false,
        Some((next, behind)) => {
            count == width
                || (*next == b' '
                    && (0 < count && width.saturating_sub(count) <= word_length(behind)))
        }
    }
}

// The parts of a text, each of at most this many bytes.
fn push_folded(
    alloc: Global,
    parts: &mut Vec<Row<u8>>,
    width: usize,
    text: &[u8],
) -> Result<(), AllocError>
    ensures { OnOk result (parts.new.items ≡ parts.old.items ++ folded width text.now) }
{
    let mut part = Vec::new(alloc);
    for (i, byte) in text.iter().enumerate() {
        if ends(width, part.len(), &text[i..]) {
            parts.push(Row::of(part))?;
            part = Vec::new(alloc);
        }
        part.push(*byte)?;
    }
    if !part.is_empty() {
        parts.push(Row::of(part))?;
    }
    Ok(())
}

fn part_at(alloc: Global, parts: &[Row<u8>], index: usize) -> Result<Row<u8>, AllocError>
    ensures { IfOk result (λ part. part ≡ part_at parts.now index) }
{
    match parts.get(index) {
        Some(part) => part.copy(alloc),
        None => Ok(Row::of(Vec::new(alloc))),
    }
}

fn front_of(line: &Line, index: usize) -> Option<Front>
    ensures { result ≡ front_of line.now index }
{
    if index == 0 {
        Some(Front {
            first: line.first,
            drawn: line.drawn(),
        })
    } else {
        None
    }
}

fn strip_at(
    alloc: Global,
    line: &Line,
    letters: &[Row<u8>],
    words: &[Row<u8>],
    index: usize,
) -> Result<Strip, AllocError>
    ensures { IfOk result (λ strip. strip ≡ strip_at line.now letters.now words.now index) }
{
    Ok(Strip {
        front: front_of(line, index),
        unit: line.head.unit,
        begins: index == 0 && is_begin(line.head.mark),
        midway: line.last().midway,
        letters: part_at(alloc, letters, index)?,
        words: part_at(alloc, words, index)?,
    })
}

fn larger(m: usize, n: usize) -> usize
    ensures { result ≡ larger m n }
{
    if m < n { n } else { m }
}

fn push_strips_by(
    alloc: Global,
    strips: &mut Vec<Strip>,
    line: &Line,
    letters: &[Row<u8>],
    words: &[Row<u8>],
) -> Result<(), AllocError>
    ensures { OnOk result (strips.new.items ≡ strips.old.items ++ strips_by line.now letters.now words.now) }
{
    for index in 0..larger(letters.len(), words.len()) {
        strips.push(strip_at(alloc, line, letters, words, index)?)?;
    }
    Ok(())
}

// The statement of a line, and what stands below it.
fn push_words_of(
    alloc: Global,
    words: &mut Vec<Row<u8>>,
    scripts: &[Row<Row<u8>>],
    line: &Line,
) -> Result<(), AllocError>
    ensures { OnOk result (words.new.items ≡ words.old.items ++ words_of scripts.now line.now) }
{
    let statement = label(scripts, line.head.unit, line.head.place);
    push_folded(alloc, words, 42, statement)?;
    push_folded(alloc, words, 42, line.below())
}

fn push_strips_of(
    alloc: Global,
    strips: &mut Vec<Strip>,
    scripts: &[Row<Row<u8>>],
    line: &Line,
) -> Result<(), AllocError>
    ensures { OnOk result (strips.new.items ≡ strips.old.items ++ strips_of scripts.now line.now) }
{
    let all = line.letters(alloc)?;
    let mut letters = Vec::new(alloc);
    push_folded(alloc, &mut letters, 32, all.as_slice())?;
    let mut words = Vec::new(alloc);
    push_words_of(alloc, &mut words, scripts, line)?;
    push_strips_by(alloc, strips, line, letters.as_slice(), words.as_slice())
}

/// The strips of the lines of these events.
pub fn strips_of(
    alloc: Global,
    scripts: &[Row<Row<u8>>],
    events: &[Event],
) -> Result<Vec<Strip>, AllocError>
    ensures { IfOk result (λ all. all.items ≡ strips scripts.now (lines events.now)) }
{
    let lines = lines_of(alloc, events)?;
    let mut all = Vec::new(alloc);
    for line in &lines {
        push_strips_of(alloc, &mut all, scripts, line)?;
    }
    Ok(all)
}
