//! Which items of its work area a program reads.

ghost use Rattle.dbtg_explore.specs.Counted.{asks_for, is_field, is_read_by, reads, stands_for};
ghost use Rattle.dbtg_explore.specs.Inside.Keys.{items_read};
ghost use Rattle.std.specs.List.{list_any};
ghost use Rattle.std.specs.Prelude.{◌≡◌, IfOk, map};

use dbtg_going::count_items;
use dbtg_program::{Condition, Operand, Program, Sentence, Word};
use dbtg_schema::Row;
use std::alloc::{AllocError, Global};

fn is_field(operand: &Operand, field: usize) -> bool
    ensures { result ≡ is_field field operand.now }
{
    match operand {
        Operand::Literal(_) => false,
        Operand::Field(own) => *own == field,
    }
}

fn asks_for(condition: &Condition, field: usize) -> bool
    ensures { result ≡ asks_for field condition.now }
{
    match condition {
        Condition::Compare { left, right, .. } => is_field(left, field) || is_field(right, field),
        Condition::Status { .. } => false,
    }
}

fn stands_for(word: &Word, field: usize) -> bool
    ensures { result ≡ stands_for field word.now }
{
    match word {
        Word::Field(own) => *own == field,
        Word::Plain(_) | Word::Equals | Word::Literal(_) => false,
    }
}

// Does a word of a statement stand for the field?
fn is_said(words: &[Word], field: usize) -> bool
    ensures { result ≡ list_any (stands_for field) words.now }
{
    words.iter().any(|word| stands_for(word, field))
}

fn is_read_by(sentence: &Sentence, field: usize) -> bool
    ensures { result ≡ is_read_by field sentence.now }
{
    match sentence {
        Sentence::Filled(words) => is_said(words.as_slice(), field),
        Sentence::Move(operand, _) => is_field(operand.get(), field),
        Sentence::Add(operand, own) | Sentence::Subtract(operand, own) => {
            is_field(operand.get(), field) || *own == field
        }
        Sentence::If(condition, _) | Sentence::Assert(condition) => {
            asks_for(condition.get(), field)
        }
        Sentence::Heading | Sentence::Statement(_) | Sentence::GoTo(_) | Sentence::Stop => false,
    }
}

fn reads(program: &Program, field: usize) -> bool
    ensures { result ≡ reads program.now field }
{
    let lines = program.lines.as_slice();
    lines.iter().any(|line| is_read_by(&line.sentence, field))
}

// For each item, whether some sentence reads it.
fn items_read(alloc: Global, program: &Program) -> Result<Row<bool>, AllocError>
    ensures { IfOk result (λ read. read ≡ items_read program.now) }
{
    let mut read = Vec::new(alloc);
    for item in 0..count_items(program) {
        read.push(reads(program, item))?;
    }
    Ok(Row::of(read))
}

/// The same of each program.
pub fn each_items_read(alloc: Global, programs: &[Program]) -> Result<Vec<Row<bool>>, AllocError>
    ensures { IfOk result (λ reads. reads.items ≡ map items_read programs.now) }
{
    let mut reads = Vec::new(alloc);
    for program in programs {
        reads.push(items_read(alloc, program)?)?;
    }
    Ok(reads)
}
