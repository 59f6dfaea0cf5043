//! What is told of the script or the program that goes first: which of its statements were refused. It is printed beside a command's
//! output.
ghost use Rattle.std.specs.Prelude.{◌≡◌, ◌==◌, ◌++◌, ◌≤◌, ◌<◌, [], IfOk, OnOk, if◌then◌else◌, map};
ghost use Rattle.dbtg_schema.specs.Sound.{IsSound};
ghost use Rattle.dbtg_command.specs.Sources.{ReadSchema};
ghost use Rattle.dbtg_replay.specs.Refused.{TellsOfFirst, capacity_text, refusals_text, refused_line, refused_lines, stated_text, ticket_text};
ghost use Rattle.dbtg_unit.specs.declared.unit.Status.TheVariants.{Refused};

use crate::scripts::{Scripts, take_next};
use dbtg_command::{Fault, Source, read_schema};
use dbtg_schema::{Row, Schema};
use dbtg_script::{lines_of_history, push_number, push_status};
use dbtg_step::run_serial;
use dbtg_unit::{Cause, Entry, Status};
use std::alloc::{AllocError, Global};

/// The unit that goes first, with what it is called, and the capacity of the run.
#[derive(Clone, Copy)]
pub struct FirstUnit<'a> {
    pub name: &'a [u8],
    pub unit: u8,
    pub capacity: u16,
}

fn push_capacity(out: &mut Vec<u8>, capacity: u16, cause: Cause) -> Result<(), AllocError>
    ensures { OnOk result (out.new.items ≡ out.old.items ++ capacity_text capacity cause) }
{
    match cause {
        Cause::NoRoom => {
            out.extend_from_slice(b", capacity ")?;
            push_number(out, capacity as u64)
        }
        _ => Ok(()),
    }
}

fn push_ticket(out: &mut Vec<u8>, name: &[u8], ticket: u64) -> Result<(), AllocError>
    ensures { OnOk result (out.new.items ≡ out.old.items ++ ticket_text name.now ticket) }
{
    out.extend_from_slice(name)?;
    out.extend_from_slice(b", ticket ")?;
    push_number(out, ticket)?;
    out.extend_from_slice(b": ")
}

fn push_stated(out: &mut Vec<u8>, status: u16, line: &[u8]) -> Result<(), AllocError>
    ensures { OnOk result (out.new.items ≡ out.old.items ++ stated_text status line.now) }
{
    push_status(out, status)?;
    out.push(b' ')?;
    out.extend_from_slice(line)
}

// A statement that was refused: its ticket, its status and its line.
fn push_refusal(
    out: &mut Vec<u8>,
    first: FirstUnit,
    entry: &Entry,
    line: &[u8],
    cause: Cause,
) -> Result<(), AllocError>
    ensures { OnOk result (out.new.items ≡ out.old.items ++ refused_line first.entry.name.now first.entry.capacity entry.now line.now (Refused cause)) }
{
    push_ticket(out, first.name, entry.ticket)?;
    push_stated(out, Status::Refused(cause).code(&entry.statement), line)?;
    push_capacity(out, first.capacity, cause)?;
    out.push(b'\n')?;
    Ok(())
}

// The same, if the statement is of the unit and was refused.
fn push_entry(
    out: &mut Vec<u8>,
    first: FirstUnit,
    entry: &Entry,
    line: &[u8],
) -> Result<(), AllocError>
    ensures { OnOk result (out.new.items ≡ out.old.items ++ (if entry.now.unit == first.entry.unit then refused_line first.entry.name.now first.entry.capacity entry.now line.now entry.now.answer.status else [])) }
{
    match entry.answer.status {
        Status::Refused(cause) if entry.unit == first.unit => {
            push_refusal(out, first, entry, line, cause)
        }
        _ => Ok(()),
    }
}

fn push_each_entry(
    out: &mut Vec<u8>,
    first: FirstUnit,
    lines: &[&[u8]],
    history: &[Entry],
) -> Result<(), AllocError>
    ensures { OnOk result (out.new.items ≡ out.old.items ++ refused_lines first.entry.name.now first.entry.capacity first.entry.unit (map (λ l. l.now) lines.now) history.now) }
{
    for (i, line) in lines.iter().enumerate() {
        if i >= history.len() {
            return Ok(());
        }
        push_entry(out, first, &history[i], *line)?;
    }
    Ok(())
}

/// The lines that say which statements of the first unit were refused in a history, each as the texts of the scripts have it.
pub fn refusals_text(
    alloc: Global,
    first: FirstUnit,
    texts: &[Row<u8>],
    history: &[Entry],
) -> Result<Vec<u8>, AllocError>
    ensures { IfOk result (λ out. out.items ≡ refusals_text first.entry.name.now first.entry.capacity first.entry.unit texts.now history.now) }
{
    let lines = lines_of_history(alloc, texts, history)?;
    let mut out = Vec::new(alloc);
    push_each_entry(&mut out, first, lines.as_slice(), history)?;
    Ok(out)
}

// The refusals of the script with this number over a schema that was read. The script runs alone, as it does before the others.
fn refusals_over<S: Source>(
    alloc: Global,
    source: &S,
    known: &Schema,
    capacity: u16,
) -> Result<Vec<u8>, Fault>
    requires some { 0 < S.count source.now }
    requires schema { ReadSchema (S.holds source.now) known.now }
    requires sound { IsSound known.now }
    ensures { IfOk result (λ told. TellsOfFirst (S.holds source.now) (S.count source.now) capacity told.items) }
{
    let mut read = Scripts {
        statements: Row::of(Vec::new(alloc)),
        texts: Row::of(Vec::new(alloc)),
    };
    take_next(alloc, source, known, source.count(), &mut read)?;
    let Scripts { statements, texts } = read;
    let given = run_serial(alloc, known, capacity, statements)?;
    let first = FirstUnit {
        name: b"first script",
        unit: 1,
        capacity,
    };
    Ok(refusals_text(alloc, first, texts.as_slice(), given.history.as_slice())?)
}

/// The lines that say which statements of the last script are refused when it is made first.
pub fn refusals_of_first<S: Source>(
    alloc: Global,
    source: &S,
    capacity: u16,
) -> Result<Vec<u8>, Fault>
    ensures { IfOk result (λ told. 0 < S.count source.now → TellsOfFirst (S.holds source.now) (S.count source.now) capacity told.items) }
{
    let known = read_schema(alloc, source)?;
    if source.count() == 0 {
        return Ok(Vec::new(alloc));
    }
    refusals_over(alloc, source, &known, capacity)
}
