//! `explain`: what a status means, or a fault of a schema, a script, a program, moves, turns or a trace.
ghost use Rattle.std.specs.Prelude.{◌≡◌, ◌++◌, IfOk, OnOk, map, option_map};
ghost use Rattle.std.specs.List.{flat_map};
ghost use Rattle.dbtg_script.specs.Lines.{lines};
ghost use Rattle.dbtg_explain.specs.Explaining.{
  IsAsked,
  IsAskedBy,
  IsCode,
  IsFault,
  IsStatus,
  all_text,
  cause_of,
  fault_field,
  fault_line,
  fault_table,
  fault_text,
  faults_before,
  faults_of,
  faults_text,
  kind_in,
  kind_listing,
  kind_row,
  line_text,
  number_in,
  status_line,
  status_text,
  there_text,
  topic_text,
};

use crate::causes::CAUSES;
use crate::faults::{
    MOVES_FAULTS, PROGRAM_FAULTS, SCHEMA_FAULTS, SCRIPT_FAULTS, TRACE_FAULTS, TURNS_FAULTS,
};
use crate::idms::STATUSES_THERE;
use crate::row::{field, next_row, push_form, row_with};
use crate::statuses::STATUSES;
use dbtg_script::{is_number, number};
use std::alloc::{AllocError, Global};

/// The kind of text that has a fault.
#[derive(Clone, Copy)]
pub enum Kind {
    Schema,
    Script,
    Program,
    Moves,
    Turns,
    Trace,
}

/// What is to be explained. Its rows are those of the code that was asked for.
#[derive(Clone, Copy, Drop)]
pub enum Topic {
    All,
    Done,
    /// The faults of a kind of text.
    Faults(Kind),
    /// A status of IDMS that is none here.
    There {
        row: &'static [u8],
    },
    Status {
        status: &'static [u8],
        cause: &'static [u8],
    },
    Fault {
        kind: Kind,
        fault: &'static [u8],
    },
}

/// The number that digits say, up to a greatest one.
pub fn number_in(digits: &[u8], most: u16) -> Option<u16>
    ensures { result ≡ number_in most digits.now }
{
    if !is_number(digits) {
        return None;
    }
    let value = number(digits);
    if value <= most as u64 {
        Some(value as u16)
    } else {
        None
    }
}

/// The status of this code, which is its statement's code times 100 and its cause's.
pub fn status_topic(code: u16) -> Option<Topic>
    ensures { IsStatus code result }
{
    if code == 0 {
        return Some(Topic::Done);
    }
    let status = row_with(STATUSES, code)?;
    let cause = row_with(CAUSES, code % 100)?;
    Some(Topic::Status { status, cause })
}

/// The same, or what a code means in IDMS if no status has it here.
fn code_topic(code: u16) -> Option<Topic>
    ensures { IsCode code result }
{
    match status_topic(code) {
        Some(topic) => Some(topic),
        None => {
            let row = row_with(STATUSES_THERE, code)?;
            Some(Topic::There { row })
        }
    }
}

/// The faults of a kind of text.
fn faults_of(kind: Kind) -> &'static str
    ensures { result.now ≡ faults_of kind }
{
    match kind {
        Kind::Schema => SCHEMA_FAULTS,
        Kind::Script => SCRIPT_FAULTS,
        Kind::Program => PROGRAM_FAULTS,
        Kind::Moves => MOVES_FAULTS,
        Kind::Turns => TURNS_FAULTS,
        Kind::Trace => TRACE_FAULTS,
    }
}

/// The kind of text whose faults list the one with this number: programs and traces have those of scripts too, below 14.
fn kind_listing(kind: Kind, number: u16) -> Kind
    ensures { result ≡ kind_listing kind number }
{
    match kind {
        Kind::Program | Kind::Trace => { if number < 14 { Kind::Script } else { kind } }
        Kind::Schema | Kind::Script | Kind::Moves | Kind::Turns => kind,
    }
}

/// The fault with this number, of the kind of text that lists it.
pub fn fault_topic(kind: Kind, number: u16) -> Option<Topic>
    ensures { IsFault kind number result }
{
    let kind = kind_listing(kind, number);
    let fault = row_with(faults_of(kind), number)?;
    Some(Topic::Fault { kind, fault })
}

fn kind_in(word: &str) -> Option<Kind>
    ensures { result ≡ kind_in word.now }
{
    if word == "schema" {
        Some(Kind::Schema)
    } else if word == "script" {
        Some(Kind::Script)
    } else if word == "program" {
        Some(Kind::Program)
    } else if word == "moves" {
        Some(Kind::Moves)
    } else if word == "turns" {
        Some(Kind::Turns)
    } else if word == "trace" {
        Some(Kind::Trace)
    } else {
        None
    }
}

/// A kind of text, or a code; zeros before it may be left out.
fn topic_of_word(word: &str) -> Option<Topic>
    ensures { IsAskedBy word.now result }
{
    match kind_in(word) {
        Some(kind) => Some(Topic::Faults(kind)),
        None if word.len() <= 4 => code_topic(number_in(word.as_bytes(), 9999)?),
        None => None,
    }
}

/// What the words after `explain` ask for. `None` if there is nothing to explain.
pub fn topic_of(words: &[&str]) -> Option<Topic>
    ensures { IsAsked (map (λ word. word.now) words.now) result }
{
    match words {
        [] => Some(Topic::All),
        [word] => topic_of_word(word),
        [kind, number] => fault_topic(kind_in(kind)?, number_in(number.as_bytes(), 99)?),
        _ => None,
    }
}

fn fault_field(kind: Kind, fault: u8, number: usize) -> &'static [u8]
    ensures { result.now ≡ fault_field kind fault number }
{
    let fault = fault as u16;
    match row_with(faults_of(kind_listing(kind, fault)), fault) {
        Some(row) => field(row, number),
        None => &[],
    }
}

/// The meaning of a fault's number.
pub fn meaning_of(kind: Kind, number: u8) -> &'static [u8]
    ensures { result.now ≡ fault_field kind number 1 }
{
    fault_field(kind, number, 1)
}

/// What to do about a fault.
pub fn advice_for(kind: Kind, number: u8) -> &'static [u8]
    ensures { result.now ≡ fault_field kind number 3 }
{
    fault_field(kind, number, 3)
}

// The name of a kind of text, and the page that lists its faults.
fn kind_row(kind: Kind) -> &'static [u8]
    ensures { result.now ≡ kind_row kind }
{
    let row = match kind {
        Kind::Schema => "schema|schema-language.md, Faults",
        Kind::Script => "script|scripts.md, Faults",
        Kind::Program => "program|programs.md, Faults",
        Kind::Moves => "moves|events.md, Moves",
        Kind::Turns => "turns|events.md, Turns",
        Kind::Trace => "trace|traces.md, Faults",
    };
    row.as_bytes()
}

const DONE: &str = "\
0000: done
Meaning: The statement is done, whichever it is.
More: docs/profile/statements.md
";

const STATUS: &str = "\
0 1: 2
Meaning: 3
When: 4
Unchanged: A refusal changes nothing: database, unit and areas in use are as they were.
Next: 5
More: docs/profile/statuses.md, 6 2; docs/profile/statements.md, 1
";

const THERE: &str = "\
0 in IDMS: 1
Here: 2
More: docs/coming-from-idms.md, Status
";

const OF_SCRIPTS: &str = "faults 1 to 13 are those of a script: explain script\n";

const FAULT: &str = "\
0 fault 1: 2
Found: 3
Unchanged: Nothing is run, and nothing is written to standard output.
Next: 4
More: docs/profile/5
";

fn status_text(alloc: Global, status: &[u8], cause: &[u8]) -> Result<Vec<u8>, AllocError>
    ensures { IfOk result (λ out. out.items ≡ status_text status.now cause.now) }
{
    let parts = [
        field(status, 0),
        field(status, 1),
        field(cause, 1),
        field(cause, 2),
        field(status, 2),
        field(cause, 3),
        field(cause, 0),
    ];
    let mut out = Vec::new(alloc);
    push_form(&mut out, STATUS.as_bytes(), &parts)?;
    Ok(out)
}

fn there_text(alloc: Global, row: &[u8]) -> Result<Vec<u8>, AllocError>
    ensures { IfOk result (λ out. out.items ≡ there_text row.now) }
{
    let parts = [field(row, 0), field(row, 1), field(row, 2)];
    let mut out = Vec::new(alloc);
    push_form(&mut out, THERE.as_bytes(), &parts)?;
    Ok(out)
}

fn fault_text(alloc: Global, about: &[u8], fault: &[u8]) -> Result<Vec<u8>, AllocError>
    ensures { IfOk result (λ out. out.items ≡ fault_text about.now fault.now) }
{
    let parts = [
        field(about, 0),
        field(fault, 0),
        field(fault, 1),
        field(fault, 2),
        field(fault, 3),
        field(about, 1),
    ];
    let mut out = Vec::new(alloc);
    push_form(&mut out, FAULT.as_bytes(), &parts)?;
    Ok(out)
}

// Appends a line of the list of all: its kind, its code, and its meaning.
fn push_entry(out: &mut Vec<u8>, name: &[u8], code: &[u8], meaning: &[u8]) -> Result<(), AllocError>
    ensures { OnOk result (out.new.items ≡ out.old.items ++ line_text name.now code.now meaning.now) }
{
    push_form(out, "0 1: 2\n".as_bytes(), &[name, code, meaning])
}

// The cause with the last two digits of a status.
fn cause_of(status: &[u8]) -> Option<&'static [u8]>
    ensures { option_map (λ cause. cause.now) result ≡ cause_of status.now }
{
    let code = number_in(field(status, 0), 9999)?;
    row_with(CAUSES, code % 100)
}

fn push_status_line(out: &mut Vec<u8>, status: &[u8]) -> Result<(), AllocError>
    ensures { OnOk result (out.new.items ≡ out.old.items ++ status_line status.now) }
{
    match cause_of(status) {
        Some(cause) => push_entry(out, field(status, 0), field(status, 1), field(cause, 1)),
        None => Ok(()),
    }
}

fn push_statuses(out: &mut Vec<u8>) -> Result<(), AllocError>
    ensures { OnOk result (out.new.items ≡ out.old.items ++ flat_map status_line (lines STATUSES.now)) }
{
    let mut rest = STATUSES.as_bytes();
    while let Some((status, behind)) = next_row(rest) {
        push_status_line(out, status)?;
        rest = behind;
    }
    Ok(())
}

fn push_fault_line(out: &mut Vec<u8>, kind: Kind, fault: &[u8]) -> Result<(), AllocError>
    ensures { OnOk result (out.new.items ≡ out.old.items ++ fault_line kind fault.now) }
{
    push_entry(
        out,
        field(kind_row(kind), 0),
        field(fault, 0),
        field(fault, 1),
    )
}

fn push_each_fault(out: &mut Vec<u8>, kind: Kind) -> Result<(), AllocError>
    ensures { OnOk result (out.new.items ≡ out.old.items ++ fault_table kind) }
{
    let mut rest = faults_of(kind).as_bytes();
    while let Some((fault, behind)) = next_row(rest) {
        push_fault_line(out, kind, fault)?;
        rest = behind;
    }
    Ok(())
}

// What is said before the faults that a kind of text has in addition to those of scripts.
fn faults_before(kind: Kind) -> &'static str
    ensures { result.now ≡ faults_before kind }
{
    match kind {
        Kind::Program | Kind::Trace => OF_SCRIPTS,
        Kind::Schema | Kind::Script | Kind::Moves | Kind::Turns => "",
    }
}

fn faults_text(alloc: Global, kind: Kind) -> Result<Vec<u8>, AllocError>
    ensures { IfOk result (λ out. out.items ≡ faults_text kind) }
{
    let mut out = Vec::from_slice(alloc, faults_before(kind).as_bytes())?;
    push_each_fault(&mut out, kind)?;
    Ok(out)
}

fn all_text(alloc: Global) -> Result<Vec<u8>, AllocError>
    ensures { IfOk result (λ out. out.items ≡ all_text) }
{
    let mut out = Vec::new(alloc);
    out.extend_from_slice("0000: done\n".as_bytes())?;
    push_statuses(&mut out)?;
    push_each_fault(&mut out, Kind::Schema)?;
    push_each_fault(&mut out, Kind::Script)?;
    push_each_fault(&mut out, Kind::Program)?;
    push_each_fault(&mut out, Kind::Moves)?;
    push_each_fault(&mut out, Kind::Turns)?;
    push_each_fault(&mut out, Kind::Trace)?;
    Ok(out)
}

/// The text that is printed for a topic.
pub fn explained(alloc: Global, topic: &Topic) -> Result<Vec<u8>, AllocError>
    ensures { IfOk result (λ out. out.items ≡ topic_text topic.now) }
{
    match *topic {
        Topic::All => all_text(alloc),
        Topic::Done => Vec::from_slice(alloc, DONE.as_bytes()),
        Topic::Faults(kind) => faults_text(alloc, kind),
        Topic::There { row } => there_text(alloc, row),
        Topic::Status { status, cause } => status_text(alloc, status, cause),
        Topic::Fault { kind, fault } => fault_text(alloc, kind_row(kind), fault),
    }
}
