//! The end of the program: what a command comes to is written, and faults are told.

ghost use Rattle.std.specs.Prelude.{◌≡◌};
ghost use Rattle.dbtg.specs.Ended.{code};
ghost use Rattle.dbtg_command.specs.Refusals.{status_of};

use crate::ended::{Ended, Status};
use clap::error::ErrorKind;
use dbtg_command::reason::reason;
use dbtg_command::{Call, Fault, Files, Named};
use dbtg_shell::write_file;
use std::alloc::AllocError;
use std::env;
use std::io::{self, IsTerminal, Write};

// The first line of a fault.
fn tell_line(rt: &HostRuntime, fault: &Fault) -> Status
    ensures { code result ≡ status_of fault.now }
{
    let _ = eprintln!(rt; "{fault}");
    Status::of_fault(fault)
}

// Does the environment ask for second lines? It does by the value 1 alone.
fn environment_explains(rt: &HostRuntime) -> bool {
    matches!(env::var(rt, "DBTG_EXPLAIN"), Ok(value) if value.as_str() == "1")
}

// Does a fault have a second line? On a terminal it has one without being asked, and in the shell always.
fn explains_faults(rt: &HostRuntime, call: &Call) -> bool {
    let unasked = matches!(call.named, Named::Shell) || rt.stderr().is_terminal();
    !call.no_explain && (call.explains || unasked || environment_explains(rt))
}

/// Tells a fault of what a command is given. A second line says where and why, if it is wanted.
pub fn tell_fault(
    rt: &HostRuntime,
    files: &Files<HostRuntime>,
    call: &Call,
    fault: &Fault,
) -> Status
    ensures { code result ≡ status_of fault.now }
{
    let status = tell_line(rt, fault);
    if explains_faults(rt, call) {
        if let Ok(Some(line)) = reason(rt.alloc(), files, fault) {
            let _ = eprintln!(rt; "{line}");
        }
    }
    status
}

// Arguments that are not text, or a refusal of memory.
pub fn tell_arguments(rt: &HostRuntime, error: &io::Error) -> Status {
    if error.kind() == io::ErrorKind::OutOfMemory {
        return tell_line(rt, &Fault::Memory);
    }
    let _ = eprintln!(rt; "the command's words are not text in UTF-8");
    Status::WrongWords
}

/// Help and version go to standard output; other words are refused.
pub fn tell_words(rt: &HostRuntime, error: &clap::Error) -> Status {
    if error.kind() == ErrorKind::OutOfMemory {
        return tell_line(rt, &Fault::Memory);
    }
    let printed = error.print(rt);
    if error.exit_code() != 0 {
        return Status::WrongWords;
    }
    match printed {
        Ok(()) => Status::Done,
        Err(error) => tell_unwritten(rt, &error),
    }
}

/// A reader such as `head` may have read enough and gone away. That is no fault, and nothing is printed.
pub fn tell_unwritten(rt: &HostRuntime, error: &io::Error) -> Status {
    if error.kind() == io::ErrorKind::BrokenPipe {
        return Status::ReaderGone;
    }
    let _ = eprintln!(rt; "cannot write to standard output");
    Status::Refused
}

fn tell(rt: &HostRuntime, told: &[u8]) -> Result<(), AllocError> {
    let lines = String::from_utf8_lossy(rt.alloc(), told)?;
    let _ = eprint!(rt; "{lines}");
    Ok(())
}

// The text, and this status if it could be written.
fn print(rt: &HostRuntime, text: &[u8], status: Status) -> Status {
    let mut out = io::writer(rt);
    match out.write_all(text) {
        Ok(()) => status,
        Err(error) => tell_unwritten(rt, &error),
    }
}

// Writes turns into the file that is named, if one is; false if that fails, which is reported.
fn are_saved(rt: &HostRuntime, turns: &Option<Vec<u8>>, saved: Option<&str>) -> bool {
    let (Some(turns), Some(path)) = (turns, saved) else {
        return true;
    };
    let is_written = write_file(rt, path, turns.as_slice()).is_ok();
    if !is_written {
        let _ = eprintln!(rt; "cannot write {path}");
    }
    is_written
}

/// Writes what a command comes to: the turns into the file that is named, what is told beside the text, and the text.
pub fn write_ended(rt: &HostRuntime, ended: &Ended, saved: Option<&str>) -> Status {
    if !are_saved(rt, &ended.turns, saved) {
        return Status::Refused;
    }
    match tell(rt, ended.told.as_slice()) {
        Ok(()) => print(rt, ended.text.as_slice(), ended.status),
        Err(_) => tell_line(rt, &Fault::Memory),
    }
}
