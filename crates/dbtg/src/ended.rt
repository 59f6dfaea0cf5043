//! What a command comes to, and the exit status that says so.

ghost use Rattle.std.specs.Prelude.{◌≡◌, [], None, if◌then◌else◌};
ghost use Rattle.std.specs.Process.{exit_status};
ghost use Rattle.dbtg.specs.Ended.{code};
ghost use Rattle.dbtg.specs.declared.ended.Status.TheVariants.{Done, Failed, Refused};
ghost use Rattle.dbtg_command.specs.Refusals.{status_of};

use dbtg_command::{Fault, status_of};
use dbtg_running::Printed;
use std::alloc::Global;
use std::process::ExitCode;

/// Why the program ends; each has an exit status of its own.
#[derive(Clone, Copy)]
pub enum Status {
    /// What was asked for is done: 0.
    Done,
    /// A text has a fault, a file cannot be read or written, or a trace differs: 1.
    Refused,
    /// The command's words are wrong, or name what is not there: 2.
    WrongWords,
    /// Memory is wanting: 3.
    Memory,
    /// A program failed or can fail, the first one does not end, programs can run for ever, or some order breaks a wish: 4.
    Failed,
    /// The reader of standard output has gone away: 141, with which a shell reports that SIGPIPE ended a program.
    ReaderGone,
}

impl Status {
    /// That of a fault.
    pub fn of_fault(fault: &Fault) -> Self
        ensures { code result ≡ status_of fault.now }
    {
        match status_of(fault) {
            2 => Status::WrongWords,
            3 => Status::Memory,
            _ => Status::Refused,
        }
    }

    /// As the program ends with it.
    pub fn exit_code(self) -> ExitCode
        ensures { exit_status result ≡ code self }
    {
        ExitCode::from(match self {
            Status::Done => 0,
            Status::Refused => 1,
            Status::WrongWords => 2,
            Status::Memory => 3,
            Status::Failed => 4,
            Status::ReaderGone => 141,
        })
    }
}

/// What a command comes to: its text, which goes to standard output; what is told beside it on standard error; why the program ends; and
/// the turns of its run, if they can be saved.
#[derive(Drop)]
pub struct Ended {
    pub text: Vec<u8>,
    pub told: Vec<u8>,
    pub status: Status,
    pub turns: Option<Vec<u8>>,
}

impl Ended {
    /// A text alone.
    pub fn of_text(alloc: Global, text: Vec<u8>) -> Self
        ensures text { result.text ≡ text }
        ensures told { result.told.items ≡ [] }
        ensures status { result.status ≡ Done }
        ensures turns { result.turns ≡ None }
    {
        Self {
            text,
            told: Vec::new(alloc),
            status: Status::Done,
            turns: None,
        }
    }

    /// No text, but what is told.
    pub fn told(alloc: Global, told: Vec<u8>, status: Status) -> Self
        ensures text { result.text.items ≡ [] }
        ensures told { result.told ≡ told }
        ensures status { result.status ≡ status }
        ensures turns { result.turns ≡ None }
    {
        Self {
            text: Vec::new(alloc),
            told,
            status,
            turns: None,
        }
    }

    /// What is printed of programs.
    pub fn of_programs(printed: Printed) -> Self
        ensures text { result.text ≡ printed.text }
        ensures told { result.told ≡ printed.beside }
        ensures status { result.status ≡ (if printed.failed then Failed else Done) }
        ensures turns { result.turns ≡ None }
    {
        let Printed {
            text,
            failed,
            beside,
        } = printed;
        Self {
            text,
            told: beside,
            status: if failed { Status::Failed } else { Status::Done },
            turns: None,
        }
    }
}
