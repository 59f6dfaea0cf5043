//! Why a program is refused.

ghost use Rattle.dbtg_program.specs.Faults.{cause_number};
ghost use Rattle.dbtg_program.specs.declared.fault.LineFault.TheVariants as line_fault;
ghost use Rattle.dbtg_program.specs.declared.fault.ProgramFault.TheVariants.{Memory};
ghost use Rattle.std.specs.Prelude.{◌≡◌};

use dbtg_script::Cause;
use std::alloc::{AllocError, AllocFailed};

/// What is wrong with a program. Each cause has a number by which it is printed.
#[derive(Clone, Copy)]
pub enum ProgramCause {
    /// 1 to 14: as in a script
    AsInScript(Cause),
    /// 21: a paragraph that the text does not have
    UnknownParagraph,
    /// 22: a paragraph that the text has already
    ParagraphTwice,
    /// 23: neither an item nor a counter
    UnknownField,
    /// 24: a counter that exists already, has the name of a record type, or has no name
    CounterName,
    /// 25: a number and a text together, or a text that is added or subtracted
    TwoKinds,
    /// 26: a counter after another sentence
    CounterBehind,
    /// 27: counter 65
    TooManyCounters,
}

/// A fault of a program: what is wrong, and on which line, from 1.
#[derive(Clone, Copy)]
pub struct Fault {
    pub line: u64,
    pub cause: ProgramCause,
}

/// Why no program was read.
#[derive(Drop)]
pub enum ProgramFault {
    /// The first fault of the text.
    Refused { line: u64, cause: ProgramCause },
    /// Memory was refused before a fault was met.
    Memory,
}

impl From<AllocError> for ProgramFault {
    ghost from_gives = { λ _ e. e ≡ Memory };

    fn from(_e: AllocError) -> ProgramFault {
        ProgramFault::Memory
    }
}

impl ProgramCause {
    /// The number by which this cause is printed.
    pub fn number(self) -> u8
        ensures { result ≡ cause_number self }
    {
        match self {
            ProgramCause::AsInScript(cause) => cause.number(),
            ProgramCause::UnknownParagraph => 21,
            ProgramCause::ParagraphTwice => 22,
            ProgramCause::UnknownField => 23,
            ProgramCause::CounterName => 24,
            ProgramCause::TwoKinds => 25,
            ProgramCause::CounterBehind => 26,
            ProgramCause::TooManyCounters => 27,
        }
    }
}

/// Why a line was not read.
#[derive(Drop)]
pub enum LineFault {
    Refused(ProgramCause),
    Memory,
}

impl<T: Drop> From<AllocFailed<T>> for LineFault {
    ghost from_gives = { λ _ e. e ≡ line_fault.Memory };

    fn from(_e: AllocFailed<T>) -> LineFault {
        LineFault::Memory
    }
}

impl From<AllocError> for LineFault {
    ghost from_gives = { λ _ e. e ≡ line_fault.Memory };

    fn from(_e: AllocError) -> LineFault {
        LineFault::Memory
    }
}
