//! Why a trace is refused.

ghost use Rattle.dbtg_trace.specs.Faults.{cause_number};
ghost use Rattle.dbtg_trace.specs.declared.fault.EntryFault.TheVariants as entry_fault;
ghost use Rattle.std.specs.Prelude.{◌≡◌};

use dbtg_script::Cause;
use std::alloc::{AllocError, AllocFailed};
use std::fmt::{Debug, Display, Formatter, Result as FmtResult, Write};
use thiserror::Error;

/// What is wrong with a trace. Each cause has a number by which it is printed.
#[derive(Clone, Copy)]
pub enum TraceCause {
    /// 1 to 14: as in a script, but 14 is a text of more than 67,108,864 bytes, or statement 524,281
    AsInScript(Cause),
    /// 31: no unit before the first colon, or one that does not exist
    NoUnit,
    /// 32: no arrow after the unit
    NoArrow,
    /// 33: after the arrow no status, no key, or not the items of the key's record type
    NoAnswer,
}

impl TraceCause {
    /// The number by which this cause is printed.
    pub fn number(self) -> u8
        ensures { result ≡ cause_number self }
    {
        match self {
            TraceCause::AsInScript(cause) => cause.number(),
            TraceCause::NoUnit => 31,
            TraceCause::NoArrow => 32,
            TraceCause::NoAnswer => 33,
        }
    }
}

/// A fault of a trace: what is wrong, and on which line, from 1.
#[derive(Clone, Copy)]
pub struct Fault {
    pub line: u64,
    pub cause: TraceCause,
}

/// Why no trace was read.
#[derive(Drop, Error)]
pub enum TraceFault {
    /// The first fault of the text.
    #[error("trace fault {} line {line}", .cause.number())]
    Refused { line: u64, cause: TraceCause },
    /// Memory was refused before a fault was met.
    #[error("want of memory")]
    Memory,
}

impl Debug for TraceFault {
    fn fmt<W: Write>(&self, f: &mut Formatter<W>) -> FmtResult {
        Display::fmt(self, f)
    }
}

/// Why a line was not read.
#[derive(Drop)]
pub enum EntryFault {
    Refused(TraceCause),
    Memory,
}

impl<T: Drop> From<AllocFailed<T>> for EntryFault {
    ghost from_gives = { λ _ e. e ≡ entry_fault.Memory };

    fn from(_e: AllocFailed<T>) -> EntryFault {
        EntryFault::Memory
    }
}

impl From<AllocError> for EntryFault {
    ghost from_gives = { λ _ e. e ≡ entry_fault.Memory };

    fn from(_e: AllocError) -> EntryFault {
        EntryFault::Memory
    }
}
