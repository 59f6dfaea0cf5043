//! Why a script is refused.

ghost use Rattle.dbtg_script.specs.Printing.Causes.{cause_number};
ghost use Rattle.dbtg_script.specs.declared.fault.LineFault.TheVariants as line_fault;
ghost use Rattle.std.specs.Prelude.{◌≡◌};

use std::alloc::{AllocError, AllocFailed};
use std::fmt::{Debug, Display, Formatter, Result as FmtResult, Write};
use thiserror::Error;

/// What is wrong with a script. Each cause has a number, 1 to 14, by which it is printed.
#[derive(Clone, Copy)]
pub enum Cause {
    /// 1: a byte of the line that is not printable ASCII, or a line of more than 1,000 bytes
    LineNotAllowed,
    /// 2: the first word does not begin a statement
    NoStatementWord,
    /// 3: another word, or the end of the line, where the grammar wants something else; an unclosed text
    UnexpectedWord,
    /// 4: an unknown area
    UnknownArea,
    /// 5: an unknown record type
    UnknownRecordType,
    /// 6: an unknown set
    UnknownSet,
    /// 7: an item that the record type does not have
    UnknownItem,
    /// 8: an item named twice
    ItemTwice,
    /// 9: a text for a number item, or a number for a text item
    OtherKind,
    /// 10: a number above the greatest of its picture or of more than 18 digits, or a longer text
    TooGreat,
    /// 11: in FIND, a record type that is not a member of the set, or not in the area
    NotThere,
    /// 12: a FIND by CALC, by a sort key or of an owner, where the schema has no such thing
    NotThisWay,
    /// 13: a number, a key's number or a generation out of range
    OutOfRange,
    /// 14: a text of more than 1,048,576 bytes, or statement 65,536
    TooMuch,
}

impl Cause {
    /// The number by which this cause is printed, 1 to 14.
    pub fn number(self) -> u8
        ensures { result ≡ cause_number self }
    {
        match self {
            Cause::LineNotAllowed => 1,
            Cause::NoStatementWord => 2,
            Cause::UnexpectedWord => 3,
            Cause::UnknownArea => 4,
            Cause::UnknownRecordType => 5,
            Cause::UnknownSet => 6,
            Cause::UnknownItem => 7,
            Cause::ItemTwice => 8,
            Cause::OtherKind => 9,
            Cause::TooGreat => 10,
            Cause::NotThere => 11,
            Cause::NotThisWay => 12,
            Cause::OutOfRange => 13,
            Cause::TooMuch => 14,
        }
    }
}

/// A fault of a script: what is wrong, and on which line, from 1.
pub struct Fault {
    pub line: u64,
    pub cause: Cause,
}

/// Why no script was read.
#[derive(Drop, Error)]
pub enum ScriptFault {
    /// The first fault of the text.
    #[error("fault {} line {line}", .cause.number())]
    Refused { line: u64, cause: Cause },
    /// Memory was refused before a fault was met.
    #[error("want of memory")]
    Memory,
}

impl Debug for ScriptFault {
    fn fmt<W: Write>(&self, f: &mut Formatter<W>) -> FmtResult {
        Display::fmt(self, f)
    }
}

/// Why a line was not read.
#[derive(Drop)]
pub enum LineFault {
    Refused(Cause),
    Memory,
}

impl<T: Drop> From<AllocFailed<T>> for LineFault {
    ghost from_gives = { λ _ e. e ≡ line_fault.Memory };

    fn from(_e: AllocFailed<T>) -> LineFault {
        LineFault::Memory
    }
}

impl From<AllocError> for LineFault {
    ghost from_gives = { λ _ e. e ≡ line_fault.Memory };

    fn from(_e: AllocError) -> LineFault {
        LineFault::Memory
    }
}
