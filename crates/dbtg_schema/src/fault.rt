//! Why a schema text is refused.

ghost use Rattle.std.specs.Prelude.{◌≡◌};
ghost use Rattle.dbtg_schema.specs.declared.fault.SchemaFault.TheVariants.{Memory, Refused};
ghost use Rattle.dbtg_schema.specs.Texts.Causes.{cause_number};

use std::alloc::{AllocError, AllocFailed};
use thiserror::Error;

/// What is wrong with a schema text. Each cause has a number, 1 to 18, by which it is printed.
#[derive(Clone, Copy, Debug)]
pub enum Cause {
    /// 1: a byte that is not allowed
    ByteNotAllowed,
    /// 2: more than 65,536 bytes
    TextTooLong,
    /// 3: another word, or the end of the text, where the grammar wants something else
    UnexpectedWord,
    /// 4: a word that is not a name where a name is wanted
    NotAName,
    /// 5: a name that an area, a record type or a set already has
    NameTaken,
    /// 6: an item name twice in a record type
    ItemNameTwice,
    /// 7: an unknown area after WITHIN
    UnknownArea,
    /// 8: an unknown record type after OWNER or MEMBER
    UnknownRecordType,
    /// 9: a CALC or KEY item that the record type does not have
    UnknownItem,
    /// 10: an unknown set after VIA
    UnknownSet,
    /// 11: a word that is not a picture where one is wanted
    NotAPicture,
    /// 12: the owner type is the member type
    OwnerIsMember,
    /// 13: a member type twice in a set
    MemberTwice,
    /// 14: key pictures of unequal kind or length in a set
    KeyPicturesDiffer,
    /// 15: KEY missing in a sorted set, or there in another
    KeyMisplaced,
    /// 16: over a limit: 8 areas, 16 record types, 16 sets, 16 items, 4 members, 4 CALC items
    OverLimit,
    /// 17: a record type without items
    NoItems,
    /// 18: an item twice in CALC USING
    CalcItemTwice,
}

impl Cause {
    /// The number by which this cause is printed, 1 to 18.
    pub fn number(self) -> u8
        ensures { result ≡ cause_number self }
    {
        match self {
            Cause::ByteNotAllowed => 1,
            Cause::TextTooLong => 2,
            Cause::UnexpectedWord => 3,
            Cause::NotAName => 4,
            Cause::NameTaken => 5,
            Cause::ItemNameTwice => 6,
            Cause::UnknownArea => 7,
            Cause::UnknownRecordType => 8,
            Cause::UnknownItem => 9,
            Cause::UnknownSet => 10,
            Cause::NotAPicture => 11,
            Cause::OwnerIsMember => 12,
            Cause::MemberTwice => 13,
            Cause::KeyPicturesDiffer => 14,
            Cause::KeyMisplaced => 15,
            Cause::OverLimit => 16,
            Cause::NoItems => 17,
            Cause::CalcItemTwice => 18,
        }
    }
}

/// A fault of a text: what is wrong, and on which line, from 1.
#[derive(Clone, Copy)]
pub struct Fault {
    pub line: u64,
    pub cause: Cause,
}

/// Why no schema was read.
#[derive(Debug, Drop, Error)]
pub enum SchemaFault {
    /// The first fault of the text.
    #[error("schema fault {} line {line}", .cause.number())]
    Refused { line: u64, cause: Cause },
    /// Memory was refused before a fault was met.
    #[error("want of memory")]
    Memory,
}

impl SchemaFault {
    pub(crate) fn of(fault: Fault) -> SchemaFault
        ensures { result ≡ Refused fault.line fault.cause }
    {
        SchemaFault::Refused {
            line: fault.line,
            cause: fault.cause,
        }
    }
}

impl<T: Drop> From<AllocFailed<T>> for SchemaFault {
    ghost from_gives = { λ _ e. e ≡ Memory };

    fn from(_e: AllocFailed<T>) -> SchemaFault {
        SchemaFault::Memory
    }
}

impl From<AllocError> for SchemaFault {
    ghost from_gives = { λ _ e. e ≡ Memory };

    fn from(_e: AllocError) -> SchemaFault {
        SchemaFault::Memory
    }
}
