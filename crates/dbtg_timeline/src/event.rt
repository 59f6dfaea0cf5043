//! The result of a move of a run, as the picture shows it.
ghost use Rattle.std.specs.Prelude.{◌≡◌, IfOk};
ghost use Rattle.dbtg_timeline.specs.Marks.{is_begin, is_idle, letter, ticket_letter};

use dbtg_schema::Row;
use std::alloc::{AllocError, Global};

/// The event that a move made, or why it made none. A ticket is shown with its number and the statement's status.
#[derive(Clone, Copy)]
pub enum Mark {
    Begin,
    TakeArea,
    TakeCell,
    /// Guesses are stale: the statement turns back.
    TurnBack,
    /// A cell is put back while the statement turns back.
    Return,
    Ticket { ticket: u64, status: u16 },
    Link,
    PutBack,
    LeaveArea,
    Quit,
    Blocked,
    Idle,
}

/// A move: its mark, its unit, the place in the unit's script of the statement that the unit is in or before, from 0, and whether
/// the unit is in mid-statement afterwards; and what stands below its statement: what it waits for, if it is blocked.
#[derive(Drop)]
pub struct Event {
    pub unit: u8,
    pub mark: Mark,
    pub place: usize,
    pub midway: bool,
    pub below: Row<u8>,
}

impl Event {
    pub fn copy(&self, alloc: Global) -> Result<Event, AllocError>
        ensures { IfOk result (λ event. event ≡ self.now) }
    {
        Ok(Event {
            unit: self.unit,
            mark: self.mark,
            place: self.place,
            midway: self.midway,
            below: self.below.copy(alloc)?,
        })
    }
}

/// The letter of a ticket: refused statements have another.
pub fn ticket_letter(status: u16) -> u8
    ensures { result ≡ ticket_letter status }
{
    if status == 0 { b'T' } else { b'X' }
}

/// The letter that stands for a mark.
pub fn letter(mark: Mark) -> u8
    ensures { result ≡ letter mark }
{
    match mark {
        Mark::Begin => b'b',
        Mark::TakeArea => b'a',
        Mark::TakeCell => b'c',
        Mark::TurnBack => b'R',
        Mark::Return => b'r',
        Mark::Ticket { status, .. } => ticket_letter(status),
        Mark::Link => b'l',
        Mark::PutBack => b'p',
        Mark::LeaveArea => b'v',
        Mark::Quit => b'Q',
        Mark::Blocked => b'B',
        Mark::Idle => b'I',
    }
}

pub fn is_begin(mark: Mark) -> bool
    ensures { result ≡ is_begin mark }
{
    matches!(mark, Mark::Begin)
}

pub fn is_idle(mark: Mark) -> bool
    ensures { result ≡ is_idle mark }
{
    matches!(mark, Mark::Idle)
}
