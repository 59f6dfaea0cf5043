//! Events whose tickets have notes.
ghost use Rattle.std.specs.Prelude.{◌≡◌, IfOk, map};
ghost use Rattle.dbtg_timeline.specs.Notes.{note_of, noted};

use crate::event::{Event, Mark};
use dbtg_schema::Row;
use std::alloc::{AllocError, Global};

// The note of a ticket, nothing beyond the last.
fn note_of(notes: &[Row<u8>], ticket: u64) -> &[u8]
    ensures { result.now ≡ note_of notes.now ticket }
{
    match notes.get(ticket as usize) {
        Some(note) => note.as_slice(),
        None => b"",
    }
}

fn noted(alloc: Global, event: &Event, notes: &[Row<u8>]) -> Result<Event, AllocError>
    ensures { IfOk result (λ told. told ≡ noted notes.now event.now) }
{
    let mut told = event.copy(alloc)?;
    if let Mark::Ticket { ticket, .. } = event.mark {
        told.below = Row::of(Vec::from_slice(alloc, note_of(notes, ticket))?);
    }
    Ok(told)
}

/// The same events, each ticket with its note; notes are in the order of tickets.
pub fn noted_events(
    alloc: Global,
    events: &[Event],
    notes: &[Row<u8>],
) -> Result<Vec<Event>, AllocError>
    ensures { IfOk result (λ told. told.items ≡ map (noted notes.now) events.now) }
{
    let mut told = Vec::new(alloc);
    for event in events {
        told.push(noted(alloc, event, notes)?)?;
    }
    Ok(told)
}
