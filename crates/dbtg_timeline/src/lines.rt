//! The lines of a picture: each has the events of one unit in one statement that directly follow one another.
ghost use Rattle.std.specs.Prelude.{◌≡◌, ◌++◌, ◌≤◌, ◌+◌, [], IfOk, length};
ghost use Rattle.dbtg_timeline.specs.Lines.{begun, drawn, drawn_by, drawn_in, goes_on, below_in, below_of, joins, label, label_in, last_of, letters, lines, lines_from};

use crate::event::{Event, Mark, is_idle, letter};
use dbtg_schema::Row;
use std::alloc::{AllocError, Global};

/// A line: the number of its first move, from 1, the event of this move, and those after it.
#[derive(Drop)]
pub struct Line {
    pub first: usize,
    pub head: Event,
    pub more: Row<Event>,
}

/// A ticket, and the status of its statement.
#[derive(Clone, Copy)]
pub struct Drawn {
    pub ticket: u64,
    pub status: u16,
}

fn joins(last: &Event, event: &Event) -> bool
    ensures { result ≡ joins last.now event.now }
{
    let idle = is_idle(last.mark) && is_idle(event.mark);
    last.unit == event.unit && (last.midway || idle)
}

impl Line {
    fn begun(alloc: Global, first: usize, head: Event) -> Line
        ensures { result ≡ begun first head }
    {
        Line {
            first,
            head,
            more: Row::of(Vec::new(alloc)),
        }
    }

    /// The last event of the line.
    pub fn last(&self) -> &Event
        ensures { result.now ≡ last_of self.now }
    {
        match self.more.get(self.more.len().saturating_sub(1)) {
            Some(event) => event,
            None => &self.head,
        }
    }

    fn goes_on(&self, event: &Event) -> bool
        ensures { result ≡ goes_on self.now event.now }
    {
        joins(self.last(), event)
    }

    /// The letters of its marks.
    pub fn letters(&self, alloc: Global) -> Result<Vec<u8>, AllocError>
        ensures { IfOk result (λ text. text.items ≡ letters self.now) }
    {
        let mut text = Vec::new(alloc);
        text.push(letter(self.head.mark))?;
        for event in self.more.as_slice() {
            text.push(letter(event.mark))?;
        }
        Ok(text)
    }

    /// The ticket that is drawn in the line.
    pub fn drawn(&self) -> Option<Drawn>
        ensures { result ≡ drawn self.now }
    {
        match drawn_by(self.head.mark) {
            Some(drawn) => Some(drawn),
            None => drawn_in(self.more.as_slice()),
        }
    }

    /// What stands below the statement, nothing if no event of the line says anything there.
    pub fn below(&self) -> &[u8]
        ensures { result.now ≡ below_of self.now }
    {
        let below = self.head.below.as_slice();
        if below.is_empty() {
            below_in(self.more.as_slice())
        } else {
            below
        }
    }
}

fn below_in(events: &[Event]) -> &[u8]
    ensures { result.now ≡ below_in events.now }
{
    for event in events {
        let below = event.below.as_slice();
        if !below.is_empty() {
            return below;
        }
    }
    b""
}

fn drawn_by(mark: Mark) -> Option<Drawn>
    ensures { result ≡ drawn_by mark }
{
    match mark {
        Mark::Ticket { ticket, status } => Some(Drawn { ticket, status }),
        _ => None,
    }
}

fn drawn_in(events: &[Event]) -> Option<Drawn>
    ensures { result ≡ drawn_in events.now }
{
    for event in events {
        if let Some(drawn) = drawn_by(event.mark) {
            return Some(drawn);
        }
    }
    None
}

// The lines after a line that is not at its end.
fn lines_behind(alloc: Global, first: Line, events: &[Event]) -> Result<Vec<Line>, AllocError>
    requires counted { first.first + length events.now ≤ 18446744073709551615 }
    requires begun { first.more ≡ [] }
    ensures { IfOk result (λ all. all.items ≡ lines_from first events.now) }
{
    let mut all = Vec::new(alloc);
    let mut line = first;
    for event in events {
        let copy = event.copy(alloc)?;
        if line.goes_on(event) {
            line.more.push(copy)?;
        } else {
            let next = Line::begun(alloc, line.first + 1 + line.more.len(), copy);
            all.push(line)?;
            line = next;
        }
    }
    all.push(line)?;
    Ok(all)
}

/// The lines of these events.
pub fn lines_of(alloc: Global, events: &[Event]) -> Result<Vec<Line>, AllocError>
    ensures { IfOk result (λ all. all.items ≡ lines events.now) }
{
    match events.split_first() {
        None => Ok(Vec::new(alloc)),
        Some((head, rest)) => {
            let first = Line::begun(alloc, 1, head.copy(alloc)?);
            lines_behind(alloc, first, rest)
        }
    }
}

/// The text of a statement, by its unit and its place in the script.
pub fn label(scripts: &[Row<Row<u8>>], unit: u8, place: usize) -> &[u8]
    ensures { result.now ≡ label scripts.now unit place }
{
    if unit == 0 {
        return b"-";
    }
    match scripts.get(unit as usize - 1) {
        Some(script) => label_in(script, place),
        None => b"-",
    }
}

fn label_in(script: &Row<Row<u8>>, place: usize) -> &[u8]
    ensures { result.now ≡ label_in script.now place }
{
    match script.get(place) {
        Some(text) => text.as_slice(),
        None => b"-",
    }
}
