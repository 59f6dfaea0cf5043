//! The events of a run. The core is stepped move by move, and its units are compared before and after each move.
ghost use Rattle.std.specs.Prelude.{◌≡◌, ◌≤◌, true, length, IfOk, OnOk};
ghost use Rattle.dbtg_schema.specs.Sound.{IsSound};
ghost use Rattle.dbtg_step.specs.Core.CoreSteps.{after_move};
ghost use Rattle.dbtg_step.specs.Laws.{scripts_fit};
ghost use Rattle.dbtg_step.specs.Core.Parts.{machine};
ghost use Rattle.dbtg_timeline.specs.Events.{areas_in, cells_in, ended_mark, event_of_move, events_of, in_statement_mark, made_in, mark_of, moved_mark, needed_mark, place_of, progress_in, shown, ticket_mark, unit_in, wait_after};
ghost use Rattle.dbtg_timeline.specs.Watching.{events_of_run};

use crate::event::{Event, Mark};
use crate::waiting::push_waiting;
use dbtg_schema::{Row, Schema};
use dbtg_step::{Core, Position, Progress, make_move};
use dbtg_unit::{Entry, LAST_UNIT, Move, Statement, Stepped};
use std::alloc::{AllocError, Global};

fn progress_in(position: Option<Position>) -> Option<Progress>
    ensures { result ≡ progress_in position }
{
    position?.progress
}

fn made_in(position: Option<Position>) -> usize
    ensures { result ≡ made_in position }
{
    match position {
        Some(position) => position.made,
        None => 0,
    }
}

fn areas_in(position: Option<Position>) -> usize
    ensures { result ≡ areas_in position }
{
    match progress_in(position) {
        Some(progress) => progress.areas,
        None => 0,
    }
}

fn cells_in(position: Option<Position>) -> usize
    ensures { result ≡ cells_in position }
{
    match progress_in(position) {
        Some(progress) => progress.cells,
        None => 0,
    }
}

// The ticket of the newest entry.
fn ticket_mark(history: &[Entry]) -> Mark
    ensures { result ≡ ticket_mark history.now }
{
    match history.get(history.len().saturating_sub(1)) {
        Some(entry) => Mark::Ticket {
            ticket: entry.ticket,
            status: entry.answer.status.code(&entry.statement),
        },
        None => Mark::Idle,
    }
}

fn ended_mark(progress: &Progress) -> Mark
    ensures { result ≡ ended_mark progress.now }
{
    if progress.linked < progress.cells {
        Mark::Link
    } else if 0 < progress.cells {
        Mark::PutBack
    } else {
        Mark::LeaveArea
    }
}

fn needed_mark(before: Option<Position>, after: Option<Position>, history: &[Entry]) -> Mark
    ensures { result ≡ needed_mark before after history.now }
{
    if made_in(before) < made_in(after) {
        ticket_mark(history)
    } else if areas_in(before) < areas_in(after) {
        Mark::TakeArea
    } else if cells_in(before) < cells_in(after) {
        Mark::TakeCell
    } else {
        Mark::TurnBack
    }
}

fn in_statement_mark(
    progress: &Progress,
    before: Option<Position>,
    after: Option<Position>,
    history: &[Entry],
) -> Mark
    ensures { result ≡ in_statement_mark progress.now before after history.now }
{
    if progress.has_ticket {
        ended_mark(progress)
    } else if progress.turning_back && 0 < progress.cells {
        Mark::Return
    } else {
        needed_mark(before, after, history)
    }
}

fn moved_mark(before: Option<Position>, after: Option<Position>, history: &[Entry]) -> Mark
    ensures { result ≡ moved_mark (progress_in before) before after history.now }
{
    match progress_in(before) {
        None => Mark::Begin,
        Some(progress) => in_statement_mark(&progress, before, after, history),
    }
}

fn mark_of(
    one: Move,
    stepped: Stepped,
    before: Option<Position>,
    after: Option<Position>,
    history: &[Entry],
) -> Mark
    ensures { result ≡ mark_of one stepped before after history.now }
{
    match (stepped, one) {
        (Stepped::Moved, Move::Step(_)) => moved_mark(before, after, history),
        (Stepped::Moved, Move::Quit(_)) => Mark::Quit,
        (Stepped::Blocked, _) => Mark::Blocked,
        (Stepped::Idle, _) => Mark::Idle,
        (Stepped::NoMemory, _) => Mark::Idle,
    }
}

fn unit_in(one: Move) -> u8
    ensures { result ≡ unit_in one }
{
    match one {
        Move::Step(unit) => unit,
        Move::Quit(unit) => unit,
    }
}

fn place_of(position: Option<Position>) -> usize
    ensures { result ≡ place_of position }
{
    let made = made_in(position);
    match progress_in(position) {
        None => made,
        Some(progress) => {
            if progress.has_ticket {
                made.saturating_sub(1)
            } else {
                made
            }
        }
    }
}

fn shown(
    one: Move,
    stepped: Stepped,
    before: Option<Position>,
    after: Option<Position>,
    history: &[Entry],
    wait: Row<u8>,
) -> Event
    ensures { result ≡ shown one stepped before after history.now wait }
{
    Event {
        unit: unit_in(one),
        mark: mark_of(one, stepped, before, after, history),
        place: place_of(before),
        midway: progress_in(after).is_some(),
        below: wait,
    }
}

// What the unit waits for, if its move was blocked.
fn wait_after(alloc: Global, core: &Core, unit: u8, stepped: Stepped) -> Result<Row<u8>, AllocError>
    ensures { IfOk result (λ wait. wait ≡ wait_after (machine core.now) unit stepped) }
{
    let mut wait = Vec::new(alloc);
    match stepped {
        Stepped::Blocked => {
            let blocking = core.blocking(alloc, unit)?;
            push_waiting(&mut wait, core.schema(), &blocking)?;
        }
        Stepped::Moved | Stepped::Idle | Stepped::NoMemory => {}
    }
    Ok(Row::of(wait))
}

/// Makes one move, and gives its event.
pub fn watch_move(alloc: Global, core: &mut Core, one: Move) -> Result<Event, AllocError>
    ensures core { OnOk result (machine core.new ≡ after_move (machine core.old) one) }
    ensures event { IfOk result (λ event. event ≡ event_of_move (machine core.old) one) }
{
    let unit = unit_in(one);
    let before = core.position_at(unit);
    let stepped = make_move(core, one)?;
    let wait = wait_after(alloc, core, unit, stepped)?;
    let after = core.position_at(unit);
    Ok(shown(one, stepped, before, after, core.history(), wait))
}

fn watch_each_move(alloc: Global, core: &mut Core, moves: &[Move]) -> Result<Vec<Event>, AllocError>
    ensures { IfOk result (λ events. events.items ≡ events_of (machine core.old) moves.now) }
{
    let mut events = Vec::with_capacity(alloc, moves.len())?;
    for one in moves {
        events.push(watch_move(alloc, core, *one)?)?;
    }
    Ok(events)
}

/// The events of these moves, starting with the opening database, with a unit for each script. A step that finds no memory ends the run.
pub fn watch(
    alloc: Global,
    schema: &Schema,
    capacity: u16,
    scripts: Row<Row<Statement>>,
    moves: &[Move],
) -> Result<Vec<Event>, AllocError>
    requires sound { IsSound schema.now }
    requires units { length scripts ≤ LAST_UNIT }
    requires fit { scripts_fit schema.now scripts ≡ true }
    ensures { IfOk result (λ events. events.items ≡ events_of_run schema.now capacity scripts moves.now) }
{
    let mut core = Core::new(alloc, schema, capacity, scripts)?;
    watch_each_move(alloc, &mut core, moves)
}
