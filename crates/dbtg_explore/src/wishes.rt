//! A wish for the status of a statement over all orders, and the first order that breaks it.

ghost use Rattle.dbtg_explore.specs.Inside.Steps.{IsAt};
ghost use Rattle.dbtg_explore.specs.Inside.Walks.{StandsAmong, StandsAt};
ghost use Rattle.dbtg_explore.specs.Inside.Wishes.{HoldsBefore, IsJudgedAt, is_next};
ghost use Rattle.dbtg_explore.specs.Orders.{IsMeeting, history_of};
ghost use Rattle.dbtg_explore.specs.States.{HasMoreStates};
ghost use Rattle.dbtg_explore.specs.Wishes.{HoldsSoFar, IsJudged, breaks, is_statement, is_there};
ghost use Rattle.dbtg_states.specs.declared.stop.Stop.TheVariants.{States};
ghost use Rattle.std.specs.List.{list_any};
ghost use Rattle.std.specs.Prelude.{◌≡◌, ◌==◌, ◌&&◌, ◌<◌, ◌++◌, ◌∷◌, [], ℕ, List, length, slice_index_or, IfErr, IfOk, OnOk};

use crate::meeting::Meeting;
use crate::orders::Link;
use crate::search::Search;
use crate::walk::Walk;
use dbtg_program::{Line, Sentence};
use dbtg_schema::Row;
use dbtg_states::{Stop, Watch};
use std::alloc::{AllocError, Global};

/// A wish for the statement in a line of a unit's program: that it never has this status, or always.
#[derive(Clone, Copy)]
pub struct Wish {
    pub unit: u8,
    pub line: u64,
    pub status: u16,
    pub never: bool,
}

/// Is the sentence a statement, which gets an answer?
pub fn is_statement(sentence: &Sentence) -> bool
    ensures { result ≡ is_statement sentence.now }
{
    matches!(sentence, Sentence::Statement(_) | Sentence::Filled(_))
}

// Is one of these lines a statement, and has this number?
fn has_statement(lines: &[Line], number: u64) -> bool
    ensures { result ≡ list_any (λ l. l.number == number && is_statement l.sentence) lines.now }
{
    lines.iter().any(|line| line.number == number && is_statement(&line.sentence))
}

impl Wish {
    fn breaks(self, status: u16) -> bool
        ensures { result ≡ breaks self status }
    {
        if self.never {
            status == self.status
        } else {
            status != self.status
        }
    }

    // Can the unit have its turn where the order at this place leads, and makes the statement of the wish?
    fn is_next(self, meeting: &Meeting, search: &Search, place: usize) -> bool
        requires meeting { IsMeeting meeting.now }
        requires at { (i : ℕ) × IsAt meeting.now i 0 search.now }
        requires within { place < length search.now.found.orders }
        ensures { result ≡ is_next meeting.now self (history_of meeting.now (slice_index_or search.now.found.orders place [])) }
    {
        let numbers = &search.numbers;
        let state = search.found.number(place);
        meeting.can_turn(numbers, state, self.unit)
            && meeting.line(numbers, state, self.unit) == self.line
    }

    // The turns of the order at this place and that of the unit, if it breaks the wish.
    fn broken_at<'a>(
        self,
        alloc: Global,
        meeting: &Meeting<'a>,
        walk: &mut Walk<'a>,
        search: &Search,
        place: usize,
    ) -> Result<Option<Row<u8>>, AllocError>
        requires meeting { IsMeeting meeting.now }
        requires stands { StandsAmong meeting.now search.now.found.orders walk.old }
        requires at { (i : ℕ) × IsAt meeting.now i 0 search.now }
        requires within { place < length search.now.found.orders }
        ensures stands { OnOk result (StandsAmong meeting.now search.now.found.orders walk.new) }
        ensures judged { IfOk result (IsJudgedAt meeting.now self (slice_index_or search.now.found.orders place [])) }
    {
        if !self.is_next(meeting, search, place) {
            return Ok(None);
        }
        meeting.go_to(alloc, walk, &search.found, place)?;
        let turn = Link::new(place, self.unit)?;
        meeting.take_turn(alloc, walk, turn)?;
        if !self.breaks(walk.last_status()) {
            return Ok(None);
        }
        let mut turns = search.found.order(alloc, place)?;
        turns.push(self.unit)?;
        Ok(Some(Row::of(turns)))
    }

    // The first turns that break the wish behind the states from this place on. There are more states than may be, and the search has gone on
    // from none of these.
    fn broken_among<'a>(
        self,
        alloc: Global,
        meeting: &Meeting<'a>,
        walk: &mut Walk<'a>,
        search: &Search,
        first: usize,
    ) -> Result<Option<Row<u8>>, Stop>
        requires meeting { IsMeeting meeting.now }
        requires stands { StandsAmong meeting.now search.now.found.orders walk.old }
        requires at { IsAt meeting.now first 0 search.now }
        requires holds { HoldsBefore meeting.now self search.now.found.orders first }
        ensures judged { IfOk result (IsJudged meeting.now self) }
        ensures stopped { IfErr result (λ stop. stop ≡ States → (n : ℕ) → n < length search.now.found.orders → HoldsSoFar meeting.now self n) }
    {
        for place in first..search.found.len() {
            if let Some(turns) = self.broken_at(alloc, meeting, walk, search, place)? {
                return Ok(Some(turns));
            }
        }
        Err(Stop::States)
    }

    // The first turns of all that break the wish, by a walk that stands where the programs meet.
    fn first_broken<'a, W: Watch>(
        self,
        alloc: Global,
        watch: &W,
        meeting: &Meeting<'a>,
        walk: &mut Walk<'a>,
        limit: usize,
    ) -> Result<Option<Row<u8>>, Stop>
        requires meeting { IsMeeting meeting.now }
        requires stands { StandsAt meeting.now [] walk.old }
        ensures judged { IfOk result (IsJudged meeting.now self) }
        ensures stopped { IfErr result (λ stop. stop ≡ States → HoldsSoFar meeting.now self limit) }
    {
        let mut search = Search::begin(alloc, meeting, walk)?;
        let mut place = 0;
        while place < search.found.len() {
            if limit < search.found.len() {
                return self.broken_among(alloc, meeting, walk, &search, place);
            }
            if let Some(turns) = self.broken_at(alloc, meeting, walk, &search, place)? {
                return Ok(Some(turns));
            }
            search.go_on(alloc, meeting, place, walk)?;
            watch.seen(search.found.len());
            place += 1;
        }
        Ok(None)
    }
}

/// Has the unit's program a statement in the line of the wish?
pub fn is_there(meeting: &Meeting, wish: Wish) -> bool
    ensures { result ≡ is_there meeting.now wish }
{
    if wish.unit == 0 {
        return false;
    }
    match meeting.programs.get(wish.unit as usize - 1) {
        Some(program) => has_statement(program.lines.as_slice(), wish.line),
        None => false,
    }
}

/// The turns of the first order that breaks the wish; none if no order does. Each time that a program makes the statement is judged, whether
/// or not the programs come to their ends; turns that were taken before they meet are not. It stops if there are more states than the limit
/// and the wish holds behind those that are found.
pub fn broken_turns<W: Watch>(
    alloc: Global,
    watch: &W,
    meeting: &Meeting,
    wish: Wish,
    limit: usize,
) -> Result<Option<Row<u8>>, Stop>
    requires { IsMeeting meeting.now }
    ensures judged { IfOk result (IsJudged meeting.now wish) }
    ensures stopped { IfErr result (λ stop. stop ≡ States → HasMoreStates meeting.now limit) }
    ensures so_far { IfErr result (λ stop. stop ≡ States → HoldsSoFar meeting.now wish limit) }
{
    let mut walk = meeting.begin(alloc)?;
    wish.first_broken(alloc, watch, meeting, &mut walk, limit)
}
