//! A walk from state to state: a database and programs that stand after the turns of an order. To go to another it takes back the turns in
//! which they differ, and no others.

ghost use Rattle.dbtg_explore.specs.Inside.Links.{units_of};
ghost use Rattle.dbtg_explore.specs.Inside.Walks.{AreStanding, HasTurned, Stands, StandsAmong, StandsAt, links_of, order_of};
ghost use Rattle.dbtg_explore.specs.Orders.{CanFollow, IsMeeting, IsOrder, Meeting as MeetingOfPrograms, can_turn, due_of};
ghost use Rattle.dbtg_explore.specs.Replies.{status_of};
ghost use Rattle.dbtg_step.specs.Machine.SequentialDatabase.{unit_at, with_unit_at};
ghost use Rattle.dbtg_unit.specs.declared.unit.Entry.{Entry};
ghost use Rattle.std.specs.Prelude.{◌≡◌, ◌≤◌, ◌<◌, ◌-◌, ◌++◌, ◌∷◌, [], List, Some, true, length, slice_index_or, take, IfOk, OnOk};

use crate::known::Known;
use crate::meeting::Meeting;
use crate::orders::Link;
use crate::reads::each_items_read;
use crate::way::way_to;
use dbtg_going::{Going, programs_after};
use dbtg_schema::Row;
use dbtg_step::ReversibleDatabase;
use dbtg_unit::Statement;
use std::alloc::{AllocError, Global};

/// A turn that was taken: the place of the order behind which it was taken, its unit, and where its program was before.
#[derive(Drop)]
pub struct Taken {
    pub place: u32,
    pub unit: u8,
    pub before: Going,
}

/// A database and programs after these turns, which can be taken back; and which items the programs read.
pub struct Walk<'a> {
    pub database: ReversibleDatabase<'a>,
    pub goings: Vec<Going>,
    pub turns: Vec<Taken>,
    pub reads: Vec<Row<bool>>,
}

impl<'a> Drop for Walk<'a> {
    fn drop(self) {
        let Self {
            database: _,
            goings: _,
            turns: _,
            reads: _,
        } = self;
    }
}

// The program of the unit is again where it was before.
fn put_back(goings: &mut [Going], unit: u8, before: Going)
    requires numbered { 0 < unit }
    requires within { unit ≤ length goings.old }
    ensures { goings.new ≡ with_unit_at goings.old unit before }
{
    goings[unit as usize - 1] = before;
}

impl<'a> Walk<'a> {
    /// The status that the statement of the last turn got; 0 if no statement was made.
    pub(crate) fn last_status(&self) -> u16
        ensures { (past : List Entry) (entry : Entry) → self.now.database.making.history ≡ past ++ entry ∷ [] → result ≡ status_of entry }
    {
        match self.database.database().history().last() {
            Some(entry) => entry.answer.status.code(&entry.statement),
            None => 0,
        }
    }

    // Takes back the last turn.
    fn take_back(&mut self)
        requires { (m : MeetingOfPrograms) × Stands m self.old }
        ensures stands { (m : MeetingOfPrograms) → Stands m self.old → Stands m self.new }
        ensures turns { self.new.turns.items ≡ take (length self.old.turns.items - 1) self.old.turns.items }
    {
        if let Some(Taken { unit, before, .. }) = self.turns.pop() {
            let count = self.database.database().history().len();
            self.database.take_back_to(count - 1);
            put_back(self.goings.as_mut_slice(), unit, before);
        }
    }

    // Takes back the turns behind the first, which are this many.
    fn take_back_to(&mut self, count: usize)
        requires stands { (m : MeetingOfPrograms) × Stands m self.old }
        requires within { count ≤ length self.old.turns.items }
        ensures stands { (m : MeetingOfPrograms) → Stands m self.old → Stands m self.new }
        ensures turns { self.new.turns.items ≡ take count self.old.turns.items }
    {
        while self.turns.len() > count {
            self.take_back();
        }
    }
}

impl<'a> Meeting<'a> {
    /// A walk that begins where the programs meet.
    pub(crate) fn begin(&self, alloc: Global) -> Result<Walk<'a>, AllocError>
        requires { IsMeeting self.now }
        ensures { IfOk result (StandsAt self.now []) }
    {
        let (database, goings) = programs_after(
            alloc,
            self.schema,
            self.capacity,
            self.programs,
            self.begun,
        )?;
        Ok(Walk {
            database: ReversibleDatabase::of(alloc, database),
            goings,
            turns: Vec::new(alloc),
            reads: each_items_read(alloc, self.programs)?,
        })
    }

    // The unit makes this statement, which is due, and its program goes on. Gives where its program was before.
    fn make(
        &self,
        alloc: Global,
        database: &mut ReversibleDatabase<'_>,
        goings: &mut [Going],
        unit: u8,
        statement: Statement,
    ) -> Result<Going, AllocError>
        requires standing { AreStanding self.now database.old.making goings.old }
        requires due { due_of self.now database.old.making.history unit ≡ Some statement }
        ensures turned { OnOk result (HasTurned self.now unit database.old.making database.new.making goings.new) }
        ensures stays { OnOk result (database.new.stays ≡ database.old.stays) }
        ensures before { IfOk result (λ going. unit_at goings.old unit ≡ Some going) }
    {
        let place = unit as usize - 1;
        let going = goings[place].copy(alloc)?;
        let before = database.database().history().len();
        database.make(unit, statement)?;
        let entry = &database.database().history()[before];
        goings[place].told(alloc, self.schema, &self.programs[place], entry)?;
        Ok(going)
    }

    /// The unit has its turn: its program makes the statement that is due, and goes on.
    pub(crate) fn take_turn(
        &self,
        alloc: Global,
        walk: &mut Walk<'a>,
        turn: Link,
    ) -> Result<(), AllocError>
        requires stands { Stands self.now walk.old }
        requires turn { can_turn self.now walk.old.database.making.history turn.unit ≡ true }
        ensures stands { OnOk result (StandsAt self.now (order_of walk.old.turns.items ++ turn.unit ∷ []) walk.new) }
        ensures turned { OnOk result (HasTurned self.now turn.unit walk.old.database.making walk.new.database.making walk.new.goings.items) }
        ensures links { OnOk result (links_of walk.new.turns.items ≡ links_of walk.old.turns.items ++ turn ∷ []) }
    {
        let unit = turn.unit;
        match self.due(walk, unit) {
            None => Ok(()),
            Some(statement) => {
                let statement = statement.copy()?;
                let goings = walk.goings.as_mut_slice();
                let before = self.make(alloc, &mut walk.database, goings, unit, statement)?;
                walk.turns.push(Taken {
                    place: turn.before,
                    unit,
                    before,
                })?;
                Ok(())
            }
        }
    }

    // These turns, one after another.
    fn take_turns(
        &self,
        alloc: Global,
        walk: &mut Walk<'a>,
        turns: &[Link],
    ) -> Result<(), AllocError>
        requires stands { Stands self.now walk.old }
        requires turns { CanFollow self.now walk.old.database.making.history (units_of turns.now) }
        ensures stands { OnOk result (StandsAt self.now (order_of walk.old.turns.items ++ units_of turns.now) walk.new) }
        ensures links { OnOk result (links_of walk.new.turns.items ≡ links_of walk.old.turns.items ++ turns.now) }
    {
        for turn in turns {
            self.take_turn(alloc, walk, *turn)?;
        }
        Ok(())
    }

    /// Goes to where the order at a place leads.
    pub(crate) fn go_to(
        &self,
        alloc: Global,
        walk: &mut Walk<'a>,
        found: &Known,
        place: usize,
    ) -> Result<(), AllocError>
        requires stands { StandsAmong self.now found.now.orders walk.old }
        requires within { place < length found.now.orders }
        requires order { IsOrder self.now (slice_index_or found.now.orders place []) }
        ensures stands { OnOk result (StandsAt self.now (slice_index_or found.now.orders place []) walk.new) }
        ensures among { OnOk result (StandsAmong self.now found.now.orders walk.new) }
    {
        let way = way_to(alloc, found, walk.turns.as_slice(), place)?;
        walk.take_back_to(way.stay);
        self.take_turns(alloc, walk, way.turns.as_slice())
    }
}
