//! The core: a database and its run-units, stepped event by event.
ghost use Rattle.std.specs.Prelude.{◌≡◌, ◌≤◌, true, length, map, option_map, IfOk, OnOk};
ghost use Rattle.dbtg_unit.specs.Database.State.Image.{image_of};
ghost use Rattle.dbtg_unit.specs.Database.Laws.Replay.{AnswersHold, TicketsInOrder, opening_state, replay};
ghost use Rattle.dbtg_step.specs.Machine.SequentialDatabase.{unit_at};
ghost use Rattle.dbtg_step.specs.Core.Core.{IsCore, start, state_now};
ghost use Rattle.dbtg_step.specs.Core.CoreSteps.{IsNeverStuck, IsQuitStep, IsStep};
ghost use Rattle.dbtg_schema.specs.Sound.{IsSound};
ghost use Rattle.dbtg_step.specs.Machine.Headline.{machine_of, opening_of};
ghost use Rattle.dbtg_step.specs.Laws.{scripts_fit};
ghost use Rattle.dbtg_step.specs.Machine.Network.{network};
ghost use Rattle.dbtg_step.specs.Inside.Events.{IsWell};
ghost use Rattle.dbtg_step.specs.Inside.Parts.{core_of};
ghost use Rattle.dbtg_step.specs.Core.Parts.{machine};
ghost use Rattle.dbtg_step.specs.Inside.Turns.{HaveTurned};
ghost use Rattle.dbtg_step.specs.Core.Newest.{newest_at};
ghost use Rattle.dbtg_step.specs.Core.Positions.{position_at};
ghost use Rattle.dbtg_step.specs.Core.Runs.{IsHandedOut};
ghost use Rattle.dbtg_step.specs.Core.Turns.{AllBetween};
ghost use Rattle.dbtg_step.specs.Core.Waiting.{TellsOfBlocked, blocking_of};

use crate::imaging::{CellSource, read_image, unit_numbered};
use crate::opening_parts::{opening_runners, opening_table};
use crate::parts::Parts;
use crate::quitting::quit;
use crate::results::Run;
use crate::runner::units_of;
use crate::stepping::step;
use crate::taking_turns::{Noted, take_turns};
use crate::waiting::{Blocking, blocking_of};
use crate::watching::{Newest, Position, newest_of, position_of};
use dbtg_schema::{Row, Schema};
use dbtg_unit::{Entry, Image, LAST_UNIT, Statement, Stepped, Unit};
use std::alloc::{AllocError, Global};
use std::marker::Model;

/// A database and its run-units in mid-statement: the machine of events, in a lawful state.
pub struct Core {
    alloc: Global,
    schema: Schema,
    capacity: u16,
    parts: Parts,
}

impl Drop for Core {
    fn drop(self) {
        let Self {
            alloc: _,
            schema: _,
            capacity: _,
            parts: _,
        } = self;
    }
}

impl Model for Core {
    ghost use Rattle.dbtg_step.specs.Core.Parts.{CoreParts};
    ghost use Rattle.dbtg_step.specs.Inside.Events.{IsWell};

    ghost Value = { CoreParts };

    ghost view = { λ c. record { schema = c.schema; capacity = c.capacity; table = c.parts.table.items; history = c.parts.history.items; runners = c.parts.runners.items } };

    ghost invariant = { λ c. IsWell c.schema c.capacity c.parts };
}

// The parts before the first step: every cell at home, no history, and a unit for each script.
fn opening_parts(
    alloc: Global,
    schema: &Schema,
    capacity: u16,
    scripts: Row<Row<Statement>>,
) -> Result<Parts, AllocError>
    requires sound { IsSound schema.now }
    requires units { length scripts ≤ LAST_UNIT }
    requires fit { scripts_fit schema.now scripts ≡ true }
    ensures well { IfOk result (λ parts. IsWell schema.now capacity parts) }
    ensures opening { IfOk result (λ parts. core_of schema.now capacity parts ≡ record { schema = schema.now; capacity = capacity; opening = opening_of schema.now capacity (length scripts); state = machine_of schema.now capacity scripts }) }
{
    let table = opening_table(alloc, schema, capacity)?;
    let runners = opening_runners(alloc, schema, scripts)?;
    Ok(Parts {
        table,
        history: Vec::new(alloc),
        runners,
    })
}

// The results that these parts give, apart from the image.
fn run_of(
    alloc: Global,
    parts: Parts,
    results: Vec<Stepped>,
    image: Image,
) -> Result<Run, AllocError>
    ensures { IfOk result (λ given. (given.results ≡ results.items) × (given.image ≡ image) × (given.history ≡ parts.history.items) × (given.units ≡ map (λ r. r.unit) parts.runners.items)) }
{
    let history = Row::of(parts.history);
    let units = units_of(alloc, parts.runners)?;
    Ok(Run {
        results: Row::of(results),
        image,
        history,
        units,
    })
}

impl Core {
    /// The core before its first step: the opening database, and a unit for each script, numbered from 1. It keeps a copy of
    /// the schema.
    pub fn new(
        alloc: Global,
        schema: &Schema,
        capacity: u16,
        scripts: Row<Row<Statement>>,
    ) -> Result<Core, AllocError>
        requires sound { IsSound schema.now }
        requires units { length scripts ≤ LAST_UNIT }
        requires fit { scripts_fit schema.now scripts ≡ true }
        ensures { IfOk result (λ core. machine core ≡ record { schema = schema.now; capacity = capacity; opening = opening_of schema.now capacity (length scripts); state = machine_of schema.now capacity scripts }) }
    {
        let parts = opening_parts(alloc, schema, capacity, scripts)?;
        let own = schema.copy(alloc)?;
        Ok(Core {
            alloc,
            schema: own,
            capacity,
            parts,
        })
    }

    /// The units take these turns, one after another, and the moves that the turns stand for are noted.
    pub(crate) fn take_turns(&mut self, turns: &[u8], noted: &mut Noted) -> Result<(), AllocError>
        requires { AllBetween (network (machine self.old).schema (machine self.old).capacity) (machine self.old).state }
        ensures { OnOk result (HaveTurned (machine self.old) turns.now (machine self.new) noted.old noted.new) }
    {
        take_turns(
            self.alloc,
            &self.schema,
            self.capacity,
            &mut self.parts,
            turns,
            noted,
        )
    }

    /// One step of the unit with this number: the machine's step, or a refusal of memory in place of an event before its
    /// ticket that is not a turn back. If it leaves a unit in mid-statement, some unit's next step is an event.
    pub fn step(&mut self, unit: u8) -> Stepped
        ensures step { IsStep (machine self.old) unit result (machine self.new) }
        ensures never_stuck { IsNeverStuck (machine self.new) }
    {
        step(
            self.alloc,
            &self.schema,
            self.capacity,
            &mut self.parts,
            unit,
        )
    }

    /// The unit with this number gives back all that it holds, unless its statement has its ticket. It takes no memory. If
    /// it leaves another in mid-statement, some unit's next step is an event.
    pub fn quit(&mut self, unit: u8) -> Stepped
        ensures quit { IsQuitStep (machine self.old) unit result (machine self.new) }
        ensures never_stuck { IsNeverStuck (machine self.new) }
    {
        quit(&self.schema, self.capacity, &mut self.parts, unit)
    }

    /// What every core satisfies, also in mid-statement, for proofs about one. It does nothing.
    pub fn is_core(&self)
        ensures { IsCore self.now }
    {
        // The invariant says so.
        let _ = &self.parts;
    }

    /// The statements that drew a ticket, in the order of their tickets: taken whole in this order on the sequential database,
    /// they have just these answers.
    pub fn history(&self) -> &[Entry]
        ensures machine { result.now ≡ self.now.history }
        ensures tickets { TicketsInOrder result.now }
        ensures answers { AnswersHold self.now.schema self.now.capacity (start self.now) result.now }
    {
        self.parts.history.as_slice()
    }

    /// The unit with this number, as its statements with a ticket left it: the unit to which the history leads on the sequential
    /// database.
    pub fn unit(&self, number: u8) -> Option<&Unit>
        ensures machine { option_map (λ u. u.now) result ≡ option_map (λ s. s.unit) (unit_at (machine self.now).state.units number) }
        ensures sequential { option_map (λ u. u.now) result ≡ unit_at (state_now self.now).units number }
    {
        match unit_numbered(self.parts.runners.as_slice(), number) {
            Some(runner) => Some(&runner.unit),
            None => None,
        }
    }

    /// Where the unit with this number is.
    pub fn position_at(&self, number: u8) -> Option<Position>
        ensures { result ≡ position_at (network (machine self.now).schema (machine self.now).capacity) (machine self.now).state number }
    {
        match unit_numbered(self.parts.runners.as_slice(), number) {
            Some(runner) => Some(position_of(runner)),
            None => None,
        }
    }

    /// What the unit with this number took last, of the areas and of the cells that it holds in mid-statement.
    pub fn newest_at(&self, number: u8) -> Option<Newest>
        ensures { result ≡ newest_at (machine self.now) number }
    {
        match unit_numbered(self.parts.runners.as_slice(), number) {
            Some(runner) => Some(newest_of(runner)),
            None => None,
        }
    }
}

impl Core {
    /// The schema of its database.
    pub fn schema(&self) -> &Schema
        ensures { result.now ≡ (machine self.now).schema }
    {
        &self.schema
    }

    /// What the unit with this number waits for, and which other units have it: exactly if its step is blocked. It takes memory only for
    /// the list of these units.
    pub fn blocking(&self, alloc: Global, unit: u8) -> Result<Option<Blocking>, AllocError>
        ensures found { IfOk result (λ found. found ≡ blocking_of (machine self.now) unit) }
        ensures blocked { IfOk result (λ found. TellsOfBlocked (machine self.now) unit found) }
    {
        blocking_of(alloc, &self.schema, self.capacity, &self.parts, unit)
    }

    /// The image, also in mid-statement: that of the database to which the history leads, one statement after another.
    pub fn image(&self, alloc: Global) -> Result<Image, AllocError>
        ensures { IfOk result (λ image. image ≡ image_of self.now.schema self.now.capacity (replay self.now.schema self.now.capacity (opening_state self.now.schema (length self.now.runners)) self.now.history).database) }
    {
        let source = CellSource::Parts(&self.parts);
        read_image(alloc, &self.schema, self.capacity, source)
    }

    /// The core taken apart, with the results of the moves that led to it.
    pub fn into_run(self, results: Vec<Stepped>) -> Result<Run, AllocError>
        ensures { IfOk result (λ given. IsHandedOut self results.items given) }
    {
        let image = self.image(self.alloc)?;
        let Self {
            alloc,
            schema: _,
            capacity: _,
            parts,
        } = self;
        run_of(alloc, parts, results, image)
    }
}
