//! Programs that meet, and the statements that are due in them.

ghost use Rattle.dbtg_explore.specs.Inside.Walks.{IsPlace};
ghost use Rattle.dbtg_explore.specs.Orders.{IsMeeting, can_go_on, due_of};
ghost use Rattle.std.specs.Prelude.{◌≡◌, length, option_map};

use crate::walk::Walk;
use dbtg_program::Program;
use dbtg_schema::Schema;
use dbtg_states::Places;
use dbtg_unit::Statement;
use std::marker::Model;

/// Programs that meet, a unit for each.
#[derive(Drop)]
pub struct Meeting<'a> {
    pub schema: &'a Schema,
    pub capacity: u16,
    pub programs: &'a [Program],
    /// The turns that were taken before they meet.
    pub begun: &'a [u8],
    /// The last program has its turns only if no other can go on.
    pub last_waits: bool,
}

impl<'a> Model for Meeting<'a> {
    ghost use Rattle.dbtg_explore.specs.Orders.{Meeting as MeetingOfPrograms};

    ghost Value = { MeetingOfPrograms };

    ghost view = { λ m. record { schema = m.schema.now; capacity = m.capacity; programs = m.programs.now; begun = m.begun.now; last_waits = m.last_waits } };
}

impl<'a> Meeting<'a> {
    /// How many units there are.
    pub(crate) fn units(&self) -> u8
        requires { IsMeeting self.now }
        ensures { result ≡ length self.now.programs }
    {
        self.programs.len() as u8
    }

    /// Where the parts of a state stand.
    pub(crate) fn places(&self) -> Places<'a>
        requires { IsMeeting self.now }
        ensures schema { result.schema.now ≡ self.now.schema }
        ensures capacity { result.capacity ≡ self.now.capacity }
        ensures units { result.units ≡ length self.now.programs }
    {
        Places {
            schema: self.schema,
            capacity: self.capacity,
            units: self.units(),
        }
    }

    /// The statement that is due in the program of the unit.
    pub(crate) fn due<'p>(&self, walk: &'p Walk, unit: u8) -> Option<&'p Statement>
        requires { IsPlace self.now walk.now }
        ensures { option_map (λ s. s.now) result ≡ due_of self.now walk.now.database.making.history unit }
    {
        if unit == 0 {
            return None;
        }
        match walk.goings.get(unit as usize - 1) {
            Some(going) => going.statement(self.schema),
            None => None,
        }
    }

    /// Can the program of the unit go on?
    pub(crate) fn can_go_on(&self, walk: &Walk, unit: u8) -> bool
        requires { IsPlace self.now walk.now }
        ensures { result ≡ can_go_on self.now walk.now.database.making.history unit }
    {
        self.due(walk, unit).is_some()
    }
}
