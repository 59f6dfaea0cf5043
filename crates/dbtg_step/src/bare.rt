//! A database in memory on which each statement is made whole, and which keeps no list of the statements: who needs them, or their
//! answers, takes them as they come.
ghost use Rattle.std.specs.Prelude.{◌≡◌, ◌≤◌, ◌<◌, [], ◌∷◌, true, length, List, IfOk, OnErr};
ghost use Rattle.dbtg_schema.specs.Sound.{IsSound};
ghost use Rattle.dbtg_unit.specs.declared.unit.Entry.{Entry};
ghost use Rattle.dbtg_unit.specs.Database.Statements.Fits.{fits};
ghost use Rattle.dbtg_step.specs.Core.Audit.{LeadsTo};
ghost use Rattle.dbtg_step.specs.Core.Bare.{Continues, IsMadeBy, OpensAt, StandsAfter};

use crate::imaging::{CellSource, read_image};
use crate::whole::{make_effect, opening_hands, opening_units};
use dbtg_schema::{Row, Schema};
use dbtg_unit::{Answer, Entry, Held, Image, Statement, Unit};
use std::alloc::{AllocError, Global};
use std::marker::Model;

/// A database in memory, which holds all of its cells, with its units and how many statements they made.
pub struct BareDatabase<'a> {
    alloc: Global,
    schema: &'a Schema,
    capacity: u16,
    held: Held,
    units: Vec<Unit>,
    count: u64,
}

impl<'a> Drop for BareDatabase<'a> {
    fn drop(self) {
        let Self {
            alloc: _,
            schema: _,
            capacity: _,
            held: _,
            units: _,
            count: _,
        } = self;
    }
}

impl<'a> Model for BareDatabase<'a> {
    ghost use Rattle.dbtg_step.specs.Core.Bare.{Bare};

    ghost Value = { Bare };

    ghost view = { λ d. record { schema = d.schema.now; capacity = d.capacity; hands = d.held; units = d.units.items; count = d.count } };
}

impl<'a> BareDatabase<'a> {
    /// The opening database with its units, numbered from 1.
    pub fn opening(
        alloc: Global,
        schema: &'a Schema,
        capacity: u16,
        units: u8,
    ) -> Result<Self, AllocError>
        requires sound { IsSound schema.now }
        ensures { IfOk result (λ database. OpensAt schema.now capacity units database) }
    {
        Ok(BareDatabase {
            alloc,
            schema,
            capacity,
            held: opening_hands(alloc, schema, capacity)?,
            units: opening_units(alloc, schema, units)?,
            count: 0,
        })
    }

    /// The answer to one statement of the unit with this number, made whole. If memory is refused nothing is changed.
    pub fn answer(&mut self, unit: u8, statement: &Statement) -> Result<Answer, AllocError>
        requires numbered { 0 < unit }
        requires within { unit ≤ length self.old.units }
        requires fitting { fits self.old.schema statement.now ≡ true }
        requires stands { (history : List Entry) × StandsAfter self.old history }
        ensures made { IfOk result (λ answer. Continues self.old (record { ticket = self.old.count; unit = unit; statement = statement.now; answer = answer } ∷ []) self.new) }
        ensures unchanged { OnErr result (Continues self.old [] self.new) }
    {
        // No memory holds the statements that would use up all tickets.
        let Some(count) = self.count.checked_add(1) else {
            return Err(AllocError);
        };
        let maker = &mut self.units[unit as usize - 1];
        let answer = make_effect(
            self.alloc,
            self.schema,
            self.capacity,
            maker,
            &mut self.held,
            statement,
        )?;
        self.count = count;
        Ok(answer)
    }

    /// The entry of one statement of the unit with this number, made whole. If memory is refused nothing is changed.
    pub fn make(&mut self, unit: u8, statement: Statement) -> Result<Entry, AllocError>
        requires numbered { 0 < unit }
        requires within { unit ≤ length self.old.units }
        requires fitting { fits self.old.schema statement ≡ true }
        requires stands { (history : List Entry) × StandsAfter self.old history }
        ensures made { IfOk result (λ entry. IsMadeBy unit statement entry × Continues self.old (entry ∷ []) self.new) }
        ensures unchanged { OnErr result (Continues self.old [] self.new) }
    {
        let ticket = self.count;
        let answer = self.answer(unit, &statement)?;
        Ok(Entry {
            ticket,
            unit,
            statement,
            answer,
        })
    }

    /// The image of the database, and its units.
    pub fn into_image_and_units(self) -> Result<(Image, Row<Unit>), AllocError>
        ensures { IfOk result (λ led. (history : List Entry) → StandsAfter self.entry history → LeadsTo self.entry.schema self.entry.capacity (length self.entry.units) history led.0 led.1) }
    {
        let source = CellSource::Hands(&self.held);
        let image = read_image(self.alloc, self.schema, self.capacity, source)?;
        Ok((image, self.into_units()))
    }

    fn into_units(self) -> Row<Unit>
        ensures { result ≡ self.entry.units }
    {
        let Self {
            alloc: _,
            schema: _,
            capacity: _,
            held: _,
            units,
            count: _,
        } = self;
        Row::of(units)
    }
}
