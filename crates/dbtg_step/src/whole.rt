//! A database in memory on which each statement is made whole, one after another: no unit waits, and nothing happens in between.
ghost use Rattle.std.specs.Prelude.{◌≡◌, ℕ, ◌-◌, ◌≤◌, ◌<◌, ◌++◌, [], true, length, map, is_some, IfOk, IfSome, OnOk, OnErr};
ghost use Rattle.std.specs.List.{range_with_len};
ghost use Rattle.dbtg_schema.specs.Sound.{IsSound};
ghost use Rattle.dbtg_cells.specs.CellNumbers.{cell_number, cells_in_order, is_cell};
ghost use Rattle.dbtg_cells.specs.Cells.{shown};
ghost use Rattle.dbtg_unit.specs.Database.State.Base.{Database, opening};
ghost use Rattle.dbtg_unit.specs.Database.State.Belongs.{IsUnitOf, IsWithin};
ghost use Rattle.dbtg_unit.specs.Database.State.Cells.{cell};
ghost use Rattle.dbtg_unit.specs.Database.Statements.Fits.{fits};
ghost use Rattle.dbtg_unit.specs.Database.State.Image.{image_of};
ghost use Rattle.dbtg_unit.specs.Hands.Local.{Agrees, AllAgree};
ghost use Rattle.dbtg_unit.specs.Hands.Needs.{need};
ghost use Rattle.dbtg_unit.specs.Hands.Making.{HaveNextVersions};
ghost use Rattle.dbtg_unit.specs.Hands.Prepared.{values_of};
ghost use Rattle.dbtg_unit.specs.Database.Laws.Replay.{IsHistoryOf};
ghost use Rattle.dbtg_unit.specs.Database.State.Units.{opening_unit};
ghost use Rattle.dbtg_step.specs.Core.Reversible.{made_first};
ghost use Rattle.dbtg_step.specs.Core.Whole.{HasMade, IsMadeRun, state_now};
ghost use Rattle.dbtg_step.specs.Inside.Reversible.{IsWayBack, LeadsOver};
ghost use Rattle.dbtg_step.specs.Core.Bare.{HoldsAll, IsWhole};
ghost use Rattle.dbtg_step.specs.Inside.Whole.{IsEffect, IsGuessed, goes_by_guesses};

use crate::drawing::{enter, make, make_room};
use crate::imaging::{CellSource, read_image};
use crate::opening_parts::{cell_names, hold_opening_cells, opening_unit};
use crate::results::Run;
use crate::statements::{next_need, true_guesses};
use crate::way_back::{WayBack, make_with_way, put_each_back};
use dbtg_cells::{Cell, CellName, Owners, cell_number};
use dbtg_schema::{AreaNo, Row, Schema};
use dbtg_unit::{Answer, Entry, Held, Image, Need, Statement, Unit};
use std::alloc::{AllocError, Global};
use std::marker::Model;

// Holds all areas.
fn hold_areas(schema: &Schema, held: &mut Held) -> Result<(), AllocError>
    ensures { OnOk result (held.new ≡ record held.old { areas = held.old.areas ++ range_with_len 0 (length schema.now.areas) }) }
{
    for area in 0..schema.areas().len() as u8 {
        held.push_area(AreaNo::new(area))?;
    }
    Ok(())
}

/// Hands with all areas and cells of the opening database.
pub fn opening_hands(alloc: Global, schema: &Schema, capacity: u16) -> Result<Held, AllocError>
    ensures all { IfOk result (λ held. HoldsAll schema.now capacity held) }
    ensures cells { IfOk result (λ held. AllAgree schema.now capacity (opening schema.now) held.cells) }
{
    let mut held = hold_opening_cells(alloc, schema, capacity)?;
    hold_areas(schema, &mut held)?;
    Ok(held)
}

/// The units before their first statements, numbered from 1.
pub fn opening_units(alloc: Global, schema: &Schema, count: u8) -> Result<Vec<Unit>, AllocError>
    ensures { IfOk result (λ units. units.items ≡ map (opening_unit schema.now) (range_with_len 1 count)) }
{
    let mut units = Vec::new(alloc);
    for before in 0..count {
        units.push(opening_unit(alloc, schema, before + 1)?)?;
    }
    Ok(units)
}

// Does the statement use owners that a unit guesses? All others find theirs among the currents.
fn goes_by_guesses(statement: &Statement) -> bool
    ensures { result ≡ goes_by_guesses statement.now }
{
    matches!(statement, Statement::Remove(_) | Statement::Modify { .. })
}

// What the statement needs, if it is asked once: nothing was kept before, and nothing is kept.
fn need_once(
    alloc: Global,
    schema: &Schema,
    capacity: u16,
    unit: &Unit,
    statement: &Statement,
    held: &Held,
) -> Result<Need, AllocError>
    requires fits { fits schema.now statement.now ≡ true }
    requires of_schema { IsUnitOf schema.now unit.now }
    requires within { IsWithin capacity unit.now }
    ensures need { IfOk result (λ n. (db : Database) → Agrees schema.now capacity db held.now unit.now → n ≡ need schema.now capacity db unit.now held.now statement.now) }
{
    let mut course = None;
    next_need(alloc, schema, capacity, unit, statement, held, &mut course)
}

// Sets the guesses to the true owners. With all areas and cells held, the statement is then ready. It stands apart, since guesses take
// room that is cleared at each call.
#[inline(never)]
fn guess_anew(
    alloc: Global,
    schema: &Schema,
    capacity: u16,
    unit: &Unit,
    statement: &Statement,
    held: &mut Held,
) -> Result<(), AllocError>
    requires sound { IsSound schema.now }
    requires fitting { fits schema.now statement.now ≡ true }
    requires of_schema { IsUnitOf schema.now unit.now }
    requires within { IsWithin capacity unit.now }
    requires all { HoldsAll schema.now capacity held.old }
    ensures guessed { OnOk result (IsGuessed schema.now capacity unit.now statement.now held.old held.new) }
    ensures cells { held.new.cells ≡ held.old.cells }
    ensures areas { held.new.areas ≡ held.old.areas }
{
    held.set_guesses(Owners::none(schema.sets().len()));
    if let Need::Stale = need_once(alloc, schema, capacity, unit, statement, held)? {
        let guesses = true_guesses(schema, unit, statement, held);
        held.set_guesses(guesses);
    }
    Ok(())
}

// Sets the guesses to the true owners, if the statement needs guesses; otherwise leaves them as they are.
fn guess_owners(
    alloc: Global,
    schema: &Schema,
    capacity: u16,
    unit: &Unit,
    statement: &Statement,
    held: &mut Held,
) -> Result<(), AllocError>
    requires sound { IsSound schema.now }
    requires fitting { fits schema.now statement.now ≡ true }
    requires of_schema { IsUnitOf schema.now unit.now }
    requires within { IsWithin capacity unit.now }
    requires all { HoldsAll schema.now capacity held.old }
    ensures guessed { OnOk result (IsGuessed schema.now capacity unit.now statement.now held.old held.new) }
    ensures cells { held.new.cells ≡ held.old.cells }
    ensures areas { held.new.areas ≡ held.old.areas }
{
    if goes_by_guesses(statement) {
        return guess_anew(alloc, schema, capacity, unit, statement, held);
    }
    Ok(())
}

/// Carries out the statement on the unit and the cells that are held. If memory is refused, nothing visible changes.
pub fn make_effect(
    alloc: Global,
    schema: &Schema,
    capacity: u16,
    unit: &mut Unit,
    held: &mut Held,
    statement: &Statement,
) -> Result<Answer, AllocError>
    requires sound { IsSound schema.now }
    requires fitting { fits schema.now statement.now ≡ true }
    requires of_schema { IsUnitOf schema.now unit.old }
    requires within { IsWithin capacity unit.old }
    requires all { HoldsAll schema.now capacity held.old }
    requires versions { HaveNextVersions held.old.cells }
    requires agrees { (db : Database) × Agrees schema.now capacity db held.old unit.old }
    ensures effect { IfOk result (λ answer. (db : Database) → Agrees schema.now capacity db held.old unit.old → IsEffect schema.now capacity db statement.now unit.old unit.new held.new answer) }
    ensures all { HoldsAll schema.now capacity held.new }
    ensures unit { OnErr result (unit.new ≡ unit.old) }
    ensures shows { OnErr result (values_of held.new.cells ≡ values_of held.old.cells) }
{
    guess_owners(alloc, schema, capacity, unit, statement, held)?;
    make(alloc, schema, capacity, unit, held, statement)
}

// As `make_effect`, with the way back.
fn make_effect_with_way(
    alloc: Global,
    schema: &Schema,
    capacity: u16,
    unit: &mut Unit,
    held: &mut Held,
    statement: &Statement,
) -> Result<(Answer, WayBack), AllocError>
    requires sound { IsSound schema.now }
    requires fitting { fits schema.now statement.now ≡ true }
    requires of_schema { IsUnitOf schema.now unit.old }
    requires within { IsWithin capacity unit.old }
    requires all { HoldsAll schema.now capacity held.old }
    requires versions { HaveNextVersions held.old.cells }
    requires agrees { (db : Database) × Agrees schema.now capacity db held.old unit.old }
    ensures effect { IfOk result (λ made. (db : Database) → Agrees schema.now capacity db held.old unit.old → IsEffect schema.now capacity db statement.now unit.old unit.new held.new made.0) }
    ensures back { IfOk result (λ made. IsWayBack schema.now capacity unit.old held.old statement.now made.1) }
    ensures all { HoldsAll schema.now capacity held.new }
    ensures unit { OnErr result (unit.new ≡ unit.old) }
    ensures shows { OnErr result (values_of held.new.cells ≡ values_of held.old.cells) }
{
    guess_owners(alloc, schema, capacity, unit, statement, held)?;
    make_with_way(alloc, schema, capacity, unit, held, statement)
}

/// A database in memory, which holds all of its cells, with its units and the statements that they made.
pub struct WholeDatabase<'a> {
    alloc: Global,
    schema: &'a Schema,
    capacity: u16,
    held: Held,
    units: Vec<Unit>,
    history: Vec<Entry>,
}

impl<'a> Drop for WholeDatabase<'a> {
    fn drop(self) {
        let Self {
            alloc: _,
            schema: _,
            capacity: _,
            held: _,
            units: _,
            history: _,
        } = self;
    }
}

impl<'a> Model for WholeDatabase<'a> {
    ghost use Rattle.std.specs.Prelude.{length};
    ghost use Rattle.dbtg_step.specs.Core.Bare.{IsWhole};
    ghost use Rattle.dbtg_step.specs.Core.Whole.{Making};

    ghost Value = { Making };

    ghost view = { λ d. record { schema = d.schema.now; capacity = d.capacity; units = length d.units.items; history = d.history.items } };

    ghost invariant = { λ d. IsWhole d.schema.now d.capacity d.held d.units.items d.history.items };
}

impl<'a> WholeDatabase<'a> {
    /// The opening database with its units, numbered from 1.
    pub fn opening(
        alloc: Global,
        schema: &'a Schema,
        capacity: u16,
        units: u8,
    ) -> Result<Self, AllocError>
        requires sound { IsSound schema.now }
        ensures { IfOk result (λ database. database ≡ record { schema = schema.now; capacity = capacity; units = units; history = [] }) }
    {
        Ok(WholeDatabase {
            alloc,
            schema,
            capacity,
            held: opening_hands(alloc, schema, capacity)?,
            units: opening_units(alloc, schema, units)?,
            history: Vec::new(alloc),
        })
    }

    /// One statement of the unit with this number, made whole: what it does to the database and to its unit, and its
    /// answer, are its effect. If memory is refused nothing is changed.
    pub fn make(&mut self, unit: u8, statement: Statement) -> Result<(), AllocError>
        requires numbered { 0 < unit }
        requires within { unit ≤ self.old.units }
        requires fitting { fits self.old.schema statement ≡ true }
        ensures made { OnOk result (HasMade self.old unit statement self.new) }
        ensures unchanged { OnErr result (self.new ≡ self.old) }
    {
        make_room(&mut self.history)?;
        let maker = &mut self.units[unit as usize - 1];
        let answer = make_effect(
            self.alloc,
            self.schema,
            self.capacity,
            maker,
            &mut self.held,
            &statement,
        )?;
        enter(&mut self.history, unit, statement, answer);
        Ok(())
    }

    /// The statements that were made, with their answers, the newest last.
    pub fn history(&self) -> &[Entry]
        ensures history { result.now ≡ self.now.history }
        ensures of { IsHistoryOf self.now.schema self.now.capacity self.now.units self.now.history }
    {
        self.history.as_slice()
    }

    /// The units, in the order of their numbers, as their statements left them.
    pub fn units(&self) -> &[Unit]
        ensures units { result.now ≡ (state_now self.now).units }
        ensures count { length result.now ≡ self.now.units }
    {
        self.units.as_slice()
    }

    /// The cell with this name, as the database has it; none if the schema has no such cell.
    pub fn cell(&self, name: &CellName) -> Option<&Cell>
        ensures shows { IfSome result (λ c. shown c.now ≡ cell self.now.schema self.now.capacity (state_now self.now).database name.now) }
        ensures there { is_some result ≡ is_cell self.now.schema self.now.capacity name.now }
    {
        self.held.cell(name)
    }

    /// The number of a cell; none if the schema has no such cell.
    pub fn cell_number(&self, name: &CellName) -> Option<usize>
        ensures { result ≡ cell_number self.now.schema self.now.capacity name.now }
    {
        cell_number(self.schema, self.capacity, name)
    }

    /// The names of all cells, in the order of their numbers.
    pub fn cell_names(&self) -> Result<Vec<CellName>, AllocError>
        ensures { IfOk result (λ names. names.items ≡ cells_in_order self.now.schema self.now.capacity) }
    {
        cell_names(self.alloc, self.schema, self.capacity)
    }

    /// The image of the database.
    pub fn image(&self) -> Result<Image, AllocError>
        ensures { IfOk result (λ image. image ≡ image_of self.now.schema self.now.capacity (state_now self.now).database) }
    {
        let source = CellSource::Hands(&self.held);
        read_image(self.alloc, self.schema, self.capacity, source)
    }

    /// The database taken apart: its image, the statements that were made, and its units. Moves have no results.
    pub fn into_run(self) -> Result<Run, AllocError>
        ensures { IfOk result (λ given. IsMadeRun self.entry given) }
    {
        let image = self.image()?;
        let Self {
            alloc,
            schema: _,
            capacity: _,
            held: _,
            units,
            history,
        } = self;
        Ok(Run {
            results: Row::of(Vec::new(alloc)),
            image,
            history: Row::of(history),
            units: Row::of(units),
        })
    }

    /// As `make`, with the way back over the statement.
    pub(crate) fn make_with_way(
        &mut self,
        unit: u8,
        statement: Statement,
    ) -> Result<WayBack, AllocError>
        requires numbered { 0 < unit }
        requires within { unit ≤ self.old.units }
        requires fitting { fits self.old.schema statement ≡ true }
        ensures made { OnOk result (HasMade self.old unit statement self.new) }
        ensures back { IfOk result (LeadsOver self.new (length self.old.history)) }
        ensures unchanged { OnErr result (self.new ≡ self.old) }
    {
        make_room(&mut self.history)?;
        let maker = &mut self.units[unit as usize - 1];
        let made = make_effect_with_way(
            self.alloc,
            self.schema,
            self.capacity,
            maker,
            &mut self.held,
            &statement,
        )?;
        enter(&mut self.history, unit, statement, made.0);
        Ok(made.1)
    }

    /// Takes back the last statement by the way back over it. It takes no memory.
    pub(crate) fn take_back(&mut self, way: WayBack)
        requires { LeadsOver self.old (length self.old.history - 1) way }
        ensures { self.new ≡ made_first (length self.old.history - 1) self.old }
    {
        if let Some(entry) = self.history.pop() {
            let WayBack {
                names: _,
                cells,
                unit,
            } = way;
            put_each_back(&mut self.held, cells);
            self.units[entry.unit as usize - 1] = unit;
        }
    }
}
