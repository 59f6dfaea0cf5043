//! A session of the shell: a database in memory, and the script of each unit as typed so far.
ghost use Rattle.std.specs.Prelude.{◌≡◌, ◌++◌, ◌∷◌, ◌+◌, ◌-◌, ◌≤◌, ◌<◌, [], IfErr, IfOk, OnErr, OnOk, length, map, option_map, replicate, slice_get, List, ℕ, true};
ghost use Rattle.dbtg_schema.specs.Sound.{IsSound};
ghost use Rattle.dbtg_unit.specs.Database.Statements.Fits.{fits};
ghost use Rattle.dbtg_unit.specs.Database.State.Image.{image_of};
ghost use Rattle.dbtg_unit.specs.Database.Laws.Replay.{IsHistoryOf, entries_of};
ghost use Rattle.dbtg_step.specs.Core.Whole.{HasMade, state_now};
ghost use Rattle.dbtg_explain.specs.Units.{is_count};
ghost use Rattle.dbtg_session.specs.Sessions.{HasScripts, RefusesBehind, RefusesLine, Takes, Undoes, last_made, last_said};
ghost use Rattle.dbtg_session.specs.Inside.Sessions.{BeginsHistory, HasEntered, HasNoRoom, IsAsBefore, MakesLine};
ghost use Rattle.dbtg_session.specs.declared.session.Refusal.TheVariants.{Fault, Memory};

use dbtg_refusal::said_of;
use dbtg_schema::Schema;
use dbtg_script::{Cause, LineFault, SCRIPT_BYTES, read_script_line};
use dbtg_step::WholeDatabase;
use dbtg_unit::{Entry, Image, Statement, Unit};
use std::alloc::{AllocError, Global};
use std::marker::Model;

/// Why a line is not made.
#[derive(Drop)]
pub enum Refusal {
    /// The line has this fault.
    Fault(Cause),
    Memory,
}

impl From<AllocError> for Refusal {
    ghost from_gives = { λ _ e. e ≡ Memory };

    fn from(_error: AllocError) -> Refusal {
        Refusal::Memory
    }
}

/// The script of a unit so far: the line of each statement that it made, and where each line begins.
#[derive(Drop)]
pub struct Script {
    pub text: Vec<u8>,
    pub begins: Vec<usize>,
}

impl Script {
    /// A script without statements.
    fn empty(alloc: Global) -> Self
        ensures text { result.text.items ≡ [] }
        ensures begins { result.begins.items ≡ [] }
    {
        Script {
            text: Vec::new(alloc),
            begins: Vec::new(alloc),
        }
    }

    /// Appends a line. If no room is found, the script stays as it was.
    fn push_line(&mut self, line: &[u8]) -> Result<(), AllocError>
        ensures taken { OnOk result (self.new.text.items ≡ self.old.text.items ++ line.now ++ 10 ∷ []) }
        ensures begun { OnOk result (self.new.begins.items ≡ self.old.begins.items ++ length self.old.text.items ∷ []) }
        ensures text { OnErr result (self.new.text.items ≡ self.old.text.items) }
        ensures begins { OnErr result (self.new.begins.items ≡ self.old.begins.items) }
    {
        let before = self.text.len();
        self.text.extend_from_slice(line)?;
        if self.text.push(b'\n').is_err() || self.begins.push(before).is_err() {
            self.text.truncate(before);
            return Err(AllocError);
        }
        Ok(())
    }

    /// Appends a line, unless the script would become too long.
    fn enter(&mut self, line: &[u8]) -> Result<(), Refusal>
        ensures entered { OnOk result (HasEntered self.old line.now self.new) }
        ensures room { OnOk result (length self.old.text.items + length line.now < SCRIPT_BYTES) }
        ensures as_before { OnErr result (IsAsBefore self.old self.new) }
        ensures refused { IfErr result (λ refusal. HasNoRoom refusal (length self.old.text.items + length line.now)) }
    {
        if SCRIPT_BYTES <= self.text.len() + line.len() {
            return Err(Refusal::Fault(Cause::TooMuch));
        }
        self.push_line(line)?;
        Ok(())
    }

    /// Drops the last line, if there is one.
    fn drop_line(&mut self)
        ensures { (front line : List ℕ) (begins : List ℕ) → self.old.text.items ≡ front ++ line → self.old.begins.items ≡ begins ++ length front ∷ [] → (self.new.text.items ≡ front) × (self.new.begins.items ≡ begins) }
    {
        if let Some(before) = self.begins.pop() {
            self.text.truncate(before);
        }
    }
}

// A number of scripts without statements.
fn empty_scripts(alloc: Global, count: u8) -> Result<Vec<Script>, AllocError>
    ensures many { IfOk result (λ scripts. length scripts.items ≡ count) }
    ensures texts { IfOk result (λ scripts. map (λ s. s.text.items) scripts.items ≡ replicate count []) }
    ensures begins { IfOk result (λ scripts. map (λ s. s.begins.items) scripts.items ≡ replicate count []) }
{
    let mut scripts = Vec::new(alloc);
    for _ in 0..count {
        scripts.push(Script::empty(alloc))?;
    }
    Ok(scripts)
}

// Makes a statement and enters its line in the script of its unit, or does neither.
fn make_and_enter(
    database: &mut WholeDatabase<'_>,
    script: &mut Script,
    unit: u8,
    line: &[u8],
    statement: Statement,
) -> Result<(), Refusal>
    requires numbered { 0 < unit }
    requires within { unit ≤ database.old.units }
    requires fitting { fits database.old.schema statement ≡ true }
    ensures made { OnOk result (HasMade database.old unit statement database.new) }
    ensures entered { OnOk result (HasEntered script.old line.now script.new) }
    ensures room { OnOk result (length script.old.text.items + length line.now < SCRIPT_BYTES) }
    ensures database { OnErr result (database.new ≡ database.old) }
    ensures script { OnErr result (IsAsBefore script.old script.new) }
    ensures refused { IfErr result (λ refusal. HasNoRoom refusal (length script.old.text.items + length line.now)) }
{
    script.enter(line)?;
    match database.make(unit, statement) {
        Ok(()) => Ok(()),
        Err(_) => {
            script.drop_line();
            Err(Refusal::Memory)
        }
    }
}

// Reads the next line of a script. Makes and enters the statement that it holds, and says whether it holds one.
fn take_line(
    alloc: Global,
    schema: &Schema,
    database: &mut WholeDatabase<'_>,
    script: &mut Script,
    unit: u8,
    line: &[u8],
) -> Result<bool, Refusal>
    requires sound { IsSound schema.now }
    requires of_schema { database.old.schema ≡ schema.now }
    requires numbered { 0 < unit }
    requires within { unit ≤ database.old.units }
    ensures taken { IfOk result (λ made. MakesLine schema.now database.old script.old unit line.now made database.new script.new) }
    ensures database { OnErr result (database.new ≡ database.old) }
    ensures script { OnErr result (IsAsBefore script.old script.new) }
    ensures refused { IfErr result (λ refusal. RefusesBehind refusal schema.now (length script.old.begins.items) (length script.old.text.items) line.now) }
{
    match read_script_line(alloc, schema, script.begins.len(), line) {
        Err(LineFault::Refused(cause)) => Err(Refusal::Fault(cause)),
        Err(LineFault::Memory) => Err(Refusal::Memory),
        Ok(None) => Ok(false),
        Ok(Some(statement)) => {
            make_and_enter(database, script, unit, line, statement)?;
            Ok(true)
        }
    }
}

// Makes the statements of a history on a database without statements.
fn make_each(database: &mut WholeDatabase<'_>, history: &[Entry]) -> Result<(), AllocError>
    requires nothing { database.old.history ≡ [] }
    requires history { BeginsHistory database.old.schema database.old.capacity database.old.units history.now }
    ensures { OnOk result (database.new ≡ record database.old { history = history.now }) }
{
    for entry in history {
        database.make(entry.unit, entry.statement.copy()?)?;
    }
    Ok(())
}

// The database on which just these statements are made.
fn made_again<'a>(
    alloc: Global,
    schema: &'a Schema,
    capacity: u16,
    units: u8,
    history: &[Entry],
) -> Result<WholeDatabase<'a>, AllocError>
    requires sound { IsSound schema.now }
    requires history { BeginsHistory schema.now capacity units history.now }
    ensures { IfOk result (λ database. database ≡ record { schema = schema.now; capacity = capacity; units = units; history = history.now }) }
{
    let mut database = WholeDatabase::opening(alloc, schema, capacity, units)?;
    make_each(&mut database, history)?;
    Ok(database)
}

/// A database in memory, its units, numbered from 1, and the script of each.
pub struct Session<'a> {
    alloc: Global,
    schema: &'a Schema,
    capacity: u16,
    database: WholeDatabase<'a>,
    scripts: Vec<Script>,
}

impl<'a> Drop for Session<'a> {
    fn drop(self) {
        let Self {
            alloc: _,
            schema: _,
            capacity: _,
            database: _,
            scripts: _,
        } = self;
    }
}

impl<'a> Model for Session<'a> {
    ghost use Rattle.std.specs.Prelude.{map};
    ghost use Rattle.dbtg_session.specs.Inside.Sessions.{IsSession};
    ghost use Rattle.dbtg_session.specs.Sessions.{Typed};

    ghost Value = { Typed };

    ghost view = { λ s. record { making = s.database; texts = map (λ x. x.text.items) s.scripts.items } };

    ghost invariant = { λ s. IsSession s.schema.now s.capacity s.database s.scripts.items };
}

impl<'a> Session<'a> {
    /// The opening database, and its units before their first statements.
    pub fn opening(
        alloc: Global,
        schema: &'a Schema,
        capacity: u16,
        units: u8,
    ) -> Result<Self, AllocError>
        requires sound { IsSound schema.now }
        requires counted { is_count units ≡ true }
        ensures { IfOk result (λ session. session ≡ record { making = record { schema = schema.now; capacity = capacity; units = units; history = [] }; texts = replicate units [] }) }
    {
        let scripts = empty_scripts(alloc, units)?;
        Ok(Session {
            alloc,
            schema,
            capacity,
            database: WholeDatabase::opening(alloc, schema, capacity, units)?,
            scripts,
        })
    }

    /// Makes the statement of a line for the unit with this number, and says whether the line holds one.
    pub fn make_line(&mut self, unit: u8, line: &[u8]) -> Result<bool, Refusal>
        requires numbered { 0 < unit }
        requires within { unit ≤ self.old.making.units }
        ensures taken { IfOk result (λ made. Takes self.old unit line.now made self.new) }
        ensures unchanged { OnErr result (self.new ≡ self.old) }
        ensures refused { IfErr result (λ refusal. RefusesLine refusal self.old unit line.now) }
    {
        let script = &mut self.scripts[unit as usize - 1];
        take_line(
            self.alloc,
            self.schema,
            &mut self.database,
            script,
            unit,
            line,
        )
    }

    /// Takes back the last statement, and says whether there was one.
    pub fn undo(&mut self) -> Result<bool, AllocError>
        ensures undone { IfOk result (λ undone. Undoes self.old undone self.new) }
        ensures unchanged { OnErr result (self.new ≡ self.old) }
    {
        let Some((last, earlier)) = self.database.history().split_last() else {
            return Ok(false);
        };
        let unit = last.unit;
        let units = self.scripts.len() as u8;
        let before = made_again(self.alloc, self.schema, self.capacity, units, earlier)?;
        self.database = before;
        self.scripts[unit as usize - 1].drop_line();
        Ok(true)
    }

    pub fn schema(&self) -> &'a Schema
        ensures { result.now ≡ self.now.making.schema }
    {
        self.schema
    }

    /// The statements that were made, with their answers.
    pub fn history(&self) -> &[Entry]
        ensures history { result.now ≡ self.now.making.history }
        ensures of { IsHistoryOf self.now.making.schema self.now.making.capacity self.now.making.units self.now.making.history }
        ensures scripts { HasScripts self.now }
    {
        self.database.history()
    }

    /// The last statement that was made, with its answer.
    pub fn last(&self) -> Option<&Entry>
        ensures { option_map (λ e. e.now) result ≡ last_made self.now }
    {
        self.database.history().last()
    }

    /// How many statements were made.
    pub fn count(&self) -> usize
        ensures { result ≡ length self.now.making.history }
    {
        self.database.history().len()
    }

    /// How many of them the unit with this number made.
    pub fn count_of(&self, unit: u8) -> usize
        ensures { result ≡ length (entries_of unit self.now.making.history) }
    {
        let history = self.database.history();
        history.iter().filter(|entry| entry.unit == unit).count()
    }

    /// What is in the way of the last statement; nothing if it was done.
    pub fn last_said(&self) -> Result<Vec<u8>, AllocError>
        ensures { IfOk result (λ said. said.items ≡ last_said self.now) }
    {
        match self.last() {
            Some(entry) => said_of(self.alloc, self.schema, &self.database, entry),
            None => Ok(Vec::new(self.alloc)),
        }
    }

    pub fn units(&self) -> &[Unit]
        ensures units { result.now ≡ (state_now self.now.making).units }
        ensures count { length result.now ≡ self.now.making.units }
        ensures few { length result.now ≤ 8 }
    {
        self.database.units()
    }

    pub fn image(&self) -> Result<Image, AllocError>
        ensures { IfOk result (λ image. image ≡ image_of self.now.making.schema self.now.making.capacity (state_now self.now.making).database) }
    {
        self.database.image()
    }

    /// The script of each unit.
    pub fn scripts(&self) -> &[Script]
        ensures { map (λ s. s.text.items) result.now ≡ self.now.texts }
    {
        self.scripts.as_slice()
    }
}
