//! What the parts of units say, in numbers: what counts of a program, and its unit without versions.

ghost use Rattle.dbtg_explore.specs.Inside.Keys.{counted_numbers, counts_by, due_numbers, how_numbers};
ghost use Rattle.dbtg_explore.specs.Inside.Parts.{kept_count, unit_part};
ghost use Rattle.dbtg_explore.specs.Inside.Versions.{is_in_order};
ghost use Rattle.dbtg_explore.specs.Inside.Walks.{IsPlace, KnowsReads};
ghost use Rattle.dbtg_explore.specs.Orders.{IsMeeting};
ghost use Rattle.dbtg_explore.specs.States.{sequential_after};
ghost use Rattle.dbtg_explore.specs.Versions.{unversioned, unversioned_unit};
ghost use Rattle.dbtg_going.specs.Goings.{comes_of};
ghost use Rattle.dbtg_states.specs.Inside.SpelledUnits.{unit_numbers};
ghost use Rattle.dbtg_step.specs.Core.Whole.{state_now};
ghost use Rattle.dbtg_step.specs.Machine.SequentialDatabase.{unit_at};
ghost use Rattle.dbtg_unit.specs.Database.State.Legal.{Legal};
ghost use Rattle.dbtg_unit.specs.Database.Laws.StaysLegal.{IsLegalState};
ghost use Rattle.std.specs.Prelude.{◌≡◌, ◌<◌, ◌++◌, ◌∷◌, [], true, if◌then◌else◌, flat_map, option_to_list, unwrap_or, IfOk, OnOk};

use crate::meeting::Meeting;
use crate::unversioned::{unversioned_unit, unversioned_units};
use crate::walk::Walk;
use dbtg_cells::Value;
use dbtg_going::Going;
use dbtg_program::{Due, End};
use dbtg_schema::Row;
use dbtg_states::Spelled;
use dbtg_step::WholeDatabase;
use dbtg_unit::Unit;
use std::alloc::{AllocError, Global};

// The kind of an end, and its line.
fn numbers_of(end: End) -> (u64, u64)
    ensures { how_numbers end ≡ result.0 ∷ result.1 ∷ [] }
{
    match end {
        End::Stop => (1, 0),
        End::Assert(line) => (2, line),
        End::Size(line) => (3, line),
        End::Astray(line) => (4, line),
    }
}

// Does a field count, by what is known of the items? If the program has ended none of these does. Behind them are counters.
fn counts(goes: bool, read: &[bool], field: usize) -> bool
    ensures { result ≡ counts_by goes read.now field }
{
    match read.get(field) {
        Some(is_read) => goes && *is_read,
        None => true,
    }
}

// How many values there are, and those that count.
fn spell_values(
    goes: bool,
    read: &[bool],
    values: &[Value],
    out: &mut Vec<u64>,
) -> Result<(), AllocError>
    ensures { OnOk result (out.new.items ≡ out.old.items ++ counted_numbers (counts_by goes read.now) values.now) }
{
    out.push(values.len() as u64)?;
    for (field, value) in values.iter().enumerate() {
        if counts(goes, read, field) {
            value.spell(out)?;
        }
    }
    Ok(())
}

// How a program stands, and what counts of its state.
fn spell_going(read: &[bool], going: &Going, out: &mut Vec<u64>) -> Result<(), AllocError>
    ensures { OnOk result (out.new.items ≡ out.old.items ++ due_numbers read.now (comes_of going.now)) }
{
    let values = going.state.values();
    match going.due {
        Due::Statement(_) => {
            out.push(0)?;
            out.push(going.state.at() as u64)?;
            spell_values(true, read, values, out)
        }
        Due::End(end) => {
            let (kind, line) = numbers_of(end);
            out.push(kind)?;
            out.push(line)?;
            spell_values(false, read, values, out)
        }
    }
}

// The program of a unit, which reads these items.
fn spell_program(
    read: &[bool],
    goings: &[Going],
    unit: u8,
    out: &mut Vec<u64>,
) -> Result<(), AllocError>
    requires { 0 < unit }
    ensures { OnOk result (out.new.items ≡ out.old.items ++ flat_map (λ g. due_numbers read.now (comes_of g)) (option_to_list (unit_at goings.now unit))) }
{
    match goings.get(unit as usize - 1) {
        Some(going) => spell_going(read, going, out),
        None => Ok(()),
    }
}

// What is known of the items of the unit's program.
fn items_read_by(reads: &[Row<bool>], unit: u8) -> &[bool]
    requires { 0 < unit }
    ensures { result.now ≡ unwrap_or (unit_at reads.now unit) [] }
{
    match reads.get(unit as usize - 1) {
        Some(read) => read.as_slice(),
        None => &[],
    }
}

// A unit of the database without versions.
fn spell_own(
    alloc: Global,
    database: &WholeDatabase,
    own: &Unit,
    out: &mut Vec<u64>,
) -> Result<(), AllocError>
    requires legal { Legal database.now.schema database.now.capacity (state_now database.now).database }
    requires order { is_in_order own.now.kept ≡ true }
    ensures { OnOk result (out.new.items ≡ out.old.items ++ unit_numbers (unversioned_unit (state_now database.now).database own.now)) }
{
    let unit = unversioned_unit(alloc, database, own)?;
    unit.spell(out)
}

// The unit with this number without versions.
fn spell_unit(
    alloc: Global,
    database: &WholeDatabase,
    unit: u8,
    out: &mut Vec<u64>,
) -> Result<(), AllocError>
    requires numbered { 0 < unit }
    requires legal { IsLegalState database.now.schema database.now.capacity (state_now database.now) }
    ensures { OnOk result (out.new.items ≡ out.old.items ++ flat_map unit_numbers (option_to_list (unit_at (unversioned (state_now database.now)).units unit))) }
{
    match database.units().get(unit as usize - 1) {
        Some(own) => spell_own(alloc, database, own, out),
        None => Ok(()),
    }
}

// 1 if it is so, and 0 otherwise.
fn number_of(is_so: bool) -> u64
    ensures { result ≡ if is_so then 1 else 0 }
{
    if is_so { 1 } else { 0 }
}

// How many records the unit with this number keeps.
fn count_kept(database: &WholeDatabase, unit: u8) -> u64
    requires numbered { 0 < unit }
    requires legal { IsLegalState database.now.schema database.now.capacity (state_now database.now) }
    ensures { result ≡ kept_count (unit_at (unversioned (state_now database.now)).units unit) }
{
    match database.units().get(unit as usize - 1) {
        Some(own) => own.kept.as_slice().len() as u64,
        None => 0,
    }
}

impl<'a> Meeting<'a> {
    /// The units of a place without versions.
    pub(crate) fn unversioned_units(
        &self,
        alloc: Global,
        walk: &Walk,
    ) -> Result<Row<Unit>, AllocError>
        requires meeting { IsMeeting self.now }
        requires place { IsPlace self.now walk.now }
        ensures { IfOk result (λ units. units ≡ (unversioned (sequential_after self.now walk.now.database.making.history)).units) }
    {
        // Its history says that the database is legal.
        let database = walk.database.database();
        let _history = database.history();
        unversioned_units(alloc, database, database.units())
    }

    /// What the part of a unit says.
    pub(crate) fn spell_unit_part(
        &self,
        alloc: Global,
        walk: &Walk,
        unit: u8,
        out: &mut Vec<u64>,
    ) -> Result<(), AllocError>
        requires meeting { IsMeeting self.now }
        requires place { IsPlace self.now walk.now }
        requires knows { KnowsReads self.now walk.now }
        requires numbered { 0 < unit }
        ensures { OnOk result (out.new.items ≡ out.old.items ++ unit_part self.now walk.now.database.making.history unit) }
    {
        // Its history says that the database is legal.
        let database = walk.database.database();
        let _history = database.history();
        out.push(count_kept(database, unit))?;
        out.push(number_of(self.can_go_on(walk, unit)))?;
        let read = items_read_by(walk.reads.as_slice(), unit);
        spell_program(read, walk.goings.as_slice(), unit, out)?;
        spell_unit(alloc, database, unit, out)
    }
}
