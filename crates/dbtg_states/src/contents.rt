//! What the cells of a state say, in numbers.
ghost use Rattle.std.specs.Prelude.{◌≡◌, ◌++◌, ◌∷◌, ◌≤◌, true, [], flat_map, length, not, map, option_and_then, option_to_list, slice_index_or, take, OnOk};
ghost use Rattle.std.specs.List.{list_all, range_with_len};
ghost use Rattle.dbtg_schema.specs.Lookups.{some_and};
ghost use Rattle.dbtg_schema.specs.Sound.{IsSound};
ghost use Rattle.dbtg_schema.specs.Structure.{member_clause};
ghost use Rattle.dbtg_cells.specs.CellNumbers.{is_cell};
ghost use Rattle.dbtg_cells.specs.Cells.{shown};
ghost use Rattle.dbtg_cells.specs.Numbers.{entry_of, last_of};
ghost use Rattle.dbtg_cells.specs.Shown.{RingValue};
ghost use Rattle.dbtg_unit.specs.Database.State.Base.{is_live, items_of, key_item, sort_key};
ghost use Rattle.dbtg_unit.specs.Database.State.Cells.{cell};
ghost use Rattle.dbtg_unit.specs.Database.State.Legal.{Legal};
ghost use Rattle.dbtg_step.specs.Core.Whole.{state_now};
ghost use Rattle.dbtg_states.specs.Users.{by_unit};
ghost use Rattle.dbtg_states.specs.Spelling.{key_numbers, list_numbers, mode_numbers, one_number, option_numbers, pair_numbers, value_numbers};
ghost use Rattle.dbtg_states.specs.Parts.{number_numbers, occurrence_numbers, part_in, record_numbers, shown_numbers, up_to_used, was_used};
ghost use Rattle.dbtg_states.specs.Inside.Items.{items_in};

use crate::spelled::{Spelled, spell_each, spell_list};
use crate::users::users_by_unit;
use dbtg_cells::{Cell, CellName, DbKey, Extent, Ring, Slot, Stored, Usage, Value};
use dbtg_schema::{ItemNo, RecordNo, Schema, SetNo};
use dbtg_step::WholeDatabase;
use std::alloc::{AllocError, Global};

// Who has the area open, in the order of units.
fn spell_users(
    alloc: Global,
    usage: &Usage,
    units: u8,
    out: &mut Vec<u64>,
) -> Result<(), AllocError>
    ensures { OnOk result (out.new.items ≡ out.old.items ++ flat_map (pair_numbers one_number mode_numbers) (by_unit (range_with_len 1 units) usage.now.users)) }
{
    let users = users_by_unit(alloc, usage.users(), units)?;
    spell_each(users.as_slice(), out)
}

// Did a record ever have the number?
fn was_used(extent: &Extent, number: u32) -> bool
    ensures { result ≡ some_and was_used (entry_of number extent.now.numbers) }
{
    extent.generation(number) != 0 || extent.is_live(number)
}

// How many numbers there are up to the last that was used.
fn count_used(extent: &Extent) -> u32
    ensures used { take result extent.now.numbers ≡ up_to_used extent.now.numbers }
    ensures within { result ≤ length extent.now.numbers }
{
    let mut count = extent.capacity();
    while count > 0 && !was_used(extent, count) {
        count -= 1;
    }
    count
}

// What an extent knows of a number: its last generation, and the CALC values of its record.
fn spell_number(extent: &Extent, number: u32, out: &mut Vec<u64>) -> Result<(), AllocError>
    ensures { OnOk result (out.new.items ≡ out.old.items ++ last_of number extent.now.numbers ∷ option_numbers (list_numbers value_numbers) (option_and_then (λ e. e.calc) (entry_of number extent.now.numbers))) }
{
    out.push(extent.generation(number) as u64)?;
    match extent.values(number) {
        Some(values) => {
            out.push(1)?;
            spell_list(values, out)
        }
        None => {
            out.push(0)?;
            Ok(())
        }
    }
}

// The numbers of an extent up to the last that was used.
fn spell_extent(extent: &Extent, out: &mut Vec<u64>) -> Result<(), AllocError>
    ensures { OnOk result (out.new.items ≡ out.old.items ++ flat_map number_numbers (up_to_used extent.now.numbers)) }
{
    for before in 0..count_used(extent) {
        spell_number(extent, before + 1, out)?;
    }
    Ok(())
}

// The item by which a set is sorted, in records of a type; none if it is not sorted.
fn sort_item(schema: &Schema, set: SetNo, rtype: RecordNo) -> Option<ItemNo>
    ensures { result ≡ option_and_then (λ m. m.key) (member_clause schema.now set rtype) }
{
    match schema.member_clause(set, rtype) {
        Some(member) => member.key,
        None => None,
    }
}

// An item; 0 if there is none.
fn spell_item(items: &[Value], item: ItemNo, out: &mut Vec<u64>) -> Result<(), AllocError>
    ensures { OnOk result (out.new.items ≡ out.old.items ++ value_numbers (slice_index_or items.now item (Value.Num 0))) }
{
    match items.get(item.index() as usize) {
        Some(value) => value.spell(out),
        None => Value::Num(0).spell(out),
    }
}

// The items of the record that a cell shows.
fn items_in(cell: &Cell) -> &[Value]
    ensures { result.now ≡ items_in (shown cell.now) }
{
    let Cell::Slot(slot) = cell else {
        return &[];
    };
    match slot.record() {
        Some(stored) => stored.items.get().as_slice(),
        None => &[],
    }
}

// The items of a record.
fn items_of<'a>(database: &'a WholeDatabase, key: &DbKey) -> &'a [Value]
    requires legal { Legal database.now.schema database.now.capacity (state_now database.now).database }
    requires live { is_live (state_now database.now).database key.now ≡ true }
    ensures { result.now ≡ items_of (state_now database.now).database key.now }
{
    match database.cell(&CellName::Slot(key.rtype, key.number)) {
        Some(cell) => items_in(cell),
        // Not met: a live record has a slot.
        None => &[],
    }
}

// A record: its generation, its version, 1 where versions tell nothing, its items, and its owner in each set.
fn spell_stored(versions: bool, stored: &Stored, out: &mut Vec<u64>) -> Result<(), AllocError>
    ensures { OnOk result (out.new.items ≡ out.old.items ++ record_numbers versions stored.now) }
{
    out.push(stored.generation as u64)?;
    out.push(if versions { stored.version } else { 1 })?;
    stored.items.get().spell(out)?;
    spell_each(stored.owners.all().as_slice(), out)
}

// The record of a slot, if there is one.
fn spell_slot(versions: bool, slot: &Slot, out: &mut Vec<u64>) -> Result<(), AllocError>
    ensures { OnOk result (out.new.items ≡ out.old.items ++ flat_map (record_numbers versions) (option_to_list slot.now)) }
{
    match slot.record() {
        Some(stored) => spell_stored(versions, stored, out),
        None => Ok(()),
    }
}

/// How the cells of a database of this schema are spelled: for this many units, with the versions of records or without.
#[derive(Clone, Copy)]
pub struct Spelling<'a> {
    pub schema: &'a Schema,
    pub units: u8,
    pub versions: bool,
}

impl<'a> Spelling<'a> {
    // The sort key that a record with these items has in a set.
    fn spell_sort_key(
        &self,
        set: SetNo,
        rtype: RecordNo,
        items: &[Value],
        out: &mut Vec<u64>,
    ) -> Result<(), AllocError>
        ensures { OnOk result (out.new.items ≡ out.old.items ++ option_numbers value_numbers (key_item self.now.schema.now set rtype items.now)) }
    {
        match sort_item(self.schema, set, rtype) {
            Some(item) => {
                out.push(1)?;
                spell_item(items, item, out)
            }
            None => {
                out.push(0)?;
                Ok(())
            }
        }
    }

    // The members of a set, each with its sort key.
    fn spell_members(
        &self,
        database: &WholeDatabase,
        set: SetNo,
        keys: &[DbKey],
        out: &mut Vec<u64>,
    ) -> Result<(), AllocError>
        requires legal { Legal database.now.schema database.now.capacity (state_now database.now).database }
        requires live { list_all (is_live (state_now database.now).database) keys.now ≡ true }
        ensures { OnOk result (out.new.items ≡ out.old.items ++ flat_map (pair_numbers key_numbers (option_numbers value_numbers)) (map (λ k. (k, sort_key self.now.schema.now (state_now database.now).database set k)) keys.now)) }
    {
        for key in keys {
            key.spell(out)?;
            self.spell_sort_key(set, key.rtype, items_of(database, key), out)?;
        }
        Ok(())
    }

    // The occurrence of a ring, if there is one.
    fn spell_ring(
        &self,
        alloc: Global,
        database: &WholeDatabase,
        name: &CellName,
        ring: &Ring,
        out: &mut Vec<u64>,
    ) -> Result<(), AllocError>
        requires legal { Legal database.now.schema database.now.capacity (state_now database.now).database }
        requires schema { database.now.schema ≡ self.now.schema.now }
        requires shows { RingValue ring.now.occurrence ≡ cell database.now.schema database.now.capacity (state_now database.now).database name.now }
        ensures { OnOk result (out.new.items ≡ out.old.items ++ flat_map occurrence_numbers (option_to_list ring.now.occurrence)) }
    {
        let CellName::Ring(set, _) = name else {
            // Not met: only the cell of a ring shows one.
            return Ok(());
        };
        let Some(owner) = ring.owner() else {
            return Ok(());
        };
        let keys = ring.keys(alloc)?;
        owner.spell(out)?;
        self.spell_members(database, *set, keys.as_slice(), out)
    }

    // All that a cell shows.
    fn spell_shown(
        &self,
        alloc: Global,
        database: &WholeDatabase,
        name: &CellName,
        found: &Cell,
        out: &mut Vec<u64>,
    ) -> Result<(), AllocError>
        requires legal { Legal database.now.schema database.now.capacity (state_now database.now).database }
        requires schema { database.now.schema ≡ self.now.schema.now }
        requires shows { shown found.now ≡ cell database.now.schema database.now.capacity (state_now database.now).database name.now }
        ensures { OnOk result (out.new.items ≡ out.old.items ++ shown_numbers self.now.versions self.now.units (shown found.now)) }
    {
        match found {
            Cell::Usage(usage) => spell_users(alloc, usage, self.units, out),
            Cell::Extent(extent) => spell_extent(extent, out),
            Cell::Ring(ring) => self.spell_ring(alloc, database, name, ring, out),
            Cell::Slot(slot) => spell_slot(self.versions, slot, out),
        }
    }

    /// What a cell of a database says, in numbers.
    pub(crate) fn spell_cell(
        &self,
        alloc: Global,
        database: &WholeDatabase,
        name: &CellName,
        out: &mut Vec<u64>,
    ) -> Result<(), AllocError>
        requires cell { is_cell database.now.schema database.now.capacity name.now ≡ true }
        requires sound { IsSound database.now.schema }
        requires schema { database.now.schema ≡ self.now.schema.now }
        ensures { OnOk result (out.new.items ≡ out.old.items ++ part_in self.now.versions self.now.units database.now name.now) }
    {
        // Unused here; the contract says that the database is legal.
        let _history = database.history();
        match database.cell(name) {
            Some(cell) => self.spell_shown(alloc, database, name, cell, out),
            // Not met: the schema has the cell.
            None => Ok(()),
        }
    }
}
