//! The number of the state where a walk stands: the array of the state before, with the parts of all units, since another unit's turn can
//! change a record that a unit keeps, and of the cells that the last turn changed.

ghost use Rattle.dbtg_cells.specs.CellNumbers.{cell_count, is_cell};
ghost use Rattle.dbtg_cells.specs.declared.name.CellName.{CellName};
ghost use Rattle.dbtg_explore.specs.Inside.Parts.{IsNumberOf, parts_of, unit_part};
ghost use Rattle.dbtg_explore.specs.Inside.Walks.{HasTurned, IsPlace, KnowsReads, Stands, StandsAt, links_of, order_of};
ghost use Rattle.dbtg_explore.specs.Orders.{IsMeeting, can_turn};
ghost use Rattle.dbtg_interned.specs.Arrays.{IsArray, size};
ghost use Rattle.dbtg_states.specs.Numbers.{AreNumbers, Grow, HasPut, IsNumberBut};
ghost use Rattle.std.specs.List.{list_all};
ghost use Rattle.std.specs.Prelude.{◌≡◌, ◌+◌, ◌-◌, ◌<◌, ◌≤◌, ◌++◌, ◌∷◌, [], List, true, length, IfOk, OnOk};

use crate::meeting::Meeting;
use crate::orders::Link;
use crate::walk::Walk;
use dbtg_cells::CellName;
use dbtg_states::{Numbers, Spelling};
use std::alloc::{AllocError, Global};

impl<'a> Meeting<'a> {
    // The number of the array that says of this unit what is so where the walk stands.
    fn put_unit(
        &self,
        alloc: Global,
        numbers: &mut Numbers,
        walk: &Walk,
        array: u32,
        unit: u8,
    ) -> Result<u32, AllocError>
        requires meeting { IsMeeting self.now }
        requires place { IsPlace self.now walk.now }
        requires knows { KnowsReads self.now walk.now }
        requires array { IsArray numbers.old.arrays array }
        requires there { (0 < unit) × (unit ≤ length self.now.programs) }
        requires room { length self.now.programs + cell_count self.now.schema self.now.capacity ≤ size numbers.old.arrays }
        ensures { IfOk result (HasPut numbers.old numbers.new array (unit - 1) (unit_part self.now walk.now.database.making.history unit)) }
    {
        let mut content = Vec::new(alloc);
        self.spell_unit_part(alloc, walk, unit, &mut content)?;
        numbers.put(alloc, array, unit as usize - 1, content.as_slice())
    }

    // The number of the array that says of all units what is so there.
    fn put_units(
        &self,
        alloc: Global,
        numbers: &mut Numbers,
        walk: &Walk,
        array: u32,
    ) -> Result<u32, AllocError>
        requires meeting { IsMeeting self.now }
        requires place { IsPlace self.now walk.now }
        requires knows { KnowsReads self.now walk.now }
        requires but { (names : List CellName) × IsNumberBut (parts_of self.now walk.now.database.making.history) numbers.old 0 names array }
        ensures keeps { IfOk result (λ n. Grow numbers.old numbers.new) }
        ensures number { IfOk result (λ n. (names : List CellName) → IsNumberBut (parts_of self.now walk.now.database.making.history) numbers.old 0 names array → IsNumberBut (parts_of self.now walk.now.database.making.history) numbers.new (length self.now.programs) names n) }
    {
        let mut number = array;
        for before in 0..self.units() {
            number = self.put_unit(alloc, numbers, walk, number, before + 1)?;
        }
        Ok(number)
    }

    // The number of the state where the walk stands, by an array that says what is so there of all cells but these. Cells are spelled without
    // versions.
    fn put_all(
        &self,
        alloc: Global,
        numbers: &mut Numbers,
        walk: &Walk,
        array: u32,
        names: &[CellName],
    ) -> Result<u32, AllocError>
        requires meeting { IsMeeting self.now }
        requires place { IsPlace self.now walk.now }
        requires knows { KnowsReads self.now walk.now }
        requires cells { list_all (is_cell self.now.schema self.now.capacity) names.now ≡ true }
        requires but { IsNumberBut (parts_of self.now walk.now.database.making.history) numbers.old 0 names.now array }
        ensures keeps { IfOk result (λ n. Grow numbers.old numbers.new) }
        ensures number { IfOk result (IsNumberOf self.now numbers.new walk.now.database.making.history) }
    {
        let number = self.put_units(alloc, numbers, walk, array)?;
        let database = walk.database.database();
        let spelling = Spelling {
            schema: self.schema,
            units: self.units(),
            versions: false,
        };
        numbers.put_cells(alloc, &spelling, database, number, names)
    }

    /// The number of the first state, where the walk stands.
    pub(crate) fn first_number(
        &self,
        alloc: Global,
        numbers: &mut Numbers,
        walk: &Walk,
    ) -> Result<u32, AllocError>
        requires meeting { IsMeeting self.now }
        requires place { IsPlace self.now walk.now }
        requires knows { KnowsReads self.now walk.now }
        requires kept { AreNumbers numbers.old }
        requires room { length self.now.programs + cell_count self.now.schema self.now.capacity ≤ size numbers.old.arrays }
        ensures { IfOk result (IsNumberOf self.now numbers.new walk.now.database.making.history) }
    {
        let names = walk.database.database().cell_names()?;
        self.put_all(alloc, numbers, walk, 0, names.as_slice())
    }

    /// The unit of the turn has it. Gives the number of the state to which it leads, by that of the state before it. Two places have one number
    /// exactly if their states differ at most in the order in which units opened an area, and in versions that tell no kept record from
    /// its own.
    pub(crate) fn number_after(
        &self,
        alloc: Global,
        walk: &mut Walk<'a>,
        turn: Link,
        numbers: &mut Numbers,
        before: u32,
    ) -> Result<u32, AllocError>
        requires meeting { IsMeeting self.now }
        requires stands { Stands self.now walk.old }
        requires turn { can_turn self.now walk.old.database.making.history turn.unit ≡ true }
        requires before { IsNumberOf self.now numbers.old walk.old.database.making.history before }
        ensures stands { OnOk result (StandsAt self.now (order_of walk.old.turns.items ++ turn.unit ∷ []) walk.new) }
        ensures turned { OnOk result (HasTurned self.now turn.unit walk.old.database.making walk.new.database.making walk.new.goings.items) }
        ensures links { OnOk result (links_of walk.new.turns.items ≡ links_of walk.old.turns.items ++ turn ∷ []) }
        ensures keeps { IfOk result (λ n. Grow numbers.old numbers.new) }
        ensures number { IfOk result (IsNumberOf self.now numbers.new walk.new.database.making.history) }
    {
        self.take_turn(alloc, walk, turn)?;
        let names = walk.database.changed();
        self.put_all(alloc, numbers, walk, before, names)
    }
}
