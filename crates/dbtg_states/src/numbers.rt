//! Numbers of states: what each part of a state says is kept once, and a state has the number of the array of its parts.
ghost use Rattle.std.specs.Prelude.{◌≡◌, ◌+◌, ◌<◌, ◌≤◌, ◌^◌, ℕ, List, Some, true, option_map, slice_get, IfOk, IfSome};
ghost use Rattle.std.specs.List.{list_all};
ghost use Rattle.dbtg_schema.specs.Sound.{IsSound};
ghost use Rattle.dbtg_cells.specs.CellNumbers.{cell_count, cell_number, is_cell};
ghost use Rattle.dbtg_interned.specs.Arrays.{IsArray, elements, size, with_each};
ghost use Rattle.dbtg_states.specs.Numbers.{AreNumbers, HasPut, content_at, IsNumberBut, Grow, NumbersState};
ghost use Rattle.dbtg_states.specs.Parts.{part_in, parts_in};
ghost use Rattle.dbtg_states.specs.Transitions.{has_at, written};

use crate::contents::Spelling;
use crate::transitions::Look;
use dbtg_cells::CellName;
use dbtg_interned::{Arrays, Contents};
use dbtg_step::WholeDatabase;
use std::alloc::{AllocError, Global};
use std::marker::Model;

// Room for what a part usually says; a longer content takes more.
const USUAL_LENGTH: usize = 64;

/// What parts of states say, each kept once, and an array of their numbers for each state.
pub struct Numbers {
    contents: Contents,
    arrays: Arrays,
}

impl Drop for Numbers {
    fn drop(self) {
        let Self {
            contents: _,
            arrays: _,
        } = self;
    }
}

impl Model for Numbers {
    ghost use Rattle.dbtg_states.specs.Numbers.{Numbers as KeptNumbers};

    ghost Value = { KeptNumbers };

    ghost view = { λ n. record { contents = n.contents; arrays = n.arrays } };
}

impl Numbers {
    // Numbers of states with this many parts; none is kept yet but the array 0, of which no part says anything.
    pub(crate) fn with_room(alloc: Global, parts: usize) -> Result<Self, AllocError>
        requires { parts ≤ 2 ^ 24 }
        ensures kept { IfOk result AreNumbers }
        ensures room { IfOk result (λ numbers. parts ≤ size numbers.arrays) }
    {
        let contents = Contents::new(alloc)?;
        contents.each_list_stands_once();
        Ok(Self {
            contents,
            arrays: Arrays::with_room(alloc, parts)?,
        })
    }

    /// The number of the array that says this at a place, and is otherwise as another.
    pub fn put(
        &mut self,
        alloc: Global,
        array: u32,
        place: usize,
        content: &[u64],
    ) -> Result<u32, AllocError>
        requires array { IsArray self.old.arrays array }
        requires within { place < size self.old.arrays }
        ensures kept { AreNumbers self.new }
        ensures keeps { Grow self.old self.new }
        ensures put { IfOk result (HasPut self.old self.new array place content.now) }
    {
        self.arrays.each_node_stands_once();
        let number = self.contents.enter(alloc, content)?;
        let changed = self.arrays.with_element(array, place, number)?;
        Ok(changed)
    }

    /// The number of what the part at a place of an array says; none behind the last place.
    pub fn number_at(&self, array: u32, place: usize) -> Option<u32>
        requires { IsArray self.now.arrays array }
        ensures { result ≡ slice_get (elements self.now.arrays array) place }
    {
        self.arrays.each_node_stands_once();
        if place < self.arrays.len() {
            Some(self.arrays.element(array, place))
        } else {
            None
        }
    }

    /// What the part at a place of an array says.
    pub fn content_of(&self, array: u32, place: usize) -> Option<&[u64]>
        requires { IsArray self.now.arrays array }
        ensures { option_map (λ c. c.now) result ≡ content_at self.now array place }
    {
        match self.number_at(array, place) {
            Some(number) => self.contents.get(number),
            None => None,
        }
    }

    // Does the array have this number at a place?
    fn has_at(&self, array: u32, place: usize, number: u32) -> bool
        requires { IsArray self.now.arrays array }
        ensures { result ≡ has_at self.now array place number }
    {
        self.number_at(array, place)
            .is_some_and(|known| known == number)
    }

    /// Does the array have the numbers of all these looks, as they were before?
    pub fn has_before(&self, array: u32, looks: &[Look]) -> bool
        requires { IsArray self.now.arrays array }
        ensures { result ≡ list_all (λ l. has_at self.now array l.place l.before) looks.now }
    {
        looks
            .iter()
            .all(|look| self.has_at(array, look.place, look.before))
    }

    /// The look at a place of two arrays, before and after; none behind the last place.
    pub fn look_at(&self, place: usize, before: u32, after: u32) -> Option<Look>
        requires before { IsArray self.now.arrays before }
        requires after { IsArray self.now.arrays after }
        ensures place { IfSome result (λ l. l.place ≡ place) }
        ensures before { IfSome result (λ l. slice_get (elements self.now.arrays before) place ≡ Some l.before) }
        ensures after { IfSome result (λ l. slice_get (elements self.now.arrays after) place ≡ Some l.after) }
    {
        let before = self.number_at(before, place)?;
        let after = self.number_at(after, place)?;
        Some(Look {
            place,
            before,
            after,
        })
    }

    // The number of the array with these changes.
    fn put_changes(&mut self, array: u32, changes: &[(usize, u32)]) -> Result<u32, AllocError>
        requires { IsArray self.old.arrays array }
        ensures kept { AreNumbers self.new }
        ensures keeps { Grow self.old self.new }
        ensures array { IfOk result (λ n. IsArray self.new.arrays n) }
        ensures elements { IfOk result (λ n. elements self.new.arrays n ≡ with_each changes.now (elements self.old.arrays array)) }
    {
        self.contents.each_list_stands_once();
        self.arrays.with_elements(array, changes)
    }

    /// The number of the array that has the numbers of these looks, as they were after, and is otherwise as another.
    pub fn put_looks(
        &mut self,
        alloc: Global,
        array: u32,
        looks: &[Look],
    ) -> Result<u32, AllocError>
        requires { IsArray self.old.arrays array }
        ensures kept { IfOk result (λ n. AreNumbers self.new) }
        ensures keeps { IfOk result (λ n. Grow self.old self.new) }
        ensures array { IfOk result (λ n. IsArray self.new.arrays n) }
        ensures elements { IfOk result (λ n. elements self.new.arrays n ≡ written looks.now (elements self.old.arrays array)) }
    {
        let mut changes = Vec::with_capacity(alloc, looks.len())?;
        for look in looks {
            changes.push((look.place, look.after))?;
        }
        self.put_changes(array, changes.as_slice())
    }

    // The number of the array that says of this cell what it says in a database, and is otherwise as another.
    fn put_cell(
        &mut self,
        alloc: Global,
        spelling: &Spelling,
        database: &WholeDatabase,
        array: u32,
        name: &CellName,
    ) -> Result<u32, AllocError>
        requires array { IsArray self.old.arrays array }
        requires cell { is_cell database.now.schema database.now.capacity name.now ≡ true }
        requires sound { IsSound database.now.schema }
        requires schema { database.now.schema ≡ spelling.now.schema.now }
        requires kept { AreNumbers self.old }
        requires room { spelling.now.units + cell_count database.now.schema database.now.capacity ≤ size self.old.arrays }
        ensures { IfOk result (λ n. (k : ℕ) → cell_number database.now.schema database.now.capacity name.now ≡ Some k → HasPut self.old self.new array (spelling.now.units + k) (part_in spelling.now.versions spelling.now.units database.now name.now) n) }
    {
        let mut content = Vec::with_capacity(alloc, USUAL_LENGTH)?;
        spelling.spell_cell(alloc, database, name, &mut content)?;
        match database.cell_number(name) {
            Some(number) => {
                let place = spelling.units as usize + number;
                self.put(alloc, array, place, content.as_slice())
            }
            // Not met: the database has the cell.
            None => Ok(array),
        }
    }

    /// The number of the array that says of these cells what they say in a database, and is otherwise as another.
    pub fn put_cells(
        &mut self,
        alloc: Global,
        spelling: &Spelling,
        database: &WholeDatabase,
        array: u32,
        names: &[CellName],
    ) -> Result<u32, AllocError>
        requires cells { list_all (is_cell database.now.schema database.now.capacity) names.now ≡ true }
        requires sound { IsSound database.now.schema }
        requires schema { database.now.schema ≡ spelling.now.schema.now }
        requires but { (unit : ℕ → List ℕ) × IsNumberBut (parts_in spelling.now.versions spelling.now.units database.now unit) self.old spelling.now.units names.now array }
        ensures keeps { IfOk result (λ n. Grow self.old self.new) }
        ensures number { IfOk result (λ n. (unit : ℕ → List ℕ) → IsNumberBut (parts_in spelling.now.versions spelling.now.units database.now unit) self.old spelling.now.units names.now array → NumbersState (parts_in spelling.now.versions spelling.now.units database.now unit) self.new n) }
    {
        let mut number = array;
        for name in names {
            number = self.put_cell(alloc, spelling, database, number, name)?;
        }
        Ok(number)
    }
}
