//! What a statement holds: areas and cells in the order of taking, and the unit's guesses of owners. Short lists
//! live in place, so that most statements take no memory for them.
ghost use Rattle.std.specs.Prelude.{◌≡◌, ◌==◌, ◌-◌, [], ◌∷◌, ◌++◌, length, map, option_map, false, option_copied, slice_get, slice_set, take, unwrap_or, IfErr, IfNone, OnErr, OnOk};
ghost use Rattle.std.specs.Borrow.{sem};
ghost use Rattle.std.specs.List.{list_any, zip};
ghost use Rattle.std.specs.Option.{option_copied_mut, option_to_list};
ghost use Rattle.dbtg_schema.specs.Lookups.{at};
ghost use Rattle.dbtg_cells.specs.Names.{name_eq};
ghost use Rattle.dbtg_unit.specs.Hands.Hands.{StandAtNumbers, cell_of};
ghost use Rattle.dbtg_unit.specs.Hands.InHand.{stored_in};
ghost use Rattle.dbtg_unit.specs.Inside.HeldNames.{AreNumbered, IsIndexOf, first_count, key_eq};
ghost use Rattle.indexmap.specs.IndexMap.{get};
ghost use Rattle.dbtg_schema.specs.declared.limits.TheConstants.{MOST_SETS};
ghost use Rattle.dbtg_unit.specs.Hands.Lends.{LendsCell};

use crate::in_hand::stored_of;
use crate::names::{FirstNames, NameKey, enter, find_place, leave};
use dbtg_cells::{Cell, CellName, DbKey, Layout, MaybeOwner, Owner, Owners, owner_at};
use dbtg_schema::{AreaNo, SetNo};
use indexmap::IndexMap;
use smallvec::SmallVec;
use std::alloc::{AllocError, AllocFailed, Global};
use std::marker::Model;

/// What a statement needs next.
#[derive(Clone, Copy)]
pub enum Need {
    /// This area, one of those that the statement wants.
    Area(AreaNo),
    /// This cell.
    Take(CellName),
    /// Other guesses: a needed owner is not the guess.
    Stale,
    /// Nothing more.
    Ready,
}

/// The areas and cells that a statement holds, and the guesses of its unit, one for each set.
pub struct Held {
    areas: SmallVec<u8, 8>,
    names: SmallVec<CellName, 8>,
    first: FirstNames,
    index: IndexMap<NameKey, usize>,
    cells: SmallVec<Cell, 8>,
    guesses: Owners,
}

impl Drop for Held {
    fn drop(self) {
        let Self {
            areas: _,
            names: _,
            first: _,
            index: _,
            cells: _,
            guesses: _,
        } = self;
    }
}

impl Model for Held {
    ghost use Rattle.std.specs.Prelude.{◌≡◌, length};
    ghost use Rattle.std.specs.List.{zip};
    ghost use Rattle.indexmap.specs.IndexMap.{get};
    ghost use Rattle.dbtg_unit.specs.Hands.Hands.{Hands};
    ghost use Rattle.dbtg_unit.specs.Inside.HeldNames.{key_eq, first_count, AreNumbered, IsIndexOf};

    ghost Value = { Hands };

    ghost view = { λ h. record { areas = h.areas.items; cells = zip h.names.items h.cells.items; guesses = h.guesses } };

    ghost invariant = { λ h. (length h.cells.items ≡ length h.names.items) × IsIndexOf (get key_eq h.index) (first_count h.first) h.names.items × AreNumbered h.first h.names.items };
}

fn is_among(areas: &[u8], area: u8) -> bool
    ensures { result ≡ list_any (λ a. a == area) areas.now }
{
    for a in areas {
        if *a == area {
            return true;
        }
    }
    false
}

fn cell_at(cells: &[Cell], at: usize) -> Option<&Cell>
    ensures { option_copied result ≡ slice_get cells.now at }
{
    cells.get(at)
}

// The cell with this name.
fn cell_named<'a>(
    names: &[CellName],
    first: &FirstNames,
    index: &IndexMap<NameKey, usize>,
    cells: &'a [Cell],
    name: &CellName,
) -> Option<&'a Cell>
    requires count { length cells.now ≡ length names.now }
    requires index { IsIndexOf (get key_eq index.now) (first_count first.now) names.now }
    requires numbered { AreNumbered first.now names.now }
    ensures { option_copied result ≡ cell_of name.now (zip names.now cells.now) }
{
    match find_place(names, first, index, name) {
        Some(at) => cell_at(cells, at),
        None => None,
    }
}

impl Held {
    /// Hands that hold nothing, with these guesses.
    pub fn new(alloc: Global, guesses: Owners) -> Self
        ensures { result ≡ record { areas = []; cells = []; guesses = guesses } }
    {
        Self {
            areas: SmallVec::new(alloc),
            names: SmallVec::new(alloc),
            first: FirstNames::InPlace,
            index: IndexMap::new(alloc),
            cells: SmallVec::new(alloc),
            guesses,
        }
    }

    /// Hands with these cells, each at its number in a layout, and these guesses: no cell has to be searched for.
    pub fn numbered(
        alloc: Global,
        layout: Layout,
        names: Vec<CellName>,
        cells: Vec<Cell>,
        guesses: Owners,
    ) -> Self
        requires numbered { StandAtNumbers layout (length names.items) names.items }
        requires named { length cells.items ≡ length names.items }
        ensures { result ≡ record { areas = []; cells = zip names.items cells.items; guesses = guesses } }
    {
        let names = SmallVec::from_vec(names);
        Self {
            areas: SmallVec::new(alloc),
            first: FirstNames::Numbered(layout, names.len()),
            names,
            index: IndexMap::new(alloc),
            cells: SmallVec::from_vec(cells),
            guesses,
        }
    }

    /// Is this area held?
    pub fn has(&self, area: AreaNo) -> bool
        ensures { result ≡ list_any (λ a. a == area) self.now.areas }
    {
        is_among(self.areas.as_slice(), area.index())
    }

    /// The cell with this name, if it is held.
    pub fn cell(&self, name: &CellName) -> Option<&Cell>
        ensures { option_copied result ≡ cell_of name.now self.now.cells }
    {
        cell_named(
            self.names.as_slice(),
            &self.first,
            &self.index,
            self.cells.as_slice(),
            name,
        )
    }

    /// The cells that are held, in the order of taking.
    pub fn cells(&self) -> &[Cell]
        ensures { result.now ≡ map (λ e. e.1) self.now.cells }
    {
        self.cells.as_slice()
    }

    /// The cell with this name, if it is held, to be written.
    pub fn cell_mut(&mut self, name: &CellName) -> Option<&mut Cell>
        ensures* writes_back { sem 𝓛 (LendsCell name.now self.entry result) }
        ensures value { option_copied_mut result ≡ cell_of name.now self.old.cells }
    {
        match find_place(self.names.as_slice(), &self.first, &self.index, name) {
            Some(at) => self.cells.get_mut(at),
            None => None,
        }
    }
}

impl Held {
    /// Appends an area to those that are held. On failure nothing changes.
    pub fn push_area(&mut self, area: AreaNo) -> Result<(), AllocError>
        ensures ok { OnOk result (self.new ≡ record self.old { areas = self.old.areas ++ area ∷ [] }) }
        ensures err { OnErr result (self.new ≡ self.old) }
    {
        self.areas.push(area.index())?;
        Ok(())
    }

    /// Gives back the area that was taken last.
    pub fn pop_area(&mut self) -> Option<AreaNo>
        ensures areas { self.old.areas ≡ self.new.areas ++ option_to_list result }
        ensures none { IfNone result (self.old.areas ≡ []) }
        ensures rest { self.new ≡ record self.old { areas = self.new.areas } }
    {
        match self.areas.pop() {
            Some(area) => Some(AreaNo::new(area)),
            None => None,
        }
    }

    /// Appends a cell that is not held yet. On failure nothing changes, and the error returns the cell.
    pub fn push_cell(&mut self, name: CellName, cell: Cell) -> Result<(), AllocFailed<Cell>>
        requires { list_any (λ e. name_eq name e.0) self.old.cells ≡ false }
        ensures ok { OnOk result (self.new ≡ record self.old { cells = self.old.cells ++ (name, cell) ∷ [] }) }
        ensures err { OnErr result (self.new ≡ self.old) }
        ensures value_returned { IfErr result (λ failed. failed.value ≡ cell) }
    {
        if self.names.reserve(1).is_err() || self.cells.reserve(1).is_err() {
            return Err(AllocFailed { value: cell });
        }
        if enter(&mut self.index, self.first.count(), &name, self.names.len()).is_err() {
            return Err(AllocFailed { value: cell });
        }
        self.cells.push_reserved(cell);
        self.names.push_reserved(name);
        Ok(())
    }

    /// Gives back the cell that was taken last, under its name.
    pub fn pop_cell(&mut self) -> Option<(CellName, Cell)>
        ensures cells { self.old.cells ≡ self.new.cells ++ option_to_list result }
        ensures none { IfNone result (self.old.cells ≡ []) }
        ensures rest { self.new ≡ record self.old { cells = self.new.cells } }
    {
        let name = self.names.pop()?;
        let left = self.names.len();
        leave(&mut self.index, self.first.count(), &name, left);
        self.first.keep(left);
        let cell = self.cells.pop()?;
        Some((name, cell))
    }

    /// The area that was taken last.
    pub fn last_area(&self) -> Option<AreaNo>
        ensures { result ≡ slice_get self.now.areas (length self.now.areas - 1) }
    {
        Some(AreaNo::new(*self.areas.as_slice().last()?))
    }

    /// The name of the cell that was taken last.
    pub fn last_name(&self) -> Option<CellName>
        ensures { result ≡ option_map (λ e. e.0) (slice_get self.now.cells (length self.now.cells - 1)) }
    {
        // The invariant: there are as many names as cells.
        let _ = &self.cells;
        self.names.as_slice().last().copied()
    }

    /// How many areas are held.
    pub fn area_count(&self) -> usize
        ensures { result ≡ length self.now.areas }
    {
        self.areas.len()
    }

    /// How many cells are held.
    pub fn cell_count(&self) -> usize
        ensures { result ≡ length self.now.cells }
    {
        // The invariant: there are as many names as cells.
        let _ = &self.cells;
        self.names.len()
    }

    /// The owner in a set of the unit's current of run-unit, as the unit last saw it.
    pub fn guess(&self, set: SetNo) -> Option<Owner>
        ensures { result ≡ at self.now.guesses set }
    {
        owner_at(self.guesses.as_slice(), set.index() as usize)
    }

    /// All guesses, by set.
    pub fn guesses(&self) -> &[MaybeOwner]
        ensures { result.now ≡ self.now.guesses }
    {
        self.guesses.as_slice()
    }

    /// Guesses these owners, by set.
    pub fn set_guesses(&mut self, guesses: Owners)
        ensures { self.new ≡ record self.old { guesses = guesses } }
    {
        self.guesses = guesses;
    }

    /// Guesses the owners of the record of a key, by set; none if its slot is not held, or has no record or another.
    pub fn guess_owners(&mut self, key: &DbKey)
        ensures { self.new ≡ record self.old { guesses = take MOST_SETS (unwrap_or (option_map (λ r. r.owners) (stored_in self.old key.now)) []) } }
    {
        let cell = cell_named(
            self.names.as_slice(),
            &self.first,
            &self.index,
            self.cells.as_slice(),
            &CellName::Slot(key.rtype, key.number),
        );
        self.guesses = match stored_of(cell, key.generation) {
            Some(stored) => stored.owners.all(),
            None => Owners::none(0),
        };
    }

    /// Guesses another owner in a set.
    pub fn set_guess(&mut self, set: SetNo, owner: Option<Owner>)
        ensures { self.new ≡ record self.old { guesses = slice_set self.old.guesses set owner } }
    {
        self.guesses.set(set.index() as usize, owner);
    }
}
