//! A database in memory on which each statement is made whole, and of which the last statements can be taken back.
ghost use Rattle.std.specs.Prelude.{◌≡◌, ◌-◌, ◌≤◌, ◌<◌, true, not, length, OnOk, OnErr};
ghost use Rattle.std.specs.List.{list_all};
ghost use Rattle.dbtg_cells.specs.CellNumbers.{is_cell};
ghost use Rattle.dbtg_cells.specs.Names.{name_eq};
ghost use Rattle.dbtg_unit.specs.Database.State.Legal.{pairwise};
ghost use Rattle.dbtg_unit.specs.Database.Statements.Fits.{fits};
ghost use Rattle.dbtg_step.specs.Core.Reversible.{OnlyLastChanged, made_first};
ghost use Rattle.dbtg_step.specs.Core.Whole.{HasMade};
ghost use Rattle.dbtg_step.specs.Inside.Reversible.{HasWaysBack};

use crate::way_back::WayBack;
use crate::whole::WholeDatabase;
use dbtg_cells::CellName;
use dbtg_unit::Statement;
use std::alloc::{AllocError, Global};
use std::marker::Model;

// Takes back the last statements, as many as are above this count, each by its way.
fn take_back_each(database: &mut WholeDatabase<'_>, ways: &mut Vec<WayBack>, count: usize)
    requires back { HasWaysBack database.old ways.old.items }
    requires above { length database.old.history - length ways.old.items ≤ count }
    ensures database { database.new ≡ made_first count database.old }
    ensures back { HasWaysBack database.new ways.new.items }
    ensures stays { length database.new.history - length ways.new.items ≡ length database.old.history - length ways.old.items }
{
    while database.history().len() > count {
        match ways.pop() {
            Some(way) => database.take_back(way),
            // Not met: each statement above the count has its way.
            None => return,
        }
    }
}

/// A database in memory on which each statement is made whole, and of which the last statements can be taken back.
pub struct ReversibleDatabase<'a> {
    database: WholeDatabase<'a>,
    ways: Vec<WayBack>,
}

impl<'a> Drop for ReversibleDatabase<'a> {
    fn drop(self) {
        let Self {
            database: _,
            ways: _,
        } = self;
    }
}

impl<'a> Model for ReversibleDatabase<'a> {
    ghost use Rattle.std.specs.Prelude.{◌-◌, length};
    ghost use Rattle.dbtg_step.specs.Core.Reversible.{Reversible};
    ghost use Rattle.dbtg_step.specs.Inside.Reversible.{HasWaysBack};

    ghost Value = { Reversible };

    ghost view = { λ d. record { making = d.database; stays = length d.database.history - length d.ways.items } };

    ghost invariant = { λ d. HasWaysBack d.database d.ways.items };
}

impl<'a> ReversibleDatabase<'a> {
    /// This database, of which the statements that were made stay.
    pub fn of(alloc: Global, database: WholeDatabase<'a>) -> Self
        ensures { result ≡ record { making = database.entry; stays = length database.entry.history } }
    {
        Self {
            database,
            ways: Vec::new(alloc),
        }
    }

    /// One statement of the unit with this number, made whole. If memory is refused nothing is changed.
    pub fn make(&mut self, unit: u8, statement: Statement) -> Result<(), AllocError>
        requires numbered { 0 < unit }
        requires within { unit ≤ self.old.making.units }
        requires fitting { fits self.old.making.schema statement ≡ true }
        ensures made { OnOk result (HasMade self.old.making unit statement self.new.making) }
        ensures stays { self.new.stays ≡ self.old.stays }
        ensures unchanged { OnErr result (self.new ≡ self.old) }
    {
        self.ways.reserve(1)?;
        let way = self.database.make_with_way(unit, statement)?;
        self.ways.push_reserved(way);
        Ok(())
    }

    /// Takes back the last statements, until as many as this are left. It takes no memory.
    pub fn take_back_to(&mut self, count: usize)
        requires above { self.old.stays ≤ count }
        ensures { self.new ≡ record self.old { making = made_first count self.old.making } }
    {
        take_back_each(&mut self.database, &mut self.ways, count);
    }

    /// The names of the cells that the last statement changed, each once: it changed no other cell. None are named where it stays.
    pub fn changed(&self) -> &[CellName]
        ensures changed { self.now.stays < length self.now.making.history → OnlyLastChanged self.now.making result.now }
        ensures cells { list_all (is_cell self.now.making.schema self.now.making.capacity) result.now ≡ true }
        ensures once { pairwise (λ c d. not (name_eq c d)) result.now ≡ true }
    {
        match self.ways.last() {
            Some(way) => way.names.as_slice(),
            None => &[],
        }
    }

    /// The database as it is now.
    pub fn database(&self) -> &WholeDatabase<'a>
        ensures { result.now ≡ self.now.making }
    {
        &self.database
    }
}
