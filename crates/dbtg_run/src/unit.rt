//! A run-unit as callers see it. Between statements it holds nothing.
ghost use Rattle.std.specs.Prelude.{◌≡◌, ◌<◌, [], Bool, IfOk};
ghost use Rattle.dbtg_run.specs.Inside.Posed.{IsOurs};
ghost use Rattle.dbtg_run.specs.Inside.Settling.{resting};
ghost use Rattle.dbtg_run.specs.Inside.Views.{lone};
ghost use Rattle.dbtg_run.specs.Inside.Works.{IsAtWork};

use crate::rule::Chair;
use crate::view::About;
use crate::work::Work;
use dbtg_unit::{Currency, Entry, Kept};
use std::alloc::{AllocError, Global};
use std::marker::Model;

/// A run-unit of a database. It belongs to the database that made it, and contracts see which one by its table.
pub struct RunUnit {
    // In a box: a unit is handed from function to function and from thread to thread, and would take 2.6 KB of each one's stack.
    pub(crate) work: Box<Work>,
}

impl Drop for RunUnit {
    fn drop(self) {
        let Self { work: _ } = self;
    }
}

impl Model for RunUnit {
    ghost use Rattle.dbtg_run.specs.Inside.Works.{IsAtWork};
    ghost use Rattle.std.specs.Prelude.{◌≡◌, []};
    ghost use Rattle.dbtg_run.specs.UnitView.{UnitView};

    ghost Value = { UnitView };

    ghost view = { λ r. record { table = r.work.value.seat.table_id; about = r.work.value.about; unit = r.work.value.unit; journal = r.work.value.journal.items } };

    ghost invariant = { λ r. ((r.work.value.held.areas ≡ []) × (r.work.value.held.cells ≡ [])) × IsAtWork r.work.value };
}

impl RunUnit {
    // The run-unit of a unit at work, which holds nothing.
    pub(crate) fn of(alloc: Global, work: Work) -> Result<Self, AllocError>
        requires idle { (work.held.areas ≡ []) × (work.held.cells ≡ []) }
        requires work { IsAtWork work }
        ensures { IfOk result (λ unit. unit ≡ record { table = work.seat.table_id; about = work.about; unit = work.unit; journal = work.journal.items }) }
    {
        Ok(Self {
            work: Box::new(alloc, work)?,
        })
    }

    /// The number, from 1 on.
    pub fn number(&self) -> u8
        ensures { result ≡ self.now.unit.number }
    {
        self.work.unit.number
    }

    pub fn currency(&self) -> &Currency
        ensures { result.now ≡ self.now.unit.currency }
    {
        &self.work.unit.currency
    }

    /// The records that the unit keeps, with their versions.
    pub fn kept(&self) -> &Kept
        ensures { result.now ≡ self.now.unit.kept }
    {
        &self.work.unit.kept
    }

    /// The statements that the unit has done, in their order.
    pub fn journal(&self) -> &[Entry]
        ensures { result.now ≡ self.now.journal }
    {
        self.work.journal.as_slice()
    }

    // What the database was made with, whose schema is sound.
    pub(crate) fn about(&self) -> &About
        ensures about { result.now ≡ self.now.about }
        ensures ours { IsOurs self.now.about self.now.unit }
    {
        &self.work.about
    }

    // The unit's seat and its journal alone.
    pub(crate) fn into_parts(self) -> (Chair, Vec<Entry>)
        ensures table { result.0.table_id ≡ self.table }
        ensures numbered { 0 < self.unit.number }
        ensures seat { (x : Bool) × (result.0.me ≡ (lone self.about (resting (self, x)), [])) }
        ensures journal { result.1.items ≡ self.journal }
    {
        let Self { work } = self;
        let Work { seat, journal, .. } = Box::into_inner(work);
        (seat, journal)
    }

    // Takes room for this many more entries, if it can be had.
    pub(crate) fn make_room(&mut self, entries: usize)
        ensures { self.new ≡ self.old }
    {
        drop(self.work.journal.reserve(entries));
    }
}
