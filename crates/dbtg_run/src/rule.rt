//! The rule of the table, and the types made with it.
use crate::view::{About, SeatKnowledge};
use atomic_table::{Seat, Shared, Table, TableRule};
use dbtg_cells::Cell;
use std::alloc::Global;

/// The rule of the table: words, slots and views show a lawful state of the machine.
pub struct Latches;

impl TableRule<Option<Cell>, SeatKnowledge, About> for Latches {
    ghost use Rattle.dbtg_run.specs.Inside.LatchRule.{LatchRule, first_view};

    ghost holds = { LatchRule };

    ghost first = { first_view };
}

/// A table of words and cells under the rule.
pub type Board = Table<Option<Cell>, SeatKnowledge, About, Latches, Global>;

/// The part of a table that all units share.
pub type Top = Shared<Option<Cell>, SeatKnowledge, About, Latches>;

/// What one unit may know of a table and do to it.
pub type Chair = Seat<Option<Cell>, SeatKnowledge>;
