//! The parts of the core: where each cell is, the history, and the run-units.

use crate::course::Course;
use dbtg_cells::Cell;
use dbtg_schema::Row;
use dbtg_unit::{Entry, Held, Statement, Unit};

/// Where a cell is: at home, or with the unit with this number.
#[derive(Drop)]
pub enum CellLocation {
    Home(Cell),
    HeldBy(u8),
}

/// How far a unit is with its statement; `linked` counts the cells that are linked after the ticket.
#[derive(Clone, Copy)]
pub struct StatementProgress {
    pub exclusive: bool,
    pub turning_back: bool,
    pub ticket: Option<u64>,
    pub linked: usize,
}

/// A run-unit: what it holds, its script, how many of its statements have their ticket, and, in mid-statement, its progress; `course`
/// is how far its statement has come with its needs.
#[derive(Drop)]
pub struct UnitState {
    pub unit: Unit,
    pub held: Held,
    pub script: Row<Statement>,
    pub next: usize,
    pub progress: Option<StatementProgress>,
    pub course: Option<Course>,
}

/// The cells by number, the statements that drew a ticket, and the units in their order.
#[derive(Drop)]
pub struct Parts {
    pub table: Vec<CellLocation>,
    pub history: Vec<Entry>,
    pub runners: Vec<UnitState>,
}
