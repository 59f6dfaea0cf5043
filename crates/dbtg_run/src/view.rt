//! What a seat at the table knows. No value of these types is made; a clause reads an array as a list, of any length.
use dbtg_cells::{Cell, CellName};
use dbtg_schema::Schema;
use dbtg_unit::{Entry, Unit};
use std::snapshot::Snapshot;

/// What the database is made with.
#[derive(Drop)]
pub struct About {
    pub schema: Snapshot<Schema>,
    pub capacity: u16,
    pub units: u8,
}

/// One run-unit: its place among the units from 0, what it is, its entries, and what it holds in the order of taking. A held
/// cell has no room beside what it shows.
pub struct SeatUnit {
    pub place: u8,
    pub unit: Unit,
    pub journal: [Entry; 0],
    pub exclusive: bool,
    pub areas: [u8; 0],
    pub held: [(CellName, Cell); 0],
}

/// The knowledge of a seat: the units that sit there.
pub struct SeatKnowledge {
    /// False in what is left after a join.
    pub live: bool,
    pub about: About,
    pub members: [SeatUnit; 0],
}
