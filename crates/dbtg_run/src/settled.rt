//! The final state of a database, when its units are done.
use crate::database::Database;
use crate::unit::RunUnit;
use dbtg_schema::{Row, Schema};
use dbtg_unit::{Entry, Image, Unit};

/// A database whose units have all come back: its schema, what it holds, what its units did, in the order of the tickets, and
/// the units by number.
#[derive(Drop)]
pub struct Settled {
    pub schema: Schema,
    pub image: Image,
    pub history: Row<Entry>,
    pub units: Row<Unit>,
}

/// Why a database is not settled.
#[derive(Clone, Copy, Debug, PartialEq, Eq)]
pub enum Fault {
    /// Fewer units came than it was made with.
    Missing,
    /// Memory was refused.
    NoMemory,
}

/// A database that is not settled, and the units that came, as they were handed in.
#[derive(Drop)]
pub struct Unsettled {
    pub fault: Fault,
    pub db: Database,
    pub units: Vec<RunUnit>,
}
