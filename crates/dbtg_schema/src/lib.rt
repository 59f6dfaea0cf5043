//! The schema of a network database: read from its text, and looked up by names and numbers.
#![tactic(auto)]

mod automaton;
mod build;
mod checks;
mod connecting;
mod entries;
mod erasing;
mod fault;
mod find;
mod index;
pub mod laws;
mod limits;
mod names;
mod numbers;
mod pictures;
mod queries;
mod reader;
mod role;
mod row;
mod scanner;
mod schema;
mod sets_of_type;
mod shape;
mod wanted;

pub use erasing::AreaSet;
pub use fault::{Cause, SchemaFault};
pub use limits::{
    MOST_AREAS, MOST_CALC_ITEMS, MOST_DIGITS, MOST_ITEMS, MOST_MEMBERS, MOST_RECORD_TYPES,
    MOST_SETS, MOST_TEXT_BYTES, SCHEMA_BYTES, limits_are,
};
pub use names::is_name;
pub use numbers::{AreaNo, ItemNo, RecordNo, SetNo};
pub use pictures::spelled_picture;
pub use row::Row;
pub use schema::Schema;
pub use shape::{Area, Calc, Class, Duplicates, Item, Member, Order, Picture, RecordType, SetType};
pub use wanted::wanted_in_schema;
