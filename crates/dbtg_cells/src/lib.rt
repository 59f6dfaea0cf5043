//! Keys, values and the four kinds of cell: what a run-unit takes, changes and gives back.
#![tactic(auto)]

mod by_calc;
mod cell;
mod copy;
mod extent;
mod key;
mod laws;
mod limits;
mod links;
mod maybe_owner;
mod members;
mod name;
mod numbering;
mod order;
mod owners;
mod record_owners;
mod ring;
mod shared;
mod slot;
mod sorted;
mod usage;
mod value;

pub use cell::Cell;
pub use extent::{Extent, Number};
pub use key::{DbKey, Owner, Value, key_below, key_eq, owner_below, owner_eq};
pub use laws::{a_cell_stands_at_its_number, cells_have_numbers, each_cell_stands_once};
pub use limits::{LAST_GENERATION, limits_are};
pub use maybe_owner::{MaybeOwner, owner_at};
pub use name::{CellName, name_below, name_eq};
pub use numbering::{Layout, cell_count, cell_number, is_cell};
pub use owners::Owners;
pub use record_owners::{NewOwner, RecordOwners};
pub use ring::{Occurrence, Ring};
pub use shared::{Shared, SharedItems};
pub use slot::{NewRecord, Slot, Stored};
pub use usage::{Mode, Usage};
pub use value::{
    comes_before, copy_items, option_value_eq, sort_key_below, value_below, value_eq, values_eq,
};
