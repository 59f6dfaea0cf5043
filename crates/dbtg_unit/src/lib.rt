//! What a sequential network database is: statements, units, and the effect of each statement.
#![tactic(auto)]

mod apply;
mod areas;
mod changes;
mod checks;
mod codes;
mod copy;
mod counts;
mod currents;
mod edit;
mod edited_names;
mod entries;
mod erased;
mod fits;
mod held;
mod image;
mod in_hand;
mod kept;
mod laws;
mod legality;
mod limits;
mod moves;
mod names;
mod order;
mod owners;
mod places;
mod prepared;
mod reserving;
mod see;
mod statement;
mod unit;

pub use apply::edit_cell;
pub use areas::is_automatic_in;
pub use changes::{is_rekeyed_in, names_calc, names_item};
pub use checks::refused_at_once;
pub use counts::{set_count, type_count};
pub use edit::{CellEdit, Edit, UnitEdit, push_taking_out};
pub use entries::entry_at;
pub use erased::Erased;
pub use held::{Held, Need};
pub use image::Image;
pub use in_hand::{
    next_version, numbers, occurrence, own_refusal, owner_in, owners_of, ring_name, stored, usage,
};
pub use kept::Kept;
pub use laws::{
    cells_determine, delete_stays_in_its_areas, doomed_is_least, doomed_is_least_set,
    each_statement_goes_forward, each_statement_is_answered, effect_is_its_edits,
    placing_keeps_order, reachable_types_are_least, ready_statement_changes_only_its_cells,
    replay_goes_forward, replay_takes_one_more, statements_determine_replay, versions_are_bounded,
};
pub use legality::{
    effect_keeps_legal, opening_is_legal, replay_keeps_legal, units_never_conflict,
};
pub use limits::{LAST_UNIT, MOST_STATEMENTS, limits_are};
pub use moves::{Move, Stepped};
pub use order::{has_area, next_area};
pub use owners::with_owners;
pub use places::refuses_equal;
pub use prepared::{Prepared, edit_each_cell, edit_held, finish, refused};
pub use reserving::{reserve_member, reserve_user};
pub use statement::{Change, Erase, Form, Statement, Suppress, Which};
pub use unit::{Answer, Cause, Currency, Entry, Place, Status, Unit};
