//! The core: run-units that make their statements event by event, in every interleaving.
#![tactic(auto)]

mod auditing;
mod bare;
mod comparing;
mod course;
mod drawing;
mod imaging;
mod laws;
mod machine;
mod needing;
mod opening_parts;
mod parts;
mod quitting;
mod results;
mod reversible;
mod runner;
mod running;
mod statements;
mod stepping;
mod table;
mod taking_turns;
mod waiting;
mod watching;
mod way_back;
mod whole;

pub use auditing::{audit, audit_each};
pub use bare::BareDatabase;
pub use course::Course;
pub use dbtg_unit::{Image, Move, Stepped};
pub use laws::{
    each_event_keeps_lawful, every_core_is_sequential, every_image_is_of_its_history,
    every_run_extends_history, every_run_is_lawful, every_run_is_sequential,
    every_serial_run_is_a_run, machine_is_opening, needed_cells_exist, needs_are_in_order,
    needs_come_to_an_end, no_run_is_stuck, statements_have_their_events,
};
pub use machine::Core;
pub use opening_parts::{opening_cells, opening_unit};
pub use results::Run;
pub use reversible::ReversibleDatabase;
pub use running::{make_move, run, run_serial, run_whole_turns};
pub use statements::{next_need, prepare, true_guesses};
pub use taking_turns::{Turned, run_turns};
pub use waiting::{Awaited, Blocking};
pub use watching::{Newest, Position, Progress};
pub use whole::WholeDatabase;
