//! The states of a database, as searches know them: part by part, spelled in numbers that are kept once each; what a statement looks at
//! of a state, and what it left there; and what tells a run from others. It knows nothing of scripts and programs that meet: a search says
//! what its units say.
#![tactic(auto)]

mod brief;
mod contents;
mod facts;
mod laws;
mod looks;
mod names;
mod needing;
mod numbers;
mod parts;
mod spelled;
mod stop;
mod transitions;
mod users;
mod watch;

pub use brief::{Told, none_before, push_shown};
pub use contents::Spelling;
pub use facts::named;
pub use laws::{
    names_tell_records_apart, order_of_opening_is_no_state, what_is_looked_at_determines,
};
pub use looks::Places;
pub use numbers::Numbers;
pub use spelled::{Spelled, as_numbers, spell_list};
pub use stop::Stop;
pub use transitions::{Look, Passage, Transition, Transitions};
pub use users::usage_by_unit;
pub use watch::Watch;
