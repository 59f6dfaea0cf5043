//! Ways round in a graph of states: turns that come back to the state where they begin, and leave out no unit that can have its turn there.
#![tactic(auto)]

mod edge;
mod find;
mod graph;
mod parts;
mod reach;
mod round;
mod ruling;
mod walk;

pub use edge::Edge;
pub use find::find_round;
pub use round::Round;
