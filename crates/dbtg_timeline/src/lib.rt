//! The picture of an interleaving: the events of a run in the order of its moves, as plain text or SVG, both by one layout.
#![tactic(auto)]

mod columns;
mod event;
mod lanes;
mod lines;
mod noting;
mod strips;
mod svg;
mod text;
mod waiting;
mod watching;

pub use event::{Event, Mark, letter};
pub use noting::noted_events;
pub use svg::timeline_svg;
pub use text::timeline_text;
pub use waiting::{area_name, push_cell};
pub use watching::{watch, watch_move};
