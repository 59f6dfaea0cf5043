//! DELETE, on the cells that it holds: what it needs next, and what it does once it needs nothing more.
#![tactic(auto)]

mod around;
mod course;
mod edits;
mod keys;
mod laws;
mod left;
mod names;
mod next;
mod preparing;
mod work_list;

pub use course::Course;
pub use laws::delete_is_determined;
pub use next::{need_with_areas, next_need};
pub use preparing::prepare;
