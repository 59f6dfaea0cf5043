//! Every statement but DELETE, on the cells that it holds: what it needs next, and what it does once it needs nothing more.
#![tactic(auto)]

mod calc;
mod finding;
mod inserting;
mod joining;
mod keeping;
mod laws;
mod making;
mod members;
mod missing;
mod modifying;
mod need;
mod opening;
mod preparing;
mod removing;
mod stale;
mod storing;
mod unit_alone;

pub use laws::each_statement_is_determined;
pub use making::{is_made_at_once, make_at_once};
pub use need::{need_with_areas, next_need};
pub use preparing::prepare;
pub use stale::true_guesses;
