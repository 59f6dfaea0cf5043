//! A page in which one steps through a run: HTML with the run's data, and with the script that draws them.
#![tactic(auto)]

mod changes;
mod json;
mod markup;
mod page;
mod script;

pub use changes::changes_lead_on;
pub use page::{Steps, Told, page_text};
