//! Programs on threads: each by a unit of its own over one database.
#![tactic(auto)]

mod abreast;
mod between;
mod threads;
mod unit;

pub use abreast::Lineup;
pub use threads::{OnThreads, run_on_threads};
