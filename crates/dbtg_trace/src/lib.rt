//! Traces: who asked what, in which order, and what was answered.
#![tactic(auto)]

mod answer;
mod answer_cache;
mod fault;
mod laws;
mod parts;
mod printed;
mod reader;
mod traced;

pub use fault::{TraceCause, TraceFault};
pub use laws::{a_printed_history_is_read_back, a_printed_trace_is_read_back, answers_can_be_said};
pub use printed::{push_trace, push_traced_run};
pub use reader::read_trace;
pub use traced::{Said, Traced};
