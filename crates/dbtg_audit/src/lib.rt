//! Audits of traces: whether the sequential database gives the answers of a trace.
#![tactic(auto)]

mod auditing;
mod every;
mod laws;
mod loading;
mod report;
mod said;
mod telling;

pub use auditing::{AllAudited, Audited, Difference, Recorded, audit_every_line, audit_trace};
pub use laws::a_printed_trace_is_equal;
pub use report::{AuditOptions, Verdict, audit};
