//! What happens in the shell: what a line asks for, what it does to the session, and what is replied. Nothing here reads or writes: the lines
//! come from the crate above, which prints the replies too. Nothing here runs scripts, so it is proved beside the crate that does.
#![tactic(auto)]

mod asked;
mod commands;
mod replies;
mod session;
mod words;

pub use commands::{Reply, Shell};
pub use session::{Refusal, Script, Session};
