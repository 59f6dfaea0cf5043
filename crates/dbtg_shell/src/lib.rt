//! The shell: statements are read a line at a time, and each is made whole and answered at once. It uses the crate that runs scripts in a
//! given order, since it saves the scripts and the turns by which they are made again. A program is run in it as if its statements were typed.
#![tactic(auto)]

mod dialogue;
mod running;
mod saved;
mod turns;
mod writing;

pub use dialogue::{Broken, converse, run_program};
pub use turns::turns_of;
pub use writing::write_file;
