//! Lists, texts and arrays that are kept once each, under numbers: what is equal has the same number.
#![tactic(auto)]

mod arrays;
mod contents;
mod laws;
mod nodes;
mod texts;

pub use arrays::Arrays;
pub use contents::Contents;
pub use laws::{equal_arrays_have_one_number, older_arrays_stay};
pub use texts::Texts;
