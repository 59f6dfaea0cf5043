//! The Bachman diagram of a schema: record types as boxes, sets as arrows from owner to member. Its text is in the language of
//! Graphviz, which lays it out. It also prints the schema in lines, in the same words.
#![tactic(auto)]

mod dot;
mod lines;
mod listing;
mod print;

pub use dot::dot_text;
pub use listing::schema_lines;
