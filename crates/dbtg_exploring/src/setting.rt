//! What is explored.

use dbtg_explore::Wish;
use dbtg_going::Around;
use dbtg_program::Program;
use dbtg_schema::{Row, Schema};

/// What an exploration is asked for.
#[derive(Clone, Copy)]
pub struct Exploring {
    pub capacity: u16,
    /// Is there a program that is made first, or one that is made last?
    pub around: Around,
    /// Results are shown in brief.
    pub brief: bool,
    /// How many states are allowed.
    pub limit: u64,
    /// What statements are answered is listed, in place of results.
    pub statuses: bool,
    /// The wish that is judged, in place of a list of results.
    pub wish: Option<Wish>,
}

/// Programs with their texts, the turns that are given, and what is asked for.
#[derive(Clone, Copy)]
pub struct Setting<'a> {
    pub schema: &'a Schema,
    pub programs: &'a [Program],
    pub texts: &'a [Row<u8>],
    pub told: &'a [u8],
    pub asked: Exploring,
}
