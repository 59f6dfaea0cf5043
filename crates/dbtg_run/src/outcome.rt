//! The result of a statement on threads, and the points at which a gate is passed.
ghost use Rattle.std.specs.Prelude.{◌≡◌, ◌≢◌, MatchBool};

use dbtg_unit::Answer;

/// The result of a statement.
#[derive(Drop)]
pub enum Outcome {
    /// The statement is made, with this answer.
    Done(Answer),
    /// Other units were in the way, or the statement turned back, more often than there were tries.
    Busy,
    /// The journal has no room for another entry, ever.
    Spent,
    /// Memory was refused.
    NoMemory,
}

impl Outcome {
    pub fn is_busy(&self) -> bool
        ensures { MatchBool result (self.now ≡ Outcome.Busy) (self.now ≢ Outcome.Busy) }
    {
        matches!(self, Outcome::Busy)
    }
}

/// The points at which a gate is passed.
#[derive(Clone, Copy)]
pub enum Point {
    /// Directly after the ticket is drawn.
    Ticketed,
    /// After the last latch is left.
    Answered,
}

/// Called at points of a statement, so that a test can hold a unit there.
pub trait Gate {
    fn pass(&self, unit: u8, ticket: u64, point: Point);
}

/// The gate that holds nobody.
pub struct NoGate;

impl Gate for NoGate {
    fn pass(&self, _unit: u8, _ticket: u64, _point: Point) {}
}
