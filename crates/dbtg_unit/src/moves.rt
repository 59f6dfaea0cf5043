//! The moves of a run, and the result of each.

/// One move of a run: a step of the unit with this number, or its quit. Units are numbered from 1.
#[derive(Clone, Copy)]
pub enum Move {
    Step(u8),
    Quit(u8),
}

/// The result of a step or a quit.
#[derive(Clone, Copy, PartialEq, Eq)]
pub enum Stepped {
    /// An event was made.
    Moved,
    /// Another unit holds the area or the cell that is needed next; nothing is changed.
    Blocked,
    /// There is no such unit, or it has nothing to do; nothing is changed.
    Idle,
    /// Memory was refused before the event; nothing is changed.
    NoMemory,
}
