//! The places of the texts that a command is given.

/// The place of a text. Scripts are numbered from 1; a command that takes programs has them in these places.
#[derive(Clone, Copy)]
pub enum TextPlace {
    Schema,
    Script(usize),
    Moves,
    Turns,
    /// A trace is given in the place of the scripts.
    Trace,
}
