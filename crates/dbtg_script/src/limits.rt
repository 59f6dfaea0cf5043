//! The limits of scripts, of moves and of turns, which code, contracts and definitions name. docs/profile/data.md lists all limits.

ghost use Rattle.std.specs.Prelude.{◌≡◌};

/// The most bytes that the text of a script has.
pub const SCRIPT_BYTES: usize = 1_048_576;

/// The most moves that a text of moves stands for, and the most turns of a text of turns.
pub const MOST_MOVES: usize = 1_000_000;

/// The limits in numbers: what a definition says of a limit, it says of this number.
pub fn limits_are()
    ensures script_bytes { SCRIPT_BYTES ≡ 1048576 }
    ensures moves { MOST_MOVES ≡ 1000000 }
{}
