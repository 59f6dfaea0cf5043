//! How many units a run has. Code, contracts and definitions name it; docs/profile/data.md lists all limits.

ghost use Rattle.std.specs.Prelude.{◌≡◌};

/// The most units, and so the most scripts or programs, of a run.
pub const MOST_UNITS: usize = 8;

/// The limit in numbers: what a definition says of the limit, it says of this number.
pub fn limits_are()
    ensures units { MOST_UNITS ≡ 8 }
{}
