//! How many run-units there are, and how many statements each makes. Code, contracts and definitions name it; docs/profile/data.md lists all limits.

ghost use Rattle.std.specs.Prelude.{◌≡◌};

/// The most statements that a run-unit makes in one run, and that a script has.
pub const MOST_STATEMENTS: usize = 65_535;

/// The greatest number of a run-unit.
pub const LAST_UNIT: u8 = 255;

/// The limits in numbers: what a definition says of a limit, it says of this number.
pub fn limits_are()
    ensures statements { MOST_STATEMENTS ≡ 65535 }
    ensures last_unit { LAST_UNIT ≡ 255 }
{}
