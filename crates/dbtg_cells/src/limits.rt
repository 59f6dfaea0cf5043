//! How often a record's number is used. Code, contracts and definitions name it; docs/profile/data.md lists all limits.

ghost use Rattle.std.specs.Prelude.{◌≡◌};

/// The last generation of a number: once a record of this generation is deleted, its number is never used again.
pub const LAST_GENERATION: u8 = 255;

/// The limit in numbers: what a definition says of the limit, it says of this number.
pub fn limits_are()
    ensures last_generation { LAST_GENERATION ≡ 255 }
{}
