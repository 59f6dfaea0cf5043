//! The limits of schemas, as docs/profile/data.md lists them. Code, contracts and definitions name them.

ghost use Rattle.std.specs.Prelude.{◌≡◌};

/// The most bytes that the text of a schema has.
pub const SCHEMA_BYTES: usize = 65_536;

pub const MOST_AREAS: usize = 8;

pub const MOST_RECORD_TYPES: usize = 16;

pub const MOST_SETS: usize = 16;

/// The most items of a record type.
pub const MOST_ITEMS: usize = 16;

/// The most items by which the records of a type have a CALC key.
pub const MOST_CALC_ITEMS: usize = 4;

/// The most member types of a set.
pub const MOST_MEMBERS: usize = 4;

/// The most digits of a number's picture.
pub const MOST_DIGITS: usize = 18;

/// The most bytes of a text's picture.
pub const MOST_TEXT_BYTES: usize = 64;

/// The limits in numbers: what a definition says of a limit, it says of this number.
pub fn limits_are()
    ensures schema_bytes { SCHEMA_BYTES ≡ 65536 }
    ensures areas { MOST_AREAS ≡ 8 }
    ensures record_types { MOST_RECORD_TYPES ≡ 16 }
    ensures sets { MOST_SETS ≡ 16 }
    ensures items { MOST_ITEMS ≡ 16 }
    ensures calc_items { MOST_CALC_ITEMS ≡ 4 }
    ensures members { MOST_MEMBERS ≡ 4 }
    ensures digits { MOST_DIGITS ≡ 18 }
    ensures text_bytes { MOST_TEXT_BYTES ≡ 64 }
{}
