//! From names to numbers by a linear search: while a schema is built from its text, its lists have no index yet.

ghost use Rattle.std.specs.Prelude.{◌≡◌, ◌≤◌, length, map};
ghost use Rattle.dbtg_schema.specs.Structure.{place_of};

use crate::shape::{Area, Item, RecordType, SetType};

/// Something with a name.
pub trait HasName {
    ghost use Rattle.std.specs.Prelude.{ℕ, List};

    ghost name_of: { Self → List ℕ };

    /// Its name.
    fn name(&self) -> &[u8]
        ensures { result.now ≡ name_of self.now };
}

impl HasName for Area {
    ghost name_of = { λ a. a.name };

    fn name(&self) -> &[u8] {
        self.name.as_slice()
    }
}

impl HasName for RecordType {
    ghost name_of = { λ r. r.name };

    fn name(&self) -> &[u8] {
        self.name.as_slice()
    }
}

impl HasName for SetType {
    ghost name_of = { λ s. s.name };

    fn name(&self) -> &[u8] {
        self.name.as_slice()
    }
}

impl HasName for Item {
    ghost name_of = { λ i. i.name };

    fn name(&self) -> &[u8] {
        self.name.as_slice()
    }
}

/// The number of the first of these with this name.
pub fn find_name<T: HasName>(things: &[T], name: &[u8]) -> Option<u8>
    requires { length things.now ≤ 256 }
    ensures { result ≡ place_of name.now (map T.name_of things.now) }
{
    for (i, thing) in things.iter().enumerate() {
        if name == thing.name() {
            return Some(i as u8);
        }
    }
    None
}
