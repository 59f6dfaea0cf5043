use std::marker::Model;

/// An area, by its place in the schema, which is what contracts see.
#[derive(Clone, Copy, Debug, PartialEq, Eq, PartialOrd)]
pub struct AreaNo {
    index: u8,
}

impl Model for AreaNo {
    ghost use Rattle.std.specs.Prelude.{ℕ};

    ghost Value = { ℕ };

    ghost view = { λ a. a.index };

    ghost inverse = { λ n. record { index = n } };
}

impl AreaNo {
    ghost use Rattle.std.specs.Prelude.{◌≡◌};

    pub fn new(index: u8) -> Self
        ensures { result ≡ index }
    {
        Self { index }
    }

    pub fn index(self) -> u8
        ensures { result ≡ self }
    {
        self.index
    }
}

/// A record type, by its place in the schema, which is what contracts see.
#[derive(Clone, Copy, Debug, PartialEq, Eq, PartialOrd, Hash)]
pub struct RecordNo {
    index: u8,
}

impl Model for RecordNo {
    ghost use Rattle.std.specs.Prelude.{ℕ};

    ghost Value = { ℕ };

    ghost view = { λ a. a.index };

    ghost inverse = { λ n. record { index = n } };
}

impl RecordNo {
    ghost use Rattle.std.specs.Prelude.{◌≡◌};

    pub fn new(index: u8) -> Self
        ensures { result ≡ index }
    {
        Self { index }
    }

    pub fn index(self) -> u8
        ensures { result ≡ self }
    {
        self.index
    }
}

/// A set, by its place in the schema, which is what contracts see.
#[derive(Clone, Copy, Debug, PartialEq, Eq, PartialOrd)]
pub struct SetNo {
    index: u8,
}

impl Model for SetNo {
    ghost use Rattle.std.specs.Prelude.{ℕ};

    ghost Value = { ℕ };

    ghost view = { λ a. a.index };

    ghost inverse = { λ n. record { index = n } };
}

impl SetNo {
    ghost use Rattle.std.specs.Prelude.{◌≡◌};

    pub fn new(index: u8) -> Self
        ensures { result ≡ index }
    {
        Self { index }
    }

    pub fn index(self) -> u8
        ensures { result ≡ self }
    {
        self.index
    }
}

/// An item of a record type, by its place in the schema, which is what contracts see.
#[derive(Clone, Copy, PartialEq, Eq)]
pub struct ItemNo {
    index: u8,
}

impl Model for ItemNo {
    ghost use Rattle.std.specs.Prelude.{ℕ};

    ghost Value = { ℕ };

    ghost view = { λ a. a.index };

    ghost inverse = { λ n. record { index = n } };
}

impl ItemNo {
    ghost use Rattle.std.specs.Prelude.{◌≡◌};

    pub fn new(index: u8) -> Self
        ensures { result ≡ index }
    {
        Self { index }
    }

    pub fn index(self) -> u8
        ensures { result ≡ self }
    {
        self.index
    }
}
