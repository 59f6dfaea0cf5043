//! Texts that are kept once each, under numbers.
ghost use Rattle.std.specs.Prelude.{◌≡◌, [], Some, slice_get, IfOk};
ghost use Rattle.dbtg_interned.specs.Kept.{AddsOnly, IsOnce, Keeps};

use crate::contents::number;
use indexmap::IndexSet;
use std::alloc::{AllocError, Global};
use std::marker::Model;

/// Texts, each of which stands once, under a number.
pub struct Texts {
    texts: IndexSet<Vec<u8>>,
}

impl Drop for Texts {
    fn drop(self) {
        let Self { texts: _ } = self;
    }
}

impl Model for Texts {
    ghost use Rattle.std.specs.Prelude.{ℕ, List, map};
    ghost use Rattle.dbtg_interned.specs.Kept.{IsOnce};

    ghost Value = { List (List ℕ) };

    ghost view = { λ t. map (λ k. k.items) t.texts.keys };

    ghost invariant = { λ t. IsOnce (map (λ k. k.items) t.texts.keys) };
}

impl Texts {
    /// No text.
    pub fn new(alloc: Global) -> Self
        ensures { result ≡ [] }
    {
        Self {
            texts: IndexSet::new(alloc),
        }
    }

    /// The number of a text, which is kept if it is new. It fails where there is no memory, or no number of 32 bits is left.
    pub fn enter(&mut self, text: Vec<u8>) -> Result<u32, AllocError>
        ensures once { IsOnce self.new }
        ensures keeps { Keeps self.old self.new }
        ensures adds { AddsOnly self.old text.items self.new }
        ensures number { IfOk result (λ n. slice_get self.new n ≡ Some text.items) }
    {
        let (at, _) = self.texts.insert_full(text)?;
        number(at)
    }
}
