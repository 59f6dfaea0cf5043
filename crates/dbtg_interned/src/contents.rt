//! Lists that are kept once each, under numbers.
ghost use Rattle.std.specs.Prelude.{◌≡◌, ◌∷◌, ◌<◌, [], Some, length, option_map, slice_get, IfOk};
ghost use Rattle.dbtg_interned.specs.Kept.{AddsOnly, IsContents, Keeps};

use indexmap::IndexSet;
use std::alloc::{AllocError, Global};
use std::marker::Model;

/// Lists, each of which stands once, under a number. The empty list has the number 0.
pub struct Contents {
    lists: IndexSet<Vec<u64>>,
}

impl Drop for Contents {
    fn drop(self) {
        let Self { lists: _ } = self;
    }
}

impl Model for Contents {
    ghost use Rattle.std.specs.Prelude.{ℕ, List, map};
    ghost use Rattle.dbtg_interned.specs.Kept.{IsContents};

    ghost Value = { List (List ℕ) };

    ghost view = { λ c. map (λ l. l.items) c.lists.keys };

    ghost invariant = { λ c. IsContents (map (λ l. l.items) c.lists.keys) };
}

impl Contents {
    /// The empty list alone.
    pub fn new(alloc: Global) -> Result<Self, AllocError>
        ensures { IfOk result (λ c. c ≡ [] ∷ []) }
    {
        let mut lists = IndexSet::new(alloc);
        lists.insert(Vec::new(alloc))?;
        Ok(Self { lists })
    }

    /// What holds of every value: each list stands once, the empty list at 0.
    pub fn each_list_stands_once(&self)
        ensures { IsContents self.now }
    {
        let _lists = &self.lists;
    }

    /// The list with a number.
    pub fn list(&self, number: u32) -> &[u64]
        requires { number < length self.now }
        ensures { slice_get self.now number ≡ Some result.now }
    {
        self.lists[number as usize].as_slice()
    }

    /// The list with a number, if there is one.
    pub fn get(&self, number: u32) -> Option<&[u64]>
        ensures { option_map (λ l. l.now) result ≡ slice_get self.now number }
    {
        if (number as usize) < self.lists.len() {
            Some(self.list(number))
        } else {
            None
        }
    }

    /// The number of a list, which is copied if it is new. It fails where there is no memory, or no number of 32 bits is left.
    pub fn enter(&mut self, alloc: Global, list: &[u64]) -> Result<u32, AllocError>
        ensures sound { IsContents self.new }
        ensures keeps { Keeps self.old self.new }
        ensures adds { AddsOnly self.old list.now self.new }
        ensures number { IfOk result (λ n. slice_get self.new n ≡ Some list.now) }
    {
        if let Some(at) = self.lists.get_index_of(list) {
            return number(at);
        }
        let mut copy = Vec::with_capacity(alloc, list.len())?;
        copy.extend_from_slice(list)?;
        let (at, _) = self.lists.insert_full(copy)?;
        number(at)
    }
}

/// A place as a number, if 32 bits can hold it.
pub(crate) fn number(at: usize) -> Result<u32, AllocError>
    ensures { IfOk result (λ n. n ≡ at) }
{
    if at > u32::MAX as usize {
        return Err(AllocError);
    }
    Ok(at as u32)
}
