//! From names to places in a list, by an index. If names are equal, the first counts.

ghost use Rattle.dbtg_program.specs.Inside.Gathered.{leads_to};
ghost use Rattle.std.specs.Option.{option_or};
ghost use Rattle.std.specs.Prelude.{◌≡◌, List, ℕ, None, OnOk, Some, cond};
ghost use Rattle.std.specs.Str.{bytes_eq};

use indexmap::IndexMap;
use std::alloc::{AllocError, Global};

/// Maps each name of a list to its first place.
#[derive(Drop)]
pub struct Places {
    numbers: IndexMap<Vec<u8>, usize>,
}

impl Places {
    /// An empty map.
    pub fn none(alloc: Global) -> Self
        ensures { (q : List ℕ) → leads_to result q ≡ None }
    {
        Self {
            numbers: IndexMap::new(alloc),
        }
    }

    /// Maps this name to this place, unless it has one already.
    pub fn enter(&mut self, alloc: Global, name: &[u8], place: usize) -> Result<(), AllocError>
        ensures { OnOk result ((q : List ℕ) → leads_to self.new q ≡ option_or (leads_to self.old q) (cond (bytes_eq q name.now) (Some place) None)) }
    {
        if self.place(name).is_none() {
            let key = Vec::from_slice(alloc, name)?;
            self.numbers.insert(key, place)?;
        }
        Ok(())
    }

    /// The place with this name.
    pub fn place(&self, name: &[u8]) -> Option<usize>
        ensures { result ≡ leads_to self.now name.now }
    {
        self.numbers.get(name).copied()
    }
}
