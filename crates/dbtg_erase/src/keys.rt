//! Keys, each once, in the order in which they came.
ghost use Rattle.std.specs.Prelude.{◌≡◌, [], ◌∷◌, slice_get, IfOk, OnOk};
ghost use Rattle.dbtg_cells.specs.Keys.{is_member};
ghost use Rattle.dbtg_unit.specs.Hands.Erasing.{with_those};

use dbtg_cells::DbKey;
use dbtg_schema::Row;
use indexmap::IndexSet;
use std::alloc::{AllocError, Global};
use std::marker::Model;

/// Keys in the order in which they came, none twice.
pub(crate) struct Keys {
    keys: IndexSet<DbKey>,
}

impl Drop for Keys {
    fn drop(self) {
        let Self { keys: _ } = self;
    }
}

impl Model for Keys {
    ghost use Rattle.std.specs.Prelude.{List};
    ghost use Rattle.dbtg_cells.specs.declared.key.DbKey.{DbKey};

    ghost Value = { List DbKey };

    ghost view = { λ k. k.keys.keys };
}

impl Keys {
    pub fn new(alloc: Global) -> Self
        ensures { result ≡ [] }
    {
        Self {
            keys: IndexSet::new(alloc),
        }
    }

    /// Appends a key, if it is not there yet.
    pub fn push(&mut self, key: DbKey) -> Result<(), AllocError>
        ensures { OnOk result (self.new ≡ with_those self.old (key ∷ [])) }
    {
        self.keys.insert_full(key)?;
        Ok(())
    }

    /// The key at this place, from 0.
    pub fn get(&self, place: usize) -> Option<DbKey>
        ensures { result ≡ slice_get self.now place }
    {
        self.keys.get_index(place).copied()
    }

    pub fn contains(&self, key: DbKey) -> bool
        ensures { result ≡ is_member key self.now }
    {
        self.keys.contains(&key)
    }

    /// The keys in a list of their own.
    pub fn copy(&self, alloc: Global) -> Result<Row<DbKey>, AllocError>
        ensures { IfOk result (λ keys. keys ≡ self.now) }
    {
        let mut keys = Vec::new(alloc);
        keys.extend_from_slice(self.keys.as_slice())?;
        Ok(Row::of(keys))
    }

    pub fn as_slice(&self) -> &[DbKey]
        ensures { result.now ≡ self.now }
    {
        self.keys.as_slice()
    }
}
