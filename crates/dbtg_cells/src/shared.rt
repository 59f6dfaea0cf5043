//! A value that several share: the items of a record in its statement, its slot and its answers.
ghost use Rattle.std.specs.Prelude.{◌≡◌, IfOk};

use crate::key::Value;
use dbtg_schema::Row;
use std::alloc::{AllocError, Global};
use std::marker::Model;
use std::sync::Arc;

/// A value in a place of its own, which contracts see as the value itself. It is written once; each of those that share it can read it,
/// on any thread.
pub struct Shared<T> {
    place: Arc<T>,
}

impl<T: Drop> Drop for Shared<T> {
    fn drop(self) {
        let Self { place: _ } = self;
    }
}

/// The values of a record's items.
pub type SharedItems = Shared<Row<Value>>;

impl<T> Model for Shared<T> {
    ghost use Rattle.std.specs.Arc.{arc_value};

    ghost Value = { T };

    ghost view = { λ s. arc_value s.place };
}

impl<T> Shared<T> {
    /// Takes memory for the value.
    pub fn new(alloc: Global, value: T) -> Result<Self, AllocError>
    where
        T: Drop,
        ensures { IfOk result (λ shared. shared ≡ value) }
    {
        let place = Arc::new(alloc, value)?;
        Ok(Self { place })
    }

    /// The same value, for one more. Takes no memory; the error means that it has as many as can be counted.
    pub fn share(&self) -> Result<Self, AllocError>
        ensures { IfOk result (λ shared. shared ≡ self.now) }
    {
        let place = Arc::try_clone(&self.place)?;
        Ok(Self { place })
    }

    pub fn get(&self) -> &T
        ensures { result.now ≡ self.now }
    {
        &*self.place
    }
}
