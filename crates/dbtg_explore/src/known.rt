//! States that were found, each by the first order that leads there.

ghost use Rattle.dbtg_explore.specs.Inside.Found.{IsEntered};
ghost use Rattle.dbtg_explore.specs.Inside.Links.{IsLast};
ghost use Rattle.std.specs.Prelude.{◌≡◌, ◌<◌, ◌++◌, ◌∷◌, [], None, Some, length, slice_get, slice_index_or, IfOk, IfSome, OnOk};

use crate::orders::{Link, Orders};
use indexmap::IndexSet;
use std::alloc::{AllocError, Global};
use std::marker::Model;

/// States, as they were found: the number of each, which none before it has, and the order that leads there.
pub struct Known {
    keys: IndexSet<u32>,
    orders: Orders,
}

impl Drop for Known {
    fn drop(self) {
        let Self { keys: _, orders: _ } = self;
    }
}

impl Model for Known {
    ghost use Rattle.std.specs.Prelude.{ℕ};
    ghost use Rattle.dbtg_explore.specs.Inside.Found.{FoundOrders};

    ghost Value = { FoundOrders ℕ };

    ghost view = { λ s. record { keys = s.keys.keys; orders = s.orders } };
}

impl Known {
    /// The state in which the programs meet, to which the empty order leads.
    pub fn first(alloc: Global, number: u32) -> Result<Self, AllocError>
        ensures { IfOk result (λ known. known ≡ record { keys = number ∷ []; orders = [] ∷ [] }) }
    {
        let mut keys = IndexSet::new(alloc);
        keys.insert(number)?;
        Ok(Self {
            keys,
            orders: Orders::first(alloc),
        })
    }

    /// How many there are.
    pub fn len(&self) -> usize
        ensures { result ≡ length self.now.orders }
    {
        self.orders.len()
    }

    /// The number of the state at this place, from 0.
    pub fn number(&self, place: usize) -> u32
        requires { place < length self.now.keys }
        ensures { result ≡ slice_index_or self.now.keys place 0 }
    {
        self.keys.as_slice()[place]
    }

    /// The order to the state at this place, from 0.
    pub fn order(&self, alloc: Global, place: usize) -> Result<Vec<u8>, AllocError>
        requires { place < length self.now.orders }
        ensures { IfOk result (λ order. order.items ≡ slice_index_or self.now.orders place []) }
    {
        self.orders.order(alloc, place)
    }

    /// The last turn of the order to the state at this place, from 0; none of the first, which is empty.
    pub fn last(&self, place: usize) -> Option<Link>
        requires { place < length self.now.orders }
        ensures last { IfSome result (IsLast self.now.orders place) }
        ensures none { result ≡ None → slice_index_or self.now.orders place [] ≡ [] }
    {
        self.orders.last(place)
    }

    /// Appends the state to which one turn more leads, if its number is new. Gives the number's place.
    pub fn enter(&mut self, number: u32, before: usize, unit: u8) -> Result<usize, AllocError>
        requires { before < length self.old.orders }
        ensures entered { OnOk result (IsEntered self.old number (slice_index_or self.old.orders before [] ++ unit ∷ []) self.new) }
        ensures place { IfOk result (λ place. slice_get self.new.keys place ≡ Some number) }
    {
        let (place, is_new) = self.keys.insert_full(number)?;
        if is_new {
            self.orders.push(before, unit)?;
        }
        Ok(place)
    }
}
