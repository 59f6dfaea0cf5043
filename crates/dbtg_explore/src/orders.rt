//! Orders of turns as links of eight bytes: each goes on from an earlier order by one turn.

ghost use Rattle.dbtg_explore.specs.Inside.Links.{IsLast};
ghost use Rattle.std.specs.Prelude.{◌≡◌, ◌<◌, ◌++◌, ◌∷◌, [], None, length, slice_index_or, IfOk, IfSome, OnOk};

use std::alloc::{AllocError, Global};
use std::marker::Model;

/// One turn after the order at an earlier place.
#[derive(Clone, Copy)]
pub struct Link {
    pub before: u32,
    pub unit: u8,
}

impl Link {
    /// A place that needs more than 32 bits is refused as memory is: its states would take more of it than there is.
    pub fn new(before: usize, unit: u8) -> Result<Self, AllocError>
        ensures { IfOk result (λ link. link ≡ record { before = before; unit = unit }) }
    {
        match u32::try_from(before) {
            Ok(before) => Ok(Self { before, unit }),
            Err(_) => Err(AllocError),
        }
    }
}

/// Orders, the empty one first. Each other goes on from one before it.
pub struct Orders {
    links: Vec<Link>,
}

impl Drop for Orders {
    fn drop(self) {
        let Self { links: _ } = self;
    }
}

impl Model for Orders {
    ghost use Rattle.std.specs.Prelude.{List, ℕ};

    ghost Value = { List (List ℕ) };

    ghost use Rattle.dbtg_explore.specs.Inside.Links.{AreLinked, orders_of};

    ghost view = { λ o. orders_of o.links.items };

    ghost invariant = { λ o. AreLinked 1 o.links.items };
}

impl Orders {
    /// The empty order alone.
    pub fn first(alloc: Global) -> Self
        ensures { result ≡ [] ∷ [] }
    {
        Self {
            links: Vec::new(alloc),
        }
    }

    /// How many there are.
    pub fn len(&self) -> usize
        ensures { result ≡ length self.now }
    {
        self.links.len() + 1
    }

    /// Appends the order at a place with one turn more.
    pub fn push(&mut self, before: usize, unit: u8) -> Result<(), AllocError>
        requires { before < length self.old }
        ensures { OnOk result (self.new ≡ self.old ++ (slice_index_or self.old before [] ++ unit ∷ []) ∷ []) }
    {
        self.links.push(Link::new(before, unit)?)?;
        Ok(())
    }

    /// The last turn of the order at this place, from 0; none of the first, which is empty.
    pub fn last(&self, place: usize) -> Option<Link>
        requires { place < length self.now }
        ensures last { IfSome result (IsLast self.now place) }
        ensures none { result ≡ None → slice_index_or self.now place [] ≡ [] }
    {
        let links = &self.links;
        if place == 0 {
            return None;
        }
        Some(links[place - 1])
    }

    /// The order at this place, from 0.
    pub fn order(&self, alloc: Global, place: usize) -> Result<Vec<u8>, AllocError>
        requires { place < length self.now }
        ensures { IfOk result (λ order. order.items ≡ slice_index_or self.now place []) }
    {
        let mut turns = Vec::new(alloc);
        let mut at = place;
        while let Some(link) = self.last(at) {
            turns.push(link.unit)?;
            at = link.before as usize;
        }
        turns.reverse();
        Ok(turns)
    }
}
