//! Where a run-unit is in a set, which record that is, and at which place a record joins the set.
ghost use Rattle.std.specs.Prelude.{◌≡◌, option_and_then};
ghost use Rattle.dbtg_unit.specs.Database.State.Units.{key_of_owner, key_of_place, place_in};
ghost use Rattle.dbtg_unit.specs.Database.Statements.Conditions.{joined_place, refuses_equal};

use crate::entries::entry_at;
use crate::unit::{Place, Unit};
use dbtg_cells::{DbKey, Owner};
use dbtg_schema::{Duplicates, Order, Schema, SetNo};

fn key_of_owner(owner: Owner) -> Option<DbKey>
    ensures { result ≡ key_of_owner owner }
{
    match owner {
        Owner::System => None,
        Owner::Rec(key) => Some(key),
    }
}

impl Place {
    /// The record at the place: the member, or the owner at the owner itself; none at SYSTEM.
    pub fn key(self) -> Option<DbKey>
        ensures { result ≡ key_of_place self }
    {
        match self.at {
            Some(key) => Some(key),
            None => key_of_owner(self.owner),
        }
    }
}

impl Unit {
    /// The current of a set. A SYSTEM set without one is at SYSTEM.
    pub fn place_in(&self, schema: &Schema, set: SetNo) -> Option<Place>
        ensures { result ≡ place_in schema.now self.now set }
    {
        match entry_at(self.currency.sets.as_slice(), set.index() as usize) {
            Some(place) => Some(place),
            None => {
                if schema.is_system(set) {
                    Some(Place {
                        owner: Owner::System,
                        at: None,
                    })
                } else {
                    None
                }
            }
        }
    }

    /// The place at which a record joins a set: the current of the set; SYSTEM if there is none.
    pub fn joined_place(&self, schema: &Schema, set: SetNo) -> Place
        ensures { result ≡ joined_place schema.now self.now set }
    {
        match self.place_in(schema, set) {
            Some(place) => place,
            None => {
                Place {
                    owner: Owner::System,
                    at: None,
                }
            }
        }
    }

    /// The record at which the unit is in a set.
    pub fn key_in(&self, schema: &Schema, set: SetNo) -> Option<DbKey>
        ensures { result ≡ option_and_then key_of_place (place_in schema.now self.now set) }
    {
        match self.place_in(schema, set) {
            Some(place) => place.key(),
            None => None,
        }
    }
}

/// Are sort keys unique in a set of this order?
pub fn refuses_equal(order: Order) -> bool
    ensures { result ≡ refuses_equal order }
{
    match order {
        Order::Sorted {
            ascending: _,
            duplicates: Duplicates::NotAllowed,
        } => true,
        _ => false,
    }
}
