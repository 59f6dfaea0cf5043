//! What a run-unit sees by a FIND or STORE of a record. It takes no memory, and is told the record's owners.
ghost use Rattle.std.specs.Prelude.{◌≡◌, ◌<◌, length, map, slice_set, if◌then◌else◌, Some};
ghost use Rattle.std.specs.List.{enumerate_from};
ghost use Rattle.dbtg_schema.specs.Lookups.{at};
ghost use Rattle.dbtg_schema.specs.Structure.{area_of};
ghost use Rattle.dbtg_unit.specs.Inside.Seen.{seen_as_owner, seen_in_list, seen_in_each_set};
ghost use Rattle.dbtg_unit.specs.Database.State.Units.{seen_with, suppresses};

use crate::entries::set_entry;
use crate::statement::Suppress;
use crate::unit::{Place, Unit};
use dbtg_cells::{DbKey, MaybeOwner, Owner, owner_at};
use dbtg_schema::{MOST_SETS, Row, Schema};

impl Suppress {
    /// Does the statement leave the current of this set as it was?
    pub fn has_set(&self, set: usize) -> bool
        ensures { result ≡ suppresses self.now set }
    {
        let sets = self.sets;
        set < MOST_SETS && (sets >> set) & 1 == 1
    }
}

// The current of a set in whose list the record is.
fn see_list(
    sets: &mut Row<Option<Place>>,
    key: &DbKey,
    owners: &[MaybeOwner],
    suppress: &Suppress,
    set: usize,
)
    requires { set < length sets.old }
    ensures { sets.new ≡ slice_set sets.old set (seen_in_list key.now owners.now suppress.now (set, at sets.old set)) }
{
    if let Some(owner) = owner_at(owners, set) {
        if suppress.has_set(set) {
            return;
        }
        let place = Place {
            owner,
            at: Some(*key),
        };
        sets.set(set, Some(place));
    }
}

fn see_each_list(
    sets: &mut Row<Option<Place>>,
    key: &DbKey,
    owners: &[MaybeOwner],
    suppress: &Suppress,
)
    ensures { sets.new ≡ map (seen_in_list key.now owners.now suppress.now) (enumerate_from 0 sets.old) }
{
    for set in 0..sets.len() {
        see_list(sets, key, owners, suppress, set);
    }
}

// The currents of the sets that the record's type owns.
fn see_owned(sets: &mut Row<Option<Place>>, schema: &Schema, key: &DbKey, suppress: &Suppress)
    ensures { sets.new ≡ map (seen_as_owner schema.now key.now suppress.now) (enumerate_from 0 sets.old) }
{
    for set in schema.owned_sets(key.rtype) {
        let set = set.index() as usize;
        if !suppress.has_set(set) {
            let place = Place {
                owner: Owner::Rec(*key),
                at: None,
            };
            set_entry(sets, set, Some(place));
        }
    }
}

fn see_sets(
    sets: &mut Row<Option<Place>>,
    schema: &Schema,
    key: &DbKey,
    owners: &[MaybeOwner],
    suppress: &Suppress,
)
    ensures { sets.new ≡ seen_in_each_set schema.now key.now owners.now suppress.now sets.old }
{
    see_each_list(sets, key, owners, suppress);
    see_owned(sets, schema, key, suppress);
}

impl Unit {
    /// Makes a record that was found or stored current: of the run-unit, of its record type, of its area, and of each
    /// set that its type owns or in which it has an owner, except for what is suppressed.
    pub fn see(&mut self, schema: &Schema, key: DbKey, owners: &[MaybeOwner], suppress: &Suppress)
        ensures { self.new ≡ seen_with schema.now self.old key owners.now suppress.now }
    {
        self.currency.run_unit = Some(key);
        if !suppress.types {
            set_entry(
                &mut self.currency.types,
                key.rtype.index() as usize,
                Some(key),
            );
        }
        if !suppress.areas {
            let area = schema.area_of(key.rtype);
            set_entry(&mut self.currency.areas, area.index() as usize, Some(key));
        }
        see_sets(&mut self.currency.sets, schema, &key, owners, suppress);
    }
}
