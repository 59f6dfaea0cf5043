//! The owners of a record, by set. Most records have one owner at most, and take no memory for it.
ghost use Rattle.std.specs.Prelude.{◌≡◌, ◌≤◌, ◌<◌, [], Some, None, IfOk, IsTrue, length, slice_set, is_none, vec_capacity};
ghost use Rattle.std.specs.List.{list_all};
ghost use Rattle.dbtg_schema.specs.Lookups.{at};
ghost use Rattle.dbtg_schema.specs.declared.limits.TheConstants.{MOST_SETS};
ghost use Rattle.dbtg_cells.specs.Inside.RecordOwners.{alone, owners_in};

use crate::key::Owner;
use crate::maybe_owner::{MaybeOwner, owner_at};
use crate::owners::Owners;
use dbtg_schema::{MOST_SETS, Row};
use std::alloc::{AllocError, Global};
use std::marker::Model;
use std::mem::replace;

/// An owner or none that is to be noted of a record, with the memory that this may need.
#[derive(Drop)]
pub struct NewOwner {
    joined: Option<(Owner, Vec<MaybeOwner>)>,
}

impl Model for NewOwner {
    ghost use Rattle.std.specs.Prelude.{◌≡◌, ◌≤◌, [], Option, option_map, IfSome, vec_capacity};
    ghost use Rattle.dbtg_schema.specs.declared.limits.TheConstants.{MOST_SETS};
    ghost use Rattle.dbtg_cells.specs.declared.key.Owner.{Owner};

    ghost Value = { Option Owner };

    ghost view = { λ n. option_map (λ j. j.0) n.joined };

    ghost invariant = { λ n. IfSome n.joined (λ j. (j.1.items ≡ []) × (MOST_SETS ≤ vec_capacity j.1)) };
}

impl NewOwner {
    /// No owner. Takes no memory.
    pub fn none() -> Self
        ensures { result ≡ None }
    {
        Self { joined: None }
    }

    /// This owner.
    pub fn of(alloc: Global, owner: Owner) -> Result<Self, AllocError>
        ensures { IfOk result (λ new. new ≡ Some owner) }
    {
        let room = Vec::with_capacity(alloc, MOST_SETS)?;
        Ok(Self {
            joined: Some((owner, room)),
        })
    }

    fn owner(&self) -> MaybeOwner
        ensures { result ≡ self.now }
    {
        match &self.joined {
            None => MaybeOwner::of(None),
            Some((owner, _)) => MaybeOwner::of(Some(*owner)),
        }
    }
}

// An owner or none for each set: at most one owner, noted with its set and with the number of sets, or a row of them.
#[derive(Drop)]
enum Joined {
    Alone {
        sets: usize,
        set: usize,
        owner: MaybeOwner,
    },
    Each(Row<MaybeOwner>),
}

/// For each set of a schema, at most MOST_SETS, the owner to whose list a record belongs, or none; contracts see the list.
pub struct RecordOwners {
    joined: Joined,
}

impl Drop for RecordOwners {
    fn drop(self) {
        let Self { joined: _ } = self;
    }
}

impl Model for RecordOwners {
    ghost use Rattle.std.specs.Prelude.{◌≤◌, List, Option, length};
    ghost use Rattle.dbtg_schema.specs.declared.limits.TheConstants.{MOST_SETS};
    ghost use Rattle.dbtg_cells.specs.declared.key.Owner.{Owner};
    ghost use Rattle.dbtg_cells.specs.Inside.RecordOwners.{owners_in};

    ghost Value = { List (Option Owner) };

    ghost view = { λ o. owners_in o.joined };

    ghost invariant = { λ o. length (owners_in o.joined) ≤ MOST_SETS };
}

fn are_none(owners: &[MaybeOwner]) -> bool
    ensures { result ≡ list_all is_none owners.now }
{
    for owner in owners {
        if owner.get().is_some() {
            return false;
        }
    }
    true
}

// The place of the first owner, or their number if there is none.
fn first_joined(owners: &[MaybeOwner]) -> usize
    ensures { result ≤ length owners.now }
{
    for set in 0..owners.len() {
        if owners[set].get().is_some() {
            return set;
        }
    }
    owners.len()
}

// Is there no owner but in this set?
fn is_alone(owners: &[MaybeOwner], set: usize) -> bool
    requires { set ≤ length owners.now }
    ensures { IsTrue result → owners.now ≡ alone (length owners.now) set (at owners.now set) }
{
    let (before, rest) = owners.split_at(set);
    match rest.split_first() {
        None => are_none(before),
        Some((_, behind)) => are_none(before) && are_none(behind),
    }
}

fn joined_of(alloc: Global, owners: &[MaybeOwner]) -> Result<Joined, AllocError>
    ensures { IfOk result (λ joined. owners_in joined ≡ owners.now) }
{
    let set = first_joined(owners);
    if is_alone(owners, set) {
        return Ok(Joined::Alone {
            sets: owners.len(),
            set,
            owner: MaybeOwner::of(owner_at(owners, set)),
        });
    }
    Ok(Joined::Each(Row::of(Vec::from_slice(alloc, owners)?)))
}

fn with_entry(row: Row<MaybeOwner>, set: usize, owner: MaybeOwner) -> Row<MaybeOwner>
    ensures { result ≡ slice_set row set owner }
{
    let mut row = row;
    if set < row.len() {
        row.set(set, owner);
    }
    row
}

// The row of an owner that was alone.
fn row_of_alone(
    room: Vec<MaybeOwner>,
    sets: usize,
    set: usize,
    owner: MaybeOwner,
) -> Row<MaybeOwner>
    requires empty { room.items ≡ [] }
    requires room { sets ≤ vec_capacity room }
    ensures { result ≡ alone sets set owner }
{
    let mut row = room;
    for _set in 0..sets {
        row.push_reserved(MaybeOwner::of(None));
    }
    with_entry(Row::of(row), set, owner)
}

// Two owners, each in its set.
fn joined_by_another(
    sets: usize,
    set: usize,
    owner: MaybeOwner,
    other: usize,
    new: NewOwner,
) -> Joined
    requires sets { sets ≤ MOST_SETS }
    requires another { (other ≡ set) → ⊥ }
    ensures { owners_in result ≡ slice_set (alone sets set owner) other new }
{
    match new.joined {
        None => Joined::Alone { sets, set, owner },
        Some((new, room)) => {
            let row = row_of_alone(room, sets, set, owner);
            Joined::Each(with_entry(row, other, MaybeOwner::of(Some(new))))
        }
    }
}

// The same with another owner in a set.
fn rejoined(joined: Joined, set: usize, new: NewOwner) -> Joined
    requires { length (owners_in joined) ≤ MOST_SETS }
    ensures { owners_in result ≡ slice_set (owners_in joined) set new }
{
    match joined {
        Joined::Each(row) => Joined::Each(with_entry(row, set, new.owner())),
        Joined::Alone {
            sets,
            set: own,
            owner,
        } => {
            if own == set || owner.get().is_none() {
                let owner = new.owner();
                return Joined::Alone { sets, set, owner };
            }
            joined_by_another(sets, own, owner, set, new)
        }
    }
}

fn copy_joined(alloc: Global, joined: &Joined) -> Result<Joined, AllocError>
    ensures { IfOk result (λ copy. copy ≡ joined.now) }
{
    match joined {
        Joined::Each(row) => Ok(Joined::Each(row.copy(alloc)?)),
        Joined::Alone { sets, set, owner } => {
            Ok(Joined::Alone {
                sets: *sets,
                set: *set,
                owner: *owner,
            })
        }
    }
}

impl RecordOwners {
    /// These owners.
    pub fn of(alloc: Global, owners: &Owners) -> Result<Self, AllocError>
        ensures { IfOk result (λ made. made ≡ owners.now) }
    {
        let joined = joined_of(alloc, owners.as_slice())?;
        Ok(Self { joined })
    }

    /// The same owners.
    pub fn copy(&self, alloc: Global) -> Result<Self, AllocError>
        ensures { IfOk result (λ owners. owners ≡ self.now) }
    {
        let joined = copy_joined(alloc, &self.joined)?;
        Ok(Self { joined })
    }

    /// The owner in a set; none past the last set.
    pub fn get(&self, set: usize) -> Option<Owner>
        ensures { result ≡ at self.now set }
    {
        match &self.joined {
            Joined::Each(row) => owner_at(row.as_slice(), set),
            Joined::Alone {
                sets,
                set: own,
                owner,
            } => {
                if set == *own && set < *sets {
                    owner.get()
                } else {
                    None
                }
            }
        }
    }

    /// All owners by set, in one place.
    pub fn all(&self) -> Owners
        ensures value { result ≡ self.now }
        ensures most { length self.now ≤ MOST_SETS }
    {
        match &self.joined {
            Joined::Each(row) => Owners::of(row.as_slice()),
            Joined::Alone { sets, set, owner } => {
                let mut owners = Owners::none(*sets);
                owners.set(*set, owner.get());
                owners
            }
        }
    }

    /// Notes the owner in a set; nothing changes if there is no such set.
    pub fn set(&mut self, set: usize, owner: NewOwner)
        ensures { self.new ≡ slice_set self.old set owner }
    {
        let none = Joined::Alone {
            sets: 0,
            set: 0,
            owner: MaybeOwner::of(None),
        };
        let joined = replace(&mut self.joined, none);
        self.joined = rejoined(joined, set, owner);
    }
}
