//! An owner or none for each set of a schema, stored inline. Nothing here takes memory.
ghost use Rattle.std.specs.Prelude.{◌≡◌, ◌≤◌, ◌<◌, slice_set, length, replicate, take, None};
ghost use Rattle.dbtg_schema.specs.declared.limits.TheConstants.{MOST_SETS};

use crate::key::Owner;
use crate::maybe_owner::MaybeOwner;
use dbtg_schema::MOST_SETS;
use std::marker::Model;

/// For each set of a schema, at most MOST_SETS, an owner or none; contracts see the list.
pub struct Owners {
    entries: [MaybeOwner; MOST_SETS],
    len: usize,
}

impl Drop for Owners {
    fn drop(self) {
        let Self { entries: _, len: _ } = self;
    }
}

impl Model for Owners {
    ghost use Rattle.std.specs.Prelude.{List, Option, take, ◌≤◌};
    ghost use Rattle.dbtg_cells.specs.declared.key.Owner.{Owner};
    ghost use Rattle.dbtg_schema.specs.declared.limits.TheConstants.{MOST_SETS};

    ghost Value = { List (Option Owner) };

    ghost view = { λ o. take o.len o.entries };

    ghost invariant = { λ o. o.len ≤ MOST_SETS };
}

fn set_entry(entries: &mut [MaybeOwner; MOST_SETS], set: usize, owner: MaybeOwner)
    requires { set < MOST_SETS }
    ensures { entries.new ≡ slice_set entries.old set owner }
{
    entries[set] = owner;
}

impl Owners {
    /// No owner in any of this many sets.
    pub fn none(sets: usize) -> Self
        requires { sets ≤ MOST_SETS }
        ensures { result ≡ replicate sets None }
    {
        Self {
            entries: [MaybeOwner::of(None); MOST_SETS],
            len: sets,
        }
    }

    /// These owners; if there are more than MOST_SETS, the first of them.
    pub fn of(owners: &[MaybeOwner]) -> Self
        ensures { result ≡ take MOST_SETS owners.now }
    {
        let len = owners.len().min(MOST_SETS);
        let mut entries = [MaybeOwner::of(None); MOST_SETS];
        entries[..len].copy_from_slice(&owners[..len]);
        Self { entries, len }
    }

    pub fn as_slice(&self) -> &[MaybeOwner]
        ensures value { result.now ≡ self.now }
        ensures most { length result.now ≤ MOST_SETS }
    {
        &self.entries[..self.len]
    }

    /// Notes the owner in a set; nothing changes if the set has no entry.
    pub fn set(&mut self, set: usize, owner: Option<Owner>)
        ensures { self.new ≡ slice_set self.old set owner }
    {
        if set < self.len {
            set_entry(&mut self.entries, set, MaybeOwner::of(owner));
        }
    }
}
