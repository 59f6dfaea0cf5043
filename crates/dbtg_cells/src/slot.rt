//! The record of one number.
ghost use Rattle.std.specs.Prelude.{◌≡◌, ℕ, ◌+◌, ◌^◌, ◌<◌, List, Option, Some, None, IfOk, is_some, option_map, option_and_then, slice_set, nat_lt, ◌==◌};
ghost use Rattle.std.specs.Option.{option_copied};
ghost use Rattle.dbtg_schema.specs.Lookups.{at, some_and};
ghost use Rattle.dbtg_cells.specs.Shown.{first_version};

use crate::key::Owner;
use crate::record_owners::{NewOwner, RecordOwners};
use crate::shared::SharedItems;
use dbtg_schema::SetNo;
use std::alloc::{AllocError, Global};
use std::marker::Model;

/// A stored record: its generation, its version, its items, and for each set the owner to whose list it belongs.
#[derive(Drop)]
pub struct Stored {
    pub generation: u8,
    pub version: u64,
    pub items: SharedItems,
    pub owners: RecordOwners,
}

impl Stored {
    /// The same record.
    pub fn copy(&self, alloc: Global) -> Result<Self, AllocError>
        ensures { IfOk result (λ stored. stored ≡ self.now) }
    {
        let items = self.items.share()?;
        let owners = self.owners.copy(alloc)?;
        Ok(Self {
            generation: self.generation,
            version: self.version,
            items,
            owners,
        })
    }
}

/// A record in its first version, which a slot can get without memory.
#[derive(Drop)]
pub struct NewRecord {
    stored: Box<Stored>,
}

impl Model for NewRecord {
    ghost use Rattle.dbtg_cells.specs.declared.slot.Stored.{Stored};

    ghost Value = { Stored };

    ghost view = { λ r. r.stored.value };
}

impl NewRecord {
    /// The record with these items and owners, with version 1.
    pub fn new(
        alloc: Global,
        generation: u8,
        items: SharedItems,
        owners: RecordOwners,
    ) -> Result<Self, AllocError>
        ensures { IfOk result (λ made. made ≡ first_version generation items owners) }
    {
        let stored = Stored {
            generation,
            version: 1,
            items,
            owners,
        };
        Ok(Self {
            stored: Box::new(alloc, stored)?,
        })
    }
}

/// The record of one number, or none. The record lies apart, so that a vacant slot is small.
pub struct Slot {
    stored: Option<Box<Stored>>,
}

impl Drop for Slot {
    fn drop(self) {
        let Self { stored: _ } = self;
    }
}

impl Model for Slot {
    ghost use Rattle.std.specs.Prelude.{Option, option_map};
    ghost use Rattle.dbtg_cells.specs.declared.slot.Stored.{Stored};

    ghost Value = { Option Stored };

    ghost view = { λ s. option_map (λ b. b.value) s.stored };
}

impl Slot {
    /// A slot without a record. Takes no memory.
    pub fn vacant() -> Self
        ensures { result ≡ None }
    {
        Self { stored: None }
    }

    /// The same record, or none.
    pub fn copy(&self, alloc: Global) -> Result<Self, AllocError>
        ensures { IfOk result (λ slot. slot ≡ self.now) }
    {
        let stored = match &self.stored {
            Some(stored) => Some(Box::new(alloc, stored.copy(alloc)?)?),
            None => None,
        };
        Ok(Self { stored })
    }

    /// Whether the slot has the record of this generation.
    pub fn is_live(&self, generation: u8) -> bool
        ensures { result ≡ some_and (λ r. r.generation == generation) self.now }
    {
        matches!(&self.stored, Some(it) if it.generation == generation)
    }

    /// The record.
    pub fn record(&self) -> Option<&Stored>
        ensures { option_copied result ≡ self.now }
    {
        match &self.stored {
            Some(stored) => Some(&**stored),
            None => None,
        }
    }

    /// The owner to whose list of the set the record belongs.
    pub fn owner(&self, set: SetNo) -> Option<Owner>
        ensures { result ≡ option_and_then (λ r. at r.owners set) self.now }
    {
        self.record()?.owners.get(set.index() as usize)
    }

    /// Stores a new record in place of what was there.
    pub fn fill(&mut self, stored: NewRecord)
        ensures { self.new ≡ Some stored }
    {
        self.stored = Some(stored.stored);
    }

    /// Takes the record away.
    pub fn vacate(&mut self)
        ensures { self.new ≡ None }
    {
        self.stored = None;
    }

    /// Gives the record other items. A vacant slot stays vacant.
    pub fn set_items(&mut self, items: SharedItems)
        ensures { self.new ≡ option_map (λ r. record { generation = r.generation; version = r.version; items = items; owners = r.owners }) self.old }
    {
        if let Some(record) = &mut self.stored {
            record.items = items;
        }
    }

    /// Notes to whose list of the set the record belongs. A vacant slot does not change, nor does a set without an entry.
    pub fn set_owner(&mut self, set: SetNo, owner: NewOwner)
        ensures { self.new ≡ option_map (λ r. record { generation = r.generation; version = r.version; items = r.items; owners = slice_set r.owners set owner }) self.old }
    {
        if let Some(record) = &mut self.stored {
            record.owners.set(set.index() as usize, owner);
        }
    }

    /// Whether there is a next version, so that `raise_version` may be called.
    pub fn has_next_version(&self) -> bool
        ensures { result ≡ some_and (λ r. nat_lt (r.version + 1) (2 ^ 64)) self.now }
    {
        matches!(&self.stored, Some(it) if it.version < u64::MAX)
    }

    /// Gives the record the next version. A vacant slot stays vacant.
    pub fn raise_version(&mut self)
        requires { (r : Stored) → self.old ≡ Some r → r.version + 1 < 2 ^ 64 }
        ensures { self.new ≡ option_map (λ r. record { generation = r.generation; version = r.version + 1; items = r.items; owners = r.owners }) self.old }
    {
        if let Some(record) = &mut self.stored {
            record.version += 1;
        }
    }
}
