//! An owner or none, in eight bytes: a record has one for each set of its schema.
ghost use Rattle.std.specs.Prelude.{◌≡◌};
ghost use Rattle.dbtg_schema.specs.Lookups.{at};

use crate::key::{DbKey, Owner};
use dbtg_schema::RecordNo;
use std::marker::Model;

#[derive(Clone, Copy)]
enum Kind {
    None,
    System,
    Rec,
}

/// An owner or none, which is what contracts see; it takes half of the memory of an `Option<Owner>`.
#[derive(Clone, Copy)]
pub struct MaybeOwner {
    number: u32,
    rtype: RecordNo,
    generation: u8,
    kind: Kind,
}

impl Model for MaybeOwner {
    ghost use Rattle.std.specs.Prelude.{Option};
    ghost use Rattle.dbtg_cells.specs.declared.key.Owner.{Owner};
    ghost use Rattle.dbtg_cells.specs.Inside.MaybeOwners.{owner_of, key_in, kind_of, IsPlain};

    ghost Value = { Option Owner };

    ghost view = { λ m. owner_of m.kind (record { number = m.number; rtype = m.rtype; generation = m.generation }) };

    ghost invariant = { λ m. IsPlain m.kind (record { number = m.number; rtype = m.rtype; generation = m.generation }) };

    ghost inverse = { λ o. record { number = (key_in o).number; rtype = (key_in o).rtype; generation = (key_in o).generation; kind = kind_of o } };

    ghost inverse_ok = { λ m plain. λ i. record { number = (plain.same_key i).number; rtype = (plain.same_key i).rtype; generation = (plain.same_key i).generation; kind = plain.same_kind i } };
}

impl MaybeOwner {
    pub fn of(owner: Option<Owner>) -> Self
        ensures { result ≡ owner }
    {
        let no_key = DbKey {
            number: 0,
            rtype: RecordNo::new(0),
            generation: 0,
        };
        let (kind, key) = match owner {
            None => (Kind::None, no_key),
            Some(Owner::System) => (Kind::System, no_key),
            Some(Owner::Rec(key)) => (Kind::Rec, key),
        };
        Self {
            number: key.number,
            rtype: key.rtype,
            generation: key.generation,
            kind,
        }
    }

    pub fn get(self) -> Option<Owner>
        ensures { result ≡ self }
    {
        match self.kind {
            Kind::None => None,
            Kind::System => Some(Owner::System),
            Kind::Rec => Some(Owner::Rec(DbKey {
                number: self.number,
                rtype: self.rtype,
                generation: self.generation,
            })),
        }
    }
}

/// The owner in a set, in a list by set; none past its end.
pub fn owner_at(owners: &[MaybeOwner], set: usize) -> Option<Owner>
    ensures { result ≡ at owners.now set }
{
    match owners.get(set) {
        Some(owner) => owner.get(),
        None => None,
    }
}
