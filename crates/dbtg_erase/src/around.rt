//! The cells around the records that go: the extents of their types, and the rings of their owners, in the order of cells.
ghost use Rattle.std.specs.Prelude.{◌≡◌, ◌++◌, IfOk, OnOk};
ghost use Rattle.std.specs.List.{flat_map};
ghost use Rattle.std.specs.Ordering.{is_lt};
ghost use Rattle.dbtg_schema.specs.Structure.{set_numbers};
ghost use Rattle.dbtg_cells.specs.Names.{name_below};
ghost use Rattle.dbtg_unit.specs.Hands.InHand.{owner_in};
ghost use Rattle.dbtg_unit.specs.Hands.Needs.{ring_names};
ghost use Rattle.dbtg_erase.specs.Course.{AreAround};
ghost use Rattle.dbtg_erase.specs.NextCell.{outer_names};

use crate::names::{Names, add};
use dbtg_cells::{CellName, DbKey, Owner, name_below};
use dbtg_schema::{Schema, SetNo};
use dbtg_unit::{Held, owner_in, ring_name, set_count};
use std::alloc::{AllocError, Global};
use std::cmp::Ordering;

// Adds the ring of an owner, if there is one.
fn push_ring(set: SetNo, owner: Option<Owner>, names: &mut Vec<CellName>) -> Result<(), AllocError>
    ensures { OnOk result (names.new.items ≡ names.old.items ++ ring_names set owner) }
{
    if let Some(owner) = owner {
        add(names, &ring_name(set, &owner))?;
    }
    Ok(())
}

// Adds the rings of a record's owners, set by set.
#[tactic(auto, using(dbtg_schema::proofs::Public::numbers_next, dbtg_schema::proofs::Public::numbers_end, crate::proofs::FirstNames::names_append))]
fn push_each_ring(
    schema: &Schema,
    held: &Held,
    key: &DbKey,
    names: &mut Vec<CellName>,
) -> Result<(), AllocError>
    ensures { OnOk result (names.new.items ≡ names.old.items ++ flat_map (λ s. ring_names s (owner_in held.now s key.now)) (set_numbers schema.now)) }
{
    for s in 0..set_count(schema) {
        let set = SetNo::new(s);
        push_ring(set, owner_in(held, set, key), names)?;
    }
    Ok(())
}

// Adds the cells around a record.
#[tactic(auto, using(crate::proofs::FirstNames::names_append))]
fn push_outer(
    schema: &Schema,
    held: &Held,
    key: &DbKey,
    names: &mut Vec<CellName>,
) -> Result<(), AllocError>
    ensures { OnOk result (names.new.items ≡ names.old.items ++ outer_names schema.now held.now key.now) }
{
    add(names, &CellName::Extent(key.rtype))?;
    push_each_ring(schema, held, key, names)
}

// The cells around some records, one record after another.
#[tactic(auto, using(crate::proofs::FirstNames::names_append))]
fn outer_of_all(
    alloc: Global,
    schema: &Schema,
    held: &Held,
    gone: &[DbKey],
) -> Result<Vec<CellName>, AllocError>
    ensures { IfOk result (λ names. names.items ≡ flat_map (outer_names schema.now held.now) gone.now) }
{
    let mut names = Vec::new(alloc);
    for key in gone {
        push_outer(schema, held, key, &mut names)?;
    }
    Ok(names)
}

// How two names compare in the order of cells.
fn order_of(name: &CellName, other: &CellName) -> Ordering
    ensures { is_lt result ≡ name_below name.now other.now }
{
    if name_below(*name, *other) {
        Ordering::Less
    } else if name_below(*other, *name) {
        Ordering::Greater
    } else {
        Ordering::Equal
    }
}

/// The cells around the records that go, in the order of cells; none is passed yet.
pub(crate) fn around(
    alloc: Global,
    schema: &Schema,
    held: &Held,
    gone: &[DbKey],
) -> Result<Names, AllocError>
    ensures { IfOk result (λ names. AreAround schema.now held.now gone.now names) }
{
    let mut names = outer_of_all(alloc, schema, held, gone)?;
    names.sort_unstable_by(|name, other| order_of(name, other));
    Ok(Names::new(names))
}
