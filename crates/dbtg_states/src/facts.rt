//! What a run leaves behind as facts, in which records are named by their STOREs.
ghost use Rattle.std.specs.Prelude.{◌≡◌, ◌++◌, ◌∷◌, [], IfOk, OnOk, flat_map, map};
ghost use Rattle.std.specs.List.{range_with_len};
ghost use Rattle.dbtg_states.specs.Named.{fact, image_facts, list_facts, named, unit_facts, usage_fact};

use crate::names::{Named, stored};
use crate::users::usage_by_unit;
use dbtg_cells::{DbKey, Owner};
use dbtg_schema::Row;
use dbtg_step::Run;
use dbtg_unit::{Image, Unit};
use std::alloc::{AllocError, Global};

// The kind of a fact, and its unit or set.
#[derive(Clone, Copy)]
struct Head {
    kind: u64,
    of: u64,
}

fn begin_fact(alloc: Global, head: Head) -> Result<Vec<u64>, AllocError>
    ensures { IfOk result (λ numbers. numbers.items ≡ head.kind ∷ head.of ∷ []) }
{
    let mut numbers = Vec::new(alloc);
    numbers.push(head.kind)?;
    numbers.push(head.of)?;
    Ok(numbers)
}

// A fact of one thing.
fn push_fact<T: Named>(
    alloc: Global,
    facts: &mut Row<Row<u64>>,
    stored: &[DbKey],
    head: Head,
    thing: &T,
) -> Result<(), AllocError>
    ensures { OnOk result (facts.new ≡ facts.old ++ fact head.kind head.of (T.named stored.now thing.now) ∷ []) }
{
    let mut numbers = begin_fact(alloc, head)?;
    thing.name(stored, &mut numbers)?;
    facts.push(Row::of(numbers))?;
    Ok(())
}

// A fact of each of these things.
fn push_each<T: Named>(
    alloc: Global,
    facts: &mut Row<Row<u64>>,
    stored: &[DbKey],
    head: Head,
    things: &[T],
) -> Result<(), AllocError>
    ensures { OnOk result (facts.new ≡ facts.old ++ map (λ x. fact head.kind head.of (T.named stored.now x)) things.now) }
{
    for thing in things {
        push_fact(alloc, facts, stored, head, thing)?;
    }
    Ok(())
}

// The currents of a unit, and each record that it keeps.
fn push_unit(
    alloc: Global,
    facts: &mut Row<Row<u64>>,
    stored: &[DbKey],
    unit: &Unit,
) -> Result<(), AllocError>
    ensures { OnOk result (facts.new ≡ facts.old ++ unit_facts stored.now unit.now) }
{
    let of = unit.number as u64;
    push_fact(alloc, facts, stored, Head { kind: 1, of }, &unit.currency)?;
    push_each(
        alloc,
        facts,
        stored,
        Head { kind: 2, of },
        unit.kept.as_slice(),
    )
}

fn push_each_unit(
    alloc: Global,
    facts: &mut Row<Row<u64>>,
    stored: &[DbKey],
    units: &[Unit],
) -> Result<(), AllocError>
    ensures { OnOk result (facts.new ≡ facts.old ++ flat_map (unit_facts stored.now) units.now) }
{
    for unit in units {
        push_unit(alloc, facts, stored, unit)?;
    }
    Ok(())
}

// The lists of all sets.
fn push_lists(
    alloc: Global,
    facts: &mut Row<Row<u64>>,
    stored: &[DbKey],
    lists: &[Row<(Owner, Row<DbKey>)>],
) -> Result<(), AllocError>
    ensures { OnOk result (facts.new ≡ facts.old ++ list_facts stored.now 0 lists.now) }
{
    let mut set = 0;
    for of_set in lists {
        let head = Head { kind: 3, of: set };
        push_each(alloc, facts, stored, head, of_set.as_slice())?;
        set += 1;
    }
    Ok(())
}

// Who has which area open, in the order of the units.
fn push_usage(
    alloc: Global,
    facts: &mut Row<Row<u64>>,
    image: &Image,
    units: u8,
) -> Result<(), AllocError>
    ensures { OnOk result (facts.new ≡ facts.old ++ usage_fact (range_with_len 1 units) image.now.usage ∷ []) }
{
    let usage = usage_by_unit(alloc, image.usage.as_slice(), units)?;
    push_fact(alloc, facts, &[], Head { kind: 4, of: 0 }, &usage)
}

// The records, and the lists of all sets.
fn push_image(
    alloc: Global,
    facts: &mut Row<Row<u64>>,
    stored: &[DbKey],
    image: &Image,
) -> Result<(), AllocError>
    ensures { OnOk result (facts.new ≡ facts.old ++ image_facts stored.now image.now) }
{
    push_each(
        alloc,
        facts,
        stored,
        Head { kind: 5, of: 0 },
        image.records.as_slice(),
    )?;
    push_lists(alloc, facts, stored, image.lists.as_slice())
}

/// What these units leave behind in a run.
pub fn named(alloc: Global, units: u8, run: &Run) -> Result<Row<Row<u64>>, AllocError>
    ensures { IfOk result (λ facts. facts ≡ named (range_with_len 1 units) run.now) }
{
    let history = run.history.as_slice();
    let keys = stored(alloc, history, units)?;
    let stored = keys.as_slice();
    let mut facts = Row::of(Vec::new(alloc));
    push_each_unit(alloc, &mut facts, stored, run.units.as_slice())?;
    push_usage(alloc, &mut facts, &run.image, units)?;
    push_image(alloc, &mut facts, stored, &run.image)?;
    Ok(facts)
}
