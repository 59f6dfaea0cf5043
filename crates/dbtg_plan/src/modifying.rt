//! MODIFY: what it needs next, and what it does once it needs nothing more.
ghost use Rattle.std.specs.Prelude.{◌≡◌, ◌&&◌, ◌∷◌, ◌++◌, ℕ, [], Some, None, map, option_and_then, slice_set, IfOk, OnErr, OnOk, if◌then◌else◌};
ghost use Rattle.std.specs.List.{flat_map, list_any};
ghost use Rattle.dbtg_schema.specs.Lookups.{at, first_cause};
ghost use Rattle.dbtg_schema.specs.Structure.{rekeyed_sets, set_numbers};
ghost use Rattle.dbtg_unit.specs.declared.statement.Statement.TheVariants.{Modify};
ghost use Rattle.dbtg_unit.specs.Database.State.Base.{Database, key_item};
ghost use Rattle.dbtg_unit.specs.Database.Statements.Checks.{modify_checks, refused_at_once};
ghost use Rattle.dbtg_unit.specs.Database.Statements.Conditions.{calc_taken, changed_items, names_calc, refuses_equal};
ghost use Rattle.dbtg_unit.specs.Hands.PlanOf.{calc_edits, modify_edits, modifying, replacing_edits};
ghost use Rattle.dbtg_unit.specs.Inside.PlanOf.{plan_of};
ghost use Rattle.dbtg_unit.specs.Hands.InHand.{in_hand, items_in};
ghost use Rattle.dbtg_unit.specs.Hands.Local.{Agrees};
ghost use Rattle.dbtg_unit.specs.Hands.Locality.{IsMadeOnEach, made_by, seen};
ghost use Rattle.dbtg_unit.specs.Hands.Making.{CanMake, HaveNextVersions, MayPrepare};
ghost use Rattle.dbtg_unit.specs.Hands.Needs.{cells_of, first_missing, ring_names};
ghost use Rattle.dbtg_unit.specs.Database.State.Units.{place_in};
ghost use Rattle.dbtg_plan.specs.Inside.Modifying.{is_refused, is_rekeyed};

use crate::calc::{calc_taken, copy_calc};
use crate::members::{change_slot, copy_sort_key, push_slot};
use crate::missing::{missing, missing_ring, missing_slot};
use crate::unit_alone;
use crate::unit_alone::done_answer;
use dbtg_cells::{CellName, DbKey, Owner, Shared, SharedItems, Value, copy_items};
use dbtg_schema::{RecordNo, Row, Schema, SetNo};
use dbtg_unit::{
    Answer, Cause, CellEdit, Change, Edit, Held, Prepared, Unit, UnitEdit, edit_each_cell,
    is_rekeyed_in, names_calc, next_version, occurrence, own_refusal, owner_in, refused,
    refuses_equal, ring_name, set_count, stored,
};
use std::alloc::{AllocError, Global};

// The ring of the guessed owner, if the set is sorted by an item that is named and the ring is not held.
fn missing_ring_of(
    schema: &Schema,
    set: SetNo,
    rtype: RecordNo,
    changes: &[Change],
    held: &Held,
) -> Option<CellName>
    ensures { result ≡ (if is_rekeyed schema.now changes.now rtype set then first_missing held.now (ring_names set (at held.now.guesses set)) else None) }
{
    if is_rekeyed_in(schema, set, rtype, changes) {
        missing_ring(held, set, held.guess(set))
    } else {
        None
    }
}

fn missing_rekeyed_ring(
    schema: &Schema,
    rtype: RecordNo,
    changes: &[Change],
    held: &Held,
) -> Option<CellName>
    ensures { result ≡ first_missing held.now (flat_map (λ s. ring_names s (at held.now.guesses s)) (rekeyed_sets schema.now rtype (map (λ c. c.item) changes.now))) }
{
    for s in 0..set_count(schema) {
        let name = missing_ring_of(schema, SetNo::new(s), rtype, changes, held);
        if name.is_some() {
            return name;
        }
    }
    None
}

fn missing_extent(
    schema: &Schema,
    rtype: RecordNo,
    changes: &[Change],
    held: &Held,
) -> Option<CellName>
    ensures { result ≡ first_missing held.now (if names_calc schema.now rtype changes.now then CellName.Extent rtype ∷ [] else []) }
{
    if names_calc(schema, rtype, changes) {
        missing(held, CellName::Extent(rtype))
    } else {
        None
    }
}

/// The first cell that a MODIFY needs and that is not held.
pub(crate) fn next_cell_of_modify(
    schema: &Schema,
    unit: &Unit,
    rtype: RecordNo,
    changes: &[Change],
    held: &Held,
) -> Option<CellName>
    ensures { (capacity : ℕ) (db : Database) → result ≡ first_missing held.now (cells_of schema.now capacity db unit.now held.now.guesses (Modify rtype changes.now)) }
{
    let extent = missing_extent(schema, rtype, changes, held);
    if extent.is_some() {
        return extent;
    }
    let ring = missing_rekeyed_ring(schema, rtype, changes, held);
    if ring.is_some() {
        return ring;
    }
    missing_slot(held, unit.currency.run_unit)
}

fn set_item(items: &mut Vec<Value>, index: usize, value: Value)
    ensures { items.new.items ≡ slice_set items.old.items index value }
{
    if index < items.len() {
        items[index] = value;
    }
}

fn copy_changed(
    alloc: Global,
    items: &Row<Value>,
    changes: &[Change],
) -> Result<SharedItems, AllocError>
    ensures { IfOk result (λ changed. changed ≡ changed_items changes.now items.now) }
{
    let mut copies = copy_items(items, alloc)?.into_vec();
    for change in changes {
        let value = change.value.copy(alloc)?;
        set_item(&mut copies, change.item.index() as usize, value);
    }
    Shared::new(alloc, Row::of(copies))
}

// The items of a record that is held after the changes.
fn changed(
    alloc: Global,
    held: &Held,
    key: &DbKey,
    changes: &[Change],
) -> Result<SharedItems, AllocError>
    ensures { IfOk result (λ items. items ≡ changed_items changes.now (items_in held.now key.now)) }
{
    match stored(held, key) {
        Some(stored) => copy_changed(alloc, stored.items.get(), changes),
        None => copy_changed(alloc, &Row::of(Vec::new(alloc)), changes),
    }
}

fn position_in(schema: &Schema, unit: &Unit, set: SetNo) -> Option<DbKey>
    ensures { result ≡ option_and_then (λ place. place.at) (place_in schema.now unit.now set) }
{
    match unit.place_in(schema, set) {
        Some(place) => place.at,
        None => None,
    }
}

// Does another member of an owner's list that is held have the sort key that the record has with these items?
fn has_key_beside(
    alloc: Global,
    schema: &Schema,
    held: &Held,
    set: SetNo,
    owner: &Owner,
    key: &DbKey,
    items: &[Value],
) -> Result<bool, AllocError>
    ensures { IfOk result (λ taken. taken ≡ (in_hand held.now).has_sort_key set owner.now (Some key.now) (key_item schema.now set key.now.rtype items.now)) }
{
    let Some(ring) = occurrence(held, set, owner) else {
        return Ok(false);
    };
    let sort_key = copy_sort_key(alloc, schema, set, key.rtype, items)?;
    Ok(ring.has_sort_key(&sort_key, Some(*key)))
}

// Is the new sort key taken, in a set that is sorted by an item that is named and refuses equal keys?
fn is_key_taken(
    alloc: Global,
    schema: &Schema,
    held: &Held,
    changes: &[Change],
    key: &DbKey,
    items: &[Value],
    set: SetNo,
) -> Result<bool, AllocError>
    ensures { IfOk result (λ taken. taken ≡ is_refused schema.now held.now changes.now key.now items.now set) }
{
    if !is_rekeyed_in(schema, set, key.rtype, changes) {
        return Ok(false);
    }
    if !refuses_equal(schema.order_of(set)) {
        return Ok(false);
    }
    match owner_in(held, set, key) {
        Some(owner) => has_key_beside(alloc, schema, held, set, &owner, key, items),
        None => Ok(false),
    }
}

fn is_any_key_taken(
    alloc: Global,
    schema: &Schema,
    held: &Held,
    changes: &[Change],
    key: &DbKey,
    items: &[Value],
) -> Result<bool, AllocError>
    ensures { IfOk result (λ taken. taken ≡ list_any (is_refused schema.now held.now changes.now key.now items.now) (set_numbers schema.now)) }
{
    for s in 0..set_count(schema) {
        if is_key_taken(alloc, schema, held, changes, key, items, SetNo::new(s))? {
            return Ok(true);
        }
    }
    Ok(false)
}

// Are the new CALC values taken, if one is named?
fn takes_calc(
    schema: &Schema,
    held: &Held,
    changes: &[Change],
    key: &DbKey,
    items: &[Value],
) -> bool
    ensures { result ≡ (names_calc schema.now key.now.rtype changes.now && calc_taken schema.now (in_hand held.now) key.now.rtype items.now (Some key.now)) }
{
    names_calc(schema, key.rtype, changes) && calc_taken(schema, held, key.rtype, items, Some(*key))
}

// Why the record may not have these items, which the changes give it.
fn refusal(
    alloc: Global,
    schema: &Schema,
    unit: &Unit,
    changes: &[Change],
    held: &Held,
    key: &DbKey,
    items: &[Value],
) -> Result<Option<Cause>, AllocError>
    requires { items.now ≡ changed_items changes.now (items_in held.now key.now) }
    ensures { IfOk result (λ cause. cause ≡ first_cause (modify_checks schema.now (in_hand held.now) unit.now changes.now key.now)) }
{
    let own = own_refusal(held, unit, key);
    if own.is_some() {
        return Ok(own);
    }
    if takes_calc(schema, held, changes, key, items) {
        return Ok(Some(Cause::DuplicatesNotAllowed));
    }
    if is_any_key_taken(alloc, schema, held, changes, key, items)? {
        return Ok(Some(Cause::DuplicatesNotAllowed));
    }
    Ok(None)
}

// The CALC values change, if one is named.
fn push_calc(
    edits: &mut Row<CellEdit>,
    alloc: Global,
    schema: &Schema,
    changes: &[Change],
    key: &DbKey,
    items: &[Value],
) -> Result<(), AllocError>
    ensures { OnOk result (edits.new ≡ edits.old ++ calc_edits schema.now changes.now key.now items.now) }
{
    if names_calc(schema, key.rtype, changes) {
        edits.push(CellEdit {
            name: CellName::Extent(key.rtype),
            edit: Edit::ChangeNumber {
                number: key.number,
                calc: copy_calc(alloc, schema, key.rtype, items)?,
            },
        })?;
    }
    Ok(())
}

// The record is placed again in a set, if its key item there is named and it is connected.
fn push_replacing(
    edits: &mut Row<CellEdit>,
    alloc: Global,
    schema: &Schema,
    unit: &Unit,
    changes: &[Change],
    held: &Held,
    key: &DbKey,
    items: &[Value],
    set: SetNo,
) -> Result<(), AllocError>
    ensures { OnOk result (edits.new ≡ edits.old ++ (if is_rekeyed schema.now changes.now key.now.rtype set then replacing_edits schema.now (in_hand held.now) unit.now key.now items.now set else [])) }
{
    if !is_rekeyed_in(schema, set, key.rtype, changes) {
        return Ok(());
    }
    let Some(owner) = owner_in(held, set, key) else {
        return Ok(());
    };
    edits.push(CellEdit {
        name: ring_name(set, &owner),
        edit: Edit::ReplaceMember {
            order: schema.order_of(set),
            position: position_in(schema, unit, set),
            key: *key,
            sort_key: copy_sort_key(alloc, schema, set, key.rtype, items)?,
        },
    })?;
    Ok(())
}

fn push_each_replacing(
    edits: &mut Row<CellEdit>,
    alloc: Global,
    schema: &Schema,
    unit: &Unit,
    changes: &[Change],
    held: &Held,
    key: &DbKey,
    items: &[Value],
) -> Result<(), AllocError>
    ensures { OnOk result (edits.new ≡ edits.old ++ flat_map (replacing_edits schema.now (in_hand held.now) unit.now key.now items.now) (rekeyed_sets schema.now key.now.rtype (map (λ c. c.item) changes.now))) }
{
    for s in 0..set_count(schema) {
        let set = SetNo::new(s);
        push_replacing(edits, alloc, schema, unit, changes, held, key, items, set)?;
    }
    Ok(())
}

// The edits of all cells but its slot.
fn edits_beside_slot(
    alloc: Global,
    schema: &Schema,
    unit: &Unit,
    changes: &[Change],
    held: &Held,
    key: &DbKey,
    items: &[Value],
) -> Result<Row<CellEdit>, AllocError>
    ensures { IfOk result (λ edits. edits ≡ calc_edits schema.now changes.now key.now items.now ++ flat_map (replacing_edits schema.now (in_hand held.now) unit.now key.now items.now) (rekeyed_sets schema.now key.now.rtype (map (λ c. c.item) changes.now))) }
{
    let mut edits = Row::of(Vec::new(alloc));
    push_calc(&mut edits, alloc, schema, changes, key, items)?;
    push_each_replacing(&mut edits, alloc, schema, unit, changes, held, key, items)?;
    Ok(edits)
}

fn modified(
    alloc: Global,
    schema: &Schema,
    unit: &Unit,
    changes: &[Change],
    held: &Held,
    key: &DbKey,
    items: SharedItems,
) -> Result<Prepared, AllocError>
    requires versions { HaveNextVersions held.now.cells }
    requires changed { items ≡ changed_items changes.now (items_in held.now key.now) }
    ensures { IfOk result (λ plan. plan ≡ modifying schema.now (in_hand held.now) unit.now changes.now key.now) }
{
    let mut edits = edits_beside_slot(
        alloc,
        schema,
        unit,
        changes,
        held,
        key,
        items.get().as_slice(),
    )?;
    push_slot(&mut edits, key, Edit::ChangeItems { items })?;
    let versions = Vec::from_slice(alloc, &[(*key, next_version(held, key))])?;
    Ok(Prepared::new(done_answer(), edits, Row::of(versions), UnitEdit::Same))
}

/// What a MODIFY that needs nothing more does: the CALC values if one is named, the places in sets that are sorted by an item that is
/// named, the items, the version.
pub(crate) fn modify(
    alloc: Global,
    schema: &Schema,
    unit: &Unit,
    rtype: RecordNo,
    changes: &[Change],
    held: &Held,
) -> Result<Prepared, AllocError>
    requires { HaveNextVersions held.now.cells }
    ensures { IfOk result (λ plan. plan ≡ plan_of schema.now (in_hand held.now) unit.now (Modify rtype changes.now)) }
{
    // The current of run-unit is of this type, so the plan does not ask for it.
    let _ = rtype;
    let Some(key) = unit.currency.run_unit else {
        return Ok(refused(alloc, Cause::NoCurrentOfRunUnit));
    };
    let items = changed(alloc, held, &key, changes)?;
    match refusal(
        alloc,
        schema,
        unit,
        changes,
        held,
        &key,
        items.get().as_slice(),
    )? {
        Some(cause) => Ok(refused(alloc, cause)),
        None => modified(alloc, schema, unit, changes, held, &key, items),
    }
}

// MADE AT ONCE

// Gives a record new items, where no check refuses: all memory is taken before the first change.
fn modify_record(
    alloc: Global,
    schema: &Schema,
    unit: &mut Unit,
    changes: &[Change],
    held: &mut Held,
    key: &DbKey,
    items: SharedItems,
) -> Result<Answer, AllocError>
    requires can { CanMake (modify_edits schema.now (in_hand held.old) unit.old changes.now key.now items) held.old.cells }
    requires versions { HaveNextVersions held.old.cells }
    requires changed { items ≡ changed_items changes.now (items_in held.old key.now) }
    ensures made { IfOk result (λ answer. seen answer unit.new held.new ≡ made_by schema.now unit.old held.old (modifying schema.now (in_hand held.old) unit.old changes.now key.now)) }
    ensures unit { OnErr result (unit.new ≡ unit.old) }
    ensures held { OnErr result (held.new ≡ held.old) }
{
    let edits = edits_beside_slot(
        alloc,
        schema,
        unit,
        changes,
        held,
        key,
        items.get().as_slice(),
    )?;
    let version = next_version(held, key);
    edit_each_cell(held, edits);
    change_slot(held, key, Edit::ChangeItems { items });
    unit.renote(*key, version);
    Ok(done_answer())
}

/// Makes a MODIFY that needs nothing more, without a plan.
pub(crate) fn make_modify(
    alloc: Global,
    schema: &Schema,
    capacity: u16,
    unit: &mut Unit,
    rtype: RecordNo,
    changes: &[Change],
    held: &mut Held,
) -> Result<Answer, AllocError>
    requires may { MayPrepare schema.now capacity unit.old held.old (Modify rtype changes.now) }
    requires agrees { (db : Database) × Agrees schema.now capacity db held.old unit.old }
    requires passes { refused_at_once schema.now capacity unit.old (Modify rtype changes.now) ≡ None }
    ensures made { IfOk result (λ answer. IsMadeOnEach schema.now capacity unit.old held.old (Modify rtype changes.now) (seen answer unit.new held.new)) }
    ensures unit { OnErr result (unit.new ≡ unit.old) }
    ensures held { OnErr result (held.new ≡ held.old) }
{
    // Unused here; the contract mentions them.
    let _ = (rtype, capacity);
    let Some(key) = unit.currency.run_unit else {
        return Ok(unit_alone::refusal(Cause::NoCurrentOfRunUnit));
    };
    let items = changed(alloc, held, &key, changes)?;
    match refusal(
        alloc,
        schema,
        unit,
        changes,
        held,
        &key,
        items.get().as_slice(),
    )? {
        Some(cause) => Ok(unit_alone::refusal(cause)),
        None => modify_record(alloc, schema, unit, changes, held, &key, items),
    }
}
