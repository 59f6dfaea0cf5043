//! STORE: what it needs next, and what it does once it needs nothing more.
ghost use Rattle.std.specs.Prelude.{◌≡◌, ℕ, ◌==◌, ◌++◌, [], ◌∷◌, None, is_none, if◌then◌else◌, IfOk, OnErr, OnOk};
ghost use Rattle.std.specs.List.{flat_map, list_any};
ghost use Rattle.dbtg_cells.specs.declared.key.DbKey.{DbKey};
ghost use Rattle.dbtg_cells.specs.Shown.{first_version};
ghost use Rattle.dbtg_schema.specs.Lookups.{first_cause};
ghost use Rattle.dbtg_schema.specs.Structure.{automatic_sets, owns};
ghost use Rattle.dbtg_unit.specs.Database.Statements.Checks.{place_checks, refused_at_once};
ghost use Rattle.dbtg_unit.specs.declared.statement.Statement.TheVariants.{Store};
ghost use Rattle.dbtg_unit.specs.Database.State.Base.{Database, key_item};
ghost use Rattle.dbtg_unit.specs.Hands.Hands.{Hands};
ghost use Rattle.dbtg_unit.specs.Hands.InHand.{numbers_in, in_hand};
ghost use Rattle.dbtg_unit.specs.Hands.Local.{Agrees};
ghost use Rattle.dbtg_unit.specs.Hands.Locality.{IsMadeOnEach, made_by, seen};
ghost use Rattle.dbtg_unit.specs.Hands.Making.{AreMade, CanFinish, CanMake, MayPrepare, ShowsTheSame};
ghost use Rattle.dbtg_unit.specs.Hands.Needs.{current_owner, first_missing, ring_names, store_rings, store_rings_of};
ghost use Rattle.dbtg_unit.specs.Hands.PlanOf.{first_owners, joining_edits, slot_edit, store_edits, storing};
ghost use Rattle.dbtg_unit.specs.Inside.PlanOf.{plan_of};
ghost use Rattle.dbtg_plan.specs.Inside.Calc.{fresh_key};
ghost use Rattle.dbtg_plan.specs.Inside.Store.{HasRoom, entering_edit, missing_of_store, opening_edit, edits_of_opening, plan_of_judged};

use crate::calc::{calc_taken, copy_calc, fresh_key};
use crate::joining::{current_owner, joining_edit, make_room, place_refusal};
use crate::members::{copy_sort_key, slot_edit};
use crate::missing::{missing, missing_ring, missing_slot};
use crate::unit_alone;
use dbtg_cells::{CellName, DbKey, NewRecord, Owner, Owners, RecordOwners, SharedItems, Value};
use dbtg_schema::{RecordNo, Row, Schema, SetNo};
use dbtg_unit::{
    Answer, Cause, CellEdit, Edit, Held, Prepared, Status, Suppress, Unit, UnitEdit,
    edit_each_cell, edit_held, is_automatic_in, numbers, refused, set_count,
};
use std::alloc::{AllocError, Global};

// WHAT IT NEEDS

// The ring that the record joins in the set, if STORE connects it there and the ring is not held.
#[tactic(auto, using(crate::proofs::Store::StoreSteps::connected))]
fn missing_joined(
    schema: &Schema,
    unit: &Unit,
    held: &Held,
    key: &DbKey,
    set: SetNo,
) -> Option<CellName>
    ensures { result ≡ first_missing held.now (if list_any (λ s. s == set) (automatic_sets schema.now key.now.rtype) then ring_names set (current_owner schema.now unit.now set) else []) }
{
    if is_automatic_in(schema, set, key.rtype) {
        missing_ring(held, set, current_owner(schema, unit, set))
    } else {
        None
    }
}

fn missing_in_set(
    schema: &Schema,
    unit: &Unit,
    held: &Held,
    key: &DbKey,
    set: SetNo,
) -> Option<CellName>
    ensures { result ≡ first_missing held.now (store_rings_of schema.now unit.now key.now set) }
{
    let joined = missing_joined(schema, unit, held, key, set);
    if joined.is_some() {
        return joined;
    }
    if schema.owns(set, key.rtype) {
        missing(held, CellName::Ring(set, Some((key.rtype, key.number))))
    } else {
        None
    }
}

fn missing_in_any_set(schema: &Schema, unit: &Unit, held: &Held, key: &DbKey) -> Option<CellName>
    ensures { result ≡ first_missing held.now (store_rings schema.now unit.now key.now) }
{
    for s in 0..set_count(schema) {
        let set = SetNo::new(s);
        let name = missing_in_set(schema, unit, held, key, set);
        if name.is_some() {
            return name;
        }
    }
    None
}

fn missing_of_key(schema: &Schema, unit: &Unit, held: &Held, key: &DbKey) -> Option<CellName>
    ensures { result ≡ first_missing held.now (store_rings schema.now unit.now key.now ++ CellName.Slot key.now.rtype key.now.number ∷ []) }
{
    let ring = missing_in_any_set(schema, unit, held, key);
    if ring.is_some() {
        return ring;
    }
    missing_slot(held, Some(*key))
}

// The key of the new record.
fn new_key(held: &Held, rtype: RecordNo) -> Option<DbKey>
    ensures { result ≡ fresh_key (numbers_in held.now rtype) rtype }
{
    fresh_key(numbers(held, rtype)?, rtype)
}

/// The first cell that a STORE needs and that is not held.
pub(crate) fn next_cell_of_store(
    schema: &Schema,
    unit: &Unit,
    rtype: RecordNo,
    items: &SharedItems,
    held: &Held,
) -> Option<CellName>
    ensures { result ≡ missing_of_store schema.now unit.now held.now rtype items.now }
{
    let extent = missing(held, CellName::Extent(rtype));
    if extent.is_some() {
        return extent;
    }
    let key = new_key(held, rtype)?;
    if calc_taken(schema, held, rtype, items.get().as_slice(), None) {
        None
    } else {
        missing_of_key(schema, unit, held, &key)
    }
}

// WHY IT IS REFUSED

fn refusal_in_any_set(
    alloc: Global,
    schema: &Schema,
    unit: &Unit,
    held: &Held,
    rtype: RecordNo,
    items: &[Value],
) -> Result<Option<Cause>, AllocError>
    ensures { IfOk result (λ cause. cause ≡ first_cause (flat_map (λ s. place_checks schema.now (in_hand held.now) unit.now s (key_item schema.now s rtype items.now)) (automatic_sets schema.now rtype))) }
{
    for set in schema.automatic_sets(rtype) {
        let sort_key = copy_sort_key(alloc, schema, *set, rtype, items)?;
        let cause = place_refusal(schema, unit, held, *set, &sort_key);
        if cause.is_some() {
            return Ok(cause);
        }
    }
    Ok(None)
}

// The key that the record gets, or why it is not stored.
fn judged(
    alloc: Global,
    schema: &Schema,
    unit: &Unit,
    held: &Held,
    rtype: RecordNo,
    items: &[Value],
) -> Result<Result<DbKey, Cause>, AllocError>
    ensures { IfOk result (λ judged. (suppress : Suppress) → plan_of schema.now (in_hand held.now) unit.now (Store rtype items.now suppress) ≡ plan_of_judged schema.now unit.now items.now suppress judged) }
{
    let Some(key) = new_key(held, rtype) else {
        return Ok(Err(Cause::NoRoom));
    };
    if calc_taken(schema, held, rtype, items, None) {
        return Ok(Err(Cause::DuplicatesNotAllowed));
    }
    match refusal_in_any_set(alloc, schema, unit, held, rtype, items)? {
        Some(cause) => Ok(Err(cause)),
        None => Ok(Ok(key)),
    }
}

// ITS EDITS

fn push_join(
    alloc: Global,
    schema: &Schema,
    unit: &Unit,
    key: &DbKey,
    items: &[Value],
    set: SetNo,
    edits: &mut Row<CellEdit>,
) -> Result<(), AllocError>
    ensures { OnOk result (edits.new ≡ edits.old ++ joining_edits schema.now unit.now set key.now (key_item schema.now set key.now.rtype items.now)) }
{
    if unit.place_in(schema, set).is_none() {
        return Ok(());
    }
    let sort_key = copy_sort_key(alloc, schema, set, key.rtype, items)?;
    edits.push(joining_edit(schema, unit, set, key, sort_key))?;
    Ok(())
}

fn push_each_join(
    alloc: Global,
    schema: &Schema,
    unit: &Unit,
    key: &DbKey,
    items: &[Value],
    edits: &mut Row<CellEdit>,
) -> Result<(), AllocError>
    ensures { OnOk result (edits.new ≡ edits.old ++ flat_map (λ s. joining_edits schema.now unit.now s key.now (key_item schema.now s key.now.rtype items.now)) (automatic_sets schema.now key.now.rtype)) }
{
    for set in schema.automatic_sets(key.rtype) {
        push_join(alloc, schema, unit, key, items, *set, edits)?;
    }
    Ok(())
}

// The edit by which a new record's number is used.
fn entering(
    alloc: Global,
    schema: &Schema,
    key: &DbKey,
    items: &[Value],
) -> Result<CellEdit, AllocError>
    ensures { IfOk result (λ edit. edit ≡ entering_edit schema.now key.now items.now) }
{
    Ok(CellEdit {
        name: CellName::Extent(key.rtype),
        edit: Edit::EnterNumber {
            number: key.number,
            calc: copy_calc(alloc, schema, key.rtype, items)?,
        },
    })
}

// The edit by which a new record opens its occurrence of a set that its type owns.
fn opening_edit(key: &DbKey, set: SetNo) -> CellEdit
    ensures { result ≡ opening_edit key.now set }
{
    CellEdit {
        name: CellName::Ring(set, Some((key.rtype, key.number))),
        edit: Edit::OpenRing {
            owner: Owner::Rec(*key),
        },
    }
}

fn push_openings(schema: &Schema, key: &DbKey, edits: &mut Row<CellEdit>) -> Result<(), AllocError>
    ensures { OnOk result (edits.new ≡ edits.old ++ edits_of_opening schema.now key.now) }
{
    for set in schema.owned_sets(key.rtype) {
        edits.push(opening_edit(key, *set))?;
    }
    Ok(())
}

fn first_owners(schema: &Schema, unit: &Unit, rtype: RecordNo) -> Owners
    ensures { result ≡ first_owners schema.now unit.now rtype }
{
    let mut owners = Owners::none(schema.sets().len());
    for set in schema.automatic_sets(rtype) {
        owners.set(set.index() as usize, current_owner(schema, unit, *set));
    }
    owners
}

fn filling(
    alloc: Global,
    key: &DbKey,
    items: &SharedItems,
    owners: &Owners,
) -> Result<CellEdit, AllocError>
    ensures { IfOk result (λ edit. edit ≡ slot_edit key.now (Edit.Fill (first_version key.now.generation items.now owners.now))) }
{
    let owners = RecordOwners::of(alloc, owners)?;
    let items = items.share()?;
    let stored = NewRecord::new(alloc, key.generation, items, owners)?;
    Ok(slot_edit(key, Edit::Fill { stored }))
}

fn edits_of(
    alloc: Global,
    schema: &Schema,
    unit: &Unit,
    key: &DbKey,
    items: &SharedItems,
    owners: &Owners,
) -> Result<Row<CellEdit>, AllocError>
    requires { owners.now ≡ first_owners schema.now unit.now key.now.rtype }
    ensures { IfOk result (λ edits. edits ≡ store_edits schema.now unit.now key.now items.now) }
{
    // Most records need four edits: a number, a set joined, a set opened, and a slot.
    let mut edits = Row::of(Vec::with_capacity(alloc, 4)?);
    edits.push(entering(alloc, schema, key, items.get().as_slice())?)?;
    push_each_join(alloc, schema, unit, key, items.get().as_slice(), &mut edits)?;
    push_openings(schema, key, &mut edits)?;
    edits.push(filling(alloc, key, items, owners)?)?;
    Ok(edits)
}

fn stored(
    alloc: Global,
    schema: &Schema,
    unit: &Unit,
    key: &DbKey,
    items: &SharedItems,
    suppress: Suppress,
) -> Result<Prepared, AllocError>
    ensures { IfOk result (λ plan. plan ≡ storing schema.now unit.now items.now suppress key.now) }
{
    let owners = first_owners(schema, unit, key.rtype);
    let edits = edits_of(alloc, schema, unit, key, items, &owners)?;
    let answer = Answer {
        status: Status::Done,
        key: Some(*key),
        items: None,
    };
    let change = UnitEdit::See {
        key: *key,
        owners,
        suppress,
    };
    Ok(Prepared::new(answer, edits, Row::of(Vec::new(alloc)), change))
}

// ITS PLACES

fn make_places(schema: &Schema, unit: &Unit, held: &mut Held, key: &DbKey) -> Result<(), AllocError>
    ensures same { ShowsTheSame held.old held.new }
    ensures rooms { OnOk result ((s : ℕ) → HasRoom schema.now unit.now held.new key.now s) }
{
    for set in schema.automatic_sets(key.rtype) {
        make_room(schema, unit, *set, held, key)?;
    }
    Ok(())
}

// PREPARED

fn plan_store(
    alloc: Global,
    schema: &Schema,
    unit: &Unit,
    rtype: RecordNo,
    items: &SharedItems,
    suppress: Suppress,
    held: &mut Held,
) -> Result<Prepared, AllocError>
    ensures same { ShowsTheSame held.old held.new }
    ensures plan { IfOk result (λ plan. plan ≡ plan_of schema.now (in_hand held.old) unit.now (Store rtype items.now suppress)) }
    ensures rooms { IfOk result (λ plan. (k : DbKey) (s : ℕ) → plan.answer.key ≡ Some k → HasRoom schema.now unit.now held.new k s) }
{
    match judged(alloc, schema, unit, held, rtype, items.get().as_slice())? {
        Ok(key) => {
            make_places(schema, unit, held, &key)?;
            stored(alloc, schema, unit, &key, items, suppress)
        }
        Err(cause) => Ok(refused(alloc, cause)),
    }
}

/// What a STORE that needs nothing more does: the number, the places in the sets, the occurrences, the record.
pub(crate) fn prepare_store(
    alloc: Global,
    schema: &Schema,
    capacity: u16,
    unit: &Unit,
    rtype: RecordNo,
    items: &SharedItems,
    suppress: Suppress,
    held: &mut Held,
) -> Result<Prepared, AllocError>
    requires may { MayPrepare schema.now capacity unit.now held.old (Store rtype items.now suppress) }
    requires passes { refused_at_once schema.now capacity unit.now (Store rtype items.now suppress) ≡ None }
    ensures shows { ShowsTheSame held.old held.new }
    ensures prepared { IfOk result (λ plan. CanFinish schema.now capacity unit.now held.new (Store rtype items.now suppress) plan) }
{
    // Unused here; the contract mentions it.
    let _ = capacity;
    plan_store(alloc, schema, unit, rtype, items, suppress, held)
}

// MADE AT ONCE

// The edits of a STORE that take memory: the number, the places in the sets, the record.
#[derive(Drop)]
struct Built {
    entering: CellEdit,
    joins: Row<CellEdit>,
    filling: CellEdit,
}

fn build(
    alloc: Global,
    schema: &Schema,
    unit: &Unit,
    key: &DbKey,
    items: &SharedItems,
    owners: &Owners,
) -> Result<Built, AllocError>
    requires { owners.now ≡ first_owners schema.now unit.now key.now.rtype }
    ensures { IfOk result (λ built. built.entering ∷ (built.joins ++ (edits_of_opening schema.now key.now ++ built.filling ∷ [])) ≡ store_edits schema.now unit.now key.now items.now) }
{
    let mut joins = Row::of(Vec::new(alloc));
    push_each_join(alloc, schema, unit, key, items.get().as_slice(), &mut joins)?;
    let entering = entering(alloc, schema, key, items.get().as_slice())?;
    let filling = filling(alloc, key, items, owners)?;
    Ok(Built {
        entering,
        joins,
        filling,
    })
}

fn open_occurrences(schema: &Schema, key: &DbKey, held: &mut Held)
    requires { CanMake (edits_of_opening schema.now key.now) held.old.cells }
    ensures made { AreMade (edits_of_opening schema.now key.now) held.old.cells held.new.cells }
    ensures areas { held.new.areas ≡ held.old.areas }
    ensures guesses { held.new.guesses ≡ held.old.guesses }
{
    for set in schema.owned_sets(key.rtype) {
        edit_held(held, opening_edit(key, *set));
    }
}

// Makes the edits of a STORE.
fn change_cells(schema: &Schema, key: &DbKey, held: &mut Held, built: Built)
    requires { CanMake (built.entering ∷ (built.joins ++ (edits_of_opening schema.now key.now ++ built.filling ∷ []))) held.old.cells }
    ensures made { AreMade (built.entering ∷ (built.joins ++ (edits_of_opening schema.now key.now ++ built.filling ∷ []))) held.old.cells held.new.cells }
    ensures areas { held.new.areas ≡ held.old.areas }
    ensures guesses { held.new.guesses ≡ held.old.guesses }
{
    edit_held(held, built.entering);
    edit_each_cell(held, built.joins);
    open_occurrences(schema, key, held);
    edit_held(held, built.filling);
}

// Stores a record that no check refuses, and makes it current: all memory is taken before the first change.
fn store(
    alloc: Global,
    schema: &Schema,
    unit: &mut Unit,
    items: &SharedItems,
    suppress: &Suppress,
    held: &mut Held,
    key: &DbKey,
) -> Result<Answer, AllocError>
    requires { (hands : Hands) → ShowsTheSame held.old hands → ((s : ℕ) → HasRoom schema.now unit.old hands key.now s) → CanMake (store_edits schema.now unit.old key.now items.now) hands.cells }
    ensures made { IfOk result (λ answer. seen answer unit.new held.new ≡ made_by schema.now unit.old held.old (storing schema.now unit.old items.now suppress.now key.now)) }
    ensures unit { OnErr result (unit.new ≡ unit.old) }
    ensures shows { OnErr result (ShowsTheSame held.old held.new) }
{
    make_places(schema, unit, held, key)?;
    let owners = first_owners(schema, unit, key.rtype);
    let built = build(alloc, schema, unit, key, items, &owners)?;
    change_cells(schema, key, held, built);
    unit.see(schema, *key, owners.as_slice(), suppress);
    held.set_guesses(owners);
    Ok(Answer {
        status: Status::Done,
        key: Some(*key),
        items: None,
    })
}

/// Makes a STORE that needs nothing more, without a plan.
pub(crate) fn make_store(
    alloc: Global,
    schema: &Schema,
    capacity: u16,
    unit: &mut Unit,
    rtype: RecordNo,
    items: &SharedItems,
    suppress: &Suppress,
    held: &mut Held,
) -> Result<Answer, AllocError>
    requires may { MayPrepare schema.now capacity unit.old held.old (Store rtype items.now suppress.now) }
    requires agrees { (db : Database) × Agrees schema.now capacity db held.old unit.old }
    requires passes { refused_at_once schema.now capacity unit.old (Store rtype items.now suppress.now) ≡ None }
    ensures made { IfOk result (λ answer. IsMadeOnEach schema.now capacity unit.old held.old (Store rtype items.now suppress.now) (seen answer unit.new held.new)) }
    ensures unit { OnErr result (unit.new ≡ unit.old) }
    ensures shows { OnErr result (ShowsTheSame held.old held.new) }
{
    // Unused here; the contract mentions it.
    let _ = capacity;
    let judged = judged(alloc, schema, unit, held, rtype, items.get().as_slice())?;
    match judged {
        Ok(key) => store(alloc, schema, unit, items, suppress, held, &key),
        Err(cause) => Ok(unit_alone::refusal(cause)),
    }
}
