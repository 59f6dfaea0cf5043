//! How far a DELETE has come with its cells, as it is kept from one need to the next, so that no cell is looked at again.
ghost use Rattle.std.specs.Prelude.{◌≡◌, ℕ, [], ◌∷◌, ◌+◌, ◌<◌, None, Some, filter, length, map, IfOk, OnOk};
ghost use Rattle.std.specs.List.{flat_map};
ghost use Rattle.dbtg_schema.specs.Lists.{Lists};
ghost use Rattle.dbtg_schema.specs.Structure.{owns};
ghost use Rattle.dbtg_unit.specs.declared.statement.Erase.{Erase};
ghost use Rattle.dbtg_unit.specs.Database.State.CellNames.{slot_name};
ghost use Rattle.dbtg_unit.specs.Hands.Erasing.{own_rings, with_those};
ghost use Rattle.dbtg_unit.specs.Hands.Hands.{Hands};
ghost use Rattle.dbtg_erase.specs.Course.{AreOfMembers, IsCourse, MembersFit};
ghost use Rattle.dbtg_erase.specs.NextCell.{first_missing};
ghost use Rattle.dbtg_erase.specs.Inside.NextCell.{next_of_gone, ring_of};
ghost use Rattle.dbtg_erase.specs.WorkList.{cells_of_gone, gone_in, taken_in};

use crate::around::around;
use crate::keys::Keys;
use crate::left::push_members;
use crate::names::{Names, add, missing};
use crate::work_list::bring;
use dbtg_cells::{CellName, DbKey};
use dbtg_schema::{Schema, SetNo};
use dbtg_unit::{Erase, Held, set_count, type_count};
use std::alloc::{AllocError, Global};

/// How far a DELETE has come: the records known to go; how many of them have all their cells held and those that
/// go with them added; the cells of the members of the next one; and, once all are known, the cells around them.
#[derive(Drop)]
pub struct Course {
    pub(crate) gone: Keys,
    pub(crate) done: usize,
    pub(crate) members: Option<Names>,
    pub(crate) around: Option<Names>,
}

// The slots of some keys.
#[tactic(auto, using(crate::proofs::FirstNames::names_append))]
fn slots_of(alloc: Global, keys: &[DbKey]) -> Result<Vec<CellName>, AllocError>
    ensures { IfOk result (λ names. names.items ≡ map slot_name keys.now) }
{
    let mut names = Vec::with_capacity(alloc, keys.len())?;
    for key in keys {
        add(&mut names, &CellName::Slot(key.rtype, key.number))?;
    }
    Ok(names)
}

// The slots of a record's members, once its own cells are held; none is passed yet.
fn slots_of_members(
    alloc: Global,
    schema: &Schema,
    held: &Held,
    key: &DbKey,
) -> Result<Names, AllocError>
    requires { first_missing held.now (slot_name key.now ∷ own_rings schema.now key.now) ≡ None }
    ensures { IfOk result (λ names. AreOfMembers schema.now held.now key.now names) }
{
    let mut members = Vec::new(alloc);
    push_members(alloc, schema, held, key, &mut members)?;
    Ok(Names::new(slots_of(alloc, members.as_slice())?))
}

// The ring that a record owns in a set, if it owns one and that is not held.
fn missing_ring(schema: &Schema, held: &Held, key: &DbKey, set: SetNo) -> Option<CellName>
    ensures { result ≡ first_missing held.now (map (ring_of key.now) (filter (λ s. owns schema.now s key.now.rtype) (set ∷ []))) }
{
    if schema.owns(set, key.rtype) {
        missing(held, CellName::Ring(set, Some((key.rtype, key.number))))
    } else {
        None
    }
}

// The first ring that a record owns and that is not held.
fn first_ring(schema: &Schema, held: &Held, key: &DbKey) -> Option<CellName>
    ensures { result ≡ first_missing held.now (own_rings schema.now key.now) }
{
    for s in 0..set_count(schema) {
        let set = SetNo::new(s);
        match missing_ring(schema, held, key, set) {
            Some(name) => return Some(name),
            None => {}
        }
    }
    None
}

// The first cell not held among a record's own slot and rings.
fn first_own(schema: &Schema, held: &Held, key: &DbKey) -> Option<CellName>
    ensures { result ≡ first_missing held.now (slot_name key.now ∷ own_rings schema.now key.now) }
{
    match missing(held, CellName::Slot(key.rtype, key.number)) {
        Some(name) => Some(name),
        None => first_ring(schema, held, key),
    }
}

// The first cell of the next record that is not held.
#[tactic(auto, using(crate::proofs::CourseSteps::own_first, crate::proofs::CourseSteps::members_first))]
fn next_of_record(
    alloc: Global,
    schema: &Schema,
    held: &Held,
    key: &DbKey,
    members: &mut Option<Names>,
) -> Result<Option<CellName>, AllocError>
    requires { MembersFit schema.now held.now (Some key.now) members.old }
    ensures next { IfOk result (λ name. name ≡ first_missing held.now (cells_of_gone schema.now held.now key.now)) }
    ensures kept { OnOk result (MembersFit schema.now held.now (Some key.now) members.new) }
{
    if let Some(names) = members {
        return Ok(names.next(held));
    }
    if let Some(name) = first_own(schema, held, key) {
        return Ok(Some(name));
    }
    let mut names = slots_of_members(alloc, schema, held, key)?;
    let next = names.next(held);
    *members = Some(names);
    Ok(next)
}

// The first cell not held among those of these records, one after another.
fn first_of_all(
    alloc: Global,
    schema: &Schema,
    held: &Held,
    gone: &[DbKey],
) -> Result<Option<CellName>, AllocError>
    ensures { IfOk result (λ name. name ≡ first_missing held.now (flat_map (cells_of_gone schema.now held.now) gone.now)) }
{
    for key in gone {
        let mut members = None;
        match next_of_record(alloc, schema, held, key, &mut members)? {
            Some(name) => return Ok(Some(name)),
            None => {}
        }
    }
    Ok(None)
}

impl Course {
    /// The progress of a DELETE of this record, before its first cell other than the record's own slot.
    pub(crate) fn begin(alloc: Global, key: &DbKey) -> Result<Self, AllocError>
        ensures { IfOk result (λ course. (schema : Lists) (capacity : ℕ) (hands : Hands) (option : Erase) → IsCourse schema capacity hands option key.now course) }
    {
        let mut gone = Keys::new(alloc);
        gone.push(*key)?;
        Ok(Self {
            gone,
            done: 0,
            members: None,
            around: None,
        })
    }

    // All cells of the next record are held: adds the records that go with it.
    fn pass(
        &mut self,
        alloc: Global,
        schema: &Schema,
        held: &Held,
        option: Erase,
        next: &DbKey,
    ) -> Result<(), AllocError>
        requires { self.old.done < length self.old.gone }
        ensures gone { OnOk result (self.new.gone ≡ with_those self.old.gone (taken_in schema.now held.now option next.now)) }
        ensures done { OnOk result (self.new.done ≡ self.old.done + 1) }
        ensures rest { OnOk result (self.new ≡ record self.old { gone = self.new.gone; done = self.new.done; members = None }) }
    {
        // The number of keys fits a usize, and so does the next place.
        let _ = self.gone.as_slice().len();
        bring(alloc, schema, held, option, next, &mut self.gone)?;
        self.done += 1;
        self.members = None;
        Ok(())
    }

    // The first cell not held among those of the records that go, one record after another.
    fn next_of_each_record(
        &mut self,
        alloc: Global,
        schema: &Schema,
        capacity: u16,
        held: &Held,
        option: Erase,
        key: &DbKey,
    ) -> Result<Option<CellName>, AllocError>
        requires course { IsCourse schema.now capacity held.now option key.now self.old }
        requires around { self.old.around ≡ None }
        ensures next { IfOk result (λ name. name ≡ first_missing held.now (flat_map (cells_of_gone schema.now held.now) (gone_in schema.now capacity held.now option key.now))) }
        ensures all { IfOk result (λ name. name ≡ None → self.new.gone ≡ gone_in schema.now capacity held.now option key.now) }
        ensures course { OnOk result (IsCourse schema.now capacity held.now option key.now self.new) }
        ensures around { OnOk result (self.new.around ≡ None) }
    {
        let most = type_count(schema) as usize * capacity as usize;
        for _turn in self.done..most {
            let Some(next) = self.gone.get(self.done) else {
                return Ok(None);
            };
            let found = next_of_record(alloc, schema, held, &next, &mut self.members)?;
            if found.is_some() {
                return Ok(found);
            }
            self.pass(alloc, schema, held, option, &next)?;
        }
        // No more records go than there are numbers; once all are met, none is left here.
        first_of_all(alloc, schema, held, &self.gone.as_slice()[self.done..])
    }

    /// The next cell of the DELETE that is not held: of the records that go, one after another, and then around them.
    pub(crate) fn next(
        &mut self,
        alloc: Global,
        schema: &Schema,
        capacity: u16,
        held: &Held,
        option: Erase,
        key: &DbKey,
    ) -> Result<Option<CellName>, AllocError>
        requires { IsCourse schema.now capacity held.now option key.now self.old }
        ensures next { IfOk result (λ name. name ≡ next_of_gone schema.now held.now (gone_in schema.now capacity held.now option key.now)) }
        ensures kept { OnOk result (IsCourse schema.now capacity held.now option key.now self.new) }
    {
        if let Some(names) = &mut self.around {
            return Ok(names.next(held));
        }
        let found = self.next_of_each_record(alloc, schema, capacity, held, option, key)?;
        if found.is_some() {
            return Ok(found);
        }
        let mut around = around(alloc, schema, held, self.gone.as_slice())?;
        let next = around.next(held);
        self.around = Some(around);
        Ok(next)
    }
}
