//! The areas that a DELETE may reach. They are computed once for each record type, when a schema is made.

ghost use Rattle.std.specs.Prelude.{◌≡◌, ◌==◌, ◌<◌, ◌≤◌, ◌||◌, ◌&&◌, true, ℕ, IfOk, is_some, nat_lt, length, filter};
ghost use Rattle.std.specs.List.{list_all, list_any, range_with_len};
ghost use Rattle.dbtg_schema.specs.Structure.{erase_areas, home, member_clause, owns, reachable_types};
ghost use Rattle.dbtg_schema.specs.Inside.Erasing.{leads_to, is_home_of, touches, marked_in, is_given, AreWays, AreErased, AreErasedOfEach};
ghost use Rattle.dbtg_schema.specs.Erasing.{marked};

use crate::limits::{MOST_AREAS, MOST_RECORD_TYPES};
use crate::numbers::{AreaNo, RecordNo, SetNo};
use crate::row::Row;
use crate::schema::Schema;
use std::alloc::{AllocError, Global};
use std::marker::Model;

/// A set of areas. Contracts see a mark for each of the eight areas that a schema can have.
#[derive(Clone, Copy)]
pub struct AreaSet {
    members: [bool; 8],
}

impl Model for AreaSet {
    ghost use Rattle.std.specs.Prelude.{Bool, List};

    ghost Value = { List Bool };

    ghost view = { λ s. s.members };

    ghost inverse = { λ marks. record { members = marks } };
}

impl AreaSet {
    /// Is this area in the set?
    pub fn contains(&self, area: AreaNo) -> bool
        ensures { result ≡ marked self.now area }
    {
        marked(&self.members, area.index())
    }
}

/// Is this number marked? Numbers past the last mark are not.
pub fn marked(marks: &[bool], number: u8) -> bool
    ensures { result ≡ marked marks.now number }
{
    match marks.get(number as usize) {
        Some(mark) => *mark,
        None => false,
    }
}

/// Does one of the schema's sets, of which there are `sets`, lead from this owner type to this member type?
#[tactic(auto, using(crate::proofs::Indexes::Numbers::numbers_next, crate::proofs::Indexes::Numbers::numbers_end), unfolding(crate::specs::Inside::Erasing::leads_to))]
fn leads_to(schema: &Schema, sets: u8, owner: RecordNo, member: RecordNo) -> bool
    requires { sets ≡ length schema.now.sets }
    ensures { result ≡ leads_to schema.now owner member }
{
    for s in 0..sets {
        let set = SetNo::new(s);
        if schema.owns(set, owner) && schema.member_clause(set, member).is_some() {
            return true;
        }
    }
    false
}

/// Is this the home area of a set of which the type is a member?
#[tactic(auto, using(crate::proofs::Indexes::Numbers::numbers_next, crate::proofs::Indexes::Numbers::numbers_end), unfolding(crate::specs::Inside::Erasing::is_home_of))]
fn is_home_of(schema: &Schema, sets: u8, rtype: RecordNo, area: AreaNo) -> bool
    requires { sets ≡ length schema.now.sets }
    ensures { result ≡ is_home_of schema.now rtype area }
{
    for s in 0..sets {
        let set = SetNo::new(s);
        if schema.member_clause(set, rtype).is_some() && schema.home(set).index() == area.index() {
            return true;
        }
    }
    false
}

fn touches(schema: &Schema, sets: u8, rtype: RecordNo, area: AreaNo) -> bool
    requires { sets ≡ length schema.now.sets }
    ensures { result ≡ touches schema.now rtype area }
{
    let is_area = schema.area_of(rtype).index() == area.index();
    is_area || is_home_of(schema, sets, rtype, area)
}

/// Marks the member types to which this type leads.
fn leads_from(schema: &Schema, sets: u8, types: u8, owner: RecordNo) -> [bool; MOST_RECORD_TYPES]
    requires sets { sets ≡ length schema.now.sets }
    requires few { types ≤ MOST_RECORD_TYPES }
    ensures { (y : ℕ) → y < types → marked result y ≡ leads_to schema.now owner y }
{
    let mut members = [false; MOST_RECORD_TYPES];
    for y in 0..types {
        members[y as usize] = leads_to(schema, sets, owner, RecordNo::new(y));
    }
    members
}

/// Marks the areas that this type touches.
fn touched_by(schema: &Schema, sets: u8, rtype: RecordNo) -> [bool; MOST_RECORD_TYPES]
    requires { sets ≡ length schema.now.sets }
    ensures { (a : ℕ) → a < MOST_AREAS → marked result a ≡ touches schema.now rtype a }
{
    let mut areas = [false; MOST_RECORD_TYPES];
    for a in 0..MOST_AREAS as u8 {
        areas[a as usize] = touches(schema, sets, rtype, AreaNo::new(a));
    }
    areas
}

/// What a DELETE depends on: a row of marks for each record type.
#[derive(Clone, Copy)]
struct Ways {
    /// The types to which it leads.
    leads: [[bool; MOST_RECORD_TYPES]; MOST_RECORD_TYPES],
    /// The areas that it touches.
    touched: [[bool; MOST_RECORD_TYPES]; MOST_RECORD_TYPES],
}

/// The rows of each type.
fn ways_of(schema: &Schema) -> Ways
    ensures { AreWays schema.now result.leads result.touched }
{
    let sets = schema.sets().len() as u8;
    let types = schema.types().len() as u8;
    let mut leads = [[false; MOST_RECORD_TYPES]; MOST_RECORD_TYPES];
    let mut touched = [[false; MOST_RECORD_TYPES]; MOST_RECORD_TYPES];
    for t in 0..types {
        leads[t as usize] = leads_from(schema, sets, types, RecordNo::new(t));
        touched[t as usize] = touched_by(schema, sets, RecordNo::new(t));
    }
    Ways { leads, touched }
}

/// Does this row of the table have this mark?
fn marked_in(table: &[[bool; MOST_RECORD_TYPES]], row: u8, number: u8) -> bool
    ensures { result ≡ marked_in table.now row number }
{
    match table.get(row as usize) {
        Some(marks) => marked(marks, number),
        None => false,
    }
}

/// Does a marked row, among the first `rows` of the table, have this mark?
#[tactic(auto, using(crate::proofs::Indexes::Numbers::numbers_next, crate::proofs::Indexes::Numbers::numbers_end), unfolding(crate::specs::Inside::Erasing::is_given))]
fn is_given(table: &[[bool; MOST_RECORD_TYPES]], rows: u8, marks: &[bool], number: u8) -> bool
    ensures { result ≡ is_given table.now rows marks.now number }
{
    for row in 0..rows {
        if marked(marks, row) && marked_in(table, row, number) {
            return true;
        }
    }
    false
}

/// The first type, and all types to which a marked type leads.
fn one_step(
    leads: &[[bool; MOST_RECORD_TYPES]],
    types: u8,
    marks: &[bool],
    start: RecordNo,
) -> [bool; MOST_RECORD_TYPES]
    requires { types ≤ MOST_RECORD_TYPES }
    ensures { (y : ℕ) → y < types → marked result y ≡ (y == start || is_given leads.now types marks.now y) }
{
    let mut next = [false; MOST_RECORD_TYPES];
    for y in 0..types {
        let is_start = y == start.index();
        next[y as usize] = is_start || is_given(leads, types, marks, y);
    }
    next
}

/// Marks the types that can be reached from this one by going from owner type to member type, until a round marks
/// nothing new.
fn reachable(schema: &Schema, ways: &Ways, types: u8, start: RecordNo) -> [bool; MOST_RECORD_TYPES]
    requires ways { AreWays schema.now ways.now.leads ways.now.touched }
    requires types { types ≡ length schema.now.types }
    requires few { types ≤ MOST_RECORD_TYPES }
    ensures { filter (marked result) (range_with_len 0 (length schema.now.types)) ≡ reachable_types schema.now start }
{
    let mut marks = [false; MOST_RECORD_TYPES];
    for round in 0..types {
        let next = one_step(&ways.leads, types, &marks, start);
        if next == marks {
            return marks;
        }
        marks = next;
    }
    marks
}

/// The areas that a DELETE of a record of this type may reach, found by going through the types that it may delete.
fn areas_reached(schema: &Schema, ways: &Ways, rtype: RecordNo) -> AreaSet
    requires { AreWays schema.now ways.now.leads ways.now.touched }
    ensures { AreErased schema.now rtype result }
{
    let types = schema.types().len() as u8;
    let marks = reachable(schema, ways, types, rtype);
    let mut members = [false; 8];
    for a in 0..MOST_AREAS as u8 {
        members[a as usize] = is_given(&ways.touched, types, &marks, a);
    }
    AreaSet { members }
}

/// The same for each record type.
pub fn areas_of_each(alloc: Global, schema: &Schema) -> Result<Row<AreaSet>, AllocError>
    ensures { IfOk result (λ each. AreErasedOfEach each schema.now) }
{
    let ways = ways_of(schema);
    let mut each = Row::of(Vec::new(alloc));
    for t in 0..schema.types().len() as u8 {
        each.push(areas_reached(schema, &ways, RecordNo::new(t)))?;
    }
    Ok(each)
}

/// The same as `areas_reached`. It is a separate function because its tables take room that is cleared at each call.
#[inline(never)]
fn areas_reached_now(schema: &Schema, rtype: RecordNo) -> AreaSet
    ensures { AreErased schema.now rtype result }
{
    areas_reached(schema, &ways_of(schema), rtype)
}

impl Schema {
    /// The areas that a DELETE of a record of this type may reach: over the types that can be reached from it by
    /// going from owner type to member type, the type's area and the homes of the sets in which it is a member.
    pub fn erase_areas(&self, rtype: RecordNo) -> AreaSet
        ensures areas { (a : ℕ) → a < MOST_AREAS → marked result a ≡ list_any (λ b. b == a) (erase_areas self.now rtype) }
        ensures known { list_all (λ a. nat_lt a (length self.now.areas)) (erase_areas self.now rtype) ≡ true }
    {
        self.is_well_formed();
        match self.indexed_areas(rtype) {
            Some(areas) => areas,
            None => areas_reached_now(self, rtype),
        }
    }
}
