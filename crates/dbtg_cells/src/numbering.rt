//! The number of each cell: its place in the order of all cells. Nothing here takes memory.
ghost use Rattle.std.specs.Prelude.{◌≡◌, ℕ, ◌≤◌, ◌<◌, ◌+◌, ◌*◌, ◌&&◌, true, length, get_or, nat_lt, nat_le};
ghost use Rattle.dbtg_schema.specs.Structure.{set_numbers};
ghost use Rattle.std.specs.List.{flat_map, range_with_len};
ghost use Rattle.dbtg_cells.specs.CellNumbers.{IsLayoutOf, cell_count, cell_number, is_cell, place_in, rings_of};

use crate::name::CellName;
use dbtg_schema::{MOST_SETS, RecordNo, Schema, SetNo};

fn is_number(capacity: u16, number: u32) -> bool
    ensures { result ≡ nat_lt 0 number && nat_le number capacity }
{
    0 < number && number <= capacity as u32
}

/// Whether the schema has the cell at this capacity.
pub fn is_cell(schema: &Schema, capacity: u16, name: &CellName) -> bool
    ensures { result ≡ is_cell schema.now capacity name.now }
{
    match name {
        CellName::Usage(area) => (area.index() as usize) < schema.areas().len(),
        CellName::Extent(rtype) => (rtype.index() as usize) < schema.types().len(),
        CellName::Ring(set, None) => schema.is_system(*set),
        CellName::Ring(set, Some((rtype, number))) => {
            schema.owns(*set, *rtype) && is_number(capacity, *number)
        }
        CellName::Slot(rtype, number) => {
            (rtype.index() as usize) < schema.types().len() && is_number(capacity, *number)
        }
    }
}

// How many rings a set has.
fn ring_count(schema: &Schema, capacity: u16, set: SetNo) -> usize
    ensures count { result ≡ length (rings_of schema.now capacity set) }
    ensures limit { result ≤ 65536 }
{
    if schema.is_system(set) {
        return 1;
    }
    match schema.owner_type(set) {
        Some(_) => capacity as usize,
        None => 0,
    }
}

// How many rings the sets before this one have.
fn rings_before(schema: &Schema, capacity: u16, set: u8) -> usize
    ensures count { result ≡ length (flat_map (rings_of schema.now capacity) (range_with_len 0 set)) }
    ensures limit { result ≤ 65536 * set }
{
    let mut count = 0;
    for earlier in 0..set {
        count += ring_count(schema, capacity, SetNo::new(earlier));
    }
    count
}

// The number of the first ring.
fn first_ring(schema: &Schema) -> usize
    ensures count { result ≡ length schema.now.areas + length schema.now.types }
    ensures limit { result ≤ 24 }
{
    schema.areas().len() + schema.types().len()
}

// The number of the first slot.
fn first_slot(schema: &Schema, capacity: u16) -> usize
    ensures count { result ≡ length schema.now.areas + length schema.now.types + length (flat_map (rings_of schema.now capacity) (set_numbers schema.now)) }
    ensures limit { result ≤ 65536 * 17 }
{
    let sets = schema.sets().len() as u8;
    first_ring(schema) + rings_before(schema, capacity, sets)
}

/// How many cells there are.
pub fn cell_count(schema: &Schema, capacity: u16) -> usize
    ensures count { result ≡ cell_count schema.now capacity }
    ensures limit { result ≤ 65536 * 33 }
{
    first_slot(schema, capacity) + schema.types().len() * capacity as usize
}

fn extent_number(schema: &Schema, capacity: u16, rtype: RecordNo) -> usize
    requires { is_cell schema.now capacity (CellName.Extent rtype) ≡ true }
    ensures { cell_number schema.now capacity (CellName.Extent rtype) ≡ Some result }
{
    schema.areas().len() + rtype.index() as usize
}

fn system_ring_number(schema: &Schema, capacity: u16, set: SetNo) -> usize
    requires { is_cell schema.now capacity (CellName.Ring set None) ≡ true }
    ensures { cell_number schema.now capacity (CellName.Ring set None) ≡ Some result }
{
    first_ring(schema) + rings_before(schema, capacity, set.index())
}

fn ring_number(schema: &Schema, capacity: u16, set: SetNo, rtype: RecordNo, number: u32) -> usize
    requires { is_cell schema.now capacity (CellName.Ring set (Some (rtype, number))) ≡ true }
    ensures { cell_number schema.now capacity (CellName.Ring set (Some (rtype, number))) ≡ Some result }
{
    // Unused here; the contract mentions it.
    let _type = rtype.index();
    first_ring(schema) + rings_before(schema, capacity, set.index()) + (number as usize - 1)
}

fn slot_number(schema: &Schema, capacity: u16, rtype: RecordNo, number: u32) -> usize
    requires { is_cell schema.now capacity (CellName.Slot rtype number) ≡ true }
    ensures { cell_number schema.now capacity (CellName.Slot rtype number) ≡ Some result }
{
    let earlier = rtype.index() as usize * capacity as usize;
    first_slot(schema, capacity) + earlier + (number as usize - 1)
}

/// The number of a cell; none if the schema has no such cell.
pub fn cell_number(schema: &Schema, capacity: u16, name: &CellName) -> Option<usize>
    ensures { result ≡ cell_number schema.now capacity name.now }
{
    if !is_cell(schema, capacity, name) {
        return None;
    }
    match name {
        CellName::Usage(area) => Some(area.index() as usize),
        CellName::Extent(rtype) => Some(extent_number(schema, capacity, *rtype)),
        CellName::Ring(set, None) => Some(system_ring_number(schema, capacity, *set)),
        CellName::Ring(set, Some((rtype, number))) => {
            Some(ring_number(schema, capacity, *set, *rtype, *number))
        }
        CellName::Slot(rtype, number) => Some(slot_number(schema, capacity, *rtype, *number)),
    }
}

/// The place of each cell, computed once, so that a number is found without looking at the schema.
#[derive(Clone, Copy, Drop)]
pub struct Layout {
    areas: u8,
    capacity: u16,
    first_slot: u32,
    ring_starts: [u32; MOST_SETS],
}

// The numbers of the first rings of all sets.
fn ring_starts(schema: &Schema, capacity: u16) -> [u32; MOST_SETS]
    ensures { (s : ℕ) → s < length schema.now.sets → get_or result s 0 ≡ length schema.now.areas + length schema.now.types + length (flat_map (rings_of schema.now capacity) (range_with_len 0 s)) }
{
    let mut firsts = [0; MOST_SETS];
    for set in 0..schema.sets().len() {
        let first = first_ring(schema) + rings_before(schema, capacity, set as u8);
        firsts[set] = first as u32;
    }
    firsts
}

impl Layout {
    /// The layout of the schema's cells at this capacity.
    pub fn of(schema: &Schema, capacity: u16) -> Layout
        ensures { IsLayoutOf schema.now capacity result }
    {
        Layout {
            areas: schema.areas().len() as u8,
            capacity,
            first_slot: first_slot(schema, capacity) as u32,
            ring_starts: ring_starts(schema, capacity),
        }
    }

    // The number of a set's first ring.
    fn first_ring(&self, set: SetNo) -> usize
        ensures value { result ≡ get_or self.now.ring_starts set 0 }
        ensures limit { result < 4294967296 }
    {
        match self.ring_starts.get(set.index() as usize) {
            Some(first) => *first as usize,
            None => 0,
        }
    }

    /// The number of a cell. For a name that no cell has, it may be any number.
    pub fn number(&self, name: &CellName) -> usize
        ensures { result ≡ place_in self.now name.now }
    {
        match name {
            CellName::Usage(area) => area.index() as usize,
            CellName::Extent(rtype) => self.areas as usize + rtype.index() as usize,
            CellName::Ring(set, None) => self.first_ring(*set),
            CellName::Ring(set, Some((_rtype, number))) => {
                self.first_ring(*set) + number.saturating_sub(1) as usize
            }
            CellName::Slot(rtype, number) => {
                let earlier = rtype.index() as usize * self.capacity as usize;
                self.first_slot as usize + earlier + number.saturating_sub(1) as usize
            }
        }
    }
}
