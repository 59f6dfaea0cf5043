//! The image of a database, read from each cell where it is.
ghost use Rattle.std.specs.Prelude.{◌≡◌, ◌<◌, ◌^◌, ◌++◌, [], IfOk, OnOk, Some, length, map, option_and_then, option_copied, option_map, slice_get, unwrap_or};
ghost use Rattle.std.specs.List.{flat_map, range_with_len};
ghost use Rattle.dbtg_schema.specs.Structure.{set_numbers};
ghost use Rattle.dbtg_cells.specs.Numbers.{is_used, numbers_where};
ghost use Rattle.dbtg_unit.specs.Hands.InHand.{numbers_of, users_of};
ghost use Rattle.dbtg_step.specs.Machine.SequentialDatabase.{unit_at};
ghost use Rattle.dbtg_step.specs.Inside.Imaging.{cell_in, found_cell, found_in, generations_in, image_from, list_of, lists_of, next_in, occurrence_at, owned_lists, record_of, records_of, stored_at, version_of, versions_of};

use crate::parts::{CellLocation, Parts, UnitState};
use dbtg_cells::{
    Cell, CellName, DbKey, Extent, Mode, Owner, Ring, SharedItems, Stored, Usage, cell_number,
};
use dbtg_schema::{AreaNo, RecordNo, Row, Schema, SetNo};
use dbtg_unit::{Held, Image};
use std::alloc::{AllocError, Global};

/// Where cells are looked up: in a core, each at home or with its holder; or in hands that hold all of them.
#[derive(Clone, Copy)]
pub enum CellSource<'a> {
    Parts(&'a Parts),
    Hands(&'a Held),
}

/// The place with this number in the table.
pub fn place_at(table: &[CellLocation], number: usize) -> Option<&CellLocation>
    ensures { option_copied result ≡ slice_get table.now number }
{
    table.get(number)
}

fn runner_at(runners: &[UnitState], index: usize) -> Option<&UnitState>
    ensures { option_copied result ≡ slice_get runners.now index }
{
    runners.get(index)
}

/// The unit with this number.
pub fn unit_numbered(runners: &[UnitState], unit: u8) -> Option<&UnitState>
    ensures { option_copied result ≡ unit_at runners.now unit }
{
    if unit == 0 {
        return None;
    }
    runner_at(runners, unit as usize - 1)
}

fn cell_in<'a>(
    runners: &'a [UnitState],
    place: &'a CellLocation,
    name: &CellName,
) -> Option<&'a Cell>
    ensures { option_copied result ≡ cell_in runners.now name.now place.now }
{
    match place {
        CellLocation::Home(cell) => Some(cell),
        CellLocation::HeldBy(unit) => match unit_numbered(runners, *unit) {
            Some(runner) => runner.held.cell(name),
            None => None,
        },
    }
}

// The cell with this name, at home or in the hands of its holder.
fn find_in_parts<'a>(
    schema: &Schema,
    capacity: u16,
    parts: &'a Parts,
    name: &CellName,
) -> Option<&'a Cell>
    ensures { option_copied result ≡ found_cell schema.now capacity parts.now name.now }
{
    match cell_number(schema, capacity, name) {
        Some(number) => match place_at(parts.table.as_slice(), number) {
            Some(place) => cell_in(parts.runners.as_slice(), place, name),
            None => None,
        },
        None => None,
    }
}

fn find_cell<'a>(
    schema: &Schema,
    capacity: u16,
    source: CellSource<'a>,
    name: &CellName,
) -> Option<&'a Cell>
    ensures { option_copied result ≡ found_in schema.now capacity source.entry name.now }
{
    match source {
        CellSource::Parts(parts) => find_in_parts(schema, capacity, parts, name),
        CellSource::Hands(held) => held.cell(name),
    }
}

fn find_stored<'a>(
    schema: &Schema,
    capacity: u16,
    source: CellSource<'a>,
    rtype: RecordNo,
    number: u32,
) -> Option<&'a Stored>
    ensures { option_copied result ≡ stored_at (found_in schema.now capacity source.entry (CellName.Slot rtype number)) }
{
    match find_cell(schema, capacity, source, &CellName::Slot(rtype, number)) {
        Some(Cell::Slot(slot)) => slot.record(),
        _ => None,
    }
}

fn find_ring<'a>(
    schema: &Schema,
    capacity: u16,
    source: CellSource<'a>,
    name: &CellName,
) -> Option<&'a Ring>
    ensures { option_and_then (λ r. r.occurrence) (option_copied result) ≡ occurrence_at (found_in schema.now capacity source.entry name.now) }
{
    match find_cell(schema, capacity, source, name) {
        Some(Cell::Ring(ring)) => Some(ring),
        _ => None,
    }
}

fn find_extent<'a>(
    schema: &Schema,
    capacity: u16,
    source: CellSource<'a>,
    rtype: RecordNo,
) -> Option<&'a Extent>
    ensures { unwrap_or (option_map (λ e. e.numbers) (option_copied result)) [] ≡ numbers_of (found_in schema.now capacity source.entry (CellName.Extent rtype)) }
{
    match find_cell(schema, capacity, source, &CellName::Extent(rtype)) {
        Some(Cell::Extent(extent)) => Some(extent),
        _ => None,
    }
}

// The number of the record at this place among those of its type. Only the numbers that records have are looked at, so that an image
// costs what is stored, and not what could be.
fn live_at(extent: &Extent, place: u32) -> u32
    requires there { place < length (numbers_where is_used extent.now.numbers) }
    requires few { place < 2 ^ 16 }
    ensures { slice_get (numbers_where is_used extent.now.numbers) place ≡ Some result }
{
    extent.nth_live((place + 1) as i32).unwrap_or(0)
}

fn find_usage<'a>(
    schema: &Schema,
    capacity: u16,
    source: CellSource<'a>,
    area: AreaNo,
) -> Option<&'a Usage>
    ensures { unwrap_or (option_map (λ u. u.users) (option_copied result)) [] ≡ users_of (found_in schema.now capacity source.entry (CellName.Usage area)) }
{
    match find_cell(schema, capacity, source, &CellName::Usage(area)) {
        Some(Cell::Usage(usage)) => Some(usage),
        _ => None,
    }
}

// The records of all types with their versions, by key.
#[derive(Drop)]
struct AllRecords {
    records: Vec<(DbKey, SharedItems)>,
    versions: Vec<(DbKey, u64)>,
}

fn add_record(
    rtype: RecordNo,
    number: u32,
    stored: Option<&Stored>,
    all: &mut AllRecords,
) -> Result<(), AllocError>
    ensures records { OnOk result (all.new.records.items ≡ all.old.records.items ++ record_of rtype number (option_copied stored.entry)) }
    ensures versions { OnOk result (all.new.versions.items ≡ all.old.versions.items ++ version_of rtype number (option_copied stored.entry)) }
{
    if let Some(stored) = stored {
        let key = DbKey {
            rtype,
            number,
            generation: stored.generation,
        };
        all.records.push((key, stored.items.share()?))?;
        all.versions.push((key, stored.version))?;
    }
    Ok(())
}

fn add_each_record(
    schema: &Schema,
    capacity: u16,
    source: CellSource<'_>,
    rtype: RecordNo,
    all: &mut AllRecords,
) -> Result<(), AllocError>
    ensures records { OnOk result (all.new.records.items ≡ all.old.records.items ++ records_of (found_in schema.now capacity source.entry) rtype) }
    ensures versions { OnOk result (all.new.versions.items ≡ all.old.versions.items ++ versions_of (found_in schema.now capacity source.entry) rtype) }
{
    let Some(extent) = find_extent(schema, capacity, source, rtype) else {
        return Ok(());
    };
    for place in 0..extent.count_live() {
        let number = live_at(extent, place);
        let stored = find_stored(schema, capacity, source, rtype, number);
        add_record(rtype, number, stored, all)?;
    }
    Ok(())
}

fn all_records(
    alloc: Global,
    schema: &Schema,
    capacity: u16,
    source: CellSource<'_>,
) -> Result<AllRecords, AllocError>
    ensures records { IfOk result (λ all. all.records.items ≡ flat_map (records_of (found_in schema.now capacity source.entry)) (range_with_len 0 (length schema.now.types))) }
    ensures versions { IfOk result (λ all. all.versions.items ≡ flat_map (versions_of (found_in schema.now capacity source.entry)) (range_with_len 0 (length schema.now.types))) }
{
    let mut all = AllRecords {
        records: Vec::new(alloc),
        versions: Vec::new(alloc),
    };
    let types = schema.types().len() as u8;
    for rtype in 0..types {
        let rtype = RecordNo::new(rtype);
        add_each_record(schema, capacity, source, rtype, &mut all)?;
    }
    Ok(all)
}

fn add_list(
    alloc: Global,
    ring: Option<&Ring>,
    lists: &mut Vec<(Owner, Row<DbKey>)>,
) -> Result<(), AllocError>
    ensures { OnOk result (lists.new.items ≡ lists.old.items ++ list_of (option_and_then (λ r. r.occurrence) (option_copied ring.entry))) }
{
    if let Some(ring) = ring {
        if let Some(owner) = ring.owner() {
            lists.push((owner, Row::of(ring.keys(alloc)?)))?;
        }
    }
    Ok(())
}

// The lists of the live owners of a record type.
fn add_owned_lists(
    alloc: Global,
    schema: &Schema,
    capacity: u16,
    source: CellSource<'_>,
    set: SetNo,
    rtype: RecordNo,
    lists: &mut Vec<(Owner, Row<DbKey>)>,
) -> Result<(), AllocError>
    ensures { OnOk result (lists.new.items ≡ lists.old.items ++ owned_lists (found_in schema.now capacity source.entry) set rtype) }
{
    let Some(extent) = find_extent(schema, capacity, source, rtype) else {
        return Ok(());
    };
    for place in 0..extent.count_live() {
        let name = CellName::Ring(set, Some((rtype, live_at(extent, place))));
        add_list(alloc, find_ring(schema, capacity, source, &name), lists)?;
    }
    Ok(())
}

fn add_each_list(
    alloc: Global,
    schema: &Schema,
    capacity: u16,
    source: CellSource<'_>,
    set: SetNo,
    lists: &mut Vec<(Owner, Row<DbKey>)>,
) -> Result<(), AllocError>
    ensures { OnOk result (lists.new.items ≡ lists.old.items ++ lists_of schema.now (found_in schema.now capacity source.entry) set) }
{
    if schema.is_system(set) {
        let name = CellName::Ring(set, None);
        return add_list(alloc, find_ring(schema, capacity, source, &name), lists);
    }
    match schema.owner_type(set) {
        Some(rtype) => add_owned_lists(alloc, schema, capacity, source, set, rtype, lists),
        None => Ok(()),
    }
}

fn all_lists(
    alloc: Global,
    schema: &Schema,
    capacity: u16,
    source: CellSource<'_>,
) -> Result<Row<Row<(Owner, Row<DbKey>)>>, AllocError>
    ensures { IfOk result (λ row. row ≡ map (lists_of schema.now (found_in schema.now capacity source.entry)) (set_numbers schema.now)) }
{
    let mut all = Vec::new(alloc);
    let sets = schema.sets().len() as u8;
    for set in 0..sets {
        let mut lists = Vec::new(alloc);
        add_each_list(alloc, schema, capacity, source, SetNo::new(set), &mut lists)?;
        all.push(Row::of(lists))?;
    }
    Ok(Row::of(all))
}

fn next_in(extent: Option<&Extent>) -> u32
    ensures { result ≡ next_in (unwrap_or (option_map (λ e. e.numbers) (option_copied extent.entry)) []) }
{
    match extent {
        Some(extent) => extent.least_free().unwrap_or(0),
        None => 0,
    }
}

fn next_numbers(
    alloc: Global,
    schema: &Schema,
    capacity: u16,
    source: CellSource<'_>,
) -> Result<Row<u32>, AllocError>
    ensures { IfOk result (λ row. row ≡ map (λ t. next_in (numbers_of (found_in schema.now capacity source.entry (CellName.Extent t)))) (range_with_len 0 (length schema.now.types))) }
{
    let mut all = Vec::new(alloc);
    let types = schema.types().len() as u8;
    for rtype in 0..types {
        let rtype = RecordNo::new(rtype);
        all.push(next_in(find_extent(schema, capacity, source, rtype)))?;
    }
    Ok(Row::of(all))
}

fn generations(alloc: Global, extent: &Extent) -> Result<Row<u8>, AllocError>
    ensures { IfOk result (λ row. row ≡ generations_in extent.now.numbers) }
{
    let mut all = Vec::with_capacity(alloc, extent.capacity() as usize)?;
    for turn in 0..extent.capacity() {
        all.push_reserved(extent.generation(turn + 1));
    }
    Ok(Row::of(all))
}

fn generations_of(alloc: Global, extent: Option<&Extent>) -> Result<Row<u8>, AllocError>
    ensures { IfOk result (λ row. row ≡ generations_in (unwrap_or (option_map (λ e. e.numbers) (option_copied extent.entry)) [])) }
{
    match extent {
        Some(extent) => generations(alloc, extent),
        None => Ok(Row::of(Vec::new(alloc))),
    }
}

fn all_generations(
    alloc: Global,
    schema: &Schema,
    capacity: u16,
    source: CellSource<'_>,
) -> Result<Row<Row<u8>>, AllocError>
    ensures { IfOk result (λ row. row ≡ map (λ t. generations_in (numbers_of (found_in schema.now capacity source.entry (CellName.Extent t)))) (range_with_len 0 (length schema.now.types))) }
{
    let mut all = Vec::new(alloc);
    let types = schema.types().len() as u8;
    for rtype in 0..types {
        let extent = find_extent(schema, capacity, source, RecordNo::new(rtype));
        all.push(generations_of(alloc, extent)?)?;
    }
    Ok(Row::of(all))
}

fn users_of(alloc: Global, usage: Option<&Usage>) -> Result<Row<(u8, Mode)>, AllocError>
    ensures { IfOk result (λ row. row ≡ unwrap_or (option_map (λ u. u.users) (option_copied usage.entry)) []) }
{
    match usage {
        Some(usage) => Ok(Row::of(Vec::from_slice(alloc, usage.users())?)),
        None => Ok(Row::of(Vec::new(alloc))),
    }
}

fn all_users(
    alloc: Global,
    schema: &Schema,
    capacity: u16,
    source: CellSource<'_>,
) -> Result<Row<Row<(u8, Mode)>>, AllocError>
    ensures { IfOk result (λ row. row ≡ map (λ a. users_of (found_in schema.now capacity source.entry (CellName.Usage a))) (range_with_len 0 (length schema.now.areas))) }
{
    let mut all = Vec::new(alloc);
    let areas = schema.areas().len() as u8;
    for area in 0..areas {
        let usage = find_usage(schema, capacity, source, AreaNo::new(area));
        all.push(users_of(alloc, usage)?)?;
    }
    Ok(Row::of(all))
}

/// The image that the cells show, each read where it is.
pub fn read_image(
    alloc: Global,
    schema: &Schema,
    capacity: u16,
    source: CellSource<'_>,
) -> Result<Image, AllocError>
    ensures { IfOk result (λ image. image ≡ image_from schema.now (found_in schema.now capacity source.entry)) }
{
    let all = all_records(alloc, schema, capacity, source)?;
    Ok(Image {
        records: Row::of(all.records),
        versions: Row::of(all.versions),
        lists: all_lists(alloc, schema, capacity, source)?,
        next: next_numbers(alloc, schema, capacity, source)?,
        last: all_generations(alloc, schema, capacity, source)?,
        usage: all_users(alloc, schema, capacity, source)?,
    })
}
