//! FIND in an area: the live keys of its record types in key order, type by type.
ghost use Rattle.std.specs.Prelude.{◌≡◌, ◌≢◌, ◌<◌, ◌+◌, ◌^◌, ◌≤◌, true, pos, map, filter, reverse, length, slice_get, option_map, unwrap_or, [], IfSome, None};
ghost use Rattle.std.specs.Option.{option_copied};
ghost use Rattle.std.specs.List.{range_with_len};
ghost use Rattle.dbtg_schema.specs.Lookups.{at, final, first, nth};
ghost use Rattle.dbtg_unit.specs.Database.State.Belongs.{IsWithin};
ghost use Rattle.dbtg_unit.specs.Database.Statements.Fits.{which_fits};
ghost use Rattle.dbtg_unit.specs.Database.Statements.Found.{chosen_by_key, found_unless};
ghost use Rattle.dbtg_unit.specs.declared.unit.Cause.TheVariants.{End};
ghost use Rattle.dbtg_unit.specs.Hands.Needs.{first_missing};
ghost use Rattle.dbtg_plan.specs.Inside.Finding.{area_keys_in, is_above, is_below, is_wanted, keys_of_type, keys_wanted};

use crate::finding::current::of_area;
use crate::finding::numbered;
use crate::missing::is_missing;
use dbtg_cells::{CellName, DbKey, Extent};
use dbtg_schema::{AreaNo, RecordNo, Schema};
use dbtg_unit::{Cause, Held, Unit, Which, numbers, type_count};

// Is this a type of the area, and the named one if one is named?
fn is_wanted(schema: &Schema, named: &Option<RecordNo>, area: AreaNo, rtype: RecordNo) -> bool
    ensures { result ≡ is_wanted schema.now named.now area rtype }
{
    match named {
        Some(named) => rtype.index() == named.index(),
        None => schema.area_of(rtype).index() == area.index(),
    }
}

// The extent of a type that is wanted, if it is held.
fn wanted_extent<'a>(
    schema: &Schema,
    held: &'a Held,
    named: &Option<RecordNo>,
    area: AreaNo,
    rtype: RecordNo,
) -> Option<&'a Extent>
    ensures { keys_of_type rtype (unwrap_or (option_map (λ e. e.numbers) (option_copied result)) []) ≡ keys_wanted schema.now held.now named.now area rtype }
{
    if is_wanted(schema, named, area, rtype) {
        numbers(held, rtype)
    } else {
        None
    }
}

// The first key of one type after the bound; none if the type is not wanted.
fn first_of_type(
    schema: &Schema,
    held: &Held,
    named: &Option<RecordNo>,
    area: AreaNo,
    rtype: RecordNo,
    bound: &Option<DbKey>,
) -> Option<DbKey>
    ensures { result ≡ first (filter (is_above bound.now) (keys_wanted schema.now held.now named.now area rtype)) }
{
    match wanted_extent(schema, held, named, area, rtype) {
        Some(extent) => numbered::first_key(extent, rtype, bound),
        None => None,
    }
}

// The first key after the bound, if there is one.
fn first_key(
    schema: &Schema,
    held: &Held,
    named: &Option<RecordNo>,
    area: AreaNo,
    bound: &Option<DbKey>,
) -> Option<DbKey>
    ensures { result ≡ first (filter (is_above bound.now) (area_keys_in schema.now held.now named.now area)) }
{
    for t in 0..type_count(schema) {
        let found = first_of_type(schema, held, named, area, RecordNo::new(t), bound);
        if found.is_some() {
            return found;
        }
    }
    None
}

// The last key of one type before the bound; none if the type is not wanted.
fn last_of_type(
    schema: &Schema,
    held: &Held,
    named: &Option<RecordNo>,
    area: AreaNo,
    rtype: RecordNo,
    bound: &Option<DbKey>,
) -> Option<DbKey>
    requires { IfSome bound.now (λ k. k.number + 1 < 2 ^ 32) }
    ensures { result ≡ final (filter (is_below bound.now) (keys_wanted schema.now held.now named.now area rtype)) }
{
    match wanted_extent(schema, held, named, area, rtype) {
        Some(extent) => numbered::last_key(extent, rtype, bound),
        None => None,
    }
}

// The last key before the bound, if there is one.
fn last_key(
    schema: &Schema,
    held: &Held,
    named: &Option<RecordNo>,
    area: AreaNo,
    bound: &Option<DbKey>,
) -> Option<DbKey>
    requires { IfSome bound.now (λ k. k.number + 1 < 2 ^ 32) }
    ensures { result ≡ final (filter (is_below bound.now) (area_keys_in schema.now held.now named.now area)) }
{
    let mut last = None;
    for t in 0..type_count(schema) {
        last = last_of_type(schema, held, named, area, RecordNo::new(t), bound).or(last);
    }
    last
}

// How many keys of one type there are; none if the type is not wanted.
fn count_of_type(
    schema: &Schema,
    held: &Held,
    named: &Option<RecordNo>,
    area: AreaNo,
    rtype: RecordNo,
) -> u32
    ensures count { result ≡ length (keys_wanted schema.now held.now named.now area rtype) }
    ensures few { result < 2 ^ 16 }
{
    match wanted_extent(schema, held, named, area, rtype) {
        Some(extent) => extent.count_live(),
        None => 0,
    }
}

// How many keys there are.
fn count_keys(schema: &Schema, held: &Held, named: &Option<RecordNo>, area: AreaNo) -> u32
    ensures { result ≡ length (area_keys_in schema.now held.now named.now area) }
{
    let mut count = 0;
    for t in 0..type_count(schema) {
        count += count_of_type(schema, held, named, area, RecordNo::new(t));
    }
    count
}

// The key of one type at a place, from 0; none if the type is not wanted.
fn nth_of_type(
    schema: &Schema,
    held: &Held,
    named: &Option<RecordNo>,
    area: AreaNo,
    rtype: RecordNo,
    place: u32,
) -> Option<DbKey>
    requires { place < 2 ^ 16 }
    ensures { result ≡ slice_get (keys_wanted schema.now held.now named.now area rtype) place }
{
    match wanted_extent(schema, held, named, area, rtype) {
        Some(extent) => numbered::key_at(extent, rtype, place),
        None => None,
    }
}

// The key at a place, from 0.
fn key_at(
    schema: &Schema,
    held: &Held,
    named: &Option<RecordNo>,
    area: AreaNo,
    place: u32,
) -> Option<DbKey>
    ensures { result ≡ slice_get (area_keys_in schema.now held.now named.now area) place }
{
    let mut left = place;
    for t in 0..type_count(schema) {
        let rtype = RecordNo::new(t);
        let count = count_of_type(schema, held, named, area, rtype);
        if left < count {
            return nth_of_type(schema, held, named, area, rtype, left);
        }
        left -= count;
    }
    None
}

// The key at a place from the end, from 0.
fn key_from_end(
    schema: &Schema,
    held: &Held,
    named: &Option<RecordNo>,
    area: AreaNo,
    place: u32,
) -> Option<DbKey>
    ensures { result ≡ slice_get (reverse (area_keys_in schema.now held.now named.now area)) place }
{
    let count = count_keys(schema, held, named, area);
    if place < count {
        key_at(schema, held, named, area, count - 1 - place)
    } else {
        None
    }
}

// The n-th key: n counts from 1 at the first, and from -1 at the last.
fn nth_key(
    schema: &Schema,
    held: &Held,
    named: &Option<RecordNo>,
    area: AreaNo,
    n: i32,
) -> Option<DbKey>
    requires { n ≢ pos 0 }
    ensures { result ≡ nth n (area_keys_in schema.now held.now named.now area) }
{
    let place = n.unsigned_abs() - 1;
    if n > 0 {
        key_at(schema, held, named, area, place)
    } else {
        key_from_end(schema, held, named, area, place)
    }
}

// The key that is asked for; none comes after or before a current that is not there.
fn chosen_by_key(
    schema: &Schema,
    held: &Held,
    which: Which,
    named: &Option<RecordNo>,
    area: AreaNo,
    current: &Option<DbKey>,
) -> Option<DbKey>
    requires fits { which_fits which ≡ true }
    requires within { IfSome current.now (λ k. k.number + 1 < 2 ^ 32) }
    ensures { result ≡ chosen_by_key which current.now (area_keys_in schema.now held.now named.now area) }
{
    match which {
        Which::First => first_key(schema, held, named, area, &None),
        Which::Last => last_key(schema, held, named, area, &None),
        Which::Next => match current {
            Some(_) => first_key(schema, held, named, area, current),
            None => None,
        },
        Which::Prior => match current {
            Some(_) => last_key(schema, held, named, area, current),
            None => None,
        },
        Which::Nth(n) => nth_key(schema, held, named, area, n),
    }
}

/// The key of an area, of one record type or of all, from the area's current.
pub(crate) fn find_in_area(
    schema: &Schema,
    capacity: u16,
    unit: &Unit,
    held: &Held,
    which: Which,
    named: Option<RecordNo>,
    area: AreaNo,
) -> Result<DbKey, Cause>
    requires fits { which_fits which ≡ true }
    requires within { IsWithin capacity unit.now }
    ensures { result ≡ found_unless None (chosen_by_key which (at unit.now.currency.areas area) (area_keys_in schema.now held.now named area)) End }
{
    let current = of_area(unit, area);
    match chosen_by_key(schema, held, which, &named, area, &current) {
        Some(key) => Ok(key),
        None => Err(Cause::End),
    }
}

/// The first extent of the area's record types that is not held.
#[tactic(auto, using(dbtg_schema::proofs::Public::numbers_next, dbtg_schema::proofs::Public::numbers_end))]
pub(crate) fn missing_extent(
    schema: &Schema,
    held: &Held,
    named: Option<RecordNo>,
    area: AreaNo,
) -> Option<CellName>
    ensures { result ≡ first_missing held.now (map CellName.Extent (filter (is_wanted schema.now named area) (range_with_len 0 (length schema.now.types)))) }
{
    for t in 0..type_count(schema) {
        let rtype = RecordNo::new(t);
        let name = CellName::Extent(rtype);
        if is_wanted(schema, &named, area, rtype) && is_missing(held, &name) {
            return Some(name);
        }
    }
    None
}
