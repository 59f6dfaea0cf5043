//! The keys of one record type, read from its extent.
ghost use Rattle.std.specs.Prelude.{◌≡◌, ◌<◌, ◌+◌, ◌^◌, filter, option_map, slice_get, IfSome};
ghost use Rattle.dbtg_schema.specs.Lookups.{final, first};
ghost use Rattle.dbtg_cells.specs.Keys.{key_below};
ghost use Rattle.dbtg_unit.specs.Inside.InHand.{key_of};
ghost use Rattle.dbtg_plan.specs.Inside.Finding.{is_above, is_below, keys_of_type, number_above, number_below};

use dbtg_cells::{DbKey, Extent};
use dbtg_schema::RecordNo;

/// The latest key of a number.
pub(crate) fn key_of(extent: &Extent, rtype: RecordNo, number: Option<u32>) -> Option<DbKey>
    ensures { result ≡ option_map (key_of extent.now.numbers rtype) number }
{
    let number = number?;
    Some(DbKey {
        rtype,
        number,
        generation: extent.generation(number),
    })
}

// Keys of the bound's type lie after it above its number, and at its number if that was used again.
fn number_above(extent: &Extent, bound: &DbKey) -> u32
    ensures { result ≡ number_above extent.now.numbers bound.now }
{
    if bound.generation < extent.generation(bound.number) {
        bound.number.saturating_sub(1)
    } else {
        bound.number
    }
}

// Keys of the bound's type lie before it below its number, and at its number if that was used less often.
fn number_below(extent: &Extent, bound: &DbKey) -> u32
    requires { bound.now.number + 1 < 2 ^ 32 }
    ensures { result ≡ number_below extent.now.numbers bound.now }
{
    if extent.generation(bound.number) < bound.generation {
        bound.number + 1
    } else {
        bound.number
    }
}

// The first key after the bound.
fn next_key(extent: &Extent, rtype: RecordNo, bound: &DbKey) -> Option<DbKey>
    ensures { result ≡ first (filter (key_below bound.now) (keys_of_type rtype extent.now.numbers)) }
{
    if rtype.index() < bound.rtype.index() {
        return None;
    }
    if bound.rtype.index() < rtype.index() {
        return key_of(extent, rtype, extent.first_live());
    }
    key_of(extent, rtype, extent.next_live(number_above(extent, bound)))
}

// The last key before the bound.
fn prior_key(extent: &Extent, rtype: RecordNo, bound: &DbKey) -> Option<DbKey>
    requires { bound.now.number + 1 < 2 ^ 32 }
    ensures { result ≡ final (filter (λ k. key_below k bound.now) (keys_of_type rtype extent.now.numbers)) }
{
    if bound.rtype.index() < rtype.index() {
        return None;
    }
    if rtype.index() < bound.rtype.index() {
        return key_of(extent, rtype, extent.last_live());
    }
    key_of(
        extent,
        rtype,
        extent.prior_live(number_below(extent, bound)),
    )
}

/// The first key after the bound, if there is one.
pub(crate) fn first_key(extent: &Extent, rtype: RecordNo, bound: &Option<DbKey>) -> Option<DbKey>
    ensures { result ≡ first (filter (is_above bound.now) (keys_of_type rtype extent.now.numbers)) }
{
    match bound {
        Some(key) => next_key(extent, rtype, key),
        None => key_of(extent, rtype, extent.first_live()),
    }
}

/// The last key before the bound, if there is one.
pub(crate) fn last_key(extent: &Extent, rtype: RecordNo, bound: &Option<DbKey>) -> Option<DbKey>
    requires { IfSome bound.now (λ k. k.number + 1 < 2 ^ 32) }
    ensures { result ≡ final (filter (is_below bound.now) (keys_of_type rtype extent.now.numbers)) }
{
    match bound {
        Some(key) => prior_key(extent, rtype, key),
        None => key_of(extent, rtype, extent.last_live()),
    }
}

/// The key at a place, from 0.
pub(crate) fn key_at(extent: &Extent, rtype: RecordNo, place: u32) -> Option<DbKey>
    requires { place < 2 ^ 16 }
    ensures { result ≡ slice_get (keys_of_type rtype extent.now.numbers) place }
{
    key_of(extent, rtype, extent.nth_live((place + 1) as i32))
}
