//! FIND in a set: the members of the current occurrence, read from its ring.
ghost use Rattle.std.specs.Prelude.{◌≡◌, true, false, ◌&&◌};
ghost use Rattle.dbtg_cells.specs.Members.{keys_in};
ghost use Rattle.dbtg_unit.specs.Database.Statements.Fits.{which_fits};
ghost use Rattle.dbtg_unit.specs.Database.Statements.Found.{chosen, has_type, is_lost, needs_position, with_current};
ghost use Rattle.dbtg_unit.specs.Hands.InHand.{occurrence_in};
ghost use Rattle.dbtg_unit.specs.Database.State.Units.{place_in};
ghost use Rattle.dbtg_unit.specs.declared.statement.Which.TheVariants.{Next, Prior};
ghost use Rattle.dbtg_plan.specs.Inside.Finding.{member_found, sorted_found};

use crate::joining::is_position_lost;
use dbtg_cells::{DbKey, Ring, Value};
use dbtg_schema::{RecordNo, Schema, SetNo};
use dbtg_unit::{Cause, Held, Unit, Which, occurrence};

// Is the position lost, and does NEXT or PRIOR go on from it?
fn loses_position(ring: &Ring, which: Which, position: &Option<DbKey>) -> bool
    ensures { result ≡ needs_position which && is_lost position.now (keys_in ring.now.occurrence) }
{
    match which {
        Which::Next => is_position_lost(*position, ring),
        Which::Prior => is_position_lost(*position, ring),
        _ => false,
    }
}

// The first member after the position, of a record type or of any.
fn next_member(ring: &Ring, rtype: Option<RecordNo>, position: Option<DbKey>) -> Option<DbKey>
    requires { is_lost position (keys_in ring.now.occurrence) ≡ false }
    ensures { result ≡ chosen Next (has_type rtype) position (keys_in ring.now.occurrence) }
{
    match position {
        Some(key) => ring.next_of(rtype, key),
        None => ring.first(rtype),
    }
}

// The last member before the position, of a record type or of any.
fn prior_member(ring: &Ring, rtype: Option<RecordNo>, position: Option<DbKey>) -> Option<DbKey>
    requires { is_lost position (keys_in ring.now.occurrence) ≡ false }
    ensures { result ≡ chosen Prior (has_type rtype) position (keys_in ring.now.occurrence) }
{
    match position {
        Some(key) => ring.prior_of(rtype, key),
        None => ring.last(rtype),
    }
}

// The member from a position that is not lost.
fn choose(
    ring: &Ring,
    which: Which,
    rtype: Option<RecordNo>,
    position: Option<DbKey>,
) -> Option<DbKey>
    requires fits { which_fits which ≡ true }
    requires position { (needs_position which && is_lost position (keys_in ring.now.occurrence)) ≡ false }
    ensures { result ≡ chosen which (has_type rtype) position (keys_in ring.now.occurrence) }
{
    match which {
        Which::First => ring.first(rtype),
        Which::Last => ring.last(rtype),
        Which::Next => next_member(ring, rtype, position),
        Which::Prior => prior_member(ring, rtype, position),
        Which::Nth(n) => ring.nth(rtype, n),
    }
}

// The member, or the cause if there is none.
fn member_found(
    ring: &Ring,
    which: Which,
    rtype: Option<RecordNo>,
    position: Option<DbKey>,
) -> Result<DbKey, Cause>
    requires { which_fits which ≡ true }
    ensures { result ≡ member_found which rtype position ring.now.occurrence }
{
    if !ring.is_present() {
        return Err(Cause::Deleted);
    }
    if loses_position(ring, which, &position) {
        return Err(Cause::PositionLost);
    }
    match choose(ring, which, rtype, position) {
        Some(key) => Ok(key),
        None => Err(Cause::End),
    }
}

/// The member of the current occurrence of a set, of a record type or of any.
pub(crate) fn find_member(
    schema: &Schema,
    unit: &Unit,
    held: &Held,
    which: Which,
    rtype: Option<RecordNo>,
    set: SetNo,
) -> Result<DbKey, Cause>
    requires { which_fits which ≡ true }
    ensures { result ≡ with_current (place_in schema.now unit.now set) (λ place. member_found which rtype place.at (occurrence_in held.now set place.owner)) }
{
    match unit.place_in(schema, set) {
        Some(place) => match occurrence(held, set, &place.owner) {
            Some(ring) => member_found(ring, which, rtype, place.at),
            None => Err(Cause::Deleted),
        },
        None => Err(Cause::NoSuchCurrent),
    }
}

// The first member with a sort key, or the cause if there is none.
fn sorted_found(ring: &Ring, value: &Value) -> Result<DbKey, Cause>
    ensures { result ≡ sorted_found value.now ring.now.occurrence }
{
    if !ring.is_present() {
        return Err(Cause::Deleted);
    }
    match ring.first_with_sort_key(value) {
        Some(key) => Ok(key),
        None => Err(Cause::NoneSatisfies),
    }
}

/// The first member of the current occurrence of a sorted set with this sort key.
pub(crate) fn find_by_sort_key(
    schema: &Schema,
    unit: &Unit,
    held: &Held,
    value: &Value,
    set: SetNo,
) -> Result<DbKey, Cause>
    ensures { result ≡ with_current (place_in schema.now unit.now set) (λ place. sorted_found value.now (occurrence_in held.now set place.owner)) }
{
    match unit.place_in(schema, set) {
        Some(place) => match occurrence(held, set, &place.owner) {
            Some(ring) => sorted_found(ring, value),
            None => Err(Cause::Deleted),
        },
        None => Err(Cause::NoSuchCurrent),
    }
}
