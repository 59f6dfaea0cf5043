//! FIND by a key or a current: the record is there, or it is gone.
ghost use Rattle.std.specs.Prelude.{◌≡◌, option_and_then};
ghost use Rattle.dbtg_schema.specs.Lookups.{at};
ghost use Rattle.dbtg_unit.specs.Database.Statements.Found.{with_current};
ghost use Rattle.dbtg_unit.specs.Database.State.Units.{key_of_owner, place_in};
ghost use Rattle.dbtg_unit.specs.declared.unit.Cause.TheVariants.{Deleted};
ghost use Rattle.dbtg_plan.specs.Inside.Finding.{stored_or};

use crate::joining::current_owner;
use dbtg_cells::{DbKey, Owner};
use dbtg_schema::{AreaNo, RecordNo, Schema, SetNo};
use dbtg_unit::{Cause, Held, Unit, entry_at, stored};

/// The record, or the cause if it is not there.
pub(crate) fn stored_or(held: &Held, key: DbKey, cause: Cause) -> Result<DbKey, Cause>
    ensures { result ≡ stored_or cause held.now key }
{
    match stored(held, &key) {
        Some(_stored) => Ok(key),
        None => Err(cause),
    }
}

/// The record that is current, or the cause if there is none.
pub(crate) fn of_current(held: &Held, current: Option<DbKey>) -> Result<DbKey, Cause>
    ensures { result ≡ with_current current (stored_or Deleted held.now) }
{
    match current {
        Some(key) => stored_or(held, key, Cause::Deleted),
        None => Err(Cause::NoSuchCurrent),
    }
}

/// The current of a record type.
pub(crate) fn of_type(unit: &Unit, rtype: RecordNo) -> Option<DbKey>
    ensures { result ≡ at unit.now.currency.types rtype }
{
    entry_at(unit.currency.types.as_slice(), rtype.index() as usize)
}

/// The current of an area.
pub(crate) fn of_area(unit: &Unit, area: AreaNo) -> Option<DbKey>
    ensures { result ≡ at unit.now.currency.areas area }
{
    entry_at(unit.currency.areas.as_slice(), area.index() as usize)
}

/// The record that owns the current occurrence of a set.
pub(crate) fn owner_key(schema: &Schema, unit: &Unit, set: SetNo) -> Option<DbKey>
    ensures { result ≡ option_and_then (λ place. key_of_owner place.owner) (place_in schema.now unit.now set) }
{
    match current_owner(schema, unit, set) {
        Some(Owner::Rec(key)) => Some(key),
        _ => None,
    }
}
