//! FIND by CALC values: the numbers of a record type with the values, read from its extent.
ghost use Rattle.std.specs.Prelude.{◌≡◌};
ghost use Rattle.std.specs.Option.{option_copied};
ghost use Rattle.dbtg_schema.specs.Lookups.{at};
ghost use Rattle.dbtg_unit.specs.Database.Statements.Found.{with_current};
ghost use Rattle.dbtg_unit.specs.Hands.InHand.{numbers_in};
ghost use Rattle.dbtg_unit.specs.Inside.InHand.{values_of_key};
ghost use Rattle.dbtg_plan.specs.Inside.Finding.{calc_found, duplicate_found};

use crate::finding::current::of_type;
use crate::finding::numbered::key_of;
use dbtg_cells::{DbKey, Extent, Value};
use dbtg_schema::RecordNo;
use dbtg_unit::{Cause, Held, Unit, numbers};

/// The first record of a type with these CALC values.
pub(crate) fn find_calc(held: &Held, rtype: RecordNo, values: &[Value]) -> Result<DbKey, Cause>
    ensures { result ≡ calc_found rtype values.now (numbers_in held.now rtype) }
{
    match numbers(held, rtype) {
        Some(extent) => match key_of(extent, rtype, extent.first_with(values)) {
            Some(key) => Ok(key),
            None => Err(Cause::NoneSatisfies),
        },
        None => Err(Cause::NoneSatisfies),
    }
}

// The CALC values of a live record.
fn values_of<'a>(extent: &'a Extent, key: &DbKey) -> Option<&'a [Value]>
    ensures { option_copied result ≡ values_of_key extent.now.numbers key.now }
{
    if extent.generation(key.number) != key.generation {
        return None;
    }
    extent.values(key.number)
}

// The next record with the CALC values of another.
fn duplicate_found(extent: &Extent, rtype: RecordNo, key: &DbKey) -> Result<DbKey, Cause>
    ensures { result ≡ duplicate_found rtype extent.now.numbers key.now }
{
    match values_of(extent, key) {
        Some(values) => match key_of(extent, rtype, extent.next_with(values, key.number)) {
            Some(key) => Ok(key),
            None => Err(Cause::End),
        },
        None => Err(Cause::Deleted),
    }
}

/// The next record with the CALC values of the current of a record type.
pub(crate) fn find_duplicate(unit: &Unit, held: &Held, rtype: RecordNo) -> Result<DbKey, Cause>
    ensures { result ≡ with_current (at unit.now.currency.types rtype) (duplicate_found rtype (numbers_in held.now rtype)) }
{
    match of_type(unit, rtype) {
        Some(key) => match numbers(held, rtype) {
            Some(extent) => duplicate_found(extent, rtype, &key),
            None => Err(Cause::Deleted),
        },
        None => Err(Cause::NoSuchCurrent),
    }
}
