//! What a MODIFY names: items, and the sets in which it moves the record. Nothing here takes memory.
ghost use Rattle.std.specs.Prelude.{◌≡◌, ◌==◌, map};
ghost use Rattle.std.specs.List.{list_any};
ghost use Rattle.dbtg_schema.specs.Lookups.{some_and};
ghost use Rattle.dbtg_schema.specs.Structure.{calc_of, member_clause};
ghost use Rattle.dbtg_unit.specs.Database.Statements.Effect.{names_calc};

use crate::statement::Change;
use dbtg_schema::{ItemNo, RecordNo, Schema, SetNo};

/// Is this one of the changed items?
pub fn names_item(changes: &[Change], item: ItemNo) -> bool
    ensures changed { result ≡ list_any (λ c. c.item == item) changes.now }
    ensures named { result ≡ list_any (λ i. i == item) (map (λ c. c.item) changes.now) }
{
    for change in changes {
        if change.item.index() == item.index() {
            return true;
        }
    }
    false
}

/// Is this a sorted set of the record type whose key item is changed?
pub fn is_rekeyed_in(schema: &Schema, set: SetNo, rtype: RecordNo, changes: &[Change]) -> bool
    ensures { result ≡ some_and (λ m. some_and (λ i. list_any (λ j. j == i) (map (λ c. c.item) changes.now)) m.key) (member_clause schema.now set rtype) }
{
    match schema.member_clause(set, rtype) {
        Some(member) => {
            match member.key {
                Some(item) => names_item(changes, item),
                None => false,
            }
        }
        None => false,
    }
}

fn names_one(changes: &[Change], items: &[ItemNo]) -> bool
    ensures { result ≡ list_any (λ i. list_any (λ c. c.item == i) changes.now) items.now }
{
    for item in items {
        if names_item(changes, *item) {
            return true;
        }
    }
    false
}

/// Is a CALC item of the record type changed?
pub fn names_calc(schema: &Schema, rtype: RecordNo, changes: &[Change]) -> bool
    ensures { result ≡ names_calc schema.now rtype changes.now }
{
    match schema.calc_of(rtype) {
        Some(calc) => names_one(changes, calc.items.as_slice()),
        None => false,
    }
}
