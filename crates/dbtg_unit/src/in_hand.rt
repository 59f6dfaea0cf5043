//! What is read from the cells that are held. Nothing here takes memory.
ghost use Rattle.std.specs.Prelude.{◌≡◌, ℕ, ◌+◌, [], is_some, option_and_then, option_copied, option_map, unwrap_or};
ghost use Rattle.dbtg_schema.specs.Lookups.{at, first_cause};
ghost use Rattle.dbtg_unit.specs.Database.Statements.Checks.{own_checks};
ghost use Rattle.dbtg_unit.specs.Database.State.CellNames.{place_of};
ghost use Rattle.dbtg_unit.specs.Hands.InHand.{extent_in, in_hand, numbers_in, occurrence_in, owner_in, stored_in, stored_of, usage_in, users_in, version_in};
ghost use Rattle.dbtg_unit.specs.Hands.Making.{HaveNextVersions};

use crate::held::Held;
use crate::unit::{Cause, Unit};
use dbtg_cells::{Cell, CellName, DbKey, Extent, Owner, Owners, Ring, Stored, Usage, owner_eq};
use dbtg_schema::{AreaNo, RecordNo, SetNo};

/// The name of an owner's ring in a set.
pub fn ring_name(set: SetNo, owner: &Owner) -> CellName
    ensures { result ≡ CellName.Ring set (place_of owner.now) }
{
    match owner {
        Owner::System => CellName::Ring(set, None),
        Owner::Rec(key) => CellName::Ring(set, Some((key.rtype, key.number))),
    }
}

/// The record of this generation, if the cell is a slot that has it.
pub(crate) fn stored_of<'a>(cell: Option<&'a Cell>, generation: u8) -> Option<&'a Stored>
    ensures { option_copied result ≡ stored_of generation (option_copied cell.entry) }
{
    match cell {
        Some(Cell::Slot(slot)) => match slot.record() {
            Some(stored) if stored.generation == generation => Some(stored),
            _ => None,
        },
        _ => None,
    }
}

/// The record of a key, if its slot is held and has that record.
pub fn stored<'a>(held: &'a Held, key: &DbKey) -> Option<&'a Stored>
    ensures { option_copied result ≡ stored_in held.now key.now }
{
    stored_of(
        held.cell(&CellName::Slot(key.rtype, key.number)),
        key.generation,
    )
}

/// The version that a held record has once it is changed.
#[tactic(auto, using(crate::proofs::Hands::Reading::NextVersions::has_next_version))]
pub fn next_version(held: &Held, key: &DbKey) -> u64
    requires { HaveNextVersions held.now.cells }
    ensures { result ≡ version_in held.now key.now + 1 }
{
    match stored(held, key) {
        Some(stored) => stored.version + 1,
        None => 1,
    }
}

/// The owner of a record in a set, from its slot, which is held.
pub fn owner_in(held: &Held, set: SetNo, key: &DbKey) -> Option<Owner>
    ensures { result ≡ owner_in held.now set key.now }
{
    match stored(held, key) {
        Some(stored) => stored.owners.get(set.index() as usize),
        None => None,
    }
}

/// The owners of a record, by set, from its slot; there are none if the slot is not held or has another record.
pub fn owners_of(held: &Held, key: &DbKey) -> Owners
    ensures { (s : ℕ) → at result s ≡ owner_in held.now s key.now }
{
    match stored(held, key) {
        Some(stored) => stored.owners.all(),
        None => Owners::none(0),
    }
}

/// The ring of an owner in a set, if it is held and has that owner's occurrence.
pub fn occurrence<'a>(held: &'a Held, set: SetNo, owner: &Owner) -> Option<&'a Ring>
    ensures there { is_some result ≡ is_some (occurrence_in held.now set owner.now) }
    ensures value { option_and_then (λ r. r.occurrence) (option_copied result) ≡ occurrence_in held.now set owner.now }
{
    match held.cell(&ring_name(set, owner)) {
        Some(Cell::Ring(ring)) => match ring.owner() {
            Some(own) if owner_eq(own, *owner) => Some(ring),
            _ => None,
        },
        _ => None,
    }
}

/// The extent of a record type, if it is held.
pub fn numbers(held: &Held, rtype: RecordNo) -> Option<&Extent>
    ensures there { option_copied result ≡ extent_in held.now rtype }
    ensures value { unwrap_or (option_map (λ e. e.numbers) (option_copied result)) [] ≡ numbers_in held.now rtype }
{
    match held.cell(&CellName::Extent(rtype)) {
        Some(Cell::Extent(extent)) => Some(extent),
        _ => None,
    }
}

/// The usage cell of an area, if it is held.
pub fn usage(held: &Held, area: AreaNo) -> Option<&Usage>
    ensures there { option_copied result ≡ usage_in held.now area }
    ensures value { unwrap_or (option_map (λ u. u.users) (option_copied result)) [] ≡ users_in held.now area }
{
    match held.cell(&CellName::Usage(area)) {
        Some(Cell::Usage(usage)) => Some(usage),
        _ => None,
    }
}

/// Why a statement about a unit's current of run-unit is refused for the record itself: it is deleted, or it was changed since the
/// unit kept it.
pub fn own_refusal(held: &Held, unit: &Unit, key: &DbKey) -> Option<Cause>
    ensures { result ≡ first_cause (own_checks (in_hand held.now) unit.now key.now) }
{
    let Some(stored) = stored(held, key) else {
        return Some(Cause::Deleted);
    };
    match unit.kept_version(*key) {
        Some(version) if version != stored.version => Some(Cause::ChangedByAnother),
        _ => None,
    }
}
