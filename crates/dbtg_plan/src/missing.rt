//! The cells that are not held, in the order of taking. Nothing here takes memory.
ghost use Rattle.std.specs.Prelude.{◌≡◌, [], ◌∷◌};
ghost use Rattle.dbtg_unit.specs.Hands.Needs.{first_missing, is_missing, ring_names, slot_names};

use dbtg_cells::{CellName, DbKey, Owner};
use dbtg_schema::SetNo;
use dbtg_unit::Held;

/// Is the cell with this name not held?
#[tactic(auto, using(crate::proofs::Needs::FoundByName::missing_by_name))]
pub(crate) fn is_missing(held: &Held, name: &CellName) -> bool
    ensures { result ≡ is_missing held.now name.now }
{
    let cell = held.cell(name);
    !cell.is_some()
}

/// This cell, if it is not held.
pub(crate) fn missing(held: &Held, name: CellName) -> Option<CellName>
    ensures { result ≡ first_missing held.now (name ∷ []) }
{
    if is_missing(held, &name) {
        Some(name)
    } else {
        None
    }
}

/// The slot of a key, if there is one and it is not held.
pub(crate) fn missing_slot(held: &Held, key: Option<DbKey>) -> Option<CellName>
    ensures { result ≡ first_missing held.now (slot_names key) }
{
    let key = key?;
    missing(held, CellName::Slot(key.rtype, key.number))
}

/// The ring of an owner, if there is one and it is not held.
pub(crate) fn missing_ring(held: &Held, set: SetNo, owner: Option<Owner>) -> Option<CellName>
    ensures { result ≡ first_missing held.now (ring_names set owner) }
{
    match owner {
        Some(Owner::Rec(key)) => {
            missing(held, CellName::Ring(set, Some((key.rtype, key.number))))
        }
        Some(Owner::System) => missing(held, CellName::Ring(set, None)),
        None => None,
    }
}
