//! Room in the cells that are held for what a statement adds, made before it changes anything. Their contents stay, and so does
//! the room that was made before.
ghost use Rattle.std.specs.Prelude.{◌≡◌, IsOk, OnOk};
ghost use Rattle.dbtg_cells.specs.Cells.{shown};
ghost use Rattle.dbtg_unit.specs.Hands.Making.{ShowsTheSame};
ghost use Rattle.dbtg_unit.specs.Hands.Reserving.{CanTakeMember, CanTakeUser, KeepRoom, KeepsOthers, OfHeld};
ghost use Rattle.dbtg_unit.specs.Inside.Reserving.{KeepsRoom};

use crate::held::Held;
use dbtg_cells::{Cell, CellName, DbKey};
use std::alloc::AllocError;

fn make_room_for_member(cell: &mut Cell, key: &DbKey) -> Result<(), AllocError>
    ensures same { shown cell.new ≡ shown cell.old }
    ensures room { OnOk result (CanTakeMember key.now cell.new) }
    ensures had_room { CanTakeMember key.now cell.old → IsOk result × (cell.new ≡ cell.old) }
    ensures earlier { KeepsRoom cell.old cell.new }
{
    match cell {
        Cell::Ring(ring) => {
            if ring.contains(*key) {
                Ok(())
            } else {
                ring.reserve_place(*key)
            }
        }
        _ => Ok(()),
    }
}

fn make_room_for_user(cell: &mut Cell) -> Result<(), AllocError>
    ensures same { shown cell.new ≡ shown cell.old }
    ensures room { OnOk result (CanTakeUser cell.new) }
    ensures had_room { CanTakeUser cell.old → IsOk result × (cell.new ≡ cell.old) }
    ensures earlier { KeepsRoom cell.old cell.new }
{
    match cell {
        Cell::Usage(usage) => usage.reserve_user(),
        _ => Ok(()),
    }
}

/// Makes room for a member in the ring with this name, if that ring is held and the key is not a member of it. If there is
/// room already it takes no memory.
pub fn reserve_member(held: &mut Held, name: &CellName, key: &DbKey) -> Result<(), AllocError>
    ensures same { ShowsTheSame held.old held.new }
    ensures others { KeepsOthers name.now held.old.cells held.new.cells }
    ensures room { OnOk result (OfHeld name.now held.new.cells (CanTakeMember key.now)) }
    ensures had_room { OfHeld name.now held.old.cells (CanTakeMember key.now) → IsOk result × (held.new ≡ held.old) }
    ensures earlier { KeepRoom held.old.cells held.new.cells }
{
    match held.cell_mut(name) {
        Some(cell) => make_room_for_member(cell, key),
        None => Ok(()),
    }
}

/// Makes room for another user in the usage cell with this name, if it is held. If there is room already it takes no
/// memory, so that one user is never given room twice.
pub fn reserve_user(held: &mut Held, name: &CellName) -> Result<(), AllocError>
    ensures same { ShowsTheSame held.old held.new }
    ensures others { KeepsOthers name.now held.old.cells held.new.cells }
    ensures room { OnOk result (OfHeld name.now held.new.cells CanTakeUser) }
    ensures had_room { OfHeld name.now held.old.cells CanTakeUser → IsOk result × (held.new ≡ held.old) }
    ensures earlier { KeepRoom held.old.cells held.new.cells }
{
    match held.cell_mut(name) {
        Some(cell) => make_room_for_user(cell),
        None => Ok(()),
    }
}
