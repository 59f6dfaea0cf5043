//! The records that a DELETE takes out of the held cells. There may be thousands: what goes with each is found by its key, and it
//! is all done without memory.
ghost use Rattle.std.specs.Prelude.{◌≡◌, [], ◌∷◌, map};
ghost use Rattle.dbtg_cells.specs.Cells.{shown};
ghost use Rattle.dbtg_unit.specs.declared.edit.Edit.TheVariants.{CloseRing, LeaveNumber, Vacate};
ghost use Rattle.dbtg_unit.specs.Hands.CanEdit.{CanEdit};
ghost use Rattle.dbtg_unit.specs.Hands.Edits.{edited};
ghost use Rattle.dbtg_unit.specs.Hands.EditsOf.{close_ring, edits_of_erased, leave_number, slot_edit};
ghost use Rattle.dbtg_unit.specs.Inside.Prepared.{erased_edits};
ghost use Rattle.dbtg_unit.specs.Hands.Making.{AreMade, CanEditHeld, CanMake};

use crate::apply::edit_extent;
use crate::edit::{CellEdit, Edit};
use crate::held::Held;
use crate::prepared::edit_each_cell;
use dbtg_cells::{Cell, CellName, DbKey};
use dbtg_schema::Row;

/// What is taken out with records that go.
#[derive(Drop)]
pub struct Erased {
    /// The records: their numbers are no longer live, and at the end their slots are vacated.
    pub gone: Row<DbKey>,
    /// The edits by which they leave the lists of owners that stay.
    pub places: Row<CellEdit>,
    /// The rings that they own, which are closed.
    pub rings: Row<CellName>,
}

fn leave_in(cell: &mut Cell, number: u32)
    requires { CanEdit (LeaveNumber number) cell.old }
    ensures { shown cell.new ≡ edited (LeaveNumber number) (shown cell.old) }
{
    match cell {
        Cell::Extent(extent) => edit_extent(extent, Edit::LeaveNumber { number }),
        Cell::Usage(_) | Cell::Ring(_) | Cell::Slot(_) => {}
    }
}

fn close(cell: &mut Cell)
    ensures { shown cell.new ≡ edited CloseRing (shown cell.old) }
{
    match cell {
        Cell::Ring(ring) => ring.close(),
        Cell::Usage(_) | Cell::Extent(_) | Cell::Slot(_) => {}
    }
}

fn vacate(cell: &mut Cell)
    ensures { shown cell.new ≡ edited Vacate (shown cell.old) }
{
    match cell {
        Cell::Slot(slot) => slot.vacate(),
        Cell::Usage(_) | Cell::Extent(_) | Cell::Ring(_) => {}
    }
}

fn leave_number(held: &mut Held, key: &DbKey)
    requires { CanEditHeld (leave_number key.now) held.old.cells }
    ensures made { AreMade (leave_number key.now ∷ []) held.old.cells held.new.cells }
    ensures areas { held.new.areas ≡ held.old.areas }
    ensures guesses { held.new.guesses ≡ held.old.guesses }
{
    match held.cell_mut(&CellName::Extent(key.rtype)) {
        Some(cell) => leave_in(cell, key.number),
        None => {}
    }
}

fn close_ring(held: &mut Held, name: &CellName)
    ensures made { AreMade (close_ring name.now ∷ []) held.old.cells held.new.cells }
    ensures areas { held.new.areas ≡ held.old.areas }
    ensures guesses { held.new.guesses ≡ held.old.guesses }
{
    match held.cell_mut(name) {
        Some(cell) => close(cell),
        None => {}
    }
}

fn vacate_slot(held: &mut Held, key: &DbKey)
    ensures made { AreMade (slot_edit key.now Vacate ∷ []) held.old.cells held.new.cells }
    ensures areas { held.new.areas ≡ held.old.areas }
    ensures guesses { held.new.guesses ≡ held.old.guesses }
{
    match held.cell_mut(&CellName::Slot(key.rtype, key.number)) {
        Some(cell) => vacate(cell),
        None => {}
    }
}

fn leave_each_number(held: &mut Held, gone: &[DbKey])
    requires { CanMake (map leave_number gone.now) held.old.cells }
    ensures made { AreMade (map leave_number gone.now) held.old.cells held.new.cells }
    ensures areas { held.new.areas ≡ held.old.areas }
    ensures guesses { held.new.guesses ≡ held.old.guesses }
{
    for key in gone {
        leave_number(held, key);
    }
}

fn close_each_ring(held: &mut Held, rings: &[CellName])
    requires { CanMake (map close_ring rings.now) held.old.cells }
    ensures made { AreMade (map close_ring rings.now) held.old.cells held.new.cells }
    ensures areas { held.new.areas ≡ held.old.areas }
    ensures guesses { held.new.guesses ≡ held.old.guesses }
{
    for name in rings {
        close_ring(held, name);
    }
}

fn vacate_each_slot(held: &mut Held, gone: &[DbKey])
    requires { CanMake (map (λ d. slot_edit d Vacate) gone.now) held.old.cells }
    ensures made { AreMade (map (λ d. slot_edit d Vacate) gone.now) held.old.cells held.new.cells }
    ensures areas { held.new.areas ≡ held.old.areas }
    ensures guesses { held.new.guesses ≡ held.old.guesses }
{
    for key in gone {
        vacate_slot(held, key);
    }
}

fn take_out(held: &mut Held, erased: Erased)
    requires { CanMake (edits_of_erased erased) held.old.cells }
    ensures made { AreMade (edits_of_erased erased) held.old.cells held.new.cells }
    ensures areas { held.new.areas ≡ held.old.areas }
    ensures guesses { held.new.guesses ≡ held.old.guesses }
{
    let Erased {
        gone,
        places,
        rings,
    } = erased;
    leave_each_number(held, gone.as_slice());
    edit_each_cell(held, places);
    close_each_ring(held, rings.as_slice());
    vacate_each_slot(held, gone.as_slice());
}

/// Takes out the records that go, if there are any.
pub(crate) fn erase(held: &mut Held, erased: Option<Erased>)
    requires { CanMake (erased_edits erased) held.old.cells }
    ensures made { AreMade (erased_edits erased) held.old.cells held.new.cells }
    ensures areas { held.new.areas ≡ held.old.areas }
    ensures guesses { held.new.guesses ≡ held.old.guesses }
{
    if let Some(erased) = erased {
        take_out(held, erased);
    }
}
