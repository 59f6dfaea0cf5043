//! The names of the cells that edits change, in the order of the edits.
ghost use Rattle.std.specs.Prelude.{◌≡◌, ◌++◌, ◌∷◌, [], OnOk, map};
ghost use Rattle.dbtg_cells.specs.declared.name.CellName.TheVariants.{Extent};
ghost use Rattle.dbtg_unit.specs.Database.State.CellNames.{slot_name};
ghost use Rattle.dbtg_unit.specs.Hands.EditsOf.{edits_of_erased};

use crate::edit::CellEdit;
use crate::erased::Erased;
use dbtg_cells::{CellName, DbKey};
use std::alloc::AllocError;

fn add<T: Copy>(names: &mut Vec<T>, name: &T) -> Result<(), AllocError>
    ensures { OnOk result (names.new.items ≡ names.old.items ++ name.now ∷ []) }
{
    names.push(*name)?;
    Ok(())
}

// Adds the extents of these records.
fn add_extents(names: &mut Vec<CellName>, gone: &[DbKey]) -> Result<(), AllocError>
    ensures { OnOk result (names.new.items ≡ names.old.items ++ map (λ d. Extent d.rtype) gone.now) }
{
    for key in gone {
        add(names, &CellName::Extent(key.rtype))?;
    }
    Ok(())
}

// Adds the slots of these records.
fn add_slots(names: &mut Vec<CellName>, gone: &[DbKey]) -> Result<(), AllocError>
    ensures { OnOk result (names.new.items ≡ names.old.items ++ map slot_name gone.now) }
{
    for key in gone {
        add(names, &CellName::Slot(key.rtype, key.number))?;
    }
    Ok(())
}

/// Adds the name of the cell of each edit.
pub(crate) fn add_names(names: &mut Vec<CellName>, edits: &[CellEdit]) -> Result<(), AllocError>
    ensures { OnOk result (names.new.items ≡ names.old.items ++ map (λ e. e.name) edits.now) }
{
    for edit in edits {
        names.push(edit.name)?;
    }
    Ok(())
}

/// Adds the names of the cells that change when records go.
pub(crate) fn add_erased(names: &mut Vec<CellName>, erased: &Erased) -> Result<(), AllocError>
    ensures { OnOk result (names.new.items ≡ names.old.items ++ map (λ e. e.name) (edits_of_erased erased.now)) }
{
    add_extents(names, erased.gone.as_slice())?;
    add_names(names, erased.places.as_slice())?;
    names.extend_from_slice(erased.rings.as_slice())?;
    add_slots(names, erased.gone.as_slice())?;
    Ok(())
}
