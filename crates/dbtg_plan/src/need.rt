//! What a statement needs next: its areas in order, then its cells in order, then other guesses if the record that is held shows
//! them to be wrong. Nothing here takes memory.
ghost use Rattle.std.specs.Prelude.{◌≡◌, ◌==◌, not, true, false, None};
ghost use Rattle.std.specs.List.{find, list_any};
ghost use Rattle.dbtg_schema.specs.Sound.{IsSound};
ghost use Rattle.dbtg_unit.specs.Database.State.Base.{Database};
ghost use Rattle.dbtg_unit.specs.Database.State.Belongs.{IsUnitOf, IsWithin};
ghost use Rattle.dbtg_unit.specs.Hands.EditsOf.{is_delete};
ghost use Rattle.dbtg_unit.specs.Database.Statements.Checks.{refused_at_once};
ghost use Rattle.dbtg_unit.specs.Database.Statements.Fits.{fits};
ghost use Rattle.dbtg_unit.specs.Hands.Local.{Agrees};
ghost use Rattle.dbtg_unit.specs.Hands.NeedOrder.{IsAbove, IsInHeldArea, IsInTurn};
ghost use Rattle.dbtg_unit.specs.Hands.Needs.{areas_in_order, cells_of, first_missing, need};

use crate::finding::next_cell_of_find;
use crate::inserting::next_cell_of_insert;
use crate::missing::{missing, missing_slot};
use crate::modifying::next_cell_of_modify;
use crate::removing::next_cell_of_remove;
use crate::stale::need_of_guesses;
use crate::storing::next_cell_of_store;
use dbtg_cells::CellName;
use dbtg_schema::Schema;
use dbtg_unit::{Held, Need, Statement, Unit, next_area, refused_at_once};

// The first of a statement's cells that is not held.
fn next_cell(
    schema: &Schema,
    capacity: u16,
    unit: &Unit,
    statement: &Statement,
    held: &Held,
) -> Option<CellName>
    requires fits { fits schema.now statement.now ≡ true }
    requires of_schema { IsUnitOf schema.now unit.now }
    requires within { IsWithin capacity unit.now }
    requires other { is_delete statement.now ≡ false }
    ensures { (db : Database) → Agrees schema.now capacity db held.now unit.now → result ≡ first_missing held.now (cells_of schema.now capacity db unit.now held.now.guesses statement.now) }
{
    match statement {
        Statement::OpenArea { area, mode: _ } => missing(held, CellName::Usage(*area)),
        Statement::CloseArea(area) => missing(held, CellName::Usage(*area)),
        Statement::Find(_, form) => next_cell_of_find(schema, capacity, unit, form, held),
        Statement::Get(_) => missing_slot(held, unit.currency.run_unit),
        Statement::Store {
            rtype,
            items,
            suppress: _,
        } => next_cell_of_store(schema, unit, *rtype, items, held),
        Statement::Insert(set) => next_cell_of_insert(schema, unit, *set, held),
        Statement::Remove(set) => next_cell_of_remove(unit, *set, held),
        Statement::Modify { rtype, changes } => {
            next_cell_of_modify(schema, unit, *rtype, changes.get().as_slice(), held)
        }
        Statement::Keep => missing_slot(held, unit.currency.run_unit),
        // The contract: a DELETE is another crate's.
        Statement::Delete(_) => unreachable!(),
        Statement::Free { all: _ } => None,
    }
}

/// What a statement other than DELETE needs next, on every database to which these cells may belong. It lies above what was
/// taken in turn; a cell also lies in a held area.
pub fn next_need(
    schema: &Schema,
    capacity: u16,
    unit: &Unit,
    statement: &Statement,
    held: &Held,
) -> Need
    requires fits { fits schema.now statement.now ≡ true }
    requires of_schema { IsUnitOf schema.now unit.now }
    requires within { IsWithin capacity unit.now }
    requires other { is_delete statement.now ≡ false }
    ensures need { (db : Database) → Agrees schema.now capacity db held.now unit.now → result ≡ need schema.now capacity db unit.now held.now statement.now }
    ensures above { (db : Database) → IsSound schema.now → Agrees schema.now capacity db held.now unit.now → IsInTurn schema.now capacity db unit.now statement.now held.now → IsAbove statement.now held.now result }
    ensures in_area { (db : Database) → IsSound schema.now → Agrees schema.now capacity db held.now unit.now → IsInHeldArea schema.now held.now result }
{
    match refused_at_once(schema, capacity, unit, statement) {
        Some(_cause) => Need::Ready,
        None => match next_area(schema, unit, statement, held) {
            Some(area) => Need::Area(area),
            None => need_with_areas(schema, capacity, unit, statement, held),
        },
    }
}

/// What a statement other than DELETE needs next, if no check without cells refuses it and all its areas are held: on every
/// database to which these cells may belong.
pub fn need_with_areas(
    schema: &Schema,
    capacity: u16,
    unit: &Unit,
    statement: &Statement,
    held: &Held,
) -> Need
    requires fits { fits schema.now statement.now ≡ true }
    requires of_schema { IsUnitOf schema.now unit.now }
    requires within { IsWithin capacity unit.now }
    requires other { is_delete statement.now ≡ false }
    requires passed { refused_at_once schema.now capacity unit.now statement.now ≡ None }
    requires areas { find (λ a. not (list_any (λ b. b == a) held.now.areas)) (areas_in_order schema.now unit.now statement.now) ≡ None }
    ensures { (db : Database) → Agrees schema.now capacity db held.now unit.now → result ≡ need schema.now capacity db unit.now held.now statement.now }
{
    match next_cell(schema, capacity, unit, statement, held) {
        Some(name) => Need::Take(name),
        None => need_of_guesses(schema, unit, statement, held),
    }
}
