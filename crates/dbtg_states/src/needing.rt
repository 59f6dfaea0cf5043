//! What a statement looks at in a database: the cells that it needs, one after another, until it needs no more.
ghost use Rattle.std.specs.Prelude.{◌≡◌, ◌<◌, ◌≤◌, ℕ, true, IfOk, IfSome, OnOk};
ghost use Rattle.std.specs.List.{list_all};
ghost use Rattle.dbtg_schema.specs.Sound.{IsSound};
ghost use Rattle.dbtg_cells.specs.CellNumbers.{is_cell};
ghost use Rattle.dbtg_unit.specs.Database.State.Base.{Database};
ghost use Rattle.dbtg_unit.specs.Database.State.Belongs.{IsUnitOf, IsWithin};
ghost use Rattle.dbtg_unit.specs.Database.Statements.Fits.{fits};
ghost use Rattle.dbtg_step.specs.Core.Whole.{state_now};
ghost use Rattle.dbtg_states.specs.Inside.InHand.{AreInHand};
ghost use Rattle.dbtg_states.specs.Looked.{AreLookedAt, IsReadyWith};

use crate::looks::Places;
use dbtg_cells::{CellName, Owners};
use dbtg_schema::{AreaNo, Schema};
use dbtg_step::{WholeDatabase, next_need, true_guesses};
use dbtg_unit::{Held, Need, Statement, Unit};
use std::alloc::{AllocError, Global};

// A statement that needs more than this is not remembered, since what it needs is asked from the beginning for each cell.
const MOST_NEEDS: u16 = 256;

/// Copies of cells of a database, which are held, and their names.
#[derive(Drop)]
pub struct InHand {
    pub held: Held,
    pub names: Vec<CellName>,
}

// All areas in hand, and no cell yet.
fn empty_hands(alloc: Global, schema: &Schema) -> Result<InHand, AllocError>
    ensures { IfOk result (λ hands. (db : Database) (capacity : ℕ) → AreInHand schema.now capacity db hands) }
{
    let mut held = Held::new(alloc, Owners::none(schema.sets().len()));
    for area in 0..schema.areas().len() as u8 {
        held.push_area(AreaNo::new(area))?;
    }
    let names = Vec::new(alloc);
    Ok(InHand { held, names })
}

// Takes a copy of a cell in hand. False if the database has no such cell, or it is in hand.
fn take_copy(
    alloc: Global,
    database: &WholeDatabase,
    name: CellName,
    hands: &mut InHand,
) -> Result<bool, AllocError>
    requires { AreInHand database.now.schema database.now.capacity (state_now database.now).database hands.old }
    ensures { OnOk result (AreInHand database.now.schema database.now.capacity (state_now database.now).database hands.new) }
{
    let Some(cell) = database.cell(&name) else {
        return Ok(false);
    };
    if hands.held.cell(&name).is_some() {
        return Ok(false);
    }
    let copy = cell.copy(alloc)?;
    hands.held.push_cell(name, copy)?;
    hands.names.push(name)?;
    Ok(true)
}

// Guesses the true owners. False if there is not one for each set.
fn guess_owners(schema: &Schema, maker: (&Unit, &Statement), hands: &mut InHand) -> bool
    requires fitting { fits schema.now maker.1.now ≡ true }
    requires hands { (capacity : ℕ) × (db : Database) × AreInHand schema.now capacity db hands.old }
    ensures { (capacity : ℕ) (db : Database) → AreInHand schema.now capacity db hands.old → AreInHand schema.now capacity db hands.new }
{
    let guesses = true_guesses(schema, maker.0, maker.1, &hands.held);
    if guesses.as_slice().len() != schema.sets().len() {
        return false;
    }
    hands.held.set_guesses(guesses);
    true
}

// The names of the cells that the statement of a unit needs, in the order in which it needs them; none if they are too many.
fn needed_by(
    alloc: Global,
    schema: &Schema,
    capacity: u16,
    database: &WholeDatabase,
    maker: (&Unit, &Statement),
) -> Result<Option<Vec<CellName>>, AllocError>
    requires schema { database.now.schema ≡ schema.now }
    requires capacity { database.now.capacity ≡ capacity }
    requires fitting { fits schema.now maker.1.now ≡ true }
    requires of_schema { IsUnitOf schema.now maker.0.now }
    requires within { IsWithin capacity maker.0.now }
    ensures { IfOk result (λ found. IfSome found (λ names. IsReadyWith schema.now capacity (state_now database.now).database maker.entry.0.now maker.entry.1.now names.items × (list_all (is_cell schema.now capacity) names.items ≡ true))) }
{
    let mut hands = empty_hands(alloc, schema)?;
    for _need in 0..MOST_NEEDS {
        let (unit, statement) = maker;
        let held = &hands.held;
        let need = next_need(alloc, schema, capacity, unit, statement, held, &mut None)?;
        let is_met = match need {
            Need::Ready => {
                let InHand { held: _, names } = hands;
                return Ok(Some(names));
            }
            Need::Take(name) => take_copy(alloc, database, name, &mut hands)?,
            Need::Stale => guess_owners(schema, maker, &mut hands),
            Need::Area(_) => false,
        };
        if !is_met {
            return Ok(None);
        }
    }
    Ok(None)
}

impl<'a> Places<'a> {
    /// The cells that the statement of this unit looks at in a database beside its unit, in the order in which it needs them; none if they
    /// are too many.
    pub fn needed_cells(
        &self,
        alloc: Global,
        database: &WholeDatabase,
        unit: u8,
        statement: &Statement,
    ) -> Result<Option<Vec<CellName>>, AllocError>
        requires sound { IsSound database.now.schema }
        requires schema { database.now.schema ≡ self.now.schema.now }
        requires capacity { database.now.capacity ≡ self.now.capacity }
        requires fitting { fits database.now.schema statement.now ≡ true }
        requires numbered { 0 < unit }
        requires within { unit ≤ database.now.units }
        ensures { IfOk result (λ found. IfSome found (λ names. AreLookedAt database.now.schema database.now.capacity (state_now database.now) unit statement.now names.items)) }
    {
        // Its history says that its units are of the schema.
        let _history = database.history();
        let maker = &database.units()[unit as usize - 1];
        let (schema, capacity) = (self.schema, self.capacity);
        needed_by(alloc, schema, capacity, database, (maker, statement))
    }
}
