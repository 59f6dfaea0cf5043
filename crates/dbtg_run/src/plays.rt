//! The steps on the table: eight kinds that change a word or a view, and two loads. What a seat knows after each is its
//! clause `then` (specs/Inside/LatchRule). For each there is one public lemma in proofs/, which says that the step keeps the rule:
//!
//! | Step | Lemma | Made by |
//! |---|---|---|
//! | a look at an area's word, which changes nothing | `Steps.looks_at_area` | `Work::take_shared` |
//! | an area is taken beside others | `Steps.takes_area_shared` | `Work::take_shared` |
//! | an area is taken alone | `Steps.takes_area_alone` | `Work::take_alone` |
//! | a cell is taken, with its slot | `CellSteps.takes_cell` | `Work::take_cell` |
//! | a ticket is drawn: the one step that changes the history | `Tickets.draws` | `Work::commit` |
//! | a cell is put back | `CellSteps.puts_cell` | `Work::put_cell` |
//! | an area is left | `Steps.leaves_area` | `Work::leave_area` |
//! | a seat is cut from another | `Ends.splits` | `cut_off` |
//! | a seat joins another | `Ends.joins` | `join_to` |
//! | the seat of all units learns the history | `Ends.learns` | `learn` |
ghost use Rattle.std.specs.Prelude.{ℕ, List, [], true, false, None};
ghost use Rattle.dbtg_cells.specs.declared.cell.Cell.{Cell};
ghost use Rattle.dbtg_cells.specs.declared.name.CellName.{CellName};
ghost use Rattle.dbtg_unit.specs.declared.statement.Statement.{Statement};
ghost use Rattle.dbtg_unit.specs.declared.unit.Answer.{Answer};
ghost use Rattle.dbtg_unit.specs.declared.unit.Status.TheVariants.{Done};
ghost use Rattle.dbtg_unit.specs.declared.unit.Unit.{Unit};
ghost use Rattle.dbtg_run.specs.Inside.LatchRule.{LooksAtArea, TakesArea, LeavesArea, TakesCell, PutsCell, Draws, Learns, others_of, one_of, gathered, vacated};

use crate::view::SeatKnowledge;
use atomic_table::{Join, Play, Split};
use dbtg_cells::Cell;
use std::marker::{Brand, PhantomData};

/// A look at an area's word.
pub struct LookAtArea;

impl Play<Option<Cell>, SeatKnowledge> for LookAtArea {
    ghost then = { LooksAtArea };
}

/// An area is taken beside others that share it.
pub struct TakeShared;

impl Play<Option<Cell>, SeatKnowledge> for TakeShared {
    ghost then = { TakesArea false };
}

/// An area is taken that no other unit has.
pub struct TakeAlone;

impl Play<Option<Cell>, SeatKnowledge> for TakeAlone {
    ghost then = { TakesArea true };
}

/// The area that was taken last is left, while no cell is held.
pub struct LeaveArea;

impl Play<Option<Cell>, SeatKnowledge> for LeaveArea {
    ghost then = { LeavesArea };
}

/// A cell that is at home is taken.
pub struct TakeCell;

impl Play<Option<Cell>, SeatKnowledge> for TakeCell {
    ghost then = { TakesCell };
}

/// The cell that was taken last is put back, with the value that the database has.
pub struct PutCell;

impl Play<Option<Cell>, SeatKnowledge> for PutCell {
    ghost then = { PutsCell };
}

/// The result of a statement. The call that draws the ticket determines it.
pub trait Picked {
    ghost statement: { Statement };

    ghost answer: { Answer };

    ghost unit: { Unit };

    ghost held: { List (CellName × Cell) };
}

impl Picked for Brand {
    ghost statement = { Statement.Keep };

    ghost answer = { record { status = Done; key = None; items = None } };

    ghost unit = { record { number = 0; currency = record { run_unit = None; types = []; areas = []; sets = [] }; modes = []; kept = [] } };

    ghost held = { [] };
}

/// A ticket is drawn for a statement that has everything that it needs. From then on its cells are held with their new values.
pub struct Draw<O> {
    picked: PhantomData<O>,
}

impl<O: Picked> Play<Option<Cell>, SeatKnowledge> for Draw<O> {
    ghost then = { Draws O.statement O.answer O.unit O.held };
}

/// Loads the ticket counter. A seat with all units learns their history from it.
pub struct Learn;

impl Play<Option<Cell>, SeatKnowledge> for Learn {
    ghost then = { Learns };
}

/// The first unit of a seat gets a seat of its own.
pub struct OneOff;

impl Split<SeatKnowledge> for OneOff {
    ghost left = { others_of };

    ghost right = { one_of };
}

/// A seat takes in the units of another.
pub struct Gather;

impl Join<SeatKnowledge> for Gather {
    ghost both = { gathered };

    ghost spent = { vacated };
}
