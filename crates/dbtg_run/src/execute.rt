//! A statement of a unit at work: what it needs is taken, the ticket is drawn, and everything is given back.
ghost use Rattle.std.specs.Prelude.{◌≡◌, ◌≢◌, ◌↔◌, ◌<◌, ◌≤◌, ◌∷◌, [], true, length, IfOk, IfNone, IfSome, IsSome, OnErr};
ghost use Rattle.dbtg_unit.specs.Database.Statements.Fits.{fits};
ghost use Rattle.dbtg_unit.specs.Hands.Making.{CanFinish, IsReady};
ghost use Rattle.dbtg_unit.specs.Hands.EditsOf.{is_delete};
ghost use Rattle.dbtg_run.specs.Drawn.{IsDone};
ghost use Rattle.dbtg_run.specs.Outcomes.{IfDone, IfNotDone, NeedsNoLatch};
ghost use Rattle.dbtg_run.specs.Inside.Posed.{HoldsSo};
ghost use Rattle.dbtg_run.specs.Inside.Tries.{AreUsedUp, Suffice};
ghost use Rattle.dbtg_run.specs.Inside.Works.{Belongs, IsAtWork, IsSameUnit};

use crate::database::Database;
use crate::outcome::{Gate, Outcome, Point};
use crate::tries::Tries;
use crate::work::Work;
use dbtg_step::prepare;
use dbtg_unit::{Answer, MOST_STATEMENTS, Prepared, Statement};
use std::alloc::{AllocError, Global};
use std::marker::Brand;

// What was prepared, with a copy of its answer for the journal.
fn with_answer(prepared: Prepared) -> Result<(Prepared, Answer), AllocError>
    ensures same { IfOk result (λ made. made.0 ≡ prepared) }
    ensures noted { IfOk result (λ made. made.1 ≡ prepared.answer) }
{
    let noted = prepared.answer().copy()?;
    Ok((prepared, noted))
}

impl Work {
    // Prepares the statement on what is held.
    fn prepare_in_hand(
        &mut self,
        alloc: Global,
        db: &Database,
        statement: &Statement,
    ) -> Result<Prepared, AllocError>
        requires belongs { Belongs db.now self.old }
        requires work { IsAtWork self.old }
        requires fits { fits self.old.about.schema.value statement.now ≡ true }
        requires ready { IsReady self.old.about.schema.value self.old.about.capacity self.old.unit self.old.held statement.now }
        requires so { HoldsSo (is_delete statement.now) self.old.exclusive self.old.held }
        ensures same { IsSameUnit self.old self.new }
        ensures work { IsAtWork self.new }
        ensures ready { IsReady self.new.about.schema.value self.new.about.capacity self.new.unit self.new.held statement.now }
        ensures so { HoldsSo (is_delete statement.now) self.new.exclusive self.new.held }
        ensures can { IfOk result (λ plan. CanFinish self.new.about.schema.value self.new.about.capacity self.new.unit self.new.held statement.now plan) }
    {
        prepare(
            alloc,
            &db.schema,
            db.about.capacity,
            &self.unit,
            statement,
            &mut self.held,
        )
    }

    // Makes the statement on what is held, and enters a copy of it. All memory is taken before the ticket is drawn.
    fn make_in_hand<G: Gate>(
        &mut self,
        alloc: Global,
        db: &Database,
        statement: &Statement,
        gate: &G,
    ) -> Result<Answer, AllocError>
        requires belongs { Belongs db.now self.old }
        requires work { IsAtWork self.old }
        requires fits { fits self.old.about.schema.value statement.now ≡ true }
        requires room { length self.old.journal.items < MOST_STATEMENTS }
        requires ready { IsReady self.old.about.schema.value self.old.about.capacity self.old.unit self.old.held statement.now }
        requires so { HoldsSo (is_delete statement.now) self.old.exclusive self.old.held }
        ensures same { (self.new.about ≡ self.old.about) × (self.new.seat.table_id ≡ self.old.seat.table_id) × (self.new.unit.number ≡ self.old.unit.number) }
        ensures work { IsAtWork self.new }
        ensures done { IfOk result (λ a. IsDone self.old.about self.old.journal.items self.new.journal.items self.new.unit statement.now a) }
        ensures err { OnErr result ((self.new.unit ≡ self.old.unit) × (self.new.journal.items ≡ self.old.journal.items)) }
    {
        self.journal.reserve(1)?;
        let copy = statement.copy()?;
        let ready = self.prepare_in_hand(alloc, db, statement)?;
        let (prepared, noted) = with_answer(ready)?;
        Ok(self.commit::<Brand, G>(db, copy, noted, prepared, gate))
    }

    // Takes what the statement needs and makes it. None if the tries are used up.
    fn attempt<G: Gate>(
        &mut self,
        alloc: Global,
        db: &Database,
        statement: &Statement,
        tries: &mut Tries,
        gate: &G,
    ) -> Result<Option<Answer>, AllocError>
        requires belongs { Belongs db.now self.old }
        requires work { IsAtWork self.old }
        requires idle { (self.old.held.areas ≡ []) × (self.old.held.cells ≡ []) }
        requires fits { fits self.old.about.schema.value statement.now ≡ true }
        requires room { length self.old.journal.items < MOST_STATEMENTS }
        requires fresh { tries.old.vain ≡ 0 }
        ensures same { (self.new.about ≡ self.old.about) × (self.new.seat.table_id ≡ self.old.seat.table_id) × (self.new.unit.number ≡ self.old.unit.number) }
        ensures work { IsAtWork self.new }
        ensures done { IfOk result (λ o. IfSome o (λ a. IsDone self.old.about self.old.journal.items self.new.journal.items self.new.unit statement.now a)) }
        ensures none { IfOk result (λ o. IfNone o ((self.new.unit ≡ self.old.unit) × (self.new.journal.items ≡ self.old.journal.items))) }
        ensures err { OnErr result ((self.new.unit ≡ self.old.unit) × (self.new.journal.items ≡ self.old.journal.items)) }
        ensures given { tries.new.given ≡ tries.old.given }
        ensures tries { IfOk result (λ o. IfNone o (AreUsedUp tries.new) × IfSome o (λ _. Suffice tries.new)) }
        ensures free { NeedsNoLatch self.old.about self.old.unit statement.now → IfOk result (λ o. IsSome o) }
        ensures alone { self.old.about.units ≡ 1 → 0 < tries.old.given → IfOk result (λ o. IsSome o) }
    {
        if !self.gather(alloc, db, statement, tries)? {
            return Ok(None);
        }
        let answer = self.make_in_hand(alloc, db, statement, gate)?;
        Ok(Some(answer))
    }

    // The gate is passed after the last latch is left.
    fn pass_answered<G: Gate>(&self, gate: &G)
        requires idle { (self.now.held.areas ≡ []) × (self.now.held.cells ≡ []) }
    {
        if let Some(entry) = self.journal.as_slice().last() {
            gate.pass(entry.unit, entry.ticket, Point::Answered);
        }
    }

    /// Makes a statement. It waits for nobody.
    pub(crate) fn execute<G: Gate>(
        &mut self,
        alloc: Global,
        db: &Database,
        statement: &Statement,
        tries: &mut Tries,
        gate: &G,
    ) -> Outcome
        requires belongs { Belongs db.now self.old }
        requires work { IsAtWork self.old }
        requires idle { (self.old.held.areas ≡ []) × (self.old.held.cells ≡ []) }
        requires fits { fits self.old.about.schema.value statement.now ≡ true }
        requires fresh { tries.old.vain ≡ 0 }
        ensures same { (self.new.about ≡ self.old.about) × (self.new.seat.table_id ≡ self.old.seat.table_id) × (self.new.unit.number ≡ self.old.unit.number) }
        ensures work { IsAtWork self.new }
        ensures idle { (self.new.held.areas ≡ []) × (self.new.held.cells ≡ []) }
        ensures done { IfDone result (λ a. IsDone self.old.about self.old.journal.items self.new.journal.items self.new.unit statement.now a) }
        ensures unchanged { IfNotDone result ((self.new.unit ≡ self.old.unit) × (self.new.journal.items ≡ self.old.journal.items)) }
        ensures spent { (result ≡ Outcome.Spent) ↔ (MOST_STATEMENTS ≤ length self.old.journal.items) }
        ensures given { tries.new.given ≡ tries.old.given }
        ensures busy { result ≡ Outcome.Busy → AreUsedUp tries.new }
        ensures tries { IfDone result (λ _. Suffice tries.new) }
        ensures free { NeedsNoLatch self.old.about self.old.unit statement.now → result ≢ Outcome.Busy }
        ensures alone { self.old.about.units ≡ 1 → 0 < tries.old.given → result ≢ Outcome.Busy }
    {
        if self.journal.as_slice().len() >= MOST_STATEMENTS {
            return Outcome::Spent;
        }
        let attempted = self.attempt(alloc, db, statement, tries, gate);
        self.give_back(db);
        match attempted {
            Err(_) => Outcome::NoMemory,
            Ok(None) => Outcome::Busy,
            Ok(Some(answer)) => {
                self.pass_answered(gate);
                Outcome::Done(answer)
            }
        }
    }
}
