//! The calls of a program with threads: each makes a statement of a run-unit.
ghost use Rattle.std.specs.Prelude.{◌≡◌, ◌≢◌, ◌↔◌, ◌<◌, ◌≤◌, true, length};
ghost use Rattle.dbtg_unit.specs.Database.Statements.Fits.{fits};
ghost use Rattle.dbtg_run.specs.Drawn.{IsDone};
ghost use Rattle.dbtg_run.specs.Outcomes.{IfDone, IfNotDone, NeedsNoLatch};
ghost use Rattle.dbtg_run.specs.Inside.Tries.{AreUsedUp, Suffice};
ghost use Rattle.dbtg_run.specs.UnitView.{BelongsTo};

use crate::database::Database;
use crate::outcome::{Gate, NoGate, Outcome};
use crate::tries::Tries;
use crate::unit::RunUnit;
use dbtg_unit::{MOST_STATEMENTS, Statement};
use std::alloc::Global;
use std::sync::Wait;
use std::thread;

impl Database {
    /// Makes a statement of the unit. `tries` says how often it tries again when another unit is in the way; it waits for
    /// nobody. If the statement is not done, the unit holds nothing and is as it was.
    pub fn execute(
        &self,
        alloc: Global,
        unit: &mut RunUnit,
        statement: &Statement,
        tries: u32,
    ) -> Outcome
        requires belongs { BelongsTo self.now unit.old }
        requires fits { fits self.now.schema statement.now ≡ true }
        ensures belongs { BelongsTo self.now unit.new }
        ensures number { unit.new.unit.number ≡ unit.old.unit.number }
        ensures done { IfDone result (λ a. IsDone self.now.about unit.old.journal unit.new.journal unit.new.unit statement.now a) }
        ensures unchanged { IfNotDone result (unit.new ≡ unit.old) }
        ensures spent { (result ≡ Outcome.Spent) ↔ (MOST_STATEMENTS ≤ length unit.old.journal) }
        ensures free { NeedsNoLatch self.now.about unit.old.unit statement.now → result ≢ Outcome.Busy }
        ensures alone { self.now.about.units ≡ 1 → 0 < tries → result ≢ Outcome.Busy }
    {
        self.execute_at(alloc, unit, statement, tries, &NoGate)
    }

    /// Like `execute`. The gate is passed directly after the ticket, and after the last latch is left.
    pub fn execute_at<G: Gate>(
        &self,
        alloc: Global,
        unit: &mut RunUnit,
        statement: &Statement,
        tries: u32,
        gate: &G,
    ) -> Outcome
        requires belongs { BelongsTo self.now unit.old }
        requires fits { fits self.now.schema statement.now ≡ true }
        ensures belongs { BelongsTo self.now unit.new }
        ensures number { unit.new.unit.number ≡ unit.old.unit.number }
        ensures done { IfDone result (λ a. IsDone self.now.about unit.old.journal unit.new.journal unit.new.unit statement.now a) }
        ensures unchanged { IfNotDone result (unit.new ≡ unit.old) }
        ensures spent { (result ≡ Outcome.Spent) ↔ (MOST_STATEMENTS ≤ length unit.old.journal) }
        ensures free { NeedsNoLatch self.now.about unit.old.unit statement.now → result ≢ Outcome.Busy }
        ensures alone { self.now.about.units ≡ 1 → 0 < tries → result ≢ Outcome.Busy }
    {
        let mut tries = Tries::of(tries);
        unit.work.execute(alloc, self, statement, &mut tries, gate)
    }

    // One round of `insist`: a statement of the unit, with 64 tries. Also gives the tries, as they were used.
    fn round<G: Gate>(
        &self,
        alloc: Global,
        unit: &mut RunUnit,
        statement: &Statement,
        gate: &G,
    ) -> (Outcome, Tries)
        requires belongs { BelongsTo self.now unit.old }
        requires fits { fits self.now.schema statement.now ≡ true }
        ensures belongs { BelongsTo self.now unit.new }
        ensures number { unit.new.unit.number ≡ unit.old.unit.number }
        ensures done { IfDone result.0 (λ a. IsDone self.now.about unit.old.journal unit.new.journal unit.new.unit statement.now a) }
        ensures unchanged { IfNotDone result.0 (unit.new ≡ unit.old) }
        ensures spent { (result.0 ≡ Outcome.Spent) ↔ (MOST_STATEMENTS ≤ length unit.old.journal) }
        ensures given { result.1.given ≡ 64 }
        ensures busy { result.0 ≡ Outcome.Busy → AreUsedUp result.1 }
        ensures tries { IfDone result.0 (λ _. Suffice result.1) }
    {
        let mut tries = Tries::of(64);
        let outcome = unit.work.execute(alloc, self, statement, &mut tries, gate);
        (outcome, tries)
    }

    /// Tries a statement of the unit again and again, until it is done, spent or out of memory. Other units go on between tries.
    pub fn insist<R: Wait>(
        &self,
        rt: &R,
        alloc: Global,
        unit: &mut RunUnit,
        statement: &Statement,
    ) -> Outcome
        requires belongs { BelongsTo self.now unit.old }
        requires fits { fits self.now.schema statement.now ≡ true }
        ensures belongs { BelongsTo self.now unit.new }
        ensures number { unit.new.unit.number ≡ unit.old.unit.number }
        ensures done { IfDone result (λ a. IsDone self.now.about unit.old.journal unit.new.journal unit.new.unit statement.now a) }
        ensures unchanged { IfNotDone result (unit.new ≡ unit.old) }
        ensures spent { (result ≡ Outcome.Spent) ↔ (MOST_STATEMENTS ≤ length unit.old.journal) }
        ensures busy { result ≢ Outcome.Busy }
    {
        self.insist_at(rt, alloc, unit, statement, &NoGate)
    }

    /// Like `insist`. The gate is passed as by `execute_at`.
    pub fn insist_at<R: Wait, G: Gate>(
        &self,
        rt: &R,
        alloc: Global,
        unit: &mut RunUnit,
        statement: &Statement,
        gate: &G,
    ) -> Outcome
        requires belongs { BelongsTo self.now unit.old }
        requires fits { fits self.now.schema statement.now ≡ true }
        ensures belongs { BelongsTo self.now unit.new }
        ensures number { unit.new.unit.number ≡ unit.old.unit.number }
        ensures done { IfDone result (λ a. IsDone self.now.about unit.old.journal unit.new.journal unit.new.unit statement.now a) }
        ensures unchanged { IfNotDone result (unit.new ≡ unit.old) }
        ensures spent { (result ≡ Outcome.Spent) ↔ (MOST_STATEMENTS ≤ length unit.old.journal) }
        ensures busy { result ≢ Outcome.Busy }
    {
        'tries: for _ in rt.forever() {
            let (outcome, _) = self.round(alloc, unit, statement, gate);
            if !outcome.is_busy() {
                return outcome;
            }
            drop(outcome);
            thread::yield_now();
        }
        unreachable!()
    }
}
