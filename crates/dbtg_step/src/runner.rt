//! What the events change in a run-unit.
ghost use Rattle.std.specs.Prelude.{◌≡◌, ℕ, ◌<◌, ◌+◌, ◌∷◌, [], ◌++◌, OnOk, OnErr, Some, None, true, false, length, is_some, map, nat_lt, slice_get, IfOk};
ghost use Rattle.dbtg_step.specs.Machine.Network.{is_delete};
ghost use Rattle.dbtg_step.specs.Inside.Parts.{progress_while_held};
ghost use Rattle.dbtg_step.specs.Inside.Stands.{HasStatement, IsStanding};
ghost use Rattle.dbtg_unit.specs.declared.statement.Statement.{Statement};

use crate::parts::{StatementProgress, UnitState};
use dbtg_schema::Row;
use dbtg_unit::{Statement, Unit};
use std::alloc::{AllocError, Global};

/// The phase of a unit.
#[derive(Clone, Copy)]
pub enum Phase {
    /// It has nothing to do.
    Over,
    /// It is between statements, and there is a next one.
    Between,
    /// Its statement turns back, and still has a cell.
    TurningBack,
    /// Its statement takes what it needs.
    Needing,
    /// Its statement has its ticket.
    Ticketed,
}

/// The phase in which the unit is.
pub fn phase_of(runner: &UnitState) -> Phase
    requires { HasStatement runner.now }
    ensures { IsStanding runner.now result }
{
    match runner.progress {
        None => {
            if runner.script.len() <= runner.next {
                Phase::Over
            } else {
                Phase::Between
            }
        }
        Some(progress) => {
            if progress.ticket.is_some() {
                Phase::Ticketed
            } else if progress.turning_back && 0 < runner.held.cell_count() {
                Phase::TurningBack
            } else {
                Phase::Needing
            }
        }
    }
}

/// How far a unit in mid-statement is. It stands apart from the phase, so that each event reads of it only what it goes by.
pub fn progress_of(runner: &UnitState) -> StatementProgress
    requires { is_some runner.now.progress ≡ true }
    ensures { runner.now.progress ≡ Some result }
{
    match runner.progress {
        Some(progress) => progress,
        None => unreachable!(),
    }
}

/// The statement that is made, or comes next.
pub fn statement_of(runner: &UnitState) -> &Statement
    requires { runner.now.next < length runner.now.script }
    ensures { slice_get runner.now.script runner.now.next ≡ Some result.now }
{
    &runner.script.as_slice()[runner.next]
}

/// Whether the statement takes its areas exclusively.
fn is_delete(statement: &Statement) -> bool
    ensures { result ≡ is_delete statement.now }
{
    matches!(statement, Statement::Delete(_))
}

/// Begins the next statement; what is kept of the statement before it is dropped.
pub fn begin(runner: &mut UnitState)
    requires { runner.old.next < length runner.old.script }
    ensures { (x : Statement) → slice_get runner.old.script runner.old.next ≡ Some x → runner.new ≡ record runner.old { progress = Some (record { exclusive = is_delete x; turning_back = false; ticket = None; linked = 0 }); course = None } }
{
    let exclusive = is_delete(statement_of(runner));
    runner.progress = Some(StatementProgress {
        exclusive,
        turning_back: false,
        ticket: None,
        linked: 0,
    });
    runner.course = None;
}

/// Links a cell.
pub fn link(runner: &mut UnitState, progress: StatementProgress)
    requires { progress.linked < length runner.old.held.cells }
    ensures { runner.new ≡ record runner.old { progress = Some (record progress { linked = progress.linked + 1 }) } }
{
    // The number of cells fits a usize, and so does one link more.
    let _ = runner.held.cell_count();
    runner.progress = Some(StatementProgress {
        exclusive: progress.exclusive,
        turning_back: progress.turning_back,
        ticket: progress.ticket,
        linked: progress.linked + 1,
    });
}

/// Once nothing is held the statement is over.
pub fn close(runner: &mut UnitState)
    ensures { runner.new ≡ record runner.old { progress = progress_while_held runner.old.held.areas runner.old.held.cells runner.old.progress } }
{
    if runner.held.area_count() == 0 && runner.held.cell_count() == 0 {
        runner.progress = None;
    }
}

/// Turns back as long as a cell is held; what is kept of the cells that were held is dropped.
pub fn turn_back(runner: &mut UnitState, progress: StatementProgress)
    ensures { runner.new ≡ record runner.old { progress = Some (record progress { turning_back = nat_lt 0 (length runner.old.held.cells) }); course = None } }
{
    runner.progress = Some(StatementProgress {
        exclusive: progress.exclusive,
        turning_back: 0 < runner.held.cell_count(),
        ticket: progress.ticket,
        linked: progress.linked,
    });
    runner.course = None;
}

// The unit alone: everything else is dropped.
fn unit_of(runner: UnitState) -> Unit
    ensures { result ≡ runner.unit }
{
    let UnitState { unit, .. } = runner;
    unit
}

/// The units alone, in their order.
pub fn units_of(alloc: Global, runners: Vec<UnitState>) -> Result<Row<Unit>, AllocError>
    ensures { IfOk result (λ units. units ≡ map (λ r. r.unit) runners.items) }
{
    let mut units = Vec::with_capacity(alloc, runners.len())?;
    for runner in runners {
        units.push(unit_of(runner))?;
    }
    Ok(Row::of(units))
}
