//! Where a unit is, as one sees it from outside: what it has made, how much it holds in mid-statement, and what it took last of that.
ghost use Rattle.std.specs.Prelude.{◌≡◌, ℕ};
ghost use Rattle.dbtg_schema.specs.Lists.{Lists};
ghost use Rattle.dbtg_step.specs.Machine.Network.{network};
ghost use Rattle.dbtg_step.specs.Core.Parts.{unit_state_of};
ghost use Rattle.dbtg_step.specs.Core.Newest.{newest_of};
ghost use Rattle.dbtg_step.specs.Core.Positions.{position_of};

use crate::parts::UnitState;
use dbtg_cells::CellName;
use dbtg_schema::AreaNo;

/// How far a unit is with its statement: how many areas and cells it holds, whether it turns back, whether it has its ticket, and how
/// many of the cells are linked after the ticket.
#[derive(Clone, Copy)]
pub struct Progress {
    pub areas: usize,
    pub cells: usize,
    pub turning_back: bool,
    pub has_ticket: bool,
    pub linked: usize,
}

/// Where a unit is: how many statements of its script have their ticket, and in mid-statement its progress.
#[derive(Clone, Copy)]
pub struct Position {
    pub made: usize,
    pub progress: Option<Progress>,
}

fn progress_of(runner: &UnitState) -> Option<Progress>
    ensures { (schema : Lists) (capacity : ℕ) → result ≡ (position_of (network schema capacity) (unit_state_of schema capacity runner.now)).progress }
{
    let progress = runner.progress?;
    Some(Progress {
        areas: runner.held.area_count(),
        cells: runner.held.cell_count(),
        turning_back: progress.turning_back,
        has_ticket: progress.ticket.is_some(),
        linked: progress.linked,
    })
}

/// Where the unit is.
pub fn position_of(runner: &UnitState) -> Position
    ensures { (schema : Lists) (capacity : ℕ) → result ≡ position_of (network schema capacity) (unit_state_of schema capacity runner.now) }
{
    let left = runner.script.len().saturating_sub(runner.next);
    Position {
        made: runner.script.len() - left,
        progress: progress_of(runner),
    }
}

/// What a unit took last, of the areas and of the cells that it holds in mid-statement.
#[derive(Clone, Copy)]
pub struct Newest {
    pub area: Option<AreaNo>,
    pub cell: Option<CellName>,
}

/// What the unit took last.
pub fn newest_of(runner: &UnitState) -> Newest
    ensures { (schema : Lists) (capacity : ℕ) → result ≡ newest_of (unit_state_of schema capacity runner.now) }
{
    match runner.progress {
        None => Newest {
            area: None,
            cell: None,
        },
        Some(_) => Newest {
            area: runner.held.last_area(),
            cell: runner.held.last_name(),
        },
    }
}
