//! A way that programs can go round for ever, found among the turns that a search has noted.

ghost use Rattle.dbtg_explore.specs.Explored.{IsFirstEndless};
ghost use Rattle.dbtg_explore.specs.Inside.Steps.{AreAllFound};
ghost use Rattle.dbtg_explore.specs.Orders.{Meeting as MeetingOfPrograms};
ghost use Rattle.std.specs.Prelude.{IfOk};

use crate::explored::Endless;
use crate::known::Known;
use dbtg_rounds::{Edge, find_round};
use dbtg_schema::Row;
use std::alloc::{AllocError, Global};

/// A way round, if there is one: turns that lead to the first state in which one begins, and turns that go round it. These are all states,
/// and all turns from state to state.
pub fn endless_in(
    alloc: Global,
    found: &Known,
    edges: Vec<Edge>,
) -> Result<Option<Endless>, AllocError>
    requires { (m : MeetingOfPrograms) × AreAllFound m found.now.orders edges.items }
    ensures { (m : MeetingOfPrograms) → AreAllFound m found.now.orders edges.items → IfOk result (IsFirstEndless m) }
{
    let Some(round) = find_round(alloc, found.len(), edges)? else {
        return Ok(None);
    };
    let turns = Row::of(found.order(alloc, round.start)?);
    let round = Row::of(round.units);
    Ok(Some(Endless { turns, round }))
}
