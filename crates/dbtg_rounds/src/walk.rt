//! Walks to a turn or a state.

ghost use Rattle.std.specs.Prelude.{◌≡◌, ◌<◌, ℕ, List, None, Contains, true, IfOk, IfSome};
ghost use Rattle.dbtg_rounds.specs.declared.edge.Edge.{Edge as EdgeOf};
ghost use Rattle.dbtg_rounds.specs.Inside.Reaching.{IsIn, IsReached, LeadsIn, has_met, meets};

use crate::edge::Edge;
use crate::graph::Graph;
use crate::reach::{Reached, is_in, reach};
use std::alloc::{AllocError, Global};

/// The goal of a walk: a turn of a unit, or a state.
#[derive(Clone, Copy)]
pub(crate) enum Goal {
    Unit(u8),
    State(usize),
}

/// Turns, and the state to which they lead.
#[derive(Drop)]
pub(crate) struct Walk {
    pub units: Vec<u8>,
    pub end: usize,
}

impl Goal {
    // Does a walk that ends with this edge reach it?
    fn is_met(self, edge: Edge) -> bool
        ensures { result ≡ meets self edge }
    {
        match self {
            Goal::Unit(unit) => edge.unit == unit,
            Goal::State(state) => edge.to as usize == state,
        }
    }
}

// An edge from a state to a marked state which reaches the goal.
fn last_edge(graph: &Graph, state: usize, within: &[bool], goal: Goal) -> Option<Edge>
    ensures edge { IfSome result (λ e. Contains graph.now.edges e × (e.from ≡ state)) }
    ensures met { IfSome result (λ e. IsIn within.now e.to × (meets goal e ≡ true)) }
    ensures none { result ≡ None → (e : EdgeOf) → Contains graph.now.edges e → e.from ≡ state → IsIn within.now e.to → meets goal e ≡ true → ⊥ }
{
    for edge in graph.at(state) {
        if is_in(within, edge.to as usize) && goal.is_met(*edge) {
            return Some(*edge);
        }
    }
    None
}

// A walk to the goal, by way of states that are reached.
fn walk_by(
    alloc: Global,
    graph: &Graph,
    reached: &Reached,
    within: &[bool],
    goal: Goal,
) -> Result<Option<Walk>, AllocError>
    requires reached { (start : ℕ) × IsReached graph.now.edges within.now start reached.now }
    ensures leads { IfOk result (λ found. IfSome found (λ w. (start : ℕ) → IsReached graph.now.edges within.now start reached.now → LeadsIn graph.now.edges within.now start w.units.items w.end)) }
    ensures within { IfOk result (λ found. IfSome found (λ w. IsIn within.now w.end)) }
    ensures met { IfOk result (λ found. IfSome found (λ w. has_met goal w.units.items w.end)) }
    ensures none { IfOk result (λ found. found ≡ None → (e : EdgeOf) → Contains reached.now.states.items e.from → Contains graph.now.edges e → IsIn within.now e.to → meets goal e ≡ true → ⊥) }
{
    for place in 0..reached.states.len() {
        if let Some(edge) = last_edge(graph, reached.states[place], within, goal) {
            let mut units = reached.units_to(alloc, place)?;
            units.push(edge.unit)?;
            let end = edge.to as usize;
            return Ok(Some(Walk { units, end }));
        }
    }
    Ok(None)
}

/// A shortest walk to the goal by way of states that are marked, if there is one. It has at least one turn, and the last reaches the goal.
pub(crate) fn walk_to(
    alloc: Global,
    graph: &Graph,
    start: usize,
    within: &[bool],
    goal: Goal,
) -> Result<Option<Walk>, AllocError>
    requires start { start < graph.now.states }
    ensures leads { IfOk result (λ found. IfSome found (λ w. LeadsIn graph.now.edges within.now start w.units.items w.end)) }
    ensures within { IfOk result (λ found. IfSome found (λ w. IsIn within.now w.end)) }
    ensures met { IfOk result (λ found. IfSome found (λ w. has_met goal w.units.items w.end)) }
    ensures none { IfOk result (λ found. found ≡ None → (us : List ℕ) (e : EdgeOf) → LeadsIn graph.now.edges within.now start us e.from → Contains graph.now.edges e → IsIn within.now e.to → meets goal e ≡ true → ⊥) }
{
    let reached = reach(alloc, graph, start, within)?;
    walk_by(alloc, graph, &reached, within, goal)
}
