//! A way round that begins in a given state.

ghost use Rattle.std.specs.Prelude.{◌≡◌, ◌<◌, ℕ, List, None, true, false, Contains, IfOk, IfSome};
ghost use Rattle.dbtg_rounds.specs.Rounds.{HasEdge, IsRound, Leads};
ghost use Rattle.dbtg_rounds.specs.declared.edge.Edge.{Edge as EdgeOf};
ghost use Rattle.dbtg_rounds.specs.Inside.CutOff.{HasCutOff, IsCutOff};
ghost use Rattle.dbtg_rounds.specs.Inside.Graphs.{AreReversed};
ghost use Rattle.dbtg_rounds.specs.Inside.Reaching.{GoesOn, IsIn, LeadsIn, has_met, meets};

use crate::graph::Graph;
use crate::reach::reach;
use crate::walk::{Goal, Walk, walk_to};
use std::alloc::{AllocError, Global};

/// A way round: the state in which it begins, and the units that have the turns.
#[derive(Drop)]
pub struct Round {
    pub start: usize,
    pub units: Vec<u8>,
}

// Marks the states that lead to this one, and it.
fn leading_to(alloc: Global, back: &Graph, state: usize) -> Result<Vec<bool>, AllocError>
    requires { state < back.now.states }
    ensures forth { IfOk result (λ marks. (es : List EdgeOf) (i : ℕ) → AreReversed es back.now.edges → IsIn marks.items i → (us : List ℕ) × Leads es i us state) }
    ensures back { IfOk result (λ marks. (es : List EdgeOf) (i : ℕ) (us : List ℕ) → AreReversed es back.now.edges → Leads es i us state → IsIn marks.items i) }
{
    back.is_within();
    let all = Vec::from_elem(alloc, true, back.states())?;
    let reached = reach(alloc, back, state, all.as_slice())?;
    Ok(reached.seen)
}

// Goes on from the end of the turns to the goal, by way of marked states. Says whether there is a way.
fn go_on(
    alloc: Global,
    graph: &Graph,
    within: &[bool],
    taken: &mut Walk,
    goal: Goal,
) -> Result<bool, AllocError>
    requires end { taken.old.end < graph.now.states }
    ensures leads { IfOk result (λ there. there ≡ true → GoesOn graph.now.edges within.now taken.old taken.new) }
    ensures met { IfOk result (λ there. there ≡ true → has_met goal taken.new.units.items taken.new.end) }
    ensures none { IfOk result (λ there. there ≡ false → (us : List ℕ) (e : EdgeOf) → LeadsIn graph.now.edges within.now taken.old.end us e.from → Contains graph.now.edges e → IsIn within.now e.to → meets goal e ≡ true → ⊥) }
{
    match walk_to(alloc, graph, taken.end, within, goal)? {
        None => Ok(false),
        Some(further) => {
            taken.units.extend_from_slice(further.units.as_slice())?;
            taken.end = further.end;
            Ok(true)
        }
    }
}

// Goes on to a turn of the unit, unless the turns have one. Says whether there is a way.
fn go_on_to_turn(
    alloc: Global,
    graph: &Graph,
    within: &[bool],
    taken: &mut Walk,
    unit: u8,
) -> Result<bool, AllocError>
    requires end { IsIn within.now taken.old.end × (taken.old.end < graph.now.states) }
    ensures leads { IfOk result (λ there. there ≡ true → GoesOn graph.now.edges within.now taken.old taken.new) }
    ensures met { IfOk result (λ there. there ≡ true → Contains taken.new.units.items unit) }
    ensures none { IfOk result (λ there. there ≡ false → IsCutOff graph.now.edges within.now taken.old.end unit) }
{
    if taken.units.contains(&unit) {
        return Ok(true);
    }
    go_on(alloc, graph, within, taken, Goal::Unit(unit))
}

// Goes on to a state, unless the turns end there. Says whether there is a way.
fn go_on_to_state(
    alloc: Global,
    graph: &Graph,
    within: &[bool],
    taken: &mut Walk,
    state: usize,
) -> Result<bool, AllocError>
    requires end { IsIn within.now taken.old.end × (taken.old.end < graph.now.states) }
    ensures leads { IfOk result (λ there. there ≡ true → GoesOn graph.now.edges within.now taken.old taken.new) }
    ensures met { IfOk result (λ there. there ≡ true → taken.new.end ≡ state) }
    ensures none { IfOk result (λ there. there ≡ false → (us : List ℕ) → LeadsIn graph.now.edges within.now taken.old.end us state → ⊥) }
{
    if taken.end == state {
        return Ok(true);
    }
    go_on(alloc, graph, within, taken, Goal::State(state))
}

// Turns that lead from a state by way of marked states, with one of each unit that can have a turn there. None if one cannot be had.
fn take_each(
    alloc: Global,
    graph: &Graph,
    start: usize,
    within: &[bool],
) -> Result<Option<Walk>, AllocError>
    requires start { start < graph.now.states }
    requires marked { IsIn within.now start }
    ensures leads { IfOk result (λ found. IfSome found (λ w. LeadsIn graph.now.edges within.now start w.units.items w.end)) }
    ensures end { IfOk result (λ found. IfSome found (λ w. IsIn within.now w.end × (w.end < graph.now.states))) }
    ensures each { IfOk result (λ found. IfSome found (λ w. (u j : ℕ) → HasEdge graph.now.edges start u j → Contains w.units.items u)) }
    ensures none { IfOk result (λ found. found ≡ None → HasCutOff graph.now.edges within.now start) }
{
    graph.is_within();
    let mut taken = Walk {
        units: Vec::new(alloc),
        end: start,
    };
    for edge in graph.at(start) {
        if !go_on_to_turn(alloc, graph, within, &mut taken, edge.unit)? {
            return Ok(None);
        }
    }
    Ok(Some(taken))
}

/// A way round that begins in this state, if there is one. `back` has the edges of the graph, reversed.
pub(crate) fn round_from(
    alloc: Global,
    graph: &Graph,
    back: &Graph,
    start: usize,
) -> Result<Option<Round>, AllocError>
    requires start { start < graph.now.states }
    requires back { (back.now.states ≡ graph.now.states) × AreReversed graph.now.edges back.now.edges }
    ensures round { IfOk result (λ found. IfSome found (λ r. (r.start ≡ start) × IsRound graph.now.edges start r.units.items)) }
    ensures none { IfOk result (λ found. found ≡ None → (units : List ℕ) → IsRound graph.now.edges start units → ⊥) }
{
    if graph.at(start).is_empty() {
        return Ok(None);
    }
    let within = leading_to(alloc, back, start)?;
    let Some(mut taken) = take_each(alloc, graph, start, within.as_slice())? else {
        return Ok(None);
    };
    if !go_on_to_state(alloc, graph, within.as_slice(), &mut taken, start)? {
        return Ok(None);
    }
    Ok(Some(Round {
        start,
        units: taken.units,
    }))
}
