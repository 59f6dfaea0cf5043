//! States in which no way round begins, by ranks that rise along no edge.

ghost use Rattle.std.specs.Prelude.{◌≡◌, ◌≢◌, ◌==◌, ◌⊎◌, ◌<◌, ℕ, true, length, IfOk};
ghost use Rattle.dbtg_rounds.specs.Rounds.{AreWithin};
ghost use Rattle.dbtg_rounds.specs.Inside.Reaching.{IsIn};
ghost use Rattle.dbtg_rounds.specs.Inside.Ruling.{AreFalling, AreLeft, AreRuled, LeavesRank, rank_of};

use crate::edge::Edge;
use crate::graph::Graph;
use crate::parts::guess_ranks;
use crate::reach::is_in;
use std::alloc::{AllocError, Global};

// Does the edge stay on one rank?
fn is_level(ranks: &[usize], edge: Edge) -> bool
    requires from { edge.from < length ranks.now }
    requires to { edge.to < length ranks.now }
    ensures { result ≡ (rank_of ranks.now edge.to == rank_of ranks.now edge.from) }
{
    ranks[edge.to as usize] == ranks[edge.from as usize]
}

// Does no edge lead to a higher rank?
fn are_falling(ranks: &[usize], edges: &[Edge]) -> bool
    requires within { AreWithin (length ranks.now) edges.now }
    ensures { result ≡ true → AreFalling ranks.now edges.now }
{
    for edge in edges {
        if ranks[edge.from as usize] < ranks[edge.to as usize] {
            return false;
        }
    }
    true
}

// Takes the mark from a place, if there is such a place.
fn unmark(marks: &mut [bool], place: usize)
    ensures { (i : ℕ) → IsIn marks.new i → IsIn marks.old i × (i ≢ place) }
{
    if place < marks.len() {
        marks[place] = false;
    }
}

// Marks ranks on which no turn of the unit stays.
fn ranks_left_by(
    alloc: Global,
    ranks: &[usize],
    edges: &[Edge],
    unit: u8,
) -> Result<Vec<bool>, AllocError>
    requires within { AreWithin (length ranks.now) edges.now }
    ensures { IfOk result (λ left. AreLeft ranks.now edges.now unit left.items) }
{
    let mut left = Vec::from_elem(alloc, true, ranks.len() + 1)?;
    for edge in edges {
        if edge.unit == unit && is_level(ranks, *edge) {
            unmark(left.as_mut_slice(), ranks[edge.from as usize]);
        }
    }
    Ok(left)
}

// Rules out the states in which the unit can have a turn, if their rank is marked.
fn rule_out(edges: &[Edge], ranks: &[usize], left: &[bool], unit: u8, ruled: &mut [bool])
    requires within { AreWithin (length ranks.now) edges.now }
    requires ruled { length ruled.old ≡ length ranks.now }
    ensures { (i : ℕ) → IsIn ruled.new i → IsIn ruled.old i ⊎ LeavesRank ranks.now edges.now unit left.now i }
{
    for edge in edges {
        if edge.unit == unit && is_in(left, ranks[edge.from as usize]) {
            ruled[edge.from as usize] = true;
        }
    }
}

// The greatest unit that has a turn.
fn last_unit(edges: &[Edge]) -> u8 {
    let mut last = 0;
    for edge in edges {
        if last < edge.unit {
            last = edge.unit;
        }
    }
    last
}

// Rules out, for each unit, the states in which it can have a turn, but none that stays on their rank; no state if ranks rise.
fn ruled_by(alloc: Global, edges: &[Edge], ranks: &[usize]) -> Result<Vec<bool>, AllocError>
    requires within { AreWithin (length ranks.now) edges.now }
    ensures { IfOk result (λ ruled. AreRuled edges.now ruled.items) }
{
    let mut ruled = Vec::from_elem(alloc, false, ranks.len())?;
    if !are_falling(ranks, edges) {
        return Ok(ruled);
    }
    for unit in 0..=last_unit(edges) {
        let left = ranks_left_by(alloc, ranks, edges, unit)?;
        rule_out(edges, ranks, left.as_slice(), unit, ruled.as_mut_slice());
    }
    Ok(ruled)
}

/// For each state whether it is ruled out that a way round begins in it. Those that are not need not have one. `back` has the edges of the
/// graph, reversed.
pub(crate) fn ruled_out(alloc: Global, graph: &Graph, back: &Graph) -> Result<Vec<bool>, AllocError>
    ensures { IfOk result (λ ruled. AreRuled graph.now.edges ruled.items) }
{
    graph.is_within();
    let ranks = guess_ranks(alloc, graph, back)?;
    ruled_by(alloc, graph.edges(), ranks.as_slice())
}
