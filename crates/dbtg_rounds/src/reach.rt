//! What can be reached from a state, and by which turns.

ghost use Rattle.std.specs.Prelude.{◌≡◌, ◌<◌, ℕ, List, Bool, false, length, slice_index_or, IfOk, OnOk, slice_index};
ghost use Rattle.dbtg_rounds.specs.declared.edge.Edge.{Edge as EdgeOf};
ghost use Rattle.dbtg_rounds.specs.Inside.Reaching.{AreCounted, Grows, IsIn, IsReached, IsWidened, LeadsIn, Meets, is_in};

use crate::graph::Graph;
use std::alloc::{AllocError, Global};

/// A turn of a unit, in the state at an earlier place.
#[derive(Clone, Copy)]
pub(crate) struct Link {
    pub before: usize,
    pub unit: u8,
}

/// States that are reached from the first of them, in the order in which they were met; for each but the first the turn that led to it; and
/// for each state of the graph whether it was met.
#[derive(Drop)]
pub(crate) struct Reached {
    pub states: Vec<usize>,
    pub links: Vec<Link>,
    pub seen: Vec<bool>,
}

// Is the state marked?
pub(crate) fn is_in(marks: &[bool], state: usize) -> bool
    ensures { result ≡ is_in marks.now state }
{
    marks.get(state).copied().unwrap_or(false)
}

impl Reached {
    // This state alone, among this many.
    fn from(alloc: Global, states: usize, start: usize) -> Result<Self, AllocError>
        requires start { start < states }
        ensures reached { IfOk result (λ r. (es : List EdgeOf) (marks : List Bool) → IsReached es marks start r) }
        ensures counted { IfOk result AreCounted }
        ensures long { IfOk result (λ r. length r.seen.items ≡ states) }
    {
        let mut seen = Vec::from_elem(alloc, false, states)?;
        seen[start] = true;
        let mut met = Vec::new(alloc);
        met.push(start)?;
        Ok(Self {
            states: met,
            links: Vec::new(alloc),
            seen,
        })
    }

    // A turn of the unit leads from the state at a place to a state, which is appended if it was not met before.
    fn meet(&mut self, before: usize, unit: u8, state: usize) -> Result<(), AllocError>
        requires state { state < length self.old.seen.items }
        ensures { OnOk result (Meets before unit state self.old self.new) }
    {
        if !is_in(self.seen.as_slice(), state) {
            self.seen[state] = true;
            self.states.push(state)?;
            self.links.push(Link { before, unit })?;
        }
        Ok(())
    }

    // Appends the states to which the one at a place leads.
    fn widen(&mut self, graph: &Graph, within: &[bool], place: usize) -> Result<(), AllocError>
        requires place { place < length self.old.states.items }
        requires long { length self.old.seen.items ≡ graph.now.states }
        ensures grows { OnOk result (Grows graph.now.edges within.now self.old self.new) }
        ensures widened { OnOk result (IsWidened graph.now.edges within.now (slice_index self.old.states.items place) self.new) }
    {
        graph.is_within();
        for edge in graph.at(self.states[place]) {
            if is_in(within, edge.to as usize) {
                self.meet(place, edge.unit, edge.to as usize)?;
            }
        }
        Ok(())
    }

    /// The turns that lead to the state at a place.
    pub(crate) fn units_to(&self, alloc: Global, place: usize) -> Result<Vec<u8>, AllocError>
        requires reached { (es : List EdgeOf) × (marks : List Bool) × (start : ℕ) × IsReached es marks start self.now }
        requires place { place < length self.now.states.items }
        ensures { IfOk result (λ us. (es : List EdgeOf) (marks : List Bool) (start : ℕ) → IsReached es marks start self.now → LeadsIn es marks start us.items (slice_index_or self.now.states.items place 0)) }
    {
        let mut units = Vec::new(alloc);
        let mut at = place;
        while at > 0 {
            let link = self.links[at - 1];
            units.push(link.unit)?;
            at = link.before;
        }
        units.reverse();
        Ok(units)
    }
}

/// The states to which turns lead from a state by way of states that are marked. The first need not be marked.
pub(crate) fn reach(
    alloc: Global,
    graph: &Graph,
    start: usize,
    within: &[bool],
) -> Result<Reached, AllocError>
    requires start { start < graph.now.states }
    ensures reached { IfOk result (IsReached graph.now.edges within.now start) }
    ensures marks { IfOk result (λ r. length r.seen.items ≡ graph.now.states) }
    ensures all { IfOk result (λ r. (us : List ℕ) (j : ℕ) → LeadsIn graph.now.edges within.now start us j → IsIn r.seen.items j) }
{
    let mut reached = Reached::from(alloc, graph.states(), start)?;
    let mut place = 0;
    while place < reached.states.len() {
        reached.widen(graph, within, place)?;
        place += 1;
    }
    Ok(reached)
}
