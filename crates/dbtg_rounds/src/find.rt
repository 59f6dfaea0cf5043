//! The first way round.

ghost use Rattle.std.specs.Prelude.{◌≡◌, ◌≤◌, ℕ, List, None, IfOk, IfSome};
ghost use Rattle.dbtg_rounds.specs.Rounds.{AreWithin, IsRound};

use crate::edge::Edge;
use crate::graph::Graph;
use crate::reach::is_in;
use crate::round::{Round, round_from};
use crate::ruling::ruled_out;
use std::alloc::{AllocError, Global};

/// A way round that begins in the first state in which one can begin; none if there is no way round.
pub fn find_round(
    alloc: Global,
    states: usize,
    edges: Vec<Edge>,
) -> Result<Option<Round>, AllocError>
    requires within { AreWithin states edges.items }
    ensures round { IfOk result (λ found. IfSome found (λ r. IsRound edges.items r.start r.units.items)) }
    ensures first { IfOk result (λ found. IfSome found (λ r. (start : ℕ) (units : List ℕ) → IsRound edges.items start units → r.start ≤ start)) }
    ensures none { IfOk result (λ found. found ≡ None → (start : ℕ) (units : List ℕ) → IsRound edges.items start units → ⊥) }
{
    let graph = Graph::of(alloc, states, edges)?;
    let back = graph.reversed(alloc)?;
    let ruled = ruled_out(alloc, &graph, &back)?;
    for state in 0..states {
        if !is_in(ruled.as_slice(), state) {
            if let Some(round) = round_from(alloc, &graph, &back, state)? {
                return Ok(Some(round));
            }
        }
    }
    Ok(None)
}
