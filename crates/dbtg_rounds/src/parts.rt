//! A guess at the parts of a graph: states that all lead to one another. Whoever relies on it checks it first.

ghost use Rattle.std.specs.Prelude.{◌≡◌, length, IfOk};

use crate::graph::Graph;
use std::alloc::{AllocError, Global};

// A search by depth.
#[derive(Drop)]
struct Search {
    // States, each with how many of its edges were followed.
    open: Vec<(usize, usize)>,
    // States, each after those to which it leads, unless they lead back to it.
    behind: Vec<usize>,
}

impl Search {
    fn new(alloc: Global) -> Self {
        Self {
            open: Vec::new(alloc),
            behind: Vec::new(alloc),
        }
    }

    // Gives a state this mark, and opens it, if it has none.
    fn meet(&mut self, state: usize, marks: &mut [usize], mark: usize) -> Result<(), AllocError> {
        if marks.get(state) == Some(&0) {
            marks[state] = mark;
            self.open.push((state, 0))?;
        }
        Ok(())
    }

    // Goes to the state and to those to which it leads, if they have no mark, and gives them this one.
    fn go_to(
        &mut self,
        graph: &Graph,
        start: usize,
        marks: &mut [usize],
        mark: usize,
    ) -> Result<(), AllocError> {
        self.meet(start, marks, mark)?;
        for _step in 0..graph.edges().len().saturating_add(graph.states()) {
            let Some((state, next)) = self.open.pop() else {
                return Ok(());
            };
            match graph.at(state).get(next) {
                None => self.behind.push(state)?,
                Some(edge) => {
                    self.open.push((state, next.saturating_add(1)))?;
                    self.meet(edge.to as usize, marks, mark)?;
                }
            }
        }
        Ok(())
    }
}

// All states, each after those to which it leads, unless they lead back to it.
fn all_behind(alloc: Global, graph: &Graph) -> Result<Vec<usize>, AllocError> {
    let mut marks = Vec::from_elem(alloc, 0usize, graph.states())?;
    let mut search = Search::new(alloc);
    for start in 0..graph.states() {
        search.go_to(graph, start, marks.as_mut_slice(), 1)?;
    }
    Ok(search.behind)
}

/// For each state the rank of its part: those of a part have the same rank, and the parts to which it leads have lower ones. `back` has the
/// edges of the graph, reversed. It is only a guess.
pub(crate) fn guess_ranks(
    alloc: Global,
    graph: &Graph,
    back: &Graph,
) -> Result<Vec<usize>, AllocError>
    ensures { IfOk result (λ ranks. length ranks.items ≡ graph.now.states) }
{
    let mut order = all_behind(alloc, graph)?;
    let mut ranks = Vec::from_elem(alloc, 0usize, graph.states())?;
    let mut search = Search::new(alloc);
    while let Some(last) = order.pop() {
        search.go_to(
            back,
            last,
            ranks.as_mut_slice(),
            order.len().saturating_add(1),
        )?;
    }
    Ok(ranks)
}
