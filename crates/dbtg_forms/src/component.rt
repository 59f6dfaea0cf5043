//! What hangs together with a vertex of a graph.
ghost use Rattle.std.specs.Prelude.{◌≡◌, IfOk, OnOk};
ghost use Rattle.dbtg_forms.specs.Graphs.{has, label_of, links_of};
ghost use Rattle.dbtg_forms.specs.Forms.{component, is_root, reached};

use crate::vertex::Vertex;
use std::alloc::{AllocError, Global};

// The label of a vertex; 0 where there is none.
pub(crate) fn label_of(graph: &[Vertex], vertex: u32) -> u32
    ensures { result ≡ label_of graph.now vertex }
{
    match graph.get(vertex as usize) {
        Some(vertex) => vertex.label,
        None => 0,
    }
}

// The vertices to which its links lead.
pub(crate) fn links_of(graph: &[Vertex], vertex: u32) -> &[u32]
    ensures { result.now ≡ links_of graph.now vertex }
{
    match graph.get(vertex as usize) {
        Some(vertex) => vertex.links.as_slice(),
        None => &[],
    }
}

fn has(vertices: &[u32], vertex: u32) -> bool
    ensures { result ≡ has vertices.now vertex }
{
    vertices.iter().any(|other| vertex == *other)
}

// Appends what is new among these.
fn reach(order: &mut Vec<u32>, vertices: &[u32]) -> Result<(), AllocError>
    ensures { OnOk result (order.new.items ≡ reached order.old.items vertices.now) }
{
    for vertex in vertices {
        if !has(order.as_slice(), *vertex) {
            order.push(*vertex)?;
        }
    }
    Ok(())
}

// All that hangs together with a vertex, in the order in which it is reached.
pub(crate) fn component(alloc: Global, graph: &[Vertex], root: u32) -> Result<Vec<u32>, AllocError>
    ensures { IfOk result (λ order. order.items ≡ component graph.now root) }
{
    let mut order = Vec::new(alloc);
    order.push(root)?;
    for at in 0..graph.len() {
        if at < order.len() {
            let vertex = order[at];
            reach(&mut order, links_of(graph, vertex))?;
        }
    }
    Ok(order)
}

// Whether no vertex beside this one has more links.
pub(crate) fn is_root(graph: &[Vertex], vertex: u32) -> bool
    ensures { result ≡ is_root graph.now vertex }
{
    let links = links_of(graph, vertex);
    links
        .iter()
        .all(|other| links_of(graph, *other).len() <= links.len())
}
