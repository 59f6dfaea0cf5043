//! The spelling of a component of a graph, from one of its vertices.
ghost use Rattle.std.specs.Prelude.{◌≡◌, ◌==◌, ◌++◌, IfOk, OnOk, map};
ghost use Rattle.std.specs.List.{position};
ghost use Rattle.dbtg_forms.specs.Forms.{place, spelling, vertex_numbers};

use crate::component::{component, label_of, links_of};
use crate::vertex::Vertex;
use std::alloc::{AllocError, Global};

fn find(order: &[u32], vertex: u32) -> Option<usize>
    ensures { result ≡ position (λ y. vertex == y) order.now }
{
    order.iter().position(|other| vertex == *other)
}

// Where a vertex stands in an order; behind all where it does not.
fn place(order: &[u32], vertex: u32) -> usize
    ensures { result ≡ place order.now vertex }
{
    find(order, vertex).unwrap_or(order.len())
}

// Appends where these vertices stand.
fn push_places(order: &[u32], vertices: &[u32], out: &mut Vec<u64>) -> Result<(), AllocError>
    ensures { OnOk result (out.new.items ≡ out.old.items ++ map (place order.now) vertices.now) }
{
    for vertex in vertices {
        out.push(place(order, *vertex) as u64)?;
    }
    Ok(())
}

// Appends a vertex, with the places of those to which its links lead.
fn spell_vertex(
    graph: &[Vertex],
    order: &[u32],
    vertex: u32,
    out: &mut Vec<u64>,
) -> Result<(), AllocError>
    ensures { OnOk result (out.new.items ≡ out.old.items ++ vertex_numbers graph.now order.now vertex) }
{
    let links = links_of(graph, vertex);
    out.push(label_of(graph, vertex) as u64)?;
    out.push(links.len() as u64)?;
    push_places(order, links, out)
}

/// The component of a vertex, seen from it.
pub(crate) fn spelling(alloc: Global, graph: &[Vertex], root: u32) -> Result<Vec<u64>, AllocError>
    ensures { IfOk result (λ numbers. numbers.items ≡ spelling graph.now root) }
{
    let order = component(alloc, graph, root)?;
    let mut numbers = Vec::new(alloc);
    for vertex in &order {
        spell_vertex(graph, order.as_slice(), *vertex, &mut numbers)?;
    }
    Ok(numbers)
}
