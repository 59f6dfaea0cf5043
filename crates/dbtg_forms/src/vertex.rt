//! Vertices of graphs.

/// A vertex of a graph: its label, and the places of the vertices to which its links lead, in order.
#[derive(Drop)]
pub struct Vertex {
    pub label: u32,
    pub links: Vec<u32>,
}
