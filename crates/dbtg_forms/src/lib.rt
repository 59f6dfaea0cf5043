//! Graphs whose links are ordered, and the numbers of their forms: two graphs have the same number just if they are isomorphic.
#![tactic(auto)]

mod component;
mod forms;
mod laws;
mod spelling;
mod vertex;

pub use forms::Forms;
pub use laws::{isomorphic_graphs_have_one_number, numbers_stay};
pub use vertex::Vertex;
