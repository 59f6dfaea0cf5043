//! Forms of graphs, each kept once under a number.
ghost use Rattle.std.specs.Prelude.{◌≡◌, ◌∷◌, [], IfOk, Some, map, slice_get};
ghost use Rattle.dbtg_interned.specs.Kept.{IsContents, Keeps};
ghost use Rattle.dbtg_forms.specs.Forms.{AreForms, HasNumber, KeepsForms, roots, spelling};

use crate::component::is_root;
use crate::spelling::spelling;
use crate::vertex::Vertex;
use dbtg_interned::Contents;
use std::alloc::{AllocError, Global};
use std::marker::Model;

/// Forms of graphs, each kept once under a number; the graphs themselves are not kept.
pub struct Forms {
    spellings: Contents,
    forms: Contents,
}

impl Drop for Forms {
    fn drop(self) {
        let Self {
            spellings: _,
            forms: _,
        } = self;
    }
}

impl Model for Forms {
    ghost use Rattle.dbtg_forms.specs.Forms.{KeptForms};

    ghost Value = { KeptForms };

    ghost view = { λ f. record { spellings = f.spellings; forms = f.forms } };
}

// The numbers of the spellings of all roots.
fn spell_roots(
    spellings: &mut Contents,
    alloc: Global,
    graph: &[Vertex],
) -> Result<Vec<u64>, AllocError>
    ensures sound { IsContents spellings.new }
    ensures keeps { Keeps spellings.old spellings.new }
    ensures numbers { IfOk result (λ numbers. map (slice_get spellings.new) numbers.items ≡ map Some (map (spelling graph.now) (roots graph.now))) }
{
    let mut numbers = Vec::new(alloc);
    spellings.each_list_stands_once();
    for place in 0..graph.len() {
        let vertex = place_number(place)?;
        if is_root(graph, vertex) {
            let spelled = spelling(alloc, graph, vertex)?;
            numbers.push(spellings.enter(alloc, spelled.as_slice())? as u64)?;
        }
    }
    Ok(numbers)
}

// A place as a number. One that needs more than 32 bits is refused as memory is.
fn place_number(place: usize) -> Result<u32, AllocError>
    ensures { IfOk result (λ n. n ≡ place) }
{
    if place > u32::MAX as usize {
        return Err(AllocError);
    }
    Ok(place as u32)
}

impl Forms {
    /// No graph has been entered.
    pub fn new(alloc: Global) -> Result<Self, AllocError>
        ensures sound { IfOk result AreForms }
        ensures none { IfOk result (λ kept. kept ≡ record { spellings = [] ∷ []; forms = [] ∷ [] }) }
    {
        let spellings = Contents::new(alloc)?;
        let forms = Contents::new(alloc)?;
        spellings.each_list_stands_once();
        forms.each_list_stands_once();
        Ok(Self { spellings, forms })
    }

    /// What holds of every value: each spelling and each form stands once.
    pub fn each_form_stands_once(&self)
        ensures { AreForms self.now }
    {
        self.spellings.each_list_stands_once();
        self.forms.each_list_stands_once();
    }

    /// The number of the form of a graph. A form that is new gets the next number; the first gets 1, unless its graph is empty.
    pub fn enter(&mut self, alloc: Global, graph: &[Vertex]) -> Result<u32, AllocError>
        ensures sound { AreForms self.new }
        ensures keeps { KeepsForms self.old self.new }
        ensures number { IfOk result (λ n. HasNumber self.new graph.now n) }
    {
        self.forms.each_list_stands_once();
        let mut numbers = spell_roots(&mut self.spellings, alloc, graph)?;
        numbers.sort_unstable();
        let number = self.forms.enter(alloc, numbers.as_slice())?;
        Ok(number)
    }
}
