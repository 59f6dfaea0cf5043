//! Who is told how far a search has come.

/// What is told how many states a search has found so far. It has no say in what the search comes to.
pub trait Watch {
    fn seen(&self, states: usize);
}
