//! Names of cells in turn, and how many of them are held.
ghost use Rattle.std.specs.Prelude.{◌≡◌, ◌∷◌, ◌++◌, [], None, slice_get, take, OnOk};
ghost use Rattle.dbtg_unit.specs.Hands.Local.{holds};
ghost use Rattle.dbtg_erase.specs.Course.{ArePassed};
ghost use Rattle.dbtg_erase.specs.NextCell.{first_missing};

use dbtg_cells::CellName;
use dbtg_unit::Held;
use std::alloc::AllocError;

/// Names in turn, of which the first `passed` are held.
#[derive(Drop)]
pub(crate) struct Names {
    pub(crate) names: Vec<CellName>,
    pub(crate) passed: usize,
}

pub(crate) fn holds(held: &Held, name: &CellName) -> bool
    ensures { result ≡ holds held.now.cells name.now }
{
    match held.cell(name) {
        Some(_cell) => true,
        None => false,
    }
}

/// The cell with this name, if it is not held.
pub(crate) fn missing(held: &Held, name: CellName) -> Option<CellName>
    ensures { result ≡ first_missing held.now (name ∷ []) }
{
    if holds(held, &name) { None } else { Some(name) }
}

/// Appends a name.
pub(crate) fn add<T: Copy>(names: &mut Vec<T>, name: &T) -> Result<(), AllocError>
    ensures { OnOk result (names.new.items ≡ names.old.items ++ name.now ∷ []) }
{
    names.push(*name)?;
    Ok(())
}

// The place of the first that is not held, if those before `passed` are.
fn place_of_missing(held: &Held, names: &[CellName], passed: usize) -> usize
    requires { first_missing held.now (take passed names.now) ≡ None }
    ensures passed { first_missing held.now (take result names.now) ≡ None }
    ensures first { slice_get names.now result ≡ first_missing held.now names.now }
{
    for place in passed..names.len() {
        if !holds(held, &names[place]) {
            return place;
        }
    }
    names.len()
}

impl Names {
    /// None of these is passed yet.
    pub fn new(names: Vec<CellName>) -> Self
        ensures names { result.names ≡ names }
        ensures passed { result.passed ≡ 0 }
    {
        Self { names, passed: 0 }
    }

    /// The first that is not held; those before it are passed.
    pub fn next(&mut self, held: &Held) -> Option<CellName>
        requires { ArePassed held.now self.old }
        ensures next { result ≡ first_missing held.now self.old.names.items }
        ensures passed { ArePassed held.now self.new }
        ensures names { self.new.names ≡ self.old.names }
        ensures place { slice_get self.new.names.items self.new.passed ≡ result }
    {
        let place = place_of_missing(held, self.names.as_slice(), self.passed);
        self.passed = place;
        self.names.get(place).copied()
    }
}
