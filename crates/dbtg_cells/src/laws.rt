//! Laws of the definitions. The functions do nothing: their contracts are the laws.
ghost use Rattle.std.specs.Prelude.{◌≡◌, ℕ, Some, is_some};
ghost use Rattle.dbtg_schema.specs.Lists.{Lists};
ghost use Rattle.dbtg_cells.specs.declared.name.CellName.{CellName};
ghost use Rattle.dbtg_cells.specs.CellNumbers.{cell_number, cell_at, is_cell};

/// A name has a number exactly if it is a cell of the schema at the capacity.
pub fn cells_have_numbers()
    ensures { (schema : Lists) (capacity : ℕ) (name : CellName) → is_some (cell_number schema capacity name) ≡ is_cell schema capacity name }
{}

/// If a cell has a number, it is the cell at that number.
pub fn a_cell_stands_at_its_number()
    ensures { (schema : Lists) (capacity number : ℕ) (name : CellName) → cell_number schema capacity name ≡ Some number → cell_at schema capacity number ≡ Some name }
{}

/// The cell at a number has that number: no cell is there twice.
pub fn each_cell_stands_once()
    ensures { (schema : Lists) (capacity number : ℕ) (name : CellName) → cell_at schema capacity number ≡ Some name → cell_number schema capacity name ≡ Some number }
{}
