//! The table of cells, by their numbers.
ghost use Rattle.std.specs.Prelude.{◌≡◌, ℕ, ◌<◌, Some, length};
ghost use Rattle.dbtg_cells.specs.CellNumbers.{cell_number};
ghost use Rattle.dbtg_step.specs.Inside.Parts.{written_home};
ghost use Rattle.dbtg_step.specs.Inside.Stands.{HavePlaces};
ghost use Rattle.dbtg_step.specs.Inside.Leaves.{IsCellGiven};

use crate::parts::CellLocation;
use dbtg_cells::{Cell, CellName, cell_number};
use dbtg_schema::Schema;
use dbtg_unit::Held;

/// Puts a cell home, in its place in the table, if the schema has it.
pub fn put_home(
    schema: &Schema,
    capacity: u16,
    table: &mut Vec<CellLocation>,
    name: &CellName,
    cell: Cell,
)
    requires { (number : ℕ) → cell_number schema.now capacity name.now ≡ Some number → number < length table.old.items }
    ensures { table.new.items ≡ written_home schema.now capacity name.now cell table.old.items }
{
    if let Some(number) = cell_number(schema, capacity, name) {
        table[number] = CellLocation::Home(cell);
    }
}

/// The cell that was taken last goes home.
pub fn give_cell(schema: &Schema, capacity: u16, table: &mut Vec<CellLocation>, held: &mut Held)
    requires any { 0 < length held.old.cells }
    requires places { HavePlaces schema.now capacity held.old.cells table.old.items }
    ensures { IsCellGiven schema.now capacity held.old held.new table.old.items table.new.items }
{
    match held.pop_cell() {
        Some((name, cell)) => put_home(schema, capacity, table, &name, cell),
        None => unreachable!(),
    }
}
