//! Giving back what a unit at work has taken: each cell to its slot, then each area.
ghost use Rattle.std.specs.Prelude.{◌≡◌, ℕ, ◌+◌, ◌<◌, List, [], ◌∷◌, ◌++◌, cond, length};
ghost use Rattle.dbtg_cells.specs.declared.cell.Cell.{Cell};
ghost use Rattle.dbtg_cells.specs.declared.name.CellName.{CellName};
ghost use Rattle.dbtg_run.specs.Inside.Works.{Belongs, IsAtWork, IsSameUnit};

use crate::database::Database;
use crate::plays::{LeaveArea, PutCell};
use crate::work::Work;
use dbtg_cells::cell_number;

// The bit by which a unit has an area: one of the low eight if it shares it, one of the next eight if it has it alone.
fn latch_bit(exclusive: bool, place: u32) -> u32
    requires { place < 8 }
    ensures { result ≡ cond exclusive (8 + place) place }
{
    if exclusive { 8 + place } else { place }
}

impl Work {
    // Puts back the cell that was taken last.
    fn put_cell(&mut self, db: &Database)
        requires belongs { Belongs db.now self.old }
        requires work { IsAtWork self.old }
        requires some { 0 < length self.old.held.cells }
        ensures same { IsSameUnit self.old self.new }
        ensures work { IsAtWork self.new }
        ensures exclusive { self.new.exclusive ≡ self.old.exclusive }
        ensures held { (e : CellName × Cell) × (self.old.held.cells ≡ self.new.held.cells ++ e ∷ []) }
        ensures rest { self.new.held ≡ record self.old.held { cells = self.new.held.cells } }
    {
        let Some((name, cell)) = self.held.pop_cell() else {
            unreachable!()
        };
        let Some(number) = cell_number(&db.schema, db.about.capacity, &name) else {
            unreachable!()
        };
        let word = 1 + db.schema.areas().len() + number;
        let board = &db.board.shared;
        drop(board.exchange(&mut self.seat, number, Some(cell)));
        board.fetch_and::<PutCell>(&mut self.seat, word, 0);
    }

    // Puts all cells back.
    pub(crate) fn put_each_cell(&mut self, db: &Database)
        requires belongs { Belongs db.now self.old }
        requires work { IsAtWork self.old }
        ensures same { IsSameUnit self.old self.new }
        ensures work { IsAtWork self.new }
        ensures exclusive { self.new.exclusive ≡ self.old.exclusive }
        ensures held { self.new.held ≡ record self.old.held { cells = [] } }
    {
        'cells: while 0 < self.held.cell_count() {
            self.put_cell(db);
        }
    }

    // Leaves the area that was taken last.
    fn leave_area(&mut self, db: &Database)
        requires belongs { Belongs db.now self.old }
        requires work { IsAtWork self.old }
        requires some { 0 < length self.old.held.areas }
        requires no_cells { self.old.held.cells ≡ [] }
        ensures same { IsSameUnit self.old self.new }
        ensures work { IsAtWork self.new }
        ensures exclusive { self.new.exclusive ≡ self.old.exclusive }
        ensures held { (a : ℕ) × (self.old.held.areas ≡ self.new.held.areas ++ a ∷ []) }
        ensures rest { self.new.held ≡ record self.old.held { areas = self.new.held.areas } }
    {
        let Some(area) = self.held.pop_area() else {
            unreachable!()
        };
        let word = 1 + area.index() as usize;
        let bit = latch_bit(self.exclusive, self.unit.number as u32 - 1);
        db.board
            .shared
            .fetch_and::<LeaveArea>(&mut self.seat, word, !(1u64 << bit));
    }

    // Puts all cells back, then leaves all areas.
    pub(crate) fn give_back(&mut self, db: &Database)
        requires belongs { Belongs db.now self.old }
        requires work { IsAtWork self.old }
        ensures same { IsSameUnit self.old self.new }
        ensures work { IsAtWork self.new }
        ensures exclusive { self.new.exclusive ≡ self.old.exclusive }
        ensures held { self.new.held ≡ record self.old.held { areas = []; cells = [] } }
    {
        self.put_each_cell(db);
        'areas: while 0 < self.held.area_count() {
            self.leave_area(db);
        }
    }
}
