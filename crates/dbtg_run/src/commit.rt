//! The ticket of a unit at work.
ghost use Rattle.std.specs.Prelude.{◌≡◌, ◌<◌, length, vec_len, vec_capacity, true};
ghost use Rattle.dbtg_unit.specs.Database.Statements.Fits.{fits};
ghost use Rattle.dbtg_unit.specs.Hands.EditsOf.{is_delete};
ghost use Rattle.dbtg_unit.specs.Hands.Making.{CanFinish, IsReady};
ghost use Rattle.dbtg_unit.specs.Hands.Prepared.{unit_after};
ghost use Rattle.dbtg_run.specs.Drawn.{IsDone};
ghost use Rattle.dbtg_run.specs.Inside.Drawn.{cells_after};
ghost use Rattle.dbtg_run.specs.Inside.Posed.{HoldsSo};
ghost use Rattle.dbtg_run.specs.Inside.Works.{Belongs, IsAtWork};

use crate::database::Database;
use crate::outcome::{Gate, Point};
use crate::plays::{Draw, Picked};
use crate::work::Work;
use dbtg_unit::{Answer, Entry, MOST_STATEMENTS, Prepared, Statement, finish};

impl Work {
    // Draws the ticket, and makes what was prepared. It takes no memory.
    pub(crate) fn commit<O: Picked, G: Gate>(
        &mut self,
        db: &Database,
        statement: Statement,
        noted: Answer,
        prepared: Prepared,
        gate: &G,
    ) -> Answer
        requires belongs { Belongs db.now self.old }
        requires work { IsAtWork self.old }
        requires room { (vec_len self.old.journal < vec_capacity self.old.journal) × (length self.old.journal.items < MOST_STATEMENTS) }
        requires fits { fits self.old.about.schema.value statement ≡ true }
        requires ready { IsReady self.old.about.schema.value self.old.about.capacity self.old.unit self.old.held statement }
        requires so { HoldsSo (is_delete statement) self.old.exclusive self.old.held }
        requires can { CanFinish self.old.about.schema.value self.old.about.capacity self.old.unit self.old.held statement prepared }
        requires noted { noted ≡ prepared.answer }
        requires picked { (O.statement ≡ statement) × (O.answer ≡ noted) × (O.unit ≡ unit_after self.old.about.schema.value prepared self.old.unit) × (O.held ≡ cells_after prepared self.old.held.cells) }
        ensures answer { result ≡ noted }
        ensures same { (self.new.about ≡ self.old.about) × (self.new.seat.table_id ≡ self.old.seat.table_id) × (self.new.unit.number ≡ self.old.unit.number) }
        ensures work { IsAtWork self.new }
        ensures done { IsDone self.new.about self.old.journal.items self.new.journal.items self.new.unit statement noted }
    {
        let ticket = db.board.shared.fetch_add::<Draw<O>>(&mut self.seat, 0, 1);
        gate.pass(self.unit.number, ticket, Point::Ticketed);
        self.journal.push_reserved(Entry {
            ticket,
            unit: self.unit.number,
            statement,
            answer: noted,
        });
        finish(&db.schema, prepared, &mut self.held, &mut self.unit)
    }
}
