//! A unit at work: each step takes or gives one latch.
ghost use Rattle.std.specs.Prelude.{◌≡◌, ◌≢◌, ℕ, ◌+◌, ◌-◌, ◌*◌, ◌^◌, ◌<◌, ◌≤◌, List, [], ◌∷◌, ◌++◌, length, vec_len, vec_capacity, true, false, None, Some, IsTrue, IfOk, OnErr, MatchBool};
ghost use Rattle.dbtg_cells.specs.declared.cell.Cell.{Cell};
ghost use Rattle.dbtg_cells.specs.declared.name.CellName.{CellName};
ghost use Rattle.dbtg_cells.specs.CellNumbers.{cell_number};
ghost use Rattle.dbtg_unit.specs.declared.held.Need.{Need};
ghost use Rattle.dbtg_unit.specs.declared.held.Need.TheVariants.{Stale, Take};
ghost use Rattle.dbtg_unit.specs.Database.State.Base.{Database as Db};
ghost use Rattle.dbtg_unit.specs.Hands.EditsOf.{is_delete};
ghost use Rattle.dbtg_unit.specs.Database.Statements.Fits.{fits};
ghost use Rattle.dbtg_unit.specs.Hands.Local.{Agrees};
ghost use Rattle.dbtg_unit.specs.Hands.Making.{IsReady};
ghost use Rattle.dbtg_unit.specs.Hands.Needs.{need};
ghost use Rattle.dbtg_step.specs.Machine.Network.{noted_owners};
ghost use Rattle.dbtg_step.specs.Core.Courses.{CourseMatches};
ghost use Rattle.dbtg_step.specs.Inside.Courses.{HasMore};
ghost use Rattle.dbtg_step.specs.Inside.Events.{HaveRings};
ghost use Rattle.dbtg_run.specs.Inside.Posed.{HoldsSo, turns_left};
ghost use Rattle.dbtg_run.specs.Inside.Tries.{AreUsedUp, IsVain, Suffice};
ghost use Rattle.dbtg_run.specs.Inside.Views.{times};
ghost use Rattle.dbtg_run.specs.Inside.LatchRule.{area_count};
ghost use Rattle.dbtg_run.specs.Inside.Works.{Belongs, IsAtWork, IsSameUnit, KnowsBetter};

use crate::database::Database;
use crate::plays::{LookAtArea, PutCell, TakeAlone, TakeCell, TakeShared};
use crate::tries::Tries;
use crate::work::Work;
use dbtg_cells::{CellName, Owners, cell_number};
use dbtg_schema::AreaNo;
use dbtg_step::{Course, next_need, true_guesses};
use dbtg_unit::{Need, Statement};
use std::alloc::{AllocError, Global};

fn is_delete(statement: &Statement) -> bool
    ensures { result ≡ is_delete statement.now }
{
    matches!(statement, Statement::Delete(_))
}

fn is_ready(wanted: &Wanted) -> bool
    ensures { MatchBool result (wanted.now.need ≡ Need.Ready) (wanted.now.need ≢ Need.Ready) }
{
    matches!(wanted.need, Need::Ready)
}

// What a unit at work needs next, and the guesses with which it goes on where its own are wrong.
#[derive(Drop)]
pub(crate) struct Wanted {
    pub(crate) need: Need,
    pub(crate) guesses: Owners,
}

// Forgets what is settled about the needs.
fn forget(course: &mut Option<Course>)
    ensures { course.new ≡ None }
{
    drop(course.take());
}

impl Work {
    // Takes an area beside others that share it. False if another unit has it alone, or changed its word meanwhile.
    fn take_shared(&mut self, db: &Database, area: AreaNo) -> Result<bool, AllocError>
        requires belongs { Belongs db.now self.old }
        requires work { IsAtWork self.old }
        requires area { (area < area_count self.old.about) × (times area self.old.held.areas ≡ 0) }
        requires so { HoldsSo false self.old.exclusive self.old.held }
        ensures same { IsSameUnit self.old self.new }
        ensures work { IsAtWork self.new }
        ensures took { IfOk result (λ b. MatchBool b ((self.new.held ≡ record self.old.held { areas = self.old.held.areas ++ area ∷ [] }) × (self.new.exclusive ≡ false)) ((self.new.held ≡ self.old.held) × (self.new.exclusive ≡ self.old.exclusive))) }
        ensures err { OnErr result ((self.new.held ≡ self.old.held) × (self.new.exclusive ≡ self.old.exclusive)) }
        ensures alone { self.old.about.units ≡ 1 → IfOk result (λ b. b ≡ true) }
    {
        let word = 1 + area.index() as usize;
        let place = self.unit.number as u32 - 1;
        let board = &db.board.shared;
        let seen = board.load::<LookAtArea>(&mut self.seat, word);
        if seen >= 256 {
            return Ok(false);
        }
        self.held.push_area(area)?;
        let new = seen | (1u64 << place);
        let found = board.compare_exchange::<TakeShared>(&mut self.seat, word, seen, new);
        if found != seen {
            self.held.pop_area();
            return Ok(false);
        }
        self.exclusive = false;
        Ok(true)
    }

    // Takes an area alone. False if another unit has it.
    fn take_alone(&mut self, db: &Database, area: AreaNo) -> Result<bool, AllocError>
        requires belongs { Belongs db.now self.old }
        requires work { IsAtWork self.old }
        requires area { (area < area_count self.old.about) × (times area self.old.held.areas ≡ 0) }
        requires so { HoldsSo true self.old.exclusive self.old.held }
        ensures same { IsSameUnit self.old self.new }
        ensures work { IsAtWork self.new }
        ensures took { IfOk result (λ b. MatchBool b ((self.new.held ≡ record self.old.held { areas = self.old.held.areas ++ area ∷ [] }) × (self.new.exclusive ≡ true)) ((self.new.held ≡ self.old.held) × (self.new.exclusive ≡ self.old.exclusive))) }
        ensures err { OnErr result ((self.new.held ≡ self.old.held) × (self.new.exclusive ≡ self.old.exclusive)) }
        ensures alone { self.old.about.units ≡ 1 → IfOk result (λ b. b ≡ true) }
    {
        let word = 1 + area.index() as usize;
        let place = self.unit.number as u32 - 1;
        self.held.push_area(area)?;
        let new = 1u64 << (8 + place);
        let found = db
            .board
            .shared
            .compare_exchange::<TakeAlone>(&mut self.seat, word, 0, new);
        if found != 0 {
            self.held.pop_area();
            return Ok(false);
        }
        self.exclusive = true;
        Ok(true)
    }

    // Takes an area. False if another unit is in the way.
    fn take_area(
        &mut self,
        db: &Database,
        area: AreaNo,
        exclusive: bool,
    ) -> Result<bool, AllocError>
        requires belongs { Belongs db.now self.old }
        requires work { IsAtWork self.old }
        requires area { (area < area_count self.old.about) × (times area self.old.held.areas ≡ 0) }
        requires so { HoldsSo exclusive self.old.exclusive self.old.held }
        ensures same { IsSameUnit self.old self.new }
        ensures work { IsAtWork self.new }
        ensures took { IfOk result (λ b. MatchBool b ((self.new.held ≡ record self.old.held { areas = self.old.held.areas ++ area ∷ [] }) × (self.new.exclusive ≡ exclusive)) ((self.new.held ≡ self.old.held) × (self.new.exclusive ≡ self.old.exclusive))) }
        ensures err { OnErr result ((self.new.held ≡ self.old.held) × (self.new.exclusive ≡ self.old.exclusive)) }
        ensures alone { self.old.about.units ≡ 1 → IfOk result (λ b. b ≡ true) }
    {
        if exclusive {
            self.take_alone(db, area)
        } else {
            self.take_shared(db, area)
        }
    }

    // Takes the cell with this number. False if another unit has it.
    fn take_cell(
        &mut self,
        db: &Database,
        statement: &Statement,
        name: CellName,
        number: usize,
    ) -> Result<bool, AllocError>
        requires belongs { Belongs db.now self.old }
        requires work { IsAtWork self.old }
        requires named { cell_number self.old.about.schema.value self.old.about.capacity name ≡ Some number }
        requires fits { fits self.old.about.schema.value statement.now ≡ true }
        requires needed { (d : Db) → Agrees self.old.about.schema.value self.old.about.capacity d self.old.held self.old.unit → Take name ≡ need self.old.about.schema.value self.old.about.capacity d self.old.unit self.old.held statement.now }
        ensures same { IsSameUnit self.old self.new }
        ensures work { IsAtWork self.new }
        ensures exclusive { self.new.exclusive ≡ self.old.exclusive }
        ensures took { IfOk result (λ b. MatchBool b ((x : Cell) × (self.new.held ≡ record self.old.held { cells = self.old.held.cells ++ (name, x) ∷ [] })) (self.new.held ≡ self.old.held)) }
        ensures err { OnErr result (self.new.held ≡ self.old.held) }
        ensures alone { self.old.about.units ≡ 1 → IfOk result (λ b. b ≡ true) }
    {
        // Unused here; the contract mentions it.
        let _ = statement;
        let word = 1 + db.schema.areas().len() + number;
        let board = &db.board.shared;
        if board.compare_exchange::<TakeCell>(&mut self.seat, word, 0, self.unit.number as u64)
            != 0
        {
            return Ok(false);
        }
        let Some(cell) = board.exchange(&mut self.seat, number, None) else {
            unreachable!()
        };
        match self.held.push_cell(name, cell) {
            Ok(()) => Ok(true),
            Err(failed) => {
                drop(board.exchange(&mut self.seat, number, Some(failed.value)));
                board.fetch_and::<PutCell>(&mut self.seat, word, 0);
                Err(AllocError)
            }
        }
    }

    // Other guesses.
    fn guess(&mut self, guesses: Owners)
        requires count { length guesses ≡ length self.old.about.schema.value.sets }
        requires rings { HaveRings self.old.about.schema.value self.old.about.capacity guesses }
        requires work { IsAtWork self.old }
        ensures same { IsSameUnit self.old self.new }
        ensures work { IsAtWork self.new }
        ensures exclusive { self.new.exclusive ≡ self.old.exclusive }
        ensures held { self.new.held ≡ record self.old.held { guesses = guesses } }
    {
        self.held.set_guesses(guesses);
    }

    // Turns back: the cells go home, and the true owners are noted.
    fn turn_back(&mut self, db: &Database, statement: &Statement, guesses: Owners)
        requires belongs { Belongs db.now self.old }
        requires work { IsAtWork self.old }
        requires fits { fits self.old.about.schema.value statement.now ≡ true }
        requires owners { (d : Db) → Agrees self.old.about.schema.value self.old.about.capacity d self.old.held self.old.unit → guesses ≡ noted_owners self.old.about.schema.value self.old.about.capacity d self.old.unit statement.now self.old.held.guesses }
        ensures same { IsSameUnit self.old self.new }
        ensures work { IsAtWork self.new }
        ensures exclusive { self.new.exclusive ≡ self.old.exclusive }
        ensures turned { IsVain Stale self.old.held self.new.held }
        ensures noted { (d : Db) → Agrees self.old.about.schema.value self.old.about.capacity d self.old.held self.old.unit → self.new.held.guesses ≡ noted_owners self.old.about.schema.value self.old.about.capacity d self.old.unit statement.now self.old.held.guesses }
    {
        // Unused here; the contract mentions it.
        let _ = statement;
        self.put_each_cell(db);
        self.guess(guesses);
    }

    // Meets a need. False if the look at it was in vain.
    fn meet(
        &mut self,
        db: &Database,
        statement: &Statement,
        exclusive: bool,
        wanted: Wanted,
    ) -> Result<bool, AllocError>
        requires belongs { Belongs db.now self.old }
        requires work { IsAtWork self.old }
        requires so { HoldsSo exclusive self.old.exclusive self.old.held }
        requires fits { fits self.old.about.schema.value statement.now ≡ true }
        requires needed { (d : Db) → Agrees self.old.about.schema.value self.old.about.capacity d self.old.held self.old.unit → wanted.need ≡ need self.old.about.schema.value self.old.about.capacity d self.old.unit self.old.held statement.now }
        requires owners { (d : Db) → wanted.need ≡ Stale → Agrees self.old.about.schema.value self.old.about.capacity d self.old.held self.old.unit → wanted.guesses ≡ noted_owners self.old.about.schema.value self.old.about.capacity d self.old.unit statement.now self.old.held.guesses }
        requires some { wanted.need ≢ Need.Ready }
        ensures same { IsSameUnit self.old self.new }
        ensures work { IsAtWork self.new }
        ensures so { IfOk result (λ _. HoldsSo exclusive self.new.exclusive self.new.held) }
        ensures vain { IfOk result (λ b. b ≡ false → IsVain wanted.need self.old.held self.new.held) }
        ensures noted { (d : Db) → wanted.need ≡ Stale → Agrees self.old.about.schema.value self.old.about.capacity d self.old.held self.old.unit → self.new.held.guesses ≡ noted_owners self.old.about.schema.value self.old.about.capacity d self.old.unit statement.now self.old.held.guesses }
        ensures more { IfOk result (λ b. b ≡ true → HasMore self.old.held self.new.held) }
        ensures nearer { IfOk result (λ b. b ≡ true → (tries : ℕ) → turns_left self.new.about tries self.new.held < turns_left self.old.about tries self.old.held) }
        ensures alone { self.old.about.units ≡ 1 → IfOk result (λ b. KnowsBetter statement.now self.old self.new b) }
    {
        let Wanted { need, guesses } = wanted;
        match need {
            Need::Ready => Ok(false),
            Need::Area(area) => self.take_area(db, area, exclusive),
            Need::Take(name) => match cell_number(&db.schema, db.about.capacity, &name) {
                Some(number) => self.take_cell(db, statement, name, number),
                None => unreachable!(),
            },
            Need::Stale => {
                self.turn_back(db, statement, guesses);
                Ok(false)
            }
        }
    }

    // What the statement needs next.
    fn wanted(
        &self,
        alloc: Global,
        db: &Database,
        statement: &Statement,
        course: &mut Option<Course>,
    ) -> Result<Wanted, AllocError>
        requires belongs { Belongs db.now self.now }
        requires work { IsAtWork self.now }
        requires fits { fits self.now.about.schema.value statement.now ≡ true }
        requires kept { CourseMatches db.now.schema db.now.about.capacity self.now.held self.now.unit statement.now course.old }
        ensures kept { CourseMatches db.now.schema db.now.about.capacity self.now.held self.now.unit statement.now course.new }
        ensures need { IfOk result (λ w. (d : Db) → Agrees db.now.schema db.now.about.capacity d self.now.held self.now.unit → w.need ≡ need db.now.schema db.now.about.capacity d self.now.unit self.now.held statement.now) }
        ensures guesses { IfOk result (λ w. (d : Db) → w.need ≡ Stale → Agrees self.now.about.schema.value self.now.about.capacity d self.now.held self.now.unit → w.guesses ≡ noted_owners self.now.about.schema.value self.now.about.capacity d self.now.unit statement.now self.now.held.guesses) }
    {
        let need = next_need(
            alloc,
            &db.schema,
            db.about.capacity,
            &self.unit,
            statement,
            &self.held,
            course,
        )?;
        let guesses = match need {
            Need::Stale => true_guesses(&db.schema, &self.unit, statement, &self.held),
            _ => Owners::none(0),
        };
        Ok(Wanted { need, guesses })
    }

    // Takes everything that the statement needs, and keeps what is settled about its needs. False if the tries are used up.
    fn gather_along(
        &mut self,
        alloc: Global,
        db: &Database,
        statement: &Statement,
        tries: &mut Tries,
        course: &mut Option<Course>,
    ) -> Result<bool, AllocError>
        requires belongs { Belongs db.now self.old }
        requires work { IsAtWork self.old }
        requires idle { (self.old.held.areas ≡ []) × (self.old.held.cells ≡ []) }
        requires fits { fits self.old.about.schema.value statement.now ≡ true }
        requires fresh { tries.old.vain ≡ 0 }
        requires course { course.old ≡ None }
        ensures same { IsSameUnit self.old self.new }
        ensures work { IsAtWork self.new }
        ensures ready { IfOk result (λ b. b ≡ true → IsReady self.new.about.schema.value self.new.about.capacity self.new.unit self.new.held statement.now) }
        ensures so { IfOk result (λ b. b ≡ true → HoldsSo (is_delete statement.now) self.new.exclusive self.new.held) }
        ensures given { tries.new.given ≡ tries.old.given }
        ensures tries { IfOk result (λ b. MatchBool b (Suffice tries.new) (AreUsedUp tries.new)) }
        ensures free { IsReady self.old.about.schema.value self.old.about.capacity self.old.unit self.old.held statement.now → IfOk result (λ b. b ≡ true) }
        ensures alone { self.old.about.units ≡ 1 → 0 < tries.old.given → IfOk result (λ b. b ≡ true) }
    {
        let exclusive = is_delete(statement);
        'needs: loop {
            let wanted = self.wanted(alloc, db, statement, course)?;
            if is_ready(&wanted) {
                return Ok(true);
            }
            if self.meet(db, statement, exclusive, wanted)? {
                continue;
            }
            tries.use_one();
            if tries.are_used_up() {
                return Ok(false);
            }
            // The statement may have turned back: then its cells are home again.
            forget(course);
        }
    }

    // Takes everything that the statement needs. False if the tries are used up.
    pub(crate) fn gather(
        &mut self,
        alloc: Global,
        db: &Database,
        statement: &Statement,
        tries: &mut Tries,
    ) -> Result<bool, AllocError>
        requires belongs { Belongs db.now self.old }
        requires work { IsAtWork self.old }
        requires idle { (self.old.held.areas ≡ []) × (self.old.held.cells ≡ []) }
        requires fits { fits self.old.about.schema.value statement.now ≡ true }
        requires fresh { tries.old.vain ≡ 0 }
        ensures same { IsSameUnit self.old self.new }
        ensures work { IsAtWork self.new }
        ensures ready { IfOk result (λ b. b ≡ true → IsReady self.new.about.schema.value self.new.about.capacity self.new.unit self.new.held statement.now) }
        ensures so { IfOk result (λ b. b ≡ true → HoldsSo (is_delete statement.now) self.new.exclusive self.new.held) }
        ensures given { tries.new.given ≡ tries.old.given }
        ensures tries { IfOk result (λ b. MatchBool b (Suffice tries.new) (AreUsedUp tries.new)) }
        ensures free { IsReady self.old.about.schema.value self.old.about.capacity self.old.unit self.old.held statement.now → IfOk result (λ b. b ≡ true) }
        ensures alone { self.old.about.units ≡ 1 → 0 < tries.old.given → IfOk result (λ b. b ≡ true) }
    {
        // Kept from need to need, so that nothing already settled is asked again.
        let mut course = None;
        self.gather_along(alloc, db, statement, tries, &mut course)
    }
}
