//! Programs that run together: by turns, or one after the other, possibly with a first and a last one.

ghost use Rattle.dbtg_going.specs.Goings.{AreAfter, reached_by};
ghost use Rattle.dbtg_going.specs.Inside.Members.{AreAt, HaveTurned, IsUnderWay};
ghost use Rattle.dbtg_going.specs.Turns.{IsRunOf, first_turns, have_ended, is_heard, last_turns, one_by_one, other_turns, others, statement_of, to_the_end, turns_of};
ghost use Rattle.dbtg_step.specs.Core.Whole.{IsMadeRun};
ghost use Rattle.dbtg_schema.specs.Sound.{IsSound};
ghost use Rattle.dbtg_step.specs.Core.Whole.{Making as SaidMaking};
ghost use Rattle.std.specs.Prelude.{◌≡◌, ◌≤◌, ◌<◌, ◌∷◌, ◌+◌, ◌-◌, [], IfOk, OnOk, Some, false, filter, is_none, length, map, option_map};

use crate::around::Around;
use crate::member::{Going, Member, Reached};
use dbtg_program::Program;
use dbtg_schema::{Row, Schema};
use dbtg_step::{Run, WholeDatabase};
use dbtg_unit::{LAST_UNIT, MOST_STATEMENTS, Statement};
use std::alloc::{AllocError, Global};

/// The result of a run of programs: the run, whose moves have no results, and how far each program is.
#[derive(Drop)]
pub struct ProgramRun {
    pub run: Run,
    pub programs: Row<Reached>,
}

/// Programs that run together, one unit for each.
#[derive(Drop)]
struct Programs<'a> {
    alloc: Global,
    schema: &'a Schema,
    list: &'a [Program],
    around: Around,
}

impl<'a> Programs<'a> {
    // Each program before the first statement of its unit.
    fn beginning(&self) -> Result<Vec<Member>, AllocError>
        ensures { IfOk result (λ members. AreAt self.now.schema.now self.now.list.now [] members.items) }
    {
        let mut members = Vec::new(self.alloc);
        for program in self.list {
            members.push(Member::beginning(self.alloc, self.schema, program)?)?;
        }
        Ok(members)
    }

    // The unit makes this statement, which is due in its program, and the program goes on.
    fn make(
        &self,
        database: &mut WholeDatabase<'_>,
        members: &mut [Member],
        unit: u8,
        statement: Statement,
    ) -> Result<(), AllocError>
        requires under_way { IsUnderWay self.now.schema.now self.now.list.now database.old members.old }
        requires due { statement_of self.now.schema.now self.now.list.now database.old.history unit ≡ Some statement }
        requires numbered { 0 < unit }
        requires within { unit ≤ length members.old }
        ensures { OnOk result (HaveTurned self.now.schema.now self.now.list.now database.old (unit ∷ []) database.new members.new) }
    {
        let place = unit as usize - 1;
        let before = database.history().len();
        database.make(unit, statement)?;
        let entry = &database.history()[before];
        members[place].told(self.alloc, self.schema, &self.list[place], entry)
    }

    // A turn of the unit, and whether it made a statement.
    fn turn(
        &self,
        database: &mut WholeDatabase<'_>,
        members: &mut [Member],
        unit: u8,
    ) -> Result<bool, AllocError>
        requires { IsUnderWay self.now.schema.now self.now.list.now database.old members.old }
        ensures turned { OnOk result (HaveTurned self.now.schema.now self.now.list.now database.old (unit ∷ []) database.new members.new) }
        ensures nothing { IfOk result (λ made. made ≡ false → database.new ≡ database.old) }
    {
        if unit == 0 || members.len() < unit as usize {
            return Ok(false);
        }
        match members[unit as usize - 1].statement(self.schema) {
            None => Ok(false),
            Some(statement) => {
                let statement = statement.copy()?;
                self.make(database, members, unit, statement)?;
                Ok(true)
            }
        }
    }

    // A turn that is given to the unit, unless it is the last program's unit, which ignores it.
    fn told_turn(
        &self,
        database: &mut WholeDatabase<'_>,
        members: &mut [Member],
        unit: u8,
    ) -> Result<(), AllocError>
        requires few { length self.now.list.now ≤ LAST_UNIT }
        requires under_way { IsUnderWay self.now.schema.now self.now.list.now database.old members.old }
        ensures { OnOk result (HaveTurned self.now.schema.now self.now.list.now database.old (filter (is_heard self.now.around (length self.now.list.now)) (unit ∷ [])) database.new members.new) }
    {
        if self.around.is_heard(self.list.len() as u8, unit) {
            self.turn(database, members, unit)?;
        }
        Ok(())
    }

    // These turns, one after another.
    fn turns(
        &self,
        database: &mut WholeDatabase<'_>,
        members: &mut [Member],
        turns: &[u8],
    ) -> Result<(), AllocError>
        requires few { length self.now.list.now ≤ LAST_UNIT }
        requires under_way { IsUnderWay self.now.schema.now self.now.list.now database.old members.old }
        ensures { OnOk result (HaveTurned self.now.schema.now self.now.list.now database.old (filter (is_heard self.now.around (length self.now.list.now)) turns.now) database.new members.new) }
    {
        for unit in turns {
            self.told_turn(database, members, *unit)?;
        }
        Ok(())
    }

    // Runs the program of the unit to its end.
    fn to_the_end(
        &self,
        database: &mut WholeDatabase<'_>,
        members: &mut [Member],
        unit: u8,
    ) -> Result<(), AllocError>
        requires { IsUnderWay self.now.schema.now self.now.list.now database.old members.old }
        ensures { OnOk result (HaveTurned self.now.schema.now self.now.list.now database.old (to_the_end unit) database.new members.new) }
    {
        for _turn in 0..MOST_STATEMENTS {
            if !self.turn(database, members, unit)? {
                return Ok(());
            }
        }
        Ok(())
    }

    // Runs each program to its end, one after another.
    fn one_by_one(
        &self,
        database: &mut WholeDatabase<'_>,
        members: &mut [Member],
        units: u8,
    ) -> Result<(), AllocError>
        requires { IsUnderWay self.now.schema.now self.now.list.now database.old members.old }
        ensures { OnOk result (HaveTurned self.now.schema.now self.now.list.now database.old (one_by_one units) database.new members.new) }
    {
        for before in 0..units {
            self.to_the_end(database, members, before + 1)?;
        }
        Ok(())
    }

    // Runs the first program to its end.
    fn make_first(
        &self,
        database: &mut WholeDatabase<'_>,
        members: &mut [Member],
    ) -> Result<(), AllocError>
        requires few { length self.now.list.now ≤ LAST_UNIT }
        requires under_way { IsUnderWay self.now.schema.now self.now.list.now database.old members.old }
        ensures { OnOk result (HaveTurned self.now.schema.now self.now.list.now database.old (first_turns self.now.around (length self.now.list.now)) database.new members.new) }
    {
        if !self.around.first {
            return Ok(());
        }
        let others = self.around.others(self.list.len() as u8);
        self.to_the_end(database, members, others + 1)
    }

    // Runs the others by these turns, or, without turns, each to its end.
    fn make_others(
        &self,
        database: &mut WholeDatabase<'_>,
        members: &mut [Member],
        turns: Option<&[u8]>,
    ) -> Result<(), AllocError>
        requires few { length self.now.list.now ≤ LAST_UNIT }
        requires under_way { IsUnderWay self.now.schema.now self.now.list.now database.old members.old }
        ensures { OnOk result (HaveTurned self.now.schema.now self.now.list.now database.old (other_turns self.now.around (length self.now.list.now) (option_map (λ t. t.now) turns.entry)) database.new members.new) }
    {
        match turns {
            Some(turns) => self.turns(database, members, turns),
            None => {
                let others = self.around.others(self.list.len() as u8);
                self.one_by_one(database, members, others)
            }
        }
    }

    // Can the unit make no statement?
    fn has_ended(&self, members: &[Member], unit: u8) -> bool
        requires numbered { 0 < unit }
        requires within { unit ≤ length members.now }
        ensures { (making : SaidMaking) → IsUnderWay self.now.schema.now self.now.list.now making members.now → result ≡ is_none (statement_of self.now.schema.now self.now.list.now making.history unit) }
    {
        members[unit as usize - 1].has_ended(self.schema)
    }

    // Can no unit except the last make a statement?
    fn have_ended(&self, members: &[Member]) -> bool
        requires few { length self.now.list.now ≤ LAST_UNIT }
        requires count { length members.now ≡ length self.now.list.now }
        ensures { (making : SaidMaking) → IsUnderWay self.now.schema.now self.now.list.now making members.now → result ≡ have_ended self.now.schema.now self.now.list.now making.history }
    {
        let others = (self.list.len() as u8).saturating_sub(1);
        for before in 0..others {
            if !self.has_ended(members, before + 1) {
                return false;
            }
        }
        true
    }

    // Runs the last program to its end, once all others have ended.
    fn make_last(
        &self,
        database: &mut WholeDatabase<'_>,
        members: &mut [Member],
    ) -> Result<(), AllocError>
        requires few { length self.now.list.now ≤ LAST_UNIT }
        requires under_way { IsUnderWay self.now.schema.now self.now.list.now database.old members.old }
        ensures { OnOk result (HaveTurned self.now.schema.now self.now.list.now database.old (last_turns self.now.schema.now self.now.list.now self.now.around database.old.history) database.new members.new) }
    {
        if self.around.last && self.have_ended(members) {
            return self.to_the_end(database, members, self.list.len() as u8);
        }
        Ok(())
    }

    // Runs all programs, by the turns that are given.
    fn make_all(
        &self,
        database: &mut WholeDatabase<'_>,
        members: &mut [Member],
        turns: Option<&[u8]>,
    ) -> Result<(), AllocError>
        requires few { length self.now.list.now ≤ LAST_UNIT }
        requires under_way { IsUnderWay self.now.schema.now self.now.list.now database.old members.old }
        requires opening { database.old.history ≡ [] }
        ensures { OnOk result (HaveTurned self.now.schema.now self.now.list.now database.old (turns_of self.now.schema.now database.old.capacity self.now.list.now self.now.around (option_map (λ t. t.now) turns.entry)) database.new members.new) }
    {
        self.make_first(database, members)?;
        self.make_others(database, members, turns)?;
        self.make_last(database, members)
    }
}

/// How far each member is.
pub fn reached_by_each(alloc: Global, members: Vec<Member>) -> Result<Row<Reached>, AllocError>
    ensures { IfOk result (λ each. each ≡ map reached_by members.items) }
{
    let mut each = Vec::new(alloc);
    for member in members {
        each.push(member.into_reached())?;
    }
    Ok(Row::of(each))
}

// The result of the database and its members.
fn finish(
    alloc: Global,
    database: WholeDatabase<'_>,
    members: Vec<Member>,
) -> Result<ProgramRun, AllocError>
    ensures run { IfOk result (λ given. IsMadeRun database.entry given.run) }
    ensures programs { IfOk result (λ given. given.programs ≡ map reached_by members.items) }
{
    let programs = reached_by_each(alloc, members)?;
    let run = database.into_run()?;
    Ok(ProgramRun { run, programs })
}

/// Runs the programs by these turns, starting with the opening database, with a unit for each: in its turn a unit makes the statement
/// that is due in its program; nothing happens if there is no such unit or its program has ended. Without turns each program runs to its
/// end, unit 1's first. A first program runs to its end before all this, a last one after it, once all others have ended. If memory is
/// refused, it ends.
pub fn run_programs(
    alloc: Global,
    schema: &Schema,
    capacity: u16,
    programs: &[Program],
    around: Around,
    turns: Option<&[u8]>,
) -> Result<ProgramRun, AllocError>
    requires sound { IsSound schema.now }
    requires units { length programs.now ≤ LAST_UNIT }
    ensures { IfOk result (λ given. IsRunOf schema.now capacity programs.now (turns_of schema.now capacity programs.now around (option_map (λ t. t.now) turns.entry)) given) }
{
    let together = Programs {
        alloc,
        schema,
        list: programs,
        around,
    };
    let mut members = together.beginning()?;
    let mut database = WholeDatabase::opening(alloc, schema, capacity, programs.len() as u8)?;
    together.make_all(&mut database, members.as_mut_slice(), turns)?;
    finish(alloc, database, members)
}

// Each member's program, without its count.
fn goings_of(alloc: Global, members: Vec<Member>) -> Result<Vec<Going>, AllocError>
    ensures { IfOk result (λ goings. goings.items ≡ map (λ m. m.going) members.items) }
{
    let mut goings = Vec::new(alloc);
    for member in members {
        goings.push(member.into_going())?;
    }
    Ok(goings)
}

/// The database and its programs after these turns, starting with the opening database, with a unit for each program. If memory is refused
/// it ends.
pub fn programs_after<'a>(
    alloc: Global,
    schema: &'a Schema,
    capacity: u16,
    programs: &'a [Program],
    turns: &[u8],
) -> Result<(WholeDatabase<'a>, Vec<Going>), AllocError>
    requires sound { IsSound schema.now }
    requires units { length programs.now ≤ LAST_UNIT }
    ensures { IfOk result (λ after. AreAfter schema.now capacity programs.now turns.now after.0 after.1.items) }
{
    let together = Programs {
        alloc,
        schema,
        list: programs,
        around: Around {
            first: false,
            last: false,
        },
    };
    let mut members = together.beginning()?;
    let mut database = WholeDatabase::opening(alloc, schema, capacity, programs.len() as u8)?;
    together.turns(&mut database, members.as_mut_slice(), turns)?;
    let goings = goings_of(alloc, members)?;
    Ok((database, goings))
}
