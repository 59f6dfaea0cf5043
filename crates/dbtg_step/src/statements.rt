//! What each statement needs next, and what it prepares: DELETE by its own crate, all others by theirs.
ghost use Rattle.std.specs.Prelude.{◌≡◌, ℕ, ◌==◌, not, true, false, Some, None, IfNone, IfOk, MatchOption, OnErr, length};
ghost use Rattle.std.specs.List.{find, list_any};
ghost use Rattle.dbtg_schema.specs.Sound.{IsSound};
ghost use Rattle.dbtg_unit.specs.Database.State.Base.{Database};
ghost use Rattle.dbtg_unit.specs.Database.State.Belongs.{IsUnitOf, IsWithin};
ghost use Rattle.dbtg_unit.specs.Database.Statements.Checks.{refused_at_once};
ghost use Rattle.dbtg_unit.specs.Hands.EditsOf.{is_delete};
ghost use Rattle.dbtg_unit.specs.Database.Statements.Fits.{fits};
ghost use Rattle.dbtg_unit.specs.Hands.Guesses.{with_owners};
ghost use Rattle.dbtg_unit.specs.Hands.Local.{Agrees};
ghost use Rattle.dbtg_unit.specs.Hands.Locality.{IsMadeOnEach, made_by};
ghost use Rattle.dbtg_unit.specs.Hands.Making.{CanFinish, MayPrepare, ShowsTheSame};
ghost use Rattle.dbtg_unit.specs.Hands.Needs.{areas_in_order, need, stale_owners};
ghost use Rattle.dbtg_step.specs.Core.Courses.{CellsMatch, IsAtCells, CourseMatches};
ghost use Rattle.dbtg_step.specs.Inside.Courses.{IsBehindAreas};
ghost use Rattle.dbtg_step.specs.Machine.NeedOrder.{AreCellsOf, HasItsAreas, IsAboveHands, LiesInHeldArea, WasTakenInTurn};

use crate::course::Course;
use dbtg_cells::Owners;
use dbtg_schema::{AreaNo, Schema};
use dbtg_unit::{Erase, Held, Need, Prepared, Statement, Unit, next_area, refused_at_once};
use std::alloc::{AllocError, Global};

// The option of a DELETE.
fn delete_option(statement: &Statement) -> Option<Erase>
    ensures { MatchOption result (is_delete statement.now ≡ false) (λ option. statement.now ≡ Statement.Delete option) }
{
    match statement {
        Statement::Delete(option) => Some(*option),
        _ => None,
    }
}

// The first area that is not held, for a statement that no check without cells refuses.
fn area_left(
    schema: &Schema,
    capacity: u16,
    unit: &Unit,
    statement: &Statement,
    held: &Held,
    course: &mut Option<Course>,
) -> Option<AreaNo>
    requires passed { refused_at_once schema.now capacity unit.now statement.now ≡ None }
    ensures kept { CourseMatches schema.now capacity held.now unit.now statement.now course.new }
    ensures need { (a : ℕ) (db : Database) → result ≡ Some a → Need.Area a ≡ need schema.now capacity db unit.now held.now statement.now }
    ensures behind { IfNone result (IsBehindAreas course.new) }
{
    // Unused here; the contract mentions it.
    let _ = capacity;
    match next_area(schema, unit, statement, held) {
        Some(area) => {
            *course = Some(Course::Wants(area));
            Some(area)
        }
        None => {
            *course = Some(Course::HasAreas(None));
            None
        }
    }
}

/// The first area that is not held, if the statement still has one to take. Checks and areas that are settled are not asked again.
pub fn area_next(
    schema: &Schema,
    capacity: u16,
    unit: &Unit,
    statement: &Statement,
    held: &Held,
    course: &mut Option<Course>,
) -> Option<AreaNo>
    requires kept { CourseMatches schema.now capacity held.now unit.now statement.now course.old }
    ensures kept { CourseMatches schema.now capacity held.now unit.now statement.now course.new }
    ensures need { (a : ℕ) (db : Database) → result ≡ Some a → Need.Area a ≡ need schema.now capacity db unit.now held.now statement.now }
    ensures behind { IfNone result (IsBehindAreas course.new) }
{
    match course {
        Some(Course::HasAreas(_)) => None,
        Some(Course::Refused) => None,
        Some(Course::Wants(area)) => {
            let area = *area;
            if held.has(area) {
                area_left(schema, capacity, unit, statement, held, course)
            } else {
                Some(area)
            }
        }
        None => {
            match refused_at_once(schema, capacity, unit, statement) {
                Some(_cause) => {
                    *course = Some(Course::Refused);
                    None
                }
                None => area_left(schema, capacity, unit, statement, held, course),
            }
        }
    }
}

// What is needed once the areas are held.
fn need_with_areas(
    alloc: Global,
    schema: &Schema,
    capacity: u16,
    unit: &Unit,
    statement: &Statement,
    held: &Held,
    course: &mut Option<dbtg_erase::Course>,
) -> Result<Need, AllocError>
    requires kept { CellsMatch schema.now capacity held.now unit.now statement.now course.old }
    requires fits { fits schema.now statement.now ≡ true }
    requires of_schema { IsUnitOf schema.now unit.now }
    requires within { IsWithin capacity unit.now }
    requires at { IsAtCells schema.now capacity held.now unit.now statement.now }
    ensures kept { CellsMatch schema.now capacity held.now unit.now statement.now course.new }
    ensures need { IfOk result (λ n. (db : Database) → Agrees schema.now capacity db held.now unit.now → n ≡ need schema.now capacity db unit.now held.now statement.now) }
    ensures refused { OnErr result (is_delete statement.now ≡ true) }
{
    match delete_option(statement) {
        Some(option) => dbtg_erase::need_with_areas(
            alloc, schema, capacity, unit, option, held, course,
        ),
        None => Ok(dbtg_plan::need_with_areas(schema, capacity, unit, statement, held)),
    }
}

/// What the statement needs next: its areas, then its cells, then other guesses. `course` keeps what is settled about its needs; starting
/// with `None` before the first need it must belong to this statement, and all that was held before must still be held. Memory is refused
/// only to a DELETE, and only once it has its areas.
pub fn next_need(
    alloc: Global,
    schema: &Schema,
    capacity: u16,
    unit: &Unit,
    statement: &Statement,
    held: &Held,
    course: &mut Option<Course>,
) -> Result<Need, AllocError>
    requires kept { CourseMatches schema.now capacity held.now unit.now statement.now course.old }
    requires fits { fits schema.now statement.now ≡ true }
    requires of_schema { IsUnitOf schema.now unit.now }
    requires within { IsWithin capacity unit.now }
    ensures kept { CourseMatches schema.now capacity held.now unit.now statement.now course.new }
    ensures need { IfOk result (λ n. (db : Database) → Agrees schema.now capacity db held.now unit.now → n ≡ need schema.now capacity db unit.now held.now statement.now) }
    ensures above { IfOk result (λ n. (db : Database) → IsSound schema.now → AreCellsOf schema.now capacity db unit.now statement.now held.now → WasTakenInTurn schema.now capacity unit.now statement.now held.now → IsAboveHands statement.now held.now n) }
    ensures in_area { IfOk result (λ n. (db : Database) → IsSound schema.now → AreCellsOf schema.now capacity db unit.now statement.now held.now → LiesInHeldArea schema.now held.now n) }
    ensures refused { OnErr result (HasItsAreas schema.now unit.now held.now statement.now) }
{
    if let Some(area) = area_next(schema, capacity, unit, statement, held, course) {
        return Ok(Need::Area(area));
    }
    match course {
        Some(Course::HasAreas(cells)) => {
            need_with_areas(alloc, schema, capacity, unit, statement, held, cells)
        }
        Some(Course::Refused) => Ok(Need::Ready),
        Some(Course::Wants(_)) | None => unreachable!(),
    }
}

/// What the statement needs next, asked from the beginning. It takes no memory, and so says nothing for a DELETE that has its areas.
pub fn need_unless_delete(
    schema: &Schema,
    capacity: u16,
    unit: &Unit,
    statement: &Statement,
    held: &Held,
) -> Option<Need>
    requires fits { fits schema.now statement.now ≡ true }
    requires of_schema { IsUnitOf schema.now unit.now }
    requires within { IsWithin capacity unit.now }
    ensures { MatchOption result (HasItsAreas schema.now unit.now held.now statement.now) (λ n. (db : Database) → Agrees schema.now capacity db held.now unit.now → n ≡ need schema.now capacity db unit.now held.now statement.now) }
{
    match refused_at_once(schema, capacity, unit, statement) {
        Some(_cause) => Some(Need::Ready),
        None => match next_area(schema, unit, statement, held) {
            Some(area) => Some(Need::Area(area)),
            None => match delete_option(statement) {
                Some(_) => None,
                None => Some(dbtg_plan::need_with_areas(schema, capacity, unit, statement, held)),
            },
        },
    }
}

/// The guesses with which a statement that needs others goes on: the true owner in each set where its guess is wrong.
pub fn true_guesses(schema: &Schema, unit: &Unit, statement: &Statement, held: &Held) -> Owners
    requires fits { fits schema.now statement.now ≡ true }
    requires count { length held.now.guesses ≡ length schema.now.sets }
    ensures { (capacity : ℕ) (db : Database) → Agrees schema.now capacity db held.now unit.now → need schema.now capacity db unit.now held.now statement.now ≡ Need.Stale → result ≡ with_owners held.now.guesses (stale_owners schema.now capacity db unit.now held.now.guesses statement.now) }
{
    dbtg_plan::true_guesses(schema, unit, statement, held)
}

/// Makes all room that the statement needs, and fixes its effect.
pub fn prepare(
    alloc: Global,
    schema: &Schema,
    capacity: u16,
    unit: &Unit,
    statement: &Statement,
    held: &mut Held,
) -> Result<Prepared, AllocError>
    requires may { MayPrepare schema.now capacity unit.now held.old statement.now }
    ensures shows { ShowsTheSame held.old held.new }
    ensures prepared { IfOk result (λ plan. CanFinish schema.now capacity unit.now held.new statement.now plan) }
    ensures made { IfOk result (λ plan. IsMadeOnEach schema.now capacity unit.now held.old statement.now (made_by schema.now unit.now held.new plan)) }
{
    match delete_option(statement) {
        Some(option) => dbtg_erase::prepare(alloc, schema, capacity, unit, option, held),
        None => dbtg_plan::prepare(alloc, schema, capacity, unit, statement, held),
    }
}
