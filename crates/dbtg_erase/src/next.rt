//! What a DELETE needs next.
ghost use Rattle.std.specs.Prelude.{◌≡◌, ℕ, ◌==◌, not, None, if◌then◌else◌, IfOk, OnErr};
ghost use Rattle.std.specs.List.{find, list_any};
ghost use Rattle.dbtg_schema.specs.Lists.{Lists};
ghost use Rattle.dbtg_schema.specs.Sound.{IsSound};
ghost use Rattle.dbtg_schema.specs.Structure.{set_numbers};
ghost use Rattle.dbtg_unit.specs.Database.State.Base.{Database};
ghost use Rattle.dbtg_unit.specs.Database.State.Belongs.{IsUnitOf};
ghost use Rattle.dbtg_unit.specs.declared.statement.Statement.TheVariants.{Delete};
ghost use Rattle.dbtg_unit.specs.Database.Statements.Checks.{refused_at_once};
ghost use Rattle.dbtg_unit.specs.Database.Statements.Effect.{is_plain};
ghost use Rattle.dbtg_unit.specs.declared.statement.Erase.{Erase};
ghost use Rattle.dbtg_unit.specs.Hands.Hands.{Hands};
ghost use Rattle.dbtg_unit.specs.Hands.Local.{Agrees};
ghost use Rattle.dbtg_unit.specs.Hands.NeedOrder.{IsAbove, IsInHeldArea, IsInTurn};
ghost use Rattle.dbtg_unit.specs.Hands.Needs.{areas_in_order, need};
ghost use Rattle.dbtg_erase.specs.Course.{IsCourse, IsCourseOfCurrent, IsCourseIfBegun};
ghost use Rattle.dbtg_erase.specs.Inside.NextCell.{next_cell_in, next_cell_of, next_of_gone, next_of_passed, stops_at};
ghost use Rattle.dbtg_erase.specs.WorkList.{gone_in};

use crate::course::Course;
use crate::names::{holds, missing};
use crate::preparing::has_any;
use dbtg_cells::{CellName, DbKey};
use dbtg_schema::{Schema, SetNo};
use dbtg_unit::{
    Erase, Held, Need, Statement, Unit, next_area, own_refusal, refused_at_once, set_count,
};
use std::alloc::{AllocError, Global};

// Does the plain form stop at this set: is its ring not held, or does it have a member?
fn stops_at(schema: &Schema, held: &Held, key: &DbKey, set: SetNo) -> bool
    ensures { result ≡ stops_at schema.now held.now key.now set }
{
    if schema.owns(set, key.rtype) {
        !holds(held, &CellName::Ring(set, Some((key.rtype, key.number)))) || has_any(held, key, set)
    } else {
        false
    }
}

#[tactic(auto, using(dbtg_schema::proofs::Public::numbers_next, dbtg_schema::proofs::Public::numbers_end))]
fn first_stop(schema: &Schema, held: &Held, key: &DbKey) -> Option<SetNo>
    ensures { result ≡ find (stops_at schema.now held.now key.now) (set_numbers schema.now) }
{
    for s in 0..set_count(schema) {
        let set = SetNo::new(s);
        if stops_at(schema, held, key, set) {
            return Some(set);
        }
    }
    None
}

// Where the form stops.
fn stop(schema: &Schema, held: &Held, option: Erase, key: &DbKey) -> Option<SetNo>
    ensures { result ≡ (if is_plain option then find (stops_at schema.now held.now key.now) (set_numbers schema.now) else None) }
{
    match option {
        Erase::Plain => first_stop(schema, held, key),
        _ => None,
    }
}

// The progress that is kept, taken out, or a new one if none is.
fn course_of(alloc: Global, key: &DbKey, course: &mut Option<Course>) -> Result<Course, AllocError>
    ensures course { IfOk result (λ going. (schema : Lists) (capacity : ℕ) (hands : Hands) (option : Erase) → IsCourseIfBegun schema capacity hands option key.now course.old → IsCourse schema capacity hands option key.now going) }
    ensures out { course.new ≡ None }
{
    match course.take() {
        Some(going) => Ok(going),
        None => Course::begin(alloc, key),
    }
}

// The next cell by the progress that is kept, or by a new one if none is. If memory is refused, the progress is lost.
fn next_on_course(
    alloc: Global,
    schema: &Schema,
    capacity: u16,
    held: &Held,
    option: Erase,
    key: &DbKey,
    course: &mut Option<Course>,
) -> Result<Option<CellName>, AllocError>
    requires kept { IsCourseIfBegun schema.now capacity held.now option key.now course.old }
    ensures kept { IsCourseIfBegun schema.now capacity held.now option key.now course.new }
    ensures next { IfOk result (λ name. name ≡ next_of_gone schema.now held.now (gone_in schema.now capacity held.now option key.now)) }
{
    let mut going = course_of(alloc, key, course)?;
    let next = going.next(alloc, schema, capacity, held, option, key)?;
    *course = Some(going);
    Ok(next)
}

// The next cell of a record that is not refused for itself.
fn next_of_passed(
    alloc: Global,
    schema: &Schema,
    capacity: u16,
    held: &Held,
    option: Erase,
    key: &DbKey,
    course: &mut Option<Course>,
) -> Result<Option<CellName>, AllocError>
    requires kept { IsCourseIfBegun schema.now capacity held.now option key.now course.old }
    ensures kept { IsCourseIfBegun schema.now capacity held.now option key.now course.new }
    ensures next { IfOk result (λ name. name ≡ next_of_passed schema.now capacity held.now option key.now) }
{
    match stop(schema, held, option, key) {
        Some(set) => Ok(missing(held, CellName::Ring(set, Some((key.rtype, key.number))))),
        None => next_on_course(alloc, schema, capacity, held, option, key, course),
    }
}

// The next cell of the current of run-unit.
fn next_cell(
    alloc: Global,
    schema: &Schema,
    capacity: u16,
    unit: &Unit,
    option: Erase,
    held: &Held,
    key: &DbKey,
    course: &mut Option<Course>,
) -> Result<Option<CellName>, AllocError>
    requires kept { IsCourseIfBegun schema.now capacity held.now option key.now course.old }
    ensures kept { IsCourseIfBegun schema.now capacity held.now option key.now course.new }
    ensures next { IfOk result (λ name. name ≡ next_cell_in schema.now capacity held.now unit.now option key.now) }
{
    if let Some(name) = missing(held, CellName::Slot(key.rtype, key.number)) {
        return Ok(Some(name));
    }
    match own_refusal(held, unit, key) {
        Some(_cause) => Ok(None),
        None => next_of_passed(alloc, schema, capacity, held, option, key, course),
    }
}

#[tactic(auto, using(crate::proofs::CourseStays::kept_of, crate::proofs::CourseStays::kept_by))]
fn next_cell_of(
    alloc: Global,
    schema: &Schema,
    capacity: u16,
    unit: &Unit,
    option: Erase,
    held: &Held,
    course: &mut Option<Course>,
) -> Result<Option<CellName>, AllocError>
    requires kept { IsCourseOfCurrent schema.now capacity held.now unit.now option course.old }
    ensures kept { IsCourseOfCurrent schema.now capacity held.now unit.now option course.new }
    ensures next { IfOk result (λ name. name ≡ next_cell_of schema.now capacity held.now unit.now option unit.now.currency.run_unit) }
{
    match &unit.currency.run_unit {
        Some(key) => next_cell(alloc, schema, capacity, unit, option, held, key, course),
        None => Ok(None),
    }
}

/// What a DELETE needs next, on every database to which these cells may belong: its areas, ascending; then its cells in
/// the order of taking, each record that goes in turn, first in, first out, and each in an area that is held. `course` keeps
/// how far it has come, from `None` before the first need: it has to belong to this DELETE, with all that was held before still
/// held. Memory is refused only once it has its areas; the progress is then lost, and computed again at the next need.
pub fn next_need(
    alloc: Global,
    schema: &Schema,
    capacity: u16,
    unit: &Unit,
    option: Erase,
    held: &Held,
    course: &mut Option<Course>,
) -> Result<Need, AllocError>
    requires kept { IsCourseOfCurrent schema.now capacity held.now unit.now option course.old }
    ensures kept { IsCourseOfCurrent schema.now capacity held.now unit.now option course.new }
    ensures need { IfOk result (λ next. (db : Database) → Agrees schema.now capacity db held.now unit.now → next ≡ need schema.now capacity db unit.now held.now (Delete option)) }
    ensures above { IfOk result (λ next. (db : Database) → IsSound schema.now → Agrees schema.now capacity db held.now unit.now → IsInTurn schema.now capacity db unit.now (Delete option) held.now → IsAbove (Delete option) held.now next) }
    ensures in_area { IfOk result (λ next. (db : Database) → IsSound schema.now → IsUnitOf schema.now unit.now → Agrees schema.now capacity db held.now unit.now → IsInHeldArea schema.now held.now next) }
    ensures refused { OnErr result (find (λ a. not (list_any (λ b. b == a) held.now.areas)) (areas_in_order schema.now unit.now (Delete option)) ≡ None) }
{
    let statement = Statement::Delete(option);
    match refused_at_once(schema, capacity, unit, &statement) {
        Some(_cause) => Ok(Need::Ready),
        None => match next_area(schema, unit, &statement, held) {
            Some(area) => Ok(Need::Area(area)),
            None => need_with_areas(alloc, schema, capacity, unit, option, held, course),
        },
    }
}

/// The same for a DELETE that no check without cells refuses and that holds all its areas.
pub fn need_with_areas(
    alloc: Global,
    schema: &Schema,
    capacity: u16,
    unit: &Unit,
    option: Erase,
    held: &Held,
    course: &mut Option<Course>,
) -> Result<Need, AllocError>
    requires kept { IsCourseOfCurrent schema.now capacity held.now unit.now option course.old }
    requires passed { refused_at_once schema.now capacity unit.now (Delete option) ≡ None }
    requires areas { find (λ a. not (list_any (λ b. b == a) held.now.areas)) (areas_in_order schema.now unit.now (Delete option)) ≡ None }
    ensures kept { IsCourseOfCurrent schema.now capacity held.now unit.now option course.new }
    ensures need { IfOk result (λ next. (db : Database) → Agrees schema.now capacity db held.now unit.now → next ≡ need schema.now capacity db unit.now held.now (Delete option)) }
{
    match next_cell_of(alloc, schema, capacity, unit, option, held, course)? {
        Some(name) => Ok(Need::Take(name)),
        None => Ok(Need::Ready),
    }
}
