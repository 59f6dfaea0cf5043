//! The ticket: the statement is carried out on the cells that are held, and its entry joins the history.
ghost use Rattle.std.specs.Prelude.{◌≡◌, ℕ, ◌≤◌, ◌<◌, ◌+◌, ◌-◌, ◌^◌, ◌∷◌, ◌++◌, [], true, false, not, length, slice_get, None, Some, IfOk, OnOk, OnErr};
ghost use Rattle.std.specs.Vec.{vec_capacity};
ghost use Rattle.dbtg_unit.specs.declared.held.Need.{Need};
ghost use Rattle.dbtg_unit.specs.declared.statement.Statement.{Statement};
ghost use Rattle.dbtg_unit.specs.Database.State.Base.{Database};
ghost use Rattle.dbtg_cells.specs.Names.{name_eq};
ghost use Rattle.dbtg_unit.specs.Database.State.Legal.{pairwise};
ghost use Rattle.dbtg_unit.specs.Hands.Local.{Agrees};
ghost use Rattle.dbtg_unit.specs.Hands.Locality.{IsMadeOn, IsMadeOnEach, seen};
ghost use Rattle.dbtg_unit.specs.Hands.Making.{MayPrepare, ShowsTheSame};
ghost use Rattle.dbtg_step.specs.declared.parts.UnitState.{UnitState};
ghost use Rattle.dbtg_step.specs.Inside.Stands.{StandsNeeding};
ghost use Rattle.dbtg_step.specs.Inside.Leaves.{IsDrawn, IsUnmade};
ghost use Rattle.dbtg_step.specs.Inside.Parts.{progress_while_held};
ghost use Rattle.dbtg_step.specs.Inside.Events.{IsStepped, IsWell, NeedsNext};

use crate::parts::{Parts, StatementProgress, UnitState};
use crate::runner::{close, statement_of};
use crate::statements::prepare;
use dbtg_plan::{is_made_at_once, make_at_once};
use dbtg_schema::Schema;
use dbtg_unit::{Answer, Entry, Held, Statement, Stepped, Unit, finish};
use std::alloc::{AllocError, Global};

// Apart from `make`, since a plan takes room on the stack that is cleared at the call.
#[inline(never)]
fn make_by_plan(
    alloc: Global,
    schema: &Schema,
    capacity: u16,
    unit: &mut Unit,
    held: &mut Held,
    statement: &Statement,
) -> Result<Answer, AllocError>
    requires may { MayPrepare schema.now capacity unit.old held.old statement.now }
    requires agrees { (db : Database) × Agrees schema.now capacity db held.old unit.old }
    ensures made { IfOk result (λ answer. IsMadeOnEach schema.now capacity unit.old held.old statement.now (seen answer unit.new held.new)) }
    ensures unit { OnErr result (unit.new ≡ unit.old) }
    ensures shows { OnErr result (ShowsTheSame held.old held.new) }
{
    let prepared = prepare(alloc, schema, capacity, unit, statement, held)?;
    Ok(finish(schema, prepared, held, unit))
}

/// Makes the statement on the held cells. If memory is refused, nothing visible changes.
pub fn make(
    alloc: Global,
    schema: &Schema,
    capacity: u16,
    unit: &mut Unit,
    held: &mut Held,
    statement: &Statement,
) -> Result<Answer, AllocError>
    requires may { MayPrepare schema.now capacity unit.old held.old statement.now }
    requires agrees { (db : Database) × Agrees schema.now capacity db held.old unit.old }
    requires once { pairwise (λ e f. not (name_eq e.0 f.0)) held.old.cells ≡ true }
    ensures made { IfOk result (λ answer. (db : Database) → Agrees schema.now capacity db held.old unit.old → IsMadeOn schema.now capacity db unit.old held.old statement.now (seen answer unit.new held.new)) }
    ensures unit { OnErr result (unit.new ≡ unit.old) }
    ensures shows { OnErr result (ShowsTheSame held.old held.new) }
{
    if is_made_at_once(statement) {
        make_at_once(alloc, schema, capacity, unit, statement, held)
    } else {
        make_by_plan(alloc, schema, capacity, unit, held, statement)
    }
}

/// Makes room for another entry; there are fewer entries than a list can have.
pub fn make_room(history: &mut Vec<Entry>) -> Result<(), AllocError>
    ensures items { history.new.items ≡ history.old.items }
    ensures room { OnOk result (length history.new.items < vec_capacity history.new) }
    ensures few { OnOk result (length history.new.items + 1 < 2 ^ 64) }
{
    history.reserve(1)?;
    // The capacity fits a usize, and so does the number of entries with one more.
    let _capacity = history.capacity();
    Ok(())
}

/// Appends the entry of a statement to the history, with the next ticket, which is returned.
pub fn enter(history: &mut Vec<Entry>, unit: u8, statement: Statement, answer: Answer) -> u64
    requires room { length history.old.items < vec_capacity history.old }
    ensures history { history.new.items ≡ history.old.items ++ (record { ticket = length history.old.items; unit = unit; statement = statement; answer = answer }) ∷ [] }
    ensures ticket { result ≡ length history.old.items }
{
    let ticket = history.len() as u64;
    history.push_reserved(Entry {
        ticket,
        unit,
        statement,
        answer,
    });
    ticket
}

/// The statement has this ticket, and the unit goes on after it.
fn go_on(runner: &mut UnitState, progress: StatementProgress, ticket: u64)
    requires { runner.old.next < length runner.old.script }
    ensures { runner.new ≡ record runner.old { next = runner.old.next + 1; progress = progress_while_held runner.old.held.areas runner.old.held.cells (Some (record { exclusive = progress.exclusive; turning_back = false; ticket = Some ticket; linked = 0 })) } }
{
    // The number of statements fits a usize, and so does the next place.
    let _count = runner.script.len();
    runner.next += 1;
    runner.progress = Some(StatementProgress {
        exclusive: progress.exclusive,
        turning_back: false,
        ticket: Some(ticket),
        linked: 0,
    });
    close(runner);
}

/// Draws the ticket. If memory is refused, nothing visible changes.
fn draw(
    alloc: Global,
    schema: &Schema,
    capacity: u16,
    history: &mut Vec<Entry>,
    runner: &mut UnitState,
    unit: u8,
    progress: StatementProgress,
) -> Result<(), AllocError>
    requires left { runner.old.next < length runner.old.script }
    requires may { length history.old.items + 1 < 2 ^ 64 → (x : Statement) → slice_get runner.old.script runner.old.next ≡ Some x → MayPrepare schema.now capacity runner.old.unit runner.old.held x }
    requires agrees { (db : Database) × Agrees schema.now capacity db runner.old.held runner.old.unit }
    requires once { pairwise (λ e f. not (name_eq e.0 f.0)) runner.old.held.cells ≡ true }
    ensures drawn { OnOk result ((x : Statement) (db : Database) → slice_get runner.old.script runner.old.next ≡ Some x → Agrees schema.now capacity db runner.old.held runner.old.unit → IsDrawn schema.now capacity db x unit progress history.old.items history.new.items runner.old runner.new) }
    ensures history { OnErr result (history.new.items ≡ history.old.items) }
    ensures unmade { OnErr result (IsUnmade runner.old runner.new) }
{
    // Everything is held, so the progress of the needs is no longer needed.
    runner.course = None;
    make_room(history)?;
    let statement = statement_of(runner).copy()?;
    let answer = make(
        alloc,
        schema,
        capacity,
        &mut runner.unit,
        &mut runner.held,
        &statement,
    )?;
    let ticket = enter(history, unit, statement, answer);
    go_on(runner, progress, ticket);
    Ok(())
}

/// A statement that needs nothing more draws its ticket.
pub fn ticket_event(
    alloc: Global,
    schema: &Schema,
    capacity: u16,
    parts: &mut Parts,
    unit: u8,
    progress: StatementProgress,
) -> Stepped
    requires numbered { 0 < unit }
    requires within { unit ≤ length parts.old.runners.items }
    requires well { IsWell schema.now capacity parts.old }
    requires stands { (r : UnitState) → slice_get parts.old.runners.items (unit - 1) ≡ Some r → StandsNeeding r progress }
    requires needs { NeedsNext schema.now capacity parts.old unit progress Need.Ready }
    ensures { IsStepped schema.now capacity unit result parts.old parts.new }
{
    let runner = &mut parts.runners[unit as usize - 1];
    match draw(
        alloc,
        schema,
        capacity,
        &mut parts.history,
        runner,
        unit,
        progress,
    ) {
        Ok(()) => Stepped::Moved,
        Err(_) => Stepped::NoMemory,
    }
}
