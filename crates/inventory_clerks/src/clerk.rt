//! A clerk: a run-unit on a thread of its own, which fills orders.
ghost use Rattle.std.specs.Prelude.{◌≡◌, ◌≢◌, ◌↔◌, ◌≤◌, true, length, All, IfOk, OnErr, OnOk};
ghost use Rattle.dbtg_unit.specs.Database.Statements.Fits.{fits};
ghost use Rattle.dbtg_unit.specs.declared.unit.Status.TheVariants.{Done};
ghost use Rattle.dbtg_run.specs.Drawn.{IsDone};
ghost use Rattle.dbtg_run.specs.Outcomes.{IfDone, IfNotDone};
ghost use Rattle.dbtg_run.specs.UnitView.{BelongsTo};
ghost use Rattle.inventory_clerks.specs.Orders.{AreFilled, Begins, HasChanged, HasKept, HasOpened, HasRead, HasWritten, IsFilled};

use crate::order::{Order, Stop, change, find, stock_after, stock_shown};
use dbtg_run::{Database, Outcome, RunUnit};
use dbtg_script::read_script;
use dbtg_unit::{Answer, Cause, MOST_STATEMENTS, Statement, Status};
use std::alloc::Global;
use std::sync::Wait;
use std::thread;

/// How often a statement is tried before others go on.
const TRIES: u32 = 16;

// Makes a statement, again and again while the other clerk is in the way. `insist` of the library does the same.
fn enter<R: Wait>(
    rt: &R,
    alloc: Global,
    db: &Database,
    unit: &mut RunUnit,
    statement: &Statement,
) -> Outcome
    requires belongs { BelongsTo db.now unit.old }
    requires fits { fits db.now.schema statement.now ≡ true }
    ensures belongs { BelongsTo db.now unit.new }
    ensures done { IfDone result (λ a. IsDone db.now.about unit.old.journal unit.new.journal unit.new.unit statement.now a) }
    ensures unchanged { IfNotDone result (unit.new ≡ unit.old) }
    ensures spent { (result ≡ Outcome.Spent) ↔ (MOST_STATEMENTS ≤ length unit.old.journal) }
    ensures busy { result ≢ Outcome.Busy }
{
    'tries: for _ in rt.forever() {
        let outcome = db.execute(alloc, unit, statement, TRIES);
        if !outcome.is_busy() {
            return outcome;
        }
        thread::yield_now();
    }
    unreachable!()
}

// Makes a statement, and gives its answer.
fn make<R: Wait>(
    rt: &R,
    alloc: Global,
    db: &Database,
    unit: &mut RunUnit,
    statement: &Statement,
) -> Result<Answer, Stop>
    requires belongs { BelongsTo db.now unit.old }
    ensures belongs { BelongsTo db.now unit.new }
    ensures done { IfOk result (λ a. IsDone db.now.about unit.old.journal unit.new.journal unit.new.unit statement.now a) }
    ensures stopped { OnErr result (unit.new ≡ unit.old) }
{
    if !statement.fits(&db.schema) {
        return Err(Stop::NoStatement);
    }
    match enter(rt, alloc, db, unit, statement) {
        Outcome::Done(answer) => Ok(answer),
        Outcome::Spent => Err(Stop::Spent),
        Outcome::NoMemory => Err(Stop::NoMemory),
        Outcome::Busy => unreachable!(),
    }
}

// Like `make`; a clerk stops at a statement that is refused.
fn must<R: Wait>(
    rt: &R,
    alloc: Global,
    db: &Database,
    unit: &mut RunUnit,
    statement: &Statement,
) -> Result<Answer, Stop>
    requires belongs { BelongsTo db.now unit.old }
    ensures belongs { BelongsTo db.now unit.new }
    ensures done { IfOk result (λ a. IsDone db.now.about unit.old.journal unit.new.journal unit.new.unit statement.now a) }
    ensures status { IfOk result (λ a. a.status ≡ Done) }
    ensures grown { Begins unit.old.journal unit.new.journal }
{
    let answer = make(rt, alloc, db, unit, statement)?;
    match answer.status {
        Status::Done => Ok(answer),
        Status::Refused(_) => Err(Stop::Refused),
    }
}

// Finds a ware and keeps it, so that a change by the other clerk from then on is noticed.
fn keep<R: Wait>(
    rt: &R,
    alloc: Global,
    db: &Database,
    unit: &mut RunUnit,
    finding: &Statement,
) -> Result<(), Stop>
    requires belongs { BelongsTo db.now unit.old }
    ensures belongs { BelongsTo db.now unit.new }
    ensures kept { OnOk result (HasKept finding.now unit.old.journal unit.new.journal) }
    ensures grown { Begins unit.old.journal unit.new.journal }
{
    must(rt, alloc, db, unit, finding)?;
    must(rt, alloc, db, unit, &Statement::Keep)?;
    Ok(())
}

// The stock of the ware that was found.
fn read_stock<R: Wait>(
    rt: &R,
    alloc: Global,
    db: &Database,
    unit: &mut RunUnit,
) -> Result<u64, Stop>
    requires belongs { BelongsTo db.now unit.old }
    ensures belongs { BelongsTo db.now unit.new }
    ensures read { IfOk result (λ stock. HasRead stock unit.old.journal unit.new.journal) }
    ensures grown { Begins unit.old.journal unit.new.journal }
{
    let answer = must(rt, alloc, db, unit, &Statement::Get(None))?;
    match stock_shown(&answer) {
        Some(stock) => Ok(stock),
        None => Err(Stop::NoStatement),
    }
}

// Whether a change was done: it was not if the other clerk changed the record since it was kept.
fn was_done(answer: &Answer) -> Result<bool, Stop>
    ensures { IfOk result (λ done. done ≡ true → answer.now.status ≡ Done) }
{
    match answer.status {
        Status::Done => Ok(true),
        Status::Refused(Cause::ChangedByAnother) => Ok(false),
        Status::Refused(_) => Err(Stop::Refused),
    }
}

// Changes the stock of the ware that was found, and says whether that was done.
fn change_stock<R: Wait>(
    rt: &R,
    alloc: Global,
    db: &Database,
    unit: &mut RunUnit,
    changing: &Statement,
) -> Result<bool, Stop>
    requires belongs { BelongsTo db.now unit.old }
    ensures belongs { BelongsTo db.now unit.new }
    ensures changed { IfOk result (λ done. done ≡ true → HasChanged changing.now unit.old.journal unit.new.journal) }
    ensures grown { Begins unit.old.journal unit.new.journal }
{
    let answer = make(rt, alloc, db, unit, changing)?;
    was_done(&answer)
}

// Writes what the order leaves of a stock that was read, and says whether that was done.
fn write_stock<R: Wait>(
    rt: &R,
    alloc: Global,
    db: &Database,
    unit: &mut RunUnit,
    order: Order,
    stock: u64,
) -> Result<bool, Stop>
    requires belongs { BelongsTo db.now unit.old }
    ensures belongs { BelongsTo db.now unit.new }
    ensures written { IfOk result (λ done. done ≡ true → HasWritten order stock unit.old.journal unit.new.journal) }
    ensures grown { Begins unit.old.journal unit.new.journal }
{
    let Some(left) = stock_after(order, stock) else {
        return Err(Stop::NoStock);
    };
    let changing = change(alloc, left)?;
    change_stock(rt, alloc, db, unit, &changing)
}

// Tries to fill an order, and says whether it is filled.
fn try_to_fill<R: Wait>(
    rt: &R,
    alloc: Global,
    db: &Database,
    unit: &mut RunUnit,
    order: Order,
) -> Result<bool, Stop>
    requires belongs { BelongsTo db.now unit.old }
    ensures belongs { BelongsTo db.now unit.new }
    ensures filled { IfOk result (λ done. done ≡ true → IsFilled unit.old.journal unit.new.journal order) }
    ensures grown { Begins unit.old.journal unit.new.journal }
{
    let finding = find(alloc, order.code)?;
    keep(rt, alloc, db, unit, &finding)?;
    let stock = read_stock(rt, alloc, db, unit)?;
    write_stock(rt, alloc, db, unit, order, stock)
}

// Fills an order: the ware is read and changed. If the other clerk changed it in between, everything is repeated.
fn fill<R: Wait>(
    rt: &R,
    alloc: Global,
    db: &Database,
    unit: &mut RunUnit,
    order: Order,
) -> Result<(), Stop>
    requires belongs { BelongsTo db.now unit.old }
    ensures belongs { BelongsTo db.now unit.new }
    ensures filled { OnOk result (IsFilled unit.old.journal unit.new.journal order) }
    ensures grown { Begins unit.old.journal unit.new.journal }
{
    'again: for _ in rt.forever() {
        if try_to_fill(rt, alloc, db, unit, order)? {
            return Ok(());
        }
        thread::yield_now();
    }
    unreachable!()
}

/// A clerk fills his orders, one after another, and comes back.
pub fn work<R: Wait>(
    rt: &R,
    alloc: Global,
    db: &Database,
    unit: RunUnit,
    orders: &[Order],
) -> (RunUnit, Result<(), Stop>)
    requires belongs { BelongsTo db.now unit }
    ensures belongs { BelongsTo db.now result.0 }
    ensures filled { OnOk result.1 (AreFilled unit.journal result.0.journal orders.now) }
{
    let mut unit = unit;
    'orders: for order in orders {
        if let Err(stop) = fill(rt, alloc, db, &mut unit, *order) {
            return (unit, Err(stop));
        }
    }
    (unit, Ok(()))
}

/// Makes the statements of a text, one after another.
#[tactic(auto, using(crate::proofs::Filling::none_made, crate::proofs::Filling::made_more, crate::proofs::Filling::all_made))]
pub fn open<R: Wait>(
    rt: &R,
    alloc: Global,
    db: &Database,
    unit: &mut RunUnit,
    text: &[u8],
) -> Result<(), Stop>
    requires belongs { BelongsTo db.now unit.old }
    ensures belongs { BelongsTo db.now unit.new }
    ensures made { OnOk result (HasOpened db.now.schema text.now unit.old.journal unit.new.journal) }
{
    let Ok(statements) = read_script(alloc, &db.schema, text) else {
        return Err(Stop::NoStatement);
    };
    'statements: for statement in &statements {
        must(rt, alloc, db, unit, statement)?;
    }
    Ok(())
}
