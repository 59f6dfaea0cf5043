//! A warehouse: a database and the units of its two clerks, from the opening to the settlement.
ghost use Rattle.std.specs.Prelude.{◌≡◌, ◌∷◌, [], All, IfOk, IsOk, OnOk, length};
ghost use Rattle.dbtg_schema.specs.Sound.{IsSound};
ghost use Rattle.dbtg_run.specs.Settling.{IsSettled};
ghost use Rattle.dbtg_run.specs.UnitView.{BelongsTo};
ghost use Rattle.inventory_clerks.specs.Orders.{AreFilled, HasOpened};
ghost use Rattle.inventory_clerks.specs.Staff.{IsStaffed};

use crate::clerk::{open, work};
use crate::order::{Order, Stop};
use crate::{CAPACITY, UNITS};
use dbtg_run::{Database, RunUnit, Settled, settle};
use dbtg_schema::Schema;
use std::alloc::Global;
use std::sync::Wait;
use std::thread::{Threads, join};

/// The database, and the units of both clerks.
#[derive(Drop)]
pub struct Warehouse {
    pub db: Database,
    pub first: RunUnit,
    pub second: RunUnit,
}

// The two units of a database.
fn two_of(db: &Database, units: Vec<RunUnit>) -> (RunUnit, RunUnit)
    requires belong { All (BelongsTo db.now) units.items }
    requires two { length units.items ≡ 2 }
    ensures { BelongsTo db.now result.0 × BelongsTo db.now result.1 }
{
    // Unused here; the contract mentions it.
    let _about = &db.about;
    let mut units = units;
    let second = units.pop().unwrap();
    let first = units.pop().unwrap();
    (first, second)
}

// The database of a schema, and its two units.
fn make_house(alloc: Global, schema: Schema) -> Result<Warehouse, Stop>
    requires sound { IsSound schema }
    ensures staffed { IfOk result IsStaffed }
    ensures schema { IfOk result (λ house. house.db.schema ≡ schema) }
{
    let (db, units) = Database::make(alloc, schema, CAPACITY, UNITS)?;
    let (first, second) = two_of(&db, units);
    Ok(Warehouse { db, first, second })
}

/// The warehouse of a schema's text, before the first statement.
pub fn new_house(alloc: Global, text: &[u8]) -> Result<Warehouse, Stop>
    ensures staffed { IfOk result IsStaffed }
    ensures sound { IfOk result (λ house. IsSound house.db.schema) }
{
    match Schema::read(alloc, text) {
        Ok(schema) => make_house(alloc, schema),
        Err(_) => Err(Stop::NoStatement),
    }
}

// Each clerk makes the statements of his text, the second after the first is done.
fn open_both<R: Wait>(
    rt: &R,
    alloc: Global,
    db: &Database,
    first: &mut RunUnit,
    first_text: &[u8],
    second: &mut RunUnit,
    second_text: &[u8],
) -> Result<(), Stop>
    requires first { BelongsTo db.now first.old }
    requires second { BelongsTo db.now second.old }
    ensures first { BelongsTo db.now first.new }
    ensures second { BelongsTo db.now second.new }
    ensures first_opened { OnOk result (HasOpened db.now.schema first_text.now first.old.journal first.new.journal) }
    ensures second_opened { OnOk result (HasOpened db.now.schema second_text.now second.old.journal second.new.journal) }
{
    open(rt, alloc, db, first, first_text)?;
    open(rt, alloc, db, second, second_text)
}

/// Each clerk makes the statements of his text, the second after the first is done.
pub fn open_house<R: Wait>(
    rt: &R,
    alloc: Global,
    house: Warehouse,
    first_text: &[u8],
    second_text: &[u8],
) -> Result<Warehouse, Stop>
    requires staffed { IsStaffed house }
    ensures staffed { IfOk result IsStaffed }
    ensures same { IfOk result (λ opened. opened.db ≡ house.db) }
    ensures first { IfOk result (λ opened. HasOpened house.db.schema first_text.now house.first.journal opened.first.journal) }
    ensures second { IfOk result (λ opened. HasOpened house.db.schema second_text.now house.second.journal opened.second.journal) }
{
    let Warehouse {
        db,
        mut first,
        mut second,
    } = house;
    let opened = open_both(
        rt,
        alloc,
        &db,
        &mut first,
        first_text,
        &mut second,
        second_text,
    );
    let house = Warehouse { db, first, second };
    opened?;
    Ok(house)
}

// What a clerk comes back with: the unit, and whether all orders are filled.
type Back = (RunUnit, Result<(), Stop>);

// Both clerks fill their orders, each on a thread of his own.
fn side_by_side<R: Threads + Wait + Sync>(
    rt: &R,
    alloc: Global,
    db: &Database,
    first: RunUnit,
    first_orders: &[Order],
    second: RunUnit,
    second_orders: &[Order],
) -> (Back, Back)
    requires first { BelongsTo db.now first }
    requires second { BelongsTo db.now second }
    ensures belong { BelongsTo db.now result.0.0 × BelongsTo db.now result.1.0 }
    ensures first { OnOk result.0.1 (AreFilled first.journal result.0.0.journal first_orders.now) }
    ensures second { OnOk result.1.1 (AreFilled second.journal result.1.0.journal second_orders.now) }
{
    let backs = join(
        rt,
        move || -> Back
            requires { BelongsTo db.now first }
            ensures { BelongsTo db.entry.now result.0 × OnOk result.1 (AreFilled first.journal result.0.journal first_orders.entry.now) }
        { work(rt, alloc, db, first, first_orders) },
        move || -> Back
            requires { BelongsTo db.now second }
            ensures { BelongsTo db.entry.now result.0 × OnOk result.1 (AreFilled second.journal result.0.journal second_orders.entry.now) }
        { work(rt, alloc, db, second, second_orders) },
    );
    backs
}

// Both are done, or what stopped one of them.
fn both(first: Result<(), Stop>, second: Result<(), Stop>) -> Result<(), Stop>
    ensures first { OnOk result (IsOk first) }
    ensures second { OnOk result (IsOk second) }
{
    first?;
    second
}

/// Both clerks fill all their orders, side by side. The warehouse comes back, and whether they did.
pub fn fill_orders<R: Threads + Wait + Sync>(
    rt: &R,
    alloc: Global,
    house: Warehouse,
    first_orders: &[Order],
    second_orders: &[Order],
) -> (Warehouse, Result<(), Stop>)
    requires staffed { IsStaffed house }
    ensures staffed { IsStaffed result.0 }
    ensures same { result.0.db ≡ house.db }
    ensures first { OnOk result.1 (AreFilled house.first.journal result.0.first.journal first_orders.now) }
    ensures second { OnOk result.1 (AreFilled house.second.journal result.0.second.journal second_orders.now) }
{
    let Warehouse { db, first, second } = house;
    let ((first, one), (second, other)) = side_by_side(
        rt,
        alloc,
        &db,
        first,
        first_orders,
        second,
        second_orders,
    );
    (Warehouse { db, first, second }, both(one, other))
}

// The database is settled, once all its units have come back.
fn settle_all(alloc: Global, db: Database, units: Vec<RunUnit>) -> Result<Settled, Stop>
    requires belong { All (BelongsTo db) units.items }
    ensures { IfOk result (IsSettled db units.items) }
{
    settle(alloc, db, units).ok().ok_or(Stop::NoMemory)
}

/// Both clerks come back, and the database is settled.
#[tactic(auto, using(crate::proofs::Belonging::both_belong))]
pub fn close_house(alloc: Global, house: Warehouse) -> Result<Settled, Stop>
    requires staffed { IsStaffed house }
    ensures { IfOk result (IsSettled house.db (house.first ∷ house.second ∷ [])) }
{
    let Warehouse { db, first, second } = house;
    match Vec::from_array(alloc, [first, second]) {
        Ok(units) => settle_all(alloc, db, units),
        Err(refused) => {
            drop(refused);
            drop(db);
            Err(Stop::NoMemory)
        }
    }
}
