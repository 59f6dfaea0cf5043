//! Two clerks of a warehouse, each on a thread of his own, fill their orders; then what they did is audited.
#![tactic(auto)]

ghost use Rattle.std.specs.Prelude.{◌≡◌, IfNone, IfOk, IfSome, MatchOption, None, true};
ghost use Rattle.dbtg_schema.specs.Sound.{IsSound};
ghost use Rattle.dbtg_unit.specs.Database.Laws.Replay.{IsHistoryOf};
ghost use Rattle.inventory_clerks.specs.Inside.Auditing.{IsTextOf, text_of};
ghost use Rattle.inventory_clerks.specs.Inside.Orders.{rounds_of};
ghost use Rattle.inventory_clerks.specs.Inside.Staff.{HaveFilled};
ghost use Rattle.inventory_clerks.specs.Staff.{IsStaffed};

mod clerk;
mod order;
mod warehouse;

use dbtg_run::Settled;
use dbtg_schema::{Row, Schema};
use dbtg_script::{image_text, units_text};
use dbtg_step::audit;
use dbtg_unit::{Entry, Image, Unit};
use order::{Order, Stop};
use std::alloc::{AllocError, Global};
use std::io::{self, Write};
use std::process::ExitCode;
use std::sync::Wait;
use std::thread::Threads;
use warehouse::{Warehouse, close_house, fill_orders, new_house, open_house};

/// The greatest number that a record can have.
const CAPACITY: u16 = 100;

const UNITS: u8 = 2;

/// How often each clerk fills his orders.
const ROUNDS: usize = 100;

const INVENTORY: &[u8] = b"\
SCHEMA NAME IS INVENTORY.\n\
AREA NAME IS HOUSE.\n\
RECORD NAME IS WARE; LOCATION MODE IS CALC USING CODE DUPLICATES ARE NOT ALLOWED; WITHIN HOUSE.\n\
  02 CODE PICTURE IS 9(4).\n\
  02 STOCK PICTURE IS 9(5).\n";

/// What the first clerk does before the day begins.
const FIRST_SCRIPT: &[u8] = b"\
OPEN AREA HOUSE USAGE-MODE IS UPDATE\n\
STORE WARE CODE = 1 STOCK = 1000\n\
STORE WARE CODE = 2 STOCK = 2000\n\
STORE WARE CODE = 3 STOCK = 3000\n";

/// What the second clerk does.
const SECOND_SCRIPT: &[u8] = b"OPEN AREA HOUSE USAGE-MODE IS UPDATE\n";

const FIRST_ORDERS: [Order; 4] = [
    Order {
        code: 1,
        brought: 0,
        taken: 3,
    },
    Order {
        code: 2,
        brought: 5,
        taken: 0,
    },
    Order {
        code: 3,
        brought: 0,
        taken: 10,
    },
    Order {
        code: 1,
        brought: 4,
        taken: 0,
    },
];

const SECOND_ORDERS: [Order; 3] = [
    Order {
        code: 1,
        brought: 0,
        taken: 4,
    },
    Order {
        code: 3,
        brought: 2,
        taken: 1,
    },
    Order {
        code: 2,
        brought: 0,
        taken: 6,
    },
];

// The orders of this many rounds.
#[tactic(auto, using(crate::proofs::Rounds::no_round, crate::proofs::Rounds::one_round_more))]
fn all_rounds(alloc: Global, orders: &[Order], rounds: usize) -> Result<Vec<Order>, AllocError>
    ensures { IfOk result (λ all. all.items ≡ rounds_of rounds orders.now) }
{
    let mut all = Vec::new(alloc);
    'rounds: for _round in 0..rounds {
        all.extend_from_slice(orders)?;
    }
    Ok(all)
}

// The warehouse as the clerks find it when their day begins.
fn morning<R: Wait>(
    rt: &R,
    alloc: Global,
    inventory: &[u8],
    first_text: &[u8],
    second_text: &[u8],
) -> Result<Warehouse, Stop>
    ensures staffed { IfOk result IsStaffed }
    ensures sound { IfOk result (λ house. IsSound house.db.schema) }
{
    let house = new_house(alloc, inventory)?;
    open_house(rt, alloc, house, first_text, second_text)
}

// The result of the day, when both clerks have filled all their orders.
fn work_day<R: Threads + Wait + Sync>(
    rt: &R,
    alloc: Global,
    house: Warehouse,
    first_orders: &[Order],
    second_orders: &[Order],
) -> Result<Settled, Stop>
    requires staffed { IsStaffed house }
    ensures schema { IfOk result (λ settled. settled.schema ≡ house.db.schema) }
    ensures filled { IfOk result (HaveFilled first_orders.now second_orders.now) }
{
    let (house, filled) = fill_orders(rt, alloc, house, first_orders, second_orders);
    filled?;
    close_house(alloc, house)
}

// The database at the end of the day.
fn day<R: Threads + Wait + Sync>(rt: &R, alloc: Global) -> Result<Settled, Stop>
    ensures sound { IfOk result (λ settled. IsSound settled.schema) }
    ensures filled { IfOk result (HaveFilled (rounds_of ROUNDS FIRST_ORDERS) (rounds_of ROUNDS SECOND_ORDERS)) }
{
    let firsts = all_rounds(alloc, &FIRST_ORDERS, ROUNDS)?;
    let seconds = all_rounds(alloc, &SECOND_ORDERS, ROUNDS)?;
    let house = morning(rt, alloc, INVENTORY, FIRST_SCRIPT, SECOND_SCRIPT)?;
    work_day(rt, alloc, house, firsts.as_slice(), seconds.as_slice())
}

// Records, lists and usage, followed by the units, as they are printed.
fn text(
    alloc: Global,
    schema: &Schema,
    image: &Image,
    units: &[Unit],
) -> Result<Vec<u8>, AllocError>
    ensures { IfOk result (λ out. out.items ≡ text_of schema.now image.now units.now) }
{
    let mut out = image_text(alloc, schema, image)?;
    out.extend_from_slice(units_text(alloc, schema, units)?.as_slice())?;
    Ok(out)
}

// The same for what an audit found, if it found anything.
fn found_text(
    alloc: Global,
    schema: &Schema,
    found: &Option<(Image, Row<Unit>)>,
) -> Result<Option<Vec<u8>>, AllocError>
    ensures { IfOk result (λ out. MatchOption out (found.now ≡ None) (λ out. IfNone found.now ⊥ × IfSome found.now (λ t. out.items ≡ text_of schema.now t.0 t.1))) }
{
    match found {
        Some((image, units)) => Ok(Some(text(alloc, schema, image, units.as_slice())?)),
        None => Ok(None),
    }
}

// The same for what a history leads to, if it is one of the sequential database.
fn audited_text(
    alloc: Global,
    schema: &Schema,
    history: &[Entry],
) -> Result<Option<Vec<u8>>, AllocError>
    requires sound { IsSound schema.now }
    ensures { IfOk result (λ found. MatchOption found (IsHistoryOf schema.now CAPACITY UNITS history.now → ⊥) (λ out. IsTextOf schema.now CAPACITY UNITS history.now out.items)) }
{
    let found = audit(alloc, schema, CAPACITY, UNITS, history)?;
    found_text(alloc, schema, &found)
}

// Whether this text was found.
fn is_found(found: &Option<Vec<u8>>, text: &[u8]) -> bool
    ensures { result ≡ true → IfNone found.now ⊥ × IfSome found.now (λ out. out.items ≡ text.now) }
{
    match found {
        Some(found) => found.as_slice() == text,
        None => false,
    }
}

// Whether the audit of what the clerks did finds what they left.
fn is_equal(alloc: Global, settled: &Settled) -> Result<bool, AllocError>
    requires sound { IsSound settled.now.schema }
    ensures { IfOk result (λ equal. equal ≡ true → IsTextOf settled.now.schema CAPACITY UNITS settled.now.history (text_of settled.now.schema settled.now.image settled.now.units)) }
{
    let schema = &settled.schema;
    let left = text(alloc, schema, &settled.image, settled.units.as_slice())?;
    let found = audited_text(alloc, schema, settled.history.as_slice())?;
    Ok(is_found(&found, left.as_slice()))
}

// The stock at the end of the day, and the verdict of the audit.
fn report(alloc: Global, settled: &Settled) -> Result<Vec<u8>, AllocError>
    requires sound { IsSound settled.now.schema }
{
    let mut out = image_text(alloc, &settled.schema, &settled.image)?;
    let verdict: &[u8] = if is_equal(alloc, settled)? {
        b"AUDIT EQUAL\n"
    } else {
        b"AUDIT DIFFERS\n"
    };
    out.extend_from_slice(verdict)?;
    Ok(out)
}

// What is printed of the day.
fn day_text<R: Threads + Wait + Sync>(rt: &R, alloc: Global) -> Result<Vec<u8>, Stop> {
    let settled = day(rt, alloc)?;
    Ok(report(alloc, &settled)?)
}

fn main(rt: HostRuntime) -> io::Result<ExitCode> {
    match day_text(&rt, rt.alloc()) {
        Ok(out) => {
            io::writer(&rt).write_all(out.as_slice())?;
            Ok(ExitCode::SUCCESS)
        }
        Err(stop) => {
            eprintln!(rt; "{stop:?}")?;
            Ok(ExitCode::FAILURE)
        }
    }
}
