//! What a clerk is told to do, why one stops, and the statements that are made from it.
ghost use Rattle.std.specs.Prelude.{◌≡◌, IfOk, IfSome, Some, option_map};
ghost use Rattle.inventory_clerks.specs.Orders.{change_of, find_of, is_after, stock_shown};

use dbtg_cells::{Shared, Value};
use dbtg_schema::{ItemNo, RecordNo, Row};
use dbtg_unit::{Answer, Change, Form, Statement, Suppress};
use std::alloc::{AllocError, AllocFailed, Global};

/// The place of WARE among the record types, and of STOCK among its items.
const WARE: u8 = 0;

const STOCK: u8 = 1;

/// This many pieces of a ware are brought, and this many are taken.
#[derive(Clone, Copy)]
pub struct Order {
    pub code: u16,
    pub brought: u16,
    pub taken: u16,
}

/// Why a clerk stops.
#[derive(Clone, Copy, Debug, PartialEq, Eq)]
pub enum Stop {
    /// A text has a fault, or the schema has no such statement.
    NoStatement,
    /// A statement was refused, but not because of a change by another clerk.
    Refused,
    /// More is to be taken than there is.
    NoStock,
    /// The journal is full.
    Spent,
    /// Memory was refused.
    NoMemory,
}

impl From<AllocError> for Stop {
    fn from(_error: AllocError) -> Stop {
        Stop::NoMemory
    }
}

impl<T: Drop> From<AllocFailed<T>> for Stop {
    fn from(_error: AllocFailed<T>) -> Stop {
        Stop::NoMemory
    }
}

/// FIND CALC WARE RECORD USING CODE = code.
pub fn find(alloc: Global, code: u16) -> Result<Statement, AllocError>
    ensures { IfOk result (λ x. x ≡ find_of code) }
{
    let values = Vec::from_array(alloc, [Value::Num(code as u64)])?;
    let suppress = Suppress {
        types: false,
        areas: false,
        sets: 0,
    };
    let form = Form::by_calc(alloc, RecordNo::new(WARE), Row::of(values))?;
    Ok(Statement::Find(suppress, form))
}

/// MODIFY WARE STOCK = stock.
pub fn change(alloc: Global, stock: u64) -> Result<Statement, AllocError>
    ensures { IfOk result (λ x. x ≡ change_of stock) }
{
    let change = Change {
        item: ItemNo::new(STOCK),
        value: Value::Num(stock),
    };
    let changes = Row::of(Vec::from_array(alloc, [change])?);
    Ok(Statement::Modify {
        rtype: RecordNo::new(WARE),
        changes: Shared::new(alloc, changes)?,
    })
}

/// The stock that the answer to a GET shows.
pub fn stock_shown(answer: &Answer) -> Option<u64>
    ensures { result ≡ stock_shown answer.now }
{
    let Some(items) = &answer.items else {
        return None;
    };
    match items.get().get(STOCK as usize) {
        Some(Value::Num(stock)) => Some(*stock),
        _ => None,
    }
}

/// The stock after the order; none if more is to be taken than there is.
pub fn stock_after(order: Order, stock: u64) -> Option<u64>
    ensures { IfSome result (is_after order stock) }
{
    stock
        .checked_add(order.brought as u64)?
        .checked_sub(order.taken as u64)
}
