//! Values of items: copies, and comparisons.
ghost use Rattle.std.specs.Prelude.{◌≡◌, List, IfOk, Option};
ghost use Rattle.dbtg_cells.specs.Keys.{bytes_same, bytes_below, value_eq, value_below, values_eq, option_value_eq};
ghost use Rattle.dbtg_cells.specs.Orders.{sort_key_below, comes_before};

use crate::key::Value;
use dbtg_schema::{Duplicates, Row};
use std::alloc::{AllocError, Global};

/// The same items.
pub fn copy_items(items: &Row<Value>, alloc: Global) -> Result<Row<Value>, AllocError>
    ensures { IfOk result (λ copy. copy ≡ items.now) }
{
    let items = items.as_slice();
    let mut copy = Vec::with_capacity(alloc, items.len())?;
    for item in items {
        copy.push(item.copy(alloc)?)?;
    }
    Ok(Row::of(copy))
}

fn bytes_same(a: &[u8], b: &[u8]) -> bool
    ensures { result ≡ bytes_same a.now b.now }
{
    a == b
}

fn bytes_below(a: &[u8], b: &[u8]) -> bool
    ensures { result ≡ bytes_below a.now b.now }
{
    for (i, y) in b.iter().enumerate() {
        match a.get(i) {
            None => return true,
            Some(x) => {
                if *x != *y {
                    return *x < *y;
                }
            }
        }
    }
    false
}

/// Whether two values are the same. A number is never the same as a text.
pub fn value_eq(a: &Value, b: &Value) -> bool
    ensures { result ≡ value_eq a.now b.now }
{
    match (a, b) {
        (Value::Num(m), Value::Num(n)) => *m == *n,
        (Value::Text(s), Value::Text(t)) => bytes_same(s.as_slice(), t.as_slice()),
        _ => false,
    }
}

/// Whether one value comes before another of its kind.
pub fn value_below(a: &Value, b: &Value) -> bool
    ensures { result ≡ value_below a.now b.now }
{
    match (a, b) {
        (Value::Num(m), Value::Num(n)) => *m < *n,
        (Value::Text(s), Value::Text(t)) => bytes_below(s.as_slice(), t.as_slice()),
        _ => false,
    }
}

/// Whether two lists of values are the same.
pub fn values_eq(a: &[Value], b: &[Value]) -> bool
    ensures { result ≡ values_eq a.now b.now }
{
    if a.len() != b.len() {
        return false;
    }
    for (i, x) in a.iter().enumerate() {
        if !value_eq(x, &b[i]) {
            return false;
        }
    }
    true
}

/// Whether both sort keys are there, and are the same.
pub fn option_value_eq(a: &Option<Value>, b: &Option<Value>) -> bool
    ensures { result ≡ option_value_eq a.now b.now }
{
    match (a, b) {
        (Some(x), Some(y)) => value_eq(x, y),
        _ => false,
    }
}

/// Whether one sort key comes strictly before another, in the direction of the set.
pub fn sort_key_below(ascending: bool, a: &Option<Value>, b: &Option<Value>) -> bool
    ensures { result ≡ sort_key_below ascending a.now b.now }
{
    match (a, b) {
        (Some(x), Some(y)) => {
            if ascending {
                value_below(x, y)
            } else {
                value_below(y, x)
            }
        }
        _ => false,
    }
}

/// Whether a member with sort key `x` comes before a new one with sort key `new`.
pub fn comes_before(
    ascending: bool,
    duplicates: Duplicates,
    x: &Option<Value>,
    new: &Option<Value>,
) -> bool
    ensures { result ≡ comes_before ascending duplicates x.now new.now }
{
    match duplicates {
        Duplicates::Last => !sort_key_below(ascending, new, x),
        Duplicates::First => sort_key_below(ascending, x, new),
        Duplicates::NotAllowed => sort_key_below(ascending, x, new),
    }
}
