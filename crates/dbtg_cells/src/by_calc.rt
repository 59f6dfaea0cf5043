//! The live numbers of a record type, ordered by their CALC values and, if these are equal, ascending. A look-up by values
//! halves the list and takes no memory.
ghost use Rattle.std.specs.Prelude.{◌≡◌, ◌<◌, ◌≤◌, ◌^◌, IsTrue, Some, true, not, ◌==◌, length, filter, nat_lt, slice_get, vec_capacity};
ghost use Rattle.std.specs.List.{list_any, position_or_len, slice_index_or};
ghost use Rattle.std.specs.Ordering.{ordering_then, nat_cmp, is_lt};
ghost use Rattle.std.specs.Cmp.Lexicographic.{slice_cmp};
ghost use Rattle.dbtg_schema.specs.Lookups.{first as first_in, some_and};
ghost use Rattle.dbtg_cells.specs.Keys.{picked};
ghost use Rattle.dbtg_cells.specs.Placed.{before};
ghost use Rattle.dbtg_cells.specs.Numbers.{numbers_where, is_used, has_values, entry_of, with_entry};
ghost use Rattle.dbtg_cells.specs.Inside.ByCalc.{value_cmp, values_of, is_behind, stands_before, is_rising, IsByCalc};

use crate::extent::{Number, entry_at, insert_number, number_at, remove_number, set_entry};
use crate::key::Value;
use dbtg_schema::ItemNo;
use std::cmp::Ordering;

fn value_cmp(a: &Value, b: &Value) -> Ordering
    ensures { result ≡ value_cmp a.now b.now }
{
    match (a, b) {
        (Value::Num(m), Value::Num(n)) => m.cmp(n),
        (Value::Text(s), Value::Text(t)) => s.as_slice().cmp(t.as_slice()),
        (Value::Num(_), Value::Text(_)) => Ordering::Less,
        (Value::Text(_), Value::Num(_)) => Ordering::Greater,
    }
}

// The first values that differ decide; if none do, the lengths.
fn values_cmp(a: &[Value], b: &[Value]) -> Ordering
    ensures { result ≡ slice_cmp value_cmp a.now b.now }
{
    for (i, x) in a.iter().enumerate() {
        match b.get(i) {
            None => return Ordering::Greater,
            Some(y) => match value_cmp(x, y) {
                Ordering::Less => return Ordering::Less,
                Ordering::Greater => return Ordering::Greater,
                Ordering::Equal => {}
            },
        }
    }
    if a.len() < b.len() {
        Ordering::Less
    } else {
        Ordering::Equal
    }
}

fn compare_item(items: &[Value], item: ItemNo, value: &Value) -> Ordering
    ensures { result ≡ value_cmp (slice_index_or items.now item (Value.Num 0)) value.now }
{
    match items.get(item.index() as usize) {
        Some(own) => value_cmp(own, value),
        None => value_cmp(&Value::Num(0), value),
    }
}

// Compares some items with some values.
pub(crate) fn compare_picked(item_numbers: &[ItemNo], items: &[Value], values: &[Value]) -> Ordering
    ensures { result ≡ slice_cmp value_cmp (picked item_numbers.now items.now) values.now }
{
    for (i, item) in item_numbers.iter().enumerate() {
        match values.get(i) {
            None => return Ordering::Greater,
            Some(value) => match compare_item(items, *item, value) {
                Ordering::Less => return Ordering::Less,
                Ordering::Greater => return Ordering::Greater,
                Ordering::Equal => {}
            },
        }
    }
    if item_numbers.len() < values.len() {
        Ordering::Less
    } else {
        Ordering::Equal
    }
}

// The CALC values of a number; none if it is not live.
fn values_at(numbers: &[Number], number: u32) -> &[Value]
    ensures { result.now ≡ values_of numbers.now number }
{
    match entry_at(numbers, number) {
        Some(entry) => match &entry.calc {
            Some(values) => values.as_slice(),
            None => &[],
        },
        None => &[],
    }
}

// Whether a number comes after a place, by the order of the values and then of the numbers.
fn is_past(by_values: Ordering, number: u32, other: u32) -> bool
    ensures { result ≡ is_lt (ordering_then by_values (nat_cmp number other)) }
{
    match by_values {
        Ordering::Less => true,
        Ordering::Equal => number < other,
        Ordering::Greater => false,
    }
}

// Whether another number comes after the place of these values and this number.
fn is_behind(numbers: &[Number], values: &[Value], number: u32, other: u32) -> bool
    ensures { result ≡ is_behind numbers.now (values.now, number) other }
{
    is_past(values_cmp(values, values_at(numbers, other)), number, other)
}

// The place of the first number after this place, or the length.
fn place_of(listed: &[u32], numbers: &[Number], values: &[Value], number: u32) -> usize
    requires { is_rising (stands_before numbers.now) listed.now ≡ true }
    ensures at { result ≡ position_or_len (is_behind numbers.now (values.now, number)) listed.now }
    ensures within { result ≤ length listed.now }
{
    listed.partition_point(|other| !is_behind(numbers, values, number, *other))
}

// The first number after a place.
fn first_behind(listed: &[u32], numbers: &[Number], values: &[Value], number: u32) -> Option<u32>
    requires { is_rising (stands_before numbers.now) listed.now ≡ true }
    ensures { result ≡ first_in (filter (is_behind numbers.now (values.now, number)) listed.now) }
{
    let at = place_of(listed, numbers, values, number);
    number_at(listed, at)
}

fn entry_has_values(numbers: &[Number], number: u32, values: &[Value]) -> bool
    ensures { result ≡ some_and (has_values values.now) (entry_of number numbers.now) }
{
    matches!(entry_at(numbers, number), Some(entry) if entry.has_values(values))
}

// The least number above another whose entry has the values.
pub(crate) fn next_by_calc(
    listed: &[u32],
    numbers: &[Number],
    values: &[Value],
    number: u32,
) -> Option<u32>
    requires { IsByCalc numbers.now listed.now }
    ensures { result ≡ first_in (filter (nat_lt number) (numbers_where (has_values values.now) numbers.now)) }
{
    match first_behind(listed, numbers, values, number) {
        Some(found) => {
            if entry_has_values(numbers, found, values) {
                Some(found)
            } else {
                None
            }
        }
        None => None,
    }
}

// Whether another number comes after the place of these items and this number.
fn is_behind_picked(
    numbers: &[Number],
    item_numbers: &[ItemNo],
    items: &[Value],
    number: u32,
    other: u32,
) -> bool
    ensures { result ≡ is_behind numbers.now (picked item_numbers.now items.now, number) other }
{
    is_past(
        compare_picked(item_numbers, items, values_at(numbers, other)),
        number,
        other,
    )
}

// The place of the first number after such a place, or the length.
fn place_of_picked(
    listed: &[u32],
    numbers: &[Number],
    item_numbers: &[ItemNo],
    items: &[Value],
    number: u32,
) -> usize
    requires { is_rising (stands_before numbers.now) listed.now ≡ true }
    ensures at { result ≡ position_or_len (is_behind numbers.now (picked item_numbers.now items.now, number)) listed.now }
    ensures within { result ≤ length listed.now }
{
    listed.partition_point(|other| !is_behind_picked(numbers, item_numbers, items, number, *other))
}

fn entry_has_picked(
    numbers: &[Number],
    number: u32,
    item_numbers: &[ItemNo],
    items: &[Value],
) -> bool
    ensures { result ≡ some_and (has_values (picked item_numbers.now items.now)) (entry_of number numbers.now) }
{
    matches!(entry_at(numbers, number), Some(entry) if entry.has_picked(item_numbers, items))
}

// The least number above another whose entry has the items with these numbers.
pub(crate) fn next_picked(
    listed: &[u32],
    numbers: &[Number],
    item_numbers: &[ItemNo],
    items: &[Value],
    number: u32,
) -> Option<u32>
    requires { IsByCalc numbers.now listed.now }
    ensures { result ≡ first_in (filter (nat_lt number) (numbers_where (has_values (picked item_numbers.now items.now)) numbers.now)) }
{
    let at = place_of_picked(listed, numbers, item_numbers, items, number);
    match number_at(listed, at) {
        Some(found) => {
            if entry_has_picked(numbers, found, item_numbers, items) {
                Some(found)
            } else {
                None
            }
        }
        None => None,
    }
}

// Whether the last listed number, and so every one, stands before the place of these values and this number.
fn is_past_all(listed: &[u32], numbers: &[Number], values: &[Value], number: u32) -> bool
    requires { is_rising (stands_before numbers.now) listed.now ≡ true }
    ensures { IsTrue result → position_or_len (is_behind numbers.now (values.now, number)) listed.now ≡ length listed.now }
{
    if listed.is_empty() {
        return true;
    }
    !is_behind(numbers, values, number, listed[listed.len() - 1])
}

// The place of the first number after a place, or the length. A new number mostly goes last.
fn place_of_new(listed: &[u32], numbers: &[Number], values: &[Value], number: u32) -> usize
    requires { is_rising (stands_before numbers.now) listed.now ≡ true }
    ensures at { result ≡ position_or_len (is_behind numbers.now (values.now, number)) listed.now }
    ensures within { result ≤ length listed.now }
{
    if is_past_all(listed, numbers, values, number) {
        listed.len()
    } else {
        place_of(listed, numbers, values, number)
    }
}

// Puts a number into the list, in the place of its values.
pub(crate) fn list_by_calc(listed: &mut Vec<u32>, numbers: &[Number], number: u32)
    requires rising { is_rising (stands_before numbers.now) listed.old.items ≡ true }
    requires room { length listed.old.items < vec_capacity listed.old }
    ensures items { listed.new.items ≡ before (stands_before numbers.now number) number listed.old.items }
    ensures capacity { vec_capacity listed.new ≡ vec_capacity listed.old }
{
    let values = values_at(numbers, number);
    let at = place_of_new(listed.as_slice(), numbers, values, number);
    insert_number(listed, at, number);
}

// The place of a listed number: the first after the place of its values and the number below it. Numbers that are removed one
// after another mostly stand first.
fn place_of_listed(listed: &[u32], numbers: &[Number], number: u32) -> usize
    requires rising { is_rising (stands_before numbers.now) listed.now ≡ true }
    requires some { 0 < number }
    ensures { list_any (λ n. n == number) listed.now ≡ true → slice_get listed.now result ≡ Some number }
{
    match number_at(listed, 0) {
        Some(first) if first == number => 0,
        _ => place_of(listed, numbers, values_at(numbers, number), number - 1),
    }
}

// Takes a number out of the list.
pub(crate) fn drop_by_calc(listed: &mut Vec<u32>, numbers: &[Number], number: u32)
    requires rising { is_rising (stands_before numbers.now) listed.old.items ≡ true }
    requires some { 0 < number }
    ensures items { listed.new.items ≡ filter (λ n. not (n == number)) listed.old.items }
    ensures capacity { vec_capacity listed.new ≡ vec_capacity listed.old }
{
    let at = place_of_listed(listed.as_slice(), numbers, number);
    remove_number(listed, at, number);
}

// Gives a live number another entry, and moves it to the place of its new values.
pub(crate) fn list_again(
    listed: &mut Vec<u32>,
    numbers: &mut Vec<Number>,
    number: u32,
    entry: Number,
)
    requires listed { IsByCalc numbers.old.items listed.old.items }
    requires room { length numbers.old.items ≤ vec_capacity listed.old }
    requires was { IsTrue (some_and is_used (entry_of number numbers.old.items)) }
    requires stays { IsTrue (is_used entry) }
    ensures written { numbers.new.items ≡ with_entry number entry numbers.old.items }
    ensures listed { IsByCalc numbers.new.items listed.new.items }
    ensures capacity { vec_capacity listed.new ≡ vec_capacity listed.old }
    ensures numbers_capacity { vec_capacity numbers.new ≡ vec_capacity numbers.old }
{
    drop_by_calc(listed, numbers.as_slice(), number);
    set_entry(numbers, number, entry);
    list_by_calc(listed, numbers.as_slice(), number);
}
