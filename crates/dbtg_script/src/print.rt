//! Keys, values, places and lines of printed texts, appended byte by byte.

ghost use Rattle.dbtg_script.specs.Printing.Appending.{Appends};
ghost use Rattle.dbtg_script.specs.Printing.Texts.{at_text, current_text, four_digits, generation_text, items_text, key_text, kept_entry, kept_text, mode_text, owner_text, place_text, spaced_key, type_name, value_text};
ghost use Rattle.std.specs.List.{flat_map};
ghost use Rattle.std.specs.Prelude.{◌≡◌, ◌+◌, ◌++◌, ◌∷◌, [], ◌<◌, OnOk, decimal};

use dbtg_cells::{DbKey, Mode, Owner, Value};
use dbtg_schema::{Item, RecordNo, Schema};
use dbtg_unit::Place;
use itoa::Buffer;
use std::alloc::AllocError;

#[tactic(auto, using(crate::proofs::Printing::DecimalSteps::one_digit))]
fn push_digit(out: &mut Vec<u8>, digit: u64) -> Result<(), AllocError>
    requires { digit < 10 }
    ensures { Appends (decimal digit) out.old result out.new }
{
    out.push(b'0' + digit as u8)?;
    Ok(())
}

#[tactic(auto, using(crate::proofs::Printing::DecimalSteps::two_digits))]
fn push_two(out: &mut Vec<u8>, n: u64) -> Result<(), AllocError>
    requires { n < 100 }
    ensures { Appends (decimal n) out.old result out.new }
{
    if n < 10 {
        return push_digit(out, n);
    }
    let digits = [b'0' + (n / 10) as u8, b'0' + (n % 10) as u8];
    out.extend_from_slice(&digits)
}

#[tactic(auto, using(crate::proofs::Printing::DecimalSteps::three_digits))]
fn push_three(out: &mut Vec<u8>, n: u64) -> Result<(), AllocError>
    requires { n < 1000 }
    ensures { Appends (decimal n) out.old result out.new }
{
    if n < 100 {
        return push_two(out, n);
    }
    let tens = n / 10;
    let digits = [
        b'0' + (tens / 10) as u8,
        b'0' + (tens % 10) as u8,
        b'0' + (n % 10) as u8,
    ];
    out.extend_from_slice(&digits)
}

/// A number of at most four digits, without a buffer.
#[tactic(auto, using(crate::proofs::Printing::DecimalSteps::digits_of_four))]
fn push_four(out: &mut Vec<u8>, n: u64) -> Result<(), AllocError>
    requires { n < 10000 }
    ensures { Appends (decimal n) out.old result out.new }
{
    if n < 1000 {
        return push_three(out, n);
    }
    let tens = n / 10;
    let hundreds = tens / 10;
    let digits = [
        b'0' + (hundreds / 10) as u8,
        b'0' + (hundreds % 10) as u8,
        b'0' + (tens % 10) as u8,
        b'0' + (n % 10) as u8,
    ];
    out.extend_from_slice(&digits)
}

/// A number of at most eight digits is appended without a buffer.
pub fn push_number(out: &mut Vec<u8>, n: u64) -> Result<(), AllocError>
    ensures { Appends (decimal n) out.old result out.new }
{
    if n < 10_000 {
        return push_four(out, n);
    }
    if n < 100_000_000 {
        push_four(out, n / 10_000)?;
        return push_four_digits(out, (n % 10_000) as u16);
    }
    push_long(out, n)
}

/// A byte, and a number behind it.
pub fn push_marked_number(out: &mut Vec<u8>, mark: u8, n: u64) -> Result<(), AllocError>
    ensures { Appends (mark ∷ decimal n) out.old result out.new }
{
    out.push(mark)?;
    push_number(out, n)
}

// A number of any length. It stands apart, since its buffer takes room at each call.
#[inline(never)]
fn push_long(out: &mut Vec<u8>, n: u64) -> Result<(), AllocError>
    ensures { Appends (decimal n) out.old result out.new }
{
    let mut buffer = Buffer::new();
    out.extend_from_slice(buffer.format(n).as_bytes())
}

// The last four digits of a number, with zeros in front.
fn push_four_digits(out: &mut Vec<u8>, n: u16) -> Result<(), AllocError>
    ensures { Appends (four_digits n) out.old result out.new }
{
    let digits = [
        b'0' + (n / 1000) as u8,
        b'0' + (n / 100 % 10) as u8,
        b'0' + (n / 10 % 10) as u8,
        b'0' + (n % 10) as u8,
    ];
    out.extend_from_slice(&digits)
}

/// A status as four digits.
pub fn push_status(out: &mut Vec<u8>, status: u16) -> Result<(), AllocError>
    ensures { Appends (four_digits status) out.old result out.new }
{
    push_four_digits(out, status)
}

/// The number of a unit and a status, each after a space. If the unit has one digit, all are appended at once.
pub fn push_unit_and_status(out: &mut Vec<u8>, unit: u8, status: u16) -> Result<(), AllocError>
    ensures { Appends (32 ∷ decimal unit ++ 32 ∷ four_digits status) out.old result out.new }
{
    if unit < 10 {
        let bytes = [
            b' ',
            b'0' + unit,
            b' ',
            b'0' + (status / 1000) as u8,
            b'0' + (status / 100 % 10) as u8,
            b'0' + (status / 10 % 10) as u8,
            b'0' + (status % 10) as u8,
        ];
        return out.extend_from_slice(&bytes);
    }
    push_marked_number(out, b' ', unit as u64)?;
    out.push(b' ')?;
    push_status(out, status)
}

fn type_name(schema: &Schema, rtype: RecordNo) -> &[u8]
    ensures { result.now ≡ type_name schema.now rtype }
{
    match schema.rtype_name(rtype) {
        Some(name) => name,
        None => b"",
    }
}

fn push_generation(out: &mut Vec<u8>, generation: u8) -> Result<(), AllocError>
    ensures { Appends (generation_text generation) out.old result out.new }
{
    if generation == 1 {
        return Ok(());
    }
    push_marked_number(out, b'.', generation as u64)
}

/// The name of the record type, the number, and the generation if it is above the first.
pub fn push_key(out: &mut Vec<u8>, schema: &Schema, key: &DbKey) -> Result<(), AllocError>
    ensures { Appends (key_text schema.now key.now) out.old result out.new }
{
    out.extend_from_slice(type_name(schema, key.rtype))?;
    push_marked_number(out, b':', key.number as u64)?;
    push_generation(out, key.generation)
}

pub fn push_spaced_key(out: &mut Vec<u8>, schema: &Schema, key: &DbKey) -> Result<(), AllocError>
    ensures { Appends (spaced_key schema.now key.now) out.old result out.new }
{
    out.push(b' ')?;
    push_key(out, schema, key)
}

pub fn push_each_key(out: &mut Vec<u8>, schema: &Schema, keys: &[DbKey]) -> Result<(), AllocError>
    ensures { OnOk result (out.new.items ≡ out.old.items ++ flat_map (spaced_key schema.now) keys.now) }
{
    for key in keys {
        push_spaced_key(out, schema, key)?;
    }
    Ok(())
}

fn push_value(out: &mut Vec<u8>, value: &Value) -> Result<(), AllocError>
    ensures { Appends (value_text value.now) out.old result out.new }
{
    match value {
        Value::Num(n) => push_number(out, *n),
        Value::Text(text) => {
            out.push(b'"')?;
            out.extend_from_slice(text.as_slice())?;
            out.extend_from_slice(b"\"")
        }
    }
}

fn push_item(out: &mut Vec<u8>, name: &[u8], value: &Value) -> Result<(), AllocError>
    ensures { Appends (32 ∷ name.now ++ 61 ∷ value_text value.now) out.old result out.new }
{
    out.push(b' ')?;
    out.extend_from_slice(name)?;
    out.push(b'=')?;
    push_value(out, value)
}

/// Each value after the name of its item.
pub fn push_each_item(out: &mut Vec<u8>, values: &[Value], items: &[Item]) -> Result<(), AllocError>
    ensures { Appends (items_text values.now items.now) out.old result out.new }
{
    for (i, value) in values.iter().enumerate() {
        if i >= items.len() {
            return Ok(());
        }
        push_item(out, items[i].name.as_slice(), value)?;
    }
    Ok(())
}

/// The key of a record, or SYSTEM.
pub fn push_owner(out: &mut Vec<u8>, schema: &Schema, owner: &Owner) -> Result<(), AllocError>
    ensures { OnOk result (out.new.items ≡ out.old.items ++ owner_text schema.now owner.now) }
{
    match owner {
        Owner::System => out.extend_from_slice(b"SYSTEM"),
        Owner::Rec(key) => push_key(out, schema, key),
    }
}

fn mode_text(mode: Mode) -> &'static str
    ensures { result.now ≡ mode_text mode }
{
    match mode {
        Mode::Retrieval => "RETRIEVAL",
        Mode::Update => "UPDATE",
        Mode::ProtectedRetrieval => "PROTECTED-RETRIEVAL",
        Mode::ProtectedUpdate => "PROTECTED-UPDATE",
        Mode::ExclusiveRetrieval => "EXCLUSIVE-RETRIEVAL",
        Mode::ExclusiveUpdate => "EXCLUSIVE-UPDATE",
    }
}

/// A usage mode as one word.
pub fn push_mode(out: &mut Vec<u8>, mode: Mode) -> Result<(), AllocError>
    ensures { OnOk result (out.new.items ≡ out.old.items ++ mode_text mode) }
{
    out.extend_from_slice(mode_text(mode).as_bytes())
}

/// A current; a dash for none.
pub fn push_current(
    out: &mut Vec<u8>,
    schema: &Schema,
    current: Option<DbKey>,
) -> Result<(), AllocError>
    ensures { OnOk result (out.new.items ≡ out.old.items ++ current_text schema.now current) }
{
    match current {
        None => out.extend_from_slice(b" -"),
        Some(key) => push_spaced_key(out, schema, &key),
    }
}

pub fn push_each_current(
    out: &mut Vec<u8>,
    schema: &Schema,
    currents: &[Option<DbKey>],
) -> Result<(), AllocError>
    ensures { OnOk result (out.new.items ≡ out.old.items ++ flat_map (current_text schema.now) currents.now) }
{
    for current in currents {
        push_current(out, schema, *current)?;
    }
    Ok(())
}

fn push_at(out: &mut Vec<u8>, schema: &Schema, at: Option<DbKey>) -> Result<(), AllocError>
    ensures { OnOk result (out.new.items ≡ out.old.items ++ at_text schema.now at) }
{
    match at {
        None => out.extend_from_slice(b"OWNER"),
        Some(key) => push_key(out, schema, &key),
    }
}

fn push_place(out: &mut Vec<u8>, schema: &Schema, place: Option<Place>) -> Result<(), AllocError>
    ensures { OnOk result (out.new.items ≡ out.old.items ++ place_text schema.now place) }
{
    match place {
        None => out.extend_from_slice(b" -"),
        Some(place) => {
            out.push(b' ')?;
            push_owner(out, schema, &place.owner)?;
            out.push(b'/')?;
            push_at(out, schema, place.at)
        }
    }
}

pub fn push_each_place(
    out: &mut Vec<u8>,
    schema: &Schema,
    places: &[Option<Place>],
) -> Result<(), AllocError>
    ensures { OnOk result (out.new.items ≡ out.old.items ++ flat_map (place_text schema.now) places.now) }
{
    for place in places {
        push_place(out, schema, *place)?;
    }
    Ok(())
}

fn push_kept_entry(
    out: &mut Vec<u8>,
    schema: &Schema,
    entry: &(DbKey, u64),
) -> Result<(), AllocError>
    ensures { OnOk result (out.new.items ≡ out.old.items ++ kept_entry schema.now entry.now) }
{
    push_spaced_key(out, schema, &entry.0)?;
    push_marked_number(out, b'/', entry.1)
}

fn push_kept_entries(
    out: &mut Vec<u8>,
    schema: &Schema,
    kept: &[(DbKey, u64)],
) -> Result<(), AllocError>
    ensures { OnOk result (out.new.items ≡ out.old.items ++ flat_map (kept_entry schema.now) kept.now) }
{
    for entry in kept {
        push_kept_entry(out, schema, entry)?;
    }
    Ok(())
}

/// The records that a unit keeps; nothing if it keeps none.
pub fn push_kept(
    out: &mut Vec<u8>,
    schema: &Schema,
    kept: &[(DbKey, u64)],
) -> Result<(), AllocError>
    ensures { OnOk result (out.new.items ≡ out.old.items ++ kept_text schema.now kept.now) }
{
    match kept.split_first() {
        None => Ok(()),
        Some(_) => {
            out.extend_from_slice(b" KEPT")?;
            push_kept_entries(out, schema, kept)
        }
    }
}
