//! Rows of strings as JSON.
ghost use Rattle.std.specs.Prelude.{◌≡◌, ◌++◌, ◌∷◌, ◌<◌, [], OnOk, codes};
ghost use Rattle.std.specs.List.{flat_map};
ghost use Rattle.dbtg_page.specs.Json.{byte_text, digit, field, is_escaped, quoted, row};

use dbtg_schema::Row;
use std::alloc::AllocError;

fn digit(number: u8) -> u8
    requires { number < 16 }
    ensures { result ≡ digit number }
{
    if number < 10 {
        b'0' + number
    } else {
        b'a' - 10 + number
    }
}

fn is_escaped(byte: u8) -> bool
    ensures { result ≡ is_escaped byte }
{
    byte < b' ' || (b'~' < byte || (byte == b'"' || (byte == b'<' || byte == b'\\')))
}

fn push_byte(out: &mut Vec<u8>, byte: u8) -> Result<(), AllocError>
    ensures { OnOk result (out.new.items ≡ out.old.items ++ byte_text byte) }
{
    if is_escaped(byte) {
        out.extend_from_slice(b"\\u00")?;
        out.push(digit(byte / 16))?;
        out.push(digit(byte % 16))?;
    } else {
        out.push(byte)?;
    }
    Ok(())
}

fn push_each_byte(out: &mut Vec<u8>, text: &[u8]) -> Result<(), AllocError>
    ensures { OnOk result (out.new.items ≡ out.old.items ++ flat_map byte_text text.now) }
{
    for byte in text {
        push_byte(out, *byte)?;
    }
    Ok(())
}

#[tactic(auto, unfolding(crate::specs::Json::quoted))]
fn push_quoted(out: &mut Vec<u8>, text: &[u8]) -> Result<(), AllocError>
    ensures { OnOk result (out.new.items ≡ out.old.items ++ quoted text.now) }
{
    out.push(b'"')?;
    push_each_byte(out, text)?;
    out.extend_from_slice(b"\"")
}

/// Appends a string to its row.
#[tactic(auto, unfolding(crate::specs::Json::field))]
pub fn push_field(out: &mut Vec<u8>, text: &[u8]) -> Result<(), AllocError>
    ensures { OnOk result (out.new.items ≡ out.old.items ++ field text.now) }
{
    out.push(b',')?;
    push_quoted(out, text)
}

/// The start of a row of this kind.
pub fn push_kind(out: &mut Vec<u8>, kind: &[u8]) -> Result<(), AllocError>
    ensures { OnOk result (out.new.items ≡ out.old.items ++ 91 ∷ quoted kind.now) }
{
    out.push(b'[')?;
    push_quoted(out, kind)
}

/// The end of a row.
pub fn push_end(out: &mut Vec<u8>) -> Result<(), AllocError>
    ensures { OnOk result (out.new.items ≡ out.old.items ++ codes "],\n") }
{
    out.extend_from_slice(b"],\n")
}

fn push_each_field(out: &mut Vec<u8>, fields: &[Row<u8>]) -> Result<(), AllocError>
    ensures { OnOk result (out.new.items ≡ out.old.items ++ flat_map field fields.now) }
{
    for text in fields {
        push_field(out, text.as_slice())?;
    }
    Ok(())
}

/// A row of this kind that goes on with these strings.
#[tactic(auto, unfolding(crate::specs::Json::row))]
pub fn push_row(out: &mut Vec<u8>, kind: &[u8], fields: &[Row<u8>]) -> Result<(), AllocError>
    ensures { OnOk result (out.new.items ≡ out.old.items ++ row kind.now fields.now) }
{
    push_kind(out, kind)?;
    push_each_field(out, fields)?;
    push_end(out)
}

/// A row of this kind that goes on with one string.
#[tactic(auto, unfolding(crate::specs::Json::row))]
pub fn push_row_of_one(out: &mut Vec<u8>, kind: &[u8], text: &[u8]) -> Result<(), AllocError>
    ensures { OnOk result (out.new.items ≡ out.old.items ++ row kind.now (text.now ∷ [])) }
{
    push_kind(out, kind)?;
    push_field(out, text)?;
    push_end(out)
}
