//! The line that reports where a trace differs.
ghost use Rattle.std.specs.Prelude.{◌≡◌, ◌++◌, OnOk};
ghost use Rattle.dbtg_audit.specs.Telling.{difference_text, is_text, said_text};

use dbtg_schema::Schema;
use dbtg_script::{push_answered, push_number};
use dbtg_trace::Said;
use dbtg_unit::Entry;
use std::alloc::AllocError;

// The line of the trace, and what it says of the answer.
fn push_said(out: &mut Vec<u8>, schema: &Schema, line: u64, said: &Said) -> Result<(), AllocError>
    ensures { OnOk result (out.new.items ≡ out.old.items ++ said_text schema.now line said.now) }
{
    out.extend_from_slice(b"trace differs line ")?;
    push_number(out, line)?;
    out.extend_from_slice(b": said ")?;
    push_answered(out, schema, said.status, said.key, said.items.as_ref())
}

// The answer, at the line's end.
fn push_is(out: &mut Vec<u8>, schema: &Schema, entry: &Entry) -> Result<(), AllocError>
    ensures { OnOk result (out.new.items ≡ out.old.items ++ is_text schema.now entry.now) }
{
    let answer = &entry.answer;
    let status = answer.status.code(&entry.statement);
    out.extend_from_slice(b", is ")?;
    push_answered(out, schema, status, answer.key, answer.items.as_ref())?;
    out.push(b'\n')?;
    Ok(())
}

/// Appends a line: the line of the trace, what it says of the entry's answer, and the answer.
pub fn push_difference(
    out: &mut Vec<u8>,
    schema: &Schema,
    line: u64,
    said: &Said,
    entry: &Entry,
) -> Result<(), AllocError>
    ensures { OnOk result (out.new.items ≡ out.old.items ++ difference_text schema.now line said.now entry.now) }
{
    push_said(out, schema, line, said)?;
    push_is(out, schema, entry)
}
