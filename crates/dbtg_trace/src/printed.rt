//! The trace of a history: who asked what, in the order of the tickets, and what was answered.

ghost use Rattle.dbtg_script.specs.Printing.Texts.{text_behind};
ghost use Rattle.dbtg_trace.specs.Printing.{trace_line, trace_lines, trace_text};
ghost use Rattle.std.specs.Prelude.{◌≡◌, ◌++◌, IfOk, OnOk, map};

use dbtg_schema::{Row, Schema};
use dbtg_script::{lines_of_history, push_answered, push_number, push_rest};
use dbtg_unit::{Entry, Image, Unit};
use std::alloc::{AllocError, Global};

// The line of an entry, with its statement in this spelling.
fn push_line(
    out: &mut Vec<u8>,
    schema: &Schema,
    statement: &[u8],
    entry: &Entry,
) -> Result<(), AllocError>
    ensures { OnOk result (out.new.items ≡ out.old.items ++ trace_line schema.now statement.now entry.now) }
{
    let answer = &entry.answer;
    let status = answer.status.code(&entry.statement);
    push_number(out, entry.unit as u64)?;
    out.extend_from_slice(b": ")?;
    out.extend_from_slice(statement)?;
    out.extend_from_slice(b" => ")?;
    push_answered(out, schema, status, answer.key, answer.items.as_ref())?;
    out.push(b'\n')?;
    Ok(())
}

fn push_each_line(
    out: &mut Vec<u8>,
    schema: &Schema,
    statements: &[&[u8]],
    history: &[Entry],
) -> Result<(), AllocError>
    ensures { OnOk result (out.new.items ≡ out.old.items ++ trace_lines schema.now (map (λ l. l.now) statements.now) history.now) }
{
    for (i, statement) in statements.iter().enumerate() {
        if i >= history.len() {
            return Ok(());
        }
        push_line(out, schema, *statement, &history[i])?;
    }
    Ok(())
}

/// Appends the trace of a history. Each statement is spelled as the texts of the scripts have it.
pub fn push_trace(
    alloc: Global,
    out: &mut Vec<u8>,
    schema: &Schema,
    texts: &[Row<u8>],
    history: &[Entry],
) -> Result<(), AllocError>
    ensures { OnOk result (out.new.items ≡ out.old.items ++ trace_text schema.now texts.now history.now) }
{
    let statements = lines_of_history(alloc, texts, history)?;
    push_each_line(out, schema, statements.as_slice(), history)
}

/// The output of a run without its moves, with the trace of its history in place of the answers.
pub fn push_traced_run(
    alloc: Global,
    out: &mut Vec<u8>,
    schema: &Schema,
    texts: &[Row<u8>],
    history: &[Entry],
    image: &Image,
    units: &[Unit],
) -> Result<(), AllocError>
    ensures { OnOk result (out.new.items ≡ out.old.items ++ text_behind (trace_text schema.now texts.now history.now) schema.now image.now.records image.now.lists image.now.next image.now.usage units.now) }
{
    push_trace(alloc, out, schema, texts, history)?;
    push_rest(alloc, out, schema, image, units)
}
