//! How large schemas and scripts are, as `check` prints it; and the whole output of a run, as `replay` prints it.

ghost use Rattle.dbtg_script.specs.Printing.Echo.{echoed_run_text};
ghost use Rattle.dbtg_script.specs.Printing.Texts.{count_part, name_part, run_text, schema_line, script_line, text_behind};
ghost use Rattle.std.specs.Prelude.{◌≡◌, ◌++◌, [], IfOk, OnOk};

use crate::echo::{Beside, echo_text};
use crate::image::image_text;
use crate::print::push_number;
use crate::texts::{push_each_answer, units_text};
use dbtg_schema::Schema;
use dbtg_unit::{Entry, Image, Unit};
use std::alloc::{AllocError, Global};

fn push_name(out: &mut Vec<u8>, name: &[u8]) -> Result<(), AllocError>
    ensures { OnOk result (out.new.items ≡ out.old.items ++ name_part name.now) }
{
    out.extend_from_slice(b"schema ")?;
    out.extend_from_slice(name)?;
    out.extend_from_slice(b": ")
}

fn push_count(out: &mut Vec<u8>, count: usize, word: &[u8]) -> Result<(), AllocError>
    ensures { OnOk result (out.new.items ≡ out.old.items ++ count_part count word.now) }
{
    push_number(out, count as u64)?;
    out.extend_from_slice(word)
}

/// Appends a line: the name of a schema, and how many areas, record types and sets it has.
pub fn push_schema_line(out: &mut Vec<u8>, schema: &Schema) -> Result<(), AllocError>
    ensures { OnOk result (out.new.items ≡ out.old.items ++ schema_line schema.now) }
{
    push_name(out, schema.name())?;
    push_count(out, schema.areas().len(), b" areas, ")?;
    push_count(out, schema.types().len(), b" records, ")?;
    push_count(out, schema.sets().len(), b" sets\n")
}

/// Appends a line: the number of a script, from 1, and how many statements it has.
pub fn push_script_line(out: &mut Vec<u8>, number: usize, count: usize) -> Result<(), AllocError>
    ensures { OnOk result (out.new.items ≡ out.old.items ++ script_line number count) }
{
    out.extend_from_slice(b"script ")?;
    push_count(out, number, b": ")?;
    push_count(out, count, b" statements\n")
}

/// The output of a run after its answers: a line of two hyphens, the image, the units.
pub fn push_rest(
    alloc: Global,
    out: &mut Vec<u8>,
    schema: &Schema,
    image: &Image,
    units: &[Unit],
) -> Result<(), AllocError>
    ensures { OnOk result (out.new.items ≡ out.old.items ++ text_behind [] schema.now image.now.records image.now.lists image.now.next image.now.usage units.now) }
{
    out.extend_from_slice(b"--\n")?;
    out.extend_from_slice(image_text(alloc, schema, image)?.as_slice())?;
    out.extend_from_slice(units_text(alloc, schema, units)?.as_slice())
}

/// The output of a run without its moves: the answers, a line of two hyphens, the image, the units.
pub fn push_run(
    alloc: Global,
    out: &mut Vec<u8>,
    schema: &Schema,
    history: &[Entry],
    image: &Image,
    units: &[Unit],
) -> Result<(), AllocError>
    ensures { OnOk result (out.new.items ≡ out.old.items ++ run_text schema.now history.now image.now.records image.now.lists image.now.next image.now.usage units.now) }
{
    push_each_answer(out, schema, history)?;
    push_rest(alloc, out, schema, image, units)
}

/// The same, with the statement of each answer before it, as the texts of the scripts have it, and below it the note of its ticket.
pub fn push_echoed_run(
    alloc: Global,
    out: &mut Vec<u8>,
    schema: &Schema,
    beside: Beside,
    history: &[Entry],
    image: &Image,
    units: &[Unit],
) -> Result<(), AllocError>
    ensures { OnOk result (out.new.items ≡ out.old.items ++ echoed_run_text schema.now beside.entry.texts.now beside.entry.notes.now history.now image.now.records image.now.lists image.now.next image.now.usage units.now) }
{
    let answers = echo_text(alloc, schema, beside, history)?;
    out.extend_from_slice(answers.as_slice())?;
    push_rest(alloc, out, schema, image, units)
}
