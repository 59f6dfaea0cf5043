//! The text of a run of programs.

ghost use Rattle.dbtg_going.specs.Texts.{count_items, end_text, given_text, program_text, programs_text, standing_text};
ghost use Rattle.std.specs.Prelude.{◌≡◌, ◌++◌, IfOk, OnOk, decimal, drop};

use crate::going::ProgramRun;
use crate::member::{Reached, Standing};
use dbtg_program::{End, Program};
use dbtg_schema::Schema;
use dbtg_script::{has_byte, push_each_item, push_number, push_run};
use std::alloc::{AllocError, Global};

fn push_with_line(out: &mut Vec<u8>, word: &[u8], line: u64) -> Result<(), AllocError>
    ensures { OnOk result (out.new.items ≡ out.old.items ++ (word.now ++ decimal line)) }
{
    out.extend_from_slice(word)?;
    push_number(out, line)
}

/// How a program ended, and in which line.
pub fn push_end(out: &mut Vec<u8>, end: End) -> Result<(), AllocError>
    ensures { OnOk result (out.new.items ≡ out.old.items ++ end_text end) }
{
    match end {
        End::Stop => out.extend_from_slice(b"STOP"),
        End::Assert(line) => push_with_line(out, b"ASSERT line ", line),
        End::Size(line) => push_with_line(out, b"SIZE line ", line),
        End::Astray(line) => push_with_line(out, b"ASTRAY line ", line),
    }
}

fn push_standing(out: &mut Vec<u8>, standing: Standing) -> Result<(), AllocError>
    ensures { OnOk result (out.new.items ≡ out.old.items ++ standing_text standing) }
{
    match standing {
        Standing::Ended(end) => push_end(out, end),
        Standing::Spent => out.extend_from_slice(b"SPENT"),
        Standing::GoesOn => out.extend_from_slice(b"GOES ON"),
    }
}

/// How many fields come before the counters.
pub fn count_items(program: &Program) -> usize
    ensures { result ≡ count_items program.now }
{
    let fields = program.fields.as_slice();
    fields
        .iter()
        .filter(|field| has_byte(field.name.as_slice(), b'.'))
        .count()
}

// The elements of a list without the first `count`.
fn behind<T>(all: &[T], count: usize) -> &[T]
    ensures { result.now ≡ drop count all.now }
{
    &all[count.min(all.len())..]
}

/// Appends the line of a program.
pub fn push_program(
    out: &mut Vec<u8>,
    unit: u64,
    program: &Program,
    reached: &Reached,
) -> Result<(), AllocError>
    ensures { OnOk result (out.new.items ≡ out.old.items ++ program_text unit program.now reached.now) }
{
    let items = count_items(program);
    out.extend_from_slice(b"PROGRAM ")?;
    push_number(out, unit)?;
    out.push(b' ')?;
    push_standing(out, reached.standing)?;
    push_each_item(
        out,
        behind(reached.state.values(), items),
        behind(program.fields.as_slice(), items),
    )?;
    out.push(b'\n')?;
    Ok(())
}

/// Appends the lines of the programs.
pub fn push_each_program(
    out: &mut Vec<u8>,
    programs: &[Program],
    reached: &[Reached],
) -> Result<(), AllocError>
    ensures { OnOk result (out.new.items ≡ out.old.items ++ programs_text 1 programs.now reached.now) }
{
    for (i, program) in programs.iter().enumerate() {
        if i >= reached.len() {
            return Ok(());
        }
        push_program(out, i as u64 + 1, program, &reached[i])?;
    }
    Ok(())
}

/// The output of a run of programs: answers, image and units, and a line for each program.
pub fn run_text(
    alloc: Global,
    schema: &Schema,
    programs: &[Program],
    given: &ProgramRun,
) -> Result<Vec<u8>, AllocError>
    ensures { IfOk result (λ out. out.items ≡ given_text schema.now programs.now given.now) }
{
    let run = &given.run;
    let mut out = Vec::new(alloc);
    push_run(
        alloc,
        &mut out,
        schema,
        run.history.as_slice(),
        &run.image,
        run.units.as_slice(),
    )?;
    push_each_program(&mut out, programs, given.programs.as_slice())?;
    Ok(out)
}
