//! How large a schema and programs are.

ghost use Rattle.dbtg_command.specs.Sources.{ReadSchema};
ghost use Rattle.dbtg_running.specs.Checking.{ChecksPrograms, ToldOfCheck, program_line, program_lines};
ghost use Rattle.std.specs.Prelude.{◌≡◌, ◌++◌, IfErr, IfOk, OnOk};

use crate::programs::read_programs;
use dbtg_command::{Fault, Source, read_schema};
use dbtg_program::Program;
use dbtg_schema::Schema;
use dbtg_script::{push_number, push_schema_line};
use std::alloc::{AllocError, Global};

fn push_program_line(out: &mut Vec<u8>, number: usize, program: &Program) -> Result<(), AllocError>
    ensures { OnOk result (out.new.items ≡ out.old.items ++ program_line number program.now) }
{
    out.extend_from_slice(b"program ")?;
    push_number(out, number as u64)?;
    out.extend_from_slice(b": ")?;
    push_number(out, program.lines.len() as u64)?;
    out.extend_from_slice(b" sentences\n")
}

fn push_each_program_line(out: &mut Vec<u8>, programs: &[Program]) -> Result<(), AllocError>
    ensures { OnOk result (out.new.items ≡ out.old.items ++ program_lines 1 programs.now) }
{
    for (i, program) in programs.iter().enumerate() {
        push_program_line(out, i + 1, program)?;
    }
    Ok(())
}

// What is printed of a schema that was read and the programs.
fn check_known<S: Source>(alloc: Global, source: &S, known: &Schema) -> Result<Vec<u8>, Fault>
    requires read { ReadSchema (S.holds source.now) known.now }
    ensures done { IfOk result (λ out. ChecksPrograms (S.holds source.now) (S.count source.now) out.items) }
    ensures refused { IfErr result (λ fault. ToldOfCheck (S.holds source.now) (S.fails source.now) fault (S.count source.now)) }
{
    let programs = read_programs(alloc, source, known)?;
    let mut out = Vec::new(alloc);
    push_schema_line(&mut out, known)?;
    push_each_program_line(&mut out, programs.list.as_slice())?;
    Ok(out)
}

/// What `check` prints of the schema and the programs that a source gives, or the first fault. The programs take the places of
/// scripts.
pub fn check_programs<S: Source>(alloc: Global, source: &S) -> Result<Vec<u8>, Fault>
    ensures done { IfOk result (λ out. ChecksPrograms (S.holds source.now) (S.count source.now) out.items) }
    ensures refused { IfErr result (λ fault. ToldOfCheck (S.holds source.now) (S.fails source.now) fault (S.count source.now)) }
{
    let known = read_schema(alloc, source)?;
    check_known(alloc, source, &known)
}
