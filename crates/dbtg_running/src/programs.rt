//! The programs that a source gives, each judged before the next is read.

ghost use Rattle.dbtg_command.specs.Refusals.{RefusesProgramText};
ghost use Rattle.dbtg_command.specs.Sources.{ToldIn};
ghost use Rattle.dbtg_command.specs.declared.place.TextPlace.TheVariants.{Script};
ghost use Rattle.dbtg_program.specs.Faults.{refusal as program_refusal};
ghost use Rattle.dbtg_program.specs.Reading.{program};
ghost use Rattle.dbtg_running.specs.Reading.{ReadPrograms, ToldOfPrograms};
ghost use Rattle.std.specs.Prelude.{◌≡◌, ◌<◌, ◌≤◌, ◌++◌, ◌∷◌, ℕ, List, [], None, IfErr, IfOk, OnOk, length, map};

use dbtg_command::{Fault, Source, TextPlace, program_of};
use dbtg_program::Program;
use dbtg_schema::{Row, Schema};
use std::alloc::Global;

/// Programs that were read, and the text of each.
#[derive(Drop)]
pub struct Programs {
    pub list: Vec<Program>,
    pub texts: Vec<Row<u8>>,
}

// Reads the program with this number, and appends it to the earlier ones.
fn take_next<S: Source>(
    alloc: Global,
    source: &S,
    schema: &Schema,
    number: usize,
    programs: &mut Programs,
) -> Result<(), Fault>
    requires numbered { 0 < number }
    requires within { number ≤ S.count source.now }
    ensures taken { OnOk result ((text : List ℕ) × S.holds source.now (Script number) text × (program_refusal schema.now text ≡ None) × (programs.new.list.items ≡ programs.old.list.items ++ program schema.now text ∷ []) × (programs.new.texts.items ≡ programs.old.texts.items ++ text ∷ [])) }
    ensures refused { IfErr result (λ fault. ToldIn (S.holds source.now) (S.fails source.now) fault (Script number) (RefusesProgramText fault number schema.now)) }
{
    let text = source.read(alloc, TextPlace::Script(number))?;
    let program = program_of(alloc, schema, number, text.as_slice())?;
    programs.list.push(program)?;
    programs.texts.push(Row::of(text))?;
    Ok(())
}

/// The programs of a source, in their order.
pub fn read_programs<S: Source>(
    alloc: Global,
    source: &S,
    schema: &Schema,
) -> Result<Programs, Fault>
    ensures read { IfOk result (λ programs. (read : ReadPrograms (S.holds source.now) schema.now (S.count source.now)) × (programs.list.items ≡ map (program schema.now) read.texts) × (programs.texts.items ≡ read.texts)) }
    ensures refused { IfErr result (λ fault. ToldOfPrograms (S.holds source.now) (S.fails source.now) fault schema.now (S.count source.now)) }
{
    let mut programs = Programs {
        list: Vec::new(alloc),
        texts: Vec::new(alloc),
    };
    for i in 0..source.count() {
        take_next(alloc, source, schema, i + 1, &mut programs)?;
    }
    Ok(programs)
}
