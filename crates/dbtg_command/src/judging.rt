//! The first fault of each text that has one.
ghost use Rattle.std.specs.Prelude.{◌≡◌, ◌++◌, ◌≤◌, ◌∷◌, ℕ, List, [], None, IfErr, IfOk, OnOk};
ghost use Rattle.dbtg_command.specs.Checking.{IsAccepted, Refuses, TellsEach, TellsOfScript, TellsOfEachScript};
ghost use Rattle.dbtg_command.specs.Sources.{ReadSchema, ToldIn, ToldOfSchema};
ghost use Rattle.dbtg_command.specs.declared.fault.Fault.{Fault as SeenFault};
ghost use Rattle.dbtg_command.specs.declared.fault.Fault.TheVariants.{Memory};
ghost use Rattle.dbtg_command.specs.declared.place.TextPlace.TheVariants.{Script};

use crate::fault::Fault;
use crate::place::TextPlace;
use crate::reading::{program_of, statements_of};
use crate::source::Source;
use crate::texts::read_schema;
use dbtg_schema::Schema;
use std::alloc::Global;

/// Judges the text of the script, or of the program, with this number.
fn judge_text(
    alloc: Global,
    schema: &Schema,
    programs: bool,
    number: usize,
    text: &[u8],
) -> Result<(), Fault>
    ensures accepted { OnOk result (IsAccepted programs schema.now text.now) }
    ensures told { IfErr result (λ fault. Refuses programs fault number schema.now text.now) }
{
    if programs {
        program_of(alloc, schema, number, text)?;
    } else {
        statements_of(alloc, schema, number, text)?;
    }
    Ok(())
}

/// Reads the script, or the program, with this number, and keeps nothing of it.
fn judge<S: Source>(
    alloc: Global,
    source: &S,
    schema: &Schema,
    programs: bool,
    number: usize,
) -> Result<(), Fault>
    requires place { (1 ≤ number) × (number ≤ S.count source.now) }
    ensures accepted { OnOk result ((text : List ℕ) × S.holds source.now (Script number) text × IsAccepted programs schema.now text) }
    ensures told { IfErr result (λ fault. ToldIn (S.holds source.now) (S.fails source.now) fault (Script number) (Refuses programs fault number schema.now)) }
{
    let text = source.read(alloc, TextPlace::Script(number))?;
    judge_text(alloc, schema, programs, number, text.as_slice())
}

/// Appends the first fault of the script, or of the program, with this number, if it has one.
fn push_fault<S: Source>(
    alloc: Global,
    faults: &mut Vec<Fault>,
    source: &S,
    schema: &Schema,
    programs: bool,
    number: usize,
) -> Result<(), Fault>
    requires place { (1 ≤ number) × (number ≤ S.count source.now) }
    ensures told { OnOk result ((here : List SeenFault) × TellsOfScript (S.holds source.now) (S.fails source.now) programs schema.now number here × (faults.new.items ≡ faults.old.items ++ here)) }
    ensures memory { IfErr result (λ fault. fault ≡ Memory) }
{
    match judge(alloc, source, schema, programs, number) {
        Ok(()) => Ok(()),
        Err(Fault::Memory) => Err(Fault::Memory),
        Err(fault) => {
            faults.push(fault)?;
            Ok(())
        }
    }
}

/// The first fault of each script, or of each program, that has one, in their order.
fn faults_of_scripts<S: Source>(
    alloc: Global,
    source: &S,
    schema: &Schema,
    programs: bool,
) -> Result<Vec<Fault>, Fault>
    ensures told { IfOk result (λ faults. TellsOfEachScript (S.holds source.now) (S.fails source.now) programs schema.now (S.count source.now) faults.items) }
    ensures memory { IfErr result (λ fault. fault ≡ Memory) }
{
    let mut faults = Vec::new(alloc);
    for i in 0..source.count() {
        push_fault(alloc, &mut faults, source, schema, programs, i + 1)?;
    }
    Ok(faults)
}

fn fault_alone(alloc: Global, fault: Fault) -> Result<Vec<Fault>, Fault>
    ensures told { IfOk result (λ faults. faults.items ≡ fault ∷ []) }
    ensures memory { IfErr result (λ fault. fault ≡ Memory) }
{
    let mut faults = Vec::new(alloc);
    faults.push(fault)?;
    Ok(faults)
}

/// The first fault of each text that has one: only of the schema if that is refused, since no script and no program can be judged
/// without it.
pub fn each_fault<S: Source>(alloc: Global, source: &S, programs: bool) -> Result<Vec<Fault>, Fault>
    ensures told { IfOk result (λ faults. TellsEach (S.holds source.now) (S.fails source.now) programs (S.count source.now) faults.items) }
    ensures memory { IfErr result (λ fault. fault ≡ Memory) }
{
    match read_schema(alloc, source) {
        Ok(known) => { faults_of_scripts(alloc, source, &known, programs) }
        Err(Fault::Memory) => Err(Fault::Memory),
        Err(fault) => fault_alone(alloc, fault),
    }
}
