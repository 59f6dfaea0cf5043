//! The scripts that a source gives, each judged before the next is read.
ghost use Rattle.std.specs.Prelude.{◌≡◌, ◌<◌, ◌≤◌, ◌++◌, ◌∷◌, ℕ, List, [], None, IfErr, IfOk, OnOk, length, map, true};
ghost use Rattle.dbtg_schema.specs.Sound.{IsSound};
ghost use Rattle.dbtg_script.specs.StatementFaults.{refusal as script_refusal};
ghost use Rattle.dbtg_script.specs.Statements.{script};
ghost use Rattle.dbtg_step.specs.Laws.{scripts_fit};
ghost use Rattle.dbtg_command.specs.declared.place.TextPlace.TheVariants.{Script};
ghost use Rattle.dbtg_command.specs.Refusals.{RefusesScriptText};
ghost use Rattle.dbtg_command.specs.Sources.{ReadScripts, ToldIn, ToldOfScripts};

use dbtg_command::{Fault, Source, TextPlace, take_script};
use dbtg_schema::{Row, Schema};
use dbtg_unit::Statement;
use std::alloc::Global;

/// Scripts that were read: the statements of each, and its text.
#[derive(Drop)]
pub struct Scripts {
    pub statements: Row<Row<Statement>>,
    pub texts: Row<Row<u8>>,
}

/// Reads the script with this number, and appends it to the earlier ones.
pub fn take_next<S: Source>(
    alloc: Global,
    source: &S,
    schema: &Schema,
    number: usize,
    scripts: &mut Scripts,
) -> Result<(), Fault>
    requires numbered { 0 < number }
    requires within { number ≤ S.count source.now }
    ensures taken { OnOk result ((text : List ℕ) × S.holds source.now (Script number) text × (script_refusal schema.now text ≡ None) × (scripts.new.statements ≡ scripts.old.statements ++ script schema.now text ∷ []) × (scripts.new.texts ≡ scripts.old.texts ++ text ∷ [])) }
    ensures fitting { IsSound schema.now → scripts_fit schema.now scripts.old.statements ≡ true → OnOk result (scripts_fit schema.now scripts.new.statements ≡ true) }
    ensures refused { IfErr result (λ fault. ToldIn (S.holds source.now) (S.fails source.now) fault (Script number) (RefusesScriptText fault number schema.now)) }
{
    let text = source.read(alloc, TextPlace::Script(number))?;
    take_script(
        alloc,
        &mut scripts.statements,
        schema,
        number,
        text.as_slice(),
    )?;
    scripts.texts.push(Row::of(text))?;
    Ok(())
}

pub fn read_scripts_with_texts<S: Source>(
    alloc: Global,
    source: &S,
    schema: &Schema,
) -> Result<Scripts, Fault>
    ensures read { IfOk result (λ scripts. (read : ReadScripts (S.holds source.now) schema.now (S.count source.now)) × (scripts.statements ≡ map (script schema.now) read.texts) × (scripts.texts ≡ read.texts)) }
    ensures many { IfOk result (λ scripts. length scripts.statements ≡ S.count source.now) }
    ensures fitting { IsSound schema.now → IfOk result (λ scripts. scripts_fit schema.now scripts.statements ≡ true) }
    ensures refused { IfErr result (λ fault. ToldOfScripts (S.holds source.now) (S.fails source.now) fault schema.now (S.count source.now)) }
{
    let mut scripts = Scripts {
        statements: Row::of(Vec::new(alloc)),
        texts: Row::of(Vec::new(alloc)),
    };
    for i in 0..source.count() {
        take_next(alloc, source, schema, i + 1, &mut scripts)?;
    }
    Ok(scripts)
}

pub fn read_scripts<S: Source>(
    alloc: Global,
    source: &S,
    schema: &Schema,
) -> Result<Row<Row<Statement>>, Fault>
    ensures read { IfOk result (λ scripts. (read : ReadScripts (S.holds source.now) schema.now (S.count source.now)) × (scripts ≡ map (script schema.now) read.texts)) }
    ensures many { IfOk result (λ scripts. length scripts ≡ S.count source.now) }
    ensures fitting { IsSound schema.now → IfOk result (λ scripts. scripts_fit schema.now scripts ≡ true) }
    ensures refused { IfErr result (λ fault. ToldOfScripts (S.holds source.now) (S.fails source.now) fault schema.now (S.count source.now)) }
{
    let Scripts {
        statements,
        texts: _,
    } = read_scripts_with_texts(alloc, source, schema)?;
    Ok(statements)
}
