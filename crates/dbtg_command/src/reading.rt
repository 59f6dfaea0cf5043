//! Reading what a command is given; the readers' faults become the program's.
ghost use Rattle.std.specs.Prelude.{◌≡◌, ◌++◌, ◌∷◌, [], None, IfErr, IfOk, OnOk, true};
ghost use Rattle.std.specs.List.{list_all};
ghost use Rattle.dbtg_program.specs.Faults.{refusal as program_refusal};
ghost use Rattle.dbtg_program.specs.Reading.{program};
ghost use Rattle.dbtg_schema.specs.Texts.SchemaFaults.{refusal as schema_refusal};
ghost use Rattle.dbtg_schema.specs.Sound.{IsSound};
ghost use Rattle.dbtg_script.specs.Moves.{refusal as moves_refusal};
ghost use Rattle.dbtg_script.specs.StatementFaults.{refusal as script_refusal};
ghost use Rattle.dbtg_script.specs.Statements.{script};
ghost use Rattle.dbtg_script.specs.Turns.{turns_refusal};
ghost use Rattle.dbtg_unit.specs.Database.Statements.Fits.{fits};
ghost use Rattle.dbtg_trace.specs.Faults.{refusal as trace_refusal};
ghost use Rattle.dbtg_trace.specs.Parts.{is_unit};
ghost use Rattle.dbtg_trace.specs.Traces.{trace};
ghost use Rattle.dbtg_command.specs.Refusals.{RefusesMovesText, RefusesProgramText, RefusesSchemaText, RefusesScriptText, RefusesTraceText, RefusesTurnsText, moves_in, schema_in, turns_in};

use crate::fault::Fault;
use dbtg_program::{Program, read_program};
use dbtg_schema::{Row, Schema};
use dbtg_script::{read_moves, read_script, read_turns};
use dbtg_trace::{Traced, read_trace};
use dbtg_unit::{Move, Statement};
use std::alloc::Global;

/// The schema of a text.
pub fn schema_of(alloc: Global, text: &[u8]) -> Result<Schema, Fault>
    ensures accepted { OnOk result (schema_refusal text.now ≡ None) }
    ensures lists { IfOk result (λ schema. schema ≡ schema_in text.now) }
    ensures sound { IfOk result (λ schema. IsSound schema) }
    ensures refused { IfErr result (λ fault. RefusesSchemaText fault text.now) }
{
    match Schema::read(alloc, text) {
        Ok(schema) => Ok(schema),
        Err(fault) => Err(Fault::of_schema(fault)),
    }
}

/// The statements of the script with this number.
pub fn statements_of(
    alloc: Global,
    schema: &Schema,
    number: usize,
    text: &[u8],
) -> Result<Vec<Statement>, Fault>
    ensures accepted { OnOk result (script_refusal schema.now text.now ≡ None) }
    ensures statements { IfOk result (λ statements. statements.items ≡ script schema.now text.now) }
    ensures fitting { IsSound schema.now → OnOk result (list_all (fits schema.now) (script schema.now text.now) ≡ true) }
    ensures refused { IfErr result (λ fault. RefusesScriptText fault number schema.now text.now) }
{
    match read_script(alloc, schema, text) {
        Ok(statements) => Ok(statements),
        Err(fault) => Err(Fault::of_script(number, fault)),
    }
}

/// Appends the statements of the script with this number to those of the earlier scripts.
pub fn take_script(
    alloc: Global,
    scripts: &mut Row<Row<Statement>>,
    schema: &Schema,
    number: usize,
    text: &[u8],
) -> Result<(), Fault>
    ensures accepted { OnOk result (script_refusal schema.now text.now ≡ None) }
    ensures taken { OnOk result (scripts.new ≡ scripts.old ++ script schema.now text.now ∷ []) }
    ensures fitting { IsSound schema.now → OnOk result (list_all (fits schema.now) (script schema.now text.now) ≡ true) }
    ensures refused { IfErr result (λ fault. RefusesScriptText fault number schema.now text.now) }
{
    let statements = statements_of(alloc, schema, number, text)?;
    scripts.push(Row::of(statements))?;
    Ok(())
}

/// The program with this number.
pub fn program_of(
    alloc: Global,
    schema: &Schema,
    number: usize,
    text: &[u8],
) -> Result<Program, Fault>
    ensures accepted { OnOk result (program_refusal schema.now text.now ≡ None) }
    ensures program { IfOk result (λ p. p ≡ program schema.now text.now) }
    ensures refused { IfErr result (λ fault. RefusesProgramText fault number schema.now text.now) }
{
    match read_program(alloc, schema, text) {
        Ok(program) => Ok(program),
        Err(fault) => Err(Fault::of_program(number, fault)),
    }
}

/// The moves of a text.
pub fn moves_of(alloc: Global, text: &[u8]) -> Result<Vec<Move>, Fault>
    ensures accepted { OnOk result (moves_refusal text.now ≡ None) }
    ensures moves { IfOk result (λ moves. moves.items ≡ moves_in text.now) }
    ensures refused { IfErr result (λ fault. RefusesMovesText fault text.now) }
{
    match read_moves(alloc, text) {
        Ok(moves) => Ok(moves),
        Err(fault) => Err(Fault::of_moves(fault)),
    }
}

/// The turns of a text.
pub fn turns_of(alloc: Global, text: &[u8]) -> Result<Row<u8>, Fault>
    ensures accepted { OnOk result (turns_refusal text.now ≡ None) }
    ensures turns { IfOk result (λ turns. turns ≡ turns_in text.now) }
    ensures refused { IfErr result (λ fault. RefusesTurnsText fault text.now) }
{
    match read_turns(alloc, text) {
        Ok(turns) => Ok(turns),
        Err(fault) => Err(Fault::of_turns(fault)),
    }
}

/// What a trace says, with this many units.
pub fn traced_of(
    alloc: Global,
    schema: &Schema,
    units: u8,
    text: &[u8],
) -> Result<Vec<Traced>, Fault>
    ensures accepted { OnOk result (trace_refusal schema.now units text.now ≡ None) }
    ensures traced { IfOk result (λ traced. traced.items ≡ trace schema.now units text.now) }
    ensures fitting { IsSound schema.now → IfOk result (λ traced. list_all (λ t. fits schema.now t.statement) traced.items ≡ true) }
    ensures units { IfOk result (λ traced. list_all (λ t. is_unit units t.unit) traced.items ≡ true) }
    ensures refused { IfErr result (λ fault. RefusesTraceText fault schema.now units text.now) }
{
    match read_trace(alloc, schema, units, text) {
        Ok(traced) => Ok(traced),
        Err(fault) => Err(Fault::of_trace(fault)),
    }
}
