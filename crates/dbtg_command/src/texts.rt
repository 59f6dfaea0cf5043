//! The schema, the moves, the turns and the trace that a source gives, read and judged.
ghost use Rattle.std.specs.Prelude.{◌≡◌, IfErr, IfOk, true};
ghost use Rattle.std.specs.List.{list_all};
ghost use Rattle.dbtg_schema.specs.Sound.{IsSound};
ghost use Rattle.dbtg_unit.specs.Database.Statements.Fits.{fits};
ghost use Rattle.dbtg_trace.specs.Parts.{is_unit};
ghost use Rattle.dbtg_schema.specs.Sound.{IsSound};
ghost use Rattle.dbtg_command.specs.declared.order.OrderKind.TheVariants.{Moves, Turns};
ghost use Rattle.dbtg_command.specs.Sources.{ReadMoves, ReadSchema, ReadTrace, ReadTurns, ToldOfOrder, ToldOfSchema, ToldOfTrace};

use crate::fault::Fault;
use crate::place::TextPlace;
use crate::reading::{moves_of, schema_of, traced_of, turns_of};
use crate::source::Source;
use dbtg_schema::{Row, Schema};
use dbtg_trace::Traced;
use dbtg_unit::Move;
use std::alloc::Global;

/// The schema of the text in the schema's place, or its fault.
pub fn read_schema<S: Source>(alloc: Global, source: &S) -> Result<Schema, Fault>
    ensures read { IfOk result (λ schema. ReadSchema (S.holds source.now) schema) }
    ensures sound { IfOk result (λ schema. IsSound schema) }
    ensures refused { IfErr result (λ fault. ToldOfSchema (S.holds source.now) (S.fails source.now) fault) }
{
    let text = source.read(alloc, TextPlace::Schema)?;
    schema_of(alloc, text.as_slice())
}

/// The moves of the text in the moves' place, or their fault.
pub fn read_moves<S: Source>(alloc: Global, source: &S) -> Result<Vec<Move>, Fault>
    requires { S.order source.now ≡ Moves }
    ensures read { IfOk result (λ moves. ReadMoves (S.holds source.now) moves.items) }
    ensures refused { IfErr result (λ fault. ToldOfOrder (S.holds source.now) (S.fails source.now) fault Moves) }
{
    let text = source.read(alloc, TextPlace::Moves)?;
    moves_of(alloc, text.as_slice())
}

/// The turns of the text in the turns' place, or their fault.
pub fn read_turns<S: Source>(alloc: Global, source: &S) -> Result<Row<u8>, Fault>
    requires { S.order source.now ≡ Turns }
    ensures read { IfOk result (λ turns. ReadTurns (S.holds source.now) turns) }
    ensures refused { IfErr result (λ fault. ToldOfOrder (S.holds source.now) (S.fails source.now) fault Turns) }
{
    let text = source.read(alloc, TextPlace::Turns)?;
    turns_of(alloc, text.as_slice())
}

/// The trace of the text in the trace's place, with this many units, or its fault.
pub fn read_trace<S: Source>(
    alloc: Global,
    source: &S,
    known: &Schema,
    units: u8,
) -> Result<Vec<Traced>, Fault>
    ensures read { IfOk result (λ traced. ReadTrace (S.holds source.now) known.now units traced.items) }
    ensures fitting { IsSound known.now → IfOk result (λ traced. list_all (λ t. fits known.now t.statement) traced.items ≡ true) }
    ensures units { IfOk result (λ traced. list_all (λ t. is_unit units t.unit) traced.items ≡ true) }
    ensures refused { IfErr result (λ fault. ToldOfTrace (S.holds source.now) (S.fails source.now) fault known.now units) }
{
    let text = source.read(alloc, TextPlace::Trace)?;
    traced_of(alloc, known, units, text.as_slice())
}
