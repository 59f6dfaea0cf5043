//! The moves that turns stand for, as a text of moves.
ghost use Rattle.std.specs.Prelude.{◌≡◌, IfErr, IfOk, true, length, nat_le};
ghost use Rattle.std.specs.List.{list_all};
ghost use Rattle.dbtg_schema.specs.Sound.{IsSound};
ghost use Rattle.dbtg_step.specs.Laws.{scripts_fit};
ghost use Rattle.dbtg_replay.specs.ByTurns.{AreMoreMoves, AreMovesOf, MovesHeld, ToldOfTurns};
ghost use Rattle.dbtg_command.specs.Refusals.{is_count};
ghost use Rattle.dbtg_command.specs.Sources.{ReadSchema};
ghost use Rattle.dbtg_command.specs.declared.order.OrderKind.TheVariants.{Turns};

use crate::replay::schema_for_run;
use crate::scripts::read_scripts;
use dbtg_command::{Fault, Source, read_turns};
use dbtg_schema::{Row, Schema};
use dbtg_script::{MOST_MOVES, moves_words_text};
use dbtg_step::run_turns;
use dbtg_unit::Statement;
use std::alloc::Global;

/// The text of the moves that these turns stand for.
fn moves_of(
    alloc: Global,
    schema: &Schema,
    capacity: u16,
    scripts: Row<Row<Statement>>,
    turns: &[u8],
) -> Result<Vec<u8>, Fault>
    requires sound { IsSound schema.now }
    requires count { is_count (length scripts) ≡ true }
    requires fit { scripts_fit schema.now scripts ≡ true }
    requires small { list_all (λ u. nat_le u 99) turns.now ≡ true }
    ensures done { IfOk result (λ out. AreMovesOf schema.now capacity scripts turns.now out.items) }
    ensures refused { IfErr result (λ fault. AreMoreMoves schema.now capacity scripts turns.now fault) }
{
    let turned = run_turns(alloc, schema, capacity, scripts, turns, MOST_MOVES)?;
    match turned.into_moves() {
        Some(moves) => Ok(moves_words_text(alloc, moves.as_slice())?),
        None => Err(Fault::MovesOver),
    }
}

/// What `turns` prints of a schema that was read, the scripts and the turns.
fn turns_known<S: Source>(
    alloc: Global,
    source: &S,
    known: &Schema,
    capacity: u16,
) -> Result<Vec<u8>, Fault>
    requires counted { is_count (S.count source.now) ≡ true }
    requires by_turns { S.order source.now ≡ Turns }
    requires read { ReadSchema (S.holds source.now) known.now }
    requires sound { IsSound known.now }
    ensures done { IfOk result (λ out. MovesHeld (S.holds source.now) (S.count source.now) capacity out.items) }
    ensures refused { IfErr result (λ fault. ToldOfTurns (S.holds source.now) (S.fails source.now) fault (S.count source.now) capacity) }
{
    let scripts = read_scripts(alloc, source, known)?;
    let turns = read_turns(alloc, source)?;
    moves_of(alloc, known, capacity, scripts, turns.as_slice())
}

/// What `turns` prints of the schema, the scripts and the turns that a source gives, or the first fault.
pub fn moves_for_turns<S: Source>(
    alloc: Global,
    source: &S,
    capacity: u16,
) -> Result<Vec<u8>, Fault>
    requires { S.order source.now ≡ Turns }
    ensures done { IfOk result (λ out. MovesHeld (S.holds source.now) (S.count source.now) capacity out.items) }
    ensures refused { IfErr result (λ fault. ToldOfTurns (S.holds source.now) (S.fails source.now) fault (S.count source.now) capacity) }
{
    let known = schema_for_run(alloc, source)?;
    turns_known(alloc, source, &known, capacity)
}
