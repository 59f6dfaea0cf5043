//! Running scripts, and the text of the result.
ghost use Rattle.std.specs.Prelude.{◌≡◌, ◌++◌, ◌≤◌, IfErr, IfOk, OnOk, true, false, drop, length, map};
ghost use Rattle.dbtg_schema.specs.Sound.{IsSound};
ghost use Rattle.dbtg_script.specs.Statements.{script};
ghost use Rattle.dbtg_script.specs.Printing.Texts.{moves_text};
ghost use Rattle.dbtg_step.specs.Machine.Headline.{RunIs};
ghost use Rattle.dbtg_step.specs.Laws.{scripts_fit};
ghost use Rattle.dbtg_step.specs.Core.Serial.{SerialRunIs};
ghost use Rattle.dbtg_command.specs.Refusals.{is_count};
ghost use Rattle.dbtg_replay.specs.Replaying.{CanShow, InTurnIs, IsPrinted, ReplaysHeld, RunByTurnsIs, shown_text};
ghost use Rattle.dbtg_command.specs.Sources.{ReadSchema, ReadScripts, ToldOfRun};
ghost use Rattle.dbtg_command.specs.declared.fault.Fault.TheVariants.{ScriptCount};
ghost use Rattle.dbtg_replay.specs.declared.replay.AnswerForm.TheVariants.{Explained};
ghost use Rattle.dbtg_command.specs.declared.order.OrderKind.{OrderKind as Kind};

use crate::ordering::{AllMoves, behind, moves_behind_first, serial_turns, turns_behind_first};
use crate::scripts::{Scripts, read_scripts_with_texts};
use crate::serial::answered_text;
use dbtg_command::{Fault, OrderKind, Source, read_moves, read_schema, read_turns};
use dbtg_refusal::said_of_history;
use dbtg_schema::{Row, Schema};
use dbtg_script::{Beside, moves_text, push_echoed_run, push_run};
use dbtg_step::{Run, run, run_serial, run_whole_turns};
use dbtg_trace::push_traced_run;
use dbtg_unit::{LAST_UNIT, Statement};
use std::alloc::{AllocError, Global};

/// What comes before the image: the answers, the answers with the statement of each before it, or a trace.
#[derive(Clone, Copy)]
pub enum AnswerForm {
    Plain,
    Echo,
    /// An echo of a run of this capacity, with what is in the way of each refusal below it.
    Explained(u16),
    Trace,
}

/// The same, with the texts of the scripts, which have the statements as they are spelled.
#[derive(Clone, Copy)]
pub struct Shown<'a> {
    pub form: AnswerForm,
    pub texts: &'a [Row<u8>],
}

/// Is this a number of scripts that can be run, 1 to 8?
pub fn check_count(count: usize) -> Result<(), Fault>
    ensures right { OnOk result (is_count count ≡ true) }
    ensures wrong { IfErr result (λ fault. (is_count count ≡ false) × (fault ≡ ScriptCount)) }
{
    if 1 <= count && count <= 8 {
        Ok(())
    } else {
        Err(Fault::ScriptCount)
    }
}

/// The schema of a source that has an allowed number of scripts.
pub fn schema_for_run<S: Source>(alloc: Global, source: &S) -> Result<Schema, Fault>
    ensures counted { OnOk result (is_count (S.count source.now) ≡ true) }
    ensures read { IfOk result (λ schema. ReadSchema (S.holds source.now) schema) }
    ensures sound { IfOk result (λ schema. IsSound schema) }
    ensures refused { IfErr result (λ fault. (which : Kind) → ToldOfRun (S.holds source.now) (S.fails source.now) fault (S.count source.now) which) }
{
    check_count(source.count())?;
    read_schema(alloc, source)
}

// The echo of a run, with what is in the way of each refusal below it.
fn push_explained(
    alloc: Global,
    out: &mut Vec<u8>,
    schema: &Schema,
    capacity: u16,
    texts: &[Row<u8>],
    given: &Run,
) -> Result<(), AllocError>
    requires { CanShow schema.now (Explained capacity) given.now }
    ensures { OnOk result (out.new.items ≡ out.old.items ++ shown_text schema.now (Explained capacity) texts.now given.now) }
{
    let history = given.history.as_slice();
    let units = given.units.as_slice();
    let said = said_of_history(alloc, schema, capacity, units.len() as u8, history)?;
    let notes = said.as_slice();
    let beside = Beside { texts, notes };
    push_echoed_run(alloc, out, schema, beside, history, &given.image, units)
}

/// Appends what comes before the image, the image and the units.
pub fn push_given(
    alloc: Global,
    out: &mut Vec<u8>,
    schema: &Schema,
    shown: Shown,
    given: &Run,
) -> Result<(), AllocError>
    requires { CanShow schema.now shown.form given.now }
    ensures { OnOk result (out.new.items ≡ out.old.items ++ shown_text schema.now shown.entry.form shown.entry.texts.now given.now) }
{
    let history = given.history.as_slice();
    let units = given.units.as_slice();
    let texts = shown.texts;
    match shown.form {
        AnswerForm::Plain => push_run(alloc, out, schema, history, &given.image, units),
        AnswerForm::Echo => {
            let beside = Beside { texts, notes: &[] };
            push_echoed_run(alloc, out, schema, beside, history, &given.image, units)
        }
        AnswerForm::Explained(capacity) => {
            push_explained(alloc, out, schema, capacity, texts, given)
        }
        AnswerForm::Trace => push_traced_run(
            alloc,
            out,
            schema,
            texts,
            history,
            &given.image,
            units,
        ),
    }
}

// The output of a run, as a new text.
fn text_of(alloc: Global, schema: &Schema, shown: Shown, given: &Run) -> Result<Vec<u8>, AllocError>
    requires { CanShow schema.now shown.form given.now }
    ensures { IfOk result (λ out. out.items ≡ shown_text schema.now shown.entry.form shown.entry.texts.now given.now) }
{
    let mut out = Vec::new(alloc);
    push_given(alloc, &mut out, schema, shown, given)?;
    Ok(out)
}

// The same after the line with the results of the moves, which leaves out the first `before` of them.
fn text_with_moves(
    alloc: Global,
    schema: &Schema,
    shown: Shown,
    given: &Run,
    before: usize,
) -> Result<Vec<u8>, AllocError>
    requires { CanShow schema.now shown.form given.now }
    ensures { IfOk result (λ out. out.items ≡ moves_text (drop before given.now.results) ++ shown_text schema.now shown.entry.form shown.entry.texts.now given.now) }
{
    let mut out = moves_text(alloc, behind(given.results.as_slice(), before))?;
    push_given(alloc, &mut out, schema, shown, given)?;
    Ok(out)
}

// Runs one script after the other. The answers alone are printed as they come; any other form looks at the whole history.
fn serial_text(
    alloc: Global,
    schema: &Schema,
    capacity: u16,
    scripts: Row<Row<Statement>>,
    shown: Shown,
) -> Result<Vec<u8>, AllocError>
    requires sound { IsSound schema.now }
    requires units { length scripts ≤ LAST_UNIT }
    requires fit { scripts_fit schema.now scripts ≡ true }
    ensures { IfOk result (λ out. IsPrinted (SerialRunIs schema.now capacity scripts) (shown_text schema.now shown.entry.form shown.entry.texts.now) out.items) }
{
    if let AnswerForm::Plain = shown.form {
        return answered_text(alloc, schema, capacity, scripts);
    }
    let given = run_serial(alloc, schema, capacity, scripts)?;
    text_of(alloc, schema, shown, &given)
}

// Makes these moves; the line with their results leaves out those that make the first script.
fn moved_text(
    alloc: Global,
    schema: &Schema,
    capacity: u16,
    scripts: Row<Row<Statement>>,
    all: &AllMoves,
    shown: Shown,
) -> Result<Vec<u8>, AllocError>
    requires sound { IsSound schema.now }
    requires units { length scripts ≤ LAST_UNIT }
    requires fit { scripts_fit schema.now scripts ≡ true }
    ensures { IfOk result (λ out. IsPrinted (RunIs schema.now capacity scripts all.now.moves.items) (λ given. moves_text (drop all.now.before given.results) ++ shown_text schema.now shown.entry.form shown.entry.texts.now given) out.items) }
{
    let given = run(alloc, schema, capacity, scripts, all.moves.as_slice())?;
    text_with_moves(alloc, schema, shown, &given, all.before)
}

// Takes these turns, each statement made whole.
fn turned_text(
    alloc: Global,
    schema: &Schema,
    capacity: u16,
    scripts: Row<Row<Statement>>,
    turns: &[u8],
    shown: Shown,
) -> Result<Vec<u8>, AllocError>
    requires sound { IsSound schema.now }
    requires units { length scripts ≤ LAST_UNIT }
    requires fit { scripts_fit schema.now scripts ≡ true }
    ensures { IfOk result (λ out. IsPrinted (RunByTurnsIs schema.now capacity scripts turns.now) (shown_text schema.now shown.entry.form shown.entry.texts.now) out.items) }
{
    let given = run_whole_turns(alloc, schema, capacity, scripts, turns)?;
    text_of(alloc, schema, shown, &given)
}

// Runs one script after the other. The last one runs before all others if it is to be made first.
fn in_turn_text(
    alloc: Global,
    schema: &Schema,
    capacity: u16,
    first: bool,
    scripts: Row<Row<Statement>>,
    shown: Shown,
) -> Result<Vec<u8>, AllocError>
    requires sound { IsSound schema.now }
    requires units { length scripts ≤ LAST_UNIT }
    requires fit { scripts_fit schema.now scripts ≡ true }
    ensures { IfOk result (λ out. IsPrinted (InTurnIs first schema.now capacity scripts) (shown_text schema.now shown.entry.form shown.entry.texts.now) out.items) }
{
    if !first {
        return serial_text(alloc, schema, capacity, scripts, shown);
    }
    let serial = serial_turns(alloc, scripts.as_slice())?;
    let turns = turns_behind_first(alloc, true, scripts.as_slice(), serial.as_slice())?;
    turned_text(alloc, schema, capacity, scripts, turns.as_slice(), shown)
}

/// What is printed of the run of these scripts in the given order, with their texts.
fn replay_read<S: Source>(
    alloc: Global,
    source: &S,
    known: &Schema,
    capacity: u16,
    scripts: Row<Row<Statement>>,
    texts: &Row<Row<u8>>,
    form: AnswerForm,
    first: bool,
) -> Result<Vec<u8>, Fault>
    requires counted { is_count (S.count source.now) ≡ true }
    requires read { ReadSchema (S.holds source.now) known.now }
    requires sound { IsSound known.now }
    requires scripts { (read : ReadScripts (S.holds source.now) known.now (S.count source.now)) × (scripts ≡ map (script known.now) read.texts) × (texts.now ≡ read.texts) }
    requires many { length scripts ≡ S.count source.now }
    requires fitting { scripts_fit known.now scripts ≡ true }
    ensures done { IfOk result (λ out. ReplaysHeld (S.holds source.now) (S.count source.now) (S.order source.now) first form capacity out.items) }
    ensures refused { IfErr result (λ fault. ToldOfRun (S.holds source.now) (S.fails source.now) fault (S.count source.now) (S.order source.now)) }
{
    let shown = Shown {
        form,
        texts: texts.as_slice(),
    };
    let statements = scripts.as_slice();
    match source.order() {
        OrderKind::Serial => Ok(in_turn_text(alloc, known, capacity, first, scripts, shown)?),
        OrderKind::Moves => {
            let moves = read_moves(alloc, source)?;
            let all = moves_behind_first(alloc, first, known, capacity, statements, moves)?;
            Ok(moved_text(alloc, known, capacity, scripts, &all, shown)?)
        }
        OrderKind::Turns => {
            let given = read_turns(alloc, source)?;
            let turns = turns_behind_first(alloc, first, statements, given.as_slice())?;
            Ok(turned_text(alloc, known, capacity, scripts, turns.as_slice(), shown)?)
        }
    }
}

/// What is printed of the scripts over a schema that was read.
fn replay_known<S: Source>(
    alloc: Global,
    source: &S,
    known: &Schema,
    capacity: u16,
    form: AnswerForm,
    first: bool,
) -> Result<Vec<u8>, Fault>
    requires counted { is_count (S.count source.now) ≡ true }
    requires read { ReadSchema (S.holds source.now) known.now }
    requires sound { IsSound known.now }
    ensures done { IfOk result (λ out. ReplaysHeld (S.holds source.now) (S.count source.now) (S.order source.now) first form capacity out.items) }
    ensures refused { IfErr result (λ fault. ToldOfRun (S.holds source.now) (S.fails source.now) fault (S.count source.now) (S.order source.now)) }
{
    let Scripts { statements, texts } = read_scripts_with_texts(alloc, source, known)?;
    replay_read(
        alloc, source, known, capacity, statements, &texts, form, first,
    )
}

/// What `replay` prints of the schema, the scripts and the moves or turns that a source gives, or the first fault. Without moves and
/// turns one script runs after the other. The last script is made before all others, if it is made first.
pub fn replay<S: Source>(
    alloc: Global,
    source: &S,
    capacity: u16,
    form: AnswerForm,
    first: bool,
) -> Result<Vec<u8>, Fault>
    ensures done { IfOk result (λ out. ReplaysHeld (S.holds source.now) (S.count source.now) (S.order source.now) first form capacity out.items) }
    ensures refused { IfErr result (λ fault. ToldOfRun (S.holds source.now) (S.fails source.now) fault (S.count source.now) (S.order source.now)) }
{
    let known = schema_for_run(alloc, source)?;
    replay_known(alloc, source, &known, capacity, form, first)
}
