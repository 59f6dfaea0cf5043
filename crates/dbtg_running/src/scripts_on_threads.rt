//! The command `threads`: scripts go on threads as programs do.
ghost use Rattle.std.specs.Prelude.{◌≡◌, ◌≤◌, ◌++◌, ℕ, List, IfErr, IfOk, Some, false, length, map, slice_get, true};
ghost use Rattle.dbtg_schema.specs.Sound.{IsSound};
ghost use Rattle.dbtg_unit.specs.declared.limits.TheConstants.{MOST_STATEMENTS as most};
ghost use Rattle.dbtg_unit.specs.declared.statement.Statement.{Statement as Said};
ghost use Rattle.dbtg_script.specs.Printing.WordTexts.{turns_text};
ghost use Rattle.dbtg_program.specs.Scripts.{of_script};
ghost use Rattle.dbtg_step.specs.Laws.{scripts_fit};
ghost use Rattle.dbtg_replay.specs.Ordering.{first_turns};
ghost use Rattle.dbtg_replay.specs.Replaying.{CanShow, shown_text};
ghost use Rattle.dbtg_replay.specs.declared.replay.AnswerForm.TheVariants.{Plain};
ghost use Rattle.dbtg_command.specs.Refusals.{RefusesReplay, is_count};
ghost use Rattle.dbtg_running.specs.ScriptsOnThreads.{IsHistoryOfAll, IsThreads, ThreadsHeld};
ghost use Rattle.dbtg_running.specs.Threading.{audit_line};
ghost use Rattle.dbtg_command.specs.Sources.{ReadSchema, ToldOfRun};
ghost use Rattle.dbtg_command.specs.declared.order.Order.TheVariants as by;
ghost use Rattle.dbtg_command.specs.declared.order.OrderKind.TheVariants.{Serial};

use dbtg_command::{AtHand, Fault, Order, Source};
use dbtg_going::Around;
use dbtg_program::Program;
use dbtg_replay::replay::{AnswerForm, Shown, push_given, schema_for_run};
use dbtg_replay::{Scripts, read_scripts_with_texts};
use dbtg_schema::{Row, Schema};
use dbtg_script::turns_text;
use dbtg_threading::{Lineup, OnThreads, run_on_threads};
use dbtg_unit::Statement;
use std::alloc::{AllocError, Global};
use std::sync::Wait;
use std::thread::Threads;

/// What is printed of a run of scripts on threads, and the text of turns that says whose statement drew which ticket.
#[derive(Drop)]
pub struct PrintedScripts {
    pub printed: Vec<u8>,
    pub turns: Vec<u8>,
}

// The scripts as programs.
fn programs_of(alloc: Global, scripts: Row<Row<Statement>>) -> Result<Vec<Program>, AllocError>
    ensures { IfOk result (λ programs. programs.items ≡ map of_script scripts) }
{
    let mut programs = Vec::new(alloc);
    for script in scripts.into_vec() {
        programs.push(Program::of_script(alloc, script.into_vec())?)?;
    }
    Ok(programs)
}

// Runs scripts on threads, the last of them before the others if it is made first.
fn run_scripts<R: Threads + Wait + Sync>(
    rt: &R,
    alloc: Global,
    schema: &Schema,
    capacity: u16,
    scripts: Row<Row<Statement>>,
    first: bool,
) -> Result<OnThreads, AllocError>
    requires sound { IsSound schema.now }
    requires count { is_count (length scripts) ≡ true }
    requires fit { scripts_fit schema.now scripts ≡ true }
    requires short { (k : ℕ) (script : List Said) → slice_get scripts k ≡ Some script → length script ≤ most }
    ensures history { IfOk result (λ on. IsHistoryOfAll schema.now capacity scripts on.given.run.history on.given.run.image on.given.run.units) }
    ensures turns { IfOk result (λ on. map (λ e. e.unit) on.given.run.history ≡ first_turns first scripts ++ on.turns.items) }
{
    let programs = programs_of(alloc, scripts)?;
    let lineup = Lineup {
        programs: programs.as_slice(),
        around: Around { first, last: false },
    };
    run_on_threads(rt, alloc, schema, capacity, lineup)
}

// What is shown of a run, with the line of the audit, and the turns. The audit is equal by proof: no other line is printed.
fn print_audited(
    alloc: Global,
    schema: &Schema,
    shown: Shown,
    on: &OnThreads,
) -> Result<PrintedScripts, AllocError>
    requires { CanShow schema.now shown.form on.now.given.run }
    ensures printed { IfOk result (λ said. said.printed.items ≡ shown_text schema.now shown.entry.form shown.entry.texts.now on.now.given.run ++ audit_line) }
    ensures turns { IfOk result (λ said. said.turns.items ≡ turns_text on.now.turns.items) }
{
    let mut printed = Vec::new(alloc);
    push_given(alloc, &mut printed, schema, shown, &on.given.run)?;
    printed.extend_from_slice(b"AUDIT EQUAL\n")?;
    let turns = turns_text(alloc, on.turns.as_slice())?;
    Ok(PrintedScripts { printed, turns })
}

// What is printed of the scripts over a schema that was read.
fn threads_known<R: Threads + Wait + Sync, S: Source>(
    rt: &R,
    alloc: Global,
    source: &S,
    known: &Schema,
    capacity: u16,
    form: AnswerForm,
    first: bool,
) -> Result<PrintedScripts, Fault>
    requires counted { is_count (S.count source.now) ≡ true }
    requires read { ReadSchema (S.holds source.now) known.now }
    requires sound { IsSound known.now }
    ensures done { IfOk result (λ said. ThreadsHeld (S.holds source.now) (S.count source.now) first form capacity said.printed.items said.turns.items) }
    ensures refused { IfErr result (λ fault. ToldOfRun (S.holds source.now) (S.fails source.now) fault (S.count source.now) Serial) }
{
    let Scripts { statements, texts } = read_scripts_with_texts(alloc, source, known)?;
    let on = run_scripts(rt, alloc, known, capacity, statements, first)?;
    let shown = Shown {
        form,
        texts: texts.as_slice(),
    };
    Ok(print_audited(alloc, known, shown, &on)?)
}

/// What `threads` prints of the schema and the scripts that a source gives, with the turns by which `replay` prints the same, or
/// the first fault. The last script is made before all others, if it is made first.
pub fn run_scripts_on_threads<R: Threads + Wait + Sync, S: Source>(
    rt: &R,
    alloc: Global,
    source: &S,
    capacity: u16,
    form: AnswerForm,
    first: bool,
) -> Result<PrintedScripts, Fault>
    ensures done { IfOk result (λ said. ThreadsHeld (S.holds source.now) (S.count source.now) first form capacity said.printed.items said.turns.items) }
    ensures refused { IfErr result (λ fault. ToldOfRun (S.holds source.now) (S.fails source.now) fault (S.count source.now) Serial) }
{
    let known = schema_for_run(alloc, source)?;
    threads_known(rt, alloc, source, &known, capacity, form, first)
}

/// What `threads` prints of a schema and scripts in memory, and that the audit of the history is equal, or their first fault.
pub fn threads_bytes<'a, R: Threads + Wait + Sync>(
    rt: &R,
    alloc: Global,
    schema: &'a [u8],
    scripts: &'a [Row<u8>],
    capacity: u16,
) -> Result<(Vec<u8>, bool), Fault>
    ensures done { IfOk result (λ said. (turns : List ℕ) × IsThreads false Plain schema.now scripts.now capacity said.0.items turns) }
    ensures equal { IfOk result (λ said. said.1 ≡ true) }
    ensures refused { IfErr result (λ fault. RefusesReplay fault schema.now scripts.now by.Serial) }
{
    let texts = AtHand {
        schema,
        scripts,
        order: Order::Serial,
    };
    match run_scripts_on_threads(rt, alloc, &texts, capacity, AnswerForm::Plain, false) {
        Ok(said) => Ok((said.printed, true)),
        Err(fault) => Err(fault),
    }
}
