//! The command `run` on threads.

ghost use Rattle.dbtg_command.specs.Refusals.{is_count};
ghost use Rattle.dbtg_command.specs.Sources.{ReadSchema};
ghost use Rattle.dbtg_command.specs.declared.order.OrderKind.TheVariants.{Serial};
ghost use Rattle.dbtg_program.specs.Reading.{program};
ghost use Rattle.dbtg_replay.specs.Replaying.{CanShow};
ghost use Rattle.dbtg_running.specs.Running.{ToldOfRun};
ghost use Rattle.dbtg_running.specs.Threading.{IsPrintedOf, RunsOnThreads};
ghost use Rattle.dbtg_schema.specs.Sound.{IsSound};
ghost use Rattle.std.specs.Prelude.{◌≡◌, ◌≤◌, IfErr, IfOk, length, map, true};

use crate::command::{Printed, RunOptions, print_run};
use crate::first::never_ends;
use crate::programs::{Programs, read_programs};
use dbtg_command::{Fault, Source, read_schema};
use dbtg_replay::replay::check_count;
use dbtg_schema::Schema;
use dbtg_script::turns_text;
use dbtg_threading::{Lineup, OnThreads, run_on_threads};
use dbtg_unit::LAST_UNIT;
use std::alloc::{AllocError, Global};
use std::sync::Wait;
use std::thread::Threads;

/// What is printed of a run of programs on threads, and the text of the turns by which `run` prints the same except for its last line.
#[derive(Drop)]
pub struct PrintedOnThreads {
    pub printed: Printed,
    pub turns: Vec<u8>,
}

// What is printed of a run of these programs, and the line of the audit. The audit is equal by proof: no other line is printed.
fn print_audited(
    alloc: Global,
    schema: &Schema,
    programs: &Programs,
    options: RunOptions,
    on: &OnThreads,
) -> Result<PrintedOnThreads, AllocError>
    requires few { length programs.now.texts.items ≤ LAST_UNIT }
    requires are { programs.now.list.items ≡ map (program schema.now) programs.now.texts.items }
    requires can { CanShow schema.now options.form on.now.given.run }
    ensures { IfOk result (IsPrintedOf schema.now options programs.now.texts.items on.now.turns.items on.now.given) }
{
    let given = &on.given;
    let mut printed = print_run(alloc, schema, programs, options, given)?;
    let units = programs.texts.as_slice().len() as u8;
    if !never_ends(options.around, units, given.programs.as_slice()) {
        printed.text.extend_from_slice(b"AUDIT EQUAL\n")?;
    }
    Ok(PrintedOnThreads {
        printed,
        turns: turns_text(alloc, on.turns.as_slice())?,
    })
}

// What is printed of the programs that were read.
fn run_known<R: Threads + Wait + Sync, S: Source>(
    rt: &R,
    alloc: Global,
    source: &S,
    known: &Schema,
    options: RunOptions,
) -> Result<PrintedOnThreads, Fault>
    requires counted { is_count (S.count source.now) ≡ true }
    requires schema { ReadSchema (S.holds source.now) known.now }
    requires sound { IsSound known.now }
    ensures done { IfOk result (RunsOnThreads (S.holds source.now) (S.count source.now) options) }
    ensures refused { IfErr result (λ fault. ToldOfRun (S.holds source.now) (S.fails source.now) fault (S.count source.now) Serial) }
{
    let programs = read_programs(alloc, source, known)?;
    let lineup = Lineup {
        programs: programs.list.as_slice(),
        around: options.around,
    };
    let on = run_on_threads(rt, alloc, known, options.capacity, lineup)?;
    Ok(print_audited(alloc, known, &programs, options, &on)?)
}

/// What `run` prints of the schema and the programs that a source gives, run on threads, each to its end; or the first fault. The
/// programs take the places of scripts.
pub fn run_programs_on_threads<R: Threads + Wait + Sync, S: Source>(
    rt: &R,
    alloc: Global,
    source: &S,
    options: RunOptions,
) -> Result<PrintedOnThreads, Fault>
    ensures done { IfOk result (RunsOnThreads (S.holds source.now) (S.count source.now) options) }
    ensures refused { IfErr result (λ fault. ToldOfRun (S.holds source.now) (S.fails source.now) fault (S.count source.now) Serial) }
{
    check_count(source.count())?;
    let known = read_schema(alloc, source)?;
    run_known(rt, alloc, source, &known, options)
}
