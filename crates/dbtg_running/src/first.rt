//! The program that goes first: whether it ends, and what is told of it.

ghost use Rattle.dbtg_program.specs.Reading.{program};
ghost use Rattle.dbtg_replay.specs.Refused.{refusals_text};
ghost use Rattle.dbtg_running.specs.Echoing.{scripts_made};
ghost use Rattle.dbtg_running.specs.First.{is_spent, never_ends as says_never_ends, told_of_first as says_of_first};
ghost use Rattle.std.specs.Prelude.{◌≡◌, ◌≤◌, IfOk, length, map, true};

use crate::command::RunOptions;
use crate::echo::scripts_made;
use crate::programs::Programs;
use dbtg_going::{Around, ProgramRun, Reached, Standing};
use dbtg_replay::{FirstUnit, refusals_text};
use dbtg_schema::Schema;
use dbtg_unit::LAST_UNIT;
use std::alloc::{AllocError, Global};

fn is_spent(standing: Standing) -> bool
    ensures { result ≡ is_spent standing }
{
    matches!(standing, Standing::Spent)
}

/// Is there a first program, behind the others of this many units, that does not end?
pub fn never_ends(around: Around, units: u8, programs: &[Reached]) -> bool
    ensures { result ≡ says_never_ends around units programs.now }
{
    if !around.first {
        return false;
    }
    match programs.get(around.others(units) as usize) {
        Some(reached) => is_spent(reached.standing),
        None => false,
    }
}

// Which statements of the first program were refused, each as it was made.
fn refusals(
    alloc: Global,
    schema: &Schema,
    programs: &Programs,
    first: FirstUnit,
    given: &ProgramRun,
) -> Result<Vec<u8>, AllocError>
    requires few { length programs.now.texts.items ≤ LAST_UNIT }
    requires are { programs.now.list.items ≡ map (program schema.now) programs.now.texts.items }
    ensures { IfOk result (λ out. out.items ≡ refusals_text first.entry.name.now first.entry.capacity first.entry.unit (scripts_made schema.now 1 programs.now.texts.items given.now.run.history) given.now.run.history) }
{
    let history = given.run.history.as_slice();
    let (list, texts) = (programs.list.as_slice(), programs.texts.as_slice());
    let made = scripts_made(alloc, schema, list, texts, history)?;
    refusals_text(alloc, first, made.as_slice(), history)
}

/// What is told of the first program of a run; nothing if there is none.
pub fn told_of_first(
    alloc: Global,
    schema: &Schema,
    programs: &Programs,
    options: RunOptions,
    given: &ProgramRun,
) -> Result<Vec<u8>, AllocError>
    requires few { length programs.now.texts.items ≤ LAST_UNIT }
    requires are { programs.now.list.items ≡ map (program schema.now) programs.now.texts.items }
    ensures { IfOk result (λ out. out.items ≡ says_of_first schema.now options.capacity options.around programs.now.texts.items given.now) }
{
    let RunOptions {
        capacity,
        around,
        ..
    } = options;
    if !around.first {
        return Ok(Vec::new(alloc));
    }
    let units = programs.texts.as_slice().len() as u8;
    if never_ends(around, units, given.programs.as_slice()) {
        return Vec::from_slice(alloc, b"the first program does not end\n");
    }
    let first = FirstUnit {
        name: b"first program",
        unit: around.others(units) + 1,
        capacity,
    };
    refusals(alloc, schema, programs, first, given)
}
