//! What tells a run of programs from others.

ghost use Rattle.dbtg_going.specs.Texts.{programs_text};
ghost use Rattle.dbtg_states.specs.Users.{by_unit};
ghost use Rattle.dbtg_script.specs.Printing.Texts.{run_text};
ghost use Rattle.std.specs.List.{range_with_len};
ghost use Rattle.std.specs.Prelude.{◌≡◌, ◌≤◌, ◌++◌, [], length, map, IfOk};

use dbtg_going::{Reached, push_each_program};
use dbtg_program::Program;
use dbtg_schema::Schema;
use dbtg_script::push_run;
use dbtg_states::usage_by_unit;
use dbtg_step::Run;
use dbtg_unit::LAST_UNIT;
use std::alloc::{AllocError, Global};

/// What is printed of a run and its programs after `--`, except that the units that have an area open are in the order of their numbers.
/// In the image of the run they are then in that order too.
pub fn told_text(
    alloc: Global,
    schema: &Schema,
    programs: &[Program],
    run: &mut Run,
    reached: &[Reached],
) -> Result<Vec<u8>, AllocError>
    requires { length programs.now ≤ LAST_UNIT }
    ensures { IfOk result (λ text. text.items ≡ run_text schema.now [] run.old.image.records run.old.image.lists run.old.image.next (map (by_unit (range_with_len 1 (length programs.now))) run.old.image.usage) run.old.units ++ programs_text 1 programs.now reached.now) }
{
    let units = programs.len() as u8;
    let mut out = Vec::new(alloc);
    run.image.usage = usage_by_unit(alloc, run.image.usage.as_slice(), units)?;
    push_run(
        alloc,
        &mut out,
        schema,
        &[],
        &run.image,
        run.units.as_slice(),
    )?;
    push_each_program(&mut out, programs, reached)?;
    Ok(out)
}
