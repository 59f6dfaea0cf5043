//! What is printed of a state.

ghost use Rattle.dbtg_explore.specs.Inside.Walks.{IsPlace};
ghost use Rattle.dbtg_explore.specs.Orders.{IsMeeting};
ghost use Rattle.dbtg_explore.specs.Results.{reached_of, state_text};
ghost use Rattle.dbtg_explore.specs.States.{state_after, without_versions};
ghost use Rattle.dbtg_going.specs.Goings.{comes_of};
ghost use Rattle.std.specs.Prelude.{◌≡◌, map, IfOk};

use crate::meeting::Meeting;
use crate::told::told_text;
use crate::walk::Walk;
use dbtg_going::{Going, Reached, Standing};
use dbtg_program::Due;
use dbtg_schema::Row;
use dbtg_step::Run;
use std::alloc::{AllocError, Global};

// How far a program is.
fn reached_of(alloc: Global, going: &Going) -> Result<Reached, AllocError>
    ensures { IfOk result (λ reached. reached ≡ reached_of (comes_of going.now)) }
{
    let standing = match going.due {
        Due::End(end) => Standing::Ended(end),
        Due::Statement(_) => Standing::GoesOn,
    };
    let state = going.state.copy(alloc)?;
    Ok(Reached { standing, state })
}

// How far each is.
fn reached_of_each(alloc: Global, goings: &[Going]) -> Result<Vec<Reached>, AllocError>
    ensures { IfOk result (λ each. each.items ≡ map (λ g. reached_of (comes_of g)) goings.now) }
{
    let mut each = Vec::new(alloc);
    for going in goings {
        each.push(reached_of(alloc, going)?)?;
    }
    Ok(each)
}

impl<'a> Meeting<'a> {
    /// What tells the result at a place from others: what is printed after `--`, except that the units that have an area open are in the order
    /// of their numbers, and of versions only that is told which tells kept records from their own.
    pub(crate) fn text(&self, alloc: Global, walk: &Walk) -> Result<Vec<u8>, AllocError>
        requires meeting { IsMeeting self.now }
        requires place { IsPlace self.now walk.now }
        ensures { IfOk result (λ text. text.items ≡ state_text self.now (without_versions (state_after self.now walk.now.database.making.history))) }
    {
        let image = walk.database.database().image()?;
        let units = self.unversioned_units(alloc, walk)?;
        let reached = reached_of_each(alloc, walk.goings.as_slice())?;
        let mut run = Run {
            results: Row::of(Vec::new(alloc)),
            image,
            history: Row::of(Vec::new(alloc)),
            units,
        };
        told_text(
            alloc,
            self.schema,
            self.programs,
            &mut run,
            reached.as_slice(),
        )
    }
}
