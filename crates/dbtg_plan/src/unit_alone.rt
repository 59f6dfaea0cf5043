//! What is prepared, or answered at once, if only the unit changes.
ghost use Rattle.std.specs.Prelude.{◌≡◌};
ghost use Rattle.dbtg_unit.specs.Hands.PlanOf.{done_answer, done_plan};
ghost use Rattle.dbtg_unit.specs.Hands.Prepared.{refusal};

use dbtg_cells::{DbKey, SharedItems};
use dbtg_schema::Row;
use dbtg_unit::{Answer, Cause, Prepared, Status, UnitEdit};
use std::alloc::Global;

/// Done, with this change of the unit, and with a key and items for the answer, or none.
pub(crate) fn done_plan(
    alloc: Global,
    change: UnitEdit,
    key: Option<DbKey>,
    items: Option<SharedItems>,
) -> Prepared
    ensures { result ≡ done_plan change key items }
{
    let answer = Answer {
        status: Status::Done,
        key,
        items,
    };
    Prepared::new(
        answer,
        Row::of(Vec::new(alloc)),
        Row::of(Vec::new(alloc)),
        change,
    )
}

/// The answer of a statement that is done, with neither a key nor items.
pub(crate) fn done_answer() -> Answer
    ensures { result ≡ done_answer }
{
    Answer {
        status: Status::Done,
        key: None,
        items: None,
    }
}

/// The answer of a statement that is refused for a cause.
pub(crate) fn refusal(cause: Cause) -> Answer
    ensures { result ≡ (refusal cause).answer }
{
    Answer {
        status: Status::Refused(cause),
        key: None,
        items: None,
    }
}
