//! Whether two answers are the same.
ghost use Rattle.std.specs.Prelude.{◌≡◌};
ghost use Rattle.std.specs.Bool.{Decides};

use dbtg_cells::{SharedItems, values_eq};
use dbtg_unit::Answer;

fn same_items(a: &Option<SharedItems>, b: &Option<SharedItems>) -> bool
    ensures { Decides result (a.now ≡ b.now) }
{
    match (a, b) {
        (Some(these), Some(those)) => values_eq(these.get().as_slice(), those.get().as_slice()),
        (None, None) => true,
        _ => false,
    }
}

/// Whether two answers have the same status, key and items.
pub fn same_answer(a: &Answer, b: &Answer) -> bool
    ensures { Decides result (a.now ≡ b.now) }
{
    (a.status == b.status) & (a.key == b.key) & same_items(&a.items, &b.items)
}
