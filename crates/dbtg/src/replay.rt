//! Replaying texts in memory. The program does not call it; it is for users who have the texts.
ghost use Rattle.std.specs.Prelude.{◌≡◌, IfErr, IfOk};
ghost use Rattle.dbtg_command.specs.Refusals.{RefusesReplay};
ghost use Rattle.dbtg_command.specs.Sources.{order_map};
ghost use Rattle.dbtg_replay.specs.Replaying.{IsReplay};

use dbtg_command::{AtHand, Fault, Order};
use dbtg_replay::replay::{AnswerForm, replay};
use dbtg_schema::Row;
use std::alloc::Global;

/// What `replay` prints of a schema, scripts and moves or turns in memory, or their first fault.
pub fn replay_bytes<'a>(
    alloc: Global,
    schema: &'a [u8],
    scripts: &'a [Row<u8>],
    order: Order<&'a [u8]>,
    capacity: u16,
) -> Result<Vec<u8>, Fault>
    ensures done { IfOk result (λ out. IsReplay schema.now scripts.now (order_map (λ t. t.now) order.entry) capacity out.items) }
    ensures refused { IfErr result (λ fault. RefusesReplay fault schema.now scripts.now (order_map (λ t. t.now) order.entry)) }
{
    let texts = AtHand {
        schema,
        scripts,
        order,
    };
    replay(alloc, &texts, capacity, AnswerForm::Plain, false)
}
