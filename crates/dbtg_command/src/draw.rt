//! The diagram of a schema.
ghost use Rattle.std.specs.Prelude.{◌≡◌, IfErr, IfOk};
ghost use Rattle.dbtg_schema.specs.Texts.SchemaFaults.{refusal as schema_refusal};
ghost use Rattle.dbtg_command.specs.Drawing.{DrawsHeld, IsDrawing};
ghost use Rattle.dbtg_command.specs.Refusals.{RefusesSchema};
ghost use Rattle.dbtg_command.specs.Sources.{ToldOfSchema};

use crate::at_hand::AtHand;
use crate::fault::Fault;
use crate::order::Order;
use crate::source::Source;
use crate::texts::read_schema;
use dbtg_draw::dot_text;
use std::alloc::Global;

/// What `draw` prints of the schema that a source gives, or its fault.
pub fn draw<S: Source>(alloc: Global, source: &S) -> Result<Vec<u8>, Fault>
    ensures done { IfOk result (λ out. DrawsHeld (S.holds source.now) out.items) }
    ensures refused { IfErr result (λ fault. ToldOfSchema (S.holds source.now) (S.fails source.now) fault) }
{
    let known = read_schema(alloc, source)?;
    Ok(dot_text(alloc, &known)?)
}

/// What `draw` prints of a schema in memory, or its fault.
pub fn draw_bytes(alloc: Global, schema: &[u8]) -> Result<Vec<u8>, Fault>
    ensures done { IfOk result (λ out. IsDrawing schema.now out.items) }
    ensures refused { IfErr result (λ fault. RefusesSchema fault (schema_refusal schema.now)) }
{
    let texts = AtHand {
        schema,
        scripts: &[],
        order: Order::Serial,
    };
    draw(alloc, &texts)
}
