//! GET, KEEP and FREE: statements on the current of run-unit alone.
ghost use Rattle.std.specs.Prelude.{◌≡◌, IfOk};
ghost use Rattle.dbtg_unit.specs.Hands.InHand.{in_hand};
ghost use Rattle.dbtg_unit.specs.Inside.PlanOf.{plan_of};

use crate::unit_alone::{done_plan, refusal};
use dbtg_schema::{RecordNo, Row, Schema};
use dbtg_unit::{
    Answer, Cause, Held, Prepared, Statement, Status, Unit, UnitEdit, refused, stored,
};
use std::alloc::{AllocError, Global};

/// GET of the current of run-unit.
pub(crate) fn get(
    alloc: Global,
    schema: &Schema,
    unit: &Unit,
    rtype: Option<RecordNo>,
    held: &Held,
) -> Result<Prepared, AllocError>
    ensures { IfOk result (λ plan. plan ≡ plan_of schema.now (in_hand held.now) unit.now (Statement.Get rtype)) }
{
    let answer = answer_get(schema, unit, rtype, held)?;
    Ok(Prepared::new(
        answer,
        Row::of(Vec::new(alloc)),
        Row::of(Vec::new(alloc)),
        UnitEdit::Same,
    ))
}

/// The answer of a GET that needs nothing more, without a plan. It changes nothing.
pub(crate) fn answer_get(
    schema: &Schema,
    unit: &Unit,
    rtype: Option<RecordNo>,
    held: &Held,
) -> Result<Answer, AllocError>
    ensures { IfOk result (λ answer. answer ≡ (plan_of schema.now (in_hand held.now) unit.now (Statement.Get rtype)).answer) }
{
    let Some(key) = unit.currency.run_unit else {
        return Ok(refusal(Cause::NoCurrentOfRunUnit));
    };
    match stored(held, &key) {
        Some(record) => Ok(Answer {
            status: Status::Done,
            key: Some(key),
            items: Some(record.items.share()?),
        }),
        None => Ok(refusal(Cause::Deleted)),
    }
}

/// KEEP of the current of run-unit.
pub(crate) fn keep(
    alloc: Global,
    schema: &Schema,
    unit: &Unit,
    held: &Held,
) -> Result<Prepared, AllocError>
    ensures { IfOk result (λ plan. plan ≡ plan_of schema.now (in_hand held.now) unit.now Statement.Keep) }
{
    let Some(key) = unit.currency.run_unit else {
        return Ok(refused(alloc, Cause::NoCurrentOfRunUnit));
    };
    match stored(held, &key) {
        Some(record) => {
            let kept = unit.kept.noted(alloc, key, record.version)?;
            Ok(done_plan(alloc, UnitEdit::Keep { kept }, None, None))
        }
        None => Ok(refused(alloc, Cause::Deleted)),
    }
}

/// FREE of all kept records, or of the current of run-unit. It takes no memory; it answers as the others do.
pub(crate) fn free(
    alloc: Global,
    schema: &Schema,
    unit: &Unit,
    all: bool,
    held: &Held,
) -> Result<Prepared, AllocError>
    ensures { IfOk result (λ plan. plan ≡ plan_of schema.now (in_hand held.now) unit.now (Statement.Free all)) }
{
    if all {
        return Ok(done_plan(alloc, UnitEdit::ForgetAll, None, None));
    }
    match unit.currency.run_unit {
        Some(key) => Ok(done_plan(alloc, UnitEdit::Forget { key }, None, None)),
        None => Ok(refused(alloc, Cause::NoCurrentOfRunUnit)),
    }
}
