//! OPEN and CLOSE: statements on the usage cell of an area.
ghost use Rattle.std.specs.Prelude.{◌≡◌, IfOk, None};
ghost use Rattle.std.specs.List.{list_any};
ghost use Rattle.dbtg_unit.specs.Database.Statements.Checks.{refused_at_once};
ghost use Rattle.dbtg_unit.specs.Database.Statements.Effect.{conflict};
ghost use Rattle.dbtg_unit.specs.Hands.InHand.{in_hand, users_in};
ghost use Rattle.dbtg_unit.specs.Hands.Making.{CanFinish, MayPrepare, ShowsTheSame};
ghost use Rattle.dbtg_unit.specs.Hands.PlanOf.{mode_plan};
ghost use Rattle.dbtg_unit.specs.Inside.PlanOf.{plan_of};

use crate::unit_alone::done_answer;
use dbtg_cells::{CellName, Mode};
use dbtg_schema::{AreaNo, Row, Schema};
use dbtg_unit::{
    Cause, CellEdit, Edit, Held, Prepared, Statement, Unit, UnitEdit, refused, reserve_user, usage,
};
use std::alloc::{AllocError, Global};

fn conflicts(held: &Held, area: AreaNo, mode: Mode) -> bool
    ensures { result ≡ list_any (λ e. conflict e.1 mode) (users_in held.now area) }
{
    match usage(held, area) {
        Some(usage) => usage.conflicts_with(mode),
        None => false,
    }
}

fn set_mode(
    alloc: Global,
    area: AreaNo,
    edit: Edit,
    mode: Option<Mode>,
) -> Result<Prepared, AllocError>
    ensures { IfOk result (λ plan. plan ≡ mode_plan area edit mode) }
{
    let mut edits = Row::of(Vec::new(alloc));
    edits.push(CellEdit {
        name: CellName::Usage(area),
        edit,
    })?;
    let change = UnitEdit::SetMode { area, mode };
    Ok(Prepared::new(done_answer(), edits, Row::of(Vec::new(alloc)), change))
}

/// OPEN of an area in a mode.
pub(crate) fn prepare_open(
    alloc: Global,
    schema: &Schema,
    capacity: u16,
    unit: &Unit,
    area: AreaNo,
    mode: Mode,
    held: &mut Held,
) -> Result<Prepared, AllocError>
    requires may { MayPrepare schema.now capacity unit.now held.old (Statement.OpenArea area mode) }
    requires passes { refused_at_once schema.now capacity unit.now (Statement.OpenArea area mode) ≡ None }
    ensures shows { ShowsTheSame held.old held.new }
    ensures prepared { IfOk result (λ plan. CanFinish schema.now capacity unit.now held.new (Statement.OpenArea area mode) plan) }
{
    if conflicts(held, area, mode) {
        return Ok(refused(alloc, Cause::UsageConflict));
    }
    reserve_user(held, &CellName::Usage(area))?;
    let edit = Edit::EnterUser {
        unit: unit.number,
        mode,
    };
    set_mode(alloc, area, edit, Some(mode))
}

/// CLOSE of an area.
pub(crate) fn close(
    alloc: Global,
    schema: &Schema,
    unit: &Unit,
    area: AreaNo,
    held: &Held,
) -> Result<Prepared, AllocError>
    ensures { IfOk result (λ plan. plan ≡ plan_of schema.now (in_hand held.now) unit.now (Statement.CloseArea area)) }
{
    // Unused here; the contract mentions it.
    let _ = schema;
    let _ = held;
    let edit = Edit::LeaveUser { unit: unit.number };
    set_mode(alloc, area, edit, None)
}
