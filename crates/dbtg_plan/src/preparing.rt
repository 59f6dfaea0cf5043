//! What a statement prepares once it needs nothing more: its answer and its changes, with room for all of them.
ghost use Rattle.std.specs.Prelude.{◌≡◌, None, false, IfOk};
ghost use Rattle.dbtg_unit.specs.Database.Statements.Checks.{refused_at_once};
ghost use Rattle.dbtg_unit.specs.Hands.EditsOf.{is_delete};
ghost use Rattle.dbtg_unit.specs.Hands.Locality.{IsMadeOnEach, made_by};
ghost use Rattle.dbtg_unit.specs.Hands.Making.{CanFinish, MayPrepare, ShowsTheSame};

use crate::finding::prepare_find;
use crate::inserting::prepare_insert;
use crate::keeping::{free, get, keep};
use crate::modifying::modify;
use crate::opening::{close, prepare_open};
use crate::removing::remove;
use crate::storing::prepare_store;
use dbtg_schema::Schema;
use dbtg_unit::{Held, Prepared, Statement, Unit, refused, refused_at_once};
use std::alloc::{AllocError, Global};

// Prepares a statement that the checks without cells let through.
fn prepare_passed(
    alloc: Global,
    schema: &Schema,
    capacity: u16,
    unit: &Unit,
    statement: &Statement,
    held: &mut Held,
) -> Result<Prepared, AllocError>
    requires may { MayPrepare schema.now capacity unit.now held.old statement.now }
    requires other { is_delete statement.now ≡ false }
    requires passes { refused_at_once schema.now capacity unit.now statement.now ≡ None }
    ensures shows { ShowsTheSame held.old held.new }
    ensures prepared { IfOk result (λ plan. CanFinish schema.now capacity unit.now held.new statement.now plan) }
{
    match statement {
        Statement::OpenArea { area, mode } => {
            prepare_open(alloc, schema, capacity, unit, *area, *mode, held)
        }
        Statement::CloseArea(area) => close(alloc, schema, unit, *area, held),
        Statement::Get(rtype) => get(alloc, schema, unit, *rtype, held),
        Statement::Insert(set) => prepare_insert(alloc, schema, capacity, unit, *set, held),
        Statement::Remove(set) => remove(alloc, schema, unit, *set, held),
        Statement::Modify { rtype, changes } => {
            modify(alloc, schema, unit, *rtype, changes.get().as_slice(), held)
        }
        Statement::Keep => keep(alloc, schema, unit, held),
        Statement::Free { all } => free(alloc, schema, unit, *all, held),
        Statement::Find(suppress, form) => {
            Ok(prepare_find(alloc, schema, capacity, unit, form, suppress, held))
        }
        Statement::Store {
            rtype,
            items,
            suppress,
        } => prepare_store(
            alloc, schema, capacity, unit, *rtype, items, *suppress, held,
        ),
        // The contract: a DELETE is another crate's.
        Statement::Delete(_) => unreachable!(),
    }
}

/// Prepares a statement other than DELETE that needs nothing more: makes room for what it adds to the cells that it holds, which still show
/// the same, and fixes its answer and its changes. If no memory is found, only room was made.
pub fn prepare(
    alloc: Global,
    schema: &Schema,
    capacity: u16,
    unit: &Unit,
    statement: &Statement,
    held: &mut Held,
) -> Result<Prepared, AllocError>
    requires may { MayPrepare schema.now capacity unit.now held.old statement.now }
    requires other { is_delete statement.now ≡ false }
    ensures shows { ShowsTheSame held.old held.new }
    ensures prepared { IfOk result (λ plan. CanFinish schema.now capacity unit.now held.new statement.now plan) }
    ensures made { IfOk result (λ plan. IsMadeOnEach schema.now capacity unit.now held.old statement.now (made_by schema.now unit.now held.new plan)) }
{
    match refused_at_once(schema, capacity, unit, statement) {
        Some(cause) => Ok(refused(alloc, cause)),
        None => prepare_passed(alloc, schema, capacity, unit, statement, held),
    }
}
