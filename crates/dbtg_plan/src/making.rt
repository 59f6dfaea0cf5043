//! Statements that are made at once, without a plan: FIND and GET, which change no cell, and STORE, INSERT, REMOVE and MODIFY, which
//! take all memory before their first change.
ghost use Rattle.std.specs.Prelude.{◌≡◌, true, None, IfOk, OnErr};
ghost use Rattle.dbtg_unit.specs.Database.State.Base.{Database};
ghost use Rattle.dbtg_unit.specs.Database.Statements.Checks.{refused_at_once};
ghost use Rattle.dbtg_unit.specs.Hands.Local.{Agrees};
ghost use Rattle.dbtg_unit.specs.Hands.Locality.{IsMadeOnEach, seen};
ghost use Rattle.dbtg_unit.specs.Hands.Making.{MayPrepare, ShowsTheSame};
ghost use Rattle.dbtg_plan.specs.AtOnce.{is_made_at_once};

use crate::finding::make_find;
use crate::inserting::make_insert;
use crate::keeping::answer_get;
use crate::modifying::make_modify;
use crate::removing::make_remove;
use crate::storing::make_store;
use crate::unit_alone::refusal;
use dbtg_schema::Schema;
use dbtg_unit::{Answer, Held, Statement, Unit, refused_at_once};
use std::alloc::{AllocError, Global};

/// Is the statement made at once, without a plan?
pub fn is_made_at_once(statement: &Statement) -> bool
    ensures { result ≡ is_made_at_once statement.now }
{
    matches!(
        statement,
        Statement::Find(..)
            | Statement::Get(_)
            | Statement::Store { .. }
            | Statement::Insert(_)
            | Statement::Remove(_)
            | Statement::Modify { .. }
    )
}

// Makes a statement that the checks without cells let through.
fn make_passed(
    alloc: Global,
    schema: &Schema,
    capacity: u16,
    unit: &mut Unit,
    statement: &Statement,
    held: &mut Held,
) -> Result<Answer, AllocError>
    requires may { MayPrepare schema.now capacity unit.old held.old statement.now }
    requires agrees { (db : Database) × Agrees schema.now capacity db held.old unit.old }
    requires at_once { is_made_at_once statement.now ≡ true }
    requires passes { refused_at_once schema.now capacity unit.old statement.now ≡ None }
    ensures made { IfOk result (λ answer. IsMadeOnEach schema.now capacity unit.old held.old statement.now (seen answer unit.new held.new)) }
    ensures unit { OnErr result (unit.new ≡ unit.old) }
    ensures shows { OnErr result (ShowsTheSame held.old held.new) }
{
    match statement {
        Statement::Find(suppress, form) => {
            Ok(make_find(schema, capacity, unit, form, suppress, held))
        }
        Statement::Get(rtype) => answer_get(schema, unit, *rtype, held),
        Statement::Store {
            rtype,
            items,
            suppress,
        } => make_store(alloc, schema, capacity, unit, *rtype, items, suppress, held),
        Statement::Insert(set) => make_insert(alloc, schema, capacity, unit, *set, held),
        Statement::Remove(set) => Ok(make_remove(schema, capacity, unit, *set, held)),
        Statement::Modify { rtype, changes } => make_modify(
            alloc,
            schema,
            capacity,
            unit,
            *rtype,
            changes.get().as_slice(),
            held,
        ),
        _ => unreachable!(),
    }
}

/// Makes a statement that needs nothing more, as its plan would. If memory is refused, nothing visible changes.
pub fn make_at_once(
    alloc: Global,
    schema: &Schema,
    capacity: u16,
    unit: &mut Unit,
    statement: &Statement,
    held: &mut Held,
) -> Result<Answer, AllocError>
    requires may { MayPrepare schema.now capacity unit.old held.old statement.now }
    requires agrees { (db : Database) × Agrees schema.now capacity db held.old unit.old }
    requires at_once { is_made_at_once statement.now ≡ true }
    ensures made { IfOk result (λ answer. IsMadeOnEach schema.now capacity unit.old held.old statement.now (seen answer unit.new held.new)) }
    ensures unit { OnErr result (unit.new ≡ unit.old) }
    ensures shows { OnErr result (ShowsTheSame held.old held.new) }
{
    match refused_at_once(schema, capacity, unit, statement) {
        Some(cause) => Ok(refusal(cause)),
        None => make_passed(alloc, schema, capacity, unit, statement, held),
    }
}
