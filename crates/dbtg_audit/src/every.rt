//! The audit of every line: all statements are made, and each answer that differs from the trace is reported.
ghost use Rattle.std.specs.Prelude.{◌≡◌, ◌++◌, ◌≤◌, ◌<◌, ◌-◌, length, slice_get, Some, true, IfOk};
ghost use Rattle.std.specs.List.{list_all};
ghost use Rattle.dbtg_unit.specs.declared.unit.Entry.{Entry};
ghost use Rattle.dbtg_unit.specs.Database.Statements.Fits.{fits};
ghost use Rattle.dbtg_step.specs.Core.Whole.{HasMade};
ghost use Rattle.dbtg_trace.specs.Parts.{is_unit};
ghost use Rattle.dbtg_audit.specs.Auditing.{is_so, told_text};
ghost use Rattle.dbtg_audit.specs.Inside.Audits.{HasToldAll};

use crate::said::is_so;
use crate::telling::push_difference;
use dbtg_schema::{Row, Schema};
use dbtg_step::WholeDatabase;
use dbtg_trace::{Said, Traced};
use dbtg_unit::Entry;
use std::alloc::AllocError;

/// What a line says of an answer.
#[derive(Clone, Copy)]
struct Claim<'a> {
    line: u64,
    said: &'a Said,
}

// Whether the newest entry's answer agrees with what is said of it; a difference is appended to a text.
fn tell_newest(
    out: &mut Vec<u8>,
    schema: &Schema,
    history: &[Entry],
    statuses: bool,
    claim: Claim,
) -> Result<bool, AllocError>
    requires { 0 < length history.now }
    ensures so { IfOk result (λ so. (e : Entry) → slice_get history.now (length history.now - 1) ≡ Some e → so ≡ is_so statuses claim.entry.said.now e) }
    ensures told { IfOk result (λ _. (e : Entry) → slice_get history.now (length history.now - 1) ≡ Some e → out.new.items ≡ out.old.items ++ told_text statuses schema.now claim.entry.line claim.entry.said.now e) }
{
    let entry = &history[history.len() - 1];
    if is_so(statuses, claim.said, entry) {
        return Ok(true);
    }
    push_difference(out, schema, claim.line, claim.said, entry)?;
    Ok(false)
}

// Makes the statement of a line; whether its answer agrees with what the line says of it.
fn make_one(
    out: &mut Vec<u8>,
    schema: &Schema,
    database: &mut WholeDatabase<'_>,
    one: Traced,
    statuses: bool,
) -> Result<bool, AllocError>
    requires unit { is_unit database.old.units one.unit ≡ true }
    requires fitting { fits database.old.schema one.statement ≡ true }
    ensures made { IfOk result (λ _. HasMade database.old one.unit one.statement database.new) }
    ensures so { IfOk result (λ so. (e : Entry) → slice_get database.new.history (length database.new.history - 1) ≡ Some e → so ≡ is_so statuses one.said e) }
    ensures told { IfOk result (λ _. (e : Entry) → slice_get database.new.history (length database.new.history - 1) ≡ Some e → out.new.items ≡ out.old.items ++ told_text statuses schema.now one.line one.said e) }
{
    let Traced {
        line,
        unit,
        statement,
        said,
    } = one;
    database.make(unit, statement)?;
    let claim = Claim { line, said: &said };
    tell_newest(out, schema, database.history(), statuses, claim)
}

/// Makes all statements of a trace, and appends to a text each answer that differs; whether all agree.
pub fn tell_all(
    out: &mut Vec<u8>,
    schema: &Schema,
    database: &mut WholeDatabase<'_>,
    traced: Row<Traced>,
    statuses: bool,
) -> Result<bool, AllocError>
    requires fitting { list_all (λ t. fits database.old.schema t.statement) traced ≡ true }
    requires units { list_all (λ t. is_unit database.old.units t.unit) traced ≡ true }
    ensures { IfOk result (λ so. HasToldAll statuses schema.now database.old traced database.new out.old.items out.new.items so) }
{
    let mut so = true;
    for one in traced.into_vec() {
        let is = make_one(out, schema, database, one, statuses)?;
        so = so & is;
    }
    Ok(so)
}
