//! The audit of a trace: each statement is made whole, and its answer compared with the trace.
ghost use Rattle.std.specs.Prelude.{◌≡◌, ◌≤◌, ◌<◌, ◌-◌, Bool, List, [], length, slice_get, Some, true, IfOk, IfSome};
ghost use Rattle.std.specs.List.{list_all};
ghost use Rattle.dbtg_schema.specs.Sound.{IsSound};
ghost use Rattle.dbtg_unit.specs.declared.unit.Entry.{Entry};
ghost use Rattle.dbtg_unit.specs.Database.Statements.Fits.{fits};
ghost use Rattle.dbtg_step.specs.Core.Whole.{HasMade, Making};
ghost use Rattle.dbtg_trace.specs.Parts.{is_unit};
ghost use Rattle.dbtg_trace.specs.declared.traced.Traced.{Traced};
ghost use Rattle.dbtg_audit.specs.Auditing.{IsAllAudited, IsAudited, is_so};
ghost use Rattle.dbtg_audit.specs.declared.auditing.Recorded.{Recorded as SeenRecorded};
ghost use Rattle.dbtg_audit.specs.Inside.Audits.{HasMadeUpTo, HasToldAll, IsLoaded};

use crate::every::tell_all;
use crate::loading::loaded;
use crate::said::is_so;
use dbtg_schema::{Row, Schema};
use dbtg_step::{Run, WholeDatabase};
use dbtg_trace::{Said, Traced};
use dbtg_unit::{Entry, LAST_UNIT, Statement};
use std::alloc::{AllocError, Global};

/// What was recorded elsewhere: a trace and how many units it has, and perhaps a script that is made first, by another unit.
#[derive(Drop)]
pub struct Recorded {
    pub units: u8,
    pub load: Option<Row<Statement>>,
    pub traced: Row<Traced>,
}

/// An answer that differs from the trace: the line that differs, what it says, and the history up to the entry that has
/// the answer, which is the last.
#[derive(Drop)]
pub struct Difference {
    pub line: u64,
    pub said: Said,
    pub history: Row<Entry>,
}

/// The result of the audit of a trace.
#[derive(Drop)]
pub enum Audited {
    /// The trace agrees: its history, with the image and the units to which it leads.
    Equal(Run),
    /// The first answer that differs from the trace.
    Differs(Difference),
}

/// The result of the audit of every line of a trace.
#[derive(Drop)]
pub enum AllAudited {
    /// The trace agrees: its history, with the image and the units to which it leads.
    Equal(Run),
    /// What is said of each answer that differs from the trace.
    Differ(Vec<u8>),
}

// Whether the newest entry's answer agrees with what is said of it.
fn newest_is_so(history: &[Entry], statuses: bool, said: &Said) -> bool
    requires { 0 < length history.now }
    ensures { (e : Entry) → slice_get history.now (length history.now - 1) ≡ Some e → result ≡ is_so statuses said.now e }
{
    is_so(statuses, said, &history[history.len() - 1])
}

// Makes a statement; whether its answer agrees with what is said of it.
fn make_one(
    database: &mut WholeDatabase<'_>,
    unit: u8,
    statement: Statement,
    statuses: bool,
    said: &Said,
) -> Result<bool, AllocError>
    requires numbered { 0 < unit }
    requires within { unit ≤ database.old.units }
    requires fitting { fits database.old.schema statement ≡ true }
    ensures { IfOk result (λ so. (HasMade database.old unit statement database.new) × ((e : Entry) → slice_get database.new.history (length database.new.history - 1) ≡ Some e → so ≡ is_so statuses said.now e)) }
{
    database.make(unit, statement)?;
    Ok(newest_is_so(database.history(), statuses, said))
}

// Makes the statements of a trace up to the first whose answer differs: gives its line, and what that says.
fn make_up_to(
    database: &mut WholeDatabase<'_>,
    traced: Row<Traced>,
    statuses: bool,
) -> Result<Option<(u64, Said)>, AllocError>
    requires fitting { list_all (λ t. fits database.old.schema t.statement) traced ≡ true }
    requires units { list_all (λ t. is_unit database.old.units t.unit) traced ≡ true }
    ensures { IfOk result (λ found. HasMadeUpTo statuses database.old traced found database.new) }
{
    for one in traced.into_vec() {
        let Traced {
            line,
            unit,
            statement,
            said,
        } = one;
        if !make_one(database, unit, statement, statuses, &said)? {
            return Ok(Some((line, said)));
        }
    }
    Ok(None)
}

// The result of an audit, if the statements are made up to the line that was found.
fn audited_of(
    database: WholeDatabase<'_>,
    found: Option<(u64, Said)>,
) -> Result<Audited, AllocError>
    ensures { IfOk result (λ audited. (statuses : Bool) (old : Making) (recorded : SeenRecorded) → IsLoaded old.schema old.capacity recorded.units recorded.load old
        → HasMadeUpTo statuses old recorded.traced found database.entry → IsAudited statuses old.schema old.capacity recorded audited) }
{
    let run = database.into_run()?;
    match found {
        None => Ok(Audited::Equal(run)),
        Some((line, said)) => {
            Ok(Audited::Differs(Difference {
                line,
                said,
                history: run.into_history(),
            }))
        }
    }
}

/// Whether the sequential database gives the answers of a trace; only statuses are compared if that is asked. The statements
/// are made whole, one after another, on a database of its own, up to the first whose answer differs from the trace.
pub fn audit_trace(
    alloc: Global,
    schema: &Schema,
    capacity: u16,
    recorded: Recorded,
    statuses: bool,
) -> Result<Audited, AllocError>
    requires sound { IsSound schema.now }
    requires few { recorded.units < LAST_UNIT }
    requires load { IfSome recorded.load (λ script. list_all (fits schema.now) script ≡ true) }
    requires fitting { list_all (λ t. fits schema.now t.statement) recorded.traced ≡ true }
    requires units { list_all (λ t. is_unit recorded.units t.unit) recorded.traced ≡ true }
    ensures { IfOk result (λ audited. IsAudited statuses schema.now capacity recorded audited) }
{
    let Recorded {
        units,
        load,
        traced,
    } = recorded;
    let mut database = loaded(alloc, schema, capacity, units, load)?;
    let found = make_up_to(&mut database, traced, statuses)?;
    audited_of(database, found)
}

// The result of an audit, if all statements are made and this is said of those that differ.
fn all_audited_of(
    database: WholeDatabase<'_>,
    so: bool,
    told: Vec<u8>,
) -> Result<AllAudited, AllocError>
    ensures { IfOk result (λ audited. (statuses : Bool) (old : Making) (recorded : SeenRecorded) → IsLoaded old.schema old.capacity recorded.units recorded.load old
        → HasToldAll statuses old.schema old recorded.traced database.entry [] told.items so → IsAllAudited statuses old.schema old.capacity recorded audited) }
{
    if so {
        Ok(AllAudited::Equal(database.into_run()?))
    } else {
        Ok(AllAudited::Differ(told))
    }
}

/// The same for every line: after an answer that differs from the trace, the trace's statements go on with the sequential
/// database as it is.
pub fn audit_every_line(
    alloc: Global,
    schema: &Schema,
    capacity: u16,
    recorded: Recorded,
    statuses: bool,
) -> Result<AllAudited, AllocError>
    requires sound { IsSound schema.now }
    requires few { recorded.units < LAST_UNIT }
    requires load { IfSome recorded.load (λ script. list_all (fits schema.now) script ≡ true) }
    requires fitting { list_all (λ t. fits schema.now t.statement) recorded.traced ≡ true }
    requires units { list_all (λ t. is_unit recorded.units t.unit) recorded.traced ≡ true }
    ensures { IfOk result (λ audited. IsAllAudited statuses schema.now capacity recorded audited) }
{
    let Recorded {
        units,
        load,
        traced,
    } = recorded;
    let mut told = Vec::new(alloc);
    let mut database = loaded(alloc, schema, capacity, units, load)?;
    let so = tell_all(&mut told, schema, &mut database, traced, statuses)?;
    all_audited_of(database, so, told)
}
