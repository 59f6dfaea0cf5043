//! The audit of a history: the statement of each entry is made again, and its answer compared.
ghost use Rattle.std.specs.Prelude.{◌≡◌, ◌==◌, ◌&&◌, [], ◌∷◌, List, nat_lt, nat_le, length, IfOk, OnErr};
ghost use Rattle.std.specs.Bool.{Decides, MatchBool};
ghost use Rattle.dbtg_schema.specs.Sound.{IsSound};
ghost use Rattle.dbtg_unit.specs.declared.unit.Entry.{Entry};
ghost use Rattle.dbtg_unit.specs.Database.Statements.Fits.{fits};
ghost use Rattle.dbtg_unit.specs.Database.Laws.Replay.{IsHistoryOf};
ghost use Rattle.dbtg_step.specs.Core.Audit.{IsAudited, MayBeHistory, entries_at};
ghost use Rattle.dbtg_step.specs.Core.Bare.{Continues, StandsAfter};
ghost use Rattle.dbtg_step.specs.Inside.Audit.{GoesOn, MayStand, with_history};

use crate::bare::BareDatabase;
use crate::comparing::same_answer;
use dbtg_schema::{Row, Schema};
use dbtg_unit::{Entry, Image, Unit};
use std::alloc::{AllocError, Global};

// Whether the entry may be at this place of a history: by its ticket, its unit, and whether its statement fits.
fn may_stand(schema: &Schema, units: u8, place: usize, entry: &Entry) -> bool
    ensures { result ≡ (entry.now.ticket == place && nat_lt 0 entry.now.unit && nat_le entry.now.unit units && fits schema.now entry.now.statement) }
{
    (entry.ticket == place as u64)
        & (0 < entry.unit)
        & (entry.unit <= units)
        & entry.statement.fits(schema)
}

// Whether the list may be a history, as far as this can be seen without a database.
fn may_be_history(schema: &Schema, units: u8, history: &[Entry]) -> bool
    ensures { Decides result (MayBeHistory schema.now units history.now) }
{
    for (place, entry) in history.iter().enumerate() {
        if !may_stand(schema, units, place, entry) {
            return false;
        }
    }
    true
}

// The same of a list whose entries stand elsewhere.
fn each_may_stand(schema: &Schema, units: u8, history: &[&Entry]) -> bool
    ensures { Decides result (MayBeHistory schema.now units (entries_at history.now)) }
{
    for (place, entry) in history.iter().enumerate() {
        if !may_stand(schema, units, place, *entry) {
            return false;
        }
    }
    true
}

// Where each entry of a list stands.
fn each_of(alloc: Global, history: &[Entry]) -> Result<Vec<&Entry>, AllocError>
    ensures { IfOk result (λ entries. entries_at entries.items ≡ history.now) }
{
    let mut entries = Vec::with_capacity(alloc, history.len())?;
    for entry in history {
        entries.push(entry)?;
    }
    Ok(entries)
}

// Makes the statement of the next entry; whether its answer is then the entry's.
fn takes(database: &mut BareDatabase<'_>, entry: &Entry) -> Result<bool, AllocError>
    requires may { MayStand database.old.schema (length database.old.units) database.old.count entry.now }
    requires stands { (history : List Entry) × StandsAfter database.old history }
    ensures { IfOk result (λ follows. MatchBool follows (Continues database.old (entry.now ∷ []) database.new) ((history : List Entry) → StandsAfter database.old history → GoesOn (with_history database.old history) entry.now → ⊥)) }
{
    let answer = database.answer(entry.unit, &entry.statement)?;
    Ok(same_answer(&entry.answer, &answer))
}

// Makes the statements of the entries, one after another, as long as each has its entry's answer; whether all of them do.
fn takes_all(database: &mut BareDatabase<'_>, history: &[&Entry]) -> Result<bool, AllocError>
    requires may { MayBeHistory database.old.schema (length database.old.units) (entries_at history.now) }
    requires fresh { StandsAfter database.old [] }
    ensures { IfOk result (λ all. MatchBool all (Continues database.old (entries_at history.now) database.new) (IsHistoryOf database.old.schema database.old.capacity (length database.old.units) (entries_at history.now) → ⊥)) }
{
    for entry in history {
        if !takes(database, *entry)? {
            return Ok(false);
        }
    }
    Ok(true)
}

// The audit of a history by a database on which nothing was made yet.
fn audit_from(
    mut database: BareDatabase<'_>,
    history: &[&Entry],
) -> Result<Option<(Image, Row<Unit>)>, AllocError>
    requires may { MayBeHistory database.schema (length database.units) (entries_at history.now) }
    requires fresh { StandsAfter database [] }
    ensures { IfOk result (λ found. IsAudited database.entry.schema database.entry.capacity (length database.entry.units) (entries_at history.now) found) }
{
    if takes_all(&mut database, history)? {
        Ok(Some(database.into_image_and_units()?))
    } else {
        Ok(None)
    }
}

// The audit of a list that may be a history.
fn audit_judged(
    alloc: Global,
    schema: &Schema,
    capacity: u16,
    units: u8,
    history: &[&Entry],
) -> Result<Option<(Image, Row<Unit>)>, AllocError>
    requires sound { IsSound schema.now }
    requires may { MayBeHistory schema.now units (entries_at history.now) }
    ensures { IfOk result (λ found. IsAudited schema.now capacity units (entries_at history.now) found) }
{
    let database = BareDatabase::opening(alloc, schema, capacity, units)?;
    audit_from(database, history)
}

/// Whether a list is a history of the sequential database with this number of units, numbered from 1: its tickets are
/// 0, 1, 2, .. in order, each unit is one of them, the statements fit, and each answer is the sequential database's. Then that
/// database and its units. Tickets, units and statements are judged before any memory is taken. Then the statements are made
/// again, one after another, on a database of its own, up to the first whose answer is not the entry's.
pub fn audit(
    alloc: Global,
    schema: &Schema,
    capacity: u16,
    units: u8,
    history: &[Entry],
) -> Result<Option<(Image, Row<Unit>)>, AllocError>
    requires sound { IsSound schema.now }
    ensures audited { IfOk result (λ found. IsAudited schema.now capacity units history.now found) }
    ensures memory { OnErr result (MayBeHistory schema.now units history.now) }
{
    if !may_be_history(schema, units, history) {
        return Ok(None);
    }
    let entries = each_of(alloc, history)?;
    audit_judged(alloc, schema, capacity, units, entries.as_slice())
}

/// The audit of a list whose entries stand elsewhere. They are judged first too, as far as they can be without a database.
pub fn audit_each(
    alloc: Global,
    schema: &Schema,
    capacity: u16,
    units: u8,
    history: &[&Entry],
) -> Result<Option<(Image, Row<Unit>)>, AllocError>
    requires sound { IsSound schema.now }
    ensures audited { IfOk result (λ found. IsAudited schema.now capacity units (entries_at history.now) found) }
    ensures memory { OnErr result (MayBeHistory schema.now units (entries_at history.now)) }
{
    if !each_may_stand(schema, units, history) {
        return Ok(None);
    }
    audit_judged(alloc, schema, capacity, units, history)
}
