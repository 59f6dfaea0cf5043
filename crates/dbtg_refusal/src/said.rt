//! What is said of statements that were made on a database in memory.
ghost use Rattle.std.specs.Prelude.{◌≡◌, [], IfOk, option_copied};
ghost use Rattle.dbtg_schema.specs.Sound.{IsSound};
ghost use Rattle.dbtg_unit.specs.declared.unit.Status.TheVariants.{Refused};
ghost use Rattle.dbtg_unit.specs.Database.Laws.Replay.{unit_of};
ghost use Rattle.dbtg_step.specs.Core.Audit.{MayBeHistory};
ghost use Rattle.dbtg_step.specs.Core.Whole.{state_now};
ghost use Rattle.dbtg_refusal.specs.Said.{said_from, said_in, said_of_history, said_with};
ghost use Rattle.dbtg_refusal.specs.Sentences.{refusal_text};

use crate::sentence::refusal_text;
use dbtg_schema::{Row, Schema};
use dbtg_step::WholeDatabase;
use dbtg_unit::{Cause, Entry, Statement, Status, Unit};
use std::alloc::{AllocError, Global};

// The unit with this number, numbered from 1, as the statements left it.
fn unit_in<'a>(database: &'a WholeDatabase<'_>, number: u8) -> Option<&'a Unit>
    ensures { option_copied result ≡ unit_of (state_now database.now) number }
{
    if number == 0 {
        return None;
    }
    database.units().get(number as usize - 1)
}

// What is said of a refusal of a unit's statement, on the database as it is.
#[tactic(auto, using(crate::proofs::LegalNow::legal_now))]
fn said_of_unit(
    alloc: Global,
    schema: &Schema,
    database: &WholeDatabase<'_>,
    unit: &Unit,
    statement: &Statement,
    cause: Cause,
) -> Result<Vec<u8>, AllocError>
    requires sound { IsSound schema.now }
    requires of_schema { database.now.schema ≡ schema.now }
    ensures { IfOk result (λ out. out.items ≡ refusal_text schema.now database.now.capacity (state_now database.now).database unit.now statement.now cause) }
{
    let _history = database.history();
    let image = database.image()?;
    refusal_text(alloc, schema, &image, unit, statement, cause)
}

// The same, if there is such a unit.
fn said_of_refusal(
    alloc: Global,
    schema: &Schema,
    database: &WholeDatabase<'_>,
    entry: &Entry,
    cause: Cause,
) -> Result<Vec<u8>, AllocError>
    requires sound { IsSound schema.now }
    requires of_schema { database.now.schema ≡ schema.now }
    ensures { IfOk result (λ out. out.items ≡ said_with schema.now database.now.capacity (state_now database.now) entry.now (Refused cause)) }
{
    match unit_in(database, entry.unit) {
        Some(unit) => said_of_unit(alloc, schema, database, unit, &entry.statement, cause),
        None => Ok(Vec::new(alloc)),
    }
}

/// What is said of a statement, on the database as it is before it is made, or after it was refused: which area, set or record stands in
/// its way. Nothing is said of a statement that is done.
pub fn said_of(
    alloc: Global,
    schema: &Schema,
    database: &WholeDatabase<'_>,
    entry: &Entry,
) -> Result<Vec<u8>, AllocError>
    requires sound { IsSound schema.now }
    requires of_schema { database.now.schema ≡ schema.now }
    ensures { IfOk result (λ out. out.items ≡ said_in schema.now database.now.capacity (state_now database.now) entry.now) }
{
    match entry.answer.status {
        Status::Done => Ok(Vec::new(alloc)),
        Status::Refused(cause) => said_of_refusal(alloc, schema, database, entry, cause),
    }
}

// What is said of each of these entries before its statement is made, on a database on which nothing was made.
fn said_of_entries(
    alloc: Global,
    schema: &Schema,
    database: &mut WholeDatabase<'_>,
    history: &[Entry],
) -> Result<Vec<Row<u8>>, AllocError>
    requires sound { IsSound schema.now }
    requires of_schema { database.old.schema ≡ schema.now }
    requires may { MayBeHistory schema.now database.old.units history.now }
    requires fresh { database.old.history ≡ [] }
    ensures { IfOk result (λ said. said.items ≡ said_of_history schema.now database.old.capacity database.old.units history.now) }
{
    let mut said = Vec::new(alloc);
    for entry in history {
        said.push(Row::of(said_of(alloc, schema, database, entry)?))?;
        database.make(entry.unit, entry.statement.copy()?)?;
    }
    Ok(said)
}

/// What is said of each statement of a history, in the order of the tickets, on the database as it is before the statement is made. To
/// find it the statements are made again, each whole.
pub fn said_of_history(
    alloc: Global,
    schema: &Schema,
    capacity: u16,
    units: u8,
    history: &[Entry],
) -> Result<Vec<Row<u8>>, AllocError>
    requires sound { IsSound schema.now }
    requires may { MayBeHistory schema.now units history.now }
    ensures { IfOk result (λ said. said.items ≡ said_of_history schema.now capacity units history.now) }
{
    let mut database = WholeDatabase::opening(alloc, schema, capacity, units)?;
    said_of_entries(alloc, schema, &mut database, history)
}
