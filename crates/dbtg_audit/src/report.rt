//! The command `audit`: the schema and the trace that a source gives, audited, and the text of the result.
ghost use Rattle.std.specs.Prelude.{ℕ, ◌≡◌, ◌+◌, ◌++◌, ◌∷◌, ◌<◌, [], Bool, List, IfErr, IfOk, IfSome, nat_le, true};
ghost use Rattle.std.specs.List.{list_all};
ghost use Rattle.dbtg_schema.specs.Sound.{IsSound};
ghost use Rattle.dbtg_unit.specs.declared.unit.Entry.{Entry};
ghost use Rattle.dbtg_unit.specs.Database.Statements.Codes.{status_code};
ghost use Rattle.dbtg_unit.specs.Database.Statements.Fits.{fits};
ghost use Rattle.dbtg_command.specs.Refusals.{is_count};
ghost use Rattle.dbtg_command.specs.Sources.{ReadSchema};
ghost use Rattle.dbtg_audit.specs.Auditing.{IsAllAudited, IsAudited};
ghost use Rattle.dbtg_audit.specs.declared.auditing.Recorded.{Recorded as SeenRecorded};
ghost use Rattle.dbtg_trace.specs.Parts.{is_unit};
ghost use Rattle.dbtg_audit.specs.Reported.{AuditHeld, IsFirstVerdict, IsListedVerdict, IsLoad, IsVerdict, ToldOfAudit, ToldOfLoad, ToldOfRecorded, equal_text, loading_units};
ghost use Rattle.dbtg_audit.specs.Telling.{difference_text};

use crate::auditing::{AllAudited, Audited, Difference, Recorded, audit_every_line, audit_trace};
use crate::telling::push_difference;
use dbtg_command::{Fault, Source, TextPlace, read_schema, read_trace, take_script};
use dbtg_schema::{Row, Schema};
use dbtg_script::{image_text, units_text};
use dbtg_step::Run;
use dbtg_unit::{Entry, LAST_UNIT, Statement};
use std::alloc::{AllocError, Global};

/// How a trace is audited: the capacity, the units that it has, whether only statuses are compared, and whether every line that
/// differs is reported.
#[derive(Clone, Copy)]
pub struct AuditOptions {
    pub capacity: u16,
    pub units: u8,
    pub statuses: bool,
    pub all: bool,
}

/// What `audit` prints: on standard output if the trace agrees, otherwise on standard error: the first line that
/// differs, with the status of its answer, or each line that differs.
#[derive(Drop)]
pub enum Verdict {
    Equal(Vec<u8>),
    Differs { told: Vec<u8>, status: u16 },
    Listed(Vec<u8>),
}

// The image and the units, and the line of an audit that is equal.
fn equal_text(alloc: Global, schema: &Schema, given: &Run) -> Result<Vec<u8>, AllocError>
    ensures { IfOk result (λ out. out.items ≡ equal_text schema.now given.now) }
{
    let mut out = image_text(alloc, schema, &given.image)?;
    let units = units_text(alloc, schema, given.units.as_slice())?;
    out.extend_from_slice(units.as_slice())?;
    out.extend_from_slice(b"AUDIT EQUAL\n")?;
    Ok(out)
}

// The line of a difference from this entry, and the entry's status.
fn difference_from(
    alloc: Global,
    schema: &Schema,
    found: &Difference,
    entry: &Entry,
) -> Result<(Vec<u8>, u16), AllocError>
    ensures { IfOk result (λ told. (told.0.items ≡ difference_text schema.now found.now.line found.now.said entry.now) × (told.1 ≡ status_code entry.now.statement entry.now.answer.status)) }
{
    let mut out = Vec::new(alloc);
    push_difference(&mut out, schema, found.line, &found.said, entry)?;
    Ok((out, entry.answer.status.code(&entry.statement)))
}

// The same from its last entry. There is one.
fn difference_of(
    alloc: Global,
    schema: &Schema,
    found: &Difference,
) -> Result<(Vec<u8>, u16), AllocError>
    ensures { IfOk result (λ told. (past : List Entry) (entry : Entry) → found.now.history ≡ past ++ entry ∷ [] → (told.0.items ≡ difference_text schema.now found.now.line found.now.said entry) × (told.1 ≡ status_code entry.statement entry.answer.status)) }
{
    match found.history.as_slice().last() {
        Some(entry) => difference_from(alloc, schema, found, entry),
        None => Ok((Vec::new(alloc), 0)),
    }
}

fn verdict_of(alloc: Global, schema: &Schema, audited: Audited) -> Result<Verdict, AllocError>
    ensures { IfOk result (λ said. (statuses : Bool) (capacity : ℕ) (recorded : SeenRecorded) → IsAudited statuses schema.now capacity recorded audited → IsFirstVerdict statuses schema.now capacity recorded said) }
{
    match audited {
        Audited::Equal(given) => Ok(Verdict::Equal(equal_text(alloc, schema, &given)?)),
        Audited::Differs(found) => {
            let (told, status) = difference_of(alloc, schema, &found)?;
            Ok(Verdict::Differs { told, status })
        }
    }
}

// The same for every line.
fn listed_verdict_of(
    alloc: Global,
    schema: &Schema,
    audited: AllAudited,
) -> Result<Verdict, AllocError>
    ensures { IfOk result (λ said. (statuses : Bool) (capacity : ℕ) (recorded : SeenRecorded) → IsAllAudited statuses schema.now capacity recorded audited → IsListedVerdict statuses schema.now capacity recorded said) }
{
    match audited {
        AllAudited::Equal(given) => Ok(Verdict::Equal(equal_text(alloc, schema, &given)?)),
        AllAudited::Differ(told) => Ok(Verdict::Listed(told)),
    }
}

// The script that is made first: the second text beside the schema, if there is one.
fn read_load<S: Source>(
    alloc: Global,
    source: &S,
    known: &Schema,
) -> Result<Option<Row<Statement>>, Fault>
    ensures read { IfOk result (λ load. IsLoad (S.holds source.now) known.now (nat_le 2 (S.count source.now)) load) }
    ensures fitting { IsSound known.now → IfOk result (λ load. IfSome load (λ script. list_all (fits known.now) script ≡ true)) }
    ensures refused { IfErr result (λ fault. ToldOfLoad (S.holds source.now) (S.fails source.now) fault known.now (S.count source.now)) }
{
    if source.count() < 2 {
        return Ok(None);
    }
    let text = source.read(alloc, TextPlace::Script(2))?;
    let mut scripts = Row::of(Vec::new(alloc));
    take_script(alloc, &mut scripts, known, 2, text.as_slice())?;
    Ok(scripts.into_vec().pop())
}

// What is printed of what was recorded.
fn verdict_on(
    alloc: Global,
    known: &Schema,
    recorded: Recorded,
    options: AuditOptions,
) -> Result<Verdict, AllocError>
    requires sound { IsSound known.now }
    requires few { recorded.units < LAST_UNIT }
    requires load { IfSome recorded.load (λ script. list_all (fits known.now) script ≡ true) }
    requires fitting { list_all (λ t. fits known.now t.statement) recorded.traced ≡ true }
    requires units { list_all (λ t. is_unit recorded.units t.unit) recorded.traced ≡ true }
    ensures { IfOk result (λ said. IsVerdict options known.now recorded said) }
{
    let AuditOptions {
        capacity,
        statuses,
        ..
    } = options;
    if options.all {
        let audited = audit_every_line(alloc, known, capacity, recorded, statuses)?;
        return listed_verdict_of(alloc, known, audited);
    }
    let audited = audit_trace(alloc, known, capacity, recorded, statuses)?;
    verdict_of(alloc, known, audited)
}

// What is printed of the trace over a schema that was read.
fn audit_known<S: Source>(
    alloc: Global,
    source: &S,
    known: &Schema,
    options: AuditOptions,
) -> Result<Verdict, Fault>
    requires read { ReadSchema (S.holds source.now) known.now }
    requires sound { IsSound known.now }
    requires few { options.units < LAST_UNIT }
    ensures done { IfOk result (λ said. AuditHeld (S.holds source.now) (S.count source.now) options said) }
    ensures refused { IfErr result (λ fault. ToldOfRecorded (S.holds source.now) (S.fails source.now) fault known.now options.units (S.count source.now)) }
{
    let traced = Row::of(read_trace(alloc, source, known, options.units)?);
    let load = read_load(alloc, source, known)?;
    let recorded = Recorded {
        units: options.units,
        load,
        traced,
    };
    Ok(verdict_on(alloc, known, recorded, options)?)
}

/// What `audit` prints of the schema and the trace that a source gives, or the first fault. A second script of the source is made
/// first, by a unit after those of the trace, and there are 1 to 8 units in all. With statuses only, keys and items are not compared.
pub fn audit<S: Source>(alloc: Global, source: &S, options: AuditOptions) -> Result<Verdict, Fault>
    requires counted { is_count (options.units + loading_units (S.count source.now)) ≡ true }
    ensures done { IfOk result (λ said. AuditHeld (S.holds source.now) (S.count source.now) options said) }
    ensures refused { IfErr result (λ fault. ToldOfAudit (S.holds source.now) (S.fails source.now) fault options.units (S.count source.now)) }
{
    let known = read_schema(alloc, source)?;
    audit_known(alloc, source, &known, options)
}
