//! The end of a database: its units come together, and their journals are one history.
ghost use Rattle.std.specs.Prelude.{◌≡◌, ◌↔◌, ◌<◌, ◌≤◌, length, replicate, All, IfOk, IfErr};
ghost use Rattle.dbtg_step.specs.Core.Audit.{IsAudited};
ghost use Rattle.dbtg_run.specs.Inside.Settling.{AreAll, HaveJoined, all_entries, blank, by_ticket, entries_from_last, placed};
ghost use Rattle.dbtg_run.specs.Settling.{IsSettled};
ghost use Rattle.dbtg_run.specs.UnitView.{BelongsTo};

use crate::database::Database;
use crate::merge::{blank, make_slots, merge, place};
use crate::rule::Chair;
use crate::seats::{join_to, learn};
use crate::settled::{Fault, Settled, Unsettled};
use crate::unit::RunUnit;
use dbtg_schema::Row;
use dbtg_step::audit_each;
use dbtg_unit::{Entry, Image, Unit};
use std::alloc::{AllocError, Global};

// One seat for all units, whose entries go into the slots of their tickets.
fn join_all(db: &Database, units: Vec<RunUnit>, slots: &mut [Entry]) -> Chair
    requires belong { All (BelongsTo db.now) units.items }
    requires some { 0 < length units.items }
    ensures table { result.table_id ≡ db.now.board.shared.table_id }
    ensures joined { HaveJoined db.now.about units.items result.me }
    ensures placed { slots.new ≡ placed slots.old (entries_from_last units.items) }
{
    let mut units = units;
    let Some(first) = units.pop() else {
        unreachable!()
    };
    let (mut seat, journal) = first.into_parts();
    place(slots, journal);
    'units: while let Some(unit) = units.pop() {
        let (other, journal) = unit.into_parts();
        place(slots, journal);
        join_to(&db.board.shared, &mut seat, other);
    }
    seat
}

// If as many units have come as there are, they are all of them, and one history made them. Their entries go into the slots of their
// tickets.
fn learn_all(db: &Database, units: Vec<RunUnit>, slots: Vec<Entry>) -> Vec<Entry>
    requires belong { All (BelongsTo db.now) units.items }
    requires all { db.now.about.units ≤ length units.items }
    ensures all { AreAll db.now.about units.items }
    ensures placed { result.items ≡ placed slots.items (entries_from_last units.items) }
{
    let mut slots = slots;
    let mut seat = join_all(db, units, slots.as_mut_slice());
    learn(&db.board.shared, &mut seat);
    slots
}

// A slot for each entry, and what the journals lead to by ticket, if they are a history.
fn audit_all(
    alloc: Global,
    db: &Database,
    units: &[RunUnit],
) -> Result<(Vec<Entry>, Option<(Image, Row<Unit>)>), AllocError>
    requires belong { All (BelongsTo db.now) units.now }
    requires some { 0 < length units.now }
    ensures slots { IfOk result (λ r. r.0.items ≡ replicate (length (all_entries units.now)) blank) }
    ensures audited { IfOk result (λ r. IsAudited db.now.schema db.now.about.capacity db.now.about.units (by_ticket (all_entries units.now)) r.1) }
{
    // What the units know of the database: its schema is sound, for the audit.
    let _about = units[0].about();
    let none = blank();
    let slots = make_slots(alloc, units)?;
    let history = merge(alloc, &none, units)?;
    let found = audit_each(
        alloc,
        &db.schema,
        db.about.capacity,
        db.about.units,
        history.as_slice(),
    )?;
    Ok((slots, found))
}

/// Ends the database, once all its units are handed in, in any order. All memory is taken before a seat is given up. If memory is
/// refused, or a unit is missing, the database and the units come back as they were.
pub fn settle(alloc: Global, db: Database, units: Vec<RunUnit>) -> Result<Settled, Unsettled>
    requires belong { All (BelongsTo db) units.items }
    ensures ok { IfOk result (λ settled. IsSettled db units.items settled) }
    ensures err { IfErr result (λ back. (back.db ≡ db) × (back.units ≡ units)) }
    ensures missing { IfErr result (λ back. (back.fault ≡ Fault.Missing) ↔ (length units.items < db.about.units)) }
{
    if units.as_slice().len() < db.about.units as usize {
        return Err(Unsettled {
            fault: Fault::Missing,
            db,
            units,
        });
    }
    match audit_all(alloc, &db, units.as_slice()) {
        Err(_) => Err(Unsettled {
            fault: Fault::NoMemory,
            db,
            units,
        }),
        Ok((slots, found)) => {
            let history = learn_all(&db, units, slots);
            let Some((image, units)) = found else {
                unreachable!()
            };
            Ok(Settled {
                schema: db.schema,
                image,
                history: Row::of(history),
                units,
            })
        }
    }
}
