//! What stands in the way of a statement that is refused.
use dbtg_cells::{DbKey, Mode, Owner};
use dbtg_schema::{AreaNo, RecordNo, SetNo};

/// What the cause of a refusal is about.
#[derive(Clone, Copy, Debug, PartialEq, Eq)]
pub enum Obstacle {
    /// A unit that has no current of run-unit.
    RunUnit(u8),
    Area(AreaNo),
    /// An area that a unit has open.
    Opened {
        area: AreaNo,
        unit: u8,
        mode: Mode,
    },
    RecordType(RecordNo),
    Set(SetNo),
    /// A record type, for its class in a set.
    Class {
        rtype: RecordNo,
        set: SetNo,
    },
    Record(DbKey),
    /// A record that was kept at one version and has another now.
    Changed {
        key: DbKey,
        kept: u64,
        now: u64,
    },
    /// The occurrence of a set that has this owner.
    Occurrence {
        set: SetNo,
        owner: Owner,
    },
    /// A record in an occurrence, or one that is no longer there.
    Member {
        set: SetNo,
        owner: Owner,
        key: DbKey,
    },
    /// A record that is in no occurrence of a set.
    Outside {
        set: SetNo,
        key: DbKey,
    },
}
