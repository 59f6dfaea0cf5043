//! The image of a database: its contents as lists.
use dbtg_cells::{DbKey, Mode, Owner, SharedItems};
use dbtg_schema::Row;
use std::marker::Model;

/// The contents of a database as lists: records and versions by key; the lists by set, then owner; by record type the least
/// free number, 0 for none, and the last generation of each number; by area who has it open, in the order of opening.
pub struct Image {
    pub records: Row<(DbKey, SharedItems)>,
    pub versions: Row<(DbKey, u64)>,
    pub lists: Row<Row<(Owner, Row<DbKey>)>>,
    pub next: Row<u32>,
    pub last: Row<Row<u8>>,
    pub usage: Row<Row<(u8, Mode)>>,
}

impl Drop for Image {
    fn drop(self) {
        let Self {
            records: _,
            versions: _,
            lists: _,
            next: _,
            last: _,
            usage: _,
        } = self;
    }
}

impl Model for Image {
    ghost use Rattle.dbtg_unit.specs.Database.State.Image.{Image as ImageOfDatabase};

    ghost Value = { ImageOfDatabase };

    ghost view = { λ i. record { records = i.records; versions = i.versions; lists = i.lists; next = i.next; last = i.last; usage = i.usage } };
}
