//! The database that units share. It holds no seat.
ghost use Rattle.std.specs.Prelude.{◌≡◌, ◌<◌};
ghost use Rattle.dbtg_run.specs.Inside.Posed.{IsSized};

use crate::rule::Board;
use crate::view::About;
use dbtg_schema::Schema;

/// The database that units share: its table, its schema, and what it is made with.
#[derive(Drop)]
pub struct Database {
    pub board: Board,
    pub schema: Schema,
    pub about: About,
    pub ghost keyed: { board.shared.key ≡ about },
    pub ghost same: { about.schema.value ≡ schema },
    pub ghost sized: { IsSized about board.shared.table_id },
    pub ghost some: { 0 < about.units },
}
