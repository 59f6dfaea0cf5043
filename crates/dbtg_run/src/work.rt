//! A unit at work: what it is, its entries, what it holds, and its seat at the table.
ghost use Rattle.std.specs.Prelude.{◌≡◌};
ghost use Rattle.dbtg_run.specs.Inside.Posed.{posed, AreInside};

use crate::rule::Chair;
use crate::view::About;
use dbtg_unit::{Entry, Held, Unit};

/// A unit that makes statements. Its seat knows exactly what the other fields say, and the slots of the cells that it holds
/// are empty.
#[derive(Drop)]
pub struct Work {
    pub about: About,
    pub unit: Unit,
    pub journal: Vec<Entry>,
    pub exclusive: bool,
    pub held: Held,
    pub seat: Chair,
    pub ghost tied: { seat.me ≡ posed about unit journal.items exclusive held },
    pub ghost inside: { AreInside about held },
}
