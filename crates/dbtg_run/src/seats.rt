//! Seats at the table: one is cut from another, one joins another, and one that has all units learns the history.
ghost use Rattle.std.specs.Prelude.{◌≡◌, ℕ, ◌+◌, ◌<◌, ◌≤◌, List, [], ◌∷◌, length, true};
ghost use Rattle.dbtg_run.specs.Inside.Views.{lone};
ghost use Rattle.dbtg_run.specs.Inside.LatchRule.{Whole, gathered, one_of, others_of};
ghost use Rattle.dbtg_run.specs.declared.view.SeatUnit.{SeatUnit};

use crate::plays::{Gather, Learn, OneOff};
use crate::rule::{Chair, Top};

// Cuts a seat off for the first unit of this one.
pub(crate) fn cut_off(top: &Top, seat: &mut Chair) -> Chair
    requires table { (seat.old.table_id ≡ top.now.table_id) × (0 < top.now.table_id.words) }
    requires some { (m : SeatUnit) × (ms : List SeatUnit) × (seat.old.me.0 ≡ record { live = true; about = top.now.key; members = m ∷ ms }) }
    ensures left { (seat.new.table_id ≡ seat.old.table_id) × (seat.new.id ≡ seat.old.id) × (seat.new.me ≡ (others_of seat.old.me.0, seat.old.me.1)) }
    ensures cut { (result.table_id ≡ seat.old.table_id) × (result.me ≡ (one_of seat.old.me.0, [])) }
{
    top.split_seat::<OneOff>(seat)
}

// Joins the seat of one unit to another seat.
pub(crate) fn join_to(top: &Top, seat: &mut Chair, other: Chair)
    requires tables { (seat.old.table_id ≡ top.now.table_id) × (other.table_id ≡ top.now.table_id) × (0 < top.now.table_id.words) }
    requires live { (ms : List SeatUnit) × (seat.old.me.0 ≡ record { live = true; about = top.now.key; members = ms }) }
    requires one { (m : SeatUnit) × (other.me ≡ (lone top.now.key m, [])) }
    ensures joined { (seat.new.table_id ≡ seat.old.table_id) × (seat.new.id ≡ seat.old.id) × (seat.new.me ≡ (gathered seat.old.me.0 other.me.0, seat.old.me.1)) }
{
    top.join_seat::<Gather>(seat, other);
}

// A seat has no more units than there are, and one that has them all learns the history that made them.
pub(crate) fn learn(top: &Top, seat: &mut Chair)
    requires table { (seat.old.table_id ≡ top.now.table_id) × (0 < top.now.table_id.words) }
    requires live { (ms : List SeatUnit) × (seat.old.me.0 ≡ record { live = true; about = top.now.key; members = ms }) }
    ensures same { (seat.new.table_id ≡ seat.old.table_id) × (seat.new.id ≡ seat.old.id) × (seat.new.me ≡ seat.old.me) }
    ensures few { length seat.old.me.0.members ≤ top.now.key.units }
    ensures whole { length seat.old.me.0.members ≡ top.now.key.units → Whole seat.old.me.0 }
{
    top.load::<Learn>(seat, 0);
}
