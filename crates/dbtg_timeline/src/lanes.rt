//! Which units are in mid-statement.
ghost use Rattle.std.specs.Prelude.{◌≡◌};
ghost use Rattle.dbtg_timeline.specs.Strips.{after_strip};

use crate::strips::Strip;

/// A strip was drawn: marks whether its line left the unit in mid-statement.
pub fn pass(lanes: &mut Vec<bool>, strip: &Strip)
    ensures { lanes.new.items ≡ after_strip lanes.old.items strip.now }
{
    let unit = strip.unit as usize;
    if 0 < unit && unit <= lanes.len() {
        lanes[unit - 1] = strip.midway;
    }
}
