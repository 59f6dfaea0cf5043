//! The programs that run before and after all others.

ghost use Rattle.dbtg_going.specs.Turns.{is_heard, one_less, others};
ghost use Rattle.std.specs.Prelude.{◌≡◌};

/// Is there a program that runs before all others, and one that runs after all others have ended? The last of the programs is
/// the one that runs last; the one before it, or the last one if no program runs last, is the one that runs first.
#[derive(Clone, Copy)]
pub struct Around {
    pub first: bool,
    pub last: bool,
}

// One less, if there is such a program.
fn one_less(there: bool, count: u8) -> u8
    ensures { result ≡ one_less there count }
{
    if there {
        count.saturating_sub(1)
    } else {
        count
    }
}

impl Around {
    /// How many of the programs are neither first nor last, if there are `units` of them.
    pub fn others(self, units: u8) -> u8
        ensures { result ≡ others self units }
    {
        one_less(self.first, one_less(self.last, units))
    }

    /// Is this a unit other than that of the program that runs last?
    pub fn is_heard(self, units: u8, unit: u8) -> bool
        ensures { result ≡ is_heard self units unit }
    {
        !(self.last && unit == units)
    }
}
