//! The tries of a statement.
ghost use Rattle.std.specs.Prelude.{◌≡◌, ◌+◌, ◌<◌, ◌≤◌, MatchBool};
ghost use Rattle.dbtg_run.specs.Inside.Tries.{AreUsedUp, Suffice};

/// How many tries a statement has, and how many of its looks were in vain. Each of those uses one.
#[derive(Drop)]
pub struct Tries {
    pub given: u32,
    pub vain: u64,
}

impl Tries {
    pub(crate) fn of(given: u32) -> Self
        ensures { result ≡ record { given = given; vain = 0 } }
    {
        Self { given, vain: 0 }
    }

    // A look was in vain.
    pub(crate) fn use_one(&mut self)
        requires { Suffice self.old }
        ensures { self.new ≡ record self.old { vain = self.old.vain + 1 } }
    {
        self.vain += 1;
    }

    // Whether there was a look in vain without a try for it.
    pub(crate) fn are_used_up(&self) -> bool
        ensures { MatchBool result (self.now.given < self.now.vain) (Suffice self.now) }
    {
        self.vain > self.given as u64
    }
}
