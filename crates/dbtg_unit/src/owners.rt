//! The owners that a unit guesses, put right.
ghost use Rattle.std.specs.Prelude.{◌≡◌, length};
ghost use Rattle.dbtg_unit.specs.Hands.Guesses.{with_owners};

use dbtg_cells::{MaybeOwner, Owners};

/// These guesses with the true owners: where there is a true owner it becomes the guess, elsewhere the guess stays.
pub fn with_owners(guesses: &[MaybeOwner], mut owners: Owners) -> Owners
    requires { length guesses.now ≡ length owners }
    ensures { result ≡ with_owners guesses.now owners }
{
    for set in 0..guesses.len() {
        let owner = owners.as_slice()[set].get().or(guesses[set].get());
        owners.set(set, owner);
    }
    owners
}
