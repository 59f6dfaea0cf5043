//! Why a search stops before its end.
ghost use Rattle.std.specs.Prelude.{◌≡◌};
ghost use Rattle.dbtg_states.specs.declared.stop.Stop.TheVariants.{Memory};

use std::alloc::{AllocError, AllocFailed};

/// Why a search has no results: memory was refused, or there are more states than allowed.
#[derive(Drop)]
pub enum Stop {
    Memory,
    States,
}

impl From<AllocError> for Stop {
    ghost from_gives = { λ _ e. e ≡ Memory };

    fn from(_error: AllocError) -> Stop {
        Stop::Memory
    }
}

impl<T: Drop> From<AllocFailed<T>> for Stop {
    ghost from_gives = { λ _ e. e ≡ Memory };

    fn from(_error: AllocFailed<T>) -> Stop {
        Stop::Memory
    }
}
