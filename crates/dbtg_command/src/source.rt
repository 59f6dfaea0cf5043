//! Where the texts given to a command come from: bytes in memory, or files. A command reads only through it.
ghost use Rattle.std.specs.Prelude.{◌≡◌, ℕ, List, IfErr, IfOk};
ghost use Rattle.dbtg_command.specs.Sources.{HasPlace};
ghost use Rattle.dbtg_command.specs.declared.fault.Fault.{Fault};
ghost use Rattle.dbtg_command.specs.declared.order.OrderKind.{OrderKind};
ghost use Rattle.dbtg_command.specs.declared.place.TextPlace.{TextPlace};

use crate::fault::Fault;
use crate::order::OrderKind;
use crate::place::TextPlace;
use std::alloc::Global;

/// What gives a command its texts, one for each place.
pub trait Source {
    /// How many scripts there are.
    ghost count: { Self → ℕ };

    /// The text that gives the order.
    ghost order: { Self → OrderKind };

    /// The source has this text in this place.
    ghost holds: { Self → TextPlace → List ℕ → Type 0 };

    /// The source cannot give the text in this place, and reports this fault.
    ghost fails: { Self → TextPlace → Fault → Type 0 };

    /// How many scripts there are.
    fn count(&self) -> usize
        ensures { result ≡ count self.now };

    /// The text that gives the order.
    fn order(&self) -> OrderKind
        ensures { result ≡ order self.now };

    /// The text in a place, up to the length that its kind may have.
    fn read(&self, alloc: Global, place: TextPlace) -> Result<Vec<u8>, Fault>
        requires { HasPlace (count self.now) (order self.now) place }
        ensures held { IfOk result (λ text. holds self.now place text.items) }
        ensures failed { IfErr result (λ fault. fails self.now place fault) };
}
