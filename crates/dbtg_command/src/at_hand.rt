//! Texts whose bytes are in memory.
ghost use Rattle.std.specs.Prelude.{◌≡◌, [], length, slice_get, unwrap_or};
ghost use Rattle.dbtg_command.specs.Sources.{HasPlace, kind_of, order_map};
ghost use Rattle.dbtg_command.specs.Inside.Sources.{StandsIn};
ghost use Rattle.dbtg_command.specs.declared.fault.Fault.TheVariants.{Memory};

use crate::fault::Fault;
use crate::order::{Order, OrderKind};
use crate::place::TextPlace;
use crate::source::Source;
use dbtg_schema::Row;
use std::alloc::Global;

/// A schema, scripts, and moves or turns if there are any. A trace is given as the first of the scripts.
#[derive(Drop)]
pub struct AtHand<'a> {
    pub schema: &'a [u8],
    pub scripts: &'a [Row<u8>],
    pub order: Order<&'a [u8]>,
}

impl<'a> AtHand<'a> {
    fn trace(&self) -> &'a [u8]
        ensures { result.now ≡ unwrap_or (slice_get self.now.scripts.now 0) [] }
    {
        match self.scripts.first() {
            Some(text) => text.as_slice(),
            None => b"",
        }
    }

    fn text(&self, place: TextPlace) -> &'a [u8]
        requires { HasPlace (length self.now.scripts.now) (kind_of self.now.order) place }
        ensures { StandsIn self.now.schema.now self.now.scripts.now (order_map (λ t. t.now) self.now.order) place result.now }
    {
        match (place, self.order) {
            (TextPlace::Schema, _) => self.schema,
            (TextPlace::Script(number), _) => self.scripts[number - 1].as_slice(),
            (TextPlace::Trace, _) => self.trace(),
            (TextPlace::Moves, Order::Moves(text)) => text,
            (TextPlace::Turns, Order::Turns(text)) => text,
            _ => unreachable!(),
        }
    }
}

impl<'a> Source for AtHand<'a> {
    ghost count = { λ s. length s.scripts.now };

    ghost order = { λ s. kind_of s.order };

    ghost holds = { λ s place text. StandsIn s.schema.now s.scripts.now (order_map (λ t. t.now) s.order) place text };

    ghost fails = { λ s place fault. fault ≡ Memory };

    fn count(&self) -> usize {
        self.scripts.len()
    }

    fn order(&self) -> OrderKind {
        self.order.kind()
    }

    fn read(&self, alloc: Global, place: TextPlace) -> Result<Vec<u8>, Fault> {
        Ok(Vec::from_slice(alloc, self.text(place))?)
    }
}
