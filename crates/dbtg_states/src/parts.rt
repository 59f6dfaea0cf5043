//! The parts of a database and of its units, spelled as numbers.
ghost use Rattle.dbtg_states.specs.Spelling.{key_numbers, mode_numbers, option_numbers, owner_numbers, value_numbers};
ghost use Rattle.dbtg_states.specs.Inside.SpelledUnits.{currency_numbers, kept_numbers, place_numbers, unit_numbers};
ghost use Rattle.dbtg_states.specs.Inside.Spelling.{currency_apart, kept_apart, key_apart, mode_apart, option_apart, owner_apart, place_apart, unit_apart, value_apart};

use crate::spelled::{Spelled, spell_list};
use dbtg_cells::{DbKey, MaybeOwner, Mode, Owner, Value};
use dbtg_unit::{Currency, Kept, Place, Unit};
use std::alloc::AllocError;

impl Spelled for DbKey {
    ghost numbers = { key_numbers };

    fn spell(&self, out: &mut Vec<u64>) -> Result<(), AllocError> {
        out.push(self.rtype.index() as u64)?;
        out.push(self.number as u64)?;
        out.push(self.generation as u64)?;
        Ok(())
    }

    ghost apart = { key_apart };
}

impl Spelled for Owner {
    ghost numbers = { owner_numbers };

    fn spell(&self, out: &mut Vec<u64>) -> Result<(), AllocError> {
        match self {
            Owner::System => {
                out.push(0)?;
                Ok(())
            }
            Owner::Rec(key) => {
                out.push(1)?;
                key.spell(out)
            }
        }
    }

    ghost apart = { owner_apart };
}

impl Spelled for MaybeOwner {
    ghost numbers = { option_numbers owner_numbers };

    fn spell(&self, out: &mut Vec<u64>) -> Result<(), AllocError> {
        self.get().spell(out)
    }

    ghost apart = { option_apart owner_numbers owner_apart };
}

impl Spelled for Mode {
    ghost numbers = { mode_numbers };

    fn spell(&self, out: &mut Vec<u64>) -> Result<(), AllocError> {
        let number = match self {
            Mode::Retrieval => 0,
            Mode::Update => 1,
            Mode::ProtectedRetrieval => 2,
            Mode::ProtectedUpdate => 3,
            Mode::ExclusiveRetrieval => 4,
            Mode::ExclusiveUpdate => 5,
        };
        out.push(number)?;
        Ok(())
    }

    ghost apart = { mode_apart };
}

impl Spelled for Place {
    ghost numbers = { place_numbers };

    fn spell(&self, out: &mut Vec<u64>) -> Result<(), AllocError> {
        self.owner.spell(out)?;
        self.at.spell(out)
    }

    ghost apart = { place_apart };
}

impl Spelled for Value {
    ghost numbers = { value_numbers };

    fn spell(&self, out: &mut Vec<u64>) -> Result<(), AllocError> {
        match self {
            Value::Num(number) => {
                out.push(0)?;
                number.spell(out)
            }
            Value::Text(bytes) => {
                out.push(1)?;
                bytes.spell(out)
            }
        }
    }

    ghost apart = { value_apart };
}

impl Spelled for Kept {
    ghost numbers = { kept_numbers };

    fn spell(&self, out: &mut Vec<u64>) -> Result<(), AllocError> {
        spell_list(self.as_slice(), out)
    }

    ghost apart = { kept_apart };
}

impl Spelled for Currency {
    ghost numbers = { currency_numbers };

    fn spell(&self, out: &mut Vec<u64>) -> Result<(), AllocError> {
        self.run_unit.spell(out)?;
        self.types.spell(out)?;
        self.areas.spell(out)?;
        self.sets.spell(out)
    }

    ghost apart = { currency_apart };
}

impl Spelled for Unit {
    ghost numbers = { unit_numbers };

    fn spell(&self, out: &mut Vec<u64>) -> Result<(), AllocError> {
        self.number.spell(out)?;
        self.currency.spell(out)?;
        self.modes.spell(out)?;
        self.kept.spell(out)
    }

    ghost apart = { unit_apart };
}
