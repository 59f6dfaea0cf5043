//! Things spelled as numbers, so that two are equal exactly if they are spelled alike. Whatever follows a thing, the
//! numbers tell where it ends.
ghost use Rattle.std.specs.Prelude.{◌≡◌, ◌++◌, ℕ, List, IfOk, OnOk, flat_map};
ghost use Rattle.dbtg_states.specs.Inside.Spelling.{list_apart, one_apart, option_apart, pair_apart};
ghost use Rattle.dbtg_states.specs.Spelling.{Apart, list_numbers, one_number, option_numbers, pair_numbers};

use dbtg_schema::Row;
use std::alloc::{AllocError, Global};

/// What is spelled as numbers.
pub trait Spelled {
    /// The numbers of a thing.
    ghost numbers: { Self → List ℕ };

    /// Appends its numbers.
    fn spell(&self, out: &mut Vec<u64>) -> Result<(), AllocError>
        ensures { OnOk result (out.new.items ≡ out.old.items ++ numbers self.now) };

    /// Two things whose numbers are alike, whatever follows, are equal.
    ghost apart: { Apart numbers };
}

impl Spelled for u8 {
    ghost numbers = { one_number };

    fn spell(&self, out: &mut Vec<u64>) -> Result<(), AllocError> {
        out.push(*self as u64)?;
        Ok(())
    }

    ghost apart = { one_apart };
}

impl Spelled for u32 {
    ghost numbers = { one_number };

    fn spell(&self, out: &mut Vec<u64>) -> Result<(), AllocError> {
        out.push(*self as u64)?;
        Ok(())
    }

    ghost apart = { one_apart };
}

impl Spelled for u64 {
    ghost numbers = { one_number };

    fn spell(&self, out: &mut Vec<u64>) -> Result<(), AllocError> {
        out.push(*self)?;
        Ok(())
    }

    ghost apart = { one_apart };
}

// None is a 0; a 1 comes before anything else.
impl<T: Spelled> Spelled for Option<T> {
    ghost numbers = { option_numbers T.numbers };

    fn spell(&self, out: &mut Vec<u64>) -> Result<(), AllocError> {
        match self {
            None => {
                out.push(0)?;
                Ok(())
            }
            Some(thing) => {
                out.push(1)?;
                thing.spell(out)
            }
        }
    }

    ghost apart = { option_apart T.numbers T.apart };
}

impl<A: Spelled, B: Spelled> Spelled for (A, B) {
    ghost numbers = { pair_numbers A.numbers B.numbers };

    fn spell(&self, out: &mut Vec<u64>) -> Result<(), AllocError> {
        self.0.spell(out)?;
        self.1.spell(out)
    }

    ghost apart = { pair_apart A.numbers B.numbers A.apart B.apart };
}

// The numbers of things, one after another.
pub fn spell_each<T: Spelled>(items: &[T], out: &mut Vec<u64>) -> Result<(), AllocError>
    ensures { OnOk result (out.new.items ≡ out.old.items ++ flat_map T.numbers items.now) }
{
    for item in items {
        item.spell(out)?;
    }
    Ok(())
}

/// How many things there are, and then each.
pub fn spell_list<T: Spelled>(things: &[T], out: &mut Vec<u64>) -> Result<(), AllocError>
    ensures { OnOk result (out.new.items ≡ out.old.items ++ list_numbers T.numbers things.now) }
{
    out.push(things.len() as u64)?;
    spell_each(things, out)
}

impl<T: Spelled> Spelled for Row<T> {
    ghost numbers = { list_numbers T.numbers };

    fn spell(&self, out: &mut Vec<u64>) -> Result<(), AllocError> {
        spell_list(self.as_slice(), out)
    }

    ghost apart = { list_apart T.numbers T.apart };
}

/// Bytes as numbers.
pub fn as_numbers(alloc: Global, bytes: &[u8]) -> Result<Vec<u64>, AllocError>
    ensures { IfOk result (λ numbers. numbers.items ≡ bytes.now) }
{
    let mut numbers = Vec::new(alloc);
    for byte in bytes {
        numbers.push(*byte as u64)?;
    }
    Ok(numbers)
}
