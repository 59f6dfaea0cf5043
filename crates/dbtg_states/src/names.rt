//! Things spelled as numbers with each record named by its STORE: by how many records were stored before it, where units count one
//! after another. So two runs in which the same units stored the same records are spelled alike, whatever numbers the records have.
ghost use Rattle.std.specs.Prelude.{◌≡◌, ◌++◌, ℕ, List, IfOk, OnOk, flat_map, option_to_list, position};
ghost use Rattle.std.specs.List.{range_with_len};
ghost use Rattle.dbtg_cells.specs.declared.key.DbKey.{DbKey as GivenKey};
ghost use Rattle.dbtg_cells.specs.Keys.{key_eq};
ghost use Rattle.dbtg_unit.specs.Database.Laws.Replay.{entries_of};
ghost use Rattle.dbtg_states.specs.Named.{currency_name, key_name, owner_name, place_name, stored, stored_by};
ghost use Rattle.dbtg_states.specs.Spelling.{list_numbers, mode_numbers, one_number, option_numbers, pair_numbers, value_numbers};

use crate::spelled::Spelled;
use dbtg_cells::{DbKey, Mode, Owner, Shared, Value, key_eq};
use dbtg_schema::Row;
use dbtg_unit::{Currency, Entry, Place, Statement};
use std::alloc::{AllocError, Global};

// The key of the record that an entry's statement stored.
fn stored_by(entry: &Entry) -> Option<DbKey>
    ensures { option_to_list result ≡ stored_by entry.now.statement (option_to_list entry.now.answer.key) }
{
    match entry.statement {
        Statement::Store { .. } => entry.answer.key,
        _ => None,
    }
}

// Appends the keys of the records that a unit stored.
fn push_stored(keys: &mut Vec<DbKey>, history: &[Entry], unit: u8) -> Result<(), AllocError>
    ensures { OnOk result (keys.new.items ≡ keys.old.items ++ flat_map (λ e. stored_by e.statement (option_to_list e.answer.key)) (entries_of unit history.now)) }
{
    for entry in history {
        if entry.unit == unit {
            if let Some(key) = stored_by(entry) {
                keys.push(key)?;
            }
        }
    }
    Ok(())
}

/// The keys of the records that units stored, those of unit 1 first, and those of a unit in the order in which it stored them.
pub fn stored(alloc: Global, history: &[Entry], units: u8) -> Result<Vec<DbKey>, AllocError>
    ensures { IfOk result (λ keys. keys.items ≡ stored (range_with_len 1 units) history.now) }
{
    let mut keys = Vec::new(alloc);
    for before in 0..units {
        push_stored(&mut keys, history, before + 1)?;
    }
    Ok(keys)
}

// How many keys stand before this one, if it is among them.
fn place_among(stored: &[DbKey], key: DbKey) -> Option<usize>
    ensures { result ≡ position (λ j. key_eq j key) stored.now }
{
    stored.iter().position(|other| key_eq(*other, key))
}

/// What is spelled as numbers, with records named by their STOREs.
pub trait Named {
    /// The numbers of a thing.
    ghost named: { List GivenKey → Self → List ℕ };

    /// Appends its numbers.
    fn name(&self, stored: &[DbKey], out: &mut Vec<u64>) -> Result<(), AllocError>
        ensures { OnOk result (out.new.items ≡ out.old.items ++ named stored.now self.now) };
}

impl Named for u8 {
    ghost named = { λ _. one_number };

    fn name(&self, _stored: &[DbKey], out: &mut Vec<u64>) -> Result<(), AllocError> {
        self.spell(out)
    }
}

impl Named for u64 {
    ghost named = { λ _. one_number };

    fn name(&self, _stored: &[DbKey], out: &mut Vec<u64>) -> Result<(), AllocError> {
        self.spell(out)
    }
}

impl Named for Mode {
    ghost named = { λ _. mode_numbers };

    fn name(&self, _stored: &[DbKey], out: &mut Vec<u64>) -> Result<(), AllocError> {
        self.spell(out)
    }
}

impl Named for Value {
    ghost named = { λ _. value_numbers };

    fn name(&self, _stored: &[DbKey], out: &mut Vec<u64>) -> Result<(), AllocError> {
        self.spell(out)
    }
}

impl Named for DbKey {
    ghost named = { key_name };

    fn name(&self, stored: &[DbKey], out: &mut Vec<u64>) -> Result<(), AllocError> {
        match place_among(stored, *self) {
            Some(place) => {
                out.push(0)?;
                out.push(self.rtype.index() as u64)?;
                out.push(place as u64)?;
                Ok(())
            }
            None => {
                out.push(1)?;
                self.spell(out)
            }
        }
    }
}

impl Named for Owner {
    ghost named = { owner_name };

    fn name(&self, stored: &[DbKey], out: &mut Vec<u64>) -> Result<(), AllocError> {
        match self {
            Owner::System => {
                out.push(0)?;
                Ok(())
            }
            Owner::Rec(key) => {
                out.push(1)?;
                key.name(stored, out)
            }
        }
    }
}

impl Named for Place {
    ghost named = { place_name };

    fn name(&self, stored: &[DbKey], out: &mut Vec<u64>) -> Result<(), AllocError> {
        self.owner.name(stored, out)?;
        self.at.name(stored, out)
    }
}

impl<T: Named> Named for Option<T> {
    ghost named = { λ stored. option_numbers (T.named stored) };

    fn name(&self, stored: &[DbKey], out: &mut Vec<u64>) -> Result<(), AllocError> {
        match self {
            None => {
                out.push(0)?;
                Ok(())
            }
            Some(thing) => {
                out.push(1)?;
                thing.name(stored, out)
            }
        }
    }
}

impl<A: Named, B: Named> Named for (A, B) {
    ghost named = { λ stored. pair_numbers (A.named stored) (B.named stored) };

    fn name(&self, stored: &[DbKey], out: &mut Vec<u64>) -> Result<(), AllocError> {
        self.0.name(stored, out)?;
        self.1.name(stored, out)
    }
}

// The numbers of things, one after another.
fn name_each<T: Named>(items: &[T], stored: &[DbKey], out: &mut Vec<u64>) -> Result<(), AllocError>
    ensures { OnOk result (out.new.items ≡ out.old.items ++ flat_map (T.named stored.now) items.now) }
{
    for item in items {
        item.name(stored, out)?;
    }
    Ok(())
}

impl<T: Named> Named for Row<T> {
    ghost named = { λ stored. list_numbers (T.named stored) };

    fn name(&self, stored: &[DbKey], out: &mut Vec<u64>) -> Result<(), AllocError> {
        out.push(self.len() as u64)?;
        name_each(self.as_slice(), stored, out)
    }
}

impl<T: Named> Named for Shared<T> {
    ghost named = { T.named };

    fn name(&self, stored: &[DbKey], out: &mut Vec<u64>) -> Result<(), AllocError> {
        self.get().name(stored, out)
    }
}

impl Named for Currency {
    ghost named = { currency_name };

    fn name(&self, stored: &[DbKey], out: &mut Vec<u64>) -> Result<(), AllocError> {
        self.run_unit.name(stored, out)?;
        self.types.name(stored, out)?;
        self.areas.name(stored, out)?;
        self.sets.name(stored, out)
    }
}
