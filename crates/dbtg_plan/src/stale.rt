//! Guesses of owners that the record that is held shows to be wrong. Nothing here takes memory.
ghost use Rattle.std.specs.Prelude.{◌≡◌, ℕ, ◌==◌, ◌<◌, Some, length, true};
ghost use Rattle.std.specs.List.{list_any};
ghost use Rattle.dbtg_unit.specs.declared.held.Need.TheVariants.{Stale};
ghost use Rattle.dbtg_unit.specs.Database.State.Base.{Database};
ghost use Rattle.dbtg_unit.specs.Database.Statements.Fits.{fits};
ghost use Rattle.dbtg_unit.specs.Hands.Guesses.{with_owners};
ghost use Rattle.dbtg_unit.specs.Hands.Local.{Agrees};
ghost use Rattle.dbtg_unit.specs.Hands.Needs.{guessed_sets, is_wrong_guess, need, stale_owners};
ghost use Rattle.dbtg_plan.specs.Inside.Stale.{has_wrong_owner_in, need_of_guesses, wrong_owner_in, wrong_owners_in};

use dbtg_cells::{DbKey, Owner, Owners, owner_eq};
use dbtg_schema::{Schema, SetNo};
use dbtg_unit::{Held, Need, Statement, Unit, is_rekeyed_in, owner_in, set_count, with_owners};

// Must the owner of the current of run-unit in this set be the guess?
fn is_guessed(schema: &Schema, unit: &Unit, statement: &Statement, set: SetNo) -> bool
    requires { set < length schema.now.sets }
    ensures { result ≡ list_any (λ s. s == set) (guessed_sets schema.now unit.now statement.now) }
{
    // Unused here; the contract mentions it.
    let _ = unit;
    match statement {
        Statement::Remove(named) => named.index() == set.index(),
        Statement::Modify { rtype, changes } => {
            is_rekeyed_in(schema, set, *rtype, changes.get().as_slice())
        }
        _ => false,
    }
}

fn is_wrong_guess(truth: &Option<Owner>, guess: &Option<Owner>) -> bool
    ensures { result ≡ is_wrong_guess truth.now guess.now }
{
    match truth {
        Some(owner) => match guess {
            Some(guess) => !owner_eq(*owner, *guess),
            None => true,
        },
        None => false,
    }
}

fn wrong_owner_in(
    schema: &Schema,
    unit: &Unit,
    statement: &Statement,
    held: &Held,
    key: &DbKey,
    set: SetNo,
) -> Option<Owner>
    requires { set < length schema.now.sets }
    ensures { result ≡ wrong_owner_in held.now (guessed_sets schema.now unit.now statement.now) key.now set }
{
    if !is_guessed(schema, unit, statement, set) {
        return None;
    }
    let truth = owner_in(held, set, key);
    if is_wrong_guess(&truth, &held.guess(set)) {
        truth
    } else {
        None
    }
}

fn wrong_owners_in(
    schema: &Schema,
    unit: &Unit,
    statement: &Statement,
    held: &Held,
    key: &DbKey,
) -> Owners
    ensures { result ≡ wrong_owners_in schema.now unit.now held.now statement.now key.now }
{
    schema.is_well_formed();
    let mut owners = Owners::none(set_count(schema) as usize);
    for s in 0..set_count(schema) {
        let owner = wrong_owner_in(schema, unit, statement, held, key, SetNo::new(s));
        owners.set(s as usize, owner);
    }
    owners
}

#[tactic(auto, using(dbtg_schema::proofs::Public::numbers_next, dbtg_schema::proofs::Public::numbers_end))]
fn has_wrong_owner_in(
    schema: &Schema,
    unit: &Unit,
    statement: &Statement,
    held: &Held,
    key: &DbKey,
) -> bool
    ensures { result ≡ has_wrong_owner_in schema.now unit.now held.now statement.now key.now }
{
    for s in 0..set_count(schema) {
        if wrong_owner_in(schema, unit, statement, held, key, SetNo::new(s)).is_some() {
            return true;
        }
    }
    false
}

fn need_of_key(
    schema: &Schema,
    unit: &Unit,
    statement: &Statement,
    held: &Held,
    key: &DbKey,
) -> Need
    ensures { result ≡ need_of_guesses schema.now unit.now held.now statement.now (Some key.now) }
{
    if has_wrong_owner_in(schema, unit, statement, held, key) {
        Need::Stale
    } else {
        Need::Ready
    }
}

/// What a statement needs for its guesses, once all areas and cells are held.
pub(crate) fn need_of_guesses(
    schema: &Schema,
    unit: &Unit,
    statement: &Statement,
    held: &Held,
) -> Need
    ensures { result ≡ need_of_guesses schema.now unit.now held.now statement.now unit.now.currency.run_unit }
{
    match &unit.currency.run_unit {
        Some(key) => need_of_key(schema, unit, statement, held, key),
        None => Need::Ready,
    }
}

/// The guesses with which a statement that needs others goes on: the true owner in each set where its guess is wrong, on every database
/// to which these cells may belong.
pub fn true_guesses(schema: &Schema, unit: &Unit, statement: &Statement, held: &Held) -> Owners
    requires fits { fits schema.now statement.now ≡ true }
    requires count { length held.now.guesses ≡ length schema.now.sets }
    ensures { (capacity : ℕ) (db : Database) → Agrees schema.now capacity db held.now unit.now → need schema.now capacity db unit.now held.now statement.now ≡ Stale → result ≡ with_owners held.now.guesses (stale_owners schema.now capacity db unit.now held.now.guesses statement.now) }
{
    match &unit.currency.run_unit {
        Some(key) => {
            let owners = wrong_owners_in(schema, unit, statement, held, key);
            with_owners(held.guesses(), owners)
        }
        // Nothing is guessed, and no guess is wrong.
        None => Owners::of(held.guesses()),
    }
}
