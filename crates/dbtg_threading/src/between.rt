//! The turns between those of the first program and those of the last.

ghost use Rattle.dbtg_threading.specs.Inside.Between.{AreBetween};
ghost use Rattle.dbtg_threading.specs.Threading.{is_between};
ghost use Rattle.dbtg_unit.specs.declared.limits.TheConstants.{MOST_STATEMENTS as most};
ghost use Rattle.std.specs.List.{list_all};
ghost use Rattle.std.specs.Prelude.{◌≡◌, ◌≢◌, ◌<◌, ◌≤◌, ℕ, IfNone, IfSome, List, drop, false, length, replicate, slice_index, take, true};

use dbtg_going::Around;
use dbtg_unit::MOST_STATEMENTS;

// How many turns of this unit stand at the beginning.
fn leading(turns: &[u8], unit: u8) -> usize
    ensures within { result ≤ length turns.now }
    ensures few { result ≤ most }
    ensures are { take result turns.now ≡ replicate result unit }
    ensures all { result < length turns.now → result < most → slice_index turns.now result ≢ unit }
{
    let mut count = 0;
    while count < turns.len() && count < MOST_STATEMENTS && turns[count] == unit {
        count += 1;
    }
    count
}

// Is this neither the unit of the program that goes first nor that of the one that goes last?
fn is_between(around: Around, units: u8, unit: u8) -> bool
    ensures { result ≡ is_between around units unit }
{
    let is_first = around.first && unit as usize == around.others(units) as usize + 1;
    !is_first && around.is_heard(units, unit)
}

// How many turns of the units between stand at the beginning.
fn leading_between(around: Around, units: u8, turns: &[u8]) -> usize
    ensures within { result ≤ length turns.now }
    ensures are { list_all (is_between around units) (take result turns.now) ≡ true }
    ensures all { result < length turns.now → is_between around units (slice_index turns.now result) ≡ false }
{
    let mut count = 0;
    while count < turns.len() && is_between(around, units, turns[count]) {
        count += 1;
    }
    count
}

// How many turns of this unit stand at the beginning, if there is such a unit.
fn leading_if(there: bool, turns: &[u8], unit: u8) -> usize
    ensures within { result ≤ length turns.now }
    ensures few { result ≤ most }
    ensures are { take result turns.now ≡ replicate result unit }
    ensures none { there ≡ false → result ≡ 0 }
    ensures all { there ≡ true → result < length turns.now → result < most → slice_index turns.now result ≢ unit }
{
    if there { leading(turns, unit) } else { 0 }
}

// Is the first unit, if there is one, other than the last?
fn are_apart(there: bool, first: u8, last: u8) -> bool
    ensures apart { result ≡ true → there ≡ true → first ≢ last }
    ensures one { result ≡ false → (there ≡ true) × (first ≡ last) }
{
    !there || first != last
}

// The first turns, and those after them.
fn cut(turns: &[u8], count: usize) -> (&[u8], &[u8])
    requires { count ≤ length turns.now }
    ensures front { result.0.now ≡ take count turns.now }
    ensures behind { result.1.now ≡ drop count turns.now }
{
    (&turns[..count], &turns[count..])
}

/// The turns between those of the first unit and those of the last, if the first unit has its turns before all others and the last one
/// after them.
pub fn turns_between(around: Around, units: u8, turns: &[u8]) -> Option<&[u8]>
    requires { units ≤ 8 }
    ensures found { IfSome result (λ between. AreBetween around units turns.now between.now) }
    ensures none { IfNone result ((between : List ℕ) → AreBetween around units turns.now between → ⊥) }
{
    let first = around.others(units) + 1;
    let front = leading_if(around.first, turns, first);
    let (_, behind) = cut(turns, front);
    let count = leading_between(around, units, behind);
    let (between, rest) = cut(behind, count);
    let back = leading_if(around.last, rest, units);
    if back < rest.len() {
        return None;
    }
    if back == 0 {
        return Some(between);
    }
    if !are_apart(around.first, first, units) {
        return None;
    }
    Some(between)
}
