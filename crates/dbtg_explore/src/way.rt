//! The way from where a walk stands to the order at a place: which of its turns stay, and which are taken behind them.

ghost use Rattle.dbtg_explore.specs.Inside.Links.{GoOn, IsWay};
ghost use Rattle.dbtg_explore.specs.Inside.Walks.{EndsWith, links_of};
ghost use Rattle.std.specs.Prelude.{◌≡◌, ◌≤◌, ◌<◌, [], true, length, IfOk};

use crate::known::Known;
use crate::orders::Link;
use crate::walk::Taken;
use std::alloc::{AllocError, Global};

/// How many of a walk's first turns stay, and the turns that follow them.
#[derive(Drop)]
pub struct Way {
    pub stay: usize,
    pub turns: Vec<Link>,
}

// How many of the first turns are left without those behind them that were taken at later places. Places rise along a walk.
fn without_later(turns: &[Taken], count: usize, place: u32) -> usize
    requires { count ≤ length turns.now }
    ensures { result ≤ count }
{
    let mut left = count;
    while left > 0 && turns[left - 1].place > place {
        left -= 1;
    }
    left
}

// Is the last of the first turns, as many as this, this turn at its place?
fn ends_with(turns: &[Taken], count: usize, last: Link) -> bool
    requires { count ≤ length turns.now }
    ensures { result ≡ true → EndsWith turns.now count last }
{
    count > 0 && turns[count - 1].place == last.before && turns[count - 1].unit == last.unit
}

/// The way to the order at a place. It climbs from there, from each place to the one before it, to the first to which the walk's turns led.
pub(crate) fn way_to(
    alloc: Global,
    found: &Known,
    turns: &[Taken],
    place: usize,
) -> Result<Way, AllocError>
    requires within { place < length found.now.orders }
    requires on { GoOn found.now.orders [] (links_of turns.now) }
    ensures { IfOk result (λ way. IsWay found.now.orders (links_of turns.now) place way) }
{
    let mut stay = turns.len();
    let mut rest = Vec::new(alloc);
    let mut at = place;
    while let Some(last) = found.last(at) {
        stay = without_later(turns, stay, last.before);
        if ends_with(turns, stay, last) {
            rest.reverse();
            return Ok(Way { stay, turns: rest });
        }
        rest.push(last)?;
        at = last.before as usize;
    }
    rest.reverse();
    Ok(Way {
        stay: 0,
        turns: rest,
    })
}
