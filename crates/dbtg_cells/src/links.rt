//! The nodes of an occurrence, each linked to the ones before and after it, and what is read along the links.
//!
//! A node is either linked, and then its member is in the list, or only reserved for its key. The owner is both ends of the list.
ghost use Rattle.std.specs.Prelude.{◌≡◌, Option, Some, None, IfOk, IfSome, cond, option_map, map, filter, slice_get};
ghost use Rattle.std.specs.List.{list_any, find};
ghost use Rattle.slab.specs.Slab.{ContainsKey};
ghost use Rattle.dbtg_schema.specs.Lookups.{first as first_in, some_and};
ghost use Rattle.dbtg_cells.specs.Keys.{has_type, value_eq};
ghost use Rattle.dbtg_cells.specs.Members.{has_sort_key as is_taken_by};
ghost use Rattle.dbtg_cells.specs.Inside.Chain.{follow, neighbour, read};
ghost use Rattle.dbtg_cells.specs.Inside.Links.{put_if, with_next, with_prior, linked_in, linked_out};

use crate::key::{DbKey, Value, has_type, is_other};
use crate::value::{option_value_eq, value_eq};
use dbtg_schema::RecordNo;
use slab::Slab;
use std::alloc::{AllocError, Global};

#[derive(Drop)]
pub(crate) struct Node {
    pub(crate) member: (DbKey, Option<Value>),
    pub(crate) linked: bool,
    pub(crate) next: Option<usize>,
    pub(crate) prior: Option<usize>,
}

fn copy_sort_key(sort: &Option<Value>) -> Result<Option<Value>, AllocError>
    ensures { IfOk result (λ copy. copy ≡ sort.now) }
{
    match sort {
        Some(value) => Ok(Some(value.clone()?)),
        None => Ok(None),
    }
}

impl Clone for Node {
    ghost is_clone = { λ node copy. copy ≡ node };

    fn clone(&self) -> Result<Self, AllocError> {
        let sort = copy_sort_key(&self.member.1)?;
        Ok(Node {
            member: (self.member.0, sort),
            linked: self.linked,
            next: self.next,
            prior: self.prior,
        })
    }
}

/// The two ways along the list.
#[derive(Clone, Copy)]
pub(crate) enum Direction {
    Next,
    Prior,
}

impl Node {
    // The node beside this one.
    fn neighbour(&self, direction: Direction) -> Option<usize>
        ensures { result ≡ neighbour direction self.now }
    {
        match direction {
            Direction::Next => self.next,
            Direction::Prior => self.prior,
        }
    }
}

fn set_next(nodes: &mut Slab<Node>, at: Option<usize>, next: Option<usize>)
    requires { IfSome at (ContainsKey nodes.old) }
    ensures { nodes.new ≡ record nodes.old { slots = put_if at (with_next next) nodes.old.slots } }
{
    if let Some(i) = at {
        nodes[i].next = next;
    }
}

fn set_prior(nodes: &mut Slab<Node>, at: Option<usize>, prior: Option<usize>)
    requires { IfSome at (ContainsKey nodes.old) }
    ensures { nodes.new ≡ record nodes.old { slots = put_if at (with_prior prior) nodes.old.slots } }
{
    if let Some(i) = at {
        nodes[i].prior = prior;
    }
}

// Links a node between two ends, each a node or the owner.
pub(crate) fn link_in(
    nodes: &mut Slab<Node>,
    at: usize,
    member: (DbKey, Option<Value>),
    prior: Option<usize>,
    next: Option<usize>,
)
    requires node { ContainsKey nodes.old at }
    requires prior { IfSome prior (ContainsKey nodes.old) }
    requires next { IfSome next (ContainsKey nodes.old) }
    ensures { nodes.new ≡ record nodes.old { slots = linked_in at member prior next nodes.old.slots } }
{
    nodes[at] = Node {
        member,
        linked: true,
        next,
        prior,
    };
    set_next(nodes, prior, Some(at));
    set_prior(nodes, next, Some(at));
}

// Takes a node out from between two ends.
pub(crate) fn link_out(nodes: &mut Slab<Node>, at: usize, prior: Option<usize>, next: Option<usize>)
    requires node { ContainsKey nodes.old at }
    requires prior { IfSome prior (ContainsKey nodes.old) }
    requires next { IfSome next (ContainsKey nodes.old) }
    ensures { nodes.new ≡ record nodes.old { slots = linked_out at prior next nodes.old.slots } }
{
    set_next(nodes, prior, next);
    set_prior(nodes, next, prior);
    nodes[at].linked = false;
}

// The first of a record type, or of any, from a node on in this direction.
pub(crate) fn first_along(
    nodes: &Slab<Node>,
    start: Option<usize>,
    limit: usize,
    direction: Direction,
    rtype: &Option<RecordNo>,
) -> Option<DbKey>
    ensures { result ≡ first_in (filter (has_type rtype.now) (map (λ e. e.0) (read direction limit nodes.now.slots start))) }
{
    let mut at = start;
    for turn in 0..limit {
        match at {
            None => return None,
            Some(i) => match nodes.get(i) {
                None => return None,
                Some(node) => {
                    if has_type(rtype, node.member.0) {
                        return Some(node.member.0);
                    }
                    at = node.neighbour(direction);
                }
            },
        }
    }
    None
}

// 1 if the key is of the record type, otherwise 0.
fn count_of(rtype: &Option<RecordNo>, key: DbKey) -> u32
    ensures { result ≡ cond (has_type rtype.now key) 1 0 }
{
    if has_type(rtype, key) { 1 } else { 0 }
}

// The n-th of a record type, or of any, from 0, from a node on in this direction.
pub(crate) fn nth_along(
    nodes: &Slab<Node>,
    start: Option<usize>,
    limit: usize,
    direction: Direction,
    rtype: &Option<RecordNo>,
    n: u32,
) -> Option<DbKey>
    ensures { result ≡ slice_get (filter (has_type rtype.now) (map (λ e. e.0) (read direction limit nodes.now.slots start))) n }
{
    let mut at = start;
    let mut left = n;
    for turn in 0..limit {
        match at {
            None => return None,
            Some(i) => match nodes.get(i) {
                None => return None,
                Some(node) => {
                    let counted = count_of(rtype, node.member.0);
                    if left < counted {
                        return Some(node.member.0);
                    }
                    left -= counted;
                    at = node.neighbour(direction);
                }
            },
        }
    }
    None
}

// The first with a sort key, read by `next`.
pub(crate) fn find_along(
    nodes: &Slab<Node>,
    start: Option<usize>,
    limit: usize,
    sort: &Value,
) -> Option<DbKey>
    ensures { result ≡ option_map (λ e. e.0) (find (λ e. some_and (value_eq sort.now) e.1) (follow limit nodes.now.slots start)) }
{
    let mut at = start;
    for turn in 0..limit {
        match at {
            None => return None,
            Some(i) => match nodes.get(i) {
                None => return None,
                Some(node) => {
                    if has_sort_key(&node.member.1, sort) {
                        return Some(node.member.0);
                    }
                    at = node.next;
                }
            },
        }
    }
    None
}

pub(crate) fn has_sort_key(own: &Option<Value>, sort: &Value) -> bool
    ensures { result ≡ some_and (value_eq sort.now) own.now }
{
    matches!(own, Some(own) if value_eq(sort, own))
}

// Whether a node has this sort key, other than the one that is left out.
pub(crate) fn is_taken_along(
    nodes: &Slab<Node>,
    start: Option<usize>,
    limit: usize,
    sort: &Option<Value>,
    left_out: &Option<DbKey>,
) -> bool
    ensures { result ≡ list_any (is_taken_by left_out.now sort.now) (follow limit nodes.now.slots start) }
{
    let mut at = start;
    for turn in 0..limit {
        match at {
            None => return false,
            Some(i) => match nodes.get(i) {
                None => return false,
                Some(node) => {
                    if is_taken_by(&node.member, sort, left_out) {
                        return true;
                    }
                    at = node.next;
                }
            },
        }
    }
    false
}

pub(crate) fn is_taken_by(
    member: &(DbKey, Option<Value>),
    sort: &Option<Value>,
    left_out: &Option<DbKey>,
) -> bool
    ensures { result ≡ is_taken_by left_out.now sort.now member.now }
{
    is_other(left_out, member.0) && option_value_eq(&member.1, sort)
}

// The keys, from a node on in this direction.
pub(crate) fn keys_along(
    nodes: &Slab<Node>,
    start: Option<usize>,
    limit: usize,
    direction: Direction,
    alloc: Global,
) -> Result<Vec<DbKey>, AllocError>
    ensures { IfOk result (λ keys. keys.items ≡ map (λ e. e.0) (read direction limit nodes.now.slots start)) }
{
    let mut keys = Vec::with_capacity(alloc, limit)?;
    let mut at = start;
    for turn in 0..limit {
        match at {
            None => return Ok(keys),
            Some(i) => match nodes.get(i) {
                None => return Ok(keys),
                Some(node) => {
                    keys.push(node.member.0)?;
                    at = node.neighbour(direction);
                }
            },
        }
    }
    Ok(keys)
}
