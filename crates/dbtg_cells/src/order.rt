//! The order of a ring's nodes, by their numbers. The n-th node is read from a list, and a node's place is found by halving it.
//!
//! Each node has a label, and labels rise from the first node to the last. A node that is inserted gets a label between those
//! beside it; if none is left, all nodes get new labels.
ghost use Rattle.std.specs.Prelude.{◌≡◌, ◌-◌, ◌*◌, ◌<◌, ◌≤◌, ◌^◌, true, false, ◌==◌, Some, None, option_map, if◌then◌else◌, length, slice_get, slice_set, slice_index, [], IsOk, IfOk, OnOk, OnErr, vec_capacity};
ghost use Rattle.std.specs.List.{list_any, insert, remove};
ghost use Rattle.std.specs.Option.{IfSome};
ghost use Rattle.dbtg_cells.specs.Inside.ByCalc.{is_rising};
ghost use Rattle.dbtg_cells.specs.Inside.Ordered.{node_in_front, last_node, label_below, are_below, are_distinct, Fits};

use crate::copy::copy_list;
use std::alloc::{AllocError, Global};
use std::marker::Model;

// The label of a node that is the only one.
const MIDDLE: u64 = 1 << 63;

// How far labels are apart if there is space.
const STEP: u64 = 1 << 32;

// Nodes are listed by 32-bit numbers, so there are at most this many.
const MOST: usize = 0xffff_ffff;

/// The nodes of a ring in their order, and the label of each node by its number.
pub(crate) struct Order {
    nodes: Vec<u32>,
    labels: Vec<u64>,
}

impl Drop for Order {
    fn drop(self) {
        let Self {
            nodes: _,
            labels: _,
        } = self;
    }
}

impl Model for Order {
    ghost use Rattle.std.specs.Prelude.{length, vec_capacity};
    ghost use Rattle.dbtg_cells.specs.Inside.Ordered.{OrderView, IsOrdered};

    ghost Value = { OrderView };

    ghost view = { λ o. record { nodes = o.nodes.items; room = length o.labels.items } };

    ghost invariant = { λ o. IsOrdered o.nodes.items o.labels.items (vec_capacity o.nodes) };
}

fn label_of(labels: &[u64], node: usize) -> u64
    ensures { result ≡ slice_index labels.now node }
{
    match labels.get(node) {
        Some(label) => *label,
        None => 0,
    }
}

fn label_below(labels: &[u64], node: usize, other: usize) -> bool
    ensures { result ≡ label_below labels.now node other }
{
    label_of(labels, node) < label_of(labels, other)
}

// The place of a node in the list.
fn place_among(nodes: &[u32], labels: &[u64], node: usize) -> usize
    requires rising { is_rising (label_below labels.now) nodes.now ≡ true }
    requires listed { list_any (λ n. n == node) nodes.now ≡ true }
    ensures { slice_get nodes.now result ≡ Some node }
{
    nodes.partition_point(|other| label_below(labels, *other as usize, node))
}

fn node_at(nodes: &[u32], place: usize) -> Option<usize>
    ensures { result ≡ slice_get nodes.now place }
{
    Some(*nodes.get(place)? as usize)
}

// The label of the node at a place, if there is one.
fn label_at(nodes: &[u32], labels: &[u64], place: usize) -> Option<u64>
    ensures { result ≡ option_map (slice_index labels.now) (slice_get nodes.now place) }
{
    Some(label_of(labels, node_at(nodes, place)?))
}

// The label of the node before a place, if there is one.
fn label_in_front(nodes: &[u32], labels: &[u64], place: usize) -> Option<u64>
    ensures { result ≡ (if place == 0 then None else option_map (slice_index labels.now) (slice_get nodes.now (place - 1))) }
{
    if place == 0 {
        None
    } else {
        label_at(nodes, labels, place - 1)
    }
}

// A label halfway between two others.
fn label_inside(below: u64, above: u64) -> Option<u64>
    ensures { IfSome result (λ label. (below < label) × (label < above)) }
{
    if below < above && above - below >= 2 {
        Some(below + (above - below) / 2)
    } else {
        None
    }
}

// A label above the one and below the other, if they are given.
fn label_between(below: Option<u64>, above: Option<u64>) -> Option<u64>
    ensures low { IfSome result (λ label. IfSome below (λ b. b < label)) }
    ensures high { IfSome result (λ label. IfSome above (λ a. label < a)) }
{
    match (below, above) {
        (None, None) => Some(MIDDLE),
        (Some(b), None) => b.checked_add(STEP),
        (None, Some(a)) => a.checked_sub(STEP),
        (Some(b), Some(a)) => label_inside(b, a),
    }
}

// A label for a node that is inserted at a place, if one is left.
fn free_label(nodes: &[u32], labels: &[u64], place: usize) -> Option<u64>
    requires rising { is_rising (label_below labels.now) nodes.now ≡ true }
    requires place { place ≤ length nodes.now }
    ensures { IfSome result (Fits nodes.now labels.now place) }
{
    label_between(
        label_in_front(nodes, labels, place),
        label_at(nodes, labels, place),
    )
}

// Inserts a node into the list.
fn insert_node(nodes: &mut Vec<u32>, place: usize, node: usize)
    requires room { length nodes.old.items < vec_capacity nodes.old }
    requires place { place ≤ length nodes.old.items }
    requires number { node < 2 ^ 32 }
    ensures items { nodes.new.items ≡ insert nodes.old.items place node }
    ensures capacity { vec_capacity nodes.new ≡ vec_capacity nodes.old }
{
    let _ = nodes.insert(place, node as u32);
}

fn set_label(labels: &mut Vec<u64>, node: usize, label: u64)
    requires { node < length labels.old.items }
    ensures { labels.new.items ≡ slice_set labels.old.items node label }
{
    labels[node] = label;
}

// The distance between the new labels of this many nodes.
fn step_for(count: u64) -> u64
    requires { 0 < count }
    ensures some { 0 < result }
    ensures fits { result * count < 2 ^ 64 }
{
    let most = u64::MAX / count;
    if most < STEP { most } else { STEP }
}

// Gives each node a new label, evenly spaced around the middle.
fn relabel(nodes: &[u32], labels: &mut Vec<u64>)
    requires some { 0 < length nodes.now }
    requires distinct { are_distinct nodes.now ≡ true }
    requires below { are_below (length labels.old.items) nodes.now ≡ true }
    ensures rising { is_rising (label_below labels.new.items) nodes.now ≡ true }
    ensures len { length labels.new.items ≡ length labels.old.items }
{
    let step = step_for(nodes.len() as u64);
    let mut label = (u64::MAX - step * nodes.len() as u64) / 2;
    for node in nodes {
        set_label(labels, *node as usize, label);
        label += step;
    }
}

impl Order {
    /// No node, and no memory.
    pub(crate) fn new(alloc: Global) -> Self
        ensures nodes { result.nodes ≡ [] }
        ensures room { result.room ≡ 0 }
    {
        Self {
            nodes: Vec::new(alloc),
            labels: Vec::new(alloc),
        }
    }

    /// The same order, with as much room.
    pub(crate) fn copy(&self, alloc: Global) -> Result<Self, AllocError>
        ensures { IfOk result (λ order. order ≡ self.now) }
    {
        let nodes = copy_list(alloc, self.nodes.as_slice(), self.labels.len())?;
        let labels = Vec::from_slice(alloc, self.labels.as_slice())?;
        Ok(Self { nodes, labels })
    }

    /// The numbers of the nodes, in their order.
    pub(crate) fn as_slice(&self) -> &[u32]
        ensures { result.now ≡ self.now.nodes }
    {
        self.nodes.as_slice()
    }

    /// How many nodes are listed.
    pub(crate) fn len(&self) -> usize
        ensures { result ≡ length self.now.nodes }
    {
        self.nodes.len()
    }

    /// The node at a place, from 0.
    pub(crate) fn get(&self, place: usize) -> Option<usize>
        ensures { result ≡ slice_get self.now.nodes place }
    {
        node_at(self.nodes.as_slice(), place)
    }

    /// The node before a place.
    pub(crate) fn in_front(&self, place: usize) -> Option<usize>
        ensures { result ≡ node_in_front self.now.nodes place }
    {
        if place == 0 {
            None
        } else {
            node_at(self.nodes.as_slice(), place - 1)
        }
    }

    /// The last node.
    pub(crate) fn last(&self) -> Option<usize>
        ensures { result ≡ last_node self.now.nodes }
    {
        self.in_front(self.len())
    }

    /// The place of a node.
    pub(crate) fn place_of(&self, node: usize) -> usize
        requires { list_any (λ n. n == node) self.now.nodes ≡ true }
        ensures { slice_get self.now.nodes result ≡ Some node }
    {
        place_among(self.nodes.as_slice(), self.labels.as_slice(), node)
    }

    /// Makes room, so that this node can be inserted without memory.
    pub(crate) fn reserve(&mut self, node: usize) -> Result<(), AllocError>
        ensures ok { OnOk result (node < self.new.room) }
        ensures nodes { self.new.nodes ≡ self.old.nodes }
        ensures room { self.old.room ≤ self.new.room }
        ensures err { OnErr result (self.new ≡ self.old) }
        ensures had_room { node < self.old.room → IsOk result × (self.new ≡ self.old) }
    {
        if node < self.labels.len() {
            return Ok(());
        }
        if node >= MOST {
            return Err(AllocError);
        }
        self.reserve_labels(node + 1)
    }

    // Makes room for this many labels and listed nodes.
    fn reserve_labels(&mut self, room: usize) -> Result<(), AllocError>
        requires more { self.old.room ≤ room }
        requires numbers { room < 2 ^ 32 }
        ensures nodes { self.new.nodes ≡ self.old.nodes }
        ensures ok { OnOk result (self.new.room ≡ room) }
        ensures err { OnErr result (self.new ≡ self.old) }
    {
        self.nodes.reserve(room - self.nodes.len())?;
        self.labels.resize(room, 0)
    }

    /// Inserts a node that is not listed at a place.
    pub(crate) fn insert(&mut self, place: usize, node: usize)
        requires place { place ≤ length self.old.nodes }
        requires room { node < self.old.room }
        requires new { list_any (λ n. n == node) self.old.nodes ≡ false }
        ensures nodes { self.new.nodes ≡ insert self.old.nodes place node }
        ensures room { self.new.room ≡ self.old.room }
    {
        match free_label(self.nodes.as_slice(), self.labels.as_slice(), place) {
            Some(label) => {
                insert_node(&mut self.nodes, place, node);
                set_label(&mut self.labels, node, label);
            }
            None => {
                insert_node(&mut self.nodes, place, node);
                relabel(self.nodes.as_slice(), &mut self.labels);
            }
        }
    }

    /// Removes the node at a place.
    pub(crate) fn remove(&mut self, place: usize)
        requires { place < length self.old.nodes }
        ensures nodes { self.new.nodes ≡ remove self.old.nodes place }
        ensures room { self.new.room ≡ self.old.room }
    {
        let _ = self.nodes.remove(place);
    }

    /// Removes all nodes.
    pub(crate) fn clear(&mut self)
        ensures nodes { self.new.nodes ≡ [] }
        ensures room { self.new.room ≡ self.old.room }
    {
        self.nodes.clear();
    }
}
