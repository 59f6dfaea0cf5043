//! Copies of the parts of cells. If memory is refused, the original stays as it is.
ghost use Rattle.std.specs.Prelude.{◌≡◌, ◌≤◌, IfOk, length, vec_capacity};

use crate::extent::Number;
use crate::key::DbKey;
use crate::links::Node;
use dbtg_schema::Row;
use indexmap::IndexMap;
use slab::Slab;
use std::alloc::{AllocError, Global};

/// The same list, in a `Vec` with at least this room.
pub(crate) fn copy_list(alloc: Global, list: &[u32], room: usize) -> Result<Vec<u32>, AllocError>
    ensures items { IfOk result (λ copy. copy.items ≡ list.now) }
    ensures room { IfOk result (λ copy. room ≤ vec_capacity copy) }
{
    let mut copy = Vec::with_capacity(alloc, room)?;
    copy.extend_from_slice(list)?;
    Ok(copy)
}

/// The same entries, in a `Vec` with at least this room.
pub(crate) fn copy_numbers(
    alloc: Global,
    numbers: &[Number],
    room: usize,
) -> Result<Vec<Number>, AllocError>
    requires { length numbers.now ≤ room }
    ensures items { IfOk result (λ copies. copies.items ≡ numbers.now) }
    ensures room { IfOk result (λ copies. room ≤ vec_capacity copies) }
{
    let mut copies = Vec::with_capacity(alloc, room)?;
    for number in numbers {
        copies.push_reserved(number.copy(alloc)?);
    }
    Ok(copies)
}

pub(crate) fn copy_bytes(bytes: &Row<u8>) -> Result<Row<u8>, AllocError>
    ensures { IfOk result (λ copy. copy ≡ bytes.now) }
{
    bytes.clone()
}

/// The same nodes at the same places.
pub(crate) fn copy_nodes(nodes: &Slab<Node>) -> Result<Slab<Node>, AllocError>
    ensures { IfOk result (λ copy. copy.slots ≡ nodes.now.slots) }
{
    nodes.clone()
}

pub(crate) fn copy_index(
    index: &IndexMap<DbKey, usize>,
) -> Result<IndexMap<DbKey, usize>, AllocError>
    ensures { IfOk result (λ copy. copy.entries ≡ index.now.entries) }
{
    index.clone()
}
