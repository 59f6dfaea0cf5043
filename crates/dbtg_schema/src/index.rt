//! From names to numbers by an index: for schemas that have been read. If names are equal, the first counts.

ghost use Rattle.std.specs.Prelude.{◌≡◌, ◌≤◌, List, ℕ, Some, None, cond, length, map, option_and_then, slice_get, IfOk, OnOk};
ghost use Rattle.std.specs.List.{All};
ghost use Rattle.std.specs.Option.{option_or};
ghost use Rattle.std.specs.Str.{bytes_eq};
ghost use Rattle.dbtg_schema.specs.Inside.NameIndexes.{leads_to, IsIndexOf, AreItemIndexes, IsSchemaIndex};

use crate::find::HasName;
use crate::limits::{MOST_AREAS, MOST_ITEMS, MOST_RECORD_TYPES, MOST_SETS};
use crate::numbers::{AreaNo, ItemNo, RecordNo, SetNo};
use crate::row::Row;
use crate::shape::{Area, RecordType, SetType};
use indexmap::IndexMap;
use std::alloc::{AllocError, Global};

/// Maps each name of a list to its first place.
pub struct NameIndex {
    numbers: IndexMap<Vec<u8>, u8>,
}

impl Drop for NameIndex {
    fn drop(self) {
        let Self { numbers: _ } = self;
    }
}

impl NameIndex {
    /// The index of the names of these.
    pub fn of<T: HasName>(alloc: Global, things: &[T]) -> Result<Self, AllocError>
        requires { length things.now ≤ 256 }
        ensures { IfOk result (λ index. IsIndexOf index (map T.name_of things.now)) }
    {
        let mut index = Self {
            numbers: IndexMap::new(alloc),
        };
        for (i, thing) in things.iter().enumerate() {
            index.enter(alloc, thing.name(), i as u8)?;
        }
        Ok(index)
    }

    /// Maps this name to this number, unless it has one already.
    fn enter(&mut self, alloc: Global, name: &[u8], number: u8) -> Result<(), AllocError>
        ensures { OnOk result ((q : List ℕ) → leads_to self.new q ≡ option_or (leads_to self.old q) (cond (bytes_eq q name.now) (Some number) None)) }
    {
        if self.number(name).is_none() {
            let key = Vec::from_slice(alloc, name)?;
            self.numbers.insert(key, number)?;
        }
        Ok(())
    }

    /// The number with this name.
    pub fn number(&self, name: &[u8]) -> Option<u8>
        ensures { result ≡ leads_to self.now name.now }
    {
        self.numbers.get(name).copied()
    }
}

/// An index of the items of each record type.
fn item_indexes(alloc: Global, types: &[RecordType]) -> Result<Vec<NameIndex>, AllocError>
    requires { All (λ r. length r.items ≤ MOST_ITEMS) types.now }
    ensures { IfOk result (λ v. AreItemIndexes v.items types.now) }
{
    let mut out = Vec::new(alloc);
    for rtype in types {
        out.push(NameIndex::of(alloc, rtype.items.as_slice())?)?;
    }
    Ok(out)
}

/// The indexes of a schema: for its areas, its record types and its sets, and for the items of each record type.
pub struct SchemaIndex {
    areas: NameIndex,
    types: NameIndex,
    sets: NameIndex,
    items: Row<NameIndex>,
}

impl Drop for SchemaIndex {
    fn drop(self) {
        let Self {
            areas: _,
            types: _,
            sets: _,
            items: _,
        } = self;
    }
}

impl SchemaIndex {
    /// The indexes of these lists.
    pub fn of(
        alloc: Global,
        areas: &[Area],
        types: &[RecordType],
        sets: &[SetType],
    ) -> Result<Self, AllocError>
        requires areas_fit { length areas.now ≤ MOST_AREAS }
        requires types_fit { length types.now ≤ MOST_RECORD_TYPES }
        requires sets_fit { length sets.now ≤ MOST_SETS }
        requires items_fit { All (λ r. length r.items ≤ MOST_ITEMS) types.now }
        ensures { IfOk result (λ index. IsSchemaIndex index areas.now types.now sets.now) }
    {
        let items = Row::of(item_indexes(alloc, types)?);
        let areas = NameIndex::of(alloc, areas)?;
        let types = NameIndex::of(alloc, types)?;
        let sets = NameIndex::of(alloc, sets)?;
        Ok(Self {
            areas,
            types,
            sets,
            items,
        })
    }

    /// The number of the area with this name.
    pub fn area(&self, name: &[u8]) -> Option<AreaNo>
        ensures { result ≡ leads_to self.now.areas name.now }
    {
        self.areas.number(name).map(AreaNo::new)
    }

    /// The number of the record type with this name.
    pub fn rtype(&self, name: &[u8]) -> Option<RecordNo>
        ensures { result ≡ leads_to self.now.types name.now }
    {
        self.types.number(name).map(RecordNo::new)
    }

    /// The number of the set with this name.
    pub fn set(&self, name: &[u8]) -> Option<SetNo>
        ensures { result ≡ leads_to self.now.sets name.now }
    {
        self.sets.number(name).map(SetNo::new)
    }

    /// The number of the item with this name in a record type.
    pub fn item(&self, rtype: RecordNo, name: &[u8]) -> Option<ItemNo>
        ensures { result ≡ option_and_then (λ index. leads_to index name.now) (slice_get self.now.items rtype) }
    {
        match self.items.get(rtype.index() as usize) {
            Some(index) => index.number(name).map(ItemNo::new),
            None => None,
        }
    }
}
