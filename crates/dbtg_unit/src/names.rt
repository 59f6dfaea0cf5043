//! Where a name stands among those of the held cells. The first eight live in place and are searched one by one, or
//! the first are numbered cells and stand at their numbers, as all cells of a database that is made whole do. An index leads
//! from each later name to its place, so that a statement that holds thousands of cells finds each at once. It is asked
//! before the names in place: where there are thousands, few live there.
ghost use Rattle.std.specs.Prelude.{◌≡◌, None, OnErr, OnOk, false, slice_get};
ghost use Rattle.std.specs.List.{position_from};
ghost use Rattle.std.specs.Option.{option_map_or};
ghost use Rattle.indexmap.specs.IndexMap.{get};
ghost use Rattle.dbtg_cells.specs.Names.{name_eq};
ghost use Rattle.dbtg_unit.specs.Inside.HeldNames.{AreNumbered, IsIndexOf, entered, first_count, key_eq, left, name_key, up_to};

use dbtg_cells::{CellName, Layout, name_eq};
use indexmap::IndexMap;
use std::alloc::AllocError;

/// How many names live in place.
pub(crate) const NAMES_IN_PLACE: usize = 8;

/// How the first held names are found. The index leads to all others.
#[derive(Clone, Copy, Drop)]
pub(crate) enum FirstNames {
    /// Up to eight, in place: one by one.
    InPlace,
    /// As many as this: by their cells' numbers.
    Numbered(Layout, usize),
}

impl FirstNames {
    /// How many names the index doesn't lead to.
    pub(crate) fn count(&self) -> usize
        ensures { result ≡ first_count self.now }
    {
        match self {
            FirstNames::InPlace => NAMES_IN_PLACE,
            FirstNames::Numbered(_layout, count) => *count,
        }
    }

    /// No more than this many numbered names are left.
    pub(crate) fn keep(&mut self, most: usize)
        ensures { self.new ≡ up_to most self.old }
    {
        if let FirstNames::Numbered(_layout, count) = self {
            if most < *count {
                *count = most;
            }
        }
    }
}

/// A name as the index reads it: its kind, what it names, and of a ring the record type of the owner.
#[derive(Clone, Copy, PartialEq, Eq, Hash)]
pub(crate) struct NameKey {
    kind: u8,
    of: u8,
    owner: u8,
    number: u32,
}

fn name_key(name: &CellName) -> NameKey
    ensures { result ≡ name_key name.now }
{
    let (kind, of, owner, number) = match *name {
        CellName::Usage(area) => (0, area.index(), 0, 0),
        CellName::Extent(rtype) => (1, rtype.index(), 0, 0),
        CellName::Ring(set, None) => (2, set.index(), 0, 0),
        CellName::Ring(set, Some((rtype, number))) => (3, set.index(), rtype.index(), number),
        CellName::Slot(rtype, number) => (4, rtype.index(), 0, number),
    };
    NameKey {
        kind,
        of,
        owner,
        number,
    }
}

fn find_name(names: &[CellName], name: &CellName) -> Option<usize>
    ensures { result ≡ position_from (name_eq name.now) 0 names.now }
{
    for (i, held) in names.iter().enumerate() {
        if name_eq(*name, *held) {
            return Some(i);
        }
    }
    None
}

fn find_key(index: &IndexMap<NameKey, usize>, key: &NameKey) -> Option<usize>
    ensures { result ≡ get key_eq index.now key.now }
{
    index.get(key).copied()
}

// Where a name first stands, found by the index past the names that live in place.
fn find_indexed(
    names: &[CellName],
    index: &IndexMap<NameKey, usize>,
    name: &CellName,
) -> Option<usize>
    requires { IsIndexOf (get key_eq index.now) NAMES_IN_PLACE names.now }
    ensures { result ≡ position_from (name_eq name.now) 0 names.now }
{
    if names.len() <= NAMES_IN_PLACE {
        return find_name(names, name);
    }
    match find_key(index, &name_key(name)) {
        Some(at) => Some(at),
        None => find_name(&names[..NAMES_IN_PLACE], name),
    }
}

fn stands_at(names: &[CellName], at: usize, name: &CellName) -> bool
    ensures { result ≡ option_map_or (name_eq name.now) (slice_get names.now at) false }
{
    match names.get(at) {
        Some(held) => name_eq(*name, *held),
        None => false,
    }
}

/// Where a name first stands.
pub(crate) fn find_place(
    names: &[CellName],
    first: &FirstNames,
    index: &IndexMap<NameKey, usize>,
    name: &CellName,
) -> Option<usize>
    requires index { IsIndexOf (get key_eq index.now) (first_count first.now) names.now }
    requires numbered { AreNumbered first.now names.now }
    ensures { result ≡ position_from (name_eq name.now) 0 names.now }
{
    match first {
        FirstNames::InPlace => find_indexed(names, index, name),
        FirstNames::Numbered(layout, count) => {
            let at = layout.number(name);
            if at < *count && stands_at(names, at, name) {
                return Some(at);
            }
            find_key(index, &name_key(name))
        }
    }
}

/// Enters the name that comes to this place, past this many first names. The index leads nowhere from it yet.
pub(crate) fn enter(
    index: &mut IndexMap<NameKey, usize>,
    first: usize,
    name: &CellName,
    place: usize,
) -> Result<(), AllocError>
    requires { get key_eq index.old (name_key name.now) ≡ None }
    ensures ok { OnOk result ((q : NameKey) → get key_eq index.new q ≡ entered (get key_eq index.old) first (name_key name.now) place q) }
    ensures err { OnErr result ((q : NameKey) → get key_eq index.new q ≡ get key_eq index.old q) }
{
    if place < first {
        return Ok(());
    }
    index.insert(name_key(name), place)?;
    Ok(())
}

/// Removes the name that goes from this place, past this many first names, if the index led there.
pub(crate) fn leave(
    index: &mut IndexMap<NameKey, usize>,
    first: usize,
    name: &CellName,
    place: usize,
)
    ensures { (q : NameKey) → get key_eq index.new q ≡ left (get key_eq index.old) first (name_key name.now) place q }
{
    if place < first {
        return;
    }
    let key = name_key(name);
    if let Some(at) = find_key(index, &key) {
        if at == place {
            let _ = index.swap_remove(&key);
        }
    }
}
