//! The lists of a schema, from the words with their roles.

ghost use Rattle.std.specs.Prelude.{◌≡◌, ◌<◌, ◌≤◌, ℕ, length, map, IfOk, OnOk};
ghost use Rattle.std.specs.List.{All, AllByRecursion};
ghost use Rattle.dbtg_schema.specs.declared.role.Role.TheVariants as role;
ghost use Rattle.dbtg_schema.specs.Texts.Labels.{named, count_of, until, entries, first_named};
ghost use Rattle.dbtg_schema.specs.Texts.SchemaLists.{number_of, areas_from, item_from, items_from, calc_items_from, calc_from, record_type_from, types_from, duplicates_from, order_from, class_from, items_at, key_from, type_named, member_from, owner_from, set_from, sets_from};
ghost use Rattle.dbtg_schema.specs.Inside.Views.{views};

use crate::entries::front_entry;
use crate::find::find_name;
use crate::limits::{MOST_AREAS, MOST_ITEMS, MOST_RECORD_TYPES};
use crate::numbers::{AreaNo, ItemNo, RecordNo};
use crate::pictures::spelled_picture;
use crate::queries::{Labelled, any, first_named, has_role};
use crate::role::Role;
use crate::row::Row;
use crate::shape::{
    Area, Calc, Class, Duplicates, Item, Member, Order, Picture, RecordType, SetType,
};
use std::alloc::{AllocError, Global};

/// The text of the first word with this role, in memory of its own.
pub fn text_of(alloc: Global, words: &[Labelled], role: Role) -> Result<Row<u8>, AllocError>
    ensures { IfOk result (λ r. r ≡ first_named role (views words.now)) }
{
    Ok(Row::of(Vec::from_slice(alloc, first_named(words, role))?))
}

/// The areas of a schema.
pub fn areas(alloc: Global, words: &[Labelled]) -> Result<Vec<Area>, AllocError>
    ensures { IfOk result (λ v. v.items ≡ areas_from (views words.now)) }
{
    let mut out = Vec::new(alloc);
    for (i, word) in words.iter().enumerate() {
        if has_role(word, Role::AreaEntry) {
            let entry = front_entry(&words[i..], Role::AreaEntry);
            let name = text_of(alloc, entry, Role::AreaName)?;
            out.push(Area { name })?;
        }
    }
    Ok(out)
}

/// The item that these words describe.
fn item(alloc: Global, entry: &[Labelled]) -> Result<Item, AllocError>
    ensures { IfOk result (λ i. i ≡ item_from (views entry.now)) }
{
    let name = text_of(alloc, entry, Role::ItemName)?;
    let picture = spelled_picture(first_named(entry, Role::Picture)).unwrap_or(Picture::Number(1));
    Ok(Item { name, picture })
}

/// The items of the record type that these words describe.
fn items(alloc: Global, entry: &[Labelled]) -> Result<Vec<Item>, AllocError>
    ensures { IfOk result (λ v. v.items ≡ items_from (views entry.now)) }
{
    let mut out = Vec::new(alloc);
    for (i, word) in entry.iter().enumerate() {
        if has_role(word, Role::ItemEntry) {
            out.push(item(alloc, front_entry(&entry[i..], Role::ItemEntry))?)?;
        }
    }
    Ok(out)
}

/// The numbers of the CALC items among the items of their record type.
fn calc_items(alloc: Global, items: &[Item], entry: &[Labelled]) -> Result<Vec<ItemNo>, AllocError>
    requires { length items.now ≤ MOST_ITEMS }
    ensures { IfOk result (λ v. v.items ≡ calc_items_from items.now (views entry.now)) }
{
    let mut out = Vec::new(alloc);
    for word in entry {
        if has_role(word, Role::CalcItem) {
            out.push(ItemNo::new(find_name(items, word.word.text).unwrap_or(0)))?;
        }
    }
    Ok(out)
}

fn calc(alloc: Global, items: &[Item], entry: &[Labelled]) -> Result<Option<Calc>, AllocError>
    requires { length items.now ≤ MOST_ITEMS }
    ensures { IfOk result (λ c. c ≡ calc_from items.now (views entry.now)) }
{
    if !any(entry, Role::CalcItem) {
        return Ok(None);
    }
    let items = Row::of(calc_items(alloc, items, entry)?);
    let duplicates_allowed = !any(entry, Role::Unique);
    Ok(Some(Calc {
        items,
        duplicates_allowed,
    }))
}

/// The record type that these words describe.
fn record_type(alloc: Global, areas: &[Area], entry: &[Labelled]) -> Result<RecordType, AllocError>
    requires areas_fit { length areas.now ≤ MOST_AREAS }
    requires items_fit { count_of role.ItemEntry (views entry.now) ≤ MOST_ITEMS }
    ensures { IfOk result (λ r. r ≡ record_type_from areas.now (views entry.now)) }
{
    let name = text_of(alloc, entry, Role::RecordName)?;
    let area = AreaNo::new(find_name(areas, first_named(entry, Role::WithinArea)).unwrap_or(0));
    let items = items(alloc, entry)?;
    let calc = calc(alloc, items.as_slice(), entry)?;
    Ok(RecordType {
        name,
        area,
        items: Row::of(items),
        calc,
    })
}

fn duplicates(entry: &[Labelled]) -> Duplicates
    ensures { result ≡ duplicates_from (views entry.now) }
{
    if any(entry, Role::DuplicatesFirst) {
        Duplicates::First
    } else if any(entry, Role::DuplicatesLast) {
        Duplicates::Last
    } else {
        Duplicates::NotAllowed
    }
}

fn order(entry: &[Labelled]) -> Order
    ensures { result ≡ order_from (views entry.now) }
{
    if any(entry, Role::Sorted) {
        let ascending = any(entry, Role::Ascending);
        let duplicates = duplicates(entry);
        Order::Sorted {
            ascending,
            duplicates,
        }
    } else if any(entry, Role::OrderFirst) {
        Order::First
    } else if any(entry, Role::OrderLast) {
        Order::Last
    } else if any(entry, Role::OrderNext) {
        Order::Next
    } else {
        Order::Prior
    }
}

fn class(entry: &[Labelled]) -> Class
    ensures { result ≡ class_from (views entry.now) }
{
    let is_automatic = any(entry, Role::Automatic);
    match (any(entry, Role::Mandatory), is_automatic) {
        (true, true) => Class::MandatoryAutomatic,
        (true, false) => Class::MandatoryManual,
        (false, true) => Class::OptionalAutomatic,
        (false, false) => Class::OptionalManual,
    }
}

/// The record types of a schema, from the words before its sets.
pub fn types(
    alloc: Global,
    areas: &[Area],
    words: &[Labelled],
) -> Result<Vec<RecordType>, AllocError>
    requires areas_fit { length areas.now ≤ MOST_AREAS }
    requires items_fit { AllByRecursion (λ e. count_of role.ItemEntry e ≤ MOST_ITEMS) (entries role.RecordEntry (views words.now)) }
    ensures { IfOk result (λ v. v.items ≡ map (record_type_from areas.now) (entries role.RecordEntry (views words.now))) }
{
    let mut out = Vec::new(alloc);
    for (i, word) in words.iter().enumerate() {
        if has_role(word, Role::RecordEntry) {
            let entry = front_entry(&words[i..], Role::RecordEntry);
            out.push(record_type(alloc, areas, entry)?)?;
        }
    }
    Ok(out)
}

/// The items of the record type with this number.
fn items_at(types: &[RecordType], rtype: RecordNo) -> &[Item]
    requires { All (λ r. length r.items ≤ MOST_ITEMS) types.now }
    ensures items { result.now ≡ items_at types.now rtype }
    ensures few { length result.now ≤ MOST_ITEMS }
{
    match types.get(rtype.index() as usize) {
        Some(rtype) => rtype.items.as_slice(),
        None => &[],
    }
}

fn key(types: &[RecordType], rtype: RecordNo, entry: &[Labelled]) -> Option<ItemNo>
    requires { All (λ r. length r.items ≤ MOST_ITEMS) types.now }
    ensures { result ≡ key_from types.now rtype (views entry.now) }
{
    if any(entry, Role::KeyItem) {
        let name = first_named(entry, Role::KeyItem);
        Some(ItemNo::new(find_name(items_at(types, rtype), name).unwrap_or(0)))
    } else {
        None
    }
}

/// The member clause that these words describe.
fn member(types: &[RecordType], entry: &[Labelled]) -> Member
    requires types_fit { length types.now ≤ MOST_RECORD_TYPES }
    requires items_fit { All (λ r. length r.items ≤ MOST_ITEMS) types.now }
    ensures { result ≡ member_from types.now (views entry.now) }
{
    let rtype = RecordNo::new(find_name(types, first_named(entry, Role::MemberName)).unwrap_or(0));
    Member {
        rtype,
        class: class(entry),
        key: key(types, rtype, entry),
    }
}

fn members(
    alloc: Global,
    types: &[RecordType],
    entry: &[Labelled],
) -> Result<Vec<Member>, AllocError>
    requires types_fit { length types.now ≤ MOST_RECORD_TYPES }
    requires items_fit { All (λ r. length r.items ≤ MOST_ITEMS) types.now }
    ensures { IfOk result (λ v. v.items ≡ map (member_from types.now) (entries role.MemberEntry (views entry.now))) }
{
    let mut out = Vec::new(alloc);
    for (i, word) in entry.iter().enumerate() {
        if has_role(word, Role::MemberEntry) {
            out.push(member(types, front_entry(&entry[i..], Role::MemberEntry)))?;
        }
    }
    Ok(out)
}

fn owner(types: &[RecordType], entry: &[Labelled]) -> Option<RecordNo>
    requires { length types.now ≤ MOST_RECORD_TYPES }
    ensures { result ≡ owner_from types.now (views entry.now) }
{
    if any(entry, Role::OwnerName) {
        Some(RecordNo::new(find_name(types, first_named(entry, Role::OwnerName)).unwrap_or(0)))
    } else {
        None
    }
}

/// The set that these words describe.
fn set(alloc: Global, types: &[RecordType], entry: &[Labelled]) -> Result<SetType, AllocError>
    requires types_fit { length types.now ≤ MOST_RECORD_TYPES }
    requires items_fit { All (λ r. length r.items ≤ MOST_ITEMS) types.now }
    ensures { IfOk result (λ s. s ≡ set_from types.now (views entry.now)) }
{
    let name = text_of(alloc, entry, Role::SetName)?;
    let order = order(entry);
    let owner = owner(types, entry);
    let members = Row::of(members(alloc, types, entry)?);
    Ok(SetType {
        name,
        order,
        owner,
        members,
    })
}

/// The sets of a schema.
pub fn sets(
    alloc: Global,
    types: &[RecordType],
    words: &[Labelled],
) -> Result<Vec<SetType>, AllocError>
    requires types_fit { length types.now ≤ MOST_RECORD_TYPES }
    requires items_fit { All (λ r. length r.items ≤ MOST_ITEMS) types.now }
    ensures { IfOk result (λ v. v.items ≡ sets_from types.now (views words.now)) }
{
    let mut out = Vec::new(alloc);
    for (i, word) in words.iter().enumerate() {
        if has_role(word, Role::SetEntry) {
            out.push(set(alloc, types, front_entry(&words[i..], Role::SetEntry))?)?;
        }
    }
    Ok(out)
}
