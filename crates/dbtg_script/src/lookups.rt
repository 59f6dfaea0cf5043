//! The names in a statement, and the numbers that they stand for. It takes no memory.

ghost use Rattle.dbtg_script.specs.Lookups.{area_no, item_named, item_no, item_picture, set_no, sort_picture, type_named, type_no};
ghost use Rattle.dbtg_script.specs.StatementFaults.{area_in, set_in};
ghost use Rattle.std.specs.List.{list_all};
ghost use Rattle.std.specs.Prelude.{◌≡◌, not};
ghost use Rattle.std.specs.Str.{bytes_eq};

use crate::queries::named;
use crate::role::Role;
use crate::words::Words;
use dbtg_schema::{AreaNo, Item, ItemNo, Picture, RecordNo, Schema, SetNo};

/// Up to this many names, one is found sooner by looking at each than by an index.
const FEW: usize = 16;

/// Are these the same bytes? Most names differ in their length or in their last byte.
fn is_same(name: &[u8], other: &[u8]) -> bool
    ensures { result ≡ bytes_eq name.now other.now }
{
    let len = name.len();
    if len != other.len() {
        return false;
    }
    if len > 0 && name[len - 1] != other[len - 1] {
        return false;
    }
    name == other
}

/// The record type with this name.
pub fn type_named(schema: &Schema, name: &[u8]) -> Option<RecordNo>
    ensures { result ≡ type_named schema.now name.now }
{
    let types = schema.types();
    if types.len() > FEW {
        return schema.rtype(name);
    }
    for (i, rtype) in types.iter().enumerate() {
        if is_same(name, rtype.name.as_slice()) {
            return Some(RecordNo::new(i as u8));
        }
    }
    None
}

/// The item of a record type with this name.
pub fn item_named(schema: &Schema, rtype: RecordNo, name: &[u8]) -> Option<ItemNo>
    ensures { result ≡ item_named schema.now rtype name.now }
{
    let items = schema.items(rtype);
    if items.len() > FEW {
        return schema.item(rtype, name);
    }
    for (i, item) in items.iter().enumerate() {
        if is_same(name, item.name.as_slice()) {
            return Some(ItemNo::new(i as u8));
        }
    }
    None
}

/// Has none of these items this name?
pub fn is_other_name(items: &[Item], name: &[u8]) -> bool
    ensures { result ≡ list_all (λ i. not (bytes_eq name.now i.name)) items.now }
{
    items
        .iter()
        .all(|item| !is_same(name, item.name.as_slice()))
}

pub fn area_no(schema: &Schema, name: &[u8]) -> AreaNo
    ensures { result ≡ area_no schema.now name.now }
{
    schema.area(name).unwrap_or(AreaNo::new(0))
}

pub fn type_no(schema: &Schema, name: &[u8]) -> RecordNo
    ensures { result ≡ type_no schema.now name.now }
{
    schema.rtype(name).unwrap_or(RecordNo::new(0))
}

pub fn set_no(schema: &Schema, name: &[u8]) -> SetNo
    ensures { result ≡ set_no schema.now name.now }
{
    schema.set(name).unwrap_or(SetNo::new(0))
}

pub fn item_no(schema: &Schema, rtype: RecordNo, name: &[u8]) -> ItemNo
    ensures { result ≡ item_no schema.now rtype name.now }
{
    schema.item(rtype, name).unwrap_or(ItemNo::new(0))
}

/// The picture of the item with this name.
pub fn item_picture(schema: &Schema, rtype: RecordNo, name: &[u8]) -> Option<Picture>
    ensures { result ≡ item_picture schema.now rtype name.now }
{
    match schema.item(rtype, name) {
        Some(item) => schema.picture_of(rtype, item),
        None => None,
    }
}

/// The picture of the keys of a set; none if it is not sorted.
pub fn sort_picture(schema: &Schema, set: SetNo) -> Option<Picture>
    ensures { result ≡ sort_picture schema.now set }
{
    match schema.set_type(set) {
        Some(set) => {
            match set.members.as_slice().first() {
                Some(member) => {
                    match member.key {
                        Some(item) => schema.picture_of(member.rtype, item),
                        None => None,
                    }
                }
                None => None,
            }
        }
        None => None,
    }
}

/// The set that is named before SET.
pub fn set_in(words: &Words) -> SetNo
    ensures { result ≡ set_in words.now.schema words.now.words }
{
    set_no(words.schema(), named(words.list(), Role::Name))
}

/// The area that is named before AREA.
pub fn area_in(words: &Words) -> AreaNo
    ensures { result ≡ area_in words.now.schema words.now.words }
{
    area_no(words.schema(), named(words.list(), Role::Name))
}
