//! What an image has: records by their keys, the lists of sets by their owners, who has an area open.
ghost use Rattle.std.specs.Prelude.{◌≡◌, option_map};
ghost use Rattle.dbtg_cells.specs.Keys.{is_member};
ghost use Rattle.dbtg_refusal.specs.Inside.Imaged.{items_in, list_in, lists_in, live_in, owner_in, users_in, version_in};

use dbtg_cells::{DbKey, Mode, Owner, Value, key_eq, owner_eq};
use dbtg_schema::{AreaNo, Row, SetNo};
use dbtg_unit::Image;

/// Is there a record with this key?
pub(crate) fn live_in(image: &Image, key: &DbKey) -> bool
    ensures { result ≡ live_in image.now key.now }
{
    for entry in image.records.as_slice() {
        if key_eq(*key, entry.0) {
            return true;
        }
    }
    false
}

/// The items of a record; none if there is no such record.
pub(crate) fn items_in<'a>(image: &'a Image, key: &DbKey) -> &'a [Value]
    ensures { result.now ≡ items_in image.now key.now }
{
    for entry in image.records.as_slice() {
        if key_eq(*key, entry.0) {
            return entry.1.get().as_slice();
        }
    }
    &[]
}

/// The version of a record; 0 if there is no such record.
pub(crate) fn version_in(image: &Image, key: &DbKey) -> u64
    ensures { result ≡ version_in image.now key.now }
{
    for entry in image.versions.as_slice() {
        if key_eq(*key, entry.0) {
            return entry.1;
        }
    }
    0
}

/// Is the key in the list?
pub(crate) fn has_key(keys: &[DbKey], key: &DbKey) -> bool
    ensures { result ≡ is_member key.now keys.now }
{
    for other in keys {
        if key_eq(*key, *other) {
            return true;
        }
    }
    false
}

fn lists_in<'a>(image: &'a Image, set: SetNo) -> &'a [(Owner, Row<DbKey>)]
    ensures { result.now ≡ lists_in image.now set }
{
    match image.lists.get(set.index() as usize) {
        Some(lists) => lists.as_slice(),
        None => &[],
    }
}

/// The members of an owner in a set, in order; none if the set has no such occurrence.
pub(crate) fn list_in<'a>(image: &'a Image, set: SetNo, owner: &Owner) -> Option<&'a [DbKey]>
    ensures { option_map (λ l. l.now) result ≡ list_in image.now set owner.now }
{
    for list in lists_in(image, set) {
        if owner_eq(list.0, *owner) {
            return Some(list.1.as_slice());
        }
    }
    None
}

/// The owner to whose list of a set a record belongs.
pub(crate) fn owner_in(image: &Image, set: SetNo, key: &DbKey) -> Option<Owner>
    ensures { result ≡ owner_in image.now set key.now }
{
    for list in lists_in(image, set) {
        if has_key(list.1.as_slice(), key) {
            return Some(list.0);
        }
    }
    None
}

/// Who has an area open, in the order of opening.
pub(crate) fn users_in<'a>(image: &'a Image, area: AreaNo) -> &'a [(u8, Mode)]
    ensures { result.now ≡ users_in image.now area }
{
    match image.usage.get(area.index() as usize) {
        Some(users) => users.as_slice(),
        None => &[],
    }
}
