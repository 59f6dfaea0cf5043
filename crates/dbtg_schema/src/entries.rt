//! Record types, items and members among the words before.

ghost use Rattle.dbtg_schema.specs.Texts.Labels.{entries, named, until};
ghost use Rattle.dbtg_schema.specs.Inside.Labels.{front_entry};
ghost use Rattle.dbtg_schema.specs.Texts.SchemaFaults.{has_other_key, item_picture, key_picture, picture_in, record_named, unequal};
ghost use Rattle.std.specs.Prelude.{◌≡◌, ◌≤◌, ◌<◌, ℕ, length, take, count_by, option_map};
ghost use Rattle.std.specs.List.{list_any};
ghost use Rattle.std.specs.Str.{bytes_eq};
ghost use Rattle.dbtg_schema.specs.declared.role.Role.TheVariants as role;
ghost use Rattle.dbtg_schema.specs.Inside.Views.{views};

use crate::pictures::spelled_picture;
use crate::queries::{Labelled, first_named, has_role, since};
use crate::role::Role;
use crate::shape::Picture;

/// How many words stand before the next one with this role.
fn until(words: &[Labelled], role: Role) -> usize
    ensures bound { result ≤ length words.now }
    ensures before { views (take result words.now) ≡ until role (views words.now) }
{
    for (i, word) in words.iter().enumerate() {
        if has_role(word, role) {
            return i;
        }
    }
    words.len()
}

/// The words before the first one with this role.
pub fn front<'a, 'b>(words: &'a [Labelled<'b>], role: Role) -> &'a [Labelled<'b>]
    ensures { views result.now ≡ until role (views words.now) }
{
    &words[..until(words, role)]
}

/// The first word and all that follow it, up to the next word with this role.
pub fn front_entry<'a, 'b>(words: &'a [Labelled<'b>], role: Role) -> &'a [Labelled<'b>]
    ensures { views result.now ≡ front_entry role (views words.now) }
{
    match words.split_first() {
        None => words,
        Some((_, after)) => &words[..1 + until(after, role)],
    }
}

/// The words of the record type with this name.
pub fn record_named<'a, 'b>(words: &'a [Labelled<'b>], name: &[u8]) -> &'a [Labelled<'b>]
    ensures { views result.now ≡ record_named name.now (entries role.RecordEntry (views words.now)) }
{
    for (i, word) in words.iter().enumerate() {
        if has_role(word, Role::RecordEntry) {
            let entry = front_entry(&words[i..], Role::RecordEntry);
            if first_named(entry, Role::RecordName) == name {
                return entry;
            }
        }
    }
    &words[words.len()..]
}

fn picture_in(words: &[Labelled], name: &[u8]) -> Option<Picture>
    ensures { result ≡ picture_in name.now (entries role.ItemEntry (views words.now)) }
{
    for (i, word) in words.iter().enumerate() {
        if has_role(word, Role::ItemEntry) {
            let entry = front_entry(&words[i..], Role::ItemEntry);
            if first_named(entry, Role::ItemName) == name {
                return spelled_picture(first_named(entry, Role::Picture));
            }
        }
    }
    None
}

/// The picture of the key of a member sentence.
pub fn key_picture(words: &[Labelled], member: &[Labelled]) -> Option<Picture>
    ensures { result ≡ key_picture (views words.now) (views member.now) }
{
    let entry = record_named(words, first_named(member, Role::MemberName));
    picture_in(entry, first_named(member, Role::KeyItem))
}

pub fn unequal(first: Option<Picture>, second: Option<Picture>) -> bool
    ensures { result ≡ unequal (first) (second) }
{
    match (first, second) {
        (Some(Picture::Number(m)), Some(Picture::Number(n))) => m != n,
        (Some(Picture::Text(m)), Some(Picture::Text(n))) => m != n,
        (Some(Picture::Number(_)), Some(Picture::Text(_))) => true,
        (Some(Picture::Text(_)), Some(Picture::Number(_))) => true,
        _ => false,
    }
}

/// Does a member of the set have a key with a different picture?
fn differs_from(words: &[Labelled], set: &[Labelled], picture: Option<Picture>) -> bool
    ensures { result ≡ list_any (λ m. unequal (key_picture (views words.now) m) (picture)) (entries role.MemberEntry (views set.now)) }
{
    for (i, word) in set.iter().enumerate() {
        if has_role(word, Role::MemberEntry) {
            let entry = front_entry(&set[i..], Role::MemberEntry);
            if unequal(key_picture(words, entry), picture) {
                return true;
            }
        }
    }
    false
}

/// Does some key of this set have a different picture from this member's key?
pub fn has_other_key(words: &[Labelled]) -> bool
    ensures { result ≡ has_other_key (views words.now) }
{
    let picture = key_picture(words, since(words, Role::MemberEntry));
    differs_from(words, since(words, Role::SetEntry), picture)
}

pub fn count_named(words: &[Labelled], role: Role, text: &[u8]) -> usize
    ensures number { result ≡ count_by (bytes_eq text.now) (named role (views words.now)) }
    ensures bound { result ≤ length words.now }
{
    let mut n = 0;
    for word in words {
        if has_role(word, role) {
            if text == word.word.text {
                n += 1;
            }
        }
    }
    n
}
