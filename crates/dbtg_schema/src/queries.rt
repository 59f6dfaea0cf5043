//! What the words of a schema text say, found by their roles.

ghost use Rattle.dbtg_schema.specs.Texts.Spelling.{among};
ghost use Rattle.dbtg_schema.specs.Texts.Labels.{count_of, first_named, is, named, since};
ghost use Rattle.dbtg_schema.specs.Texts.SchemaFaults.{open_record};
ghost use Rattle.std.specs.Prelude.{◌≡◌, ℕ, ◌≤◌, length, count_by};
ghost use Rattle.std.specs.List.{list_any};
ghost use Rattle.dbtg_schema.specs.Inside.Views.{view_labelled, views};

use crate::role::Role;
use crate::scanner::Word;

/// A word with its role.
#[derive(Clone, Copy)]
pub struct Labelled<'a> {
    pub role: Role,
    pub word: Word<'a>,
}

pub fn has_role(labelled: &Labelled, role: Role) -> bool
    ensures { result ≡ is role (view_labelled labelled.now) }
{
    labelled.role as u8 == role as u8
}

/// Is there a word with this role?
pub fn any(words: &[Labelled], role: Role) -> bool
    ensures { result ≡ list_any (is role) (views words.now) }
{
    for word in words {
        if has_role(word, role) {
            return true;
        }
    }
    false
}

/// How many words have this role?
pub fn count(words: &[Labelled], role: Role) -> usize
    ensures number { result ≡ count_of role (views words.now) }
    ensures bound { result ≤ length words.now }
{
    let mut n = 0;
    for word in words {
        if has_role(word, role) {
            n += 1;
        }
    }
    n
}

/// Does a word with this role have this text?
pub fn is_named(words: &[Labelled], role: Role, text: &[u8]) -> bool
    ensures { result ≡ among text.now (named role (views words.now)) }
{
    for word in words {
        if has_role(word, role) {
            if text == word.word.text {
                return true;
            }
        }
    }
    false
}

/// The words from the last one with this role on.
pub fn since<'a, 'b>(words: &'a [Labelled<'b>], role: Role) -> &'a [Labelled<'b>]
    ensures { views result.now ≡ since role (views words.now) }
{
    for behind in 0..words.len() {
        let at = words.len() - 1 - behind;
        if has_role(&words[at], role) {
            return &words[at..];
        }
    }
    &words[words.len()..]
}

/// The text of the first word with this role.
pub fn first_named<'a>(words: &[Labelled<'a>], role: Role) -> &'a [u8]
    ensures { result.now ≡ first_named role (views words.now) }
{
    for word in words {
        if has_role(word, role) {
            return word.word.text;
        }
    }
    b""
}

/// The record type that is still being declared.
pub fn open_record<'a, 'b>(words: &'a [Labelled<'b>]) -> &'a [Labelled<'b>]
    ensures { views result.now ≡ open_record (views words.now) }
{
    if any(words, Role::SetEntry) {
        &words[..0]
    } else {
        since(words, Role::RecordEntry)
    }
}
