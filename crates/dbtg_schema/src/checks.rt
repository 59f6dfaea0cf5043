//! The faults at a place of a schema text.

ghost use Rattle.dbtg_schema.specs.Lookups.{first};
ghost use Rattle.dbtg_schema.specs.Texts.Spelling.{among};
ghost use Rattle.dbtg_schema.specs.Texts.Forms.{starts};
ghost use Rattle.dbtg_schema.specs.Texts.Labels.{first_named, is, named, since};
ghost use Rattle.dbtg_schema.specs.Texts.SchemaFaults.{at_end, at_other, at_word, calc_faults, ended, fault, is_allowed, is_key_wrong, is_owner, is_surplus, is_there_twice, items_of, line_of, member_end, record_end, said, unknown_vias, wants_calc, wants_name, wants_picture, when};
ghost use Rattle.std.specs.Prelude.{◌≡◌, ◌||◌, ℕ, [], map, filter, Some, None};
ghost use Rattle.std.specs.List.{list_all};
ghost use Rattle.dbtg_schema.specs.Inside.Automaton.{rest_of, view_starts};
ghost use Rattle.dbtg_schema.specs.Inside.Words.{view};
ghost use Rattle.dbtg_schema.specs.Inside.Views.{view_labelled, views};
ghost use Rattle.dbtg_schema.specs.declared.role.Role.TheVariants as role;

use crate::automaton::{Kind, Start, State};
use crate::entries::{count_named, has_other_key, record_named};
use crate::fault::{Cause, Fault};
use crate::limits::{
    MOST_AREAS, MOST_CALC_ITEMS, MOST_ITEMS, MOST_MEMBERS, MOST_RECORD_TYPES, MOST_SETS,
};
use crate::queries::{Labelled, any, count, first_named, has_role, is_named, open_record, since};
use crate::role::Role;
use crate::scanner::Word;

/// The first CALC item that is unknown or repeated.
fn calc_fault(entry: &[Labelled]) -> Option<Fault>
    ensures { result ≡ first (calc_faults (named role.ItemName (views entry.now)) [] (filter (is role.CalcItem) (views entry.now))) }
{
    for (i, word) in entry.iter().enumerate() {
        if has_role(word, Role::CalcItem) {
            let text = word.word.text;
            let line = word.word.line;
            if !is_named(entry, Role::ItemName, text) {
                return Some(Fault {
                    line,
                    cause: Cause::UnknownItem,
                });
            }
            if is_named(&entry[..i], Role::CalcItem, text) {
                return Some(Fault {
                    line,
                    cause: Cause::CalcItemTwice,
                });
            }
        }
    }
    None
}

/// The first fault at the end of the record type that these words describe.
fn record_end(entry: &[Labelled]) -> Option<Fault>
    ensures { result ≡ first (record_end (views entry.now)) }
{
    let (word, rest) = entry.split_first()?;
    if !any(rest, Role::ItemEntry) {
        return Some(Fault {
            line: word.word.line,
            cause: Cause::NoItems,
        });
    }
    calc_fault(rest)
}

/// Does a word with this role begin one entry too many?
pub fn is_surplus(words: &[Labelled], role: Role) -> bool
    ensures { result ≡ is_surplus (views words.now) role }
{
    match role {
        Role::AreaEntry => MOST_AREAS <= count(words, Role::AreaEntry),
        Role::RecordEntry => MOST_RECORD_TYPES <= count(words, Role::RecordEntry),
        Role::SetEntry => MOST_SETS <= count(words, Role::SetEntry),
        Role::ItemEntry => MOST_ITEMS <= count(since(words, Role::RecordEntry), Role::ItemEntry),
        Role::MemberEntry => MOST_MEMBERS <= count(since(words, Role::SetEntry), Role::MemberEntry),
        Role::CalcItem => MOST_CALC_ITEMS <= count(since(words, Role::RecordEntry), Role::CalcItem),
        _ => false,
    }
}

fn ended(words: &[Labelled], role: Role) -> Option<Fault>
    ensures { result ≡ first (ended (views words.now) role) }
{
    match role {
        Role::RecordEntry | Role::SetEntry => record_end(open_record(words)),
        _ => None,
    }
}

fn is_owner(words: &[Labelled]) -> bool
    ensures { result ≡ is_owner (views words.now) }
{
    let rtype = first_named(since(words, Role::MemberEntry), Role::MemberName);
    is_named(since(words, Role::SetEntry), Role::OwnerName, rtype)
}

fn is_there_twice(words: &[Labelled]) -> bool
    ensures { result ≡ is_there_twice (views words.now) }
{
    let rtype = first_named(since(words, Role::MemberEntry), Role::MemberName);
    2 <= count_named(since(words, Role::SetEntry), Role::MemberName, rtype)
}

fn is_key_wrong(words: &[Labelled]) -> bool
    ensures { result ≡ is_key_wrong (views words.now) }
{
    let is_sorted = any(since(words, Role::SetEntry), Role::Sorted);
    if any(since(words, Role::MemberEntry), Role::KeyItem) {
        !is_sorted
    } else {
        is_sorted
    }
}

/// What is wrong at the period of a MEMBER sentence.
#[tactic(auto, using(crate::proofs::Forms::Firsts::first_steps))]
fn member_end(words: &[Labelled]) -> Option<Fault>
    ensures { result ≡ first (member_end (views words.now)) }
{
    let line = line_of(since(words, Role::MemberEntry));
    if is_owner(words) {
        return Some(Fault {
            line,
            cause: Cause::OwnerIsMember,
        });
    }
    if is_there_twice(words) {
        return Some(Fault {
            line,
            cause: Cause::MemberTwice,
        });
    }
    if is_key_wrong(words) {
        return Some(Fault {
            line,
            cause: Cause::KeyMisplaced,
        });
    }
    if has_other_key(words) {
        return Some(Fault {
            line,
            cause: Cause::KeyPicturesDiffer,
        });
    }
    None
}

fn line_of(words: &[Labelled]) -> u64
    ensures { result ≡ line_of (views words.now) }
{
    match words.first() {
        None => 0,
        Some(word) => word.word.line,
    }
}

/// Does an area, a record type or a set have this name already?
fn is_taken(words: &[Labelled], text: &[u8]) -> bool
    ensures { result ≡ (among text.now (named role.AreaName (views words.now)) || among text.now (named role.RecordName (views words.now)) || among text.now (named role.SetName (views words.now))) }
{
    is_named(words, Role::AreaName, text)
        | is_named(words, Role::RecordName, text)
        | is_named(words, Role::SetName, text)
}

fn item_is_known(words: &[Labelled], text: &[u8]) -> bool
    ensures { result ≡ among text.now (items_of (first_named role.MemberName (since role.MemberEntry (views words.now))) (views words.now)) }
{
    let rtype = first_named(since(words, Role::MemberEntry), Role::MemberName);
    is_named(record_named(words, rtype), Role::ItemName, text)
}

fn when(test: bool, line: u64, cause: Cause) -> Option<Fault>
    ensures { result ≡ first (when test (fault cause line)) }
{
    if test {
        Some(Fault { line, cause })
    } else {
        None
    }
}

fn said(words: &[Labelled], word: &Labelled) -> Option<Fault>
    ensures { result ≡ first (said (views words.now) (view_labelled word.now) word.now.role) }
{
    let text = word.word.text;
    let line = word.word.line;
    match word.role {
        Role::AreaName | Role::RecordName | Role::SetName => when(
            is_taken(words, text),
            line,
            Cause::NameTaken,
        ),
        Role::ItemName => when(
            is_named(since(words, Role::RecordEntry), Role::ItemName, text),
            line,
            Cause::ItemNameTwice,
        ),
        Role::WithinArea => when(
            !is_named(words, Role::AreaName, text),
            line,
            Cause::UnknownArea,
        ),
        Role::OwnerName | Role::MemberName => when(
            !is_named(words, Role::RecordName, text),
            line,
            Cause::UnknownRecordType,
        ),
        Role::KeyItem => when(!item_is_known(words, text), line, Cause::UnknownItem),
        Role::MemberEnd => member_end(words),
        _ => None,
    }
}

/// The first fault at a word that the grammar wants, given the words before it.
#[tactic(auto, using(crate::proofs::Forms::Firsts::first_steps))]
pub fn at_word(words: &[Labelled], word: &Labelled) -> Option<Fault>
    ensures { result ≡ first (at_word (views words.now) (view_labelled word.now)) }
{
    if let Some(fault) = ended(words, word.role) {
        return Some(fault);
    }
    if is_surplus(words, word.role) {
        return Some(Fault {
            line: word.word.line,
            cause: Cause::OverLimit,
        });
    }
    said(words, word)
}

fn is_allowed(b: u8) -> bool
    ensures { result ≡ is_allowed b }
{
    matches!(b, b' '..=b'~' | b'\t' | b'\r' | b'\n')
}

fn all_allowed(text: &[u8]) -> bool
    ensures { result ≡ list_all is_allowed text.now }
{
    text.iter().all(|b| is_allowed(*b))
}

fn wants_name(starts: &[Start]) -> bool
    ensures { result ≡ wants_name (view_starts starts.now) }
{
    for start in starts {
        if let Kind::Name = start.kind {
            return true;
        }
    }
    false
}

fn wants_picture(starts: &[Start]) -> bool
    ensures { result ≡ wants_picture (view_starts starts.now) }
{
    for start in starts {
        if let Kind::Picture = start.kind {
            return true;
        }
    }
    false
}

fn wants_calc(starts: &[Start]) -> bool
    ensures { result ≡ wants_calc (view_starts starts.now) }
{
    for start in starts {
        if start.role as u8 == Role::CalcItem as u8 {
            return true;
        }
    }
    false
}

/// The first fault at a word that the grammar does not want.
pub fn at_other(words: &[Labelled], state: State, word: Word) -> Fault
    ensures { first (at_other (views words.now) (starts (rest_of state)) (view word.entry)) ≡ Some result }
{
    let line = word.line;
    let wanted = state.wants();
    if !all_allowed(word.text) {
        return Fault {
            line,
            cause: Cause::ByteNotAllowed,
        };
    }
    if word.text == b".".as_slice() {
        return Fault {
            line,
            cause: Cause::UnexpectedWord,
        };
    }
    if wants_calc(wanted) {
        if is_surplus(words, Role::CalcItem) {
            return Fault {
                line,
                cause: Cause::OverLimit,
            };
        }
    }
    if wants_name(wanted) {
        return Fault {
            line,
            cause: Cause::NotAName,
        };
    }
    if wants_picture(wanted) {
        return Fault {
            line,
            cause: Cause::NotAPicture,
        };
    }
    Fault {
        line,
        cause: Cause::UnexpectedWord,
    }
}

/// The first set after VIA that does not exist.
fn unknown_via(words: &[Labelled]) -> Option<Fault>
    ensures { result ≡ first (unknown_vias (views words.now) (views words.now)) }
{
    for word in words {
        if has_role(word, Role::ViaSet) {
            if !is_named(words, Role::SetName, word.word.text) {
                return Some(Fault {
                    line: word.word.line,
                    cause: Cause::UnknownSet,
                });
            }
        }
    }
    None
}

/// The first fault at the end of a text.
#[tactic(auto, using(crate::proofs::Forms::Firsts::first_steps))]
pub fn at_end(line: u64, words: &[Labelled], state: State) -> Option<Fault>
    ensures { result ≡ first (at_end line (views words.now) (rest_of state)) }
{
    if !state.may_end() {
        return Some(Fault {
            line,
            cause: Cause::UnexpectedWord,
        });
    }
    if let Some(fault) = record_end(open_record(words)) {
        return Some(fault);
    }
    unknown_via(words)
}
