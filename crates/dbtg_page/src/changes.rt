//! What changes from one text to the next: lines that come, lines that go, and in other lines words that come and go.
ghost use Rattle.std.specs.Prelude.{◌≡◌, ◌++◌, ◌+◌, ◌∷◌, ◌<◌, ◌≤◌, ℕ, [], IfOk, MatchOption};
ghost use Rattle.std.specs.Prelude.{OnOk, ⊤, decimal, drop, false, length, map, true, ◌-◌, position, slice_index};
ghost use Rattle.std.specs.List.{list_any};
ghost use Rattle.std.specs.Str.{bytes_eq};
ghost use Rattle.dbtg_page.specs.Json.{field};
ghost use Rattle.dbtg_page.specs.Changes.{ChangesLeadOn, change_fields, edits, gone, line_ops, met, name_by};
ghost use Rattle.dbtg_page.specs.Changes.{name_of, op, parts, spaced, stays, turned, word_edits, word_ops};
ghost use Rattle.dbtg_page.specs.Inside.Telling.{lines_left, names, behind_met, words_left};

use crate::json::push_field;
use itoa::Buffer;
use memchr::memchr;
use std::alloc::{AllocError, Global};

/// Whose parts are told: those of a text are its lines, those of a line its words.
#[derive(Clone, Copy)]
pub enum Kind {
    Line,
    Word,
}

// How far the old parts are told: how many stay since the last edit, and how many come before those that are left.
#[derive(Clone, Copy)]
pub struct Told {
    pub stay: usize,
    pub at: usize,
}

// The parts of two texts.
#[derive(Clone, Copy)]
struct Both<'a> {
    before: &'a [&'a [u8]],
    after: &'a [&'a [u8]],
}

// ---- the lines of a text, and the words of a line

// How many bytes come before the next mark; all if there is none.
fn part_len(mark: u8, text: &[u8]) -> usize
    ensures in_range { result ≤ length text.now }
    ensures inside { (k : ℕ) → k < result → (slice_index text.now k ≡ mark → ⊥) }
    ensures stops { result < length text.now → slice_index text.now result ≡ mark }
{
    match memchr(mark, text) {
        Some(at) => at,
        None => text.len(),
    }
}

// What comes before the next mark, and what comes after it.
fn split_part(mark: u8, text: &[u8]) -> Option<(&[u8], &[u8])>
    ensures parts { MatchOption result (parts mark text.now ≡ text.now ∷ []) (λ r. parts mark text.now ≡ r.0.now ∷ parts mark r.1.now) }
    ensures shorter { MatchOption result ⊤ (λ r. length r.1.now < length text.now) }
{
    let (part, tail) = text.split_at(part_len(mark, text));
    let (_, rest) = tail.split_first()?;
    Some((part, rest))
}

// What stands between the marks of a text.
fn parts_of<'a>(alloc: Global, mark: u8, text: &'a [u8]) -> Result<Vec<&'a [u8]>, AllocError>
    ensures { IfOk result (λ all. map (λ p. p.now) all.items ≡ parts mark text.now) }
{
    let mut all = Vec::new(alloc);
    let mut rest = text;
    while let Some((part, behind)) = split_part(mark, rest) {
        all.push(part)?;
        rest = behind;
    }
    all.push(rest)?;
    Ok(all)
}

// The first two words of a line.
#[tactic(auto, unfolding(crate::specs::Changes::name_of))]
fn name_of(line: &[u8]) -> &[u8]
    ensures { result.now ≡ name_of line.now }
{
    let mut second = false;
    for i in 0..line.len() {
        if line[i] == b' ' && second {
            return &line[..i];
        }
        second = second || line[i] == b' ';
    }
    line
}

fn name_by(kind: Kind, part: &[u8]) -> &[u8]
    ensures { result.now ≡ name_by kind part.now }
{
    match kind {
        Kind::Line => name_of(part),
        Kind::Word => part,
    }
}

// ---- where a part is met

fn place_of(kind: Kind, parts: &[&[u8]], name: &[u8]) -> Option<usize>
    ensures { result ≡ position (λ other. bytes_eq (name_by kind other.now) name.now) parts.now }
{
    parts.iter().position(|other| name_by(kind, *other) == name)
}

fn is_among(kind: Kind, name: &[u8], parts: &[&[u8]]) -> bool
    ensures { result ≡ list_any (λ other. bytes_eq name.now (name_by kind other.now)) parts.now }
{
    parts.iter().any(|other| name == name_by(kind, *other))
}

// A part behind this many others stays if at most one of them goes, or if the first that goes does not come later.
#[tactic(auto, using(crate::proofs::Positions::any_among, crate::proofs::Positions::first_name))]
fn stays(kind: Kind, old: &[&[u8]], place: usize, later: &[&[u8]]) -> bool
    requires { place < length old.now }
    ensures { result ≡ stays (names kind old.now) place (names kind later.now) }
{
    place <= 1 || !is_among(kind, name_by(kind, old[0]), later)
}

// How many of the old parts go before the one of this part's name stands.
#[tactic(auto, using(crate::proofs::Positions::place_among, crate::proofs::Positions::stands))]
fn met(kind: Kind, old: &[&[u8]], part: &[u8], later: &[&[u8]]) -> Option<usize>
    ensures met { result ≡ met (names kind old.now) (name_by kind part.now) (names kind later.now) }
    ensures stands { MatchOption result ⊤ (λ p. p < length old.now) }
{
    let place = place_of(kind, old, name_by(kind, part))?;
    if stays(kind, old, place, later) {
        Some(place)
    } else {
        None
    }
}

// ---- edits

// How many stay before it, a sign, and what the edit is about.
#[tactic(auto, unfolding(crate::specs::Changes::op))]
fn push_op(out: &mut Vec<u8>, stay: usize, sign: u8, about: &[u8]) -> Result<(), AllocError>
    ensures { OnOk result (out.new.items ≡ out.old.items ++ op stay sign about.now) }
{
    let mut buffer = Buffer::new();
    out.extend_from_slice(buffer.format(stay).as_bytes())?;
    out.push(sign)?;
    out.extend_from_slice(about)
}

// An edit of words, with a space after it.
fn push_word_op(out: &mut Vec<u8>, stay: usize, sign: u8, about: &[u8]) -> Result<(), AllocError>
    ensures { OnOk result (out.new.items ≡ out.old.items ++ spaced (op stay sign about.now)) }
{
    push_op(out, stay, sign, about)?;
    out.push(b' ')?;
    Ok(())
}

// So many words go.
fn push_words_gone(out: &mut Vec<u8>, stay: usize, count: usize) -> Result<(), AllocError>
    ensures { OnOk result (out.new.items ≡ out.old.items ++ word_ops stay (gone count)) }
{
    if count == 0 {
        return Ok(());
    }
    let mut buffer = Buffer::new();
    push_word_op(out, stay, b'-', buffer.format(count).as_bytes())
}

// So many lines go.
fn push_lines_gone(
    alloc: Global,
    out: &mut Vec<u8>,
    stay: usize,
    count: usize,
) -> Result<(), AllocError>
    ensures { OnOk result (out.new.items ≡ out.old.items ++ line_ops stay (gone count)) }
{
    if count == 0 {
        return Ok(());
    }
    let mut buffer = Buffer::new();
    push_line_op(alloc, out, stay, b'-', buffer.format(count).as_bytes())
}

// An edit of lines, as a string of its row.
fn push_line_op(
    alloc: Global,
    out: &mut Vec<u8>,
    stay: usize,
    sign: u8,
    about: &[u8],
) -> Result<(), AllocError>
    ensures { OnOk result (out.new.items ≡ out.old.items ++ field (op stay sign about.now)) }
{
    let mut text = Vec::new(alloc);
    push_op(&mut text, stay, sign, about)?;
    push_field(out, text.as_slice())
}

// How far the old parts are told, once this many have gone and the next one stays.
fn behind_met(told: Told, gone: usize) -> Told
    requires small { told.at + gone + 1 ≤ 9223372036854775807 }
    requires stay { told.stay ≤ told.at }
    ensures { result ≡ behind_met told gone }
{
    let at = told.at + gone + 1;
    if gone == 0 {
        Told {
            stay: told.stay + 1,
            at,
        }
    } else {
        Told { stay: 1, at }
    }
}

fn behind<'a, 'b>(parts: &'b [&'a [u8]], count: usize) -> &'b [&'a [u8]]
    requires { count ≤ length parts.now }
    ensures { result.now ≡ drop count parts.now }
{
    &parts[count..]
}

// ---- words

// One word of a line.
fn push_word(out: &mut Vec<u8>, told: Told, both: &Both<'_>, i: usize) -> Result<Told, AllocError>
    requires old { told.at ≤ length both.now.before.now }
    requires stay { told.stay ≤ told.at }
    requires new { i < length both.now.after.now }
    ensures text { IfOk result (λ then. out.new.items ++ words_left then both.now.before.now (drop (i + 1) both.now.after.now)
        ≡ out.old.items ++ words_left told both.now.before.now (drop i both.now.after.now)) }
    ensures within { IfOk result (λ then. (then.at ≤ length both.now.before.now) × (then.stay ≤ then.at)) }
{
    let (old, new) = (both.before, both.after);
    match met(Kind::Word, behind(old, told.at), new[i], behind(new, i + 1)) {
        None => {
            push_word_op(out, told.stay, b'+', new[i])?;
            Ok(Told {
                stay: 0,
                at: told.at,
            })
        }
        Some(count) => {
            push_words_gone(out, told.stay, count)?;
            Ok(behind_met(told, count))
        }
    }
}

fn push_words(out: &mut Vec<u8>, both: &Both<'_>) -> Result<(), AllocError>
    ensures { OnOk result (out.new.items ≡ out.old.items ++ words_left (record { stay = 0; at = 0 }) both.now.before.now both.now.after.now) }
{
    let mut told = Told { stay: 0, at: 0 };
    for i in 0..both.after.len() {
        told = push_word(out, told, both, i)?;
    }
    push_words_gone(out, told.stay, both.before.len() - told.at)
}

// From the words of a line to those of another.
#[tactic(auto, using(crate::proofs::Telling::words_of_parts))]
fn push_word_changes(
    alloc: Global,
    out: &mut Vec<u8>,
    old: &[u8],
    new: &[u8],
) -> Result<(), AllocError>
    ensures { OnOk result (out.new.items ≡ out.old.items ++ word_ops 0 (word_edits old.now new.now)) }
{
    let before = parts_of(alloc, b' ', old)?;
    let after = parts_of(alloc, b' ', new)?;
    push_words(
        out,
        &Both {
            before: before.as_slice(),
            after: after.as_slice(),
        },
    )
}

// ---- lines

// A line turns into another.
fn push_turned(
    alloc: Global,
    out: &mut Vec<u8>,
    stay: usize,
    old: &[u8],
    new: &[u8],
) -> Result<(), AllocError>
    ensures { OnOk result (out.new.items ≡ out.old.items ++ field (op stay 126 (word_ops 0 (word_edits old.now new.now)))) }
{
    let mut text = Vec::new(alloc);
    push_op(&mut text, stay, b'~', b"")?;
    push_word_changes(alloc, &mut text, old, new)?;
    push_field(out, text.as_slice())
}

// One line of a text.
fn push_line(
    alloc: Global,
    out: &mut Vec<u8>,
    told: Told,
    both: &Both<'_>,
    i: usize,
) -> Result<Told, AllocError>
    requires old { told.at ≤ length both.now.before.now }
    requires stay { told.stay ≤ told.at }
    requires new { i < length both.now.after.now }
    ensures text { IfOk result (λ then. out.new.items ++ lines_left then both.now.before.now (drop (i + 1) both.now.after.now)
        ≡ out.old.items ++ lines_left told both.now.before.now (drop i both.now.after.now)) }
    ensures within { IfOk result (λ then. (then.at ≤ length both.now.before.now) × (then.stay ≤ then.at)) }
{
    let (old, new) = (both.before, both.after);
    match met(Kind::Line, behind(old, told.at), new[i], behind(new, i + 1)) {
        None => {
            push_line_op(alloc, out, told.stay, b'+', new[i])?;
            Ok(Told {
                stay: 0,
                at: told.at,
            })
        }
        Some(count) => {
            push_lines_gone(alloc, out, told.stay, count)?;
            push_met(
                alloc,
                out,
                behind_met(told, count),
                old[told.at + count],
                new[i],
            )
        }
    }
}

// The line of the same name: it stays, or turns.
fn push_met(
    alloc: Global,
    out: &mut Vec<u8>,
    then: Told,
    old: &[u8],
    new: &[u8],
) -> Result<Told, AllocError>
    requires { 0 < then.stay }
    ensures stays { IfOk result (λ told. bytes_eq old.now new.now ≡ true → (told ≡ then) × (out.new.items ≡ out.old.items)) }
    ensures turns { IfOk result (λ told. bytes_eq old.now new.now ≡ false → (told ≡ record { stay = 0; at = then.at }) × (out.new.items
        ≡ out.old.items ++ field (op (then.stay - 1) 126 (word_ops 0 (word_edits old.now new.now))))) }
{
    if old == new {
        return Ok(then);
    }
    push_turned(alloc, out, then.stay - 1, old, new)?;
    Ok(Told {
        stay: 0,
        at: then.at,
    })
}

fn push_lines(alloc: Global, out: &mut Vec<u8>, both: &Both<'_>) -> Result<(), AllocError>
    ensures { OnOk result (out.new.items ≡ out.old.items ++ lines_left (record { stay = 0; at = 0 }) both.now.before.now both.now.after.now) }
{
    let mut told = Told { stay: 0, at: 0 };
    for i in 0..both.after.len() {
        told = push_line(alloc, out, told, both, i)?;
    }
    push_lines_gone(alloc, out, told.stay, both.before.len() - told.at)
}

/// The changes from one text to another, as strings of a row.
#[tactic(auto, using(crate::proofs::Telling::lines_of_parts))]
pub fn push_changes(
    alloc: Global,
    out: &mut Vec<u8>,
    old: &[u8],
    new: &[u8],
) -> Result<(), AllocError>
    ensures { OnOk result (out.new.items ≡ out.old.items ++ change_fields old.now new.now) }
{
    let before = parts_of(alloc, b'\n', old)?;
    let after = parts_of(alloc, b'\n', new)?;
    push_lines(
        alloc,
        out,
        &Both {
            before: before.as_slice(),
            after: after.as_slice(),
        },
    )
}

/// The changes from one text to another, made in the first, give the other.
pub fn changes_lead_on()
    ensures { ChangesLeadOn }
{}
