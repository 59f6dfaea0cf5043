//! Reading moves: words that say which unit steps or quits.

ghost use Rattle.dbtg_script.specs.Moves.{RefusedAtOnce, Refuses, begins_with, cause_number, is_gap, moves_of, plain_number, refusal, refused_word, repeated, spelled_move, spelled_turn, words};
ghost use Rattle.dbtg_script.specs.declared.moves.MovesFault.TheVariants.{Memory};
ghost use Rattle.std.specs.Prelude.{◌≡◌, ◌+◌, ◌++◌, ◌<◌, ◌≤◌, ◌∷◌, ℕ, List, [], IfErr, IfOk, IfSome, MatchOption, MatchResult, None, OnOk, OnSome, Option, Some, false, length, replicate, slice_index, true};

use crate::limits::MOST_MOVES;
use crate::spelling::{behind, has_byte, in_front, is_number, number};
use dbtg_unit::Move;
use std::alloc::{AllocError, Global};
use std::fmt::{Debug, Display, Formatter, Result as FmtResult, Write};
use thiserror::Error;

/// What is wrong with moves, by the number with which it is printed.
#[derive(Clone, Copy)]
pub enum MovesCause {
    /// 1: a word of another shape, or with a number out of range; in a text of turns a quit too
    NotAMove,
    /// 2: the word with which the total passes 1,000,000
    TooManyMoves,
}

impl MovesCause {
    /// The number by which this cause is printed, 1 or 2.
    pub fn number(self) -> u8
        ensures { result ≡ cause_number self }
    {
        match self {
            MovesCause::NotAMove => 1,
            MovesCause::TooManyMoves => 2,
        }
    }
}

/// Why no moves were read.
#[derive(Drop, Error)]
pub enum MovesFault {
    /// The first fault of the text, which is at this word, from 1.
    #[error("fault {} word {word}", .cause.number())]
    Refused { word: u64, cause: MovesCause },
    /// Memory was refused before a fault was met.
    #[error("want of memory")]
    Memory,
}

impl Debug for MovesFault {
    fn fmt<W: Write>(&self, f: &mut Formatter<W>) -> FmtResult {
        Display::fmt(self, f)
    }
}

impl From<AllocError> for MovesFault {
    ghost from_gives = { λ _ e. e ≡ Memory };

    fn from(_e: AllocError) -> MovesFault {
        MovesFault::Memory
    }
}

/// The rest of a text of moves or turns.
#[derive(Clone, Copy)]
pub struct Words<'a> {
    pub rest: &'a [u8],
}

fn is_gap(b: u8) -> bool
    ensures { result ≡ is_gap b }
{
    matches!(b, b' ' | b'\t' | b'\n' | b'\r')
}

fn run_len(bytes: &[u8]) -> usize
    ensures in_range { result ≤ length bytes.now }
    ensures inside { (k : ℕ) → k < result → is_gap (slice_index bytes.now k) ≡ false }
    ensures stops { result < length bytes.now → is_gap (slice_index bytes.now result) ≡ true }
{
    let mut n = 0;
    while n < bytes.len() && !is_gap(bytes[n]) {
        n += 1;
    }
    n
}

impl<'a> Words<'a> {
    /// The next word.
    pub fn next(&mut self) -> Option<&'a [u8]>
        ensures found { MatchOption result (words self.old.rest.now ≡ [])
            (λ w. words self.old.rest.now ≡ w.now ∷ words self.new.rest.now) }
        ensures shorter { OnSome result (length self.new.rest.now < length self.old.rest.now) }
    {
        while let Some((first, after)) = self.rest.split_first() {
            let rest = self.rest;
            if is_gap(*first) {
                self.rest = after;
            } else {
                let (text, tail) = rest.split_at(run_len(rest));
                self.rest = tail;
                return Some(text);
            }
        }
        None
    }
}

fn begins_with(text: &[u8], c: u8) -> bool
    ensures { result ≡ begins_with c text.now }
{
    match text.first() {
        Some(b) => *b == c,
        None => false,
    }
}

/// Digits without a leading zero, up to the greatest number allowed.
fn plain_number(text: &[u8], most: u64) -> Option<u64>
    requires { most ≤ MOST_MOVES }
    ensures value { result ≡ plain_number most text.now }
    ensures bound { IfSome result (λ n. n ≤ most) }
{
    if !is_number(text) {
        return None;
    }
    if begins_with(text, b'0') {
        return None;
    }
    let n = number(text);
    if n <= most { Some(n) } else { None }
}

/// The unit that a word names, and how often it has a turn.
pub fn spelled_turn(text: &[u8]) -> Option<(u8, u64)>
    ensures value { result ≡ spelled_turn text.now }
    ensures bound { IfSome result (λ r. r.1 ≤ MOST_MOVES) }
{
    if !has_byte(text, b'*') {
        return Some((plain_number(text, 99)? as u8, 1));
    }
    let count = plain_number(behind(text, b'*'), MOST_MOVES as u64)?;
    let unit = plain_number(in_front(text, b'*'), 99)?;
    Some((unit as u8, count))
}

/// What a short word says, `u` or `u*k` of one digit each, as most words of moves are; none for all other words.
fn short_steps(text: &[u8]) -> Option<(Move, u64)>
    ensures value { IfSome result (λ m. spelled_move text.now ≡ Some m) }
    ensures bound { IfSome result (λ m. m.1 ≤ MOST_MOVES) }
{
    match text {
        [unit @ b'1'..=b'9'] => Some((Move::Step(*unit - b'0'), 1)),
        [unit @ b'1'..=b'9', b'*', count @ b'1'..=b'9'] => {
            Some((Move::Step(*unit - b'0'), (*count - b'0') as u64))
        }
        _ => None,
    }
}

/// The move that a word says, and how often it is made.
fn spelled_move(text: &[u8]) -> Option<(Move, u64)>
    ensures value { result ≡ spelled_move text.now }
    ensures bound { IfSome result (λ m. m.1 ≤ MOST_MOVES) }
{
    if let Some(steps) = short_steps(text) {
        return Some(steps);
    }
    if begins_with(text, b'Q') {
        let unit = plain_number(behind(text, b'Q'), 99)?;
        return Some((Move::Quit(unit as u8), 1));
    }
    let (unit, count) = spelled_turn(text)?;
    Some((Move::Step(unit), count))
}

/// Appends an entry `count` times.
pub fn push_times<T: Copy>(entries: &mut Vec<T>, one: T, count: u64) -> Result<(), AllocError>
    ensures { OnOk result (entries.new.items ≡ entries.old.items ++ replicate count one) }
{
    for _ in 0..count {
        entries.push(one)?;
    }
    Ok(())
}

/// Takes what a word says: its entries are appended.
pub fn take_word<T: Copy>(
    entries: &mut Vec<T>,
    number: u64,
    said: Option<(T, u64)>,
) -> Result<(), MovesFault>
    requires { IfSome said (λ m. m.1 ≤ MOST_MOVES) }
    ensures at_once { said ≡ None → MatchResult result (λ _. ⊥) (λ e. e ≡ MovesFault.Refused number MovesCause.NotAMove) }
    ensures taken { OnOk result (entries.new.items ≡ entries.old.items ++ repeated said) }
    ensures reached { (left : List (Option (T × ℕ))) → OnOk result (refused_word (length entries.old.items) number (said ∷ left) ≡ refused_word (length entries.new.items) (number + 1) left) }
    ensures refused { (left : List (Option (T × ℕ))) → IfErr result (λ e. Refuses e (refused_word (length entries.old.items) number (said ∷ left))) }
{
    match said {
        None => Err(MovesFault::Refused {
            word: number,
            cause: MovesCause::NotAMove,
        }),
        Some(found) => {
            if (MOST_MOVES as u64) < entries.len() as u64 + found.1 {
                return Err(MovesFault::Refused {
                    word: number,
                    cause: MovesCause::TooManyMoves,
                });
            }
            push_times(entries, found.0, found.1)?;
            Ok(())
        }
    }
}

/// Reads moves, at most 1,000,000 of them. The text may hold any bytes. A text with faults is refused at its first word
/// with a fault; `Memory` is given if memory was refused before a fault was met, so never if the first word has
/// another shape.
pub fn read_moves(alloc: Global, text: &[u8]) -> Result<Vec<Move>, MovesFault>
    ensures accepted { OnOk result (refusal text.now ≡ None) }
    ensures moves { IfOk result (λ v. v.items ≡ moves_of (words text.now)) }
    ensures refused { IfErr result (λ e. Refuses e (refusal text.now)) }
    ensures at_once { RefusedAtOnce spelled_move text.now (MatchResult result (λ _. ⊥) (λ e. e ≡ MovesFault.Refused 1 MovesCause.NotAMove)) }
{
    let mut moves = Vec::new(alloc);
    let mut number: u64 = 1;
    let mut left = Words { rest: text };
    while let Some(word) = left.next() {
        take_word(&mut moves, number, spelled_move(word))?;
        number += 1;
    }
    Ok(moves)
}
