//! Reading turns: words that say which unit makes its next statement.

ghost use Rattle.dbtg_script.specs.Turns.{RefusesTurns, turns_of, turns_refusal};
ghost use Rattle.dbtg_script.specs.Inside.Turns.{as_turns_fault};
ghost use Rattle.dbtg_script.specs.Moves.{RefusedAtOnce, spelled_turn, words};
ghost use Rattle.std.specs.Prelude.{◌≡◌, IfErr, IfOk, MatchResult, None, OnOk};

use crate::moves::{MovesCause, MovesFault, Words, spelled_turn, take_word};
use dbtg_schema::Row;
use std::alloc::Global;
use std::fmt::{Debug, Display, Formatter, Result as FmtResult, Write};
use thiserror::Error;

/// Why no turns were read.
#[derive(Drop, Error)]
pub enum TurnsFault {
    /// The first fault of the text, which is at this word, from 1.
    #[error("fault {} word {word}", .cause.number())]
    Refused { word: u64, cause: MovesCause },
    /// Memory was refused before a fault was met.
    #[error("want of memory")]
    Memory,
}

impl Debug for TurnsFault {
    fn fmt<W: Write>(&self, f: &mut Formatter<W>) -> FmtResult {
        Display::fmt(self, f)
    }
}

impl From<MovesFault> for TurnsFault {
    ghost from_gives = { λ fault e. e ≡ as_turns_fault fault };

    fn from(fault: MovesFault) -> TurnsFault {
        match fault {
            MovesFault::Refused { word, cause } => TurnsFault::Refused { word, cause },
            MovesFault::Memory => TurnsFault::Memory,
        }
    }
}

/// Reads turns, at most 1,000,000 of them: the unit of each, in their order. The words are those of a moves file, except
/// quits, and are judged in the same way: a word of another shape is reported before a total that is too great. The text may
/// hold any bytes.
pub fn read_turns(alloc: Global, text: &[u8]) -> Result<Row<u8>, TurnsFault>
    ensures accepted { OnOk result (turns_refusal text.now ≡ None) }
    ensures turns { IfOk result (λ units. units ≡ turns_of (words text.now)) }
    ensures refused { IfErr result (λ e. RefusesTurns e (turns_refusal text.now)) }
    ensures at_once { RefusedAtOnce spelled_turn text.now (MatchResult result (λ _. ⊥) (λ e. e ≡ TurnsFault.Refused 1 MovesCause.NotAMove)) }
{
    let mut units = Vec::new(alloc);
    let mut number: u64 = 1;
    let mut left = Words { rest: text };
    while let Some(word) = left.next() {
        take_word(&mut units, number, spelled_turn(word))?;
        number += 1;
    }
    Ok(Row::of(units))
}
