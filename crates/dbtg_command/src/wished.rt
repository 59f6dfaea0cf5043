//! A wish for the status of a statement, as the command's words say it.
ghost use Rattle.std.specs.Prelude.{◌≡◌, ◌≤◌, IfSome};
ghost use Rattle.dbtg_command.specs.Wishing.{status_in, wish_in};

use crate::capacity::count_in_digits;
use crate::limits::MOST_UNITS;
use dbtg_explain::number_in;
use dbtg_script::{SCRIPT_BYTES, behind, in_front};

// The greatest status.
const GREATEST_STATUS: u16 = 9_999;

/// A wish for a statement, named by its unit and its line in the unit's program, both from 1: that it never has this status, or always.
/// A text has no more lines than bytes.
#[derive(Clone, Copy)]
pub struct Wished {
    pub never: bool,
    pub unit: u64,
    pub line: u64,
    pub status: u16,
}

// The status of four digits.
fn status_in(word: &str) -> Option<u16>
    ensures { result ≡ status_in word.now }
{
    let digits = word.as_bytes();
    if digits.len() == 4 {
        number_in(digits, GREATEST_STATUS)
    } else {
        None
    }
}

/// The wish that two words say: unit and line with a period between them, and a status.
pub fn wish_of(never: bool, statement: &str, status: &str) -> Option<Wished>
    ensures wish { result ≡ wish_in never statement.now status.now }
    ensures within { IfSome result (λ wish. wish.unit ≤ MOST_UNITS) }
    ensures few { IfSome result (λ wish. wish.line ≤ SCRIPT_BYTES) }
{
    let word = statement.as_bytes();
    let unit = count_in_digits(in_front(word, b'.'), MOST_UNITS as u64)?;
    let line = count_in_digits(behind(word, b'.'), SCRIPT_BYTES as u64)?;
    let status = status_in(status)?;
    Some(Wished {
        never,
        unit,
        line,
        status,
    })
}
