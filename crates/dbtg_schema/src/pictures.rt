//! The spelling of pictures.

ghost use Rattle.dbtg_schema.specs.Texts.Spelling.{in_parentheses, is_digit, of_size, spelled_picture};
ghost use Rattle.std.specs.Prelude.{◌≡◌, ◌==◌, ◌+◌, ◌<◌, ◌≤◌, ◌^◌, ℕ, length, option_map, IfSome};
ghost use Rattle.std.specs.List.{list_all};

use crate::limits::{MOST_DIGITS, MOST_TEXT_BYTES};
use crate::shape::Picture;

fn in_parentheses(word: &[u8]) -> Option<u8>
    ensures { result ≡ in_parentheses word.now }
{
    match word {
        [b'(', d, b')'] if d.is_ascii_digit() => Some(*d - b'0'),
        [b'(', d, e, b')'] if d.is_ascii_digit() && e.is_ascii_digit() => Some(
            10 * (*d - b'0') + (*e - b'0'),
        ),
        _ => None,
    }
}

fn of_size(letter: u8, size: usize) -> Option<Picture>
    ensures { result ≡ of_size letter size }
{
    if letter == b'9' && 1 <= size && size <= MOST_DIGITS {
        Some(Picture::Number(size as u8))
    } else if letter == b'X' && 1 <= size && size <= MOST_TEXT_BYTES {
        Some(Picture::Text(size as u8))
    } else {
        None
    }
}

fn is_run(word: &[u8], letter: u8) -> bool
    ensures { result ≡ list_all (λ b. b == letter) word.now }
{
    for b in word {
        if *b != letter {
            return false;
        }
    }
    true
}

pub fn spelled_picture(word: &[u8]) -> Option<Picture>
    ensures { result ≡ spelled_picture word.now }
{
    let (letter, rest) = word.split_first()?;
    match in_parentheses(rest) {
        Some(size) => of_size(*letter, size as usize),
        None => {
            if is_run(rest, *letter) {
                of_size(*letter, rest.len() + 1)
            } else {
                None
            }
        }
    }
}
