//! A number, as the command's words say it.
ghost use Rattle.std.specs.Prelude.{◌≡◌, ◌≤◌, IfSome};
ghost use Rattle.dbtg_command.specs.Capacity.{count_in};

use dbtg_script::{is_number, number};

/// The number that a word says: digits alone, from 1 to the greatest.
pub fn count_of(word: &str, most: u64) -> Option<u64>
    requires { most ≤ 1000000000 }
    ensures count { result ≡ count_in most word.now }
    ensures within { IfSome result (λ n. n ≤ most) }
{
    count_in_digits(word.as_bytes(), most)
}

/// The same for a word that is given as bytes.
pub fn count_in_digits(digits: &[u8], most: u64) -> Option<u64>
    requires { most ≤ 1000000000 }
    ensures count { result ≡ count_in most digits.now }
    ensures within { IfSome result (λ n. n ≤ most) }
{
    if !is_number(digits) {
        return None;
    }
    let value = number(digits);
    if 1 <= value && value <= most {
        Some(value)
    } else {
        None
    }
}
