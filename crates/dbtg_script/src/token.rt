ghost use Rattle.std.specs.Prelude.{◌≡◌, ℕ, ◌+◌, ◌-◌, ◌<◌, ◌≤◌, ◌∷◌, [], length, MatchOption, OnSome, drop, slice_index, true, false};
ghost use Rattle.dbtg_script.specs.Tokens.{tokens, view, is_letter};

use crate::line::behind_first;

/// A word of a line.
#[derive(Clone, Copy)]
pub enum Token<'a> {
    Plain(&'a [u8]),
    Equals,
    Literal(&'a [u8]),
}

/// The rest of a line.
#[derive(Clone, Copy)]
pub struct Tokens<'a> {
    pub rest: &'a [u8],
}

fn is_letter(b: u8) -> bool
    ensures { result ≡ is_letter b }
{
    (b != b' ') & (b != b'=') & (b != b'"')
}

fn run_len(bytes: &[u8]) -> usize
    ensures in_range { result ≤ length bytes.now }
    ensures letters { (k : ℕ) → k < result → is_letter (slice_index bytes.now k) ≡ true }
    ensures stops { result < length bytes.now → is_letter (slice_index bytes.now result) ≡ false }
{
    let mut n = 0;
    while n < bytes.len() && is_letter(bytes[n]) {
        n += 1;
    }
    n
}

/// How many bytes come before the next double quote; all if there is none.
fn literal_len(bytes: &[u8]) -> usize
    ensures in_range { result ≤ length bytes.now }
    ensures inside { (k : ℕ) → k < result → (slice_index bytes.now k ≡ 34 → ⊥) }
    ensures stops { result < length bytes.now → slice_index bytes.now result ≡ 34 }
{
    let mut n = 0;
    while n < bytes.len() && bytes[n] != b'"' {
        n += 1;
    }
    n
}

impl<'a> Tokens<'a> {
    /// The next word.
    pub fn next(&mut self) -> Option<Token<'a>>
        ensures found { MatchOption result (tokens false self.old.rest.now ≡ [])
            (λ t. tokens false self.old.rest.now ≡ view t ∷ tokens false self.new.rest.now) }
        ensures shorter { OnSome result (length self.new.rest.now < length self.old.rest.now) }
    {
        while let Some((first, after)) = self.rest.split_first() {
            let rest = self.rest;
            if *first == b' ' {
                self.rest = after;
            } else if *first == b'=' {
                self.rest = after;
                return Some(Token::Equals);
            } else if *first == b'"' {
                let (text, tail) = after.split_at(literal_len(after));
                self.rest = behind_first(tail);
                return Some(Token::Literal(text));
            } else {
                let (text, tail) = rest.split_at(run_len(rest));
                self.rest = tail;
                return Some(Token::Plain(text));
            }
        }
        None
    }
}
