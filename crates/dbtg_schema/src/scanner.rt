//! The words of a text, each with its line.

ghost use Rattle.std.specs.Prelude.{◌≡◌, ℕ, ◌+◌, ◌-◌, ◌<◌, ◌≤◌, ◌^◌, ◌∷◌, [], length, MatchOption, OnSome, IfSome, slice_index, true, false};
ghost use Rattle.dbtg_schema.specs.Texts.Words.{words, is_gap, is_letter, line_after};
ghost use Rattle.dbtg_schema.specs.Inside.Words.{view};

/// A word of a text, and the line on which it stands, from 1.
#[derive(Clone, Copy)]
pub struct Word<'a> {
    pub text: &'a [u8],
    pub line: u64,
}

/// The rest of a text, and the line on which it begins.
#[derive(Clone, Copy)]
pub struct Scanner<'a> {
    pub rest: &'a [u8],
    pub line: u64,
    ghost lines_fit: { line + length rest.now < 2 ^ 64 },
}

fn is_gap(b: u8) -> bool
    ensures { result ≡ is_gap b }
{
    matches!(b, b' ' | b'\t' | b'\r' | b'\n' | b',' | b';')
}

fn is_letter(b: u8) -> bool
    ensures { result ≡ is_letter b }
{
    !is_gap(b) && b != b'.'
}

fn line_after(b: u8, line: u64) -> u64
    requires { line < 2 ^ 64 - 1 }
    ensures { result ≡ line_after b line }
{
    if b == b'\n' { line + 1 } else { line }
}

/// How many bytes at the front belong to one word.
fn run_len(bytes: &[u8]) -> usize
    ensures in_range { result ≤ length bytes.now }
    ensures letters { (k : ℕ) → k < result → is_letter (slice_index bytes.now k) ≡ true }
    ensures stops { result < length bytes.now → is_letter (slice_index bytes.now result) ≡ false }
{
    let mut n = 0;
    while n < bytes.len() && is_letter(bytes[n]) {
        n += 1;
    }
    n
}

impl<'a> Scanner<'a> {
    pub fn new(text: &'a [u8]) -> Scanner<'a>
        requires { length text.now < 2 ^ 63 }
        ensures { words result.line result.rest.now ≡ words 1 text.now }
    {
        Scanner {
            rest: text,
            line: 1,
        }
    }

    /// The next word.
    pub fn scan(&mut self) -> Option<Word<'a>>
        ensures found { MatchOption result (words self.old.line self.old.rest.now ≡ [])
            (λ w. words self.old.line self.old.rest.now ≡ view w ∷ words self.new.line self.new.rest.now) }
        ensures shorter { OnSome result (length self.new.rest.now < length self.old.rest.now) }
        ensures within { IfSome result (λ w. length w.text.now ≤ length self.old.rest.now) }
    {
        while let Some((first, after)) = self.rest.split_first() {
            let line = self.line;
            let rest = self.rest;
            if is_gap(*first) {
                let line = line_after(*first, line);
                *self = Scanner { rest: after, line };
            } else if *first == b'.' {
                *self = Scanner { rest: after, line };
                return Some(Word { text: b".", line });
            } else {
                let (text, after) = rest.split_at(run_len(rest));
                *self = Scanner { rest: after, line };
                return Some(Word { text, line });
            }
        }
        None
    }
}
