//! The lines of a script.

ghost use Rattle.dbtg_script.specs.Lines.{ends_in_text, is_allowed, is_comment, is_printable, is_statement, lines, trimmed, without_last};
ghost use Rattle.std.specs.Prelude.{◌≡◌, ◌==◌, ◌&&◌, ◌<◌, ◌≤◌, ◌∷◌, nat_le, ℕ, [], MatchOption, OnSome, drop, false, length, not, slice_index};
ghost use Rattle.std.specs.List.{list_all};

use memchr::memchr;

/// The rest of a script.
#[derive(Clone, Copy)]
pub struct Lines<'a> {
    pub rest: &'a [u8],
}

/// How many bytes come before the next line feed; all if there is none.
fn line_len(bytes: &[u8]) -> usize
    ensures in_range { result ≤ length bytes.now }
    ensures inside { (k : ℕ) → k < result → (slice_index bytes.now k ≡ 10 → ⊥) }
    ensures stops { result < length bytes.now → slice_index bytes.now result ≡ 10 }
{
    match memchr(b'\n', bytes) {
        Some(at) => at,
        None => bytes.len(),
    }
}

/// The bytes behind the first.
pub fn behind_first(bytes: &[u8]) -> &[u8]
    ensures { result.now ≡ drop 1 bytes.now }
{
    match bytes.split_first() {
        None => bytes,
        Some((_, rest)) => rest,
    }
}

impl<'a> Lines<'a> {
    /// The next line.
    pub fn next(&mut self) -> Option<&'a [u8]>
        ensures found { MatchOption result (lines self.old.rest.now ≡ [])
            (λ l. lines self.old.rest.now ≡ l.now ∷ lines self.new.rest.now) }
        ensures shorter { OnSome result (length self.new.rest.now < length self.old.rest.now) }
    {
        let rest = self.rest;
        if rest.is_empty() {
            return None;
        }
        let (line, tail) = rest.split_at(line_len(rest));
        self.rest = behind_first(tail);
        Some(line)
    }
}

/// The line without its last byte, if that is c.
pub fn without_last(line: &[u8], c: u8) -> &[u8]
    ensures { result.now ≡ without_last c line.now }
{
    let n = line.len();
    if n > 0 && line[n - 1] == c {
        &line[..n - 1]
    } else {
        line
    }
}

/// The line without the carriage return at its end, and then without the period.
pub fn trimmed(line: &[u8]) -> &[u8]
    ensures { result.now ≡ trimmed line.now }
{
    without_last(without_last(line, b'\r'), b'.')
}

fn is_comment(line: &[u8]) -> bool
    ensures { result ≡ is_comment line.now }
{
    match line.first() {
        Some(b) => *b == b'*',
        None => false,
    }
}

fn is_blank(line: &[u8]) -> bool
    ensures { result ≡ list_all (λ b. b == 32) line.now }
{
    line.iter().all(|b| *b == b' ')
}

/// Does the line hold a statement?
pub fn is_statement(line: &[u8]) -> bool
    ensures { result ≡ is_statement line.now }
{
    !is_comment(line) && !is_blank(line)
}

fn is_printable_byte(b: u8) -> bool
    ensures { result ≡ (nat_le 32 b && nat_le b 126) }
{
    matches!(b, b' '..=b'~')
}

/// Are all bytes printable ASCII? It does not stop at the first that is not, so that many are tested at once.
pub fn is_printable(line: &[u8]) -> bool
    ensures { result ≡ is_printable line.now }
{
    let mut printable = true;
    for b in line {
        printable = printable & is_printable_byte(*b);
    }
    printable
}

/// Does the line have at most 1,000 bytes, all of them printable ASCII?
pub fn is_allowed(line: &[u8]) -> bool
    ensures { result ≡ is_allowed line.now }
{
    is_printable(line) && line.len() <= 1000
}

/// Is the line allowed, and does it end outside a text literal? It goes through the line once.
pub fn is_allowed_and_closed(line: &[u8]) -> bool
    ensures { result ≡ (is_allowed line.now && not (ends_in_text false line.now)) }
{
    let mut printable = true;
    let mut inside = false;
    for b in line {
        printable = printable & is_printable_byte(*b);
        if *b == b'"' {
            inside = !inside;
        }
    }
    printable && line.len() <= 1000 && !inside
}

/// Does the line end inside a text literal?
pub fn ends_in_text(line: &[u8]) -> bool
    ensures { result ≡ ends_in_text false line.now }
{
    let mut inside = false;
    for b in line {
        if *b == b'"' {
            inside = !inside;
        }
    }
    inside
}
