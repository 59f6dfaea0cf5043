//! The parts of a line: its unit, its statement and its answer. It takes no memory.

ghost use Rattle.dbtg_script.specs.Moves.{begins_with};
ghost use Rattle.dbtg_trace.specs.Parts.{arrow_at, begins_arrow, halves, is_unit, unit_named, without_space};
ghost use Rattle.std.specs.Prelude.{◌≡◌, ◌∷◌, ◌+◌, ◌≤◌, ◌==◌, IfSome, MatchOption, None, Some, false, if◌then◌else◌, is_some, length, not};

use dbtg_script::{behind, has_byte, in_front, is_number, number, without_last};

/// The unit before the first colon, if there is such a unit.
#[tactic(auto, using(crate::proofs::ArrowSteps::named))]
pub fn unit_named(units: u8, line: &[u8]) -> Option<u8>
    ensures { result ≡ unit_named units line.now }
{
    let front = in_front(line, b':');
    if has_byte(line, b':') & is_number(front) {
        unit_of(units, number(front))
    } else {
        None
    }
}

/// The number as a unit, if there is one.
fn unit_of(units: u8, number: u64) -> Option<u8>
    ensures unit { IfSome result (λ u. u ≡ number) }
    ensures named { is_some result ≡ is_unit units number }
{
    if 0 < number && number <= units as u64 {
        Some(number as u8)
    } else {
        None
    }
}

fn begins_with(text: &[u8], c: u8) -> bool
    ensures { result ≡ begins_with c text.now }
{
    match text.first() {
        Some(b) => *b == c,
        None => false,
    }
}

/// Does an arrow begin with this byte, given the bytes after it?
fn begins_arrow(byte: u8, behind: &[u8]) -> bool
    ensures { result ≡ begins_arrow (byte ∷ behind.now) }
{
    byte == b'=' && begins_with(behind, b'>')
}

/// Is the byte after this one inside a text, given whether this one is?
fn is_inside_behind(inside: bool, byte: u8) -> bool
    ensures { result ≡ (if byte == 34 then not inside else inside) }
{
    if byte == b'"' { !inside } else { inside }
}

/// How many bytes come before the first arrow outside of texts.
#[tactic(auto, using(crate::proofs::ArrowSteps::found_here, crate::proofs::ArrowSteps::two_bytes))]
fn arrow_at(text: &[u8]) -> Option<usize>
    ensures place { result ≡ arrow_at false text.now }
    ensures bound { IfSome result (λ n. n + 2 ≤ length text.now) }
{
    let mut inside = false;
    for (at, byte) in text.iter().enumerate() {
        if !inside & begins_arrow(*byte, &text[at + 1..]) {
            return Some(at);
        }
        inside = is_inside_behind(inside, *byte);
    }
    None
}

/// The line without one leading space, if there is one.
fn without_space(bytes: &[u8]) -> &[u8]
    ensures { result.now ≡ without_space bytes.now }
{
    match bytes.split_first() {
        Some((b' ', rest)) => rest,
        _ => bytes,
    }
}

/// The statement and the answer of a line, if there is an arrow after its first colon.
pub fn halves(line: &[u8]) -> Option<(&[u8], &[u8])>
    ensures { MatchOption result (halves line.now ≡ None) (λ h. halves line.now ≡ Some (h.0.now, h.1.now)) }
{
    let rest = behind(line, b':');
    let at = arrow_at(rest)?;
    let statement = without_last(without_space(&rest[..at]), b' ');
    Some((statement, &rest[at + 2..]))
}
