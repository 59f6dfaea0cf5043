//! Lines that were read before: the same line says the same statement.

ghost use Rattle.dbtg_schema.specs.Lists.{Lists};
ghost use Rattle.dbtg_unit.specs.declared.statement.Statement.{Statement as SaidStatement};
ghost use Rattle.dbtg_script.specs.LineCache.{IsCached, IsRead};
ghost use Rattle.std.specs.Prelude.{◌≡◌, ◌<◌, List, IfSome};

/// A line that holds a statement, and its place among the statements that were read.
#[derive(Clone, Copy)]
pub struct Seen<'a> {
    pub line: &'a [u8],
    pub at: usize,
}

/// How many lines are kept, each in the place that its bytes determine.
const PLACES: usize = 256;

/// The last line of each place.
#[derive(Drop)]
pub struct LineCache<'a> {
    pub places: [Option<Seen<'a>>; PLACES],
}

// Lines of one form differ behind its first word and near their ends: the place is made of six bytes from there, and of the length.
fn place_of(line: &[u8]) -> usize
    ensures { result < 256 }
{
    let len = line.len();
    if len < 8 {
        return len;
    }
    let back = 121 * line[len - 6] as usize + 11 * line[len - 5] as usize + line[len - 2] as usize;
    let front = 121 * line[len - 1] as usize + 11 * line[6] as usize + line[5] as usize;
    (len % PLACES + 11 * front + 14_641 * back) % PLACES
}

fn place_in(seen: &Seen, line: &[u8]) -> Option<usize>
    ensures at { IfSome result (λ at. at ≡ seen.now.at) }
    ensures same { IfSome result (λ _. seen.now.line.now ≡ line.now) }
{
    if seen.line == line {
        Some(seen.at)
    } else {
        None
    }
}

impl<'a> LineCache<'a> {
    /// No line yet.
    pub fn none() -> Self
        ensures { (schema : Lists) (statements : List SaidStatement) → IsCached schema statements result.places }
    {
        Self {
            places: [None; PLACES],
        }
    }

    /// The place of the statement of this line, if the line is kept.
    pub fn find(&self, line: &[u8]) -> Option<usize>
        ensures { (schema : Lists) (statements : List SaidStatement) → IsCached schema statements self.now.places → IfSome result (λ at. IsRead schema statements line.now at) }
    {
        match &self.places[place_of(line)] {
            None => None,
            Some(seen) => place_in(seen, line),
        }
    }

    /// Keeps a line, with the place of its statement.
    pub fn note(&mut self, line: &'a [u8], at: usize)
        ensures { (schema : Lists) (statements : List SaidStatement) → IsCached schema statements self.old.places → IsRead schema statements line.now at → IsCached schema statements self.new.places }
    {
        self.places[place_of(line)] = Some(Seen { line, at });
    }
}
