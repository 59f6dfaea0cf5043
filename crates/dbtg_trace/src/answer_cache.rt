//! Answers that were read before: the same bytes say the same answer.

ghost use Rattle.dbtg_schema.specs.Lists.{Lists};
ghost use Rattle.dbtg_trace.specs.Inside.AnswerCache.{AreSaid, IsSaid};
ghost use Rattle.dbtg_trace.specs.declared.traced.Traced.{Traced as SaidTraced};
ghost use Rattle.std.specs.Prelude.{◌≡◌, ◌<◌, List, IfSome};

use dbtg_script::Seen;

/// How many answers are kept, each in the place to which its bytes lead.
const PLACES: usize = 64;

/// The last answer of each place, with the place of its entry among those that were read.
#[derive(Drop)]
pub struct AnswerCache<'a> {
    pub places: [Option<Seen<'a>>; PLACES],
}

fn place_of(answer: &[u8]) -> usize
    ensures { result < 64 }
{
    let len = answer.len();
    if len < 4 {
        return len;
    }
    let back = 3 * answer[len - 1] as usize + 7 * answer[len - 2] as usize;
    (len % PLACES + back + 13 * answer[len - 4] as usize) % PLACES
}

impl<'a> AnswerCache<'a> {
    /// No answer yet.
    pub fn none() -> Self
        ensures { (schema : Lists) (entries : List SaidTraced) → AreSaid schema entries result.places }
    {
        Self {
            places: [None; PLACES],
        }
    }

    /// The place of the entry with this answer, where the answer is kept.
    pub fn find(&self, answer: &[u8]) -> Option<usize>
        ensures { (schema : Lists) (entries : List SaidTraced) → AreSaid schema entries self.now.places → IfSome result (λ at. IsSaid schema entries answer.now at) }
    {
        match &self.places[place_of(answer)] {
            None => None,
            Some(seen) => {
                if seen.line == answer {
                    Some(seen.at)
                } else {
                    None
                }
            }
        }
    }

    /// Keeps an answer, with the place of its entry.
    pub fn note(&mut self, answer: &'a [u8], at: usize)
        ensures { (schema : Lists) (entries : List SaidTraced) → AreSaid schema entries self.old.places → IsSaid schema entries answer.now at → AreSaid schema entries self.new.places }
    {
        self.places[place_of(answer)] = Some(Seen { line: answer, at });
    }
}
