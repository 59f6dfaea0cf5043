//! The words that are left to read, of a line or of a list.

ghost use Rattle.dbtg_script.specs.Inside.Usual.{words_left};
ghost use Rattle.dbtg_script.specs.Tokens.{view};
ghost use Rattle.std.specs.Prelude.{◌≡◌, ◌∷◌, [], MatchOption};

use crate::token::{Token, Tokens};

/// The words that are left.
#[derive(Clone, Copy)]
pub enum Left<'a> {
    Line(Tokens<'a>),
    List(&'a [Token<'a>]),
}

impl<'a> Left<'a> {
    /// The next word.
    pub fn next(&mut self) -> Option<Token<'a>>
        ensures { MatchOption result (words_left self.old ≡ []) (λ t. words_left self.old ≡ view t ∷ words_left self.new) }
    {
        match *self {
            Left::Line(line) => {
                let mut line = line;
                let word = line.next();
                *self = Left::Line(line);
                word
            }
            Left::List(words) => {
                let (word, rest) = words.split_first()?;
                *self = Left::List(rest);
                Some(*word)
            }
        }
    }
}
