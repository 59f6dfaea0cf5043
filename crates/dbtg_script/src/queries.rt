//! What the words of a statement say, found by their roles.

ghost use Rattle.dbtg_schema.specs.Texts.Spelling.{among};
ghost use Rattle.dbtg_script.specs.Labels.{first_word, given, is, last_text, lead, named, number, text_of, texts};
ghost use Rattle.dbtg_script.specs.Tokens.{view};
ghost use Rattle.dbtg_script.specs.Inside.Views.{view_labelled, views};
ghost use Rattle.std.specs.Prelude.{◌≡◌, ◌≤◌, length, option_map};

use crate::role::Role;
use crate::token::Token;

/// A word with its role.
#[derive(Clone, Copy)]
pub struct Labelled<'a> {
    pub role: Role,
    pub token: Token<'a>,
}

pub fn number_of(role: Role) -> u8
    ensures { result ≡ number role }
{
    role as u8
}

pub fn has_role(labelled: &Labelled, role: Role) -> bool
    ensures { result ≡ is role (view_labelled labelled.now) }
{
    number_of(labelled.role) == number_of(role)
}

/// The role of the first word.
pub fn lead(words: &[Labelled]) -> Role
    ensures { result ≡ lead (views words.now) }
{
    match words.first() {
        None => Role::Plain,
        Some(word) => word.role,
    }
}

pub fn text_of(token: Token<'_>) -> &[u8]
    ensures { result.now ≡ text_of (view token.entry) }
{
    match token {
        Token::Plain(text) => text,
        Token::Equals => b"",
        Token::Literal(text) => text,
    }
}

/// Does a word with this role have this text?
pub fn is_named(words: &[Labelled], role: Role, text: &[u8]) -> bool
    ensures { result ≡ among text.now (texts role (views words.now)) }
{
    for word in words {
        if has_role(word, role) {
            if text == text_of(word.token) {
                return true;
            }
        }
    }
    false
}

/// How many words have this role?
pub fn count(words: &[Labelled], role: Role) -> usize
    ensures number { result ≡ length (texts role (views words.now)) }
    ensures bound { result ≤ length words.now }
{
    let mut n = 0;
    for word in words {
        if has_role(word, role) {
            n += 1;
        }
    }
    n
}

/// The text of the last word with this role; empty if there is none.
pub fn named<'a>(words: &[Labelled<'a>], role: Role) -> &'a [u8]
    ensures { result.now ≡ named role (views words.now) }
{
    let mut text: &'a [u8] = b"";
    for word in words {
        if has_role(word, role) {
            text = text_of(word.token);
        }
    }
    text
}

/// The first word with this role.
pub fn first_word<'a>(words: &[Labelled<'a>], role: Role) -> Option<Token<'a>>
    ensures { option_map view result ≡ first_word role (views words.now) }
{
    for word in words {
        if has_role(word, role) {
            return Some(word.token);
        }
    }
    None
}

/// The value that is given to the item with this name.
pub fn given<'a>(words: &[Labelled<'a>], name: &[u8]) -> Option<Token<'a>>
    ensures { option_map view result ≡ given name.now (views words.now) }
{
    for (i, word) in words.iter().enumerate() {
        if has_role(word, Role::ItemName) {
            if name == text_of(word.token) {
                return first_word(&words[i + 1..], Role::Value);
            }
        }
    }
    None
}
