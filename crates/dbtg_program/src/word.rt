//! Words of a program: what they are by themselves.

ghost use Rattle.dbtg_schema.specs.Texts.Spelling.{among};
ghost use Rattle.dbtg_script.specs.Tokens.{view};
ghost use Rattle.dbtg_program.specs.Sentences.{begins, is_equals, is_field_word, is_own_name, is_spelled, is_two_parts, is_word, spelling, text_in, verb_of, word_at};
ghost use Rattle.std.specs.List.{find};
ghost use Rattle.std.specs.Prelude.{◌≡◌, map};
ghost use Rattle.std.specs.Str.{bytes_eq};

use crate::grammar::Keyword;
use dbtg_schema::is_name;
use dbtg_script::{Token, behind, has_byte, in_front, is_number};

/// The words that cannot name paragraphs and counters: TO, STATUS, and those that begin a sentence that scripts do not have.
const NO_NAMES: [Keyword; 10] = [
    Keyword::To,
    Keyword::Status,
    Keyword::Level,
    Keyword::Move,
    Keyword::Add,
    Keyword::Subtract,
    Keyword::Go,
    Keyword::If,
    Keyword::Assert,
    Keyword::Stop,
];

/// The words that begin a sentence that scripts do not have.
const VERBS: [Keyword; 8] = [
    Keyword::Level,
    Keyword::Move,
    Keyword::Add,
    Keyword::Subtract,
    Keyword::Go,
    Keyword::If,
    Keyword::Assert,
    Keyword::Stop,
];

/// The text of a word without quotation marks; nothing for other words.
pub fn text_in(token: Token<'_>) -> &[u8]
    ensures { result.now ≡ text_in (view token.entry) }
{
    match token {
        Token::Plain(text) => text,
        Token::Equals => b"",
        Token::Literal(_) => b"",
    }
}

/// Is the word spelled like this?
pub fn is_spelled(token: Token, text: &str) -> bool
    ensures { result ≡ is_spelled text.now (view token.entry) }
{
    match token {
        Token::Plain(word) => word == text.as_bytes(),
        Token::Equals => false,
        Token::Literal(_) => false,
    }
}

/// Is it this word?
pub fn is_word(token: Token, keyword: Keyword) -> bool
    ensures { result ≡ is_word keyword (view token.entry) }
{
    is_spelled(token, keyword.text())
}

/// Is it the sign =?
pub fn is_equals(token: Token) -> bool
    ensures { result ≡ is_equals (view token.entry) }
{
    match token {
        Token::Plain(_) => false,
        Token::Equals => true,
        Token::Literal(_) => false,
    }
}

/// The first of these words that is spelled like this.
fn keyword_in(word: &[u8], keywords: &[Keyword]) -> Option<Keyword>
    ensures { result ≡ find (λ k. bytes_eq word.now (spelling k)) keywords.now }
{
    for keyword in keywords {
        if word == keyword.text().as_bytes() {
            return Some(*keyword);
        }
    }
    None
}

fn is_among(word: &[u8], keywords: &[Keyword]) -> bool
    ensures { result ≡ among word.now (map spelling keywords.now) }
{
    for keyword in keywords {
        if word == keyword.text().as_bytes() {
            return true;
        }
    }
    false
}

/// Is it a name of a paragraph or a counter?
pub fn is_own_name(word: &[u8]) -> bool
    ensures { result ≡ is_own_name word.now }
{
    is_name(word) && !is_among(word, &NO_NAMES)
}

/// Does the word have two parts, with one period between them?
fn is_two_parts(word: &[u8]) -> bool
    ensures { result ≡ is_two_parts word.now }
{
    let item = behind(word, b'.');
    !in_front(word, b'.').is_empty() && !item.is_empty() && !has_byte(item, b'.')
}

/// Is it a field, in a value's place? Most words there are numbers, which are recognized at once.
#[tactic(auto, using(crate::proofs::Digits::number_no_field))]
pub fn is_field_word(token: Token) -> bool
    ensures { result ≡ is_field_word (view token.entry) }
{
    match token {
        Token::Plain(text) => !is_number(text) && (is_own_name(text) || is_two_parts(text)),
        Token::Equals => false,
        Token::Literal(_) => false,
    }
}

/// The word at this place, from 0.
pub fn word_at<'a>(words: &[Token<'a>], place: usize) -> Token<'a>
    ensures { view result ≡ word_at place (map view words.now) }
{
    match words.get(place) {
        Some(word) => *word,
        None => Token::Equals,
    }
}

/// Is the first word this one?
pub fn begins(words: &[Token], keyword: Keyword) -> bool
    ensures { result ≡ begins keyword (map view words.now) }
{
    is_word(word_at(words, 0), keyword)
}

/// The verb with which the words begin.
pub fn verb_of(words: &[Token]) -> Option<Keyword>
    ensures { result ≡ verb_of (map view words.now) }
{
    match word_at(words, 0) {
        Token::Plain(word) => keyword_in(word, &VERBS),
        Token::Equals => None,
        Token::Literal(_) => None,
    }
}
