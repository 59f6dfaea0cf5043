//! Names and pictures.

ghost use Rattle.dbtg_schema.specs.Texts.Spelling.{among, is_capital, is_digit, is_name, is_name_byte, reserved};
ghost use Rattle.std.specs.Prelude.{◌≡◌, ◌==◌, ◌-◌, ◌<◌, ℕ, length, map, slice_index};
ghost use Rattle.std.specs.List.{list_all};

/// Reserved words, which cannot be names.
const RESERVED: [&str; 63] = [
    "SCHEMA",
    "NAME",
    "AREA",
    "RECORD",
    "LOCATION",
    "MODE",
    "CALC",
    "USING",
    "DUPLICATES",
    "NOT",
    "ALLOWED",
    "VIA",
    "SET",
    "WITHIN",
    "PICTURE",
    "PIC",
    "ORDER",
    "FIRST",
    "LAST",
    "NEXT",
    "PRIOR",
    "SORTED",
    "ASCENDING",
    "DESCENDING",
    "OWNER",
    "SYSTEM",
    "MEMBER",
    "MANDATORY",
    "OPTIONAL",
    "AUTOMATIC",
    "MANUAL",
    "KEY",
    "OCCURRENCE",
    "SELECTION",
    "THRU",
    "CURRENT",
    "OF",
    "IS",
    "ARE",
    "OPEN",
    "CLOSE",
    "FIND",
    "GET",
    "STORE",
    "INSERT",
    "INTO",
    "REMOVE",
    "FROM",
    "MODIFY",
    "DELETE",
    "ONLY",
    "SELECTIVE",
    "ALL",
    "USAGE-MODE",
    "PROTECTED",
    "EXCLUSIVE",
    "RETRIEVAL",
    "UPDATE",
    "RUN-UNIT",
    "DUPLICATE",
    "SUPPRESS",
    "KEEP",
    "FREE",
];

fn is_capital(b: u8) -> bool
    ensures { result ≡ is_capital b }
{
    b.is_ascii_uppercase()
}

fn is_digit(b: u8) -> bool
    ensures { result ≡ is_digit b }
{
    b.is_ascii_digit()
}

fn is_name_byte(b: u8) -> bool
    ensures { result ≡ is_name_byte b }
{
    is_capital(b) || is_digit(b) || b == b'-'
}

fn is_among(word: &[u8], words: &[&str]) -> bool
    ensures { result ≡ among word.now (map (λ w. w.now) words.now) }
{
    for other in words {
        if word == other.as_bytes() {
            return true;
        }
    }
    false
}

pub fn is_reserved(word: &[u8]) -> bool
    ensures { result ≡ among word.now reserved }
{
    is_among(word, &RESERVED)
}

fn ends_in_hyphen(word: &[u8]) -> bool
    requires { 0 < length word.now }
    ensures { result ≡ (slice_index word.now (length word.now - 1) == 45) }
{
    word[word.len() - 1] == b'-'
}

fn has_name_bytes(word: &[u8]) -> bool
    ensures { result ≡ list_all is_name_byte word.now }
{
    for b in word {
        if !is_name_byte(*b) {
            return false;
        }
    }
    true
}

pub fn is_name(word: &[u8]) -> bool
    ensures { result ≡ is_name word.now }
{
    if word.is_empty() || word.len() > 30 {
        return false;
    }
    is_capital(word[0]) & has_name_bytes(word) & !ends_in_hyphen(word) & !is_reserved(word)
}
