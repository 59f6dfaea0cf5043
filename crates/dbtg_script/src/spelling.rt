//! The spelling of numbers and keys in a statement. It takes no memory.

ghost use Rattle.dbtg_schema.specs.Texts.Spelling.{is_digit};
ghost use Rattle.dbtg_script.specs.Printing.Spelling.{behind, generation, has_byte, has_generation, in_front, is_key, is_number, is_signed, key_generation, key_name, key_number, number};
ghost use Rattle.std.specs.Prelude.{◌≡◌, ◌<◌, ◌≤◌, ◌^◌, ◌*◌, ◌+◌, ◌-◌, IfSome, length, min, true};
ghost use Rattle.std.specs.List.{list_all};

fn is_digit(b: u8) -> bool
    ensures { result ≡ is_digit b }
{
    matches!(b, b'0'..=b'9')
}

fn all_digits(text: &[u8]) -> bool
    ensures { result ≡ list_all is_digit text.now }
{
    text.iter().all(|b| is_digit(*b))
}

/// Is the text one or more digits?
pub fn is_number(text: &[u8]) -> bool
    ensures { result ≡ is_number text.now }
{
    !text.is_empty() && all_digits(text)
}

/// The number that the digits spell; 10 to the 18th if it is above that.
pub fn number(text: &[u8]) -> u64
    ensures { result ≡ min (number text.now) (10 ^ 18) }
{
    let mut n: u64 = 0;
    for digit in text {
        n = number_with(n, *digit);
    }
    n
}

fn number_with(n: u64, digit: u8) -> u64
    ensures { result ≡ min (10 * n + (digit - 48)) (10 ^ 18) }
{
    let value = if digit < 48 { 0 } else { (digit - 48) as u64 };
    if n < 100_000_000_000_000_000 {
        let next = 10 * n + value;
        if next < 1_000_000_000_000_000_000 {
            next
        } else {
            1_000_000_000_000_000_000
        }
    } else {
        1_000_000_000_000_000_000
    }
}

/// The number that the text spells, if it is 1 to 18 digits. It looks at each byte once.
pub fn short_number(text: &[u8]) -> Option<u64>
    ensures digits { IfSome result (λ _. is_number text.now ≡ true) }
    ensures value { IfSome result (λ n. n ≡ number text.now) }
    ensures below { IfSome result (λ n. n < 10 ^ length text.now) }
    ensures short { IfSome result (λ _. length text.now ≤ 18) }
{
    if text.is_empty() || text.len() > 18 {
        return None;
    }
    let mut n: u64 = 0;
    for b in text {
        if !is_digit(*b) {
            return None;
        }
        n = 10 * n + (*b - b'0') as u64;
    }
    Some(n)
}

/// Is the text digits, or a minus and digits?
pub fn is_signed(text: &[u8]) -> bool
    ensures { result ≡ is_signed text.now }
{
    match text.split_first() {
        None => false,
        Some((b'-', digits)) => is_number(digits),
        Some(_) => is_number(text),
    }
}

/// The bytes before the first c; all if there is none.
pub fn in_front(text: &[u8], c: u8) -> &[u8]
    ensures { result.now ≡ in_front c text.now }
{
    for (i, b) in text.iter().enumerate() {
        if *b == c {
            return &text[..i];
        }
    }
    text
}

/// The bytes after the first c; none if there is none.
pub fn behind(text: &[u8], c: u8) -> &[u8]
    ensures { result.now ≡ behind c text.now }
{
    for (i, b) in text.iter().enumerate() {
        if *b == c {
            return &text[i + 1..];
        }
    }
    &text[text.len()..]
}

/// Is this byte there?
pub fn has_byte(text: &[u8], c: u8) -> bool
    ensures { result ≡ has_byte c text.now }
{
    text.iter().any(|b| *b == c)
}

/// The name of the record type in a key.
pub fn key_name(text: &[u8]) -> &[u8]
    ensures { result.now ≡ key_name text.now }
{
    in_front(text, b':')
}

/// The digits of the number in a key.
pub fn key_number(text: &[u8]) -> &[u8]
    ensures { result.now ≡ key_number text.now }
{
    in_front(behind(text, b':'), b'.')
}

fn key_generation(text: &[u8]) -> &[u8]
    ensures { result.now ≡ key_generation text.now }
{
    behind(behind(text, b':'), b'.')
}

fn has_generation(text: &[u8]) -> bool
    ensures { result ≡ has_generation text.now }
{
    has_byte(behind(text, b':'), b'.')
}

/// Is this a name, a colon and digits, perhaps followed by a period and digits?
pub fn is_key(text: &[u8]) -> bool
    ensures { result ≡ is_key text.now }
{
    if key_name(text).is_empty() {
        return false;
    }
    if !is_number(key_number(text)) {
        return false;
    }
    if has_generation(text) {
        is_number(key_generation(text))
    } else {
        true
    }
}

/// The generation that a key names; 1 if it names none.
pub fn generation(text: &[u8]) -> u64
    ensures { result ≡ min (generation text.now) (10 ^ 18) }
{
    if has_generation(text) {
        number(key_generation(text))
    } else {
        1
    }
}
