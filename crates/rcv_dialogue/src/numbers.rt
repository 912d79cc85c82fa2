// Words that are numbers.

ghost use Rattle.std.specs.Prelude.{◌≡◌, ◌<◌, ◌^◌, decimal};
ghost use Rattle.std.specs.Fmt.{signed_decimal};
ghost use Rattle.rcv_dialogue.specs.Numbers.{is_word, number_in, signed_in, marked_in, number_before};

use itoa::Buffer;
use std::str::from_utf8;

/// Whether a word is this one.
pub fn is_same(word: &[u8], other: &[u8]) -> bool
    ensures { result ≡ is_word word.now other.now }
{
    word == other
}

// Whether the word is the number's text.
fn is_written(number: u64, word: &[u8]) -> bool
    ensures value { result ≡ is_word word.now (decimal number) }
    ensures fits { number < 2 ^ 64 }
{
    let mut digits = Buffer::new();
    is_same(word, digits.format(number).as_bytes())
}

// Whether the word is the signed number's text.
fn is_signed_written(number: i64, word: &[u8]) -> bool
    ensures { result ≡ is_word word.now (signed_decimal number) }
{
    let mut written = Buffer::new();
    is_same(word, written.format(number).as_bytes())
}

/// The number whose text the word is. To check that, the number is written again: the parse also takes a sign and zeros
/// in front.
pub fn number(word: &[u8]) -> Option<u64>
    ensures { result ≡ number_in word.now }
{
    let Ok(text) = from_utf8(word) else {
        return None;
    };
    let Ok(number) = text.parse::<u64>() else {
        return None;
    };
    if is_written(number, word) {
        Some(number)
    } else {
        None
    }
}

/// The signed number whose text the word is.
pub fn signed_number(word: &[u8]) -> Option<i64>
    ensures { result ≡ signed_in word.now }
{
    let Ok(text) = from_utf8(word) else {
        return None;
    };
    let Ok(number) = text.parse::<i64>() else {
        return None;
    };
    if is_signed_written(number, word) {
        Some(number)
    } else {
        None
    }
}

/// The number whose text stands after this mark.
pub fn marked_number(mark: u8, word: &[u8]) -> Option<u64>
    ensures { result ≡ marked_in mark word.now }
{
    let (first, text) = word.split_first()?;
    if *first != mark {
        return None;
    }
    number(text)
}

/// The number whose text stands before a colon.
pub fn number_before(word: &[u8]) -> Option<u64>
    ensures { result ≡ number_before word.now }
{
    if word.is_empty() {
        return None;
    }
    let last = word.len() - 1;
    if word[last] != b':' {
        return None;
    }
    number(&word[..last])
}
