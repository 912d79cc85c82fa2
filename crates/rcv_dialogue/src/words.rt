// What is left of a line's words: its bytes from the space before the first of these words on.

ghost use Rattle.std.specs.Prelude.{◌≡◌, ◌+◌, ◌<◌, ◌≤◌, ◌^◌, ◌==◌, [], ◌∷◌, length, position, IfOk, IfSome, IfNone};
ghost use Rattle.rcv_lines.specs.Cutting.{fields_of};
ghost use Rattle.rcv_dialogue.specs.Left.{left};
ghost use Rattle.rcv_dialogue.specs.Reading.{Gives, begins, is_over, word_at};

use crate::wrong::Expected;

/// Something else is expected in place of the first of so many words that are left, or after the last word of the line
/// if none is left.
#[derive(Clone, Copy)]
pub struct Misfit {
    pub left: usize,
    pub expected: Expected,
}

// Where the first space of a text stands.
fn space_at(text: &[u8]) -> Option<usize>
    ensures { result ≡ position (λ b. b == 32) text.now }
{
    text.iter().position(|byte| *byte == b' ')
}

/// The first word of a text, and those after it.
pub fn first(text: &[u8]) -> (&[u8], &[u8])
    ensures word { fields_of text.now ≡ result.0.now ∷ left result.1.now }
    ensures shorter { length result.1.now ≤ length text.now }
{
    match space_at(text) {
        Some(space) => (&text[..space], &text[space..]),
        None => (text, &text[text.len()..]),
    }
}

/// The next word, and those after it; none if no word is left.
pub fn next(words: &[u8]) -> Option<(&[u8], &[u8])>
    ensures word { IfSome result (λ next. left words.now ≡ next.0.now ∷ left next.1.now) }
    ensures shorter { IfSome result (λ next. length next.1.now < length words.now) }
    ensures over { IfNone result (left words.now ≡ []) }
{
    let (_, text) = words.split_first()?;
    Some(first(text))
}

/// How many words a text has.
#[tactic(auto, using(crate::proofs::Spaces::one_byte))]
pub fn count_of(text: &[u8]) -> usize
    requires { length text.now < 2 ^ 63 }
    ensures value { result ≡ length (fields_of text.now) }
    ensures few { result ≤ length text.now + 1 }
{
    let mut count = 1;
    for byte in text {
        if *byte == b' ' {
            count += 1;
        }
    }
    count
}

/// How many words are left.
fn count(words: &[u8]) -> usize
    ensures { result ≡ length (left words.now) }
{
    match words.split_first() {
        Some((_, text)) => count_of(text),
        None => 0,
    }
}

/// Something else is expected in the next word's place.
pub fn wrong(words: &[u8], expected: Expected) -> Misfit
    ensures { result ≡ record { left = length (left words.now); expected = expected } }
{
    Misfit {
        left: count(words),
        expected,
    }
}

/// The next word, which is expected to be something, and those after it.
pub fn take(words: &[u8], expected: Expected) -> Result<(&[u8], &[u8]), Misfit>
    ensures value { Gives (λ x. (x.0.now, left x.1.now)) result (word_at expected (left words.now)) }
    ensures shorter { IfOk result (λ x. length x.1.now < length words.now) }
{
    match next(words) {
        Some(next) => Ok(next),
        None => Err(wrong(words, expected)),
    }
}

/// Whether no word is left.
pub fn is_over(words: &[u8]) -> bool
    ensures { result ≡ is_over (left words.now) }
{
    match next(words) {
        Some(_) => false,
        None => true,
    }
}

/// Whether a word is left that begins with this mark.
pub fn begins(words: &[u8], mark: u8) -> bool
    ensures { result ≡ begins mark (left words.now) }
{
    let Some((word, _)) = next(words) else {
        return false;
    };
    match word {
        [] => false,
        [first, ..] => *first == mark,
    }
}
