// The lines of a text, and the first at which it isn't another one.

ghost use Rattle.std.specs.Prelude.{◌≡◌, ◌↔◌, ◌==◌, ◌<◌, ◌≤◌, ◌+◌, ◌^◌, ◌∷◌, ◌++◌, length, take, drop, position};
ghost use Rattle.std.specs.Prelude.{IsTrue, IfSome, MatchOption};
ghost use Rattle.rcv_journal.specs.Form.{lines_of};
ghost use Rattle.rcv_retold.specs.Text.{IsFirstOther};

// The place of the first line feed of a text.
fn feed_at(text: &[u8]) -> Option<usize>
    ensures { result ≡ position (λ b. b == 10) text.now }
{
    text.iter().position(|byte| *byte == b'\n')
}

// How many bytes the first line of a text has, with its line feed.
fn line_length(text: &[u8]) -> usize
    ensures some { 0 < length text.now → 0 < result }
    ensures within { result ≤ length text.now }
    ensures line { 0 < length text.now → lines_of text.now ≡ take result text.now ∷ lines_of (drop result text.now) }
{
    match feed_at(text) {
        Some(before) => before + 1,
        None => text.len(),
    }
}

/// The first line of a text, with its line feed, and what follows it; of an empty text both are empty.
pub fn first_line(text: &[u8]) -> (&[u8], &[u8])
    ensures parts { text.entry.now ≡ result.0.now ++ result.1.now }
    ensures some { 0 < length text.entry.now → 0 < length result.0.now }
    ensures line { 0 < length text.entry.now → lines_of text.entry.now ≡ result.0.now ∷ lines_of result.1.now }
{
    text.split_at(line_length(text))
}

// Whether two texts are the same.
fn is_same(one: &[u8], other: &[u8]) -> bool
    ensures { IsTrue result ↔ one.now ≡ other.now }
{
    one == other
}

/// The first line, counted from 1, at which a text isn't the right one: the number of its lines plus 1 if it stops too
/// early; none if it is the right one.
pub fn first_other(text: &[u8], right: &[u8]) -> Option<u32>
    requires { length text.now < 2 ^ 31 }
    ensures is { MatchOption result (text.now ≡ right.now) (IsFirstOther text.now right.now) }
    ensures within { IfSome result (λ k. k ≤ length text.now + 1) }
{
    let mut text_left = text;
    let mut right_left = right;
    let mut number = 1;
    while !text_left.is_empty() {
        let (line, behind) = first_line(text_left);
        let (right_line, right_behind) = first_line(right_left);
        if !is_same(line, right_line) {
            return Some(number);
        }
        number += 1;
        text_left = behind;
        right_left = right_behind;
    }
    if right_left.is_empty() {
        None
    } else {
        Some(number)
    }
}
