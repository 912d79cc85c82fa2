// Words that name roles, points and messages.

ghost use Rattle.std.specs.Prelude.{◌≡◌, ◌<◌, ◌≤◌, length, IfOk, IfSome};
ghost use Rattle.rcv_tree.specs.Names.{place_of};
ghost use Rattle.rcv_accept.specs.Accepted.{net_for, roles_of};
ghost use Rattle.rcv_dialogue.specs.Names.{role_in, point_said};
ghost use Rattle.rcv_dialogue.specs.Left.{left};
ghost use Rattle.rcv_dialogue.specs.Reading.{Gives, role_at, point_at, value_at, message_at};
ghost use Rattle.rcv_dialogue.specs.Reading.{number_at, marked_at, optional_at, literal_at};

use crate::numbers::{is_same, marked_number, number, signed_number};
use crate::words::{Misfit, begins, take, wrong};
use crate::wrong::Expected;
use rcv_accept::accepted::Accepted;
use rcv_tree::name::Names;
use rcv_tree::point::Point;
use rcv_tree::role::RoleId;

// The role whose name the word is.
fn role_named(names: &Names, word: &[u8]) -> Option<RoleId>
    requires { length names.now ≤ 8 }
    ensures { result ≡ place_of names.now word.now }
{
    let place = names.place_of(word)?;
    Some(RoleId(place as u8))
}

/// The role whose name the word is.
pub fn role_of(accepted: &Accepted, word: &[u8]) -> Option<RoleId>
    ensures { result ≡ role_in accepted.now word.now }
{
    role_named(&accepted.protocol().roles, word)
}

/// How many roles there are.
pub fn role_count(accepted: &Accepted) -> usize
    ensures value { result ≡ roles_of accepted.now }
    ensures few { result ≤ 8 }
{
    accepted.protocol().roles.as_slice().len()
}

/// How many points there are.
pub fn count(accepted: &Accepted) -> u16
    ensures value { result ≡ (net_for accepted.now).count }
{
    // Tells the proof that the protocol is accepted.
    let _protocol = accepted.protocol();
    accepted.points().count()
}

/// The label of the point.
pub fn label(accepted: &Accepted, point: Point) -> &[u8]
    requires first { 1 ≤ point }
    requires last { point ≤ (net_for accepted.now).count }
    ensures { result.now ≡ (net_for accepted.now).label point }
{
    // Tells the proof that the protocol is accepted.
    let _protocol = accepted.protocol();
    accepted.points().label(point)
}

// The point whose number the word is.
fn point_of(accepted: &Accepted, word: &[u8]) -> Option<Point>
    ensures value { result ≡ point_said accepted.now word.now }
    ensures first { IfSome result (λ p. 1 ≤ p) }
    ensures last { IfSome result (λ p. p ≤ (net_for accepted.now).count) }
{
    let number = number(word)?;
    if number < 1 || number > count(accepted) as u64 {
        return None;
    }
    Some(Point(number as u16))
}

/// The number of a role, and the words after it.
#[tactic(auto, unfolding(crate::specs::Reading::role_at))]
pub fn role<'a>(accepted: &Accepted, words: &'a [u8]) -> Result<(u8, &'a [u8]), Misfit>
    ensures { Gives (λ x. (x.0, left x.1.now)) result (role_at accepted.now (left words.now)) }
{
    let (word, rest) = take(words, Expected::Role)?;
    match role_of(accepted, word) {
        Some(role) => Ok((role.0, rest)),
        None => Err(wrong(words, Expected::Role)),
    }
}

// The number of a point, and the words after it.
#[tactic(auto, unfolding(crate::specs::Reading::point_at))]
fn point<'a>(accepted: &Accepted, words: &'a [u8]) -> Result<(u16, &'a [u8]), Misfit>
    ensures value { Gives (λ x. (x.0, left x.1.now)) result (point_at accepted.now (left words.now)) }
    ensures first { IfOk result (λ x. 1 ≤ x.0) }
    ensures last { IfOk result (λ x. x.0 ≤ (net_for accepted.now).count) }
{
    let (word, rest) = take(words, Expected::Point)?;
    match point_of(accepted, word) {
        Some(point) => Ok((point.0, rest)),
        None => Err(wrong(words, Expected::Point)),
    }
}

/// A word that is expected here.
#[tactic(auto, unfolding(crate::specs::Reading::literal_at))]
pub fn literal<'a>(text: &[u8], expected: Expected, words: &'a [u8]) -> Result<&'a [u8], Misfit>
    ensures { Gives (λ x. left x.now) result (literal_at text.now expected (left words.now)) }
{
    let (word, rest) = take(words, expected)?;
    if is_same(word, text) {
        Ok(rest)
    } else {
        Err(wrong(words, expected))
    }
}

// A value, and the words after it.
#[tactic(auto, unfolding(crate::specs::Reading::value_at))]
fn value(words: &[u8]) -> Result<(i64, &[u8]), Misfit>
    ensures { Gives (λ x. (x.0, left x.1.now)) result (value_at (left words.now)) }
{
    let (word, rest) = take(words, Expected::Value)?;
    match signed_number(word) {
        Some(value) => Ok((value, rest)),
        None => Err(wrong(words, Expected::Value)),
    }
}

/// A point with its label, and a value.
#[tactic(auto, unfolding(crate::specs::Reading::message_at))]
pub fn message<'a>(accepted: &Accepted, words: &'a [u8]) -> Result<(u16, i64, &'a [u8]), Misfit>
    ensures { Gives (λ x. (x.0, x.1, left x.2.now)) result (message_at accepted.now (left words.now)) }
{
    let (point, words) = point(accepted, words)?;
    let words = literal(label(accepted, Point(point)), Expected::Label, words)?;
    let (value, words) = value(words)?;
    Ok((point, value, words))
}

/// A number, which is expected as this, and the words after it.
#[tactic(auto, unfolding(crate::specs::Reading::number_at))]
pub fn counted(expected: Expected, words: &[u8]) -> Result<(u64, &[u8]), Misfit>
    ensures value { Gives (λ x. (x.0, left x.1.now)) result (number_at expected (left words.now)) }
    ensures shorter { IfOk result (λ x. length x.1.now < length words.now) }
{
    let (word, rest) = take(words, expected)?;
    match number(word) {
        Some(number) => Ok((number, rest)),
        None => Err(wrong(words, expected)),
    }
}

/// A number with a mark in front.
#[tactic(auto, unfolding(crate::specs::Reading::marked_at))]
pub fn marked(mark: u8, expected: Expected, words: &[u8]) -> Result<(u64, &[u8]), Misfit>
    ensures { Gives (λ x. (x.0, left x.1.now)) result (marked_at mark expected (left words.now)) }
{
    let (word, rest) = take(words, expected)?;
    match marked_number(mark, word) {
        Some(number) => Ok((number, rest)),
        None => Err(wrong(words, expected)),
    }
}

/// The same, if a word with this mark is next; else none.
#[tactic(auto, unfolding(crate::specs::Reading::optional_at))]
pub fn optional(mark: u8, expected: Expected, words: &[u8]) -> Result<(Option<u64>, &[u8]), Misfit>
    ensures { Gives (λ x. (x.0, left x.1.now)) result (optional_at mark expected (left words.now)) }
{
    if !begins(words, mark) {
        return Ok((None, words));
    }
    let (number, words) = marked(mark, expected, words)?;
    Ok((Some(number), words))
}
