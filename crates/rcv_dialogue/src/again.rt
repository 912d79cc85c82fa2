// The lines of a snapshot.

ghost use Rattle.std.specs.Prelude.{◌≡◌};
ghost use Rattle.rcv_dialogue.specs.Names.{place_in};
ghost use Rattle.rcv_dialogue.specs.Left.{left};
ghost use Rattle.rcv_dialogue.specs.Reading.{Gives, place_at, down_at, named_at, extent_at, standing_at, again_flight_at};
ghost use Rattle.rcv_dialogue.specs.Reading.{again_send_at, again_recv_at, again_save_at, again_at, down_in};

use crate::kind::{AgainKind, again_of};
use crate::line::{Again, Extent, Flight, Line, ToldStanding};
use crate::numbers::{is_same, number};
use crate::said::{count, counted, literal, marked, message, role};
use crate::words::{Misfit, is_over, take, wrong};
use crate::wrong::Expected;
use rcv_accept::accepted::Accepted;
use rcv_tree::event::{Dir, Event, Message};
use rcv_tree::point::Point;
use rcv_tree::role::RoleId;

// The place that a word says: the number of a point, or 0.
fn place_of(accepted: &Accepted, word: &[u8]) -> Option<u16>
    ensures { result ≡ place_in accepted.now word.now }
{
    let number = number(word)?;
    if number > count(accepted) as u64 {
        return None;
    }
    Some(number as u16)
}

// A place, and the words after it.
#[tactic(auto, unfolding(crate::specs::Reading::place_at))]
fn place<'a>(accepted: &Accepted, words: &'a [u8]) -> Result<(u16, &'a [u8]), Misfit>
    ensures { Gives (λ x. (x.0, left x.1.now)) result (place_at accepted.now (left words.now)) }
{
    let (word, rest) = take(words, Expected::Point)?;
    match place_of(accepted, word) {
        Some(place) => Ok((place, rest)),
        None => Err(wrong(words, Expected::Point)),
    }
}

// Whether the word says that a role is down; none if it says neither that nor that the role is up.
fn is_down(word: &[u8]) -> Option<bool>
    ensures { result ≡ down_in word.now }
{
    if is_same(word, b"up") {
        return Some(false);
    }
    if is_same(word, b"down") {
        return Some(true);
    }
    None
}

// `up`, or `down`.
#[tactic(auto, unfolding(crate::specs::Reading::down_at))]
fn down(words: &[u8]) -> Result<(bool, &[u8]), Misfit>
    ensures { Gives (λ x. (x.0, left x.1.now)) result (down_at (left words.now)) }
{
    let (word, rest) = take(words, Expected::Up)?;
    match is_down(word) {
        Some(down) => Ok((down, rest)),
        None => Err(wrong(words, Expected::Up)),
    }
}

// A number after its name.
#[tactic(auto, unfolding(crate::specs::Reading::named_at))]
fn named<'a>(
    text: &[u8],
    name: Expected,
    expected: Expected,
    words: &'a [u8],
) -> Result<(u64, &'a [u8]), Misfit>
    ensures { Gives (λ x. (x.0, left x.1.now)) result (named_at text.now name expected (left words.now)) }
{
    let words = literal(text, name, words)?;
    counted(expected, words)
}

// `told COUNT room COUNT`
#[tactic(auto, unfolding(crate::specs::Reading::extent_at))]
fn extent(words: &[u8]) -> Result<Line, Misfit>
    ensures { Gives (λ line. line) result (extent_at (left words.now)) }
{
    let (told, words) = named(b"told", Expected::Told, Expected::Count, words)?;
    let (room, words) = named(b"room", Expected::Room, Expected::Count, words)?;
    if !is_over(words) {
        return Err(wrong(words, Expected::End));
    }
    Ok(Line::Again(Again::Session(Extent { told, room })))
}

// `ROLE kept COUNT raw COUNT at PLACE clock STAMP attempt COUNT up #INC`, or `down` for `up`
#[tactic(auto, unfolding(crate::specs::Reading::standing_at))]
fn standing(accepted: &Accepted, words: &[u8]) -> Result<Line, Misfit>
    ensures { Gives (λ line. line) result (standing_at accepted.now (left words.now)) }
{
    let (role, words) = role(accepted, words)?;
    let (kept, words) = named(b"kept", Expected::Kept, Expected::Count, words)?;
    let (raw, words) = named(b"raw", Expected::Raw, Expected::Count, words)?;
    let words = literal(b"at", Expected::At, words)?;
    let (place, words) = place(accepted, words)?;
    let (clock, words) = named(b"clock", Expected::Clock, Expected::Stamp, words)?;
    let (attempt, words) = named(b"attempt", Expected::Attempt, Expected::Count, words)?;
    let (down, words) = down(words)?;
    let (incarnation, words) = marked(b'#', Expected::Incarnation, words)?;
    if !is_over(words) {
        return Err(wrong(words, Expected::End));
    }
    Ok(Line::Again(Again::Role(ToldStanding {
        role: RoleId(role),
        kept,
        raw,
        place,
        clock,
        attempt,
        down,
        incarnation,
    })))
}

// `FROM TO POINT LABEL VALUE @STAMP`
#[tactic(auto, unfolding(crate::specs::Reading::again_flight_at))]
fn flight(accepted: &Accepted, words: &[u8]) -> Result<Line, Misfit>
    ensures { Gives (λ line. line) result (again_flight_at accepted.now (left words.now)) }
{
    let (from, words) = role(accepted, words)?;
    let (to, words) = role(accepted, words)?;
    let (point, value, words) = message(accepted, words)?;
    let (stamp, words) = marked(b'@', Expected::Stamp, words)?;
    if !is_over(words) {
        return Err(wrong(words, Expected::End));
    }
    Ok(Line::Again(Again::Flight(Flight {
        from: RoleId(from),
        to: RoleId(to),
        message: Message {
            point: Point(point),
            value,
            stamp,
        },
    })))
}

// `ROLE POINT LABEL VALUE @STAMP`
#[tactic(auto, unfolding(crate::specs::Reading::again_send_at))]
fn send(accepted: &Accepted, words: &[u8]) -> Result<Line, Misfit>
    ensures { Gives (λ line. line) result (again_send_at accepted.now (left words.now)) }
{
    let (role, words) = role(accepted, words)?;
    let (point, value, words) = message(accepted, words)?;
    let (stamp, words) = marked(b'@', Expected::Stamp, words)?;
    if !is_over(words) {
        return Err(wrong(words, Expected::End));
    }
    let event = Event::send(RoleId(role), Point(point), value, stamp);
    Ok(Line::Again(Again::Event(event)))
}

// `ROLE POINT LABEL VALUE @STAMP <SENT`
#[tactic(auto, unfolding(crate::specs::Reading::again_recv_at))]
fn recv(accepted: &Accepted, words: &[u8]) -> Result<Line, Misfit>
    ensures { Gives (λ line. line) result (again_recv_at accepted.now (left words.now)) }
{
    let (role, words) = role(accepted, words)?;
    let (point, value, words) = message(accepted, words)?;
    let (stamp, words) = marked(b'@', Expected::Stamp, words)?;
    let (sent, words) = marked(b'<', Expected::Sent, words)?;
    if !is_over(words) {
        return Err(wrong(words, Expected::End));
    }
    Ok(Line::Again(Again::Event(Event {
        role: RoleId(role),
        dir: Dir::Got,
        point: Point(point),
        value,
        stamp,
        sent,
    })))
}

// `ROLE COUNT`
#[tactic(auto, unfolding(crate::specs::Reading::again_save_at))]
fn save(accepted: &Accepted, words: &[u8]) -> Result<Line, Misfit>
    ensures { Gives (λ line. line) result (again_save_at accepted.now (left words.now)) }
{
    let (role, words) = role(accepted, words)?;
    let (count, words) = counted(Expected::Count, words)?;
    if !is_over(words) {
        return Err(wrong(words, Expected::End));
    }
    Ok(Line::Again(Again::Save {
        role: RoleId(role),
        count,
    }))
}

/// A line of a snapshot, after the word `again`.
#[tactic(auto, unfolding(crate::specs::Reading::again_at))]
pub fn again(accepted: &Accepted, words: &[u8]) -> Result<Line, Misfit>
    ensures { Gives (λ line. line) result (again_at accepted.now (left words.now)) }
{
    let (word, rest) = take(words, Expected::Again)?;
    let Some(kind) = again_of(word) else {
        return Err(wrong(words, Expected::Again));
    };
    match kind {
        AgainKind::Session => extent(rest),
        AgainKind::Role => standing(accepted, rest),
        AgainKind::Flight => flight(accepted, rest),
        AgainKind::Send => send(accepted, rest),
        AgainKind::Recv => recv(accepted, rest),
        AgainKind::Save => save(accepted, rest),
    }
}
