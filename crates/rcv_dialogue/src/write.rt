// Answers, written to their bytes.

ghost use Rattle.std.specs.Prelude.{◌≡◌, ◌<◌, ◌^◌, ◌+◌, ◌++◌, All, flat_map, length, codes, decimal, OnOk};
ghost use Rattle.std.specs.List.{list_all, range_with_len};
ghost use Rattle.rcv_accept.specs.Accepted.{net_for};
ghost use Rattle.rcv_dialogue.specs.Lines.{IsRole};
ghost use Rattle.rcv_dialogue.specs.Answers.{named_text, number_text, count_text, counts_text, undone_text, turn_text};
ghost use Rattle.rcv_dialogue.specs.Answers.{message_text, cause_text, stale_text, expected_text, state_text, role_text};
ghost use Rattle.rcv_dialogue.specs.Answers.{back_line, flight_line, ends_text, point_line, role_line, is_done, end_line, more_text, unread_text};
ghost use Rattle.rcv_dialogue.specs.Answers.{answer_text, HasRole, IsDeclared, HasEnds, NamesInCause, IsNamed};

use crate::answer::{Answer, Back, Cause, RoleState, Stale, State, Turn, Undone};
use crate::few::Kept;
use crate::line::Flight;
use crate::said::{count, label};
use crate::snapshot::write_snapshot;
use crate::wrong::{Expected, LineError, Wrong};
use rcv_accept::accepted::Accepted;
use rcv_text::writer::Writer;
use rcv_tree::event::Message;
use rcv_tree::point::Point;
use rcv_tree::role::RoleId;
use std::alloc::AllocError;

/// A space, and the name of a role.
pub fn named(text: &mut Writer, accepted: &Accepted, role: RoleId) -> Result<(), AllocError>
    requires { IsRole accepted.now role }
    ensures { OnOk result (text.new ≡ text.old ++ named_text accepted.now role) }
{
    text.word(b" ")?;
    text.word(accepted.protocol().roles.name(role))
}

/// A space, and a number.
pub fn numbered(text: &mut Writer, number: u64) -> Result<(), AllocError>
    ensures { OnOk result (text.new ≡ text.old ++ number_text number) }
{
    text.word(b" ")?;
    text.large_number(number)
}

// ` ROLE COUNT`
fn counted(text: &mut Writer, accepted: &Accepted, kept: &Kept) -> Result<(), AllocError>
    requires { HasRole accepted.now kept.now }
    ensures { OnOk result (text.new ≡ text.old ++ count_text accepted.now kept.now) }
{
    named(text, accepted, kept.role)?;
    numbered(text, kept.count)
}

// ` ROLE COUNT ROLE COUNT ..`
fn counts(text: &mut Writer, accepted: &Accepted, kept: &[Kept]) -> Result<(), AllocError>
    requires { All (HasRole accepted.now) kept.now }
    ensures { OnOk result (text.new ≡ text.old ++ counts_text accepted.now kept.now) }
{
    for role in kept {
        counted(text, accepted, role)?;
    }
    Ok(())
}

// ` undone N: ROLE COUNT ..`
fn undone(text: &mut Writer, accepted: &Accepted, undone: &Undone<'_>) -> Result<(), AllocError>
    requires { All (HasRole accepted.now) undone.now.kept.now }
    ensures { OnOk result (text.new ≡ text.old ++ undone_text accepted.now undone.now) }
{
    text.word(b" undone ")?;
    text.large_number(undone.undone)?;
    text.word(b":")?;
    counts(text, accepted, undone.kept)
}

// ` POINT POINT ..`
fn points(text: &mut Writer, points: &[Point]) -> Result<(), AllocError>
    ensures { OnOk result (text.new ≡ text.old ++ flat_map number_text points.now) }
{
    for point in points {
        numbered(text, point.0 as u64)?;
    }
    Ok(())
}

// What is next for a role.
fn turn(text: &mut Writer, turn: &Turn<'_>) -> Result<(), AllocError>
    ensures { OnOk result (text.new ≡ text.old ++ turn_text turn.now) }
{
    match turn {
        Turn::Sends(sends) => {
            text.word(b" sends")?;
            points(text, sends)
        }
        Turn::Receives(receives) => {
            text.word(b" receives")?;
            points(text, receives)
        }
        Turn::Over => text.word(b" over"),
    }
}

/// ` POINT LABEL VALUE @STAMP`
pub fn message(text: &mut Writer, accepted: &Accepted, message: &Message) -> Result<(), AllocError>
    requires { IsDeclared accepted.now message.now.point }
    ensures { OnOk result (text.new ≡ text.old ++ message_text accepted.now message.now) }
{
    numbered(text, message.point.0 as u64)?;
    text.word(b" ")?;
    text.word(label(accepted, message.point))?;
    text.word(b" ")?;
    text.signed_number(message.value)?;
    text.word(b" @")?;
    text.large_number(message.stamp)
}

// Why a line may not come.
fn cause(text: &mut Writer, accepted: &Accepted, why: &Cause<'_>) -> Result<(), AllocError>
    requires { NamesInCause accepted.now why.now }
    ensures { OnOk result (text.new ≡ text.old ++ cause_text accepted.now why.now) }
{
    match why {
        Cause::Again => text.word(b" again"),
        Cause::Incarnation(incarnation) => {
            text.word(b" incarnation ")?;
            text.large_number(*incarnation)
        }
        Cause::Down => text.word(b" down"),
        Cause::Up => text.word(b" up"),
        Cause::Turn(next) => {
            text.word(b" turn")?;
            turn(text, next)
        }
        Cause::Empty => text.word(b" front none"),
        Cause::Front(front) => {
            text.word(b" front")?;
            message(text, accepted, front)
        }
        Cause::Stamp(stamp) => {
            text.word(b" stamp ")?;
            text.large_number(*stamp)
        }
        Cause::Count(count) => {
            text.word(b" count ")?;
            text.large_number(*count)
        }
        Cause::Host => text.word(b" host"),
        Cause::Line(stable) => {
            text.word(b" line")?;
            counted(text, accepted, stable)
        }
        Cause::Recovery(right) => {
            text.word(b" recovery")?;
            undone(text, accepted, right)
        }
    }
}

// Which old news a line is.
fn stale(text: &mut Writer, which: Stale) -> Result<(), AllocError>
    ensures { OnOk result (text.new ≡ text.old ++ stale_text which) }
{
    match which {
        Stale::Incarnation(incarnation) => {
            text.word(b" incarnation ")?;
            text.large_number(incarnation)
        }
        Stale::Message => text.word(b" message"),
    }
}

// The word for what is expected somewhere.
fn expected_word(expected: Expected) -> &'static [u8]
    ensures { result.now ≡ expected_text expected }
{
    match expected {
        Expected::Line => b"line",
        Expected::Role => b"role",
        Expected::Point => b"point",
        Expected::Label => b"label",
        Expected::Value => b"value",
        Expected::Stamp => b"stamp",
        Expected::Sent => b"sent",
        Expected::Incarnation => b"incarnation",
        Expected::Count => b"count",
        Expected::Undone => b"undone",
        Expected::Again => b"again",
        Expected::Told => b"told",
        Expected::Room => b"room",
        Expected::Kept => b"kept",
        Expected::Raw => b"raw",
        Expected::At => b"at",
        Expected::Clock => b"clock",
        Expected::Attempt => b"attempt",
        Expected::Up => b"up",
        Expected::End => b"end",
    }
}

// `wrong K WORD`
fn wrong(text: &mut Writer, wrong: Wrong) -> Result<(), AllocError>
    ensures { OnOk result (text.new ≡ text.old ++ codes "wrong " ++ decimal wrong.word ++ codes " "
        ++ expected_text wrong.expected ++ codes "\n") }
{
    text.word(b"wrong ")?;
    text.number(wrong.word)?;
    text.word(b" ")?;
    text.word(expected_word(wrong.expected))?;
    text.word(b"\n")
}

// The word for the state of a role.
fn state_word(state: State) -> &'static [u8]
    ensures { result.now ≡ state_text state }
{
    match state {
        State::Done => b"done",
        State::Waits => b"waits",
        State::Down => b"down",
    }
}

// `role ROLE kept N raw N WORD`
fn role(text: &mut Writer, accepted: &Accepted, role: &RoleState) -> Result<(), AllocError>
    requires { IsRole accepted.now role.now.role }
    ensures { OnOk result (text.new ≡ text.old ++ role_text accepted.now role.now) }
{
    text.word(b"role")?;
    named(text, accepted, role.role)?;
    text.word(b" kept ")?;
    text.large_number(role.kept)?;
    text.word(b" raw ")?;
    text.large_number(role.raw)?;
    text.word(b" ")?;
    text.word(state_word(role.state))
}

// The line of one who goes back.
fn back(text: &mut Writer, accepted: &Accepted, back: &Back) -> Result<(), AllocError>
    requires { IsRole accepted.now back.now.role }
    ensures { OnOk result (text.new ≡ text.old ++ back_line accepted.now back.now) }
{
    text.word(b"back")?;
    named(text, accepted, back.role)?;
    numbered(text, back.count)?;
    text.word(b" #")?;
    text.large_number(back.incarnation)?;
    text.word(b"\n")
}

// The lines of those who go back.
fn backs(text: &mut Writer, accepted: &Accepted, backs: &[Back]) -> Result<(), AllocError>
    requires { All (λ b. IsRole accepted.now b.role) backs.now }
    ensures { OnOk result (text.new ≡ text.old ++ flat_map (back_line accepted.now) backs.now) }
{
    for one in backs {
        back(text, accepted, one)?;
    }
    Ok(())
}

// The line of a message that is in flight.
fn flight(text: &mut Writer, accepted: &Accepted, flight: &Flight) -> Result<(), AllocError>
    requires { HasEnds accepted.now flight.now }
    ensures { OnOk result (text.new ≡ text.old ++ flight_line accepted.now flight.now) }
{
    text.word(b"flight")?;
    named(text, accepted, flight.from)?;
    named(text, accepted, flight.to)?;
    message(text, accepted, &flight.message)?;
    text.word(b"\n")
}

// The lines of messages that are in flight.
fn flights(text: &mut Writer, accepted: &Accepted, flights: &[Flight]) -> Result<(), AllocError>
    requires { All (HasEnds accepted.now) flights.now }
    ensures { OnOk result (text.new ≡ text.old ++ flat_map (flight_line accepted.now) flights.now) }
{
    for one in flights {
        flight(text, accepted, one)?;
    }
    Ok(())
}

// The roles that send and receive at a point.
fn ends(text: &mut Writer, accepted: &Accepted, point: Point) -> Result<(), AllocError>
    requires { IsDeclared accepted.now point }
    ensures { OnOk result (text.new ≡ text.old ++ ends_text accepted.now point) }
{
    // Tells the proof that the protocol is accepted.
    let _protocol = accepted.protocol();
    named(text, accepted, accepted.points().sender(point))?;
    named(text, accepted, accepted.points().receiver(point))
}

// The line of a point.
fn point(text: &mut Writer, accepted: &Accepted, point: Point) -> Result<(), AllocError>
    requires { IsDeclared accepted.now point }
    ensures { OnOk result (text.new ≡ text.old ++ point_line accepted.now point) }
{
    // Tells the proof that the protocol is accepted.
    let _protocol = accepted.protocol();
    text.word(b"point")?;
    numbered(text, point.0 as u64)?;
    text.word(b" ")?;
    text.word(label(accepted, point))?;
    ends(text, accepted, point)?;
    text.word(b"\n")
}

// The lines of all points.
fn all_points(text: &mut Writer, accepted: &Accepted) -> Result<(), AllocError>
    ensures { OnOk result (text.new ≡ text.old
        ++ flat_map (point_line accepted.now) (range_with_len 1 (net_for accepted.now).count)) }
{
    // Tells the proof that the protocol is accepted.
    let _protocol = accepted.protocol();
    for before in 0..accepted.points().count() {
        point(text, accepted, Point(before + 1))?;
    }
    Ok(())
}

// The line of a role at the end.
fn role_at_end(text: &mut Writer, accepted: &Accepted, state: &RoleState) -> Result<(), AllocError>
    requires { IsRole accepted.now state.now.role }
    ensures { OnOk result (text.new ≡ text.old ++ role_line accepted.now state.now) }
{
    role(text, accepted, state)?;
    text.word(b"\n")
}

// The lines of the roles at the end.
fn roles(text: &mut Writer, accepted: &Accepted, roles: &[RoleState]) -> Result<(), AllocError>
    requires { All (λ s. IsRole accepted.now s.role) roles.now }
    ensures { OnOk result (text.new ≡ text.old ++ flat_map (role_line accepted.now) roles.now) }
{
    for state in roles {
        role_at_end(text, accepted, state)?;
    }
    Ok(())
}

// Whether a role is at its end.
fn is_done(state: State) -> bool
    ensures { result ≡ is_done state }
{
    matches!(state, State::Done)
}

// Whether all roles are at their end.
fn are_done(roles: &[RoleState]) -> bool
    ensures { result ≡ list_all (λ s. is_done s.state) roles.now }
{
    for role in roles {
        if !is_done(role.state) {
            return false;
        }
    }
    true
}

// The last line.
fn end(text: &mut Writer, roles: &[RoleState]) -> Result<(), AllocError>
    ensures { OnOk result (text.new ≡ text.old ++ end_line roles.now) }
{
    if are_done(roles) {
        text.word(b"completed\n")
    } else {
        text.word(b"open\n")
    }
}

// The end of a first line that so many lines follow.
fn more(text: &mut Writer, count: u64) -> Result<(), AllocError>
    ensures { OnOk result (text.new ≡ text.old ++ more_text count) }
{
    text.word(b" +")?;
    text.large_number(count)?;
    text.word(b"\n")
}

// The answer to a recovery.
fn recovered(
    text: &mut Writer,
    accepted: &Accepted,
    taken: &Undone<'_>,
    back: &[Back],
    flight: &[Flight],
) -> Result<(), AllocError>
    requires kept { All (HasRole accepted.now) taken.now.kept.now }
    requires back { All (λ b. IsRole accepted.now b.role) back.now }
    requires flight { All (HasEnds accepted.now) flight.now }
    requires few { length back.now + length flight.now < 2 ^ 64 }
    ensures { OnOk result (text.new ≡ text.old ++ codes "done" ++ undone_text accepted.now taken.now
        ++ more_text (length back.now + length flight.now)
        ++ flat_map (back_line accepted.now) back.now ++ flat_map (flight_line accepted.now) flight.now) }
{
    text.word(b"done")?;
    undone(text, accepted, taken)?;
    more(text, back.len() as u64 + flight.len() as u64)?;
    backs(text, accepted, back)?;
    flights(text, accepted, flight)
}

/// The text goes on with the answer to a line that isn't one of the dialogue. Fails if memory runs out.
pub fn write_unread(text: &mut Writer, error: LineError) -> Result<(), AllocError>
    ensures { OnOk result (text.new ≡ text.old ++ unread_text error) }
{
    match error {
        LineError::Long => text.word(b"wrong long\n"),
        LineError::Wrong(word) => wrong(text, word),
    }
}

/// The text goes on with an answer, which names declared roles and points. Fails if memory runs out.
pub fn write(text: &mut Writer, accepted: &Accepted, answer: &Answer<'_>) -> Result<(), AllocError>
    requires { IsNamed accepted.now answer.now }
    ensures { OnOk result (text.new ≡ text.old ++ answer_text accepted.now answer.now) }
{
    match answer {
        Answer::Done => text.word(b"done\n"),
        Answer::Sent(stamp) => {
            text.word(b"done @")?;
            text.large_number(*stamp)?;
            text.word(b"\n")
        }
        Answer::Received { stamp, sent } => {
            text.word(b"done @")?;
            text.large_number(*stamp)?;
            text.word(b" <")?;
            text.large_number(*sent)?;
            text.word(b"\n")
        }
        Answer::Recovered {
            undone,
            back,
            flight,
        } => recovered(text, accepted, undone, back, flight),
        Answer::Illegal(why) => {
            text.word(b"illegal")?;
            cause(text, accepted, why)?;
            text.word(b"\n")
        }
        Answer::Stale(which) => {
            text.word(b"stale")?;
            stale(text, *which)?;
            text.word(b"\n")
        }
        Answer::Long => write_unread(text, LineError::Long),
        Answer::Wrong(word) => write_unread(text, LineError::Wrong(*word)),
        Answer::Memory => text.word(b"memory\n"),
        Answer::Next { role, turn: next } => {
            text.word(b"next")?;
            named(text, accepted, *role)?;
            turn(text, next)?;
            text.word(b"\n")
        }
        Answer::NextDown(role) => {
            text.word(b"next")?;
            named(text, accepted, *role)?;
            text.word(b" down\n")
        }
        Answer::Kept(kept) => {
            text.word(b"kept")?;
            counts(text, accepted, kept)?;
            text.word(b"\n")
        }
        Answer::Line(stable) => {
            text.word(b"line")?;
            counts(text, accepted, stable)?;
            text.word(b"\n")
        }
        Answer::Role {
            role: state,
            incarnation,
        } => {
            role(text, accepted, state)?;
            text.word(b" #")?;
            text.large_number(*incarnation)?;
            text.word(b"\n")
        }
        Answer::Flight(flight) => {
            text.word(b"flight")?;
            more(text, flight.len() as u64)?;
            flights(text, accepted, flight)
        }
        Answer::Points => {
            text.word(b"points")?;
            more(text, count(accepted) as u64)?;
            all_points(text, accepted)
        }
        Answer::Table { lines, text: table } => {
            text.word(b"table")?;
            more(text, *lines)?;
            text.word(table)
        }
        Answer::Snapshot(lines) => {
            text.word(b"snapshot")?;
            more(text, lines.len() as u64)?;
            write_snapshot(text, accepted, lines)
        }
        Answer::End(states) => {
            text.word(b"end")?;
            more(text, states.len() as u64 + 1)?;
            roles(text, accepted, states)?;
            end(text, states)
        }
    }
}
