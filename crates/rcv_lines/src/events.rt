// Fields that say events.

ghost use Rattle.std.specs.Prelude.{◌≡◌, ◌<◌, ◌≤◌, ◌^◌, ◌∷◌, ℕ, [], codes, decimal, IfSome, IfNone};
ghost use Rattle.rcv_tree.specs.declared.event.Event.{Event};
ghost use Rattle.rcv_tree.specs.declared.event.Dir.TheVariants.{Sent, Got};
ghost use Rattle.rcv_session.specs.Session.{net_for};
ghost use Rattle.rcv_journal.specs.Form.{IsFormedEvent};
ghost use Rattle.rcv_journal.specs.Recorded.{bare};
ghost use Rattle.rcv_lines.specs.Cutting.{texts};
ghost use Rattle.rcv_lines.specs.Events.{SaysEvent};
ghost use Rattle.rcv_lines.specs.Fields.{event_fields, SayNoEvent, SayNoRecv};

use crate::names::role;
use crate::numbers::{is_same, marked_number, short_number, signed_number};
use rcv_accept::accepted::Accepted;
use rcv_tree::event::{Dir, Event};
use rcv_tree::point::Point;

// How many points there are.
fn count(accepted: &Accepted) -> u16
    ensures value { result ≡ (net_for (bare accepted.now.protocol)).count }
    ensures fits { (net_for (bare accepted.now.protocol)).count < 2 ^ 16 }
{
    // Tells the proof that the protocol is accepted.
    let _protocol = accepted.protocol();
    accepted.points().count()
}

// The label of the point.
fn label(accepted: &Accepted, point: Point) -> &[u8]
    requires first { 1 ≤ point }
    requires last { point ≤ (net_for (bare accepted.now.protocol)).count }
    ensures { result.now ≡ (net_for (bare accepted.now.protocol)).label point }
{
    // Tells the proof that the protocol is accepted.
    let _protocol = accepted.protocol();
    accepted.points().label(point)
}

// The point of this number, if there are so many.
fn point_within(number: u32, count: u16) -> Option<Point>
    ensures first { IfSome result (λ p. 1 ≤ p) }
    ensures last { IfSome result (λ p. p ≤ count) }
    ensures some { IfSome result (λ p. (p ≡ number) × (number < 2 ^ 32)) }
    ensures none { IfNone result ((number < 2 ^ 32) × (1 ≤ number → number ≤ count → ⊥)) }
{
    if number == 0 {
        return None;
    }
    if number > count as u32 {
        return None;
    }
    Some(Point(number as u16))
}

// The point whose number the field is.
fn point(accepted: &Accepted, field: &[u8]) -> Option<Point>
    ensures first { IfSome result (λ p. 1 ≤ p) }
    ensures last { IfSome result (λ p. p ≤ (net_for (bare accepted.now.protocol)).count) }
    ensures some { IfSome result (λ p. field.now ≡ decimal p) }
    ensures only { IfSome result (λ p. (q : ℕ) → q ≤ (net_for (bare accepted.now.protocol)).count
        → field.now ≡ decimal q → q ≡ p) }
    ensures none { IfNone result ((p : ℕ) → 1 ≤ p → p ≤ (net_for (bare accepted.now.protocol)).count
        → field.now ≡ decimal p → ⊥) }
{
    let count = count(accepted);
    let number = short_number(field)?;
    point_within(number, count)
}

// The event that these fields say. Its own stamp is this one, and so is that of its Send.
fn event_of(
    accepted: &Accepted,
    dir: Dir,
    of: &[u8],
    at: &[u8],
    named: &[u8],
    value: &[u8],
    stamp: u64,
) -> Option<Event>
    ensures formed { IfSome result (λ e. IsFormedEvent (bare accepted.now.protocol) dir e) }
    ensures says { IfSome result (λ e. SaysEvent (bare accepted.now.protocol) e of.now at.now named.now value.now) }
    ensures stamp { IfSome result (λ e. e.stamp ≡ stamp) }
    ensures sent { IfSome result (λ e. e.sent ≡ stamp) }
    ensures none { IfNone result ((e : Event) → IsFormedEvent (bare accepted.now.protocol) dir e
        → SaysEvent (bare accepted.now.protocol) e of.now at.now named.now value.now → ⊥) }
{
    let role = role(&accepted.protocol().roles, of)?;
    let point = point(accepted, at)?;
    if !is_same(named, label(accepted, point)) {
        return None;
    }
    Some(Event {
        role,
        dir,
        point,
        value: signed_number(value)?,
        stamp,
        sent: stamp,
    })
}

// The event that the six fields say. The first field is its kind. It is a Send, or a Recv without the stamp of its
// Send.
fn event(accepted: &Accepted, dir: Dir, kind: &[u8], fields: &[&[u8]]) -> Option<Event>
    ensures formed { IfSome result (λ e. IsFormedEvent (bare accepted.now.protocol) dir e) }
    ensures sent { IfSome result (λ e. e.sent ≡ e.stamp) }
    ensures some { IfSome result (λ e. texts fields.now ≡ event_fields (bare accepted.now.protocol) kind.now e []) }
    ensures none { IfNone result (SayNoEvent (bare accepted.now.protocol) dir kind.now (texts fields.now)) }
{
    if fields.len() != 6 {
        return None;
    }
    if !is_same(fields[0], kind) {
        return None;
    }
    let stamp = marked_number(b'@', fields[5])?;
    event_of(
        accepted, dir, fields[1], fields[2], fields[3], fields[4], stamp,
    )
}

// The Send that the fields say.
pub fn send(accepted: &Accepted, fields: &[&[u8]]) -> Option<Event>
    ensures formed { IfSome result (λ e. IsFormedEvent (bare accepted.now.protocol) Sent e) }
    ensures sent { IfSome result (λ e. e.sent ≡ e.stamp) }
    ensures some { IfSome result (λ e. texts fields.now
        ≡ event_fields (bare accepted.now.protocol) (codes "send") e []) }
    ensures none { IfNone result (SayNoEvent (bare accepted.now.protocol) Sent (codes "send") (texts fields.now)) }
{
    event(accepted, Dir::Sent, b"send", fields)
}

// The Recv that the fields say.
pub fn recv(accepted: &Accepted, fields: &[&[u8]]) -> Option<Event>
    ensures formed { IfSome result (λ e. IsFormedEvent (bare accepted.now.protocol) Got e) }
    ensures some { IfSome result (λ e. texts fields.now
        ≡ event_fields (bare accepted.now.protocol) (codes "recv") e ((60 ∷ decimal e.sent) ∷ [])) }
    ensures none { IfNone result (SayNoRecv (bare accepted.now.protocol) (texts fields.now)) }
{
    let (last, front) = fields.split_last()?;
    let sent = marked_number(b'<', last)?;
    let event = event(accepted, Dir::Got, b"recv", front)?;
    Some(Event { sent, ..event })
}
