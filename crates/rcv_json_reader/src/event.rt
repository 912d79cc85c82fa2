// The events that values say.

ghost use Rattle.std.specs.Prelude.{◌≡◌, ◌≤◌, ℕ, length, map, IfSome, IfNone};
ghost use Rattle.serde_json.specs.View.{view};
ghost use Rattle.rcv_tree.specs.declared.event.Event.{Event};
ghost use Rattle.rcv_tree.specs.declared.entry.Entry.TheVariants.{Send, Recv};
ghost use Rattle.rcv_session.specs.Session.{net_for};
ghost use Rattle.rcv_journal.specs.Recorded.{bare};
ghost use Rattle.rcv_journal.specs.Json.{count, list_of};
ghost use Rattle.rcv_json_reader.specs.Parts.{SaysEntry, SaysEvent};

use crate::leaves::{count, is_text, role, signed};
use rcv_accept::accepted::Accepted;
use rcv_tree::event::{Dir, Event};
use rcv_tree::point::Point;
use serde_json::Value;

// How many points there are.
fn points(accepted: &Accepted) -> u16
    ensures { result ≡ (net_for (bare accepted.now.protocol)).count }
{
    accepted.points().count()
}

// The label of the point.
fn label(accepted: &Accepted, point: Point) -> &[u8]
    requires first { 1 ≤ point }
    requires last { point ≤ (net_for (bare accepted.now.protocol)).count }
    ensures { result.now ≡ (net_for (bare accepted.now.protocol)).label point }
{
    // Tells the proof that the protocol is accepted.
    let _protocol = accepted.protocol();
    accepted.points().label(point)
}

// The point whose number the value is.
fn point(accepted: &Accepted, value: &Value) -> Option<Point>
    ensures first { IfSome result (λ p. 1 ≤ p) }
    ensures last { IfSome result (λ p. p ≤ (net_for (bare accepted.now.protocol)).count) }
    ensures some { IfSome result (λ p. view value.now ≡ count p) }
    ensures none { IfNone result ((p : ℕ) → 1 ≤ p → p ≤ (net_for (bare accepted.now.protocol)).count
        → view value.now ≡ count p → ⊥) }
{
    let number = count(value)?;
    if number == 0 || number > points(accepted) as u64 {
        return None;
    }
    Some(Point(number as u16))
}

// What an event's list says, value by value.
#[derive(Drop)]
struct Said<'a> {
    role: &'a Value,
    point: &'a Value,
    label: &'a Value,
    value: &'a Value,
    stamp: &'a Value,
    sent: &'a Value,
}

// The event that these values say.
fn event(accepted: &Accepted, dir: Dir, said: &Said<'_>) -> Option<Event>
    ensures some { IfSome result (SaysEvent (bare accepted.now.protocol) dir said.now) }
    ensures none { IfNone result ((e : Event) → SaysEvent (bare accepted.now.protocol) dir said.now e → ⊥) }
{
    let role = role(accepted.protocol(), said.role)?;
    let point = point(accepted, said.point)?;
    if !is_text(said.label, label(accepted, point)) {
        return None;
    }
    Some(Event {
        role,
        dir,
        point,
        value: signed(said.value)?,
        stamp: count(said.stamp)?,
        sent: count(said.sent)?,
    })
}

// What a Send of six parts says.
pub(crate) fn send(accepted: &Accepted, parts: &[Value]) -> Option<Event>
    requires { length parts.now ≡ 6 }
    ensures some { IfSome result (λ e. SaysEntry (bare accepted.now.protocol) (list_of (map view parts.now)) (Send e)) }
    ensures none { IfNone result ((e : Event)
        → SaysEntry (bare accepted.now.protocol) (list_of (map view parts.now)) (Send e) → ⊥) }
{
    if !is_text(&parts[0], b"send") {
        return None;
    }
    let said = Said {
        role: &parts[1],
        point: &parts[2],
        label: &parts[3],
        value: &parts[4],
        stamp: &parts[5],
        sent: &parts[5],
    };
    event(accepted, Dir::Sent, &said)
}

// What a Recv of seven parts says.
pub(crate) fn recv(accepted: &Accepted, parts: &[Value]) -> Option<Event>
    requires { length parts.now ≡ 7 }
    ensures some { IfSome result (λ e. SaysEntry (bare accepted.now.protocol) (list_of (map view parts.now)) (Recv e)) }
    ensures none { IfNone result ((e : Event)
        → SaysEntry (bare accepted.now.protocol) (list_of (map view parts.now)) (Recv e) → ⊥) }
{
    if !is_text(&parts[0], b"recv") {
        return None;
    }
    let said = Said {
        role: &parts[1],
        point: &parts[2],
        label: &parts[3],
        value: &parts[4],
        stamp: &parts[5],
        sent: &parts[6],
    };
    event(accepted, Dir::Got, &said)
}
