// Events that a session is told as numbers.

ghost use Rattle.std.specs.Prelude.{◌≡◌, ◌≤◌, ◌↔◌, IsTrue, FitsSigned};
ghost use mir.Syntax.{w64};
ghost use Rattle.rcv_dialogue.specs.Lines.{IsRole, Fits, MayFit};
ghost use Rattle.rcv_dialogue.specs.declared.line.Line.TheVariants as line;
ghost use Rattle.rcv_c.specs.Status.{Ends};
ghost use Rattle.rcv_c.specs.Telling.{TellsEvent, TellsSave, IsPointOf, number_given, send_of, recv_of, save_of, status_of, stamp_over};

use crate::session::Session;
use crate::status::Status;
use rcv_accept::accepted::Accepted;
use rcv_dialogue::line::{ToldRecv, ToldSave, ToldSend};
use rcv_guided::typed::Heard;
use rcv_tree::point::Point;
use rcv_tree::role::RoleId;
use std::alloc::Global;

// The number that C gives, if it gives one.
fn number_given(number: u64) -> Option<u64>
    ensures value { result ≡ number_given number }
    ensures fits { MayFit result }
{
    if number == 18446744073709551615 {
        None
    } else {
        Some(number)
    }
}

// Whether a role is declared.
fn has_role(accepted: &Accepted, role: RoleId) -> bool
    ensures { IsTrue result ↔ IsRole accepted.now role }
{
    role.0 < accepted.roles()
}

// Whether a role is declared, and a point stands in the text.
fn has_both(accepted: &Accepted, role: RoleId, point: Point) -> bool
    ensures { IsTrue result ↔ (IsRole accepted.now role × IsPointOf accepted.now point) }
{
    // Tells the proof that the protocol is accepted.
    let _protocol = accepted.protocol();
    has_role(accepted, role) && 1 <= point.0 && point.0 <= accepted.points().count()
}

// How a call ends that heard this. If the event was taken, its stamp is written.
fn status_of(heard: Heard, stamp: &mut u64) -> Status
    ensures status { result ≡ status_of heard }
    ensures stamp { stamp.new ≡ stamp_over stamp.old heard }
{
    match heard {
        Heard::Done(number) => {
            *stamp = number;
            Status::Done
        }
        Heard::Illegal => Status::Illegal,
        Heard::Stale => Status::Stale,
        Heard::Memory => Status::Memory,
    }
}

// Tells a send.
fn send(alloc: Global, session: &mut Session, told: &ToldSend, stamp: &mut u64) -> Status
    requires value { FitsSigned w64 told.now.value }
    requires stamp { MayFit told.now.stamp }
    requires incarnation { MayFit told.now.incarnation }
    ensures { TellsEvent (line.Send told.now) session.old.handle.value session.new.handle.value stamp.old stamp.new result }
{
    let Some(mut held) = session.take(alloc) else {
        return Status::Closed;
    };
    if !has_both(held.session.accepted(), told.role, told.point) {
        session.hold(held);
        return Status::Range;
    }
    let heard = held.session.tell_send(alloc, told);
    session.hold(held);
    status_of(heard, stamp)
}

// Tells a receipt.
fn receive(alloc: Global, session: &mut Session, told: &ToldRecv, stamp: &mut u64) -> Status
    requires value { FitsSigned w64 told.now.value }
    requires stamp { MayFit told.now.stamp }
    requires sent { MayFit told.now.sent }
    requires incarnation { MayFit told.now.incarnation }
    ensures { TellsEvent (line.Recv told.now) session.old.handle.value session.new.handle.value stamp.old stamp.new result }
{
    let Some(mut held) = session.take(alloc) else {
        return Status::Closed;
    };
    if !has_both(held.session.accepted(), told.role, told.point) {
        session.hold(held);
        return Status::Range;
    }
    let heard = held.session.tell_receipt(alloc, told);
    session.hold(held);
    status_of(heard, stamp)
}

// Tells a save.
fn save(alloc: Global, session: &mut Session, told: &ToldSave) -> Status
    requires count { Fits told.now.count }
    requires incarnation { MayFit told.now.incarnation }
    ensures { TellsSave (line.Save told.now) session.old.handle.value session.new.handle.value result }
{
    let Some(mut held) = session.take(alloc) else {
        return Status::Closed;
    };
    if !has_role(held.session.accepted(), told.role) {
        session.hold(held);
        return Status::Range;
    }
    let heard = held.session.tell_save(told);
    session.hold(held);
    status_of(heard, &mut 0)
}

/// Tells a session that a role sends `value` at a point, as the line `send` does, with `#INC` unless `incarnation` is
/// 2^64 - 1. `RCV_DONE` if it is taken: `stamp` goes with the message. In these cases nothing has changed:
/// `RCV_ILLEGAL` if it may not come, `RCV_STALE` if it is old news, `RCV_MEMORY` if no memory was left, `RCV_RANGE` if
/// the role or the point isn't declared. `RCV_CLOSED` if the session is closed.
#[unsafe(no_mangle)]
pub extern "C" fn rcv_raw_sent(
    alloc: Global,
    session: &mut Session,
    role: u8,
    point: u16,
    value: i64,
    incarnation: u64,
    stamp: &mut u64,
) -> u8
    ensures { Ends result (TellsEvent (send_of role point value incarnation)
        session.old.handle.value session.new.handle.value stamp.old stamp.new) }
{
    let told = ToldSend {
        role: RoleId(role),
        point: Point(point),
        value,
        stamp: None,
        incarnation: number_given(incarnation),
    };
    send(alloc, session, &told, stamp).number()
}

/// Tells a session that a role receives `value` at a point, as the line `recv` does, with `<SENT` unless `sent` is
/// 2^64 - 1, and with `#INC` unless `incarnation` is. It ends as `rcv_raw_sent`; `stamp` is that of the receipt.
#[unsafe(no_mangle)]
pub extern "C" fn rcv_raw_received(
    alloc: Global,
    session: &mut Session,
    role: u8,
    point: u16,
    value: i64,
    sent: u64,
    incarnation: u64,
    stamp: &mut u64,
) -> u8
    ensures { Ends result (TellsEvent (recv_of role point value sent incarnation)
        session.old.handle.value session.new.handle.value stamp.old stamp.new) }
{
    let told = ToldRecv {
        role: RoleId(role),
        point: Point(point),
        value,
        stamp: None,
        sent: number_given(sent),
        incarnation: number_given(incarnation),
    };
    receive(alloc, session, &told, stamp).number()
}

/// Tells a session that a role has saved its state after its `count`-th event, as the line `save` does, with `#INC`
/// unless `incarnation` is 2^64 - 1. It ends as `rcv_raw_sent`.
#[unsafe(no_mangle)]
pub extern "C" fn rcv_raw_saved(
    alloc: Global,
    session: &mut Session,
    role: u8,
    count: u64,
    incarnation: u64,
) -> u8
    ensures { Ends result (TellsSave (save_of role count incarnation) session.old.handle.value session.new.handle.value) }
{
    let told = ToldSave {
        role: RoleId(role),
        count,
        incarnation: number_given(incarnation),
    };
    save(alloc, session, &told).number()
}
