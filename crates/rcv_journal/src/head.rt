// How the events at one point begin, made once.

ghost use Rattle.std.specs.Prelude.{◌≡◌, ◌<◌, ◌≤◌, IfOk};
ghost use Rattle.rcv_session.specs.Session.{roles_of, net_for};
ghost use Rattle.rcv_journal.specs.Heads.{Begins, head_of, line_begun, AreHeads};

use crate::name::name_of;
use rcv_core::setup::Setup;
use rcv_text::writer::Writer;
use rcv_tree::point::Point;
use rcv_tree::role::RoleId;
use std::alloc::{AllocError, Global};
use std::marker::Model;

// Most beginnings have so many bytes at most.
const BEGINNING: usize = 32;

/// A way to write how an event begins, up to its value.
pub trait Beginning {
    /// The text: of an event of this kind, of a role, at a point.
    ghost begun: { Begins };

    /// Writes it, of a declared role and a point of the text. Fails if memory runs out.
    fn beginning(
        alloc: Global,
        setup: &Setup,
        kind: &str,
        role: RoleId,
        point: Point,
    ) -> Result<Vec<u8>, AllocError>
        requires declared { role < roles_of setup.now }
        requires first { 1 ≤ point }
        requires last { point ≤ (net_for setup.now).count }
        ensures { IfOk result (λ text. text.items ≡ begun setup.now kind.now role point) };
}

/// As the line of an event.
pub struct Line;

impl Beginning for Line {
    ghost begun = { line_begun };

    fn beginning(
        alloc: Global,
        setup: &Setup,
        kind: &str,
        role: RoleId,
        point: Point,
    ) -> Result<Vec<u8>, AllocError> {
        let mut text = Writer::with_room(alloc, BEGINNING)?;
        text.word(kind.as_bytes())?;
        text.byte(b' ')?;
        text.word(name_of(setup, role))?;
        text.byte(b' ')?;
        text.number(point.0)?;
        text.byte(b' ')?;
        text.word(setup.label(point))?;
        text.byte(b' ')?;
        Ok(text.finish())
    }
}

/// How a Send and a Recv at one point begin, up to the value.
#[derive(Drop)]
pub struct Head {
    pub send: Vec<u8>,
    pub recv: Vec<u8>,
}

impl Model for Head {
    ghost use Rattle.rcv_journal.specs.Heads.{HeadView};

    ghost Value = { HeadView };

    ghost view = { λ a. record { send = a.send.items; recv = a.recv.items } };
}

impl Head {
    // The head of a point of the text. Fails if memory runs out.
    fn of<B: Beginning>(alloc: Global, setup: &Setup, point: Point) -> Result<Head, AllocError>
        requires first { 1 ≤ point }
        requires last { point ≤ (net_for setup.now).count }
        ensures { IfOk result (λ head. head ≡ head_of B.begun setup.now point) }
    {
        // Tells the proof that the protocol is accepted, and so the ends of its points are declared.
        let _protocol = setup.protocol();
        Ok(Head {
            send: B::beginning(alloc, setup, "send", setup.sender(point), point)?,
            recv: B::beginning(alloc, setup, "recv", setup.receiver(point), point)?,
        })
    }
}

/// The heads of all points, in order, each written this way. Fails if memory runs out.
pub fn heads<B: Beginning>(alloc: Global, setup: &Setup) -> Result<Vec<Head>, AllocError>
    ensures { IfOk result (λ heads. AreHeads B.begun setup.now heads.items) }
{
    let mut heads = Vec::new(alloc);
    for number in 0..setup.points().count() {
        heads.push(Head::of::<B>(alloc, setup, Point(number + 1))?)?;
    }
    Ok(heads)
}
