// What a line is answered.

use crate::few::Kept;
use crate::line::{Again, Flight};
use crate::wrong::Wrong;
use rcv_tree::event::Message;
use rcv_tree::point::Point;
use rcv_tree::role::RoleId;

/// What is next for a role: points that it sends, points that it receives, or nothing.
#[derive(Clone, Copy)]
pub enum Turn<'a> {
    Sends(&'a [Point]),
    Receives(&'a [Point]),
    Over,
}

/// What a recovery takes back: how many events are undone, and how many each concerned role keeps, in order.
#[derive(Clone, Copy)]
pub struct Undone<'a> {
    pub undone: u64,
    pub kept: &'a [Kept],
}

/// A role goes back to the state after its `count`-th event, and has this incarnation from then on.
#[derive(Clone, Copy)]
pub struct Back {
    pub role: RoleId,
    pub count: u64,
    pub incarnation: u64,
}

/// Whether a role is at its end, waits, or is down.
#[derive(Clone, Copy)]
pub enum State {
    Done,
    Waits,
    Down,
}

/// Where a role is: how many events it keeps, and how many it ever made.
#[derive(Clone, Copy)]
pub struct RoleState {
    pub role: RoleId,
    pub kept: u64,
    pub raw: u64,
    pub state: State,
}

/// Why a line may not come.
#[derive(Clone, Copy)]
pub enum Cause<'a> {
    /// A line of a snapshot doesn't fit what was told before it.
    Again,
    /// It is told in an incarnation that isn't there yet.
    Incarnation(u64),
    Down,
    Up,
    Turn(Turn<'a>),
    /// No message lies in the channel.
    Empty,
    /// Another message is in front.
    Front(Message),
    Stamp(u64),
    Count(u64),
    Host,
    /// So many events of the role are stable.
    Line(Kept),
    Recovery(Undone<'a>),
}

/// Which old news a line is.
#[derive(Clone, Copy)]
pub enum Stale {
    /// It is told in an older incarnation: now it is this one.
    Incarnation(u64),
    Message,
}

/// An answer.
#[derive(Clone, Copy)]
pub enum Answer<'a> {
    Done,
    Sent(u64),
    Received {
        stamp: u64,
        sent: u64,
    },
    /// A recovery: what it takes back, which roles go back, and what is in flight to these.
    Recovered {
        undone: Undone<'a>,
        back: &'a [Back],
        flight: &'a [Flight],
    },
    Illegal(Cause<'a>),
    Stale(Stale),
    Long,
    Wrong(Wrong),
    Memory,
    Next {
        role: RoleId,
        turn: Turn<'a>,
    },
    NextDown(RoleId),
    /// How many events each role keeps, in order.
    Kept(&'a [Kept]),
    /// How many of them are stable, in order.
    Line(&'a [Kept]),
    Role {
        role: RoleState,
        incarnation: u64,
    },
    Flight(&'a [Flight]),
    /// All points of the text.
    Points,
    /// So many lines, which have this text.
    Table {
        lines: u64,
        text: &'a [u8],
    },
    /// The lines that restore the session.
    Snapshot(&'a [Again]),
    /// Where the roles are at the end.
    End(&'a [RoleState]),
}
