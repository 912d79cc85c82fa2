// What a told line says.

use crate::few::{FailedRoles, KeptRoles};
use rcv_tree::event::{Event, Message};
use rcv_tree::point::Point;
use rcv_tree::role::RoleId;

/// A role sends a message: `send ROLE POINT LABEL VALUE [@STAMP] [#INC]`.
#[derive(Clone, Copy, Debug, PartialEq, Eq)]
pub struct ToldSend {
    pub role: RoleId,
    pub point: Point,
    pub value: i64,
    pub stamp: Option<u64>,
    pub incarnation: Option<u64>,
}

/// A role receives a message: `recv ROLE POINT LABEL VALUE [@STAMP] [<SENT] [#INC]`.
#[derive(Clone, Copy, Debug, PartialEq, Eq)]
pub struct ToldRecv {
    pub role: RoleId,
    pub point: Point,
    pub value: i64,
    pub stamp: Option<u64>,
    pub sent: Option<u64>,
    pub incarnation: Option<u64>,
}

/// A role has saved its state: `save ROLE COUNT [#INC]`.
#[derive(Clone, Copy, Debug, PartialEq, Eq)]
pub struct ToldSave {
    pub role: RoleId,
    pub count: u64,
    pub incarnation: Option<u64>,
}

/// What a recovery is said to take back: `undone N: ROLE COUNT ..`, in order of declaration.
#[derive(Drop)]
pub struct Stated {
    pub undone: u64,
    pub kept: KeptRoles,
}

/// The first of these roles, which is down, is started anew: `recover FAILED .. [undone N: ROLE COUNT ..]`.
#[derive(Drop)]
pub struct ToldRecovery {
    pub failed: FailedRoles,
    pub stated: Option<Stated>,
}

/// A question, which changes nothing.
#[derive(Clone, Copy, Debug, PartialEq, Eq)]
pub enum Question {
    Next(RoleId),
    Kept,
    Line,
    Role(RoleId),
    /// The messages that are in flight to this role, or to all.
    Flight(Option<RoleId>),
    Points,
    Table,
    Snapshot,
    End,
}

/// How much was told of a session, and how many events may be remembered: `again session told COUNT room COUNT`.
#[derive(Clone, Copy, Debug, PartialEq, Eq)]
pub struct Extent {
    pub told: u64,
    pub room: u64,
}

/// Where a role stands: `again role ROLE kept COUNT raw COUNT at PLACE clock STAMP attempt COUNT up #INC`, or `down` for `up`.
/// The place is the number of a point, or 0 for none.
#[derive(Clone, Copy, Debug, PartialEq, Eq)]
pub struct ToldStanding {
    pub role: RoleId,
    pub kept: u64,
    pub raw: u64,
    pub place: u16,
    pub clock: u64,
    pub attempt: u64,
    pub down: bool,
    pub incarnation: u64,
}

/// A message that is in flight: `FROM TO POINT LABEL VALUE @STAMP`.
#[derive(Clone, Copy, Debug, PartialEq, Eq)]
pub struct Flight {
    pub from: RoleId,
    pub to: RoleId,
    pub message: Message,
}

/// A line of a snapshot.
#[derive(Clone, Copy, Debug, PartialEq, Eq)]
pub enum Again {
    Session(Extent),
    Role(ToldStanding),
    /// A message of what is forgotten: `again flight FROM TO POINT LABEL VALUE @STAMP`.
    Flight(Flight),
    /// `again send ROLE POINT LABEL VALUE @STAMP`, or `again recv ROLE POINT LABEL VALUE @STAMP <SENT`.
    Event(Event),
    /// `again save ROLE COUNT`
    Save { role: RoleId, count: u64 },
}

/// What a told line says.
#[derive(Drop)]
pub enum Line {
    Send(ToldSend),
    Recv(ToldRecv),
    Save(ToldSave),
    /// These roles failed, and are started anew, one after the other.
    Fail(FailedRoles),
    Crash(RoleId),
    Recover(ToldRecovery),
    Ask(Question),
    Again(Again),
}
