// The states of a role's machine: places at which the role does the same are one state.

ghost use Rattle.std.specs.Prelude.{◌≡◌, ◌==◌, ◌<◌, ◌≤◌, OnOk, IfOk, IfSome, length, position};
ghost use Rattle.std.specs.List.{list_any};
ghost use Rattle.rcv_model.specs.Net.{IsIn};
ghost use Rattle.rcv_accept.specs.Accepted.{net_for};
ghost use Rattle.rcv_project.specs.Act.{owned_view};
ghost use Rattle.rcv_project.specs.Local.{IsLocalOf, act_at};
ghost use Rattle.rcv_project.specs.LocalText.{is_own};
ghost use Rattle.rcv_charts.specs.States.{AreMadeTo, next_in, same_act, alone, grown, with_place};
ghost use Rattle.rcv_charts.specs.StateTitles.{act_word};
ghost use Rattle.rcv_charts.specs.Wires.{HavePlace, state_at};

use crate::words::owns;
use rcv_accept::accepted::Accepted;
use rcv_project::act::Act;
use rcv_project::local::{Local, OwnedAct};
use rcv_tree::point::Point;
use rcv_tree::role::RoleId;
use std::alloc::{AllocError, Global};
use std::marker::Model;

/// A state: what the role does there. Contracts see that, and the places that are one in it, ascending.
#[derive(Drop)]
pub struct State {
    act: OwnedAct,
    places: Vec<u16>,
}

impl Model for State {
    ghost use Rattle.rcv_project.specs.Act.{owned_view};
    ghost use Rattle.rcv_charts.specs.States.{StateView};

    ghost Value = { StateView };

    ghost view = { λ a. record { act = owned_view a.act; places = a.places.items } };
}

impl State {
    // A state of one place. Fails if memory runs out.
    fn new(alloc: Global, act: OwnedAct, place: u16) -> Result<State, AllocError>
        ensures { IfOk result (λ state. state ≡ alone (owned_view act) place) }
    {
        Ok(State {
            act,
            places: vec![in alloc; place]?,
        })
    }

    // Adds a place. Fails if memory runs out.
    fn push(&mut self, place: u16) -> Result<(), AllocError>
        ensures { OnOk result (self.new ≡ grown self.old place) }
    {
        self.places.push(place)?;
        Ok(())
    }

    /// The places.
    pub fn places(&self) -> &[u16]
        ensures { result.now ≡ self.now.places }
    {
        self.places.as_slice()
    }

    /// What the role does.
    pub fn act(&self) -> &OwnedAct
        ensures { owned_view result.now ≡ self.now.act }
    {
        &self.act
    }

    /// The same in a word.
    pub fn word(&self) -> &'static [u8]
        ensures { result.now ≡ act_word self.now.act }
    {
        match &self.act {
            OwnedAct::Sends(_) => b"sends",
            OwnedAct::Receives(_, _) => b"waits",
            OwnedAct::Done => b"done",
        }
    }

    /// The points that can come next.
    pub fn next(&self) -> &[Point]
        ensures { result.now ≡ next_in self.now.act }
    {
        match &self.act {
            OwnedAct::Sends(points) => points.as_slice(),
            OwnedAct::Receives(_, points) => points.as_slice(),
            OwnedAct::Done => &[],
        }
    }

    /// Whether the role's part ends here.
    pub fn is_done(&self) -> bool {
        matches!(&self.act, OwnedAct::Done)
    }

    // Whether the role does this here.
    fn does(&self, act: &OwnedAct) -> bool
        ensures { result ≡ same_act self.now.act (owned_view act.now) }
    {
        match (&self.act, act) {
            (OwnedAct::Sends(own), OwnedAct::Sends(other)) => own.as_slice() == other.as_slice(),
            (OwnedAct::Receives(from, own), OwnedAct::Receives(other_from, other)) => {
                *from == *other_from && own.as_slice() == other.as_slice()
            }
            (OwnedAct::Done, OwnedAct::Done) => true,
            _ => false,
        }
    }

    // Whether the place is one of its.
    fn has(&self, place: u16) -> bool
        ensures { result ≡ list_any (λ other. other == place) self.now.places }
    {
        self.places.as_slice().iter().any(|other| *other == place)
    }
}

// The first state that has the place.
fn holding(states: &[State], place: u16) -> Option<usize>
    ensures { result ≡ position (λ state. list_any (λ other. other == place) state.places) states.now }
{
    states.iter().position(|state| state.has(place))
}

/// Which of these states has a place that one of them has.
pub fn state_with(states: &[State], place: u16) -> usize
    requires { HavePlace states.now place }
    ensures { IsIn place (state_at states.now result).places }
{
    match holding(states, place) {
        Some(index) => index,
        None => 0,
    }
}

// The first state in which the role does this.
fn doing(states: &[State], act: &OwnedAct) -> Option<usize>
    ensures value { result ≡ position (λ state. same_act state.act (owned_view act.now)) states.now }
    ensures bound { IfSome result (λ index. index < length states.now) }
{
    states.iter().position(|state| state.does(act))
}

// Adds a place at which the role does this: to the state in which it does so, or as a state of its own. Fails if memory
// runs out.
fn add_place(
    alloc: Global,
    states: &mut Vec<State>,
    act: OwnedAct,
    place: u16,
) -> Result<(), AllocError>
    ensures { OnOk result (states.new.items ≡ with_place (owned_view act) place states.old.items) }
{
    match doing(states.as_slice(), &act) {
        Some(index) => states[index].push(place),
        None => {
            states.push(State::new(alloc, act, place)?)?;
            Ok(())
        }
    }
}

// What the machine says of the place.
fn act_of(alloc: Global, local: &Local, place: u16) -> Result<OwnedAct, AllocError>
    requires { place < length local.now.acts }
    ensures { IfOk result (λ act. owned_view act ≡ act_at local.now place) }
{
    match local.next(place) {
        Act::Sends(points) => Ok(OwnedAct::Sends(Vec::from_slice(alloc, points)?)),
        Act::Receives(from, points) => {
            Ok(OwnedAct::Receives(from, Vec::from_slice(alloc, points)?))
        }
        Act::Done => Ok(OwnedAct::Done),
    }
}

// Adds a place, by what the machine says of it. Fails if memory runs out.
fn add(alloc: Global, states: &mut Vec<State>, local: &Local, place: u16) -> Result<(), AllocError>
    requires { place < length local.now.acts }
    ensures { OnOk result (states.new.items ≡ with_place (act_at local.now place) place states.old.items) }
{
    let act = act_of(alloc, local, place)?;
    add_place(alloc, states, act, place)
}

// How many points the text has.
fn count(accepted: &Accepted) -> u16
    ensures { result ≡ (net_for accepted.now).count }
{
    // Tells the proof that the protocol is accepted.
    let _protocol = accepted.protocol();
    accepted.points().count()
}

// Whether the role sends or receives a point of the text.
fn is_own_place(accepted: &Accepted, role: RoleId, point: Point) -> bool
    requires first { 1 ≤ point }
    requires last { point ≤ (net_for accepted.now).count }
    ensures { result ≡ is_own (net_for accepted.now) role point }
{
    // Tells the proof that the protocol is accepted.
    let _protocol = accepted.protocol();
    owns(accepted.points(), role, point)
}

/// The states of a machine, by their first places. Fails if memory runs out.
pub fn states_of(
    alloc: Global,
    local: &Local,
    accepted: &Accepted,
) -> Result<Vec<State>, AllocError>
    requires { IsLocalOf (net_for accepted.now) local.now.role local.now }
    ensures { IfOk result (λ states. AreMadeTo (net_for accepted.now) local.now.role
        (net_for accepted.now).count states.items) }
{
    // Tells the proof that the protocol is accepted.
    let _protocol = accepted.protocol();
    let role = local.role();
    let mut states = Vec::new(alloc);
    add(alloc, &mut states, local, 0)?;
    for before in 0..count(accepted) {
        let place = before + 1;
        if is_own_place(accepted, role, Point(place)) {
            add(alloc, &mut states, local, place)?;
        }
    }
    Ok(states)
}
