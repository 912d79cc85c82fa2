// The wires of a machine: from each step to the state that it leads to.

ghost use Rattle.std.specs.Prelude.{◌≡◌, IfOk, OnOk};
ghost use Rattle.std.specs.List.{All};
ghost use Rattle.rcv_charts.specs.States.{next_in};
ghost use Rattle.rcv_charts.specs.Wires.{HavePlace, AreClosed, AreWires, GetsWires, state_at};

use crate::states::{State, state_with};
use rcv_tree::point::Point;
use std::alloc::{AllocError, Global};

/// A wire: the state that it starts from, which of that state's steps it is, counted from 0, the point of that step,
/// and the state that it leads to.
#[derive(Clone, Copy, Drop)]
pub struct Wire {
    pub from: usize,
    pub step: usize,
    pub point: Point,
    pub to: usize,
}

// Adds the wires of the steps of a state. Fails if memory runs out.
fn add_steps(
    wires: &mut Vec<Wire>,
    states: &[State],
    from: usize,
    next: &[Point],
) -> Result<(), AllocError>
    requires closed { All (HavePlace states.now) next.now }
    requires next { next.now ≡ next_in (state_at states.now from).act }
    ensures { OnOk result (GetsWires states.now from wires.old.items wires.new.items) }
{
    for (step, point) in next.iter().enumerate() {
        wires.push(Wire {
            from,
            step,
            point: *point,
            to: state_with(states, point.0),
        })?;
    }
    Ok(())
}

/// The wires of these states: one for each of their steps, in order. Fails if memory runs out.
pub fn wires_of(alloc: Global, states: &[State]) -> Result<Vec<Wire>, AllocError>
    requires { AreClosed states.now }
    ensures { IfOk result (λ wires. AreWires states.now wires.items) }
{
    let mut wires = Vec::new(alloc);
    for (from, state) in states.iter().enumerate() {
        add_steps(&mut wires, states, from, state.next())?;
    }
    Ok(wires)
}
