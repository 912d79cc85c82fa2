// The lines after the entries of a told journal: where its roles are at its end.

ghost use Rattle.std.specs.Prelude.{◌≡◌, ◌<◌, ◌+◌, ◌++◌, All, codes, length, IfOk, OnOk};
ghost use Rattle.rcv_told.specs.Told.{Remembered};
ghost use Rattle.rcv_guide.specs.Guide.{roles_of, net_for, IsMemory};
ghost use Rattle.rcv_dialogue.specs.Answers.{more_text};
ghost use Rattle.rcv_retold.specs.Closing.{accepted_in, states_text, IsState, IsStateOf, AreStates, IsClosing};

use crate::lines::first_line;
use rcv_accept::accepted::Accepted;
use rcv_dialogue::answer::{Answer, RoleState, State};
use rcv_dialogue::write::write;
use rcv_guide::guide::Guide;
use rcv_text::writer::Writer;
use rcv_tree::role::RoleId;
use std::alloc::{AllocError, Global};

// How a declared role stands.
fn state_of(guide: &Guide, role: RoleId) -> State
    requires { role < roles_of guide.now }
    ensures { (m : Remembered) → IsMemory guide.now m → IsState (net_for guide.now) m role result }
{
    if guide.is_down(role) {
        State::Down
    } else if guide.is_over(role) {
        State::Done
    } else {
        State::Waits
    }
}

// Where a declared role is.
fn role_state(guide: &Guide, role: RoleId) -> RoleState
    requires { role < roles_of guide.now }
    ensures { (m : Remembered) → IsMemory guide.now m → IsStateOf (net_for guide.now) m role result }
{
    RoleState {
        role,
        kept: guide.made(role),
        raw: guide.raw(role),
        state: state_of(guide, role),
    }
}

/// Where each role of a guide is. Fails if memory runs out.
pub fn states_of(alloc: Global, guide: &Guide) -> Result<Vec<RoleState>, AllocError>
    ensures { IfOk result (λ states. (m : Remembered) → IsMemory guide.now m
        → AreStates (net_for guide.now) (roles_of guide.now) m states.items) }
{
    let mut states = Vec::new(alloc);
    for role in 0..guide.roles() {
        states.push(role_state(guide, RoleId(role)))?;
    }
    Ok(states)
}

// The text goes on with the answer to `end`. Fails if memory runs out.
fn write_end(text: &mut Writer, accepted: &Accepted, states: &[RoleState]) -> Result<(), AllocError>
    requires { All (λ s. s.role < length accepted.now.protocol.roles) states.now }
    ensures { OnOk result (text.new ≡ text.old ++ codes "end" ++ more_text (length states.now + 1)
        ++ states_text accepted.now.protocol states.now) }
{
    let answer = Some(Answer::End(states));
    match &answer {
        Some(end) => write(text, accepted, end),
        None => Ok(()),
    }
}

/// What stands after the entries that a guide was told: a line for each role, in order of declaration, and the line
/// that says whether all are done. Fails if memory runs out.
pub fn closing(alloc: Global, guide: &Guide) -> Result<Vec<u8>, AllocError>
    ensures { IfOk result (λ text. (m : Remembered) → IsMemory guide.now m → IsClosing guide.now.protocol m text.items) }
{
    // Tells the proof that the guide has a memory.
    let _roles = guide.roles();
    let states = states_of(alloc, guide)?;
    let mut text = Writer::new(alloc);
    write_end(&mut text, guide.accepted(), states.as_slice())?;
    let text = text.finish();
    let (_first, lines) = first_line(text.as_slice());
    Vec::from_slice(alloc, lines)
}
