// A guided session: its guide, what its roles have saved, and their incarnations.

ghost use Rattle.std.specs.Prelude.{◌≡◌, ◌<◌, ◌≤◌, ◌++◌, length, replicate, IfOk, IfSome, OnOk};
ghost use Rattle.rcv_plan.specs.Lines.{IsPlanned};
ghost use Rattle.rcv_dialogue.specs.Answers.{answer_text, IsNamed};
ghost use Rattle.rcv_guided.specs.Session.{begun, step_by, steps_by};
ghost use Rattle.rcv_guided.specs.Hearing.{accepted_of, said_of};

use crate::saving::Saving;
use rcv_accept::accepted::Accepted;
use rcv_dialogue::answer::Answer;
use rcv_dialogue::write::write;
use rcv_guide::guide::Guide;
use rcv_plan::plan::Plan;
use rcv_saves::saves::Saves;
use rcv_text::writer::Writer;
use rcv_tree::role::RoleId;
use std::alloc::{AllocError, Global};
use std::marker::Model;

// There is room for so many events at first.
const FIRST_ROOM: u32 = 1024;

/// A session without an end, whose roles run elsewhere. It forgets what is stable as it goes on.
#[derive(Drop)]
pub struct GuidedSession {
    pub(crate) guide: Guide,
    pub(crate) saves: Saves,
    // For each role of the protocol.
    pub(crate) incarnations: Vec<u64>,
    // If a snapshot was told to this session: how much was told of the session that gave it.
    pub(crate) restored: Option<u64>,
}

impl Model for GuidedSession {
    ghost use Rattle.rcv_guided.specs.Session.{SessionView, IsSession};
    ghost use Rattle.rcv_tree.specs.contracts.statement.Stmt as e;
    ghost use Rattle.std.specs.Coded.{codes};

    ghost Value = { SessionView };

    ghost coded = { Prim.hlevel (codes, e.the_row.coded) };

    ghost view = { λ a. record { guide = a.guide; saves = a.saves; incarnations = a.incarnations.items; restored = a.restored } };

    ghost invariant = { λ a. IsSession (record { guide = a.guide; saves = a.saves; incarnations = a.incarnations.items; restored = a.restored }) };
}

impl GuidedSession {
    /// A session before its first line, with a plan that was read for the protocol's roles. Of the plan's lines those
    /// on hosts count and, if roles save by their plan, those that say how often. Fails if memory runs out.
    pub fn new(
        alloc: Global,
        accepted: Accepted,
        plan: Plan,
        saving: Saving,
    ) -> Result<GuidedSession, AllocError>
        requires { IsPlanned (length accepted.protocol.roles) plan }
        ensures { IfOk result (λ session. session
            ≡ begun accepted.protocol plan 1024 (steps_by saving plan (length accepted.protocol.roles))) }
    {
        let steps = steps(alloc, &plan, accepted.roles(), saving)?;
        let saves = Saves::new(alloc, steps.as_slice())?;
        let mut incarnations = Vec::new(alloc);
        for _role in 0..accepted.roles() {
            incarnations.push(0)?;
        }
        let guide = Guide::new(alloc, accepted, plan, FIRST_ROOM)?;
        Ok(GuidedSession {
            guide,
            saves,
            incarnations,
            restored: None,
        })
    }

    /// The protocol of the session.
    pub fn accepted(&self) -> &Accepted
        ensures { result.now ≡ accepted_of self.now }
    {
        self.guide.accepted()
    }

    // The text goes on with an answer. Fails if memory runs out.
    pub(crate) fn say(&self, text: &mut Writer, said: &Answer<'_>) -> Result<(), AllocError>
        requires { IsNamed (accepted_of self.now) said.now }
        ensures { OnOk result (text.new ≡ text.old ++ answer_text (accepted_of self.now) said.now) }
    {
        write(text, self.accepted(), said)
    }

    // The text goes on with an answer, or with `memory` if there was none for it. Fails if memory runs out.
    pub(crate) fn say_found(
        &self,
        text: &mut Writer,
        found: &Option<Answer<'_>>,
    ) -> Result<(), AllocError>
        requires { IfSome found.now (IsNamed (accepted_of self.now)) }
        ensures { OnOk result (text.new ≡ text.old ++ answer_text (accepted_of self.now) (said_of found.now)) }
    {
        match found {
            Some(said) => self.say(text, said),
            None => self.say(text, &Answer::Memory),
        }
    }
}

// The step of each of so many roles; 0 is none.
fn steps(alloc: Global, plan: &Plan, roles: u8, saving: Saving) -> Result<Vec<u32>, AllocError>
    ensures { IfOk result (λ steps. steps.items ≡ steps_by saving plan.now roles) }
{
    let mut steps = Vec::new(alloc);
    for role in 0..roles {
        steps.push(step(plan, RoleId(role), saving))?;
    }
    Ok(steps)
}

// The step of a role.
fn step(plan: &Plan, role: RoleId, saving: Saving) -> u32
    ensures { result ≡ step_by saving plan.now role }
{
    match saving {
        Saving::ByPlan => plan.every(role),
        Saving::Told => 0,
    }
}
