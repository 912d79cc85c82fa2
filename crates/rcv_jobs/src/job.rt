// A session as a job.

ghost use Rattle.std.specs.Prelude.{◌≡◌, refl, IfSome, IfNone};
ghost use Rattle.rcv_jobs.specs.Texts.{IsAloneText};
ghost use Rattle.rcv_jobs.specs.Jobs.{Waits, IsJob, IsSameJob, HasEnded, HasStopped, not_both, left_of, job_of};
ghost use Rattle.rcv_jobs.specs.Jobs.{seen};
ghost use Rattle.std.proofs.Common.{rules};

use crate::running::Telling;
use crate::stage::{Stage, open, write};
use rcv_core::setup::Setup;
use rcv_gate::Gate;
use rcv_many::turns::{Step, Turns};
use std::alloc::Global;
use std::marker::Model;

/// A session that is opened, run by one thread turn by turn, and written, as JSON or as lines. It holds memory from its
/// first turn on; at its end its text alone.
#[derive(Drop)]
pub struct Job<'a> {
    setup: &'a Setup,
    alloc: Global,
    json: bool,
    stage: Stage<'a>,
}

impl<'a> Model for Job<'a> {
    ghost use Rattle.rcv_jobs.specs.Jobs.{JobView, IsJob, seen};
    ghost use Rattle.rcv_tree.specs.contracts.statement.Stmt as e;
    ghost use Rattle.rcv_formula.specs.Codes.{expr_code};
    ghost use Rattle.std.specs.Coded.{codes};

    ghost Value = { JobView };

    ghost coded = { Prim.hlevel (codes, e.the_row.coded, expr_code) };

    ghost view = { λ j. record { session = j.setup.now; json = j.json; stage = seen j.stage } };

    ghost invariant = { λ j. IsJob j.setup.now j.json j.stage };
}

impl<'a> Job<'a> {
    /// The job of a session that hasn't begun, to be written as JSON or as lines. It takes no memory.
    pub fn new(alloc: Global, setup: &'a Setup, json: bool) -> Job<'a>
        ensures { result ≡ job_of setup.now json Waits }
    {
        Job {
            setup,
            alloc,
            json,
            stage: Stage::Waiting,
        }
    }

    /// Whether the session completed, and its text, once it has been written: its journal is the one that one thread
    /// makes. None before that, and if memory has run out. It takes no memory.
    pub fn text(&self) -> Option<(bool, &[u8])>
        ensures some { IfSome result (λ t. IsAloneText self.now.session self.now.json t.0 t.1.now) }
        ensures none { IfNone result (HasEnded self.now.stage → ⊥) }
    {
        match &self.stage {
            Stage::Written { completed, text } => Some((*completed, text.as_slice())),
            _ => None,
        }
    }

    // Comes to a further stage, and says whether it goes on from there.
    fn come_to(&mut self, next: Stage<'a>) -> Step
        requires { IsJob self.old.session self.old.json next }
        ensures stage { self.new ≡ job_of self.old.session self.old.json (seen next.entry) }
        ensures stopped { result ≡ Step.Stopped → HasStopped (seen next.entry) }
        ensures not_ended { result ≡ Step.Ended → ⊥ }
    {
        let stops = matches!(next, Stage::Stopped);
        self.stage = next;
        if stops { Step::Stopped } else { Step::More }
    }
}

impl<'a, G: Gate> Turns<G> for Job<'a> {
    ghost ended = { λ j. HasEnded j.stage };

    ghost stopped = { λ j. HasStopped j.stage };

    ghost left = { λ j. left_of j.session j.stage };

    ghost goes = { IsSameJob };

    fn turn(&mut self, gate: &G) -> Step {
        match &mut self.stage {
            Stage::Waiting => {
                let next = open(self.alloc, self.setup, self.json);
                self.come_to(next)
            }
            Stage::Running(running) => {
                if let Some(entry) = running.next() {
                    // The bound on the gate can't be handed on from here, so the gate is told here.
                    match running.telling(&entry) {
                        Telling::Step { role, count } => gate.enter(role, count),
                        Telling::Recovery { role } => gate.recovering(role),
                    }
                    running.add(entry);
                    return Step::More;
                }
                let next = write(self.alloc, running, self.json);
                self.come_to(next)
            }
            Stage::Written { .. } => Step::Ended,
            Stage::Stopped => Step::Stopped,
        }
    }

    ghost apart = { λ x e s. not_both x.stage e s };

    ghost stays = { λ x. (refl, refl) };

    ghost joins = { Prim.search rules };
}
