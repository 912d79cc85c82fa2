// The setup of one of several sessions, as something that a worker makes.

ghost use Rattle.std.specs.Prelude.{◌≡◌, ◌≤◌, ℕ, List, length, IfOk, IfSome, IfNone};
ghost use Rattle.rcv_later.specs.Later.{IsLaterOf};
ghost use Rattle.rcv_later.specs.Preparing.{IsShortInput, IsReadyFor, IsReady, HasStopped, Waits};
ghost use Rattle.rcv_later.specs.Preparing.{left_of, not_both, preparation_of, seen};
ghost use Rattle.std.proofs.Common.{rules};

use crate::later::later_setup;
use rcv_core::setup::Setup;
use rcv_input::{InputError, read_input};
use rcv_many::turns::{Step, Turns};
use std::alloc::{AllocError, Global};
use std::marker::Model;

/// How far a preparation has come.
#[derive(Drop)]
pub(crate) enum Stage {
    /// It hasn't begun, and has no memory.
    Unread,
    /// The setup has been made.
    Ready(Setup),
    /// There was no memory.
    Stopped,
}

/// The setup of one of several sessions, which takes one turn: the input is read, and the plan gets the counts of the
/// session. It holds memory from that turn on.
#[derive(Drop)]
pub struct Preparation<'a> {
    input: &'a [u8],
    // Which session it is, counted from 0.
    by: u32,
    alloc: Global,
    stage: Stage,
}

impl<'a> Model for Preparation<'a> {
    ghost use Rattle.rcv_later.specs.Preparing.{PreparationView, IsPreparation, preparation_of, seen};
    ghost use Rattle.rcv_tree.specs.contracts.statement.Stmt as e;
    ghost use Rattle.rcv_formula.specs.Codes.{expr_code};
    ghost use Rattle.std.specs.Coded.{codes};

    ghost Value = { PreparationView };

    ghost coded = { Prim.hlevel (codes, e.the_row.coded, expr_code) };

    ghost view = { λ p. preparation_of p.input.now p.by (seen p.stage) };

    ghost invariant = { λ p. IsPreparation p.input.now p.by p.stage };
}

impl<'a> Preparation<'a> {
    /// The preparation of session `by`, which counts from 0 to 63, of an input that is taken and has at most 1,048,576
    /// bytes. It takes no memory.
    pub fn new(alloc: Global, input: &'a [u8], by: u32) -> Preparation<'a>
        requires input { IsShortInput input.now }
        requires few { by ≤ 63 }
        ensures { result ≡ preparation_of input.now by Waits }
    {
        Preparation {
            input,
            by,
            alloc,
            stage: Stage::Unread,
        }
    }

    /// The setup, once it has been made: that of the session that the input is taken as, with the counts of this one.
    /// It takes no memory.
    pub fn setup(&self) -> Option<&Setup>
        ensures some { IfSome result (λ setup. IsLaterOf self.now.input self.now.by setup.now) }
        ensures none { IfNone result (IsReady self.now.stage → ⊥) }
    {
        match &self.stage {
            Stage::Ready(setup) => Some(setup),
            _ => None,
        }
    }
}

impl<'a> Turns<()> for Preparation<'a> {
    ghost ended = { λ p. IsReady p.stage };

    ghost stopped = { λ p. HasStopped p.stage };

    ghost left = { λ p. left_of p.stage };

    ghost goes = { λ a b. (b.input ≡ a.input) × (b.by ≡ a.by) };

    fn turn(&mut self, _with: &()) -> Step {
        match &self.stage {
            Stage::Unread => {
                let next = stage_of(self.alloc, self.input, self.by);
                self.come_to(next)
            }
            Stage::Ready(_) => Step::Ended,
            Stage::Stopped => Step::Stopped,
        }
    }

    ghost apart = { λ x e s. not_both x.stage e s };

    ghost stays = { Prim.search rules };

    ghost joins = { Prim.search rules };
}

impl<'a> Preparation<'a> {
    // Comes to its end, and says whether it goes on from there.
    fn come_to(&mut self, next: Stage) -> Step
        requires { IsReadyFor self.old.input self.old.by next }
        ensures stage { self.new ≡ preparation_of self.old.input self.old.by (seen next) }
        ensures stopped { result ≡ Step.Stopped → HasStopped (seen next) }
        ensures not_ended { result ≡ Step.Ended → ⊥ }
    {
        let stops = matches!(next, Stage::Stopped);
        self.stage = next;
        if stops { Step::Stopped } else { Step::More }
    }
}

// The end of a preparation: the setup, or there is no memory for it.
fn stage_of(alloc: Global, input: &[u8], by: u32) -> Stage
    requires input { IsShortInput input.now }
    requires few { by ≤ 63 }
    ensures ready { IsReadyFor input.now by result }
    ensures through { left_of (seen result) ≡ 0 }
{
    match setup_of(alloc, input, by) {
        Ok(setup) => Stage::Ready(setup),
        Err(_) => Stage::Stopped,
    }
}

// The setup of session `by` of the input, which is read. Fails if memory runs out.
fn setup_of(alloc: Global, input: &[u8], by: u32) -> Result<Setup, AllocError>
    requires input { IsShortInput input.now }
    requires few { by ≤ 63 }
    ensures { IfOk result (IsLaterOf input.now by) }
{
    match read_input(alloc, input) {
        Ok(taken) => later_setup(alloc, taken, by),
        Err(InputError::Memory) => Err(AllocError),
        // An input that is taken isn't refused.
        Err(InputError::Refused(_)) => unreachable!(),
    }
}
