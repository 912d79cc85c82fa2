// A session: its book tells what the cells hold, whenever all of them are at home.

ghost use Rattle.std.specs.Prelude.{◌≡◌, ◌≤◌, true, false, IfOk};
ghost use Rattle.rcv_model.specs.Final.{IsCrashed};
ghost use Rattle.rcv_core.specs.Book.{state_of};
ghost use Rattle.rcv_super.specs.Super.{new_session};
ghost use Rattle.rcv_super.specs.Finish.{Finished, FinishedAlone};
ghost use Rattle.rcv_super.specs.Turn.{Turned, Recovered};

use crate::alone::{end_of, finish_alone};
use crate::forgetting::{keep_line, next_turn, still_stable};
use crate::rounds::{go, recover_home};
use crate::sharing::Sharing;
use crate::whereabouts::Whereabouts;
use rcv_alone::step_alone;
use rcv_cells::house::{Crew, House};
use rcv_core::book::Book;
use rcv_core::outcome::Outcome;
use rcv_core::setup::Setup;
use rcv_core::skip::Skip;
use rcv_gate::Gate;
use rcv_tree::role::RoleId;
use std::alloc::{AllocError, Global};
use std::marker::Model;
use std::thread::Threads;
use thiserror::Error;

// An expression of so many steps is worth computing beside others.
const DEAR: usize = 200;

// A round is about so many steps of each role. Threads are worth longer rounds if scripts are dear. If they are cheap,
// the book makes the rest the sooner.
const DEAR_STEPS: u32 = 1_024;

const CHEAP_STEPS: u32 = 64;

// So many turns of several workers show whether threads are worth having. Only then may the book go on alone.
const TRIED: u32 = 4;

/// A book, and the cells of its roles. Contracts see the book, whether the session was closed because memory ran out,
/// how many turns added entries, and the stable line that was found last. Once the cells follow the book, they have
/// forgotten the states before that line.
#[derive(Drop)]
pub struct Session<'a> {
    house: House<'a>,
    at: Whereabouts,
    sharing: Sharing,
    closed: bool,
    // What is known of the book's next step.
    skip: Skip,
    turns: u32,
    line: [u32; 8],
}

impl<'a> Model for Session<'a> {
    ghost use Rattle.rcv_super.specs.Super.{SuperView, IsSuper};
    ghost use Rattle.rcv_tree.specs.contracts.statement.Stmt as e;
    ghost use Rattle.rcv_formula.specs.Codes.{expr_code};
    ghost use Rattle.std.specs.Coded.{codes};

    ghost Value = { SuperView };

    ghost coded = { Prim.hlevel (codes, e.the_row.coded, expr_code) };

    ghost view = { λ s. record { book = s.house.book; closed = s.closed; turns = s.turns; stable = s.line } };

    ghost invariant = { λ s. IsSuper s.house.book s.house.lanes.items s.house.watch s.house.watches.items s.closed s.at
        s.skip s.turns s.line };
}

/// What a turn came to.
#[derive(Clone, Copy, Debug, PartialEq, Eq)]
pub enum Turn {
    /// At least one entry was added.
    More,
    /// The session is at its end, and all roles are done.
    Completed,
    /// The session is at its end, and some role that isn't done has come to the limit.
    Limited,
}

/// Why a turn, a run to the end or a recovery failed.
#[derive(Clone, Copy, Debug, PartialEq, Eq, Error)]
pub enum SessionError {
    /// An earlier call found no memory.
    #[error("the session is closed: an earlier call found no memory")]
    Closed,
    /// There is no memory. The session is closed from then on.
    #[error("no memory is left, and the session is closed from now on")]
    Memory,
}

impl<'a> Session<'a> {
    /// A session before its first entry. Makes its channels, its cells and one fence, with a watch for each of eight
    /// workers, and reserves all room that its entries may need. Fails if memory runs out.
    pub fn new(alloc: Global, setup: &'a Setup) -> Result<Session<'a>, AllocError>
        ensures { IfOk result (λ session. session ≡ new_session setup.now) }
    {
        let dear = setup.scripts().most_steps() >= DEAR;
        let house = House::new(alloc, setup, dear)?;
        Ok(Session {
            house,
            at: Whereabouts::Before,
            sharing: Sharing::new(),
            closed: false,
            skip: Skip::nothing(),
            turns: 0,
            line: [0; 8],
        })
    }

    /// One turn with so many workers, from 1 to 8.
    ///
    /// With one worker it adds the entry that the one-thread order names. Until the first turn with several workers the
    /// book makes it alone. That turn brings the cells to where the book stands, and from then on each entry comes from
    /// the cell of its role.
    ///
    /// With several, if no role is crashed, it makes a round. It lowers the fence, and the workers, each on a thread of
    /// its own, go over their cells again and again. They stop when each cell has made 1,024 steps (or some 64, if no
    /// expression of a script takes 200 steps), or when nobody can go on. What the cells logged is merged by stamp and
    /// added. If that is nothing, the next entry of the one-thread order is added. There are as many threads as workers
    /// and cells allow. After a round that added few entries, or in which others mostly waited for one worker, some
    /// rounds are made on the caller's thread alone.
    ///
    /// If a role is crashed, the least such role recovers, while the cells that aren't concerned and aren't crashed run
    /// on the other threads. If there are no such cells, no thread is started. The Recover is added before what they
    /// did.
    ///
    /// After each 1,024th turn that added entries the session finds the book's stable line, and the cells forget the
    /// states before it: no recovery can ask for them.
    ///
    /// The gate is called before each step that a role attempts and before a recovery moves anything, on the thread
    /// that does it.
    ///
    /// A session at its end stays as it is, and the answer says at which. After `Memory` the session is closed. Its
    /// book is as it was, except that with several workers the Recover of the least crashed role may stand in it.
    /// `Closed` comes exactly if an earlier call on this session answered `Memory`, and changes nothing.
    pub fn turn<'c, G: Gate + Sync, R: Threads + Sync>(
        &mut self,
        rt: &'c R,
        alloc: Global,
        workers: u32,
        gate: &'c G,
    ) -> Result<Turn, SessionError>
        requires least { 1 ≤ workers }
        requires most { workers ≤ 8 }
        ensures { Turned workers self.old self.new result }
    {
        if self.closed {
            return Err(SessionError::Closed);
        }
        if workers == 1 && self.at.is_before() {
            let Some(skip) = step_alone(&mut self.house.book, self.skip, gate) else {
                return Ok(end_of(&self.house.book));
            };
            self.skip = skip;
            self.turns = next_turn(&self.house.book, self.turns);
            keep_line(&mut self.house, self.at, self.turns, &mut self.line);
            return Ok(Turn::More);
        }
        match self.house.book.final_state() {
            Outcome::Completed => return Ok(Turn::Completed),
            Outcome::Limited => return Ok(Turn::Limited),
            Outcome::More => {}
        }
        let crew = Crew {
            rt,
            alloc,
            workers: workers as usize,
            gate,
            steps: if self.house.dear {
                DEAR_STEPS
            } else {
                CHEAP_STEPS
            },
        };
        self.closed = true;
        let made = go(
            &crew,
            &mut self.house,
            &mut self.sharing,
            self.at,
            &self.line,
        );
        if made.is_err() {
            return Err(SessionError::Memory);
        }
        self.at = Whereabouts::Home;
        self.skip = Skip::nothing();
        self.turns = next_turn(&self.house.book, self.turns);
        keep_line(&mut self.house, self.at, self.turns, &mut self.line);
        self.closed = false;
        Ok(Turn::More)
    }

    /// Brings the session to its end with so many workers, from 1 to 8.
    ///
    /// One worker adds the entries of the one-thread order by the book alone, on this thread. It doesn't matter who
    /// made those so far.
    ///
    /// Several make turns. After the first four the book alone makes the rest, on this thread, if that is the fastest:
    /// if no expression of a script takes 200 steps, or if nearly always one worker at a time had something to do and
    /// no crash lines are left. The gate must be open for that: a gate that may hold a role up wants the others to go
    /// on beside it. What the book alone makes counts no turns, and finds no stable line.
    ///
    /// The gate is called as in turns. After `Memory` the session is closed, and its book has some of the entries.
    /// `Closed` comes exactly if an earlier call on this session answered `Memory`, and changes nothing.
    pub fn finish<'c, G: Gate + Sync, R: Threads + Sync>(
        &mut self,
        rt: &'c R,
        alloc: Global,
        workers: u32,
        gate: &'c G,
    ) -> Result<(), SessionError>
        requires least { 1 ≤ workers }
        requires most { workers ≤ 8 }
        ensures { Finished workers self.old self.new result }
    {
        let mut tried = 0;
        while workers > 1 && !self.goes_best_alone(tried, gate) {
            // Tells the proof that there are few entries.
            let _few = self.book().len();
            match self.turn(rt, alloc, workers, gate) {
                Ok(Turn::More) => {}
                Ok(Turn::Completed) => return Ok(()),
                Ok(Turn::Limited) => return Ok(()),
                Err(error) => return Err(error),
            }
            tried = tried.saturating_add(1);
        }
        self.finish_alone(gate)
    }

    // Whether, after so many turns of several workers, the book alone, on the caller's thread, is the fastest way to
    // the end: no script is worth a thread, or one role at a time had something to do. A gate that may hold a role up
    // wants the others beside it. So do crashes that are still to come, if scripts are dear.
    fn goes_best_alone<G: Gate>(&self, tried: u32, gate: &G) -> bool {
        if tried < TRIED || !gate.is_open() {
            return false;
        }
        !self.house.dear || (self.sharing.is_lonely() && !self.house.book.awaits_crash())
    }

    // Makes all entries that are left, by the book alone.
    fn finish_alone<G: Gate>(&mut self, gate: &G) -> Result<(), SessionError>
        ensures { FinishedAlone self.old self.new result }
    {
        if self.closed {
            return Err(SessionError::Closed);
        }
        // So far the cells may have chosen.
        self.house.book.start_choosing();
        finish_alone(&mut self.house.book, self.skip, gate);
        still_stable(&self.house.book, &self.line);
        self.at = Whereabouts::Over;
        self.skip = Skip::nothing();
        Ok(())
    }

    /// Recovers a crashed role, with nobody running beside it. After `Memory` the session is closed, and its book is as
    /// it was. `Closed` comes exactly if an earlier call on this session answered `Memory`, and changes nothing.
    pub fn recover(&mut self, alloc: Global, role: RoleId) -> Result<(), SessionError>
        requires { IsCrashed (state_of self.old.book) role }
        ensures { Recovered role self.old self.new result }
    {
        if self.closed {
            return Err(SessionError::Closed);
        }
        self.closed = true;
        let recovered = recover_home(alloc, &mut self.house, self.at, &self.line, role);
        if recovered.is_err() {
            return Err(SessionError::Memory);
        }
        still_stable(&self.house.book, &self.line);
        self.at = Whereabouts::Home;
        self.skip = Skip::nothing();
        self.closed = false;
        Ok(())
    }

    /// How many turns added entries.
    pub fn turns(&self) -> u32
        ensures { result ≡ self.now.turns }
    {
        self.turns
    }

    /// The stable line that was found last, after a turn whose number is a multiple of 1,024: for each of eight roles
    /// how many of its events no recovery takes back. At first it is 0 for each.
    pub fn stable(&self) -> [u32; 8]
        ensures { result ≡ self.now.stable }
    {
        self.line
    }

    /// The book.
    pub fn book(&self) -> &Book<'a>
        ensures { result.now ≡ self.now.book }
    {
        &self.house.book
    }
}
