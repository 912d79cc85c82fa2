// How far a job has come.

ghost use Rattle.std.specs.Prelude.{◌<◌};
ghost use Rattle.rcv_core.specs.Book.{IsAtEnd};
ghost use Rattle.rcv_jobs.specs.Left.{left_behind};
ghost use Rattle.rcv_jobs.specs.Jobs.{IsJob, Waits, left_of, seen};

use crate::running::Running;
use rcv_core::setup::Setup;
use std::alloc::Global;

/// How far a job has come.
#[derive(Drop)]
pub enum Stage<'a> {
    /// It hasn't begun, and has no memory.
    Waiting,
    /// One thread makes its entries.
    Running(Running<'a>),
    /// It has come to its end, and only its text is left of it.
    Written { completed: bool, text: Vec<u8> },
    /// There was no memory.
    Stopped,
}

/// The session before its first entry; or there is no memory for it.
pub fn open<'a>(alloc: Global, setup: &'a Setup, json: bool) -> Stage<'a>
    ensures job { IsJob setup.now json result }
    ensures fewer { left_of setup.now (seen result) < left_of setup.now Waits }
{
    match Running::new(alloc, setup) {
        Ok(running) => Stage::Running(running),
        Err(_) => Stage::Stopped,
    }
}

/// The text of a session at its end; or there is no memory for it.
pub fn write<'a>(alloc: Global, running: &Running<'a>, json: bool) -> Stage<'a>
    requires { IsAtEnd running.now }
    ensures job { IsJob running.now.setup json result }
    ensures fewer { left_of running.now.setup (seen result) < left_behind running.now }
{
    match running.write(alloc, json) {
        Ok((completed, text)) => Stage::Written { completed, text },
        Err(_) => Stage::Stopped,
    }
}
