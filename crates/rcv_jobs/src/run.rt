// Jobs on workers.

ghost use Rattle.std.specs.Prelude.{◌≤◌};
ghost use Rattle.rcv_jobs.specs.Jobs.{AreThrough};

use crate::job::Job;
use rcv_gate::Gate;
use rcv_many::run_all;
use std::thread::Threads;

/// Opens, runs and writes the session of each job, by at most so many threads at a time, from 1 to 8, and joins them.
/// The gate is told of each step of each session, by several threads at one time. A job stops if it finds no memory.
pub fn run_jobs<'a, R: Threads + Sync, G: Gate + Sync>(
    rt: &R,
    gate: &G,
    jobs: &mut [Job<'a>],
    workers: u32,
)
    requires least { 1 ≤ workers }
    requires most { workers ≤ 8 }
    ensures { AreThrough jobs.old jobs.new }
{
    run_all(rt, gate, jobs, workers);
}
