// What `run --sessions` answers: the journals of several sessions of one input, which share the workers.

ghost use Rattle.std.specs.Prelude.{◌≡◌, ◌≤◌, ◌↔◌, length, IfOk, IsTrue};
ghost use Rattle.rcv_input.specs.declared.refused.Refused.TheVariants.{TooMuch};
ghost use Rattle.rcv_input.specs.Input.{IsTaken};
ghost use Rattle.rcv_input.specs.Line.{refusal_line};
ghost use Rattle.rcv_plan.specs.Lines.{IsPlanned};
ghost use Rattle.rcv_top.specs.Many.{IsRunOfMany, IsTooMuch};
ghost use Rattle.rcv_top.specs.Sharing.{AreJobsOf, IsRunOfPrepared};
ghost use Rattle.rcv_top.specs.Writing.{Writes};

use crate::journals::write_journals_of;
use crate::output::{Output, put};
use crate::status::Status;
use rcv_gate::Gate;
use rcv_input::{Input, Refused, refusal_line};
use rcv_io::Sink;
use rcv_jobs::job::Job;
use rcv_jobs::run::run_jobs;
use rcv_later::preparation::Preparation;
use rcv_later::prepare::prepare;
use std::alloc::{AllocError, Global};
use std::thread::Threads;

/// How many events all sessions may make in all, by their plan.
const MOST_EVENTS: u32 = 3_200_000;

/// Runs so many sessions of an input, at most 64, on so many workers, from 1 to 8, and writes their journals in order,
/// as JSON or as lines. `taken` is what the input was read as. In session i, counted from 0, each crash line has a
/// count that is i more. One thread at a time runs each session. At any time the sessions that are begun and not over
/// are at most as many as the workers. Says how they ended, or that the sink failed.
///
/// Refused if the roles times the limit times the sessions are more than 3,200,000.
///
/// The error comes if memory runs out; then nothing was written, however many sessions had ended.
pub fn run_many<R: Threads + Sync, K: Sink, G: Gate + Sync>(
    rt: &R,
    alloc: Global,
    input: &[u8],
    taken: Input,
    sessions: u32,
    workers: u32,
    json: bool,
    sink: &mut K,
    gate: &G,
) -> Result<Status, AllocError>
    requires few { sessions ≤ 64 }
    requires least { 1 ≤ workers }
    requires most { workers ≤ 8 }
    requires short { length input.now ≤ 1048576 }
    requires taken { IsTaken input.now
        (record { protocol = taken.accepted.protocol; scripts = taken.scripts.lines; plan = taken.plan }) }
    ensures later { K.faults sink.old ≤ K.faults sink.new }
    ensures runs { Writes (IsRunOfMany sessions json
        (record { protocol = taken.accepted.protocol; scripts = taken.scripts.lines; plan = taken.plan }))
        (K.written sink.old) (K.written sink.new) (K.faults sink.old) (K.faults sink.new) result }
{
    let too_much = is_too_much(&taken, sessions);
    // Each session reads the input again for itself.
    drop(taken);
    if too_much {
        return put(sink, refuse(alloc));
    }
    let prepared = prepare(rt, alloc, input, sessions, workers)?;
    run_prepared(rt, alloc, prepared.as_slice(), workers, json, sink, gate)
}

// Whether so many sessions may make too many events.
fn is_too_much(taken: &Input, sessions: u32) -> bool
    requires { sessions ≤ 64 }
    ensures { IsTrue result ↔ IsTooMuch sessions
        (record { protocol = taken.now.accepted.protocol; scripts = taken.now.scripts.lines; plan = taken.now.plan }) }
{
    u32::from(taken.accepted.roles()) * taken.plan.limit() * sessions > MOST_EVENTS
}

// The line of that.
fn refuse(alloc: Global) -> Result<Output, AllocError>
    ensures { IfOk result (λ output. (output.status ≡ Status.Refused)
        × (output.bytes.items ≡ refusal_line TooMuch)) }
{
    Ok(Output {
        status: Status::Refused,
        bytes: refusal_line(alloc, &Refused::TooMuch)?,
    })
}

// Runs the sessions that were prepared, and writes their journals. The caller keeps the setups, and frees them at one
// place.
fn run_prepared<R: Threads + Sync, K: Sink, G: Gate + Sync>(
    rt: &R,
    alloc: Global,
    prepared: &[Preparation<'_>],
    workers: u32,
    json: bool,
    sink: &mut K,
    gate: &G,
) -> Result<Status, AllocError>
    requires few { length prepared.now ≤ 64 }
    requires least { 1 ≤ workers }
    requires most { workers ≤ 8 }
    ensures later { K.faults sink.old ≤ K.faults sink.new }
    ensures runs { Writes (IsRunOfPrepared json prepared.now)
        (K.written sink.old) (K.written sink.new) (K.faults sink.old) (K.faults sink.new) result }
{
    let mut jobs = jobs_of(alloc, prepared, json)?;
    run_jobs(rt, gate, jobs.as_mut_slice(), workers);
    write_journals_of(alloc, jobs.as_slice(), json, sink)
}

// A job for each of the sessions that were prepared. It also fails if one of them found no memory.
fn jobs_of<'a>(
    alloc: Global,
    prepared: &'a [Preparation<'_>],
    json: bool,
) -> Result<Vec<Job<'a>>, AllocError>
    ensures { IfOk result (λ jobs. AreJobsOf json prepared.entry.now (length prepared.entry.now) jobs.items) }
{
    let mut jobs = Vec::with_capacity(alloc, prepared.len())?;
    for index in 0..prepared.len() {
        let Some(setup) = prepared[index].setup() else {
            return Err(AllocError);
        };
        jobs.push(Job::new(alloc, setup, json))?;
    }
    Ok(jobs)
}
