// The journals of jobs that are over, one after the other.

ghost use Rattle.std.specs.Prelude.{◌≡◌, ◌≤◌, length, IfOk, OnOk, if◌then◌else◌};
ghost use Rattle.rcv_top.specs.Sharing.{AreAs, AreJournalsOf, HasOneMore, IsRunOfAll};
ghost use Rattle.rcv_top.specs.Writing.{Writes};

use crate::status::Status;
use rcv_io::Sink;
use rcv_jobs::job::Job;
use rcv_joined::joined::write_journals;
use rcv_page::Page;
use std::alloc::{AllocError, Global};

// How sessions ended in all, and their journals as they are written. The jobs lend the journals.
#[derive(Drop)]
struct Journals<'a> {
    status: Status,
    texts: Vec<&'a [u8]>,
}

/// Writes the journals of at most 64 jobs, in their order, and says how all sessions ended, or that the sink failed.
///
/// The error comes if a job found no memory, or memory runs out here; then nothing was written.
pub fn write_journals_of<K: Sink>(
    alloc: Global,
    jobs: &[Job<'_>],
    json: bool,
    sink: &mut K,
) -> Result<Status, AllocError>
    requires few { length jobs.now ≤ 64 }
    requires as_json { AreAs json jobs.now }
    ensures later { K.faults sink.old ≤ K.faults sink.new }
    ensures writes { Writes (IsRunOfAll json jobs.now)
        (K.written sink.old) (K.written sink.new) (K.faults sink.old) (K.faults sink.new) result }
{
    let journals = journals_of(alloc, jobs)?;
    let page = Page::new(alloc)?;
    // From here on nothing takes memory.
    match write_journals(page, sink, journals.texts.as_slice(), json) {
        Ok(()) => Ok(journals.status),
        Err(_) => Ok(Status::WriteFault),
    }
}

// How the sessions of jobs ended, and their journals. It also fails if a job found no memory.
fn journals_of<'a>(alloc: Global, jobs: &'a [Job<'_>]) -> Result<Journals<'a>, AllocError>
    ensures { IfOk result (λ all. AreJournalsOf jobs.entry.now (length jobs.entry.now) all) }
{
    let mut all = Journals {
        status: Status::Completed,
        texts: Vec::with_capacity(alloc, jobs.len())?,
    };
    for index in 0..jobs.len() {
        all.add(&jobs[index])?;
    }
    Ok(all)
}

impl<'a> Journals<'a> {
    // Adds the journal of a job. It also fails if the job found no memory.
    fn add(&mut self, job: &'a Job<'_>) -> Result<(), AllocError>
        ensures { OnOk result (HasOneMore job.entry.now self.old self.new) }
    {
        let Some((completed, text)) = job.text() else {
            return Err(AllocError);
        };
        self.texts.push(text)?;
        self.status = ended_with(self.status, completed);
        Ok(())
    }
}

// How sessions ended, with one more: limited if that one wasn't completed.
fn ended_with(status: Status, completed: bool) -> Status
    ensures { result ≡ (if completed then status else Status.Limited) }
{
    if completed { status } else { Status::Limited }
}
