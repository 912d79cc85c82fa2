// The setups of several sessions, which workers make.

ghost use Rattle.std.specs.Prelude.{◌≡◌, ◌≤◌, ℕ, List, length, IfOk};
ghost use Rattle.rcv_session.specs.Session.{SessionView};
ghost use Rattle.rcv_input.specs.Input.{IsTaken};
ghost use Rattle.rcv_later.specs.Preparing.{IsShortInput, ArePrepared, waiting};

use crate::preparation::Preparation;
use rcv_many::run_all;
use std::alloc::{AllocError, Global};
use std::thread::Threads;

/// Makes the setups of so many sessions, at most 64, of an input that is taken and has at most 1,048,576 bytes, by at
/// most so many threads at a time, from 1 to 8, and joins them. In each session the crash counts are one more than in
/// the one before; in the first one they are as they were read. A preparation stops if it finds no memory.
///
/// The error comes if no memory was left for the list of them.
pub fn prepare<'a, R: Threads + Sync>(
    rt: &R,
    alloc: Global,
    input: &'a [u8],
    sessions: u32,
    workers: u32,
) -> Result<Vec<Preparation<'a>>, AllocError>
    requires taken { (session : SessionView) × IsTaken input.now session }
    requires short { length input.now ≤ 1048576 }
    requires few { sessions ≤ 64 }
    requires least { 1 ≤ workers }
    requires most { workers ≤ 8 }
    ensures { IfOk result (λ all. ArePrepared input.now sessions all.items) }
{
    let mut all = unread(alloc, input, sessions)?;
    run_all(rt, &(), all.as_mut_slice(), workers);
    Ok(all)
}

// The preparations of so many sessions, none of which has begun. Fails if memory runs out.
#[tactic(auto, using(crate::proofs::Preparing::one_more))]
fn unread<'a>(
    alloc: Global,
    input: &'a [u8],
    sessions: u32,
) -> Result<Vec<Preparation<'a>>, AllocError>
    requires input { IsShortInput input.now }
    requires few { sessions ≤ 64 }
    ensures { IfOk result (λ all. all.items ≡ waiting input.now sessions) }
{
    let mut all = Vec::with_capacity(alloc, sessions as usize)?;
    for by in 0..sessions {
        all.push(Preparation::new(alloc, input, by))?;
    }
    Ok(all)
}
