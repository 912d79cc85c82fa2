// Tries the whole program over memory with each kind of fault: an input that is cut, calls of the source and of the
// sink that fail, and roles that crash. Prints what differs.
#![tactic(auto)]

mod call;
mod cuts;
mod fault;
mod plan;
mod reads;
mod storms;
mod writes;

use call::{Fault, run};
use std::{fs, io};

fn main(rt: HostRuntime) -> io::Result<()> {
    let session = fs::read(&rt, "two_buyer.rcv")?;
    let session = session.as_slice();
    let calm = run(&rt, session, "1", Fault::None)?;
    if calm.status != 0 {
        return println!(rt; "without a fault the call ends with {}", calm.status);
    }
    let journal = calm.bytes.as_slice();
    cuts::try_cuts(&rt, session)?;
    reads::try_reads(&rt, session, journal)?;
    writes::try_writes(&rt, session, journal)?;
    storms::try_without_an_event(&rt, journal)?;
    storms::try_storms(&rt, session, journal)?;
    println!(rt; "each fault was tried")
}
