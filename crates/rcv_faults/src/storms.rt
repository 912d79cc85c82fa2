// Roles that crash: each keeps what it keeps if nothing crashes.

use crate::call::{Fault, run};
use crate::plan::with_plan;
use rcv_same_kept::keep_the_same;
use std::alloc::{AllocError, Global};
use std::io;
use std::thread::Threads;

// A role, and how many events it has.
struct Role {
    name: &'static str,
    events: u32,
}

const ROLES: [Role; 3] = [
    Role {
        name: "A",
        events: 4,
    },
    Role {
        name: "B",
        events: 6,
    },
    Role {
        name: "S",
        events: 6,
    },
];

// The plan of many crash lines has one for each role at each count up to this one.
const MOST: u32 = 20;

/// Prints each plan of crashes with which this session doesn't complete, or some role doesn't keep what it keeps in
/// this journal.
pub fn try_storms<R: AllocGlobal + Print + Threads + Sync>(
    rt: &R,
    session: &[u8],
    journal: &[u8],
) -> io::Result<()> {
    for role in ROLES.iter() {
        for every in [1, 100] {
            for count in 0..=role.events {
                let name = role.name;
                let plan = format!(in rt.alloc(); "every {name} {every} crash {name} {count}")?;
                try_plan(rt, session, plan.as_str(), journal)?;
            }
        }
    }
    let plan = many_crashes(rt.alloc())?;
    try_plan(rt, session, plan.as_str(), journal)
}

// The plan in which each role crashes again and again.
fn many_crashes(alloc: Global) -> Result<String, AllocError> {
    let mut plan = String::new(alloc);
    for role in ROLES.iter() {
        let name = role.name;
        let line = format!(in alloc; "every {name} 3\n")?;
        plan.push_str(line.as_str())?;
        for count in 0..=MOST {
            let line = format!(in alloc; "crash {name} {count}\n")?;
            plan.push_str(line.as_str())?;
        }
    }
    Ok(plan)
}

/// Prints if a journal counts as the same without its first event: then storms would tell nothing.
pub fn try_without_an_event<R: AllocGlobal + Print>(rt: &R, journal: &[u8]) -> io::Result<()> {
    let text = String::from_utf8_lossy(rt.alloc(), journal)?;
    let Some((_, rest)) = text.as_str().split_once("\n") else {
        return println!(rt; "the journal has one line");
    };
    if keep_the_same(rt.alloc(), journal, rest.as_bytes())? {
        println!(rt; "a journal counts as the same without its first event")?;
    }
    Ok(())
}

// Prints what differs with this plan, with one worker and with four.
fn try_plan<R: AllocGlobal + Print + Threads + Sync>(
    rt: &R,
    session: &[u8],
    plan: &str,
    journal: &[u8],
) -> io::Result<()> {
    let alloc = rt.alloc();
    let text = with_plan(alloc, session, plan)?;
    for workers in ["1", "4"] {
        let answer = run(rt, text.as_slice(), workers, Fault::None)?;
        if answer.status != 0 || !keep_the_same(alloc, journal, answer.bytes.as_slice())? {
            let written = String::from_utf8_lossy(alloc, answer.bytes.as_slice())?;
            println!(rt;
                "{plan} with {workers} workers ends with {} and writes\n{}",
                answer.status,
                written.as_str()
            )?;
        }
    }
    Ok(())
}
