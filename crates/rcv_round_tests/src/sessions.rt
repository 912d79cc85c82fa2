// Several sessions of one input: two of them begin at one time, and how many workers they have changes no byte.

use crate::calls::run_sessions;
use crate::flag::Flag;
use rcv_top::{Gate, NoGate};
use rcv_tree::role::RoleId;
use std::sync::atomic::{AtomicU64, Ordering};
use std::test::Fail;

const CALM_PING: &[u8] = b"module ping;
global protocol Ping(role A, role B) {
  ping() from A to B;
  pong() from B to A;
}
";

// What two sessions of it write.
const JOURNALS: &[u8] = b"session 1
send A 1 ping 0 @1
recv B 1 ping 0 @2 <1
send B 2 pong 0 @3
recv A 2 pong 0 @4 <3
role A kept 2 raw 2 done
role B kept 2 raw 2 done
completed
session 2
send A 1 ping 0 @1
recv B 1 ping 0 @2 <1
send B 2 pong 0 @3
recv A 2 pong 0 @4 <3
role A kept 2 raw 2 done
role B kept 2 raw 2 done
completed
";

// Four laps, and 44 after a crash that takes a lap back. A makes nine events in four laps, so of twelve sessions the
// first six crash, and are long.
const UNEVEN: &[u8] = b"module uneven;
global protocol Uneven(role A, role B) {
  rec X {
    choice at A { more() from A to B; told() from B to A; continue X; } or { stop() from A to B; }
  }
}
%% scripts
role A { var n = 0; on more set n = n + 1; pick more when n < 4 + attempt * 40; pick stop; }
%% plan
every A 100 crash A 4
";

// What several sessions begin with.
const HEADING: &[u8] = b"session 1\n";

// Holds the first session that comes to A's first step until a second one has come to its own.
#[derive(Drop)]
struct Pair {
    come: AtomicU64,
    both: Flag,
    missed: Flag,
}

impl Gate for Pair {
    fn enter(&self, role: RoleId, count: u32) {
        if role != RoleId(0) || count != 0 {
            return;
        }
        if self.come.fetch_add(1, Ordering::SeqCst) == 0 {
            self.both.wait(&self.missed);
        } else {
            self.both.set();
        }
    }

    fn recovering(&self, _role: RoleId) {}

    fn is_open(&self) -> bool {
        false
    }
}

#[test]
fn two_sessions_are_at_their_first_steps_at_one_time(rt: HostRuntime) -> Result<(), Fail> {
    let gate = Pair {
        come: AtomicU64::new(0),
        both: Flag::new(),
        missed: Flag::new(),
    };
    let (status, journals) = run_sessions(&rt, "2", "2", CALM_PING, &gate)?;
    assert_eq!(rt; status, 0);
    assert!(rt; gate.both.is_set());
    assert!(rt; !gate.missed.is_set());
    assert!(rt; journals.as_slice() == JOURNALS);
    Ok(())
}

#[test]
fn workers_change_no_byte(rt: HostRuntime) -> Result<(), Fail> {
    let (status, alone) = run_sessions(&rt, "12", "1", UNEVEN, &NoGate)?;
    assert_eq!(rt; status, 0);
    assert!(rt; alone.as_slice().starts_with(HEADING));
    for workers in ["2", "4", "8"] {
        let (status, journals) = run_sessions(&rt, "12", workers, UNEVEN, &NoGate)?;
        assert_eq!(rt; status, 0);
        assert!(rt;
            journals.as_slice() == alone.as_slice(),
            "{workers} workers"
        );
    }
    Ok(())
}
