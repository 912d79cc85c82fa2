// A session whose roles gates hold up so that one journal alone can come.

use crate::calls::run;
use crate::flag::Flag;
use crate::given::PING;
use rcv_top::Gate;
use rcv_tree::role::RoleId;
use std::test::Fail;

// What is written of Ping if A waits with its second step until B has made both of its own.
const JOURNAL: &[u8] = b"send A 1 ping 0 @1
recv B 1 ping 0 @2 <1
send B 2 pong 0 @3
crash B
recv A 2 pong 0 @4 <3
crash A
recover A undone 4: A 0 B 0
recover B undone 0: B 0
send A 1 ping 0 @6
recv B 1 ping 0 @7 <6
send B 2 pong 0 @8
recv A 2 pong 0 @9 <8
role A kept 2 raw 4 done
role B kept 2 raw 4 done
completed
";

// Holds B at its first step until A is at its second one, and A there until B has made two.
#[derive(Drop)]
struct Turns {
    sent: Flag,
    answered: Flag,
    missed: Flag,
}

impl Gate for Turns {
    fn enter(&self, role: RoleId, count: u32) {
        match (role, count) {
            (RoleId(0), 1) => {
                self.sent.set();
                self.answered.wait(&self.missed);
            }
            (RoleId(1), 0) => self.sent.wait(&self.missed),
            (RoleId(1), 2) => self.answered.set(),
            _ => {}
        }
    }

    fn recovering(&self, _role: RoleId) {}

    fn is_open(&self) -> bool {
        false
    }
}

#[test]
fn both_roles_crash_in_one_turn(rt: HostRuntime) -> Result<(), Fail> {
    let gate = Turns {
        sent: Flag::new(),
        answered: Flag::new(),
        missed: Flag::new(),
    };
    let (status, journal) = run(&rt, "2", PING, &gate)?;
    assert_eq!(rt; status, 0);
    assert!(rt; gate.sent.is_set() && gate.answered.is_set());
    assert!(rt; !gate.missed.is_set());
    assert!(rt; journal.as_slice() == JOURNAL);
    Ok(())
}
