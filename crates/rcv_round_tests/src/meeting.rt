// Two roles that begin a session at one time: each waits at its first step for the other's.

use crate::calls::run;
use crate::flag::Flag;
use crate::given::TWO_BUYER;
use rcv_top::Gate;
use rcv_tree::role::RoleId;
use std::test::Fail;

// Holds A at its first step until S comes to its own, and S until A does.
#[derive(Drop)]
struct Meeting {
    buyer: Flag,
    seller: Flag,
    missed: Flag,
}

impl Gate for Meeting {
    fn enter(&self, role: RoleId, count: u32) {
        if count == 0 && role == RoleId(0) {
            self.buyer.set();
            self.seller.wait(&self.missed);
        }
        if count == 0 && role == RoleId(2) {
            self.seller.set();
            self.buyer.wait(&self.missed);
        }
    }

    fn recovering(&self, _role: RoleId) {}

    fn is_open(&self) -> bool {
        false
    }
}

#[test]
fn two_roles_are_at_their_first_steps_at_one_time(rt: HostRuntime) -> Result<(), Fail> {
    let gate = Meeting {
        buyer: Flag::new(),
        seller: Flag::new(),
        missed: Flag::new(),
    };
    let (status, _) = run(&rt, "4", TWO_BUYER, &gate)?;
    assert_eq!(rt; status, 0);
    assert!(rt; gate.buyer.is_set() && gate.seller.is_set());
    assert!(rt; !gate.missed.is_set());
    Ok(())
}
