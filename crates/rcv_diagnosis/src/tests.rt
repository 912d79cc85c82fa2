// Journals of Ping: a legal one in lines, and others.

use crate::diagnosis::{Diagnosis, Finding, diagnose};
use std::alloc::Global;
use std::test::Fail;

const PING: &[u8] = b"module ping;
global protocol Ping(role A, role B) {
  ping() from A to B;
  pong() from B to A;
}
%% journal
";

const LEGAL: &[u8] = b"send A 1 ping 0 @1
recv B 1 ping 0 @2 <1
send B 2 pong 0 @3
recv A 2 pong 0 @4 <3
role A kept 2 raw 2 done
role B kept 2 raw 2 done
completed
";

const EXCHANGED: &[u8] = b"send A 1 ping 0 @1
send A 2 pong 0 @2
role A kept 2 raw 2 done
role B kept 2 raw 2 done
completed
";

const BREAKS_OFF: &[u8] = b"send A 1 ping 0 @1
role A kept 1 raw 1 waits
role B kept 0 raw 0 waits
completed
";

const MISCOUNTED: &[u8] = b"send A 1 ping 0 @1
recv B 1 ping 0 @2 <1
send B 2 pong 0 @3
recv A 2 pong 0 @4 <3
role A kept 2 raw 3 done
role B kept 2 raw 2 done
completed
";

const JSON: &[u8] =
    b"{\"entries\":[[\"crash\",\"B\"]],\"limited\":[],\"roles\":[[\"A\",0,0,\"done\"],[\"B\",0,0,\"done\"]]}\n";

// What is found in Ping with this journal.
fn found(alloc: Global, journal: &[u8]) -> Result<Diagnosis, Fail> {
    let mut input = Vec::from_slice(alloc, PING)?;
    input.extend_from_slice(journal)?;
    if input.len() > 4096 {
        return Err(Fail::new("too long"));
    }
    Ok(diagnose(alloc, input.as_slice())?)
}

#[test]
fn legal_journals_are_legal(rt: HostRuntime) -> Result<(), Fail> {
    let answer = found(rt.alloc(), LEGAL)?;
    assert!(rt; answer.finding == Finding::Legal);
    assert!(rt; answer.bytes.as_slice() == b"legal 4 entries completed\n".as_slice());
    Ok(())
}

#[test]
fn a_role_that_waits_can_do_nothing(rt: HostRuntime) -> Result<(), Fail> {
    let answer = found(rt.alloc(), EXCHANGED)?;
    assert!(rt; answer.finding == Finding::Wrong);
    assert!(rt;
        answer.bytes.as_slice()
            == b"wrong entry 2\nline 8 is: send A 2 pong 0 @2\nA could do nothing: it waits for B\n".as_slice()
    );
    Ok(())
}

#[test]
fn json_has_entries(rt: HostRuntime) -> Result<(), Fail> {
    let answer = found(rt.alloc(), JSON)?;
    assert!(rt; answer.finding == Finding::Wrong);
    assert!(rt;
        answer.bytes.as_slice()
            == b"wrong entry 1\nentry 1 is: crash B\nB could do nothing: it waits for A\n".as_slice()
    );
    Ok(())
}

#[test]
fn wrong_ends_have_right_ones(rt: HostRuntime) -> Result<(), Fail> {
    let answer = found(rt.alloc(), BREAKS_OFF)?;
    assert!(rt; answer.finding == Finding::Wrong);
    assert!(rt;
        answer.bytes.as_slice()
            == b"wrong end\nthe session isn't over: B could: recv B 1 ping 0 @2 <1\n".as_slice()
    );
    let answer = found(rt.alloc(), MISCOUNTED)?;
    assert!(rt;
        answer.bytes.as_slice()
            == b"wrong end\nthe end is:\nrole A kept 2 raw 2 done\nrole B kept 2 raw 2 done\ncompleted\n".as_slice()
    );
    Ok(())
}
