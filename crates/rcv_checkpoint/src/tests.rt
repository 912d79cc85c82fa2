// Stacks that save, crash and go back.

ghost use Rattle.std.specs.Prelude.{◌≡◌, ◌*◌, ◌≤◌, ℕ, length, IfOk};
ghost use Rattle.rcv_checkpoint.specs.Stack.{held};
ghost use Rattle.rcv_checkpoint.specs.Tail.{made};

use crate::changed::Changed;
use crate::stack::Stack;
use crate::state::State;
use crate::tail::Tail;
use rcv_tree::variables::Vars;
use std::alloc::{AllocError, Global};
use std::test::Fail;

// The state after so many events. Its first variable counts them.
fn counted(count: u32) -> State {
    let mut vars = [0; 16];
    vars[0] = i64::from(count);
    State {
        k: 1,
        vars: Vars(vars),
    }
}

// A stack with so many saves.
fn saved(alloc: Global, every: u32, room: u32) -> Result<Stack, AllocError>
    requires { 1 ≤ every }
    ensures held { IfOk result (λ stack. held stack ≡ room) }
    ensures every { IfOk result (λ stack. stack.every ≡ every) }
{
    let mut stack = Stack::new(alloc, counted(0), every, room)?;
    for count in 0..room {
        stack.save(1, &counted(count + 1).vars, Changed::Any)?;
    }
    Ok(stack)
}

#[test]
fn of_three_states_two_are_durable(rt: HostRuntime) -> Result<(), Fail> {
    let mut stack = Stack::new(rt.alloc(), counted(0), 2, 4)?;
    stack.save(1, &counted(1).vars, Changed::Any)?;
    stack.save(1, &counted(2).vars, Changed::Any)?;
    stack.save(1, &counted(3).vars, Changed::Any)?;
    assert_eq!(rt; stack.durable(), 2);
    Ok(())
}

#[test]
fn a_crash_loses_the_states_behind_the_durable_one(rt: HostRuntime) -> Result<(), Fail> {
    let mut stack = saved(rt.alloc(), 50, 200)?;
    assert_eq!(rt; stack.state_at(130), counted(130));
    assert_eq!(rt; stack.durable(), 200);
    stack.lose_to(100);
    assert_eq!(rt; stack.durable(), 100);
    assert_eq!(rt; stack.state_at(100), counted(100));
    Ok(())
}

// A tail with so many saves. It has forgotten none of them.
fn kept(alloc: Global, every: u32, room: u32) -> Result<Tail, AllocError>
    requires { 1 ≤ every }
    ensures base { IfOk result (λ tail. tail.base ≡ 0) }
    ensures made { IfOk result (λ tail. made tail ≡ room) }
    ensures every { IfOk result (λ tail. tail.every ≡ every) }
{
    let mut tail = Tail::new(alloc, counted(0), every, room)?;
    for count in 0..room {
        tail.save(1, &counted(count + 1).vars, Changed::Any)?;
    }
    Ok(tail)
}

#[test]
fn the_states_from_the_base_on_stay(rt: HostRuntime) -> Result<(), Fail> {
    let mut tail = kept(rt.alloc(), 50, 200)?;
    tail.forget(150);
    assert_eq!(rt; tail.base(), 150);
    assert_eq!(rt; tail.count(), 200);
    assert_eq!(rt; tail.state_at(150), counted(150));
    assert_eq!(rt; tail.state_at(199), counted(199));
    assert_eq!(rt; tail.durable(), 200);
    Ok(())
}

#[test]
fn what_is_forgotten_gives_room_to_what_is_saved(rt: HostRuntime) -> Result<(), Fail> {
    let mut tail = kept(rt.alloc(), 50, 200)?;
    tail.forget(150);
    tail.rewind(170);
    tail.save(1, &counted(9).vars, Changed::Any)?;
    assert_eq!(rt; tail.state_at(171), counted(9));
    assert_eq!(rt; tail.durable(), 150);
    tail.lose_to(150);
    assert_eq!(rt; *tail.top(), counted(150));
    Ok(())
}
