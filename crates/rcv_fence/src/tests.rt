// Several watches of one fence.

use crate::fence;
use rcv_tree::point::Point;
use rcv_tree::role::RoleId;
use std::test::Fail;

#[test]
fn what_one_watch_raises_another_sees_until_it_is_lowered(rt: HostRuntime) -> Result<(), Fail> {
    let mut watches = fence(rt.alloc(), 2)?;
    assert_eq!(rt; watches.len(), 2);
    assert!(rt; watches[0].look().is_none());
    watches[1].raise(RoleId(1), Point(1));
    assert!(rt; watches[0].look() == Some((RoleId(1), Point(1))));
    watches[1].lower();
    assert!(rt; watches[0].look().is_none());
    Ok(())
}

#[test]
fn what_was_raised_last_stands_at_all_of_nine_watches(rt: HostRuntime) -> Result<(), Fail> {
    let mut watches = fence(rt.alloc(), 9)?;
    assert_eq!(rt; watches.len(), 9);
    watches[0].raise(RoleId(0), Point(1));
    watches[8].raise(RoleId(7), Point(256));
    for watch in watches.as_mut_slice() {
        assert!(rt; watch.look() == Some((RoleId(7), Point(256))));
    }
    Ok(())
}
