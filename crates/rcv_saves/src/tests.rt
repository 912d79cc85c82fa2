// Saves that are told, that go back and that are forgotten.

ghost use Rattle.std.specs.Prelude.{◌≡◌, length, IfOk};
ghost use Rattle.rcv_saves.specs.Saves.{opened};

use crate::saves::Saves;
use rcv_tree::role::RoleId;
use std::test::Fail;

#[test]
fn the_last_save_is_told_or_stepped(rt: HostRuntime) -> Result<(), Fail> {
    let mut saves = Saves::new(rt.alloc(), &[0, 10])?;
    saves.save(RoleId(0), 7)?;
    saves.save(RoleId(0), 3)?;
    saves.save(RoleId(0), 7)?;
    assert_eq!(rt; saves.last(RoleId(0), 0, 9), 7);
    assert_eq!(rt; saves.last(RoleId(0), 0, 6), 3);
    assert_eq!(rt; saves.last(RoleId(0), 0, 2), 0);
    saves.save(RoleId(1), 14)?;
    assert_eq!(rt; saves.last(RoleId(1), 0, 19), 14);
    assert_eq!(rt; saves.last(RoleId(1), 0, 20), 20);
    assert_eq!(rt; saves.last(RoleId(1), 11, 13), 11);
    Ok(())
}

#[test]
fn what_is_cut_or_forgotten_is_no_save(rt: HostRuntime) -> Result<(), Fail> {
    let mut saves = Saves::new(rt.alloc(), &[0, 0])?;
    saves.save(RoleId(1), 4)?;
    saves.save(RoleId(1), 8)?;
    saves.cut(RoleId(1), 6);
    assert_eq!(rt; saves.last(RoleId(1), 0, 9), 4);
    saves.save(RoleId(1), 9)?;
    saves.forget(RoleId(1), 4);
    assert_eq!(rt; saves.last(RoleId(1), 2, 8), 2);
    assert_eq!(rt; saves.last(RoleId(1), 2, 9), 9);
    Ok(())
}
