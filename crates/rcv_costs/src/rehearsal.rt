// Rehearses one crash: a plan with that crash alone, and the session up to the recovery.

ghost use Rattle.std.specs.Prelude.{◌≡◌, ◌<◌, ◌≤◌, ◌↔◌, IsTrue, OnOk, OnErr};
ghost use Rattle.rcv_session.specs.Session.{roles_of};
ghost use Rattle.rcv_costs.specs.Rehearsal.{crash_session, IsRecover, ComesToRecovery};

use rcv_core::book::Book;
use rcv_core::setup::Setup;
use rcv_core::skip::Skip;
use rcv_tree::entry::Entry;
use rcv_tree::role::RoleId;
use std::alloc::{AllocError, Global};

/// The setup gets a plan in which this declared role alone crashes, once, at this count of its events; all else that its
/// plan says stays. Fails if memory runs out; then the setup is as before.
pub fn crash_once(
    alloc: Global,
    setup: &mut Setup,
    role: RoleId,
    count: u32,
) -> Result<(), AllocError>
    requires declared { role < roles_of setup.old }
    requires count { count ≤ 100000 }
    ensures ok { OnOk result (setup.new ≡ crash_session setup.old role count) }
    ensures err { OnErr result (setup.new ≡ setup.old) }
{
    let roles = setup.roles();
    let plan = setup.plan().with_one_crash(alloc, roles, role, count)?;
    setup.replan(plan);
    Ok(())
}

/// Goes on as one thread does, up to the first Recover, and answers that without adding it; to the end if there is
/// none. It takes no memory.
pub fn run_to_recovery(book: &mut Book<'_>) -> Option<Entry>
    ensures { ComesToRecovery book.old book.new result }
{
    let mut skip = Skip::nothing();
    while let Some(entry) = book.next_entry(skip) {
        if is_recover(&entry) {
            return Some(entry);
        }
        // The room is there, so it succeeds.
        let _added = book.push(entry);
        skip = book.skip_behind(&entry);
    }
    None
}

// Whether the entry is a Recover.
fn is_recover(entry: &Entry) -> bool
    ensures { IsTrue result ↔ IsRecover entry.now }
{
    matches!(entry, Entry::Recover { .. })
}
