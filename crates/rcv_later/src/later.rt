// The setup of a later one of several sessions.

ghost use Rattle.std.specs.Prelude.{◌≡◌, ◌≤◌, length, IfOk};
ghost use Rattle.std.specs.List.{All};
ghost use Rattle.rcv_script.specs.Scripts.{AreScriptsFor};
ghost use Rattle.rcv_plan.specs.Lines.{IsPlanned, HasReadCount};
ghost use Rattle.rcv_later.specs.Later.{later};

use rcv_core::setup::Setup;
use rcv_input::Input;
use std::alloc::{AllocError, Global};

/// The setup of one of several sessions of what an input was taken as: with so many, from 0 to 63, added to each crash
/// count. The scripts and the plan are as `read_input` gives them.
///
/// The error comes if no memory was left.
pub fn later_setup(alloc: Global, taken: Input, by: u32) -> Result<Setup, AllocError>
    requires by { by ≤ 63 }
    requires belong { AreScriptsFor taken.accepted.protocol taken.scripts }
    requires planned { IsPlanned (length taken.accepted.protocol.roles) taken.plan }
    requires counted { All HasReadCount taken.plan }
    ensures { IfOk result (λ setup. setup ≡ later
        (record { protocol = taken.accepted.protocol; scripts = taken.scripts.lines; plan = taken.plan }) by) }
{
    let plan = taken.plan.shifted(alloc, by)?;
    Setup::new(alloc, taken.accepted, taken.scripts, plan)
}
