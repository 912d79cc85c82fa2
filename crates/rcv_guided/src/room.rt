// Room for what is told: if none is left, the session forgets what is stable.

ghost use Rattle.std.specs.Prelude.{◌≡◌, ◌<◌, ◌≤◌, [], length, replicate, OnOk, OnErr};
ghost use Rattle.rcv_guide.specs.Guide.{roles_of, MayForget};
ghost use Rattle.rcv_guided.specs.Session.{IsSameSession};
ghost use Rattle.rcv_guided.specs.Histories.{GoesOnBy};
ghost use Rattle.rcv_guided.specs.Room.{HaveForgotten, HasGrown};
ghost use Rattle.rcv_guided.specs.Answers.{IsJudging};

use crate::session::GuidedSession;
use rcv_guide::guide::Guide;
use rcv_saves::saves::Saves;
use rcv_tree::role::RoleId;
use std::alloc::{AllocError, Global};

// A guide has at most twice this room.
const MOST_BUT_TWICE: u32 = 1 << 30;

// Forgets what was told of saves within what is forgotten.
fn forget_saves(saves: &mut Saves, guide: &Guide)
    requires { roles_of guide.now ≤ length saves.old.steps }
    ensures { HaveForgotten guide.now saves.old saves.new }
{
    for role in 0..guide.roles() {
        saves.forget(RoleId(role), guide.forgotten(RoleId(role)));
    }
}

impl GuidedSession {
    // Forgets what no failure takes back. Fails if memory runs out.
    fn forget_stable(&mut self, alloc: Global) -> Result<(), AllocError>
        ensures same { OnOk result (IsSameSession self.old self.new) }
        ensures history { OnOk result (GoesOnBy self.old [] self.new) }
        ensures all { OnOk result (MayForget self.new.guide (replicate 8 0)) }
        ensures err { OnErr result (self.new ≡ self.old) }
    {
        // Tells the proof that the session has a memory.
        let _roles = self.guide.roles();
        // Tells it that what is remembered fits.
        let _used = self.guide.used();
        let stable = self.guide.line(&self.saves);
        let room = self.guide.room();
        self.guide.forget(alloc, &stable, room)?;
        forget_saves(&mut self.saves, &self.guide);
        Ok(())
    }

    // Forgets what no failure takes back, if there is memory for it.
    pub(crate) fn shorten(&mut self, alloc: Global)
        ensures judging { IsJudging self.old self.new }
        ensures history { GoesOnBy self.old [] self.new }
        ensures protocol { self.new.guide.protocol ≡ self.old.guide.protocol }
    {
        let _forgotten = self.forget_stable(alloc);
    }

    // Doubles the room. Fails if memory runs out, and above 2^31 events.
    fn grow(&mut self, alloc: Global) -> Result<(), AllocError>
        requires { MayForget self.old.guide (replicate 8 0) }
        ensures grown { OnOk result (HasGrown self.old self.new) }
        ensures history { OnOk result (GoesOnBy self.old [] self.new) }
        ensures err { OnErr result (self.new ≡ self.old) }
    {
        // Tells the proof that the session has a memory.
        let _roles = self.guide.roles();
        // Tells it that what is remembered fits.
        let _used = self.guide.used();
        let room = self.guide.room();
        if room >= MOST_BUT_TWICE {
            return Err(AllocError);
        }
        self.guide.forget(alloc, &[0; 8], 2 * room)
    }

    // Makes room for one event if none is left: forgets what is stable, and doubles the room if it is still half full.
    // Fails if memory runs out.
    pub(crate) fn make_room(&mut self, alloc: Global) -> Result<(), AllocError>
        ensures judging { IsJudging self.old self.new }
        ensures history { GoesOnBy self.old [] self.new }
        ensures protocol { self.new.guide.protocol ≡ self.old.guide.protocol }
        ensures ok { OnOk result (self.new.guide.used < self.new.guide.room) }
    {
        if self.guide.used() < self.guide.room() {
            return Ok(());
        }
        self.forget_stable(alloc)?;
        if self.guide.used() > self.guide.room() / 2 {
            self.grow(alloc)?;
        }
        Ok(())
    }
}
