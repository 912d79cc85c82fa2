// A role goes back to its first events, and forgets the states that it never goes back to.

ghost use Rattle.std.specs.Prelude.{◌≡◌, ℕ, ◌+◌, ◌*◌, ◌^◌, ◌<◌, ◌≤◌, ◌==◌, true, if◌then◌else◌, length};
ghost use Rattle.rcv_session.specs.Session.{rules_of};
ghost use Rattle.rcv_role.specs.Part.{from_base, durable_of, gone_back, cut_back};

use crate::part::Part;
use rcv_tree::numbers::Numbers;

impl<'a> Part<'a> {
    /// Forgets the states before the one after so many events. The role has saved these events: it never goes back
    /// before their end. It takes no memory.
    pub fn forget(&mut self, line: u32)
        requires step { (k : ℕ) × (k * (rules_of self.old.setup).every self.old.role ≡ line) }
        requires above { self.old.base ≤ line }
        requires saved { line ≤ durable_of self.old }
        ensures { self.new ≡ from_base self.old line }
    {
        self.tail.forget(line);
    }

    /// Goes back to so many of its first events, whose state is held, and runs on.
    pub fn back_to(&mut self, keep: u32, clock: u64)
        requires base { self.old.base ≤ keep }
        requires held { keep ≤ self.old.held }
        requires attempt { self.old.own.numbers.attempt + 1 < 2 ^ 32 }
        ensures { self.new ≡ gone_back self.old keep clock }
    {
        self.numbers.attempt = attempt_behind(&self.numbers, keep as usize, self.events.len());
        self.events.truncate(keep as usize);
        self.tail.rewind(keep);
        self.held = keep;
        self.numbers.clock = clock;
        self.numbers.crashed = false;
        self.chosen = None;
    }

    /// Keeps so many of its first events, and stays crashed. A crashed role has chosen nothing.
    pub fn cut_to(&mut self, keep: u32, clock: u64)
        requires crashed { self.old.own.numbers.crashed ≡ true }
        requires base { self.old.base ≤ keep }
        requires made { keep ≤ length self.old.own.events }
        requires attempt { self.old.own.numbers.attempt + 1 < 2 ^ 32 }
        ensures { self.new ≡ cut_back self.old keep clock }
    {
        self.numbers.attempt = attempt_behind(&self.numbers, keep as usize, self.events.len());
        self.events.truncate(keep as usize);
        let held = keep.min(self.held);
        self.tail.rewind(held);
        self.held = held;
        self.numbers.clock = clock;
    }
}

// The number of the attempt after a recovery that keeps so many of the events made.
fn attempt_behind(numbers: &Numbers, kept: usize, made: usize) -> u32
    requires { numbers.now.attempt + 1 < 2 ^ 32 }
    ensures { result ≡ (if kept == made then numbers.now.attempt else numbers.now.attempt + 1) }
{
    if kept == made {
        return numbers.attempt;
    }
    numbers.attempt + 1
}
