// Whether several workers are worth having: what the last rounds on threads showed.

ghost use Rattle.std.specs.Prelude.{◌≤◌};

use rcv_passes::activity::Activity;

// Making a thread and joining it costs some 50 microseconds, and several times that on a busy machine. If one role at
// a time has something to do, each round would pay that for a few entries. So after a round on threads that added fewer
// than FEW entries, or in which the others mostly waited for one, REST rounds are made on this thread alone before
// threads are started again.
const FEW: usize = 64;

const REST: u32 = 16;

/// What the last round on threads was like.
#[derive(Clone, Copy, Debug)]
pub struct Sharing {
    // Whether one worker at a time had something to do, in seven of eight passes that moved a role.
    is_lonely: bool,
    // How many rounds are still to be made on the caller's thread alone.
    resting: u32,
}

impl Sharing {
    /// Before the first round.
    pub fn new() -> Sharing {
        Sharing {
            is_lonely: false,
            resting: 0,
        }
    }

    /// How many workers make the next round.
    pub fn workers(&self, workers: usize) -> usize
        requires { 2 ≤ workers }
        ensures least { 1 ≤ result }
        ensures most { result ≤ workers }
    {
        if self.resting > 0 { 1 } else { workers }
    }

    /// Counts a round that added so many entries.
    pub fn count(&mut self, added: usize, activity: Activity) {
        if self.resting > 0 {
            self.resting -= 1;
            return;
        }
        self.is_lonely = activity.moves > 0
            && activity.alone.saturating_mul(8) >= activity.moves.saturating_mul(7);
        if added < FEW || self.is_lonely {
            self.resting = REST;
        }
    }

    /// Whether, in the last round on threads, nearly always one worker at a time had something to do.
    pub fn is_lonely(&self) -> bool {
        self.is_lonely
    }
}
