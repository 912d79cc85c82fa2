// Judges a journal that stands after its bundle.

ghost use Rattle.std.specs.Prelude.{◌≤◌, ◌↔◌, ℕ, Bool, IsTrue, length, IfOk};
ghost use Rattle.rcv_replay.specs.declared.replayed.Replayed.TheVariants.{Legal};
ghost use Rattle.rcv_replay.specs.Replaying.{IsReplay};
ghost use Rattle.rcv_first_calls.specs.Verdicts.{SaysLegal};

use rcv_replay::replay::replay;
use rcv_replay::replayed::Replayed;
use std::alloc::{AllocError, Global};

/// Whether a bundle, a line `%% journal` and the text of a journal come to a legal journal that is whole. If the bundle
/// or the text is refused, they don't. They have at most 1,048,576 bytes in all. Fails if memory runs out.
pub fn is_whole(alloc: Global, input: &[u8]) -> Result<bool, AllocError>
    requires { length input.now ≤ 1048576 }
    ensures { IfOk result (λ whole. IsTrue whole
        ↔ ((entries : ℕ) × (limited : Bool) × IsReplay input.now (Legal entries limited))) }
{
    let said = replay(alloc, input)?;
    Ok(is_legal(&said))
}

// Whether a verdict is the one on a legal journal that is whole.
fn is_legal(said: &Replayed) -> bool
    ensures { IsTrue result ↔ SaysLegal said.now }
{
    matches!(said, Replayed::Legal { .. })
}
