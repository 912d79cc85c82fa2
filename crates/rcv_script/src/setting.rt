// What is changed after a line that sets a variable.

ghost use Rattle.std.specs.Prelude.{ℤ, List, slice_set};
ghost use Rattle.rcv_checkpoint.specs.Changed.{IsChange};

use rcv_checkpoint::changed::Changed;

/// What may have changed if the variable at a place is set after such a change. It takes no memory.
#[inline(always)]
pub fn behind_set(changed: Changed, place: usize) -> Changed
    ensures { (from : List ℤ) (to : List ℤ) (number : ℤ)
        → IsChange changed from to → IsChange result from (slice_set to place number) }
{
    match changed {
        Changed::Nothing if place < 16 => Changed::One(place as u8),
        Changed::One(other) if place == other as usize => changed,
        _ => Changed::Any,
    }
}
