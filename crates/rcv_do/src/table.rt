// Which code of the table holds at a call.

ghost use Rattle.std.specs.Prelude.{◌≡◌, ◌<◌, ◌≤◌, All, length, map, IfSome};
ghost use Rattle.rcv_module.specs.Parts.{Site, sites};
ghost use Rattle.rcv_do.specs.Code.{protocols_in, parts_in, call_of};
ghost use Rattle.rcv_do.specs.Faults.{IsLeastFault, IsFirstFault};
ghost use Rattle.rcv_do.specs.Rows.{IsInside, AreRowsOf};

use crate::calls::Call;
use crate::parts::Parts;
use crate::set::Set;
use rcv_module::Fault;

// The least code that holds at the call.
fn fault_of(parts: &Parts<'_>, rows: &[Set], call: &Call) -> Option<Fault>
    requires few { length (protocols_in parts.now) ≤ 64 }
    requires rows { length rows.now ≡ length (protocols_in parts.now) }
    requires inside { IsInside (length (protocols_in parts.now)) call.now }
    ensures { (s : Site) → call.now ≡ call_of (parts_in parts.now) s → AreRowsOf (parts_in parts.now) rows.now
        → IsLeastFault (parts_in parts.now) s result }
{
    let Some(target) = call.target else {
        return Some(Fault::NoName);
    };
    let protocol = parts.at(target);
    if protocol.roles.as_slice().len() != call.arguments {
        return Some(Fault::Arity);
    }
    if rows[target].has(call.holder) {
        return Some(Fault::Recursive);
    }
    if protocol.body.as_slice().is_empty() {
        return Some(Fault::Empty);
    }
    None
}

/// The first call at which a code holds, counted from 0, with the least code.
pub fn first_fault(parts: &Parts<'_>, rows: &[Set], calls: &[Call]) -> Option<(usize, Fault)>
    requires few { length (protocols_in parts.now) ≤ 64 }
    requires rows { length rows.now ≡ length (protocols_in parts.now) }
    requires inside { All (IsInside (length (protocols_in parts.now))) calls.now }
    ensures inside { IfSome result (λ r. r.0 < length calls.now) }
    ensures first { calls.now ≡ map (call_of (parts_in parts.now)) (sites (parts_in parts.now)) → AreRowsOf (parts_in parts.now) rows.now
        → IsFirstFault (parts_in parts.now) result }
{
    for number in 0..calls.len() {
        if let Some(fault) = fault_of(parts, rows, &calls[number]) {
            return Some((number, fault));
        }
    }
    None
}
