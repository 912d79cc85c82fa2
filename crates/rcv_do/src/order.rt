// The places of protocols in an order in which each stands after those that it calls.

ghost use Rattle.std.specs.Prelude.{IfSome, IfNone};
ghost use Rattle.rcv_model.specs.Net.{IsIn};
ghost use Rattle.rcv_do.specs.Code.{IsFront};

/// Those that stand before this place, if it is among them.
pub fn before(order: &[usize], place: usize) -> Option<&[usize]>
    ensures some { IfSome result (λ front. IsFront order.now place front.now) }
    ensures none { IfNone result (IsIn place order.now → ⊥) }
{
    for index in 0..order.len() {
        if order[index] == place {
            return Some(&order[..index]);
        }
    }
    None
}
