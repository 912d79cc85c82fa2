// Reads a text.

ghost use Rattle.std.specs.Prelude.{◌≡◌, ◌≤◌, length, IfOk, MatchOption};
ghost use Rattle.rcv_session.specs.Session.{SessionView, roles_of};
ghost use Rattle.rcv_input.specs.declared.refused.Refused.{Refused};
ghost use Rattle.rcv_input.specs.Input.{IsTaken};
ghost use Rattle.rcv_input.specs.Refusals.{IsFirstRefusal};

use rcv_input::{InputError, read_input};
use std::alloc::{AllocError, Global};

/// How many roles the protocol of a text declares; none if the text is refused. A text has at most 1,048,576 bytes.
/// Fails if memory runs out.
pub fn role_count(alloc: Global, input: &[u8]) -> Result<Option<u8>, AllocError>
    requires { length input.now ≤ 1048576 }
    ensures { IfOk result (λ answer. MatchOption answer
        ((refused : Refused) × IsFirstRefusal input.now refused)
        (λ count. (session : SessionView) × IsTaken input.now session × (count ≡ roles_of session))) }
{
    match read_input(alloc, input) {
        Ok(taken) => Ok(Some(taken.accepted.roles())),
        Err(InputError::Refused(_)) => Ok(None),
        Err(InputError::Memory) => Err(AllocError),
    }
}
