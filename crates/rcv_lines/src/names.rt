// Fields that are names of roles.

ghost use Rattle.std.specs.Prelude.{◌≡◌, ◌≤◌, ◌<◌, ℕ, List, length, map, true, false, IfOk, IfSome, IfNone};
ghost use Rattle.rcv_tree.specs.Names.{name_at};
ghost use Rattle.rcv_model.specs.Names.{AreDifferent};
ghost use Rattle.rcv_journal.specs.Form.{IsAscending};
ghost use Rattle.rcv_lines.specs.Cutting.{texts};
ghost use Rattle.rcv_lines.specs.Named.{HaveNames};

use rcv_tree::name::Names;
use rcv_tree::role::RoleId;
use std::alloc::{AllocError, Global};

// The role whose name the field is.
pub fn role(names: &Names, field: &[u8]) -> Option<RoleId>
    requires { length names.now ≤ 8 }
    ensures declared { IfSome result (λ r. r < length names.now) }
    ensures some { IfSome result (λ r. field.now ≡ name_at names.now r) }
    ensures none { IfNone result ((r : ℕ) → r < length names.now → field.now ≡ name_at names.now r → ⊥) }
{
    let place = names.place_of(field)?;
    Some(RoleId(place as u8))
}

// The roles whose names the fields are. Fails if memory runs out.
fn roles(alloc: Global, names: &Names, fields: &[&[u8]]) -> Result<Option<Vec<RoleId>>, AllocError>
    requires { length names.now ≤ 8 }
    ensures declared { IfOk result (λ read. IfSome read (λ roles. HaveNames names.now roles.items)) }
    ensures some { IfOk result (λ read. IfSome read (λ roles. map (name_at names.now) roles.items ≡ texts fields.now)) }
    ensures none { IfOk result (λ read. IfNone read ((roles : List ℕ)
        → HaveNames names.now roles → map (name_at names.now) roles ≡ texts fields.now → ⊥)) }
{
    let mut roles = Vec::new(alloc);
    for field in fields {
        let Some(role) = role(names, field) else {
            return Ok(None);
        };
        roles.push(role)?;
    }
    Ok(Some(roles))
}

// Whether each role comes before the next one.
fn is_ascending(roles: &[RoleId]) -> bool
    ensures yes { result ≡ true → IsAscending roles.now }
    ensures no { result ≡ false → IsAscending roles.now → ⊥ }
{
    for place in 1..roles.len() {
        let before = roles[place - 1];
        let role = roles[place];
        if before.0 >= role.0 {
            return false;
        }
    }
    true
}

// The roles whose names the fields are, in order, each once. Fails if memory runs out.
pub fn roles_in_order(
    alloc: Global,
    names: &Names,
    fields: &[&[u8]],
) -> Result<Option<Vec<RoleId>>, AllocError>
    requires few { length names.now ≤ 8 }
    requires differ { AreDifferent names.now }
    ensures declared { IfOk result (λ read. IfSome read (λ roles. HaveNames names.now roles.items)) }
    ensures ascending { IfOk result (λ read. IfSome read (λ roles. IsAscending roles.items)) }
    ensures some { IfOk result (λ read. IfSome read (λ roles. map (name_at names.now) roles.items ≡ texts fields.now)) }
    ensures none { IfOk result (λ read. IfNone read ((roles : List ℕ)
        → HaveNames names.now roles → IsAscending roles → map (name_at names.now) roles ≡ texts fields.now → ⊥)) }
{
    let Some(roles) = roles(alloc, names, fields)? else {
        return Ok(None);
    };
    if is_ascending(roles.as_slice()) {
        Ok(Some(roles))
    } else {
        Ok(None)
    }
}
