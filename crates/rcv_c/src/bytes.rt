// Bytes that are copied for C.

ghost use Rattle.std.specs.Prelude.{◌≡◌, ◌≤◌, length, take, drop};

/// Copies bytes to the front of a list.
pub fn copy(bytes: &[u8], out: &mut [u8])
    requires { length bytes.now ≤ length out.old }
    ensures front { take (length bytes.now) out.new ≡ bytes.now }
    ensures rest { drop (length bytes.now) out.new ≡ drop (length bytes.now) out.old }
    ensures long { length out.new ≡ length out.old }
{
    out[..bytes.len()].copy_from_slice(bytes);
}
