// Names, lists of names and lists of points as values.

ghost use Rattle.std.specs.Prelude.{◌≡◌, map, IfOk};
ghost use Rattle.std.specs.Str.{IsUtf8};
ghost use Rattle.serde_json.specs.View.{view};
ghost use Rattle.rcv_tree.specs.Names.{name_at};
ghost use Rattle.rcv_export.specs.Pieces.{ascii_of, count, list_of, word_data, words_data};

use rcv_tree::name::{Name, Names};
use rcv_tree::point::Point;
use rcv_tree::role::RoleId;
use serde_json::Value;
use std::alloc::{AllocError, Global};
use std::str::from_utf8;

// The ASCII bytes of a name. A word has no others. Fails if memory runs out.
fn ascii_of(alloc: Global, name: &[u8]) -> Result<Vec<u8>, AllocError>
    ensures { IfOk result (λ kept. kept.items ≡ ascii_of name.now) }
{
    let mut kept = Vec::new(alloc);
    for byte in name {
        if *byte < 128 {
            kept.push(*byte)?;
        }
    }
    Ok(kept)
}

// The bytes as text, which they are.
fn text_of(bytes: &[u8]) -> &str
    requires { IsUtf8 bytes.now }
    ensures { result.now ≡ bytes.now }
{
    from_utf8(bytes).unwrap()
}

/// A name. Fails if memory runs out.
pub fn word_value(alloc: Global, name: &[u8]) -> Result<Value, AllocError>
    ensures { IfOk result (λ value. view value ≡ word_data name.now) }
{
    let kept = ascii_of(alloc, name)?;
    Value::try_from_str(alloc, text_of(kept.as_slice()))
}

/// Names, in order. Fails if memory runs out.
pub fn words_value(alloc: Global, names: &[Name]) -> Result<Value, AllocError>
    ensures { IfOk result (λ value. view value ≡ words_data names.now) }
{
    let mut list = Vec::new(alloc);
    for name in names {
        list.push(word_value(alloc, name.as_slice())?)?;
    }
    Ok(Value::Array(list))
}

/// Points, in order. Fails if memory runs out.
pub fn points_value(alloc: Global, points: &[Point]) -> Result<Value, AllocError>
    ensures { IfOk result (λ value. view value ≡ list_of (map count points.now)) }
{
    let mut list = Vec::new(alloc);
    for point in points {
        list.push(Value::from(point.0))?;
    }
    Ok(Value::Array(list))
}

/// The name of a role. Fails if memory runs out.
pub fn role_value(alloc: Global, roles: &Names, role: RoleId) -> Result<Value, AllocError>
    ensures { IfOk result (λ value. view value ≡ word_data (name_at roles.now role)) }
{
    word_value(alloc, roles.name(role))
}
