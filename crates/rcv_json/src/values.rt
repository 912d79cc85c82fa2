// Values as text.

ghost use Rattle.std.specs.Prelude.{◌≡◌, ◌++◌, false, OnOk};
ghost use Rattle.serde_json.specs.Data.{string};
ghost use Rattle.serde_json.specs.View.{view};
ghost use Rattle.serde_json.specs.Written.{compact_text, has_float};

use rcv_text::writer::Writer;
use serde_json::Value;
use std::alloc::{AllocError, Global};

/// The text goes on with a value that has no float, without spaces. Fails if memory runs out.
pub fn write_value(alloc: Global, text: &mut Writer, value: &Value) -> Result<(), AllocError>
    requires { has_float (view value.now) ≡ false }
    ensures { OnOk result (text.new ≡ text.old ++ compact_text (view value.now)) }
{
    text.word(value.to_vec(alloc)?.as_slice())
}

/// The text goes on with a string in quotes. Fails if memory runs out.
pub fn write_quoted(alloc: Global, text: &mut Writer, word: &str) -> Result<(), AllocError>
    ensures { OnOk result (text.new ≡ text.old ++ compact_text (string word.now)) }
{
    write_value(alloc, text, &Value::try_from_str(alloc, word)?)
}
