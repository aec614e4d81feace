//! From bytes to a JSON value.

ghost use Rattle.std.specs.Prelude.{◌≡◌, Some, None, IfOk, IfErr};
ghost use Rattle.serde_json.specs.Errors.{IsMemory};
ghost use Rattle.serde_json.specs.View.{view};
ghost use Rattle.json_fields.specs.Fields.{json_of};
ghost use Rattle.json_fields.specs.declared.parse.Unread.TheVariants.{NotJson};

use serde_json::{Error, Value};
use std::alloc::Global;

/// Why bytes give no value.
#[derive(Debug, Clone, Copy, PartialEq, Eq)]
pub enum Unread {
    /// The bytes are not UTF-8, or the text is not one JSON value, or it nests arrays and objects deeper than 127.
    NotJson,
    /// An allocation was refused.
    NoMemory,
}

fn reason(error: &Error) -> Unread
    ensures { result ≡ NotJson → ¬ IsMemory error.now }
{
    if error.is_memory() {
        Unread::NoMemory
    } else {
        Unread::NotJson
    }
}

/// The JSON value of the bytes (RFC 8259). Of a key that comes twice in an object the last value counts.
pub fn parse(alloc: Global, bytes: &[u8]) -> Result<Value, Unread>
    ensures ok { IfOk result (λ value. json_of bytes.now ≡ Some (view value)) }
    ensures err { IfErr result (λ fault. fault ≡ NotJson → json_of bytes.now ≡ None) }
{
    let Ok(text) = str::from_utf8(bytes) else {
        return Err(Unread::NotJson);
    };
    match Value::from_str(alloc, text) {
        Ok(value) => Ok(value),
        Err(error) => Err(reason(&error)),
    }
}
