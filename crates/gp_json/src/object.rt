ghost use Rattle.std.specs.Prelude.{◌≡◌, MatchResult};
ghost use Rattle.serde_json.specs.View.{view};
ghost use Rattle.gp_json.specs.Texts.{IsObjectText, IsTextFault};

use crate::fault::TextFault;
use serde_json::Value;
use std::alloc::Global;

/// The object that the bytes are the text of: UTF-8, JSON that nests at most 127 deep, and an object at the top. Of a
/// name that is written twice, the last value counts.
pub fn read_object(alloc: Global, bytes: &[u8]) -> Result<Value, TextFault>
    ensures { MatchResult result (λ value. IsObjectText bytes.now (view value)) (IsTextFault bytes.now) }
{
    match Value::from_slice(alloc, bytes) {
        Ok(value) => if value.is_object() {
            Ok(value)
        } else {
            Err(TextFault::NotJson)
        },
        Err(error) => if error.is_memory() {
            Err(TextFault::NoMemory)
        } else {
            Err(TextFault::NotJson)
        },
    }
}
