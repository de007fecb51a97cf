//! From JSON text to a profile value.

ghost use Rattle.std.specs.Prelude.{◌↔◌, IfOk, IsErrOf};
ghost use Rattle.serde_json.specs.Data.{Data};
ghost use Rattle.serde_json.specs.View.{view};
ghost use Rattle.ascii_json.specs.Profile.{Reads};
ghost use Rattle.ascii_json.specs.Representable.{IsRepresentable};

use crate::profile::is_profile;
use serde_json::Value;
use std::alloc::Global;
use thiserror::Error;

/// Why bytes are not read.
#[derive(Clone, Copy, Debug, Drop, PartialEq, Eq, Error)]
pub enum JsonFault {
    #[error("no JSON text without floats and nested at most 100 deep")]
    NotJson,
    #[error("out of memory")]
    Memory,
}

/// Reads JSON text. Of several members with one key the last counts.
pub fn json_read(alloc: Global, text: &[u8]) -> Result<Value, JsonFault>
    ensures ok { IfOk result (λ value. Reads text.now (view value)) }
    ensures representable { IfOk result (λ value. IsRepresentable (view value)) }
    ensures not_json { (¬ IsErrOf result JsonFault.Memory) → (IsErrOf result JsonFault.NotJson ↔ ((d : Data) → ¬ Reads text.now d)) }
{
    match Value::from_slice(alloc, text) {
        Ok(value) => if is_profile(&value) {
            Ok(value)
        } else {
            Err(JsonFault::NotJson)
        },
        Err(error) => if error.is_memory() {
            Err(JsonFault::Memory)
        } else {
            Err(JsonFault::NotJson)
        },
    }
}
