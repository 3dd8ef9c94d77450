//! What a key has.

ghost use Rattle.std.specs.Prelude.{◌≡◌};
ghost use Rattle.zarr_path.specs.Keys.{key_of};
ghost use Rattle.zarr_keys.specs.Keys.{chunk_value};
ghost use Rattle.zarr_keys.specs.inside.Working.{Names};

use ice_base::Bytes;
use session::Value;
use std::alloc::Global;
use store_api::Refusal;
use zarr_path::{KeyFault, ZarrKey, read_key};

/// What a key has.
#[derive(Debug, Drop)]
pub enum KeyValue {
    /// These bytes.
    Bytes(Bytes),
    /// Nothing: no node is there, or no chunk is held.
    Absent,
}

/// What a key has whose chunk was read: nothing where it reads as the array's fill value.
pub fn key_answer(value: Value) -> KeyValue
    ensures { result ≡ chunk_value value }
{
    match value {
        Value::Bytes(bytes) => KeyValue::Bytes(bytes),
        Value::Fill => KeyValue::Absent,
    }
}

/// What a key names.
pub(crate) fn named(alloc: Global, key: &str) -> Result<ZarrKey, Refusal>
    ensures { Names (key_of key.now) result }
{
    match read_key(alloc, key) {
        Ok(found) => Ok(found),
        Err(KeyFault::NotAKey) => Err(Refusal::BadKey),
        Err(KeyFault::NoMemory) => Err(Refusal::NoMemory),
    }
}
