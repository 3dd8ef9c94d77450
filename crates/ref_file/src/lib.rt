//! The files of branches and tags: references to snapshots, as JSON.
#![tactic(auto)]

ghost use Rattle.std.specs.Prelude.{◌≡◌, IfSome, MatchResult};
ghost use Rattle.ref_file.specs.Refs.{RefersTo, Refuses, json_fault, ref_bytes};

use ice_ids::{Id12, IdFault};
use json_words::{JsonFault, read_value};
use serde_json::Value;
use std::alloc::Global;

mod laws;

pub use laws::written_refs;

/// Why a file is no reference, the first in this order.
#[derive(Clone, Copy, Debug, Drop, PartialEq, Eq)]
pub enum RefFault {
    /// The file is no JSON text.
    Json,
    /// The value is no object with a member `snapshot` that is a text.
    Member,
    /// That text is no id.
    Id(IdFault),
    /// There was no memory.
    NoMemory,
}

impl From<JsonFault> for RefFault {
    ghost from_gives = { λ fault refusal. refusal ≡ json_fault fault };

    fn from(fault: JsonFault) -> RefFault {
        match fault {
            JsonFault::Json => RefFault::Json,
            JsonFault::NoMemory => RefFault::NoMemory,
        }
    }
}

/// The id in a file that [`ref_write`] makes, if this is one.
#[tactic(auto, using(crate::proofs::Back::written_RefersTo))]
fn written_id(file: &[u8]) -> Option<Id12>
    ensures { IfSome result (RefersTo file.now) }
{
    if file.len() != 35 {
        return None;
    }
    let Ok(id) = Id12::read(&file[13..33]) else {
        return None;
    };
    if file == ref_write(id).as_slice() {
        Some(id)
    } else {
        None
    }
}

/// Reads a reference: the id of the snapshot to which it refers. White space and other members are
/// taken, and of a repeated member the last counts. A file as it is written here isn't read as JSON.
/// (Icechunk specification version 1, references.)
pub fn ref_read(alloc: Global, file: &[u8]) -> Result<Id12, RefFault>
    ensures { MatchResult result (RefersTo file.now) (Refuses file.now) }
{
    if let Some(id) = written_id(file) {
        return Ok(id);
    }
    let value = read_value(alloc, file)?;
    let Some(text) = value.get("snapshot").and_then(Value::as_str) else {
        return Err(RefFault::Member);
    };
    match Id12::read(text.as_bytes()) {
        Ok(id) => Ok(id),
        Err(fault) => Err(RefFault::Id(fault)),
    }
}

/// The file that refers to this snapshot, `{"snapshot":"ID"}`. It takes no memory.
#[tactic(auto, unfolding(crate::specs::Refs::ref_bytes))]
pub fn ref_write(id: Id12) -> [u8; 35]
    ensures { result ≡ ref_bytes id }
{
    let mut file = *b"{\"snapshot\":\"00000000000000000000\"}";
    file[13..33].copy_from_slice(&id.text());
    file
}
