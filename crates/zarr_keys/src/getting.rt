//! Reading at keys.

ghost use Rattle.std.specs.Prelude.{◌≡◌, Ok, IfOk};
ghost use Rattle.store_api.specs.Program.{Done};
ghost use Rattle.zarr_keys.specs.Keys.{chunk_program, key_get_program, meta_value};
ghost use Rattle.zarr_keys.specs.Calls.{Gets, IsShort};

use crate::values::{KeyValue, key_answer, named};
use session::{GetChunk, Getting, Session};
use std::alloc::{AllocError, Global};
use store_api::Refusal;
use zarr_path::{Index, Path, ZarrKey};

/// What the reading of a key came to.
#[derive(Drop)]
pub enum KeyGetting {
    /// The session, and what the key has.
    Ready(Session, KeyValue),
    /// A chunk's manifests or its object are to be got; [`key_answer`] tells what the key has.
    Again(GetChunk),
}

/// The metadata of the node at a path, if there is one.
fn meta_value(alloc: Global, session: &Session, path: &Path) -> Result<KeyValue, AllocError>
    ensures { IfOk result (λ value. value ≡ meta_value session.now path.now) }
{
    match session.get_meta(path) {
        Ok(meta) => Ok(KeyValue::Bytes(meta.text.copy(alloc)?)),
        Err(_) => Ok(KeyValue::Absent),
    }
}

/// Reads the key of a node's metadata.
fn get_node(alloc: Global, session: Session, path: &Path) -> Result<KeyGetting, (Session, Refusal)>
    ensures read { Gets (Done (Ok (meta_value session path.now))) session result }
    ensures few { IfOk result IsShort }
{
    match meta_value(alloc, &session, path) {
        Ok(value) => Ok(KeyGetting::Ready(session, value)),
        Err(_) => Err((session, Refusal::NoMemory)),
    }
}

/// Reads the key of a chunk.
fn get_value(session: Session, path: &Path, index: &Index) -> Result<KeyGetting, (Session, Refusal)>
    ensures read { Gets (chunk_program session path.now index.now) session result }
    ensures few { IfOk result IsShort }
{
    match session.get_chunk(path, index) {
        Ok(Getting::Ready(session, value)) => Ok(KeyGetting::Ready(session, key_answer(value))),
        Ok(Getting::Again(machine)) => Ok(KeyGetting::Again(machine)),
        Err(refused) => Err(refused),
    }
}

/// Reads what is at a key: the text of a node, or the bytes of a chunk. There is nothing where no node is, nor where a chunk
/// reads as the fill value. It is refused by `BadKey`, and for a chunk as [`Session::get_chunk`] is, or by `NoMemory`; the
/// session comes back as it was.
pub fn key_get(alloc: Global, session: Session, key: &str) -> Result<KeyGetting, (Session, Refusal)>
    ensures read { Gets (key_get_program session key.now) session result }
    ensures few { IfOk result IsShort }
{
    match named(alloc, key) {
        Ok(ZarrKey::Meta(path)) => get_node(alloc, session, &path),
        Ok(ZarrKey::Chunk(path, index)) => get_value(session, &path, &index),
        Err(why) => Err((session, why)),
    }
}
