//! Edits at keys.

ghost use Rattle.std.specs.Prelude.{◌≡◌, is_some};
ghost use Rattle.std.specs.FinMap.{get};
ghost use Rattle.store_api.specs.Program.{Done};
ghost use Rattle.session.specs.Sessions.{nodes_seen};
ghost use Rattle.session.specs.Editing.{Leaves};
ghost use Rattle.session.specs.Setting.{SetBegun};
ghost use Rattle.zarr_keys.specs.Keys.{key_set_program, key_erased, meta_put};
ghost use Rattle.zarr_keys.specs.inside.Working.{Puts};

use crate::values::named;
use session::{Session, Setting};
use std::alloc::Global;
use store_api::Refusal;
use zarr_path::{Path, ZarrKey};

/// Whether a node is at the path.
fn has_node(session: &Session, path: &Path) -> bool
    ensures { result ≡ is_some (get (nodes_seen session.now) path.now) }
{
    session.get_meta(path).is_ok()
}

/// Gives the node at a path this metadata, or adds it.
fn put_meta(session: &mut Session, path: &Path, text: &[u8]) -> Result<(), Refusal>
    ensures { Puts (meta_put session.old path.now text.now) session.old result session.new }
{
    if has_node(session, path) {
        return session.set_meta(path, text);
    }
    match session.add_node(path, text) {
        Ok(_) => Ok(()),
        Err(why) => Err(why),
    }
}

/// Sets the key of a node's metadata.
fn set_node(mut session: Session, path: &Path, text: &[u8]) -> Result<Setting, (Session, Refusal)>
    ensures { SetBegun (Done (meta_put session path.now text.now)) session result }
{
    match put_meta(&mut session, path, text) {
        Ok(()) => Ok(Setting::Ready(session)),
        Err(why) => Err((session, why)),
    }
}

/// Sets what is at a key. Metadata is that of the node which is there, as by [`Session::set_meta`], or else of a group or an
/// array that is added, as by [`Session::add_node`]; a chunk is set as by [`Session::set_chunk`]. It is refused by `BadKey`,
/// and then as these are, or by `NoMemory`; the session comes back as it was, apart from one id that may have been drawn
/// where memory ran out.
pub fn key_set(
    alloc: Global,
    session: Session,
    key: &str,
    bytes: &[u8],
) -> Result<Setting, (Session, Refusal)>
    ensures { SetBegun (key_set_program session key.now bytes.now) session result }
{
    match named(alloc, key) {
        Ok(ZarrKey::Meta(path)) => set_node(session, &path, bytes),
        Ok(ZarrKey::Chunk(path, index)) => session.set_chunk(&path, &index, bytes),
        Err(why) => Err((session, why)),
    }
}

/// Erases what is at a key: with its metadata a node is dropped, and all beneath it, as by [`Session::drop_node`]; a chunk is
/// taken away as by [`Session::unset_chunk`]. It is refused by `BadKey`, and then as these are, or by `NoMemory`, and the
/// session is as before.
pub fn key_erase(alloc: Global, session: &mut Session, key: &str) -> Result<(), Refusal>
    ensures { Leaves (key_erased session.old key.now) session.old result session.new }
{
    match named(alloc, key) {
        Ok(ZarrKey::Meta(path)) => session.drop_node(&path),
        Ok(ZarrKey::Chunk(path, index)) => session.unset_chunk(&path, &index),
        Err(why) => Err(why),
    }
}
