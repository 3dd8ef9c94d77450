//! Chunks all of whose bytes are the same.

ghost use Rattle.std.specs.Prelude.{◌≡◌, IfOk, length, replicate};
ghost use Rattle.session.specs.Chunks.{filled, set_program};
ghost use Rattle.session.specs.Setting.{SetBegun, SetsOutright};
ghost use Rattle.session.specs.Placing.{set_allowed};

use crate::editing::refusal_of_edit;
use crate::{Session, Setting};
use ice_base::Bytes;
use std::alloc::{AllocError, Global};
use store_api::Refusal;
use zarr_path::{Index, Path};

/// How many bytes are written at once where all are the same.
const PIECE: usize = 1024;

/// So many of one byte. They are copied by pieces, since a chunk may have many.
fn repeated(alloc: Global, byte: u8, len: usize) -> Result<Vec<u8>, AllocError>
    ensures { IfOk result (λ bytes. bytes.items ≡ replicate len byte) }
{
    let piece = [byte; PIECE];
    let mut bytes = Vec::with_capacity(alloc, len)?;
    while bytes.len() < len {
        let more = (len - bytes.len()).min(PIECE);
        bytes.extend_from_slice(&piece[..more])?;
    }
    Ok(bytes)
}

/// A copy of a chunk's index, and so many of one byte.
fn made(alloc: Global, index: &Index, byte: u8, len: usize) -> Result<(Index, Bytes), AllocError>
    ensures { IfOk result (λ held. held ≡ (index.now, replicate len byte)) }
{
    let index = index.copy(alloc)?;
    let bytes = repeated(alloc, byte, len)?;
    Ok((index, Bytes::from_vec(bytes)))
}

impl Session {
    /// Sets a chunk all of whose bytes are this one, as [`Session::set_chunk`] does with as many as it has. The array is searched
    /// for once, and the bytes are made once.
    pub fn fill_chunk(
        self,
        path: &Path,
        index: &Index,
        byte: u8,
    ) -> Result<Setting, (Session, Refusal)>
        ensures sets { SetBegun
            (set_program self path.now index.now (filled self path.now byte)) self result }
        ensures outright { SetsOutright
            (set_allowed self path.now index.now (length (filled self path.now byte))) self result }
    {
        if !self.writes() {
            return Err((self, Refusal::ReadOnly));
        }
        let chunk = match self.changes.find_chunk(&self.loaded, path, index) {
            Ok(chunk) => chunk,
            Err(fault) => return Err((self, refusal_of_edit(fault))),
        };
        match made(self.alloc, index, byte, chunk.bytes as usize) {
            Ok((index, bytes)) => self.set_held(chunk.node, index, bytes),
            Err(_) => Err((self, Refusal::NoMemory)),
        }
    }
}
