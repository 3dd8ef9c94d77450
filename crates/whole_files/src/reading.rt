//! Files that are read whole.

ghost use Rattle.std.specs.Prelude.{◌≡◌, ◌≤◌, ◌<◌, Ok, Some, IfOk, IfErr, IsTrue, MatchResult, length};
ghost use Rattle.folder.specs.declared.faults.FileFault.TheVariants as FileFault;
ghost use Rattle.folder.specs.Files.{HasBytes, IsMeasured};
ghost use Rattle.whole_files.specs.Versions.{version_of};
ghost use Rattle.whole_files.specs.Whole.{Takes, bytes_at, its_version, IsLong, IsToldLong, IsTooMany};

use crate::versions::{Putting, number_of_digest};
use folder::{Call, Cause, FileFault, Folder, Seen, Trouble, failed};
use ice_base::Bytes;
use sha2::{Digest, Sha256};
use std::alloc::{AllocError, Global};

/// The most bytes that a file may have.
pub const MOST: u64 = 268_435_456;

/// How many bytes are read at once where they are hashed.
const PIECE: usize = 4096;

/// The most bytes that are read at once where they are kept.
const LONGEST: usize = 65_536;

/// More times than a file of the greatest length is read: each time but the last gives a byte.
const TURNS: u64 = MOST + 2;

/// How many bytes are still read behind so many, where there is room for these: one more than a file may have, at most.
fn room_behind(taken: u64, room: usize) -> usize
    ensures most { result ≤ room }
    ensures some { taken ≤ 268435456 → 0 < room → 0 < result }
{
    let left = (MOST + 1).saturating_sub(taken);
    usize::try_from(left).unwrap_or(room).min(room)
}

/// The next bytes of a file behind so many; none at its end. It is told as too long only where these are more than a file may have.
fn next_piece<F: Folder>(
    tree: &F,
    file: &mut F::Reading,
    taken: u64,
    piece: &mut [u8],
) -> Result<usize, Trouble>
    requires { 0 < length piece.old }
    ensures within { IfOk result (λ count. count ≤ length piece.old) }
    ensures read { IsTrue F.tells
        → IfOk result (λ count. Takes count piece.new (F.rest file.old) (F.rest file.new)) }
    ensures long { IsTrue F.tells → IfErr result (λ trouble. IsLong trouble → IsTooMany taken) }
{
    if taken > MOST {
        return Err(failed(Call::Read, Cause::TooLong));
    }
    let room = room_behind(taken, piece.len());
    tree.read(file, &mut piece[..room])
}

/// Want of memory, as a fault on files.
pub fn in_memory<T>(made: Result<T, AllocError>) -> Result<T, FileFault>
    ensures { MatchResult result (λ value. made ≡ Ok value) (λ fault. fault ≡ FileFault.NoMemory) }
{
    match made {
        Ok(value) => Ok(value),
        Err(_) => Err(FileFault::NoMemory),
    }
}

/// Room for the pieces in which a file is read that was seen to have so many bytes.
fn room_for(alloc: Global, size: usize) -> Result<Vec<u8>, AllocError>
    ensures { IfOk result (λ room. 0 < length room.items) }
{
    vec![in alloc; 0; size.clamp(1, LONGEST)]
}

/// The bytes of an open file, which was seen to have so many. It is told as too long only where it is.
fn bytes_of<F: Folder>(
    tree: &F,
    file: &mut F::Reading,
    alloc: Global,
    size: usize,
) -> Result<Bytes, FileFault>
    ensures read { IsTrue F.tells → IfOk result (λ bytes. bytes ≡ F.rest file.old) }
    ensures long { IsTrue F.tells → IfErr result (λ fault. IsToldLong fault
        → IsTooMany (length (F.rest file.old))) }
{
    let mut room = room_for(alloc, size)?;
    let piece = room.as_mut_slice();
    let mut bytes = Bytes::from_vec(Vec::with_capacity(alloc, size)?);
    for turn in 0..TURNS {
        let count = next_piece(tree, file, bytes.len() as u64, piece)?;
        if count == 0 {
            return Ok(bytes);
        }
        bytes.extend(&piece[..count])?;
    }
    Err(FileFault::from(failed(Call::Read, Cause::TooLong)))
}

/// The number by which the content of an open file is known. It is told as too long only where it is.
fn number_of<F: Folder>(tree: &F, file: &mut F::Reading) -> Result<u64, Trouble>
    ensures read { IsTrue F.tells → IfOk result (λ number. number ≡ version_of (F.rest file.old)) }
    ensures long { IsTrue F.tells → IfErr result (λ trouble. IsLong trouble
        → IsTooMany (length (F.rest file.old))) }
{
    let mut piece = [0u8; PIECE];
    let mut hasher = Sha256::new();
    let mut taken = 0u64;
    for turn in 0..TURNS {
        let count = next_piece(tree, file, taken, &mut piece)?;
        if count == 0 {
            return Ok(number_of_digest(hasher.finalize()));
        }
        hasher.update(&piece[..count]);
        taken = taken.saturating_add(count as u64);
    }
    Err(failed(Call::Read, Cause::TooLong))
}

/// Opens the file that was seen at a path, if it isn't too long, to be read.
fn opened<F: Folder>(tree: &F, path: &str, seen: &Seen) -> Result<F::Reading, Trouble>
    ensures { IsTrue F.tells
        → IfOk result (λ file. HasBytes (F.rest file) (F.files tree.now path.now)) }
{
    if seen.size > MOST {
        return Err(failed(Call::Open, Cause::TooLong));
    }
    tree.open(path, seen)
}

/// The bytes of the plain file at a path, if one is there.
pub fn read_file<F: Folder>(tree: &F, alloc: Global, path: &str) -> Result<Option<Bytes>, FileFault>
    ensures { IsTrue F.tells → IfOk result (λ found. found ≡ bytes_at (F.files tree.now path.now)) }
{
    let Some(seen) = tree.file(path)? else {
        return Ok(None);
    };
    let mut file = opened(tree, path, &seen)?;
    let size = usize::try_from(seen.size).unwrap_or(0);
    Ok(Some(bytes_of(tree, &mut file, alloc, size)?))
}

/// The version of the file that was seen at a path. Where it is put once, it isn't opened.
pub(crate) fn version_seen<F: Folder>(
    tree: &F,
    putting: Putting,
    path: &str,
    seen: &Seen,
) -> Result<u64, Trouble>
    requires { IsTrue F.tells → IsMeasured seen.now (F.files tree.now path.now) }
    ensures { IsTrue F.tells
        → IfOk result (λ version. its_version putting (F.files tree.now path.now) ≡ Some version) }
{
    match putting {
        Putting::Once => Ok(0),
        Putting::Over => {
            let mut file = opened(tree, path, seen)?;
            number_of(tree, &mut file)
        }
    }
}

/// The version of the plain file at a path, if one is there. It takes no memory.
pub fn file_version<F: Folder>(
    tree: &F,
    putting: Putting,
    path: &str,
) -> Result<Option<u64>, Trouble>
    ensures { IsTrue F.tells
        → IfOk result (λ found. found ≡ its_version putting (F.files tree.now path.now)) }
{
    match tree.file(path)? {
        Some(seen) => Ok(Some(version_seen(tree, putting, path, &seen)?)),
        None => Ok(None),
    }
}
