//! Versions of files.

ghost use Rattle.std.specs.Prelude.{◌≡◌};
ghost use Rattle.object_files.specs.Versions.{version_of, version_for, putting_of};

use object_store::{Key, Version};
use whole_files::{Putting, content_number, version_by};

/// The version of a file with these bytes: the first 8 bytes of their SHA-256 (FIPS 180-4), as a
/// number, the most significant byte first. It takes no memory.
pub fn content_version(bytes: &[u8]) -> Version
    ensures { result.0 ≡ version_of bytes.now }
{
    Version(content_number(bytes))
}

/// Whether a key's object is put once, or may be put over or removed at a version.
pub fn putting_of(key: &Key) -> Putting
    ensures { result ≡ putting_of key.now }
{
    match key {
        Key::Snapshot(_) | Key::Branch(_) | Key::Tag(_) => Putting::Over,
        Key::Manifest(_) | Key::Txn(_) | Key::Chunk(_) | Key::Tombstone(_) | Key::Lease(_) => {
            Putting::Once
        }
    }
}

/// The version of an object of these bytes at this key: [`content_version`] where it may be put over, and 0 where it is put
/// once, so that nothing is hashed for it.
pub fn version_for(key: &Key, bytes: &[u8]) -> Version
    ensures { result.0 ≡ version_for key.now bytes.now }
{
    Version(version_by(putting_of(key), bytes))
}
