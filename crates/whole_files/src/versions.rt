//! What a content is known by.

ghost use Rattle.std.specs.Prelude.{◌≡◌};
ghost use Rattle.whole_files.specs.Versions.{version_of, version_by, first_number};

use sha2::{Digest, Sha256};

/// How often files are put at a path, and so what their version is.
#[derive(Clone, Copy, Debug)]
pub enum Putting {
    /// One is put once, and none over it: its version is 0, and none of its bytes is hashed for it.
    Once,
    /// One may be put over another: its version is told by its content.
    Over,
}

/// The number that the first 8 bytes of a digest are, the most significant byte first.
pub(crate) fn number_of_digest(digest: [u8; 32]) -> u64
    ensures { result ≡ first_number digest }
{
    u64::from_be_bytes([
        digest[0], digest[1], digest[2], digest[3], digest[4], digest[5], digest[6], digest[7],
    ])
}

/// The number by which these bytes are known: the first 8 bytes of their SHA-256 (FIPS 180-4), the most significant byte
/// first. It takes no memory.
pub fn content_number(bytes: &[u8]) -> u64
    ensures { result ≡ version_of bytes.now }
{
    number_of_digest(Sha256::digest(bytes))
}

/// The version of these bytes, where they are put so. It takes no memory.
pub fn version_by(putting: Putting, bytes: &[u8]) -> u64
    ensures { result ≡ version_by putting bytes.now }
{
    match putting {
        Putting::Once => 0,
        Putting::Over => content_number(bytes),
    }
}
