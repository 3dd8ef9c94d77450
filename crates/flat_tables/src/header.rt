ghost use Rattle.std.specs.Prelude.{◌≡◌, ◌≤◌, ◌++◌, OnOk, IfOk, length};
ghost use Rattle.flat_tables.specs.Header.{header, kind_of};

use std::alloc::AllocError;

/// What a file holds.
#[derive(Clone, Copy, Debug, PartialEq, Eq)]
pub enum Kind {
    /// A snapshot: the nodes of a tree.
    Snapshot,
    /// A manifest: where the chunks of arrays are.
    Manifest,
    /// A transaction log: what a commit changed.
    Log,
}

/// What is wrong with a header, the first that is met.
#[derive(Clone, Copy, Debug, PartialEq, Eq)]
pub enum HeaderFault {
    /// The file has fewer than 39 bytes.
    Short,
    /// It does not begin with the bytes that each file begins with.
    Magic,
    /// Byte 36, the version of the specification, is not 1.
    Version(u8),
    /// Byte 37, the type, is none of 1, 2 and 4.
    FileType(u8),
    /// Byte 38, the compression, is not 0, which stands for none.
    Compression(u8),
}

/// The length of a header, in bytes.
pub const HEADER: usize = 39;

/// The greatest length of a file with its header, in bytes.
pub const FILE_LIMIT: usize = 268_435_456;

/// The bytes that each file begins with.
const MAGIC: [u8; 12] = [
    0x49, 0x43, 0x45, 0xf0, 0x9f, 0xa7, 0x8a, 0x43, 0x48, 0x55, 0x4e, 0x4b,
];

/// The header of a file of this kind: the twelve bytes that each file begins with, the implementation's name in 24,
/// version 1, the type, and no compression.
#[tactic(auto, unfolding(crate::specs::Header::header))]
pub fn header_write(kind: Kind) -> [u8; 39]
    ensures { result ≡ header kind }
{
    let file_type = match kind {
        Kind::Snapshot => 1,
        Kind::Manifest => 2,
        Kind::Log => 4,
    };
    [
        0x49, 0x43, 0x45, 0xf0, 0x9f, 0xa7, 0x8a, 0x43, 0x48, 0x55, 0x4e, 0x4b, 0x69, 0x63, 0x65,
        0x72, 0x65, 0x70, 0x6f, 0x20, 0x20, 0x20, 0x20, 0x20, 0x20, 0x20, 0x20, 0x20, 0x20, 0x20,
        0x20, 0x20, 0x20, 0x20, 0x20, 0x20, 1, file_type, 0,
    ]
}

/// The kind that a file's header names, or its first fault. What follows the header is not looked at.
#[tactic(auto, unfolding(crate::specs::Header::kind_of))]
pub fn header_read(file: &[u8]) -> Result<Kind, HeaderFault>
    ensures kind { result ≡ kind_of file.now }
    // The payload begins behind the header.
    ensures long { OnOk result (39 ≤ length file.now) }
{
    if file.len() < HEADER {
        return Err(HeaderFault::Short);
    }
    if !file.starts_with(&MAGIC) {
        return Err(HeaderFault::Magic);
    }
    if file[36] != 1 {
        return Err(HeaderFault::Version(file[36]));
    }
    let kind = match file[37] {
        1 => Kind::Snapshot,
        2 => Kind::Manifest,
        4 => Kind::Log,
        other => return Err(HeaderFault::FileType(other)),
    };
    if file[38] != 0 {
        return Err(HeaderFault::Compression(file[38]));
    }
    Ok(kind)
}

/// The file of this kind with this payload, in place: no memory is taken where the payload has room for a header.
pub fn with_header(kind: Kind, payload: Vec<u8>) -> Result<Vec<u8>, AllocError>
    ensures { IfOk result (λ file. file.items ≡ header kind ++ payload.items) }
{
    let mut file = payload;
    let len = file.len();
    file.extend_from_slice(&header_write(kind))?;
    file.rotate_left(len);
    Ok(file)
}
