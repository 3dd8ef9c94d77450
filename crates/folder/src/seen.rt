//! What is seen at a path.

/// The kind of what lies at a path.
#[derive(Clone, Copy, Debug, PartialEq, Eq)]
pub enum Kind {
    /// A plain file.
    File,
    /// A folder.
    Folder,
    /// A link, a pipe, a device or a socket.
    Other,
}

/// What lies at a path: its kind, its length in bytes, the time of its last change in microseconds, and
/// by which numbers the system knows it.
#[derive(Clone, Copy, Debug)]
pub struct Seen {
    pub kind: Kind,
    pub size: u64,
    pub changed: u64,
    pub device: u64,
    pub number: u64,
}
