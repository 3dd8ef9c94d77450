//! What a collection reports.

/// How many objects a collection was told as removed.
#[derive(Clone, Copy, Debug, PartialEq, Eq)]
pub struct Removed {
    /// Snapshots.
    pub snapshots: u64,
    /// Transaction logs.
    pub logs: u64,
    /// Manifests.
    pub manifests: u64,
    /// Objects with chunks.
    pub chunks: u64,
}
