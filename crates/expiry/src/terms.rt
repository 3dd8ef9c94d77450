//! What an expiry is asked for.

/// Which snapshots are old, and which refs are dropped with them.
#[derive(Clone, Copy, Debug, PartialEq, Eq)]
pub struct Terms {
    /// In microseconds: a snapshot that was flushed before is old.
    pub cutoff: u64,
    /// Whether branches that name an old snapshot are dropped; `main` never is.
    pub drop_branches: bool,
    /// Whether tags that name one are.
    pub drop_tags: bool,
}
