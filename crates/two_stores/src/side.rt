//! The two stores.

/// One of two stores.
#[derive(Clone, Copy, Debug, PartialEq, Eq)]
pub enum Side {
    /// The one that is copied from.
    From,
    /// The one that is copied to.
    To,
}
