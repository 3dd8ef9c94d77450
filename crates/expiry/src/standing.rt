//! Where an expiry stands, and where it ends.

use crate::look::Look;
use crate::register::{Register, Turn};
use cleanup_reports::RefCases;
use ice_base::Bytes;
use ice_ids::Id12;
use store_api::{Key, Refusal, Version};

/// What became of the refs that an expiry came to, and how it ended.
#[derive(Debug, Drop)]
pub struct Expired {
    /// The refs, in the order in which they were read, each with what became of it.
    pub cases: RefCases,
    /// Whether it came to all refs, or why it was refused.
    pub result: Result<(), Refusal>,
}

/// A ref whose history is cut: these bytes are put over the snapshot, as it stood at this version.
#[derive(Drop)]
pub struct Cut {
    pub key: Key,
    pub id: Id12,
    pub version: Version,
    pub bytes: Bytes,
}

/// Where an expiry stands.
#[derive(Drop)]
pub enum Expiring {
    /// It lists a part.
    Listing(Register),
    /// It looks at a ref.
    Looking {
        look: Look,
        turn: Turn,
    },
    /// It drops this ref.
    Dropping {
        key: Key,
        version: Version,
        turn: Turn,
    },
    /// It cuts the history of a ref.
    Cutting {
        cut: Cut,
        turn: Turn,
    },
    /// It has ended.
    Ended(Expired),
}
