//! Operations of a store, their answers, and the events that they are.

use crate::{Key, Part, Why};
use ice_base::Bytes;
use ice_items::Items;

/// The version of an object: the position in the journal of the put that put it.
#[derive(Clone, Copy, Debug, PartialEq, Eq)]
pub struct Version(pub u64);

/// One operation of the store.
#[derive(Debug, Drop)]
pub enum Op {
    /// Reads an object.
    Get {
        key: Key,
    },
    /// Puts an object where its key is free.
    PutNew {
        key: Key,
        bytes: Bytes,
        why: Why,
    },
    /// Puts an object over the version that stands there.
    PutOver {
        key: Key,
        bytes: Bytes,
        old: Version,
        why: Why,
    },
    /// Removes an object.
    Remove {
        key: Key,
        why: Why,
    },
    /// Removes the version that stands there.
    RemoveAt {
        key: Key,
        old: Version,
        why: Why,
    },
    /// Lists a part.
    List {
        part: Part,
    },
}

/// What a get answers. `now` is the time of the operation, in microseconds.
#[derive(Debug, Drop)]
pub enum Got {
    Found {
        bytes: Bytes,
        version: Version,
        now: u64,
    },
    Absent {
        now: u64,
    },
}

/// What a put of a free key answers.
#[derive(Clone, Copy, Debug)]
pub enum New {
    Done { version: Version, now: u64 },
    Present { version: Version, now: u64 },
}

/// What a put over a version answers.
#[derive(Clone, Copy, Debug)]
pub enum Over {
    Done { version: Version, now: u64 },
    Moved { found: Option<Version>, now: u64 },
}

/// What a removal answers.
#[derive(Clone, Copy, Debug)]
pub enum Gone {
    Done { now: u64 },
    Absent { now: u64 },
}

/// What a removal of a version answers.
#[derive(Clone, Copy, Debug)]
pub enum GoneAt {
    Done { now: u64 },
    Moved { found: Option<Version>, now: u64 },
}

/// An object in a listing: its key, its length in bytes, and the time of its last put.
#[derive(Debug, Drop)]
pub struct Entry {
    pub key: Key,
    pub size: u64,
    pub created: u64,
}

/// A list of entries.
pub type Entries = Items<Entry>;

/// What a listing answers: its entries in the order of their ids or names, a tag before its
/// tombstone.
#[derive(Debug, Drop)]
pub struct Listed {
    pub entries: Entries,
    pub now: u64,
}

/// What an operation answered. Of a failed one the journal alone tells whether it was done.
#[derive(Debug, Drop)]
pub enum Reply {
    Got(Got),
    New(New),
    Over(Over),
    Gone(Gone),
    GoneAt(GoneAt),
    Listed(Listed),
    Failed { done: bool },
}

/// One operation of one client, its answer, and its time in microseconds.
#[derive(Debug, Drop)]
pub struct Event {
    pub client: u32,
    pub op: Op,
    pub reply: Reply,
    pub time: u64,
}

/// Why an operation gave no answer.
#[derive(Clone, Copy, Debug, PartialEq, Eq)]
pub enum StoreFault {
    /// The store failed; the operation was done or not done.
    Failed,
    /// There was no memory, and nothing was done.
    NoMemory,
}
