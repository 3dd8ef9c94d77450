//! Events of a journal, lent.

use object_store::{Entry, Gone, GoneAt, New, Op, Over, Version};

/// What an operation answered.
#[derive(Clone, Copy, Debug)]
pub enum ReplyRef<'a> {
    Found {
        bytes: &'a [u8],
        version: Version,
        now: u64,
    },
    Absent {
        now: u64,
    },
    New(New),
    Over(Over),
    Gone(Gone),
    GoneAt(GoneAt),
    Listed {
        entries: &'a [Entry],
        now: u64,
    },
    Failed {
        done: bool,
    },
}

/// An event of a journal.
#[derive(Clone, Copy, Debug)]
pub struct EventRef<'a> {
    pub client: u32,
    pub op: &'a Op,
    pub reply: ReplyRef<'a>,
    pub time: u64,
}
