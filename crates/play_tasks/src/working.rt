//! Where a worker stands.

use array_region::{RegionGet, RegionSet};
use commit_path::Commit;
use conflicts::Policy;
use ice_base::Text;
use ice_ids::Id12;
use leases::Lease;
use play_outcome::{End, Outcome, Shown, Shows};
use play_script::Line;
use rebase::Rebase;
use script_calls::Access;
use session::{GetChunk, Open, Session, SetChunk};
use settle::Settle;

/// A task that opens a session.
#[derive(Drop)]
pub struct SessionTask<'a> {
    /// What the session is opened for.
    pub access: &'a Access,
    /// The number of the task's line in the script.
    pub line: u32,
    /// The lines that are played on the session.
    pub body: &'a [Line],
}

/// What a line asked for that reads a chunk.
#[derive(Clone, Copy, Debug, PartialEq, Eq)]
pub enum AskedFor {
    /// The chunk.
    Chunk,
    /// What the chunk's key has.
    Key,
}

/// How often a commit that is lost is tried again, and how conflicts are solved then.
#[derive(Clone, Copy, Debug, PartialEq, Eq)]
pub struct Tries {
    /// How often it is tried again, at most.
    pub left: u8,
    /// How conflicts are solved.
    pub policy: Policy,
}

/// The machine that a worker steps while the session is open.
#[derive(Drop)]
pub enum Working {
    /// The session is being opened.
    Opening {
        opener: Open,
    },
    /// A chunk is being set by this line of the script; the line behind it has the number `at` in the body, from 0.
    Setting {
        line: u32,
        at: usize,
        shown: Vec<Shown>,
        set: SetChunk,
    },
    /// A chunk is being read by this line of the script; the line behind it has the number `at` in the body, from 0.
    Getting {
        line: u32,
        at: usize,
        asked: AskedFor,
        shown: Vec<Shown>,
        get: GetChunk,
    },
    /// Numbers are being put into a box by this line of the script; the line behind it has the number `at` in the body, from 0.
    Putting {
        line: u32,
        at: usize,
        shown: Vec<Shown>,
        set: RegionSet,
    },
    /// The numbers of a box are being read by this line of the script; the line behind it has the number `at` in the body, from 0.
    Gathering {
        line: u32,
        at: usize,
        shown: Vec<Shown>,
        get: RegionGet,
    },
    /// A lease of the session's base is being put, by this line of the script, and `shown` has room for it; the line behind it has
    /// the number `at` in the body, from 0.
    Leasing {
        line: u32,
        at: usize,
        shown: Vec<Shown>,
        session: Session,
        lease: Lease,
    },
    /// The session is being committed, by this line of the script.
    Committing {
        line: u32,
        tries: Tries,
        shown: Shows,
        commit: Commit,
    },
    /// The commit that put this snapshot is in doubt, and is being settled.
    Settling {
        shown: Shows,
        id: Id12,
        settle: Settle,
    },
    /// The session's commit, by this line of the script, was lost, and the session is being rebased; it commits again behind that,
    /// with this message, and may be rebased as often as `tries` has left.
    Rebasing {
        line: u32,
        tries: Tries,
        shown: Shows,
        message: Text,
        rebase: Rebase,
    },
    /// The session has ended.
    Ended {
        outcome: Outcome,
    },
}

/// The releases of a session's leases, behind all that it did.
#[derive(Drop)]
pub enum Releases {
    /// The lease comes next that is shown at the number `at`, from 0: this line of the script put it, under this id.
    Next {
        shown: Vec<Shown>,
        end: End,
        at: usize,
        line: u32,
        id: Id12,
    },
    /// All are done, and the task has ended.
    Ended {
        outcome: Outcome,
    },
}

/// What a worker does.
#[derive(Drop)]
pub enum Phase {
    /// It plays the session.
    Playing(Working),
    /// It releases the session's leases.
    Releasing(Releases),
}

/// What a line of a task comes to.
#[derive(Drop)]
pub enum Step {
    /// The lines go on, on this session and with these lines shown.
    On { session: Session, shown: Vec<Shown> },
    /// They have come to their end, or to a machine.
    Stop(Working),
}
