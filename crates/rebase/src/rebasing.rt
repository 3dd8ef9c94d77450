//! Where a rebase stands.

use ice_ids::Id12;
use ice_items::Items;
use repo_objects::Loaded;
use repo_read::Resolved;
use std::mem;
use zarr_changes::ChangeSet;

/// A walk from the branch's snapshot down to the commit whose parent is the session's base.
#[derive(Drop)]
pub struct Walk {
    /// What the branch names.
    pub(crate) named: Resolved,
    /// The snapshots that were read, the head first.
    pub(crate) above: Items<Loaded>,
    /// The snapshot that is got next.
    pub(crate) next: Id12,
}

/// Commits of which conflicts are still to be solved.
#[derive(Drop)]
pub struct Solving {
    /// What the branch names.
    pub(crate) named: Resolved,
    /// The commit whose log is got next.
    pub(crate) oldest: Loaded,
    /// The later commits, the head first.
    pub(crate) later: Items<Loaded>,
    /// The commit before; none where that is the session's base.
    pub(crate) before: Option<Loaded>,
    /// What is still held; none where nothing was given up.
    pub(crate) held: Option<ChangeSet>,
    /// How many commits there are since the base.
    pub(crate) count: u32,
}

/// The operation that comes next.
#[derive(Drop)]
pub enum Rebasing {
    /// The branch is got.
    Ref,
    /// A snapshot is got.
    Snapshot(Walk),
    /// A log is got.
    Log(Solving),
    /// The machine has ended.
    Ended,
}

impl Rebasing {
    ghost use Rattle.std.specs.Prelude.{◌≡◌};

    /// The operation that comes next, where none did.
    pub(crate) fn follow(&mut self, next: Rebasing)
        requires { self.old ≡ Rebasing.Ended }
        ensures { self.new ≡ next }
    {
        match mem::replace(self, next) {
            Rebasing::Ended => {}
            _ => unreachable!(),
        }
    }
}
