//! What a rebase asks of its session.

ghost use Rattle.std.specs.Prelude.{◌≡◌, ◌≤◌, unwrap_or};
ghost use Rattle.std.specs.FinMap.{len};
ghost use Rattle.zarr_tree.specs.Edits.{most_nodes};
ghost use Rattle.zarr_tree.specs.Held.{nodes_over};
ghost use Rattle.repo_objects.specs.Trees.{nodes_in};
ghost use Rattle.session.specs.Sessions.{rebased_to, origin_at};

use crate::Session;
use ice_ids::Id12;
use repo_objects::Loaded;
use std::mem;
use store_api::Version;
use zarr_changes::ChangeSet;

impl Session {
    /// The base's snapshot, which can be looked up in as a tree.
    pub fn loaded(&self) -> &Loaded
        ensures rows { result.now.nodes ≡ self.now.rows }
        ensures files { result.now.manifest_files ≡ self.now.files }
    {
        &self.loaded
    }

    /// What the session has changed of its base.
    pub fn changes(&self) -> &ChangeSet
        ensures { result.now ≡ self.now.held }
    {
        &self.changes
    }

    /// Takes another snapshot as its base, which the branch names from this version on, and these changes in place of its own,
    /// which stay where none are given.
    pub fn rebase_to(
        &mut self,
        id: Id12,
        version: Version,
        loaded: Loaded,
        changes: Option<ChangeSet>,
    )
        requires few { len (nodes_over (unwrap_or changes self.old.held) (nodes_in loaded.nodes))
            ≤ most_nodes }
        ensures { self.new ≡ rebased_to self.old id version.0 loaded
            (unwrap_or changes self.old.held) }
    {
        self.renew(version);
        self.base = id;
        drop(mem::replace(&mut self.loaded, loaded));
        if let Some(changes) = changes {
            drop(mem::replace(&mut self.changes, changes));
        }
    }

    /// Takes this version as that at which the branch names the base.
    pub fn renew(&mut self, version: Version)
        ensures { self.new ≡ record self.old { origin = origin_at version.0 self.old.origin } }
    {
        self.origin.renew(version);
    }
}
