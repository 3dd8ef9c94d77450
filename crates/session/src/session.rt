//! Sessions.

ghost use Rattle.std.specs.Prelude.{◌≡◌, true};
ghost use Rattle.session.specs.Sessions.{branch_of, version_of, writes};

use crate::origin::Origin;
use ice_base::RefName;
use ice_ids::{AnyIds, Id12};
use ice_items::Items;
use kept_ids::KeptIds;
use repo_objects::Loaded;
use snapshot_file::Props;
use std::alloc::Global;
use std::marker::Model;
use store_api::Version;
use zarr_changes::ChangeSet;
use zarr_meta::MetaReader;
use zarr_path::Path;

/// A node of a listing: its path, and whether it is an array.
#[derive(Debug, Drop)]
pub struct Listing {
    pub path: Path,
    pub array: bool,
}

/// A list of nodes.
pub type Listings = Items<Listing>;

/// A session: a snapshot and changes over it. Its reads see the snapshot's tree under the changes, whatever
/// other clients do.
#[derive(Drop)]
pub struct Session {
    pub(crate) alloc: Global,
    pub(crate) origin: Origin,
    pub(crate) base: Id12,
    pub(crate) loaded: Loaded,
    pub(crate) changes: ChangeSet,
    pub(crate) reader: MetaReader,
    pub(crate) props: Props,
    pub(crate) ids: KeptIds,
}

impl Model for Session {
    ghost use Rattle.std.specs.Prelude.{◌≤◌};
    ghost use Rattle.std.specs.FinMap.{len};
    ghost use Rattle.zarr_tree.specs.Edits.{most_nodes};
    ghost use Rattle.session.specs.Sessions.{SessionState, nodes_seen};

    ghost Value = { SessionState };

    ghost use Rattle.session.specs.Codes.{coded_session};

    ghost coded = { coded_session };

    ghost use Rattle.session.specs.Viewed.{viewed};

    ghost view = { viewed };

    ghost invariant = { λ s. len (nodes_seen (viewed s)) ≤ most_nodes };
}

impl Session {
    ghost use Rattle.std.specs.Prelude.{[]};
    ghost use Rattle.zarr_changes.specs.Edits.{nothing};

    /// A session over this snapshot, without changes.
    pub(crate) fn begin(
        alloc: Global,
        origin: Origin,
        ids: AnyIds,
        base: Id12,
        loaded: Loaded,
    ) -> Session
        ensures { result ≡ record {
          origin = origin;
          base = base;
          rows = loaded.nodes;
          files =
              loaded.manifest_files;
          held = nothing;
          props = [];
          ids = ids;
        } }
    {
        // What was loaded has no more nodes than a tree may have.
        let _ = loaded.file();
        Session {
            alloc,
            origin,
            base,
            loaded,
            changes: ChangeSet::new(alloc),
            reader: MetaReader::new(),
            props: Props::new(alloc),
            ids: KeptIds::new(ids),
        }
    }

    /// The base's id.
    pub fn base(&self) -> Id12
        ensures { result ≡ self.now.base }
    {
        self.base
    }

    /// Whether it was opened to write.
    pub fn writes(&self) -> bool
        ensures { result ≡ writes self.now }
    {
        matches!(self.origin, Origin::Writes(_))
    }

    /// The branch that it writes to.
    pub fn branch(&self) -> &RefName
        requires { writes self.now ≡ true }
        ensures { result.now ≡ branch_of self.now }
    {
        match &self.origin {
            Origin::Writes(tip) => &tip.branch,
            Origin::ReadsBranch(_) | Origin::ReadsTag(_) | Origin::ReadsId => unreachable!(),
        }
    }

    /// The version at which that branch named the base.
    pub fn version(&self) -> Version
        requires { writes self.now ≡ true }
        ensures { result.0 ≡ version_of self.now }
    {
        match &self.origin {
            Origin::Writes(tip) => tip.version,
            Origin::ReadsBranch(_) | Origin::ReadsTag(_) | Origin::ReadsId => unreachable!(),
        }
    }

    /// The branch that it writes to, where nothing else of it is needed.
    pub fn into_branch(self) -> RefName
        requires { writes self ≡ true }
        ensures { result ≡ branch_of self }
    {
        let Session {
            origin,
            loaded,
            changes,
            reader,
            props,
            ids,
            ..
        } = self;
        drop(loaded);
        drop(changes);
        drop(reader);
        drop(props);
        drop(ids);
        match origin {
            Origin::Writes(tip) => tip.branch,
            Origin::ReadsBranch(_) | Origin::ReadsTag(_) | Origin::ReadsId => unreachable!(),
        }
    }

    /// What named the base.
    pub fn origin(&self) -> &Origin
        ensures { result.now ≡ self.now.origin }
    {
        &self.origin
    }

    /// The ids that it draws next.
    pub fn ids(&self) -> AnyIds
        ensures { result ≡ self.now.ids }
    {
        self.ids.ids()
    }
}
