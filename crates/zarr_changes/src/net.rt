//! What changes touch of their base.

ghost use Rattle.std.specs.Prelude.{◌≡◌, [], IfOk, OnOk};
ghost use Rattle.std.specs.FinMap.{entries};
ghost use Rattle.zarr_tree.specs.Nodes.{is_array};
ghost use Rattle.zarr_tree.specs.Rows.{node_found};
ghost use Rattle.zarr_tree.specs.Held.{ids_of, gone_rows, updated_rows, written_rows, touched};
ghost use Rattle.zarr_tree.specs.Touched.{is_untouched};
ghost use Rattle.zarr_changes.specs.inside.Touching.{no_kinds, with_kind, IsOf, AreOf, chunk_lists, is_updated, touches_own};

use crate::added::AddedRows;
use crate::chunk_lists::chunk_lists;
use crate::ids::IdSet;
use crate::kinds::is_group;
use crate::set::ChangeSet;
use ice_items::Items;
use std::alloc::{AllocError, Global};
use zarr_tree::{ArrayChunks, Found, Ids, Touched, TreeLike};

/// The ids of groups, and those of arrays.
#[derive(Drop)]
pub(crate) struct Kinds {
    groups: IdSet,
    arrays: IdSet,
}

impl Kinds {
    /// No ids. It takes no memory.
    pub(crate) fn new(alloc: Global) -> Kinds
        ensures { result ≡ no_kinds }
    {
        Kinds {
            groups: IdSet::new(alloc),
            arrays: IdSet::new(alloc),
        }
    }

    /// The id of one more node, by its kind.
    pub(crate) fn enter(&mut self, found: Found<'_>) -> Result<(), AllocError>
        ensures { OnOk result (self.new ≡ with_kind self.old (node_found found.entry)) }
    {
        if is_group(found.meta) {
            self.groups.insert(found.id)
        } else {
            self.arrays.insert(found.id)
        }
    }

    /// The ids as lists.
    fn listed(&self, alloc: Global) -> Result<KindLists, AllocError>
        ensures { IfOk result (λ ids. (ids.groups ≡ self.now.groups)
            × (ids.arrays ≡ self.now.arrays)) }
    {
        let groups = self.groups.items(alloc)?;
        let arrays = self.arrays.items(alloc)?;
        Ok(KindLists { groups, arrays })
    }
}

/// The ids of groups, and those of arrays, each as a list.
#[derive(Drop)]
pub(crate) struct KindLists {
    groups: Ids,
    arrays: Ids,
}

/// The ids of added nodes.
fn kinds_of(alloc: Global, mut rows: AddedRows<'_>) -> Result<Kinds, AllocError>
    ensures { IfOk result (λ kinds. IsOf kinds rows.entry) }
{
    let mut kinds = Kinds::new(alloc);
    while let Some((_, found)) = rows.next() {
        kinds.enter(found)?;
    }
    Ok(kinds)
}

impl ChangeSet {
    /// Whether a node of the base at this path has other metadata, and a node of its id stands there in the overlay.
    fn is_updated<B: TreeLike>(&self, base: &B, path: &str, found: Found<'_>) -> bool
        ensures { result ≡ is_updated self.now (B.nodes base.now)
            (path.now, node_found found.entry) }
    {
        if self.metas.get(&found.id).is_none() {
            return false;
        }
        match self.lookup(base, path) {
            Some(there) => there.id == found.id,
            None => false,
        }
    }

    /// The ids of nodes of the base that are gone.
    fn deleted<B: TreeLike>(&self, alloc: Global, base: &B) -> Result<Kinds, AllocError>
        ensures { IfOk result (λ kinds. IsOf kinds (gone_rows self.now (B.nodes base.now))) }
    {
        let mut kinds = Kinds::new(alloc);
        if self.dropped.is_empty() {
            return Ok(kinds);
        }
        for at in 0..base.len() {
            let (path, found) = base.row(at);
            if self.is_gone(base, path) {
                kinds.enter(found)?;
            }
        }
        Ok(kinds)
    }

    /// The ids of nodes of the base that stay with other metadata.
    fn updated<B: TreeLike>(&self, alloc: Global, base: &B) -> Result<Kinds, AllocError>
        ensures { IfOk result (λ kinds. IsOf kinds (updated_rows self.now (B.nodes base.now))) }
    {
        let mut kinds = Kinds::new(alloc);
        if self.metas.is_empty() {
            return Ok(kinds);
        }
        for at in 0..base.len() {
            let (path, found) = base.row(at);
            if self.is_updated(base, path, found) {
                kinds.enter(found)?;
            }
        }
        Ok(kinds)
    }

    /// The ids of added nodes, as lists.
    fn added_lists(&self, alloc: Global) -> Result<KindLists, AllocError>
        ensures { IfOk result (λ ids. AreOf ids (entries self.now.added)) }
    {
        kinds_of(alloc, self.added.rows())?.listed(alloc)
    }

    /// The ids of nodes of the base that are gone, as lists.
    fn deleted_lists<B: TreeLike>(&self, alloc: Global, base: &B) -> Result<KindLists, AllocError>
        ensures { IfOk result (λ ids. AreOf ids (gone_rows self.now (B.nodes base.now))) }
    {
        self.deleted(alloc, base)?.listed(alloc)
    }

    /// The ids of nodes of the base that stay with other metadata, as lists.
    fn updated_lists<B: TreeLike>(&self, alloc: Global, base: &B) -> Result<KindLists, AllocError>
        ensures { IfOk result (λ ids. AreOf ids (updated_rows self.now (B.nodes base.now))) }
    {
        self.updated(alloc, base)?.listed(alloc)
    }

    /// The arrays of the overlay that have entries, and the indices of those.
    fn updated_chunks<B: TreeLike>(
        &self,
        alloc: Global,
        base: &B,
    ) -> Result<Items<ArrayChunks>, AllocError>
        ensures { IfOk result (λ arrays. arrays ≡ chunk_lists self.now.chunks
            (ids_of is_array (written_rows self.now (B.nodes base.now)))) }
    {
        let arrays = self.written(alloc, base)?.arrays.items(alloc)?;
        chunk_lists(alloc, &self.entries, arrays.as_slice())
    }

    /// The net changes: what the set touches of the base.
    pub fn net<B: TreeLike>(&self, alloc: Global, base: &B) -> Result<Touched, AllocError>
        ensures { IfOk result (λ lists. lists ≡ touched self.now (B.nodes base.now)) }
    {
        let new = self.added_lists(alloc)?;
        let deleted = self.deleted_lists(alloc, base)?;
        let updated = self.updated_lists(alloc, base)?;
        let updated_chunks = self.updated_chunks(alloc, base)?;
        Ok(Touched {
            new_groups: new.groups,
            new_arrays: new.arrays,
            deleted_groups: deleted.groups,
            deleted_arrays: deleted.arrays,
            updated_arrays: updated.arrays,
            updated_groups: updated.groups,
            updated_chunks,
        })
    }

    /// Whether a node of the base is gone, or stays with other metadata.
    fn touches_base<B: TreeLike>(&self, base: &B) -> bool
        ensures { result ≡ touches_own self.now (B.nodes base.now) }
    {
        if self.dropped.is_empty() && self.metas.is_empty() {
            return false;
        }
        for at in 0..base.len() {
            let (path, found) = base.row(at);
            if self.is_gone(base, path) || self.is_updated(base, path, found) {
                return true;
            }
        }
        false
    }

    /// Whether the net changes are none. It takes no memory.
    pub fn is_empty<B: TreeLike>(&self, base: &B) -> bool
        ensures { result ≡ is_untouched (touched self.now (B.nodes base.now)) }
    {
        if !self.added.is_empty() {
            return false;
        }
        if self.touches_base(base) {
            return false;
        }
        !self.has_written(base)
    }
}
