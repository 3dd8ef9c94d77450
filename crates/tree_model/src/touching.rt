//! What changes touch of a tree.

ghost use Rattle.std.specs.Prelude.{◌≡◌, ◌&&◌, is_some, IfOk};
ghost use Rattle.std.specs.List.{list_any};
ghost use Rattle.std.specs.FinMap as map;
ghost use Rattle.ice_ids.specs.Text.{same_id8};
ghost use Rattle.zarr_tree.specs.Changes.{is_gone, has_id};
ghost use Rattle.zarr_tree.specs.Held.{meta_in, indices_of};
ghost use Rattle.zarr_tree.specs.Nodes.{is_array};
ghost use Rattle.zarr_tree.specs.Rows.{node_found};
ghost use Rattle.zarr_tree.specs.Touched.{Touches};
ghost use Rattle.tree_model.specs.Models.{held_of, changes_of, tree_of};
ghost use Rattle.tree_model.specs.inside.Listing.{kind_of, ids_where, chunks_where};

use crate::changes::Changes;
use crate::kinds::{is_array, is_group};
use crate::lists::push_if;
use crate::nodes::Nodes;
use crate::trees::Tree;
use crate::trees_under::has_id;
use ice_ids::Id8;
use ice_items::Items;
use std::alloc::{AllocError, Global};
use zarr_meta::Meta;
use zarr_path::Index;
use zarr_tree::{ArrayChunks, Found, Ids, Touched, touched_law};

/// Whether metadata is an array's, or a group's.
fn is_of(arrays: bool, meta: &Meta) -> bool
    ensures { result ≡ kind_of arrays meta.now.text }
{
    if arrays {
        is_array(meta)
    } else {
        is_group(meta)
    }
}

impl Changes {
    /// The ids of added arrays, or groups.
    fn new_ids(&self, alloc: Global, arrays: bool) -> Result<Ids, AllocError>
        ensures { IfOk result (λ ids. ids ≡ ids_where (λ row. kind_of arrays row.1.text)
            (map.entries self.now.added)) }
    {
        let mut ids = Items::new(alloc);
        let mut rows = self.added.rows();
        while let Some((_, found)) = rows.next() {
            push_if(&mut ids, is_of(arrays, found.meta), found.id)?;
        }
        Ok(ids)
    }

    /// The ids of a tree's arrays, or groups, that are gone.
    fn deleted_ids(&self, alloc: Global, nodes: &Nodes, arrays: bool) -> Result<Ids, AllocError>
        ensures { IfOk result
            (λ ids. ids ≡ ids_where (λ row. is_gone (changes_of self.now).dropped nodes.now row.0
            && kind_of arrays row.1.text) (map.entries nodes.now)) }
    {
        let mut ids = Items::new(alloc);
        let mut rows = nodes.rows();
        while let Some((path, found)) = rows.next() {
            let listed = self.is_gone(nodes, path) && is_of(arrays, found.meta);
            push_if(&mut ids, listed, found.id)?;
        }
        Ok(ids)
    }

    /// Whether a tree's node stays, and has other metadata.
    fn is_updated(&self, under: &Nodes, path: &str, found: Found<'_>) -> bool
        ensures { result ≡ (has_id found.entry.id (map.get under.now path.now) && is_some
            (meta_in (held_of self.now).metas found.entry.id)) }
    {
        has_id(&found.id, under.find(path)) && self.other_meta(&found.id).is_some()
    }

    /// The ids of a tree's arrays, or groups, that stay, with other metadata.
    fn updated_ids(
        &self,
        alloc: Global,
        nodes: &Nodes,
        under: &Nodes,
        arrays: bool,
    ) -> Result<Ids, AllocError>
        ensures { IfOk result
            (λ ids. ids
            ≡ ids_where
            (λ row. (has_id row.1.id (map.get under.now row.0) && is_some
            (meta_in (held_of self.now).metas row.1.id)) && kind_of arrays row.1.text)
            (map.entries nodes.now)) }
    {
        let mut ids = Items::new(alloc);
        let mut rows = nodes.rows();
        while let Some((path, found)) = rows.next() {
            let listed = self.is_updated(under, path, found) && is_of(arrays, found.meta);
            push_if(&mut ids, listed, found.id)?;
        }
        Ok(ids)
    }

    /// The indices of a node's entries.
    fn indices(&self, alloc: Global, id: &Id8) -> Result<Items<Index>, AllocError>
        ensures { IfOk result (λ indices. indices ≡ indices_of (held_of self.now).chunks id.now) }
    {
        let mut indices = Items::new(alloc);
        for row in self.chunks.as_slice() {
            if row.0 == *id {
                indices.push(row.1.copy(alloc)?)?;
            }
        }
        Ok(indices)
    }

    /// The arrays among nodes that have entries, and the indices of those.
    fn chunks_in(&self, alloc: Global, under: &Nodes) -> Result<Items<ArrayChunks>, AllocError>
        ensures { IfOk result (λ arrays. arrays ≡ chunks_where (held_of self.now).chunks
            (map.entries under.now)) }
    {
        let mut arrays = Items::new(alloc);
        let mut rows = under.rows();
        while let Some((_, found)) = rows.next() {
            if self.has_entry(&found.id) && is_array(found.meta) {
                arrays.push(ArrayChunks {
                    node: found.id,
                    chunks: self.indices(alloc, &found.id)?,
                })?;
            }
        }
        Ok(arrays)
    }

    /// What the changes touch of a tree: all that is to be listed, in no order, and nothing else.
    pub fn touched(&self, alloc: Global, tree: &Tree) -> Result<Touched, AllocError>
        ensures { IfOk result (λ lists. Touches (changes_of self.now) (tree_of tree.now) lists) }
    {
        touched_law::<Items<u8>>();
        let nodes = &tree.nodes;
        let under = self.nodes_under(alloc, nodes)?;
        Ok(Touched {
            new_groups: self.new_ids(alloc, false)?,
            new_arrays: self.new_ids(alloc, true)?,
            deleted_groups: self.deleted_ids(alloc, nodes, false)?,
            deleted_arrays: self.deleted_ids(alloc, nodes, true)?,
            updated_arrays: self.updated_ids(alloc, nodes, &under, true)?,
            updated_groups: self.updated_ids(alloc, nodes, &under, false)?,
            updated_chunks: self.chunks_in(alloc, &under)?,
        })
    }
}
