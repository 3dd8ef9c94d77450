//! One more edit in changes.

ghost use Rattle.std.specs.Prelude.{◌≡◌, ◌&&◌, ◌||◌, ◌∷◌, not, if◌then◌else◌, is_some, Some, None, OnOk, OnErr, IfOk};
ghost use Rattle.std.specs.List.{filter};
ghost use Rattle.std.specs.FinMap as map;
ghost use Rattle.ice_ids.specs.declared.Id8.{Id8 as TheId};
ghost use Rattle.ice_ids.specs.Text.{same_id8};
ghost use Rattle.zarr_tree.specs.Nodes.{same_numbers};
ghost use Rattle.zarr_tree.specs.Edits.{Drop as Dropping};
ghost use Rattle.zarr_tree.specs.Changes.{has_id, with_meta, with_entry};
ghost use Rattle.zarr_tree.specs.Touched.{lists};
ghost use Rattle.tree_model.specs.Models.{edit_of, tree_of, changes_of, Extends};
ghost use Rattle.tree_model.specs.inside.Entering.{entered, ids_within};

use crate::changes::{Changes, ChunkEntry, put_first};
use crate::edits::Edit;
use crate::lists::{contains, push_if, same_index};
use crate::nodes::Nodes;
use crate::refusing::refusal;
use crate::trees::Tree;
use crate::trees_under::has_id;
use ice_ids::Id8;
use ice_items::Items;
use std::alloc::{AllocError, Global};
use zarr_meta::Meta;
use zarr_path::{Index, Path, is_within};
use zarr_tree::{EditFault, Node};

/// The ids of the nodes at a path and beneath it.
fn ids_within(alloc: Global, nodes: &Nodes, of: &str) -> Result<Items<Id8>, AllocError>
    ensures { IfOk result (λ ids. ids ≡ ids_within of.now (map.entries nodes.now)) }
{
    let mut ids = Items::new(alloc);
    let mut rows = nodes.rows();
    while let Some((path, found)) = rows.next() {
        push_if(&mut ids, is_within(of, path), found.id)?;
    }
    Ok(ids)
}

/// Takes away the metadata of these nodes.
fn remove_metas(metas: &mut Vec<(Id8, Meta)>, ids: &Items<Id8>)
    ensures { metas.new.items ≡ filter (λ row. not (lists ids.now row.0)) metas.old.items }
{
    metas.retain(|row| !contains(ids.as_slice(), &row.0));
}

/// Takes away the entries of these nodes.
fn remove_chunks(chunks: &mut Vec<ChunkEntry>, ids: &Items<Id8>)
    ensures { chunks.new.items ≡ filter (λ row. not (lists ids.now row.0)) chunks.old.items }
{
    chunks.retain(|row| !contains(ids.as_slice(), &row.0));
}

/// Takes away the entry of a chunk.
fn remove_chunk(chunks: &mut Vec<ChunkEntry>, id: &Id8, index: &Index)
    ensures { chunks.new.items
        ≡ filter (λ row. not (same_id8 row.0 id.now && same_numbers row.1 index.now))
        chunks.old.items }
{
    chunks.retain(|row| !(row.0 == *id && same_index(&row.1, index)));
}

impl Changes {
    /// One more edit. It is refused as the edit of the tree under the changes is. After a refusal, and where memory runs out,
    /// the changes are as before. Whether the id of an added node is a new one isn't asked.
    pub fn extend(&mut self, alloc: Global, tree: &Tree, edit: &Edit) -> Result<(), EditFault>
        ensures { Extends (changes_of self.old) (tree_of tree.now) (edit_of edit.now) result
            (changes_of self.new) }
    {
        let under = self.nodes_under(alloc, &tree.nodes)?;
        match refusal(&under, edit) {
            Some(fault) => Err(fault),
            None => Ok(self.enter(alloc, &tree.nodes, &under, edit)?),
        }
    }

    /// One more edit that isn't refused, where the tree has its own nodes, and these under the changes.
    fn enter(
        &mut self,
        alloc: Global,
        own: &Nodes,
        under: &Nodes,
        edit: &Edit,
    ) -> Result<(), AllocError>
        ensures ok { OnOk result (changes_of self.new ≡ entered (changes_of self.old) own.now
            under.now (edit_of edit.now)) }
        ensures err { OnErr result (changes_of self.new ≡ changes_of self.old) }
    {
        match edit {
            Edit::Add { path, id, meta } => self.add(alloc, path, *id, meta),
            Edit::SetMeta { path, meta } => self.set_meta(alloc, under, path, meta),
            Edit::Drop { path } => self.drop_within(alloc, own, under, path),
            Edit::Set { path, index, bytes } => {
                let bytes = bytes.copy(alloc)?;
                self.set_entry(alloc, under, path, index, Some(bytes))
            }
            Edit::Unset { path, index } => self.unset_entry(alloc, under, path, index),
        }
    }

    /// Adds a node.
    fn add(&mut self, alloc: Global, path: &Path, id: Id8, meta: &Meta) -> Result<(), AllocError>
        ensures ok { OnOk result (changes_of self.new ≡ record (changes_of self.old) {
          added = map.insert self.old.added path.now (record { id = id; text = meta.now.text });
        }) }
        ensures err { OnErr result (changes_of self.new ≡ changes_of self.old) }
    {
        let meta = meta.copy(alloc)?;
        self.added.insert(alloc, path, Node::new(id, meta))
    }

    /// Gives the node at a path other metadata, if there is one.
    fn set_meta(
        &mut self,
        alloc: Global,
        under: &Nodes,
        path: &Path,
        meta: &Meta,
    ) -> Result<(), AllocError>
        ensures ok { OnOk result (changes_of self.new ≡ with_meta (changes_of self.old) path.now
            meta.now.text (map.get self.old.added path.now) (map.get under.now path.now)) }
        ensures err { OnErr result (changes_of self.new ≡ changes_of self.old) }
    {
        if let Some(node) = self.added.find(path.as_str()) {
            let id = node.found().id;
            return self.add(alloc, path, id, meta);
        }
        let Some(node) = under.find(path.as_str()) else {
            return Ok(());
        };
        let id = node.found().id;
        let meta = meta.copy(alloc)?;
        put_first(&mut self.metas, (id, meta))?;
        Ok(())
    }

    /// Enters the node at a path as dropped, if the tree has it there.
    fn drop_id(&mut self, own: &Nodes, under: &Nodes, path: &Path) -> Result<(), AllocError>
        ensures ok { OnOk result ((id : TheId) → lists self.new.dropped id
            ≡ (lists self.old.dropped id || (has_id id (map.get under.now path.now) && has_id id
            (map.get own.now path.now)))) }
        ensures err { OnErr result (self.new.dropped ≡ self.old.dropped) }
        ensures rest { (self.new.added ≡ self.old.added) × (self.new.metas ≡ self.old.metas)
            × (self.new.chunks ≡ self.old.chunks) }
    {
        if let Some(node) = under.find(path.as_str()) {
            let id = node.found().id;
            if has_id(&id, own.find(path.as_str())) {
                self.dropped.push(id)?;
            }
        }
        Ok(())
    }

    /// Takes the node at a path, and all beneath it, away.
    fn drop_within(
        &mut self,
        alloc: Global,
        own: &Nodes,
        under: &Nodes,
        path: &Path,
    ) -> Result<(), AllocError>
        ensures ok { OnOk result (changes_of self.new ≡ entered (changes_of self.old) own.now
            under.now (Dropping path.now)) }
        ensures err { OnErr result (changes_of self.new ≡ changes_of self.old) }
    {
        let ids = ids_within(alloc, under, path.as_str())?;
        self.drop_id(own, under, path)?;
        self.added.remove_within(path.as_str());
        remove_metas(&mut self.metas, &ids);
        remove_chunks(&mut self.chunks, &ids);
        Ok(())
    }

    /// Enters bytes for a chunk of the node at a path, or that none is held, if there is a node.
    fn set_entry(
        &mut self,
        alloc: Global,
        under: &Nodes,
        path: &Path,
        index: &Index,
        entry: Option<Items<u8>>,
    ) -> Result<(), AllocError>
        ensures ok { OnOk result (changes_of self.new ≡ with_entry (changes_of self.old) index.now
            (Some entry) (map.get under.now path.now)) }
        ensures err { OnErr result (changes_of self.new ≡ changes_of self.old) }
    {
        let Some(node) = under.find(path.as_str()) else {
            return Ok(());
        };
        let id = node.found().id;
        let index = index.copy(alloc)?;
        put_first(&mut self.chunks, (id, index, entry))?;
        Ok(())
    }

    /// Enters that no chunk is held; where the node was added, its entry goes.
    fn unset_entry(
        &mut self,
        alloc: Global,
        under: &Nodes,
        path: &Path,
        index: &Index,
    ) -> Result<(), AllocError>
        ensures ok { OnOk result (changes_of self.new ≡ with_entry (changes_of self.old) index.now
            (if is_some (map.get self.old.added path.now) then None else Some None)
            (map.get under.now path.now)) }
        ensures err { OnErr result (changes_of self.new ≡ changes_of self.old) }
    {
        if self.added.find(path.as_str()).is_none() {
            return self.set_entry(alloc, under, path, index, None);
        }
        if let Some(node) = under.find(path.as_str()) {
            remove_chunk(&mut self.chunks, &node.found().id, index);
        }
        Ok(())
    }
}
