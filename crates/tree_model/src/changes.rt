//! Changes: what edits have done to a tree.

ghost use Rattle.std.specs.Prelude.{◌≡◌, ◌∷◌, option_map, OnOk, OnErr};
ghost use Rattle.std.specs.List.{list_any};
ghost use Rattle.std.specs.Option.{option_copied};
ghost use Rattle.ice_ids.specs.Text.{same_id8};
ghost use Rattle.zarr_tree.specs.Changes.{none, is_gone};
ghost use Rattle.zarr_tree.specs.Touched.{lists};
ghost use Rattle.zarr_tree.specs.Held.{meta_in, entry_in};
ghost use Rattle.tree_model.specs.Models.{held_of, changes_of};

use crate::lists::{contains, same_index};
use crate::nodes::Nodes;
use ice_ids::Id8;
use ice_items::Items;
use std::alloc::{AllocError, Global};
use zarr_meta::Meta;
use zarr_path::{Index, is_within};

/// What was entered for a chunk: the array by its node's id, the index, and the bytes, if the chunk is held.
pub type ChunkEntry = (Id8, Index, Option<Items<u8>>);

/// What edits have done to a tree.
#[derive(Debug, Drop)]
pub struct Changes {
    /// The ids of dropped nodes.
    pub dropped: Items<Id8>,
    /// The added nodes.
    pub added: Nodes,
    /// Other metadata by the ids of nodes. Of two of one id the first is meant.
    pub metas: Vec<(Id8, Meta)>,
    /// The entries of chunks. Of two for one chunk the first is meant.
    pub chunks: Vec<ChunkEntry>,
}

/// Puts an item before the others.
pub(crate) fn put_first<T: Drop>(items: &mut Vec<T>, item: T) -> Result<(), AllocError>
    ensures ok { OnOk result (items.new.items ≡ item ∷ items.old.items) }
    ensures err { OnErr result (items.new.items ≡ items.old.items) }
{
    items.insert(0, item)?;
    Ok(())
}

impl Changes {
    /// No changes. It takes no memory.
    pub fn new(alloc: Global) -> Changes
        ensures { changes_of result ≡ none }
    {
        Changes {
            dropped: Items::new(alloc),
            added: Nodes::new(alloc),
            metas: Vec::new(alloc),
            chunks: Vec::new(alloc),
        }
    }

    /// Whether an id was dropped.
    pub fn drops(&self, id: &Id8) -> bool
        ensures { result ≡ lists self.now.dropped id.now }
    {
        contains(self.dropped.as_slice(), id)
    }

    /// Whether the node at a path is gone: it or one above it was dropped.
    pub fn is_gone(&self, nodes: &Nodes, path: &str) -> bool
        ensures { result ≡ is_gone (changes_of self.now).dropped nodes.now path.now }
    {
        let mut rows = nodes.rows();
        while let Some((above, found)) = rows.next() {
            if is_within(above, path) && self.drops(&found.id) {
                return true;
            }
        }
        false
    }

    /// The other metadata of a node, if it has some.
    pub fn other_meta(&self, id: &Id8) -> Option<&Meta>
        ensures { option_map (λ meta. meta.now.text) result ≡ meta_in (held_of self.now).metas
            id.now }
    {
        for row in self.metas.as_slice() {
            if row.0 == *id {
                return Some(&row.1);
            }
        }
        None
    }

    /// The entry of a chunk: its bytes, or that none is held. The outer `None` is where there is no entry.
    pub fn entry(&self, id: &Id8, index: &Index) -> Option<Option<&Items<u8>>>
        ensures { option_map option_copied result ≡ entry_in (held_of self.now).chunks id.now
            index.now }
    {
        for row in self.chunks.as_slice() {
            if row.0 == *id && same_index(&row.1, index) {
                return Some(row.2.as_ref());
            }
        }
        None
    }

    /// Whether a node has an entry.
    pub fn has_entry(&self, id: &Id8) -> bool
        ensures { result ≡ list_any (λ row. same_id8 row.0 id.now) (held_of self.now).chunks }
    {
        self.chunks.as_slice().iter().any(|row| row.0 == *id)
    }
}
