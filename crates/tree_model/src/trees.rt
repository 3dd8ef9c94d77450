//! Trees, and single edits of them.

ghost use Rattle.std.specs.Prelude.{◌≡◌, ◌++◌, ◌∷◌, [], not, option_map, OnOk, OnErr};
ghost use Rattle.std.specs.Option.{option_copied};
ghost use Rattle.std.specs.FinMap as map;
ghost use Rattle.zarr_path.specs.Paths.{is_within};
ghost use Rattle.zarr_tree.specs.Edits.{with_text, put_some, edited};
ghost use Rattle.zarr_tree.specs.Trees.{no_tree};
ghost use Rattle.tree_model.specs.declared.trees.Write.TheVariants.{Chunk, Gone};
ghost use Rattle.tree_model.specs.Models.{tree_of, edit_of, written, Takes};

use crate::edits::Edit;
use crate::lists::{same_index, same_path};
use crate::nodes::Nodes;
use crate::refusing::refusal;
use ice_items::Items;
use std::alloc::{AllocError, Global};
use zarr_meta::Meta;
use zarr_path::{Index, Path};
use zarr_tree::{EditFault, Found, Node, TreeLike};

/// What was written in chunks.
#[derive(Debug, Drop)]
pub enum Write {
    /// A chunk has these bytes, or none.
    Chunk {
        /// Where the array stands.
        path: Path,
        /// Which chunk.
        index: Index,
        /// The bytes, if it is held.
        bytes: Option<Items<u8>>,
    },
    /// No chunk at or beneath the path is held.
    Gone {
        /// The path.
        path: Path,
    },
}

/// A tree: the nodes by their paths, and what was written in chunks, the oldest first.
#[derive(Debug, Drop)]
pub struct Tree {
    /// The nodes.
    pub nodes: Nodes,
    /// The writes.
    pub writes: Items<Write>,
}

impl TreeLike for Tree {
    ghost nodes = { λ t. t.nodes };

    fn find(&self, path: &str) -> Option<Found<'_>> {
        match self.nodes.find(path) {
            Some(node) => Some(node.found()),
            None => None,
        }
    }

    fn len(&self) -> usize {
        self.nodes.len()
    }

    fn row(&self, at: usize) -> (&str, Found<'_>) {
        self.nodes.row(at)
    }
}

impl Tree {
    /// The tree without a node. It takes no memory.
    pub fn new(alloc: Global) -> Tree
        ensures { tree_of result ≡ no_tree }
    {
        Tree {
            nodes: Nodes::new(alloc),
            writes: Items::new(alloc),
        }
    }

    /// The bytes of the chunk that is held at a path and an index.
    pub fn chunk(&self, path: &Path, index: &Index) -> Option<&Items<u8>>
        ensures { option_copied result ≡ (tree_of self.now).chunk path.now index.now }
    {
        let mut held = None;
        for write in self.writes.as_slice() {
            held = write.after(path, index, held);
        }
        held
    }

    /// One edit. After a refusal, and where memory runs out, the tree is as before.
    pub fn change(&mut self, alloc: Global, edit: &Edit) -> Result<(), EditFault>
        ensures { Takes (tree_of self.old) (edit_of edit.now) result (tree_of self.new) }
    {
        match refusal(&self.nodes, edit) {
            Some(fault) => Err(fault),
            None => Ok(self.edit(alloc, edit)?),
        }
    }

    /// An edit that isn't refused.
    fn edit(&mut self, alloc: Global, edit: &Edit) -> Result<(), AllocError>
        ensures ok { OnOk result (tree_of self.new ≡ edited (tree_of self.old) (edit_of edit.now)) }
        ensures err { OnErr result (tree_of self.new ≡ tree_of self.old) }
    {
        match edit {
            Edit::Add { path, id, meta } => {
                let meta = meta.copy(alloc)?;
                self.nodes.insert(alloc, path, Node::new(*id, meta))
            }
            Edit::SetMeta { path, meta } => self.set_meta(alloc, path, meta),
            Edit::Drop { path } => {
                self.drop_node(alloc, path)?;
                Ok(())
            }
            Edit::Set { path, index, bytes } => {
                let bytes = bytes.copy(alloc)?;
                self.write(alloc, path, index, Some(bytes))?;
                Ok(())
            }
            Edit::Unset { path, index } => {
                self.write(alloc, path, index, None)?;
                Ok(())
            }
        }
    }

    /// Gives the node at a path other metadata, if there is one.
    fn set_meta(&mut self, alloc: Global, path: &Path, meta: &Meta) -> Result<(), AllocError>
        ensures ok { OnOk result (self.new.nodes ≡ put_some self.old.nodes path.now
            (option_map (with_text meta.now.text) (map.get self.old.nodes path.now))) }
        ensures err { OnErr result (self.new.nodes ≡ self.old.nodes) }
        ensures writes { self.new.writes ≡ self.old.writes }
    {
        let Some(node) = self.nodes.find(path.as_str()) else {
            return Ok(());
        };
        let id = node.found().id;
        let meta = meta.copy(alloc)?;
        self.nodes.insert(alloc, path, Node::new(id, meta))
    }

    /// Takes the node at a path, and all beneath it, away.
    fn drop_node(&mut self, alloc: Global, path: &Path) -> Result<(), AllocError>
        ensures ok { OnOk result (self.new.nodes ≡ map.retain_keys self.old.nodes
            (λ q. not (is_within path.now q))) }
        ensures written { OnOk result (self.new.writes ≡ self.old.writes ++ Gone path.now ∷ []) }
        ensures err { OnErr result ((self.new.nodes ≡ self.old.nodes)
            × (self.new.writes ≡ self.old.writes)) }
    {
        let above = path.copy(alloc)?;
        self.writes.push(Write::Gone { path: above })?;
        self.nodes.remove_within(path.as_str());
        Ok(())
    }

    /// Writes the bytes of a chunk, or none.
    fn write(
        &mut self,
        alloc: Global,
        path: &Path,
        index: &Index,
        bytes: Option<Items<u8>>,
    ) -> Result<(), AllocError>
        ensures ok { OnOk result (self.new.writes ≡ self.old.writes ++ Chunk path.now index.now
            bytes ∷ []) }
        ensures err { OnErr result (self.new.writes ≡ self.old.writes) }
        ensures nodes { self.new.nodes ≡ self.old.nodes }
    {
        let path = path.copy(alloc)?;
        let index = index.copy(alloc)?;
        self.writes.push(Write::Chunk { path, index, bytes })
    }
}

impl Write {
    /// What is held of a chunk after this write.
    fn after<'a>(
        &'a self,
        path: &Path,
        index: &Index,
        held: Option<&'a Items<u8>>,
    ) -> Option<&'a Items<u8>>
        ensures { option_copied result ≡ written path.now index.now (option_copied held.entry)
            self.now }
    {
        match self {
            Write::Chunk {
                path: at,
                index: place,
                bytes,
            } => {
                if same_path(path.as_str(), at.as_str()) && same_index(index, place) {
                    bytes.as_ref()
                } else {
                    held
                }
            }
            Write::Gone { path: above } => { if path.is_within(above) { None } else { held } }
        }
    }
}
