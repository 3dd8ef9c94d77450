//! Conflicts of changes with a later commit.

ghost use Rattle.std.specs.Prelude.{◌≡◌, ◌↔◌, is_some, IfOk, IsTrue};
ghost use Rattle.std.specs.List.{list_any};
ghost use Rattle.std.specs.Option.{option_copied};
ghost use Rattle.std.specs.FinMap as map;
ghost use Rattle.zarr_path.specs.Paths.{is_beneath};
ghost use Rattle.zarr_tree.specs.Changes.{has_id};
ghost use Rattle.zarr_tree.specs.Conflicts.{same_node, IsConflict};
ghost use Rattle.zarr_tree.specs.Rows.{node_found};
ghost use Rattle.zarr_tree.specs.Touched.{lists_index, lists_chunk, lists_new, lists_updated};
ghost use Rattle.tree_model.specs.Models.{held_of, changes_of, tree_with};
ghost use Rattle.tree_model.specs.inside.Conflicting.{is_taken, is_orphan, takes_away, has_listed, has_new_beneath, drops_array, drops_group, is_twice, at_node, at_path};

use crate::changes::Changes;
use crate::kinds::{is_array, is_group};
use crate::lists::{contains, same_index, same_path};
use crate::nodes::Nodes;
use crate::trees_under::has_id;
use ice_ids::Id8;
use std::alloc::{AllocError, Global};
use zarr_path::{Index, Path, is_within, parent_text};
use zarr_tree::{Case, Found, Node, Touched};

/// Our changes of a tree, what a later commit touched of it, and the nodes of the trees before that commit and after it.
#[derive(Clone, Copy, Debug)]
pub struct Sides<'a> {
    /// Our changes.
    pub mine: &'a Changes,
    /// What the other side's changes touched.
    pub theirs: &'a Touched,
    /// The nodes before.
    pub before: &'a Nodes,
    /// The nodes after.
    pub after: &'a Nodes,
}

/// Whether a path is beneath another.
fn is_beneath(of: &str, path: &str) -> bool
    ensures { result ≡ is_beneath of.now path.now }
{
    is_within(of, path) && !same_path(path, of)
}

/// Whether two nodes were found, and both have one id.
fn same_node(node: Option<&Node>, other: Option<&Node>) -> bool
    ensures { result ≡ same_node (option_copied node.entry) (option_copied other.entry) }
{
    match node {
        Some(node) => has_id(&node.found().id, other),
        None => false,
    }
}

/// Whether indices have this one.
fn has_index(indices: &[Index], index: &Index) -> bool
    ensures { result ≡ lists_index indices.now index.now }
{
    indices.iter().any(|other| same_index(other, index))
}

/// Whether a node is listed as new.
fn is_new(lists: &Touched, id: &Id8) -> bool
    ensures { result ≡ lists_new lists.now id.now }
{
    contains(lists.new_groups.as_slice(), id) || contains(lists.new_arrays.as_slice(), id)
}

/// Whether a node is listed as updated.
fn is_updated(lists: &Touched, id: &Id8) -> bool
    ensures { result ≡ lists_updated lists.now id.now }
{
    contains(lists.updated_arrays.as_slice(), id) || contains(lists.updated_groups.as_slice(), id)
}

/// Whether a chunk of a node is listed.
fn has_chunk(lists: &Touched, id: &Id8, index: &Index) -> bool
    ensures { result ≡ lists_chunk lists.now.updated_chunks id.now index.now }
{
    lists.updated_chunks.as_slice().iter().any(|array| array.node == *id
        && has_index(array.chunks.as_slice(), index))
}

/// Whether any chunk of a node is listed.
fn has_chunks(lists: &Touched, id: &Id8) -> bool
    ensures { result ≡ has_listed lists.now id.now }
{
    lists
        .updated_chunks
        .as_slice()
        .iter()
        .any(|array| array.node == *id && !array.chunks.is_empty())
}

/// Whether one of these nodes stands beneath a path and is listed as new.
fn has_new_beneath(lists: &Touched, nodes: &Nodes, of: &str) -> bool
    ensures { result ≡ has_new_beneath lists.now nodes.now of.now }
{
    let mut rows = nodes.rows();
    while let Some((path, found)) = rows.next() {
        if is_beneath(of, path) && is_new(lists, &found.id) {
            return true;
        }
    }
    false
}

impl<'a> Sides<'a> {
    /// Whether we add a node at a path.
    fn adds(&self, path: &str) -> bool
        ensures { result ≡ is_some (map.get self.now.mine.now.added path.now) }
    {
        self.mine.added.find(path).is_some()
    }

    /// Whether we add a node at a path that a node has afterwards that we leave there.
    fn is_taken(&self, path: &str) -> bool
        ensures { result ≡ is_taken (held_of self.now.mine.now) self.now.after.now path.now }
    {
        self.adds(path) && self.after.find(path).is_some() && !self.mine.is_gone(self.after, path)
    }

    /// Whether we add a node whose parent we don't add, and that isn't afterwards what it was.
    fn is_orphan(&self, path: &str) -> bool
        ensures { result ≡ is_orphan (held_of self.now.mine.now) self.now.before.now
            self.now.after.now path.now }
    {
        let parent = parent_text(path);
        self.adds(path)
            && !same_path(path, "/")
            && !self.adds(parent)
            && !same_node(self.before.find(parent), self.after.find(parent))
    }

    /// Whether we take a node away that is still there afterwards.
    fn takes_away(&self, alloc: Global, path: &str, id: &Id8) -> Result<bool, AllocError>
        ensures { IfOk result (λ takes. takes ≡ takes_away (held_of self.now.mine.now)
            self.now.before.now self.now.after.now path.now id.now) }
    {
        let under = self.mine.nodes_under(alloc, self.before)?;
        Ok(!has_id(id, under.find(path)) && has_id(id, self.after.find(path)))
    }

    /// Whether we take an array away that was changed.
    fn drops_array(&self, alloc: Global, path: &str, node: Found<'_>) -> Result<bool, AllocError>
        ensures { IfOk result (λ drops. drops ≡ drops_array (held_of self.now.mine.now)
            self.now.theirs.now self.now.before.now self.now.after.now path.now
            (node_found node.entry)) }
    {
        let id = &node.id;
        let changed = contains(self.theirs.updated_arrays.as_slice(), id)
            || has_chunks(self.theirs, id);
        Ok(is_array(node.meta) && changed && self.takes_away(alloc, path, id)?)
    }

    /// Whether we take a group away that was changed, or beneath which a node was added.
    fn drops_group(&self, alloc: Global, path: &str, node: Found<'_>) -> Result<bool, AllocError>
        ensures { IfOk result (λ drops. drops ≡ drops_group (held_of self.now.mine.now)
            self.now.theirs.now self.now.before.now self.now.after.now path.now
            (node_found node.entry)) }
    {
        let id = &node.id;
        let changed = contains(self.theirs.updated_groups.as_slice(), id)
            || has_new_beneath(self.theirs, self.after, path);
        Ok(is_group(node.meta) && changed && self.takes_away(alloc, path, id)?)
    }

    /// Whether both sides wrote a chunk of a node.
    fn is_twice(&self, node: Found<'_>, index: &Index) -> bool
        ensures { result ≡ is_twice (held_of self.now.mine.now) self.now.theirs.now index.now
            (node_found node.entry) }
    {
        let id = &node.id;
        is_array(node.meta)
            && self.mine.entry(id, index).is_some()
            && has_chunk(self.theirs, id, index)
    }

    /// Whether a case without an index is one of a node of the tree before.
    fn at_node(
        &self,
        alloc: Global,
        case: Case,
        path: &str,
        node: Found<'_>,
    ) -> Result<bool, AllocError>
        ensures { IfOk result (λ is. is ≡ at_node case (held_of self.now.mine.now)
            self.now.theirs.now self.now.before.now self.now.after.now path.now
            (node_found node.entry)) }
    {
        let id = &node.id;
        let has_meta = self.mine.other_meta(id).is_some();
        let has_entry = is_array(node.meta) && self.mine.has_entry(id);
        let theirs = self.theirs;
        match case {
            Case::ZarrMetadataDoubleUpdate => Ok(has_meta && is_updated(theirs, id)),
            Case::ZarrMetadataUpdateOfDeletedArray => {
                Ok(has_meta && contains(theirs.deleted_arrays.as_slice(), id))
            }
            Case::ZarrMetadataUpdateOfDeletedGroup => {
                Ok(has_meta && contains(theirs.deleted_groups.as_slice(), id))
            }
            Case::ChunksUpdatedInDeletedArray => {
                Ok(has_entry && contains(theirs.deleted_arrays.as_slice(), id))
            }
            Case::ChunksUpdatedInUpdatedArray => {
                Ok(has_entry && contains(theirs.updated_arrays.as_slice(), id))
            }
            Case::DeleteOfUpdatedArray => self.drops_array(alloc, path, node),
            Case::DeleteOfUpdatedGroup => self.drops_group(alloc, path, node),
            Case::NewNodeConflictsWithExistingNode
            | Case::NewNodeInInvalidGroup
            | Case::ChunkDoubleUpdate => Ok(false),
        }
    }

    /// Whether a case is one at a path where a node stood before.
    fn at_path(
        &self,
        alloc: Global,
        case: Case,
        path: &str,
        index: Option<&Index>,
    ) -> Result<bool, AllocError>
        ensures { IfOk result (λ is. is ≡ at_path case (held_of self.now.mine.now)
            self.now.theirs.now self.now.before.now self.now.after.now path.now
            (option_copied index.entry) (map.get self.now.before.now path.now)) }
    {
        let Some(node) = self.before.find(path) else {
            return Ok(false);
        };
        match (case, index) {
            (Case::ChunkDoubleUpdate, Some(index)) => Ok(self.is_twice(node.found(), index)),
            (_, Some(_)) => Ok(false),
            (_, None) => self.at_node(alloc, case, path, node.found()),
        }
    }

    /// Whether our changes conflict with the later commit by a case, at a path, and at the index of a chunk if the case has one.
    /// It makes no difference which chunks the trees hold.
    pub fn conflicts(
        &self,
        alloc: Global,
        case: Case,
        path: &Path,
        index: Option<&Index>,
    ) -> Result<bool, AllocError>
        ensures { IfOk result (λ is. IsTrue is ↔ IsConflict (changes_of self.now.mine.now)
            self.now.theirs.now (tree_with self.now.before.now) (tree_with self.now.after.now) case
            path.now (option_copied index.entry)) }
    {
        match case {
            Case::NewNodeConflictsWithExistingNode => {
                Ok(index.is_none() && self.is_taken(path.as_str()))
            }
            Case::NewNodeInInvalidGroup => Ok(index.is_none() && self.is_orphan(path.as_str())),
            _ => self.at_path(alloc, case, path.as_str(), index),
        }
    }
}
