//! Whether a case holds.

ghost use Rattle.std.specs.Prelude.{◌≡◌, ◌++◌, ◌∷◌, [], length, map, nat_eq, is_some, option_map, IfOk};
ghost use Rattle.std.specs.List.{list_any, starts_with};
ghost use Rattle.std.specs.List.Sorted.{IsStrictlySortedBy};
ghost use Rattle.std.specs.String.{string_bytes};
ghost use Rattle.std.specs.FinMap as finmap;
ghost use Rattle.zarr_path.specs.Paths.{path_cmp, same_path, is_beneath};
ghost use Rattle.zarr_tree.specs.declared.cases.Case.TheVariants.{DeleteOfUpdatedArray, DeleteOfUpdatedGroup};
ghost use Rattle.zarr_tree.specs.Rows.{node_found};
ghost use Rattle.zarr_tree.specs.Changes.{is_dropped, is_gone, has_id};
ghost use Rattle.zarr_tree.specs.Touched.{lists};
ghost use Rattle.zarr_tree.specs.Conflicts.{same_node};
ghost use Rattle.held_log.specs.LookUp.{chunks_listed};
ghost use Rattle.conflicts.specs.inside.Looking.{IsPlace};
ghost use Rattle.conflicts.specs.Found.{is_taken, is_orphan, has_new_beneath, takes_away, holds};

use crate::lists::has_path;
use crate::sides::Sides;
use held_log::Indices;
use ice_ids::Id8;
use std::alloc::{AllocError, Global};
use std::cmp::Ordering;
use zarr_changes::{before_slash, is_array, is_group};
use zarr_path::{is_within, parent_text};
use zarr_tree::{Case, Found, TreeLike};

/// Whether two paths are the same.
pub(crate) fn same_path(path: &str, other: &str) -> bool
    ensures { result ≡ same_path path.now other.now }
{
    path == other
}

/// Whether a node was found, and has this id.
fn has_id(id: Id8, found: Option<Found<'_>>) -> bool
    ensures { result ≡ has_id id (option_map node_found found.entry) }
{
    match found {
        Some(found) => found.id == id,
        None => false,
    }
}

/// Whether two nodes were found, and both have one id.
fn same_node(found: Option<Found<'_>>, other: Option<Found<'_>>) -> bool
    ensures { result ≡ same_node (option_map node_found found.entry)
        (option_map node_found other.entry) }
{
    match found {
        Some(found) => has_id(found.id, other),
        None => false,
    }
}

/// Whether one of these paths is beneath another; the first that is ends the search.
fn any_beneath(texts: &[&str], of: &str) -> bool
    ensures { result ≡ list_any (λ text. is_beneath of.now text.now) texts.now }
{
    for text in texts {
        if is_within(of, text) && !same_path(text, of) {
            return true;
        }
    }
    false
}

/// What the paths beneath a path other than `/` begin with.
fn folder_of(alloc: Global, path: &str) -> Result<String, AllocError>
    ensures { IfOk result (λ text. string_bytes text ≡ path.now ++ 47 ∷ []) }
{
    let mut folder = String::from_str(alloc, path)?;
    folder.push('/')?;
    Ok(folder)
}

/// How one text compares with another.
fn compare(text: &str, other: &str) -> Ordering
    ensures { result ≡ path_cmp text.now other.now }
{
    text.cmp(other)
}

/// The number of the first of these texts, which stand in order, that doesn't stand before another, found by halves.
fn place(texts: &[&str], text: &str) -> usize
    requires { IsStrictlySortedBy path_cmp (map (λ text. text.now) texts.now) }
    ensures { IsPlace texts.now text.now result }
{
    match texts.binary_search_by(|other| compare(other, text)) {
        Ok(at) => at,
        Err(at) => at,
    }
}

/// Whether one of these texts, which stand in order, begins with another: then the first that doesn't stand before it does.
fn any_begins(texts: &[&str], folder: &str) -> bool
    requires { IsStrictlySortedBy path_cmp (map (λ text. text.now) texts.now) }
    ensures { result ≡ list_any (λ text. starts_with nat_eq text.now folder.now) texts.now }
{
    let at = place(texts, folder);
    if at >= texts.len() {
        return false;
    }
    texts[at].as_bytes().starts_with(folder.as_bytes())
}

impl<'a, B: TreeLike, U: TreeLike> Sides<'a, B, U> {
    /// Whether the later tree has a node at the path of this text that we dropped.
    fn is_dropped(&self, path: &str) -> bool
        ensures { result ≡ is_dropped (lists self.now.held.dropped)
            (finmap.get self.now.after path.now) }
    {
        match self.after.find(path) {
            Some(found) => self.dropped.contains(&found.id),
            None => false,
        }
    }

    /// Whether what the later tree has at a path is gone for us: we dropped it or something above it.
    fn is_gone(&self, path: &str) -> bool
        ensures { result ≡ is_gone (lists self.now.held.dropped) self.now.after path.now }
    {
        let mut next = Some(path);
        while let Some(text) = next {
            if self.is_dropped(text) {
                return true;
            }
            next = before_slash(text);
        }
        path.starts_with('/') && self.is_dropped("/")
    }

    /// Whether the later tree has a node at an added path that we leave there.
    pub(crate) fn is_taken(&self, path: &str) -> bool
        ensures { result ≡ is_taken self.now path.now }
    {
        self.after.find(path).is_some() && !self.is_gone(path)
    }

    /// Whether a node is added at a path.
    fn has_added(&self, path: &str) -> bool
        ensures { result ≡ is_some (finmap.get self.now.held.added path.now) }
    {
        has_path(self.added.as_slice(), path)
    }

    /// Whether an added path's parent isn't added, and isn't in the later tree what it was.
    pub(crate) fn is_orphan(&self, path: &str) -> bool
        ensures { result ≡ is_orphan self.now path.now }
    {
        let parent = parent_text(path);
        !same_path(path, "/")
            && !self.has_added(parent)
            && !same_node(self.before.find(parent), self.after.find(parent))
    }

    /// Whether we take a node away that the later tree still has.
    fn takes_away(&self, path: &str, id: Id8) -> bool
        ensures { result ≡ takes_away self.now path.now id }
    {
        !has_id(id, self.mine.lookup(self.before, path)) && has_id(id, self.after.find(path))
    }

    /// Whether the later tree has a node beneath a path that is listed as new.
    fn has_new_beneath(&self, alloc: Global, path: &str) -> Result<bool, AllocError>
        ensures { IfOk result (λ has. has ≡ has_new_beneath self.now path.now) }
    {
        if same_path(path, "/") {
            return Ok(any_beneath(self.news.as_slice(), path));
        }
        let folder = folder_of(alloc, path)?;
        Ok(any_begins(self.news.as_slice(), folder.as_str()))
    }

    /// The chunks that are listed of a node.
    pub(crate) fn chunks_listed(&self, id: &Id8) -> Indices<'a>
        ensures { result ≡ chunks_listed self.now.theirs.updated_chunks id.now }
    {
        self.theirs.chunks_of(id)
    }

    /// Whether we drop an array whose metadata or chunks were changed.
    fn drops_updated_array(&self, path: &str, node: Found<'_>) -> bool
        ensures { result ≡ holds DeleteOfUpdatedArray self.now path.now (node_found node.entry) }
    {
        is_array(node.meta)
            && (self.theirs.updated_arrays().has(&node.id)
                || self.chunks_listed(&node.id).len() != 0)
            && self.takes_away(path, node.id)
    }

    /// Whether we drop a group whose metadata was changed, or beneath which a node was added.
    fn drops_updated_group(
        &self,
        alloc: Global,
        path: &str,
        node: Found<'_>,
    ) -> Result<bool, AllocError>
        ensures { IfOk result (λ answer. answer ≡ holds DeleteOfUpdatedGroup self.now path.now
            (node_found node.entry)) }
    {
        if !is_group(node.meta) || !self.takes_away(path, node.id) {
            return Ok(false);
        }
        if self.theirs.updated_groups().has(&node.id) {
            return Ok(true);
        }
        self.has_new_beneath(alloc, path)
    }

    /// Whether a case without an index holds of a node and its path.
    pub(crate) fn holds(
        &self,
        alloc: Global,
        case: Case,
        path: &str,
        node: Found<'_>,
    ) -> Result<bool, AllocError>
        ensures { IfOk result (λ answer. answer ≡ holds case self.now path.now
            (node_found node.entry)) }
    {
        let id = &node.id;
        match case {
            Case::ZarrMetadataDoubleUpdate => {
                Ok(self.metas.contains(id) && self.theirs.is_updated(id))
            }
            Case::ZarrMetadataUpdateOfDeletedArray => {
                Ok(self.metas.contains(id) && self.theirs.deleted_arrays().has(id))
            }
            Case::ZarrMetadataUpdateOfDeletedGroup => {
                Ok(self.metas.contains(id) && self.theirs.deleted_groups().has(id))
            }
            Case::ChunksUpdatedInDeletedArray => Ok(
                is_array(node.meta)
                    && self.arrays.contains(id)
                    && self.theirs.deleted_arrays().has(id),
            ),
            Case::ChunksUpdatedInUpdatedArray => Ok(
                is_array(node.meta)
                    && self.arrays.contains(id)
                    && self.theirs.updated_arrays().has(id),
            ),
            Case::DeleteOfUpdatedArray => Ok(self.drops_updated_array(path, node)),
            Case::DeleteOfUpdatedGroup => self.drops_updated_group(alloc, path, node),
            Case::NewNodeConflictsWithExistingNode
            | Case::NewNodeInInvalidGroup
            | Case::ChunkDoubleUpdate => Ok(false),
        }
    }
}
