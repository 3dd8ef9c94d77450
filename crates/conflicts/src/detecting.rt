//! The detector.

ghost use Rattle.std.specs.Prelude.{◌≡◌, ◌++◌, ◌↔◌, [], ℕ, List, Option, Contains, drop, IfOk, OnOk, IsTrue};
ghost use Rattle.std.specs.List.{flat_map};
ghost use Rattle.std.specs.FinMap as finmap;
ghost use Rattle.std.specs.Ordering.{is_lt};
ghost use Rattle.zarr_path.specs.Paths.{path_cmp, is_path};
ghost use Rattle.manifest_file.specs.declared.manifest.Place.{Place};
ghost use Rattle.zarr_tree.specs.declared.cases.Conflict.{Conflict as TheConflict};
ghost use Rattle.zarr_tree.specs.declared.cases.Case.TheVariants.{ChunkDoubleUpdate};
ghost use Rattle.zarr_tree.specs.Trees.{Tree};
ghost use Rattle.zarr_tree.specs.Rows.{node_found};
ghost use Rattle.zarr_tree.specs.Touched.{IsOrdered};
ghost use Rattle.zarr_tree.specs.Held.{changes_of};
ghost use Rattle.zarr_tree.specs.Conflicts.{IsConflict};
ghost use Rattle.conflicts.specs.Order.{Ascend};
ghost use Rattle.conflicts.specs.inside.Looking.{twice_at};
ghost use Rattle.conflicts.specs.Found.{if_so, of_added, of_case, of_row, rows_before, rows_from, found_in, found};

use crate::sides::Sides;
use held_log::HeldLists;
use held_manifest::IndexView;
use ice_ids::Id8;
use ice_items::Items;
use std::alloc::{AllocError, Global};
use zarr_changes::{ChangeSet, is_array, path_of};
use zarr_path::Path;
use zarr_tree::{Case, Conflict, Found, TreeLike};

/// The conflicts that were found so far.
type Conflicts = Items<Conflict>;

/// Whether a path stands before another.
fn is_before(path: &str, other: &str) -> bool
    ensures { result ≡ is_lt (path_cmp path.now other.now) }
{
    path.cmp(other).is_lt()
}

/// Pushes a conflict without an index, if the case holds.
fn push_if(
    alloc: Global,
    found: &mut Conflicts,
    holds: bool,
    case: Case,
    path: &str,
) -> Result<(), AllocError>
    requires { IsTrue (is_path path.now) }
    ensures { OnOk result (found.new ≡ found.old ++ if_so holds case path.now) }
{
    if holds {
        found.push(Conflict {
            case,
            path: path_of(alloc, path)?,
            index: None,
        })?;
    }
    Ok(())
}

impl<'a, B: TreeLike, U: TreeLike> Sides<'a, B, U> {
    /// Pushes the conflicts of an added path.
    fn push_added(
        &self,
        alloc: Global,
        found: &mut Conflicts,
        path: &Path,
    ) -> Result<(), AllocError>
        ensures { OnOk result (found.new ≡ found.old ++ of_added self.now path.now) }
    {
        let text = path.as_str();
        let taken = self.is_taken(text);
        let case = Case::NewNodeConflictsWithExistingNode;
        push_if(alloc, found, taken, case, text)?;
        let orphan = self.is_orphan(text);
        let case = Case::NewNodeInInvalidGroup;
        push_if(alloc, found, orphan, case, text)
    }

    /// Pushes a chunk that the other side wrote, if we wrote it too.
    fn push_chunk(
        &self,
        alloc: Global,
        found: &mut Conflicts,
        path: &str,
        node: Id8,
        index: &IndexView,
    ) -> Result<(), AllocError>
        requires { IsTrue (is_path path.now) }
        ensures { OnOk result (found.new ≡ found.old ++ twice_at self.now path.now node index.now) }
    {
        let index = index.copy(alloc)?;
        if self.mine.chunk(node, &index).is_some() {
            found.push(Conflict {
                case: Case::ChunkDoubleUpdate,
                path: path_of(alloc, path)?,
                index: Some(index),
            })?;
        }
        Ok(())
    }

    /// Pushes the chunks of an array that both sides wrote.
    fn push_twice(
        &self,
        alloc: Global,
        found: &mut Conflicts,
        path: &str,
        node: Found<'_>,
    ) -> Result<(), AllocError>
        requires { IsTrue (is_path path.now) }
        ensures { OnOk result (found.new ≡ found.old ++ of_case self.now path.now
            (node_found node.entry) ChunkDoubleUpdate) }
    {
        if !is_array(node.meta) {
            return Ok(());
        }
        if !self.arrays.contains(&node.id) {
            return Ok(());
        }
        let listed = self.chunks_listed(&node.id);
        for at in 0..listed.len() {
            self.push_chunk(alloc, found, path, node.id, &listed.at(at))?;
        }
        Ok(())
    }

    /// Pushes the conflicts of a case at a node of the tree before.
    fn push_case(
        &self,
        alloc: Global,
        found: &mut Conflicts,
        case: Case,
        path: &str,
        node: Found<'_>,
    ) -> Result<(), AllocError>
        requires { IsTrue (is_path path.now) }
        ensures { OnOk result (found.new ≡ found.old ++ of_case self.now path.now
            (node_found node.entry) case) }
    {
        match case {
            Case::ChunkDoubleUpdate => self.push_twice(alloc, found, path, node),
            _ => {
                let holds = self.holds(alloc, case, path, node)?;
                push_if(alloc, found, holds, case, path)
            }
        }
    }

    /// Pushes the conflicts of these cases, one after another.
    fn push_cases(
        &self,
        alloc: Global,
        found: &mut Conflicts,
        cases: &[Case],
        path: &str,
        node: Found<'_>,
    ) -> Result<(), AllocError>
        requires { IsTrue (is_path path.now) }
        ensures { OnOk result
            (found.new ≡ found.old ++ flat_map
            (λ k. of_case self.now path.now (node_found node.entry) k) cases.now) }
    {
        for case in cases {
            self.push_case(alloc, found, *case, path, node)?;
        }
        Ok(())
    }

    /// Pushes the conflicts of a node of the tree before.
    fn push_row(
        &self,
        alloc: Global,
        found: &mut Conflicts,
        path: &str,
        node: Found<'_>,
    ) -> Result<(), AllocError>
        requires { IsTrue (is_path path.now) }
        ensures { OnOk result
            (found.new ≡ found.old ++ of_row self.now (path.now, node_found node.entry)) }
    {
        let cases = [
            Case::ZarrMetadataDoubleUpdate,
            Case::ZarrMetadataUpdateOfDeletedArray,
            Case::ZarrMetadataUpdateOfDeletedGroup,
            Case::ChunkDoubleUpdate,
            Case::ChunksUpdatedInDeletedArray,
            Case::ChunksUpdatedInUpdatedArray,
            Case::DeleteOfUpdatedArray,
            Case::DeleteOfUpdatedGroup,
        ];
        self.push_cases(alloc, found, cases.as_slice(), path, node)
    }

    /// Pushes the conflicts of the nodes of the tree before from row number `from` on that stand before a path, and answers the
    /// number of the first row that doesn't.
    fn push_before(
        &self,
        alloc: Global,
        found: &mut Conflicts,
        from: usize,
        path: &Path,
    ) -> Result<usize, AllocError>
        ensures found { OnOk result (found.new ≡ found.old ++ flat_map (of_row self.now)
            (rows_before path.now (drop from (finmap.entries self.now.before)))) }
        ensures next { IfOk result (λ next. drop next (finmap.entries self.now.before)
            ≡ rows_from path.now (drop from (finmap.entries self.now.before))) }
    {
        for at in from..self.before.len() {
            let (text, node) = self.before.row(at);
            if !is_before(text, path.as_str()) {
                return Ok(at);
            }
            self.push_row(alloc, found, text, node)?;
        }
        Ok(self.before.len())
    }

    /// Pushes the conflicts of the nodes of the tree before from row number `from` on.
    fn push_rest(&self, alloc: Global, found: &mut Conflicts, from: usize) -> Result<(), AllocError>
        ensures { OnOk result (found.new ≡ found.old ++ flat_map (of_row self.now)
            (drop from (finmap.entries self.now.before))) }
    {
        for at in from..self.before.len() {
            let (text, node) = self.before.row(at);
            self.push_row(alloc, found, text, node)?;
        }
        Ok(())
    }

    /// The conflicts, in their order.
    fn found(&self, alloc: Global) -> Result<Conflicts, AllocError>
        ensures { IfOk result (λ conflicts. conflicts ≡ found self.now) }
    {
        let mut found = Items::new(alloc);
        let mut at = 0;
        for path in self.added.as_slice() {
            at = self.push_before(alloc, &mut found, at, path)?;
            self.push_added(alloc, &mut found, path)?;
        }
        self.push_rest(alloc, &mut found, at)?;
        Ok(found)
    }
}

/// The conflicts of our changes with a later commit, in the order of the bytes of their paths, then of the numbers of their
/// cases, then of their indices. `theirs` is what the commit touched, `before` the tree before it, and `after` the tree after
/// it.
pub fn detect<B: TreeLike, U: TreeLike>(
    alloc: Global,
    mine: &ChangeSet,
    theirs: &HeldLists,
    before: &B,
    after: &U,
) -> Result<Items<Conflict>, AllocError>
    requires { IsOrdered theirs.now }
    ensures found { IfOk result
        (λ conflicts. conflicts
        ≡ found (record {
          held = mine.now;
          theirs = theirs.now;
          before = B.nodes before.now;
          after =
              U.nodes after.now;
        })) }
    ensures order { IfOk result Ascend }
    ensures exactly { IfOk result (λ conflicts. (bytes_at : Place → Option (List ℕ)) (t u : Tree)
        (x : TheConflict) → t.nodes ≡ B.nodes before.now → u.nodes ≡ U.nodes after.now
        → Contains conflicts x ↔ IsConflict (changes_of bytes_at mine.now) theirs.now t u x.case x.path x.index) }
{
    Sides::new(alloc, mine, theirs, before, after)?.found(alloc)
}
