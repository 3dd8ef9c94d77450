//! One side of a case: what a session has changed of a base.

ghost use Rattle.std.specs.Prelude.{◌≡◌, is_none, IfOk, IsTrue};
ghost use Rattle.zarr_tree.specs.Changes.{none};
ghost use Rattle.zarr_changes.specs.Edits.{nothing};
ghost use Rattle.tree_model.specs.Models.{changes_of, edit_of, tree_of};
ghost use Rattle.ice_model.specs.Editing.{answered, Extended, Entered};

use crate::bases::Base;
use crate::drawing::{INDICES, index_of, set_edit};
use crate::entering::enter;
use crate::stops::{Stop, expect};
use ice_base::Bytes;
use manifest_file::Place;
use std::alloc::{AllocError, Global};
use std::mem;
use tree_model::{Changes, Edit, Tree};
use zarr_changes::{ChangeSet, Placed};
use zarr_path::Path;
use zarr_tree::EditFault;

/// The changes of a base: as a change set, as the model has them, and the base with each edit done.
pub struct Side {
    /// The change set.
    pub set: ChangeSet,
    /// The model's changes.
    pub changes: Changes,
    /// The edited base.
    pub tree: Tree,
}

// Written out, so that each function that lets a side go calls it.
impl Drop for Side {
    fn drop(self) {
        let Side { set, changes, tree } = self;
        drop(set);
        drop(changes);
        drop(tree);
    }
}

/// Why an edit was refused, if it was.
fn refused(answer: Result<(), EditFault>) -> Result<Option<EditFault>, Stop>
    ensures { IfOk result (λ refused. answer ≡ answered refused) }
{
    match answer {
        Ok(()) => Ok(None),
        Err(EditFault::NoMemory) => Err(Stop::NoMemory),
        Err(fault) => Ok(Some(fault)),
    }
}

/// Whether two answers to an edit are the same.
fn same_answer(answer: Option<EditFault>, other: Option<EditFault>) -> bool
    ensures { IsTrue result → is_none answer ≡ is_none other }
{
    match (answer, other) {
        (Some(fault), Some(other)) => fault == other,
        (None, None) => true,
        (Some(_), None) | (None, Some(_)) => false,
    }
}

/// One chunk more, with the place of its bytes.
fn push_placed(
    alloc: Global,
    placed: &mut Vec<Placed>,
    numbers: &[u32],
    bytes: &[u8],
) -> Result<(), AllocError> {
    placed.push(Placed {
        index: index_of(alloc, numbers)?,
        place: Place::Inline(Bytes::of(alloc, bytes)?),
    })?;
    Ok(())
}

impl Side {
    /// A side that has changed nothing.
    pub fn new(alloc: Global, base: &Base) -> Result<Side, AllocError>
        ensures { IfOk result (λ side. (side.set ≡ nothing) × (changes_of side.changes ≡ none)) }
    {
        let tree = base.tree_again(alloc)?;
        Ok(Side {
            set: ChangeSet::new(alloc),
            changes: Changes::new(alloc),
            tree,
        })
    }

    /// Makes an edit in the model's changes, and says why it was refused, if it was.
    fn edit_changes(
        &mut self,
        alloc: Global,
        base: &Tree,
        edit: &Edit,
    ) -> Result<Option<EditFault>, Stop>
        ensures extended { IfOk result (λ refused. Extended (edit_of edit.now) (tree_of base.now)
            (changes_of self.old.changes) (is_none refused) (changes_of self.new.changes)) }
        ensures set { self.new.set ≡ self.old.set }
    {
        refused(self.changes.extend(alloc, base, edit))
    }

    /// Makes an edit in the set, and says why it was refused, if it was.
    fn edit_set(
        &mut self,
        alloc: Global,
        base: &Tree,
        edit: &Edit,
    ) -> Result<Option<EditFault>, Stop>
        ensures entered { IfOk result (λ refused. Entered edit.now base.now.nodes self.old.set
            (is_none refused) self.new.set) }
        ensures changes { self.new.changes ≡ self.old.changes }
    {
        refused(enter(alloc, base, &mut self.set, edit))
    }

    /// Makes an edit in the model's changes, and in the base itself where no id was drawn twice.
    fn edit_model(
        &mut self,
        alloc: Global,
        base: &Tree,
        edit: &Edit,
        fresh: bool,
    ) -> Result<Option<EditFault>, Stop>
        ensures extended { IfOk result (λ refused. Extended (edit_of edit.now) (tree_of base.now)
            (changes_of self.old.changes) (is_none refused) (changes_of self.new.changes)) }
        ensures set { self.new.set ≡ self.old.set }
    {
        let by_changes = self.edit_changes(alloc, base, edit)?;
        if fresh {
            let by_tree = refused(self.tree.change(alloc, edit))?;
            expect(
                same_answer(by_tree, by_changes),
                "what an edit of the tree answers",
            )?;
        }
        Ok(by_changes)
    }

    /// Makes an edit, and says whether it was done.
    pub fn edit(
        &mut self,
        alloc: Global,
        base: &Tree,
        edit: &Edit,
        fresh: bool,
    ) -> Result<bool, Stop>
        ensures modelled { IfOk result (λ done. Extended (edit_of edit.now) (tree_of base.now)
            (changes_of self.old.changes) done (changes_of self.new.changes)) }
        ensures entered { IfOk result (λ done. Entered edit.now base.now.nodes self.old.set done
            self.new.set) }
    {
        let by_model = self.edit_model(alloc, base, edit, fresh)?;
        let by_set = self.edit_set(alloc, base, edit)?;
        expect(same_answer(by_set, by_model), "what an edit answers")?;
        Ok(by_model.is_none())
    }

    /// Sets a chunk in the model, and says whether it was done.
    fn set_in_model(
        &mut self,
        alloc: Global,
        base: &Tree,
        path: &Path,
        numbers: &[u32],
        bytes: &[u8],
        fresh: bool,
    ) -> Result<bool, Stop> {
        let edit = set_edit(alloc, path, numbers, bytes)?;
        let refused = self.edit_model(alloc, base, &edit, fresh);
        drop(edit);
        Ok(refused?.is_none())
    }

    /// Sets these chunks of the array at a path at once in the set.
    fn set_in_set(
        &mut self,
        alloc: Global,
        base: &Tree,
        path: &Path,
        placed: Vec<Placed>,
    ) -> Result<(), AllocError> {
        match self.set.lookup(base, path.as_str()).map(|found| found.id) {
            Some(node) => self.set.enter_chunks(alloc, node, placed),
            None => Ok(()),
        }
    }

    /// Sets all chunks of an array at once in the set, and one after another in the model.
    pub fn set_all(
        &mut self,
        alloc: Global,
        base: &Tree,
        path: &Path,
        bytes: &[u8],
        fresh: bool,
    ) -> Result<(), Stop> {
        let mut placed = Vec::new(alloc);
        for numbers in &INDICES {
            if self.set_in_model(alloc, base, path, numbers, bytes, fresh)? {
                push_placed(alloc, &mut placed, numbers, bytes)?;
            }
        }
        Ok(self.set_in_set(alloc, base, path, placed)?)
    }

    /// Goes on with a copy of the set.
    pub fn copy_set(&mut self, alloc: Global) -> Result<(), AllocError>
        ensures { self.new.set ≡ self.old.set }
    {
        let copy = self.set.copy(alloc)?;
        drop(mem::replace(&mut self.set, copy));
        Ok(())
    }
}
