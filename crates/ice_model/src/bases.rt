//! The base of a case.

use std::alloc::{AllocError, Global};
use tree_model::{Edit, Tree};
use zarr_tree::EditFault;

/// A tree, and the edits that it is made of.
pub struct Base {
    /// The tree.
    pub tree: Tree,
    edits: Vec<Edit>,
}

// Written out, so that each function that lets a base go calls it.
impl Drop for Base {
    fn drop(self) {
        let Base { tree, edits } = self;
        drop(tree);
        drop(edits);
    }
}

/// Makes an edit of a tree. One that is refused leaves nothing.
fn change(alloc: Global, tree: &mut Tree, edit: &Edit) -> Result<(), AllocError> {
    match tree.change(alloc, edit) {
        Err(EditFault::NoMemory) => Err(AllocError),
        _ => Ok(()),
    }
}

impl Base {
    /// The tree without a node.
    pub fn new(alloc: Global) -> Base {
        Base {
            tree: Tree::new(alloc),
            edits: Vec::new(alloc),
        }
    }

    /// One more edit of the tree.
    pub fn edit(&mut self, alloc: Global, edit: Edit) -> Result<(), AllocError> {
        let changed = change(alloc, &mut self.tree, &edit);
        self.edits.push(edit)?;
        changed
    }

    /// The same tree once more, made of the same edits.
    pub fn tree_again(&self, alloc: Global) -> Result<Tree, AllocError> {
        let mut tree = Tree::new(alloc);
        for edit in self.edits.as_slice() {
            change(alloc, &mut tree, edit)?;
        }
        Ok(tree)
    }
}
