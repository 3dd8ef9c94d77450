//! Other metadata for nodes.

ghost use Rattle.std.specs.Prelude.{◌≡◌};
ghost use Rattle.zarr_tree.specs.Held.{nodes_over};
ghost use Rattle.zarr_changes.specs.Edits.{with_text_at};
ghost use Rattle.zarr_changes.specs.Sets.{text_refusal, Enters};

use crate::set::ChangeSet;
use std::alloc::Global;
use zarr_meta::SharedMeta;
use zarr_path::Path;
use zarr_tree::{EditFault, TreeLike, frozen_change};

impl ChangeSet {
    /// Gives the overlay's node at a path other metadata, which may not differ in the parts that stay. After a refusal, and
    /// where memory runs out, the set is as before.
    pub fn set_meta<B: TreeLike>(
        &mut self,
        alloc: Global,
        base: &B,
        path: &Path,
        meta: SharedMeta,
    ) -> Result<(), EditFault>
        ensures { Enters (text_refusal (nodes_over self.old (B.nodes base.now)) path.now meta.text)
            (with_text_at self.old (B.nodes base.now) path.now meta.text) self.old result self.new }
    {
        let Some(found) = self.lookup(base, path.as_str()) else {
            return Err(EditFault::NoNode);
        };
        if let Some(part) = frozen_change(found.meta, &meta) {
            return Err(EditFault::FrozenField(part));
        }
        let id = found.id;
        if self.added.find(path.as_str()).is_some() {
            self.added.insert(alloc, path, id, meta)?;
        } else {
            self.metas.insert(id, meta)?;
        }
        Ok(())
    }
}
