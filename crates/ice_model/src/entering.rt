//! Edits of a change set.

ghost use Rattle.std.specs.Prelude.{◌≡◌, IfOk};
ghost use Rattle.zarr_tree.specs.Held.{nodes_over};
ghost use Rattle.zarr_changes.specs.Edits.{with_added, with_text_at, with_chunk_at};
ghost use Rattle.zarr_changes.specs.Sets.{Enters, add_refusal, text_refusal, set_refusal, length_of};
ghost use Rattle.ice_model.specs.Editing.{EntersEdit};

use ice_base::Bytes;
use ice_ids::Id8;
use ice_items::Items;
use manifest_file::Place;
use std::alloc::{AllocError, Global};
use tree_model::Edit;
use zarr_changes::ChangeSet;
use zarr_meta::{Meta, SharedMeta};
use zarr_path::{Index, Path};
use zarr_tree::{EditFault, TreeLike};

/// The same metadata, to be shared.
fn shared(alloc: Global, meta: &Meta) -> Result<SharedMeta, AllocError>
    ensures { IfOk result (λ shared. shared.text ≡ meta.now.text) }
{
    Ok(SharedMeta::new(alloc, meta.copy(alloc)?)?)
}

/// Adds a node.
fn add<B: TreeLike>(
    alloc: Global,
    base: &B,
    set: &mut ChangeSet,
    path: &Path,
    id: Id8,
    meta: &Meta,
) -> Result<(), EditFault>
    ensures { Enters (add_refusal (nodes_over set.old (B.nodes base.now)) path.now)
        (with_added set.old path.now (record { id = id; text = meta.now.text })) set.old result
        set.new }
{
    let meta = shared(alloc, meta)?;
    set.add(alloc, base, path, id, meta)
}

/// Gives a node other metadata.
fn set_meta<B: TreeLike>(
    alloc: Global,
    base: &B,
    set: &mut ChangeSet,
    path: &Path,
    meta: &Meta,
) -> Result<(), EditFault>
    ensures { Enters (text_refusal (nodes_over set.old (B.nodes base.now)) path.now meta.now.text)
        (with_text_at set.old (B.nodes base.now) path.now meta.now.text) set.old result set.new }
{
    let meta = shared(alloc, meta)?;
    set.set_meta(alloc, base, path, meta)
}

/// Sets the bytes of a chunk.
fn set_chunk<B: TreeLike>(
    alloc: Global,
    base: &B,
    set: &mut ChangeSet,
    path: &Path,
    index: &Index,
    bytes: &Items<u8>,
) -> Result<(), EditFault>
    ensures { Enters (set_refusal (nodes_over set.old (B.nodes base.now)) path.now index.now
        (length_of (Place.Inline bytes.now))) (with_chunk_at set.old (B.nodes base.now) path.now
        index.now (Place.Inline bytes.now)) set.old result set.new }
{
    let place = Place::Inline(Bytes::of(alloc, bytes.as_slice())?);
    set.set_chunk(alloc, base, path, index, place)
}

/// Makes an edit in a change set.
pub fn enter<B: TreeLike>(
    alloc: Global,
    base: &B,
    set: &mut ChangeSet,
    edit: &Edit,
) -> Result<(), EditFault>
    ensures { EntersEdit edit.now (B.nodes base.now) set.old result set.new }
{
    match edit {
        Edit::Add { path, id, meta } => add(alloc, base, set, path, *id, meta),
        Edit::SetMeta { path, meta } => set_meta(alloc, base, set, path, meta),
        Edit::Drop { path } => set.drop_node(alloc, base, path),
        Edit::Set { path, index, bytes } => set_chunk(alloc, base, set, path, index, bytes),
        Edit::Unset { path, index } => set.unset_chunk(alloc, base, path, index),
    }
}
