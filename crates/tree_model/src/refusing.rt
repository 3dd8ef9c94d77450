//! Why edits are refused.

ghost use Rattle.std.specs.Prelude.{◌≡◌};
ghost use Rattle.std.specs.FinMap as map;
ghost use Rattle.zarr_tree.specs.Edits.{is_group_at, refusal};
ghost use Rattle.tree_model.specs.Models.{edit_of, tree_with};
ghost use Rattle.tree_model.specs.inside.Refusing.{place_refusal, add_refusal, meta_refusal, drop_refusal, set_refusal, unset_refusal};

use crate::chunks::chunk_bytes_of;
use crate::edits::Edit;
use crate::kinds::is_group;
use crate::nodes::Nodes;
use zarr_meta::Meta;
use zarr_path::{Index, Path, parent_text};
use zarr_tree::{EditFault, MOST_NODES, frozen_change};

/// Whether a group stands at a path.
fn has_group(nodes: &Nodes, path: &str) -> bool
    ensures { result ≡ is_group_at (map.get nodes.now path.now) }
{
    match nodes.find(path) {
        Some(node) => is_group(node.found().meta),
        None => false,
    }
}

/// Why no node can be added at a path where none stands.
fn place_refusal(nodes: &Nodes, path: &Path) -> Option<EditFault>
    ensures { result ≡ place_refusal nodes.now path.now }
{
    if !path.is_root() && !has_group(nodes, parent_text(path.as_str())) {
        return Some(EditFault::NoParent);
    }
    if nodes.len() >= MOST_NODES {
        return Some(EditFault::Full);
    }
    None
}

/// Why no node can be added at a path.
fn add_refusal(nodes: &Nodes, path: &Path) -> Option<EditFault>
    ensures { result ≡ add_refusal nodes.now path.now }
{
    if nodes.find(path.as_str()).is_some() {
        return Some(EditFault::NodeExists);
    }
    place_refusal(nodes, path)
}

/// Why the node at a path can't have this metadata.
fn meta_refusal(nodes: &Nodes, path: &Path, meta: &Meta) -> Option<EditFault>
    ensures { result ≡ meta_refusal meta.now.text (map.get nodes.now path.now) }
{
    let Some(node) = nodes.find(path.as_str()) else {
        return Some(EditFault::NoNode);
    };
    match frozen_change(node.found().meta, meta) {
        Some(part) => Some(EditFault::FrozenField(part)),
        None => None,
    }
}

/// Why the node at a path can't be taken away.
fn drop_refusal(nodes: &Nodes, path: &Path) -> Option<EditFault>
    ensures { result ≡ drop_refusal (map.get nodes.now path.now) }
{
    match nodes.find(path.as_str()) {
        Some(_) => None,
        None => Some(EditFault::NoNode),
    }
}

/// Why the node at a path can't hold so many bytes as the chunk of this index.
fn set_refusal(nodes: &Nodes, path: &Path, index: &Index, got: u64) -> Option<EditFault>
    ensures { result ≡ set_refusal index.now got (map.get nodes.now path.now) }
{
    match chunk_bytes_of(nodes.find(path.as_str()), index) {
        Ok(want) if got == want => None,
        Ok(want) => Some(EditFault::ChunkLength { want, got }),
        Err(fault) => Some(fault),
    }
}

/// Why the node at a path can't be without the chunk of this index.
fn unset_refusal(nodes: &Nodes, path: &Path, index: &Index) -> Option<EditFault>
    ensures { result ≡ unset_refusal index.now (map.get nodes.now path.now) }
{
    match chunk_bytes_of(nodes.find(path.as_str()), index) {
        Ok(_) => None,
        Err(fault) => Some(fault),
    }
}

/// Why a tree of these nodes doesn't take an edit; `None` exactly where it does.
pub fn refusal(nodes: &Nodes, edit: &Edit) -> Option<EditFault>
    ensures { result ≡ refusal (tree_with nodes.now) (edit_of edit.now) }
{
    match edit {
        Edit::Add { path, .. } => add_refusal(nodes, path),
        Edit::SetMeta { path, meta } => meta_refusal(nodes, path, meta),
        Edit::Drop { path } => drop_refusal(nodes, path),
        Edit::Set { path, index, bytes } => set_refusal(nodes, path, index, bytes.len() as u64),
        Edit::Unset { path, index } => unset_refusal(nodes, path, index),
    }
}
