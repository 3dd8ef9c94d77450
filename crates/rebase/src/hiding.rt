//! Nodes that a commit's log hides.

ghost use Rattle.std.specs.Prelude.{◌≡◌, ◌&&◌, ◌||◌, IfOk, OnOk};
ghost use Rattle.std.specs.FinMap.{entries};
ghost use Rattle.ice_ids.specs.declared.Id8.{Id8 as TheId};
ghost use Rattle.ice_ids.specs.Text.{same_id8};
ghost use Rattle.zarr_tree.specs.Rows.{node_found};
ghost use Rattle.zarr_tree.specs.Touched.{lists};
ghost use Rattle.repo_objects.specs.Trees.{nodes_in};
ghost use Rattle.rebase.specs.Along.{first_hidden};
ghost use Rattle.rebase.specs.inside.Working.{first_unlisted, keeps_other, kept_among};

use ice_ids::Id8;
use repo_objects::Loaded;
use std::alloc::{AllocError, Global};
use zarr_changes::{ChangeSet, IdSet};
use zarr_tree::{Found, TreeLike, frozen_change};

/// Whether a node has what stays of its metadata as in the other text that is held for it, if one is.
fn keeps_other(held: &ChangeSet, node: Found<'_>) -> bool
    ensures { result ≡ keeps_other held.now.metas (node_found node.entry) }
{
    match held.other_meta(&node.id) {
        Some(meta) => frozen_change(node.meta, meta).is_none(),
        None => false,
    }
}

/// Enters a node's id where it keeps what stays of its metadata so.
fn enter_kept(kept: &mut IdSet, held: &ChangeSet, node: Found<'_>) -> Result<(), AllocError>
    ensures { OnOk result ((id : TheId)
        → lists kept.new id
        ≡ (lists kept.old id || (same_id8 node.entry.id id && keeps_other held.now.metas
        (node_found node.entry)))) }
{
    if keeps_other(held, node) {
        kept.insert(node.id)?;
    }
    Ok(())
}

/// The ids of a snapshot's nodes that keep what stays of their metadata in the other texts that are held.
fn kept_ids(alloc: Global, held: &ChangeSet, tree: &Loaded) -> Result<IdSet, AllocError>
    ensures { IfOk result (λ kept. (id : TheId) → lists kept id ≡ kept_among held.now.metas
        (entries (nodes_in tree.now.nodes)) id) }
{
    let mut kept = IdSet::new(alloc);
    for at in 0..tree.len() {
        let (_, node) = tree.row(at);
        enter_kept(&mut kept, held, node)?;
    }
    Ok(kept)
}

/// The first of these ids that isn't in a set.
fn first_unlisted(ids: &[Id8], set: &IdSet) -> Option<Id8>
    ensures { result ≡ first_unlisted ids.now set.now }
{
    for id in ids {
        if !set.contains(id) {
            return Some(*id);
        }
    }
    None
}

/// The first node with another text that is held whose metadata a commit's snapshot doesn't keep so: the node is gone, or a part
/// has changed that stays as it is. Where no other texts are held it takes no memory and no walk; else one walk.
pub(crate) fn first_hidden(
    alloc: Global,
    held: &ChangeSet,
    tree: &Loaded,
) -> Result<Option<Id8>, AllocError>
    ensures { IfOk result (λ hidden. hidden ≡ first_hidden (nodes_in tree.now.nodes)
        held.now.metas) }
{
    let ids = held.other_ids(alloc)?;
    if ids.is_empty() {
        return Ok(None);
    }
    let kept = kept_ids(alloc, held, tree)?;
    Ok(first_unlisted(ids.as_slice(), &kept))
}
