//! Whether an edit would be refused.

use crate::drawing::set_edit;
use crate::stops::{Stop, expect};
use ice_ids::Id8;
use std::alloc::Global;
use tree_model::{Edit, Nodes, refusal};
use zarr_changes::ChangeSet;
use zarr_meta::Meta;
use zarr_path::{Index, Path};
use zarr_tree::{EditFault, TreeLike};

/// The bytes of a chunk of which is asked whether it may be set.
const ASKED: [u8; 2] = [7, 7];

/// The answer of a call that only asks.
fn asked(answer: Result<(), EditFault>) -> Option<EditFault> {
    match answer {
        Ok(()) => None,
        Err(fault) => Some(fault),
    }
}

/// Stops where it differs whether a node may be added.
pub fn compare_may_add<B: TreeLike>(
    alloc: Global,
    base: &B,
    set: &ChangeSet,
    under: &Nodes,
    path: &Path,
) -> Result<(), Stop> {
    let edit = Edit::Add {
        path: path.copy(alloc)?,
        id: Id8([0; 8]),
        meta: Meta::plain_group(alloc)?,
    };
    let by_model = refusal(under, &edit);
    drop(edit);
    let alike = asked(set.may_add(base, path)) == by_model;
    expect(alike, "whether a node may be added")
}

/// Stops where it differs whether a chunk may be set.
pub fn compare_may_set<B: TreeLike>(
    alloc: Global,
    base: &B,
    set: &ChangeSet,
    under: &Nodes,
    path: &Path,
    index: &Index,
) -> Result<(), Stop> {
    let edit = set_edit(alloc, path, index.parts(), &ASKED)?;
    let by_model = refusal(under, &edit);
    drop(edit);
    let answer = set.may_set(base, path, index, ASKED.len() as u64);
    expect(asked(answer) == by_model, "whether a chunk may be set")
}
