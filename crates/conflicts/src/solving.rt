//! The solver.

ghost use Rattle.std.specs.Prelude.{◌≡◌, ◌++◌, IfOk, OnOk};
ghost use Rattle.std.specs.FinMap as finmap;
ghost use Rattle.conflicts.specs.Solving.{case_stays, left_of, given_by, given_up, key_at, keys_in, IsSolved};

use ice_items::Items;
use std::alloc::{AllocError, Global};
use zarr_changes::ChunkKey;
use zarr_path::{Index, Path};
use zarr_tree::{Case, Conflict, TreeLike};

/// What becomes of a chunk that both sides wrote.
#[derive(Clone, Copy, Debug, PartialEq, Eq)]
pub enum Pick {
    /// It stays a conflict.
    Fail,
    /// Ours is kept.
    Ours,
    /// Ours is given up.
    Theirs,
}

/// How conflicts are solved.
#[derive(Clone, Copy, Debug, PartialEq, Eq)]
pub struct Policy {
    /// What becomes of a chunk that both sides wrote.
    pub chunks: Pick,
    /// Whether an array may be dropped whose metadata or chunks were changed.
    pub drop_arrays: bool,
    /// Whether a group may be dropped whose metadata was changed, or beneath which a node was added.
    pub drop_groups: bool,
}

/// A chunk, by the path of its array and its index.
pub type ChunkPlace = (Path, Index);

/// What became of conflicts.
#[derive(Debug, Drop)]
pub enum Solved {
    /// All are solved, where our entries for these chunks are given up.
    Done(Items<ChunkPlace>),
    /// These stay.
    Left(Items<Conflict>),
}

fn copy_index(alloc: Global, index: &Option<Index>) -> Result<Option<Index>, AllocError>
    ensures { IfOk result (λ copy. copy ≡ index.now) }
{
    match index {
        Some(index) => Ok(Some(index.copy(alloc)?)),
        None => Ok(None),
    }
}

fn copy_conflict(alloc: Global, conflict: &Conflict) -> Result<Conflict, AllocError>
    ensures { IfOk result (λ copy. copy ≡ conflict.now) }
{
    Ok(Conflict {
        case: conflict.case,
        path: conflict.path.copy(alloc)?,
        index: copy_index(alloc, &conflict.index)?,
    })
}

/// Whether a conflict stays.
fn stays(policy: Policy, conflict: &Conflict) -> bool
    ensures { result ≡ case_stays policy conflict.now.case conflict.now.index }
{
    match conflict.case {
        Case::ChunkDoubleUpdate => match (&conflict.index, policy.chunks) {
            (Some(_), Pick::Ours | Pick::Theirs) => false,
            _ => true,
        },
        Case::DeleteOfUpdatedArray => !policy.drop_arrays,
        Case::DeleteOfUpdatedGroup => !policy.drop_groups,
        _ => true,
    }
}

/// The conflicts that stay.
fn left_of(alloc: Global, policy: Policy, found: &[Conflict]) -> Result<Items<Conflict>, AllocError>
    ensures { IfOk result (λ left. left ≡ left_of policy found.now) }
{
    let mut left = Items::new(alloc);
    for conflict in found {
        if stays(policy, conflict) {
            left.push(copy_conflict(alloc, conflict)?)?;
        }
    }
    Ok(left)
}

/// Pushes the chunk whose entry of ours is given up for a conflict, if one is.
fn push_given(
    alloc: Global,
    given: &mut Items<ChunkPlace>,
    pick: Pick,
    conflict: &Conflict,
) -> Result<(), AllocError>
    ensures { OnOk result (given.new ≡ given.old ++ given_by pick conflict.now.case
        conflict.now.path conflict.now.index) }
{
    match (pick, conflict.case, &conflict.index) {
        (Pick::Theirs, Case::ChunkDoubleUpdate, Some(index)) => {
            given.push((conflict.path.copy(alloc)?, index.copy(alloc)?))
        }
        _ => Ok(()),
    }
}

/// The chunks whose entries of ours are given up.
fn given_up(
    alloc: Global,
    policy: Policy,
    found: &[Conflict],
) -> Result<Items<ChunkPlace>, AllocError>
    ensures { IfOk result (λ given. given ≡ given_up policy found.now) }
{
    let mut given = Items::new(alloc);
    for conflict in found {
        push_given(alloc, &mut given, policy.chunks, conflict)?;
    }
    Ok(given)
}

/// Pushes a chunk by its node's id in a tree, if a node stands at its place.
fn push_key<T: TreeLike>(
    alloc: Global,
    keys: &mut Items<ChunkKey>,
    tree: &T,
    place: &ChunkPlace,
) -> Result<(), AllocError>
    ensures { OnOk result (keys.new ≡ keys.old ++ key_at (finmap.get (T.nodes tree.now) place.now.0)
        place.now.1) }
{
    match tree.find(place.0.as_str()) {
        Some(found) => keys.push((found.id, place.1.copy(alloc)?)),
        None => Ok(()),
    }
}

/// Chunks by the ids that their nodes have in a tree, as entries for them are taken out. Chunks that a detector named have
/// nodes in the tree before the commit.
pub fn keys_at<T: TreeLike>(
    alloc: Global,
    tree: &T,
    places: &[ChunkPlace],
) -> Result<Items<ChunkKey>, AllocError>
    ensures { IfOk result (λ keys. keys ≡ keys_in (T.nodes tree.now) places.now) }
{
    let mut keys = Items::new(alloc);
    for place in places {
        push_key(alloc, &mut keys, tree, place)?;
    }
    Ok(keys)
}

/// Solves conflicts by a policy: all of them where none stays, and else those that stay are left, in their order. A chunk that
/// both sides wrote may be solved, and so may be a dropped array and a dropped group.
pub fn solve(alloc: Global, policy: Policy, found: &[Conflict]) -> Result<Solved, AllocError>
    ensures { IfOk result (IsSolved policy found.now) }
{
    let left = left_of(alloc, policy, found)?;
    if left.is_empty() {
        Ok(Solved::Done(given_up(alloc, policy, found)?))
    } else {
        Ok(Solved::Left(left))
    }
}
