//! Both sides of a rebase, kept for look-ups.

ghost use Rattle.std.specs.Prelude.{◌≡◌, ◌∷◌, ◌++◌, [], if◌then◌else◌, map, IfOk, OnOk};
ghost use Rattle.std.specs.List.{list_any};
ghost use Rattle.ice_ids.specs.declared.Id8.{Id8 as TheId};
ghost use Rattle.ice_ids.specs.Text.{same_id8};
ghost use Rattle.zarr_tree.specs.Touched.{lists, lists_new, IsOrdered};
ghost use Rattle.conflicts.specs.Found.{new_rows};

use crate::ids::set_of;
use held_log::HeldLists;
use ice_ids::Id8;
use ice_items::Items;
use std::alloc::{AllocError, Global};
use std::marker::Model;
use zarr_changes::{ChangeKeys, ChangeSet, ChunkKey, IdSet};
use zarr_path::Path;
use zarr_tree::TreeLike;

/// Our changes, the lists of a later commit, and the trees before it and after it, with what is looked up in them. Contracts
/// see what is held, listed and found.
#[derive(Drop)]
pub(crate) struct Sides<'a, B: TreeLike, U: TreeLike> {
    pub(crate) mine: &'a ChangeSet,
    pub(crate) theirs: &'a HeldLists<'a>,
    pub(crate) before: &'a B,
    pub(crate) after: &'a U,
    pub(crate) dropped: IdSet,
    pub(crate) metas: IdSet,
    pub(crate) arrays: IdSet,
    pub(crate) added: Items<Path>,
    pub(crate) news: Vec<&'a str>,
}

impl<'a, B: TreeLike, U: TreeLike> Model for Sides<'a, B, U> {
    ghost use Rattle.conflicts.specs.Found.{Sides as TheSides};
    ghost use Rattle.conflicts.specs.inside.Codes.{coded_sides};
    ghost use Rattle.conflicts.specs.inside.Looking.{Keeps};

    ghost Value = { TheSides };

    ghost coded = { coded_sides };

    ghost view = { λ s. record { held = s.mine.now; theirs = s.theirs.now; before = B.nodes s.before.now; after = U.nodes s.after.now } };

    ghost invariant = { λ s. Keeps s.dropped s.metas s.arrays s.added s.news.items s.mine.now s.theirs.now (U.nodes s.after.now) };
}

/// The ids of the arrays of chunks.
fn arrays_of(alloc: Global, chunks: &[ChunkKey]) -> Result<IdSet, AllocError>
    ensures { IfOk result (λ set. (id : TheId) → lists set id ≡ list_any (λ key. same_id8 key.0 id)
        chunks.now) }
{
    let mut set = IdSet::new(alloc);
    for (id, _) in chunks {
        set.insert(*id)?;
    }
    Ok(set)
}

/// What is looked up of our changes by id.
#[derive(Drop)]
struct OwnSets {
    dropped: IdSet,
    metas: IdSet,
    arrays: IdSet,
}

/// The nodes of keys that are dropped, those with other metadata, and the arrays of chunks.
fn sets_of(alloc: Global, keys: &ChangeKeys) -> Result<OwnSets, AllocError>
    ensures dropped { IfOk result (λ sets. (id : TheId)
        → lists sets.dropped id ≡ lists keys.now.dropped id) }
    ensures metas { IfOk result (λ sets. (id : TheId) → lists sets.metas id ≡ lists keys.now.metas
        id) }
    ensures arrays { IfOk result (λ sets. (id : TheId)
        → lists sets.arrays id ≡ list_any (λ key. same_id8 key.0 id) keys.now.chunks) }
{
    let dropped = set_of(alloc, keys.dropped.as_slice())?;
    let metas = set_of(alloc, keys.metas.as_slice())?;
    let arrays = arrays_of(alloc, keys.chunks.as_slice())?;
    Ok(OwnSets {
        dropped,
        metas,
        arrays,
    })
}

/// Pushes a node's path, if the node is listed as new.
fn push_new<'a>(
    news: &mut Vec<&'a str>,
    theirs: &HeldLists,
    path: &'a str,
    id: &Id8,
) -> Result<(), AllocError>
    ensures { OnOk result (map (λ text. text.now) news.new.items ≡ map (λ text. text.now)
        news.old.items ++ (if lists_new theirs.now id.now then path.entry.now ∷ [] else [])) }
{
    if theirs.is_new(id) {
        news.push(path)?;
    }
    Ok(())
}

/// The paths of the nodes of a later tree that are listed as new.
fn new_paths<'a, U: TreeLike>(
    alloc: Global,
    theirs: &HeldLists,
    after: &'a U,
) -> Result<Vec<&'a str>, AllocError>
    ensures { IfOk result (λ news. map (λ text. text.now) news.items ≡ map (λ row. row.0)
        (new_rows theirs.now (U.nodes after.now))) }
{
    let mut news = Vec::new(alloc);
    for at in 0..after.len() {
        let (path, found) = after.row(at);
        push_new(&mut news, theirs, path, &found.id)?;
    }
    Ok(news)
}

impl<'a, B: TreeLike, U: TreeLike> Sides<'a, B, U> {
    /// Both sides.
    pub(crate) fn new(
        alloc: Global,
        mine: &'a ChangeSet,
        theirs: &'a HeldLists<'a>,
        before: &'a B,
        after: &'a U,
    ) -> Result<Sides<'a, B, U>, AllocError>
        requires { IsOrdered theirs.now }
        ensures { IfOk result
            (λ s. s ≡ record {
              held = mine.now;
              theirs = theirs.now;
              before = B.nodes before.now;
              after = U.nodes after.now;
            }) }
    {
        let news = new_paths(alloc, theirs, after)?;
        let keys = mine.keys(alloc)?;
        let sets = sets_of(alloc, &keys)?;
        Ok(Sides {
            mine,
            theirs,
            before,
            after,
            dropped: sets.dropped,
            metas: sets.metas,
            arrays: sets.arrays,
            added: keys.added,
            news,
        })
    }
}
