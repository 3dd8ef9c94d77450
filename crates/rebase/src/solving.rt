//! What a commit makes of the changes that are held.

ghost use Rattle.std.specs.Prelude.{◌≡◌, IfOk, IfErr, unwrap_or};
ghost use Rattle.zarr_tree.specs.Touched.{IsOrdered};
ghost use Rattle.zarr_tree.specs.Edits.{most_nodes};
ghost use Rattle.std.specs.Prelude.{nat_lt};
ghost use Rattle.std.specs.FinMap.{len};
ghost use Rattle.zarr_tree.specs.Held.{nodes_over};
ghost use Rattle.zarr_changes.specs.Edits.{without_chunks};
ghost use Rattle.repo_objects.specs.Trees.{nodes_in};
ghost use Rattle.rebase.specs.Rebasing.{nodes_before};
ghost use Rattle.rebase.specs.inside.Working.{Clears, GivesUp, Shows, MayRefuseCommit};

use crate::hiding::first_hidden;
use conflicts::{ChunkPlace, Policy, Solved, detect, keys_at, solve};
use held_log::HeldLists;
use ice_items::Items;
use repo_objects::{Bad, Loaded};
use session::Session;
use std::alloc::{AllocError, Global};
use store_api::{Key, Refusal};
use zarr_changes::{ChangeSet, ChunkKey};
use zarr_tree::MOST_NODES;

/// The snapshot of the commit before, or else the session's base.
pub(crate) fn before_of<'a>(session: &'a Session, before: &'a Option<Loaded>) -> &'a Loaded
    ensures { nodes_in result.now.nodes ≡ nodes_before session.now before.now }
{
    match before {
        Some(before) => before,
        None => session.loaded(),
    }
}

/// What is still held, or else the session's changes.
pub(crate) fn held_of<'a>(session: &'a Session, held: &'a Option<ChangeSet>) -> &'a ChangeSet
    ensures { result.now ≡ unwrap_or held.now session.now.held }
{
    match held {
        Some(held) => held,
        None => session.changes(),
    }
}

/// The chunks whose entries are given up to a commit.
fn given_up(
    alloc: Global,
    policy: Policy,
    held: &ChangeSet,
    before: &Loaded,
    commit: &Loaded,
    lists: &HeldLists,
) -> Result<Items<ChunkPlace>, Refusal>
    requires { IsOrdered lists.now }
    ensures given { GivesUp policy held.now (nodes_in before.now.nodes)
        (record { file = commit.now; lists = lists.now }) result }
    ensures listed { IfErr result MayRefuseCommit }
{
    let Ok(found) = detect(alloc, held, lists, before, commit) else {
        return Err(Refusal::NoMemory);
    };
    match solve(alloc, policy, found.as_slice()) {
        Ok(Solved::Done(given)) => Ok(given),
        Ok(Solved::Left(conflicts)) => Err(Refusal::Left {
            at: commit.file().id(),
            conflicts,
        }),
        Err(_) => Err(Refusal::NoMemory),
    }
}

/// Refuses a commit whose log hides a node.
fn show_all(alloc: Global, held: &ChangeSet, commit: &Loaded) -> Result<(), Refusal>
    ensures shown { Shows held.now commit.now result }
    ensures listed { IfErr result MayRefuseCommit }
{
    match first_hidden(alloc, held, commit) {
        Ok(None) => Ok(()),
        Ok(Some(node)) => Err(Refusal::BadFile(Key::Txn(commit.file().id()), Bad::Unlisted(node))),
        Err(_) => Err(Refusal::NoMemory),
    }
}

/// Solves the conflicts of what is held with a commit, whose log has these lists, and answers which entries are given up. It is
/// refused by `Left` where conflicts stay, or else by `BadFile` where the log hides a node, or by `NoMemory`.
pub(crate) fn taken_out(
    alloc: Global,
    policy: Policy,
    held: &ChangeSet,
    before: &Loaded,
    commit: &Loaded,
    lists: &HeldLists,
) -> Result<Items<ChunkKey>, Refusal>
    requires { IsOrdered lists.now }
    ensures clears { Clears policy held.now (nodes_in before.now.nodes)
        (record { file = commit.now; lists = lists.now }) result }
    ensures listed { IfErr result MayRefuseCommit }
{
    let given = match given_up(alloc, policy, held, before, commit, lists) {
        Ok(given) => given,
        Err(why) => return Err(why),
    };
    if let Err(why) = show_all(alloc, held, commit) {
        return Err(why);
    }
    match keys_at(alloc, before, given.as_slice()) {
        Ok(keys) => Ok(keys),
        Err(_) => Err(Refusal::NoMemory),
    }
}

/// What is held, or else a copy of these changes.
fn or_copy(alloc: Global, own: &ChangeSet, held: Option<ChangeSet>) -> Result<ChangeSet, AllocError>
    ensures { IfOk result (λ set. set ≡ unwrap_or held own.now) }
{
    match held {
        Some(held) => Ok(held),
        None => own.copy(alloc),
    }
}

/// What is held without these entries. The session's own changes are copied where the first ones are taken out.
pub(crate) fn without(
    alloc: Global,
    own: &ChangeSet,
    held: Option<ChangeSet>,
    out: &[ChunkKey],
) -> Result<Option<ChangeSet>, AllocError>
    ensures { IfOk result (λ left. unwrap_or left own.now ≡ without_chunks (unwrap_or held own.now)
        out.now) }
{
    if out.is_empty() {
        return Ok(held);
    }
    let mut left = or_copy(alloc, own, held)?;
    left.take_out(out);
    Ok(Some(left))
}

/// Whether a snapshot's tree under changes has more nodes than a tree may have.
pub(crate) fn is_too_full(changes: &ChangeSet, head: &Loaded) -> bool
    ensures { result ≡ nat_lt most_nodes (len (nodes_over changes.now (nodes_in head.now.nodes))) }
{
    changes.over(head).reaches(MOST_NODES + 1)
}
