//! Conflicts of two sides' changes of one tree, and what a policy solves of them. ` | ` stands between our changes and theirs.
//! The tree has a root, an array `/a`, and a group `/g` with an array `/g/b` and a group `/g/h`.

ghost use Rattle.zarr_tree.specs.Touched.{IsOrdered};

use crate::changing::{changes_of, initial};
use changed_snapshot::{Stamp, write_over};
use conflicts::{ChunkPlace, Pick, Policy, Solved, detect, keys_at, solve};
use held_log::{HeldLog, hold};
use ice_base::{Bytes, Text};
use ice_ids::Id12;
use ice_items::Items;
use manifest_file::Place;
use repo_objects::Loaded;
use show_files::{NoAnswer, first_word};
use snapshot_file::Props;
use std::alloc::{AllocError, Global};
use txn_file::TxnFile;
use txn_file::laws::touched_law;
use zarr_changes::{ChangeSet, ChunkKey};
use zarr_tree::{Conflict, Touched, ordered_law};

/// The nodes of the tree, as changes of the initial snapshot.
const TREE: &str = "/=1 /a=2:line /g=3 /g/b=4:line /g/h=5";

/// More nodes than a tree may have.
const TOO_MANY: usize = 65_537;

/// The stamp of each snapshot.
const STAMP: Stamp = Stamp {
    id: Id12::INITIAL,
    parent: Id12::INITIAL,
    flushed_at: 0,
};

/// The file of a snapshot under changes, without their chunks.
fn file_under(alloc: Global, base: &Loaded, set: &ChangeSet) -> Result<Bytes, NoAnswer> {
    if set.over(base).reaches(TOO_MANY) {
        return Err(NoAnswer::Words);
    }
    let message = Text::of(alloc, "")?;
    let props = Props::new(alloc);
    match write_over(alloc, base, set, &[], STAMP, &message, &props) {
        Ok(file) => Ok(file),
        Err(_) => Err(NoAnswer::NoMemory),
    }
}

/// The snapshot under changes, without their chunks.
fn loaded_under(alloc: Global, base: &Loaded, set: &ChangeSet) -> Result<Loaded, NoAnswer> {
    let file = file_under(alloc, base, set)?;
    match Loaded::read(alloc, Id12::INITIAL, file) {
        Ok(loaded) => Ok(loaded),
        Err(_) => Err(NoAnswer::NoMemory),
    }
}

/// A snapshot under the changes of words.
fn changed(alloc: Global, base: &Loaded, words: &str) -> Result<Loaded, NoAnswer> {
    let set = changes_of(alloc, base, words)?;
    let changed = loaded_under(alloc, base, &set);
    drop(set);
    changed
}

/// The tree.
fn tree(alloc: Global) -> Result<Loaded, NoAnswer> {
    let initial = initial(alloc)?;
    let tree = changed(alloc, &initial, TREE);
    drop(initial);
    tree
}

/// The log of a commit that touched these, written, and held to be read in place.
fn log_of(alloc: Global, lists: Touched) -> Result<HeldLog, NoAnswer>
    requires { IsOrdered lists }
{
    touched_law();
    let log = TxnFile {
        id: Id12::INITIAL,
        lists,
    };
    let written = txn_file::write(alloc, &log);
    drop(log);
    let Ok(file) = written else {
        return Err(NoAnswer::NoMemory);
    };
    match hold(Bytes::from_vec(file)) {
        Ok(log) => Ok(log),
        Err(_) => Err(NoAnswer::Words),
    }
}

/// The conflicts of our changes of a tree with theirs.
fn found(
    alloc: Global,
    tree: &Loaded,
    ours: &ChangeSet,
    theirs: &ChangeSet,
) -> Result<Items<Conflict>, NoAnswer> {
    ordered_law::<Place>();
    let log = log_of(alloc, theirs.net(alloc, tree)?)?;
    let after = loaded_under(alloc, tree, theirs)?;
    let found = detect(alloc, ours, &log.lists(), tree, &after);
    drop(after);
    Ok(found?)
}

/// The conflicts of our changes with theirs, in words.
fn found_with(
    alloc: Global,
    tree: &Loaded,
    ours: &ChangeSet,
    theirs: &str,
) -> Result<Items<Conflict>, NoAnswer> {
    let theirs = changes_of(alloc, tree, theirs)?;
    let found = found(alloc, tree, ours, &theirs);
    drop(theirs);
    found
}

/// The conflicts of our changes of a tree with theirs, both in words.
fn found_in(
    alloc: Global,
    tree: &Loaded,
    ours: &str,
    theirs: &str,
) -> Result<Items<Conflict>, NoAnswer> {
    let ours = changes_of(alloc, tree, ours)?;
    let found = found_with(alloc, tree, &ours, theirs);
    drop(ours);
    found
}

/// The conflicts of our changes with theirs, both in words.
fn conflicts_of(alloc: Global, text: &str) -> Result<Items<Conflict>, NoAnswer> {
    let (ours, theirs) = text.split_once(" | ").ok_or(NoAnswer::Words)?;
    let tree = tree(alloc)?;
    let found = found_in(alloc, &tree, ours, theirs);
    drop(tree);
    found
}

/// Appends a conflict: the number of its case, its path, and the chunk's index if it has one.
fn push_conflict(told: &mut String, conflict: &Conflict) -> Result<(), AllocError> {
    write!(told, " {}:{}", conflict.case.number(), conflict.path)?;
    match &conflict.index {
        Some(index) => write!(told, ":{:?}", index.parts()),
        None => Ok(()),
    }
}

/// What is told of conflicts.
fn conflicts_told(alloc: Global, conflicts: Items<Conflict>) -> Result<String, AllocError> {
    if conflicts.is_empty() {
        return String::from_str(alloc, "no conflicts");
    }
    let mut told = String::from_str(alloc, "conflicts")?;
    for conflict in conflicts.as_slice() {
        push_conflict(&mut told, conflict)?;
    }
    Ok(told)
}

/// The conflicts of our changes with theirs.
pub fn tell_conflicts(alloc: Global, text: &str) -> Result<String, NoAnswer> {
    Ok(conflicts_told(alloc, conflicts_of(alloc, text)?)?)
}

/// The policy that a word like `ours+a+g` says: with `+a` dropped arrays pass, with `+g` dropped groups.
fn policy_of(word: &str) -> Result<Policy, NoAnswer> {
    let chunks = match word.trim_end_matches("+g").trim_end_matches("+a") {
        "fail" => Pick::Fail,
        "ours" => Pick::Ours,
        "theirs" => Pick::Theirs,
        _ => return Err(NoAnswer::Words),
    };
    Ok(Policy {
        chunks,
        drop_arrays: word.contains("+a"),
        drop_groups: word.contains("+g"),
    })
}

/// Our entries at places that are given up.
fn keys_told(alloc: Global, keys: &[ChunkKey]) -> Result<String, AllocError> {
    let mut told = String::from_str(alloc, "solved")?;
    for (node, index) in keys {
        write!(told, " {node}:{:?}", index.parts())?;
    }
    Ok(told)
}

/// Our entries that are given up.
fn given_told(alloc: Global, given: Items<ChunkPlace>) -> Result<String, NoAnswer> {
    let tree = tree(alloc)?;
    let keys = keys_at(alloc, &tree, given.as_slice());
    drop(tree);
    Ok(keys_told(alloc, keys?.as_slice())?)
}

/// What a policy leaves of conflicts, or which of our entries it gives up.
fn solved_told(alloc: Global, solved: Solved) -> Result<String, NoAnswer> {
    match solved {
        Solved::Done(given) => given_told(alloc, given),
        Solved::Left(left) => Ok(conflicts_told(alloc, left)?),
    }
}

/// What a policy leaves of the conflicts, or which of our entries it gives up.
pub fn tell_solved(alloc: Global, text: &str) -> Result<String, NoAnswer> {
    let (word, rest) = first_word(text);
    let policy = policy_of(word)?;
    let found = conflicts_of(alloc, rest)?;
    let solved = solve(alloc, policy, found.as_slice())?;
    solved_told(alloc, solved)
}
