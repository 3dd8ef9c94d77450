//! Rebases, over a store in memory that tells no journal.

ghost use Rattle.std.specs.Prelude.{IfSome};
ghost use Rattle.store_api.specs.Program.{IsAsk};
ghost use Rattle.commit_path.specs.Committing.{commit_rest};
ghost use Rattle.rebase.specs.Rebasing.{rebase_rest};

use commit_path::{Commit, Tried};
use conflicts::{Pick, Policy};
use ice_base::Text;
use ice_ids::Draw;
use rebase::{Rebase, Rebased};
use session::Session;
use std::alloc::{AllocError, Global};
use std::test::Fail;
use store_api::{Refusal, run_machine};
use test_ends::holds;
use untold_store::{Untold, begun, opened, went};
use zarr_path::Path;
use zarr_tree::EditFault;

const GROUP: &[u8] = br#"{"zarr_format":3,"node_type":"group"}"#;

const POLICY: Policy = Policy {
    chunks: Pick::Fail,
    drop_arrays: false,
    drop_groups: false,
};

/// The root has the number 0, and each number above a group beneath it.
fn text(alloc: Global, number: u32) -> Result<String, AllocError> {
    if number == 0 {
        return String::from_str(alloc, "/");
    }
    format!(in alloc; "/{number}")
}

fn path(alloc: Global, number: u32) -> Option<Path> {
    let text = text(alloc, number).ok()?;
    Path::read(alloc, text.as_str()).ok()
}

/// Whether the group with this number was added.
fn adds_group(alloc: Global, session: &mut Session, number: u32) -> bool {
    let Some(path) = path(alloc, number) else {
        return false;
    };
    let added = went(session.add_group(&path, GROUP));
    drop(path);
    added
}

/// Whether groups with these numbers were added.
fn adds_groups(alloc: Global, session: &mut Session, from: u32, to: u32) -> bool {
    for number in from..to {
        if !adds_group(alloc, session, number) {
            return false;
        }
    }
    true
}

/// A session over what `main` names, with this client's ids, to which groups with these numbers were added.
fn grown(alloc: Global, client: u32, from: u32, to: u32, store: &mut Untold) -> Option<Session> {
    let mut session = opened(alloc, Draw::Count.ids(client), store)?;
    let added = adds_groups(alloc, &mut session, from, to);
    added.then_some(session)
}

/// A commit that has begun.
fn started(alloc: Global, session: Session, message: Text) -> Option<Commit>
    ensures { IfSome result (λ commit. IsAsk (commit_rest commit)) }
{
    Commit::start(alloc, session, message).ok()
}

/// What a commit came to.
#[derive(Clone, Copy, PartialEq, Eq)]
enum Ending {
    Done,
    Lost,
    Refused,
}

fn ending_of(tried: &Result<Tried, Refusal>) -> Ending {
    match tried {
        Ok(Tried::Done(_)) => Ending::Done,
        Ok(Tried::Lost { .. }) => Ending::Lost,
        Err(_) => Ending::Refused,
    }
}

/// What a commit comes to.
fn run(commit: &mut Commit, store: &mut Untold) -> Ending
    requires { IsAsk (commit_rest commit.old) }
{
    let tried = run_machine(commit, store);
    let ending = ending_of(&tried);
    drop(tried);
    ending
}

/// The session of a commit that was made, if it came to this.
fn tried(alloc: Global, session: Session, store: &mut Untold, want: Ending) -> Option<Session> {
    let Ok(message) = Text::of(alloc, "x") else {
        drop(session);
        return None;
    };
    let mut commit = started(alloc, session, message)?;
    let ending = run(&mut commit, store);
    let (session, message) = commit.into_parts();
    drop(message);
    (ending == want).then_some(session)
}

/// Whether a commit of the session took effect.
fn commits(alloc: Global, session: Session, store: &mut Untold) -> bool {
    let session = tried(alloc, session, store, Ending::Done);
    let done = session.is_some();
    drop(session);
    done
}

/// What a rebase comes to: over how many commits, if it isn't refused.
#[derive(Clone, Copy, PartialEq, Eq)]
enum Carried {
    Over(u32),
    Full,
    Refused,
}

/// A rebase that has begun.
fn rebasing(alloc: Global, session: Session) -> Option<Rebase>
    ensures { IfSome result (λ r. IsAsk (rebase_rest r)) }
{
    Rebase::start(alloc, session, POLICY).ok()
}

fn carried_of(rebased: &Result<Rebased, Refusal>) -> Carried {
    match rebased {
        Ok(Rebased::OnHead(_, count)) => Carried::Over(*count),
        Ok(Rebased::UpToDate(_)) => Carried::Over(0),
        Err(Refusal::Edit(EditFault::Full)) => Carried::Full,
        Err(_) => Carried::Refused,
    }
}

/// What a rebase that has begun comes to.
fn finished(rebase: &mut Rebase, store: &mut Untold) -> Carried
    requires { IsAsk (rebase_rest rebase.old) }
{
    let rebased = run_machine(rebase, store);
    let carried = carried_of(&rebased);
    drop(rebased);
    carried
}

/// What a rebase of the session comes to.
fn rebased(alloc: Global, session: Session, store: &mut Untold) -> Option<Carried> {
    let mut rebase = rebasing(alloc, session)?;
    let carried = finished(&mut rebase, store);
    drop(rebase);
    Some(carried)
}

/// Whether a tree of so many groups was committed.
fn has_base(alloc: Global, nodes: u32, store: &mut Untold) -> bool {
    match grown(alloc, 1, 0, nodes, store) {
        Some(session) => commits(alloc, session, store),
        None => false,
    }
}

/// Whether another session adds a group, and commits.
fn other_commits(alloc: Global, store: &mut Untold) -> bool {
    match grown(alloc, 2, 70_000, 70_001, store) {
        Some(session) => commits(alloc, session, store),
        None => false,
    }
}

/// A session that began at the tree and adds a group, but loses, since another one was committed meanwhile.
fn loser(alloc: Global, store: &mut Untold) -> Option<Session> {
    let session = grown(alloc, 3, 80_000, 80_001, store)?;
    if !other_commits(alloc, store) {
        drop(session);
        return None;
    }
    tried(alloc, session, store, Ending::Lost)
}

/// What a rebase of the session comes to that lost over a tree of so many groups in this store.
fn second_loses_in(alloc: Global, nodes: u32, store: &mut Untold) -> Option<Carried> {
    if !has_base(alloc, nodes, store) {
        return None;
    }
    let session = loser(alloc, store)?;
    rebased(alloc, session, store)
}

/// What a rebase of the session comes to that lost over a tree of so many groups.
fn second_loses(alloc: Global, nodes: u32) -> Option<Carried> {
    let mut store = begun(alloc, Untold::new(alloc))?;
    let carried = second_loses_in(alloc, nodes, &mut store);
    drop(store);
    carried
}

/// A tree has at most 65,536 nodes: where two sessions add the last one, the second isn't rebased.
#[test]
fn a_full_tree(rt: HostRuntime) -> Result<(), Fail> {
    let full = second_loses(rt.alloc(), 65_535);
    holds(full == Some(Carried::Full), "full")
}

/// Where there is room for both, it is rebased over the first one's commit.
#[test]
fn a_tree_with_room(rt: HostRuntime) -> Result<(), Fail> {
    let moved = second_loses(rt.alloc(), 100);
    holds(moved == Some(Carried::Over(1)), "moved")
}
