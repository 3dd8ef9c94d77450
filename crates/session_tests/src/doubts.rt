//! Doubts that are settled twice, over a store in memory that tells no journal.

ghost use Rattle.std.specs.Prelude.{IfSome};
ghost use Rattle.store_api.specs.Program.{IsAsk};
ghost use Rattle.commit_path.specs.Committing.{commit_rest};

use commit_path::{Commit, Tried};
use ice_base::{RefName, Text};
use ice_ids::{Draw, Id12};
use session::Session;
use settle::{Doubt, Settle, Settled};
use std::alloc::Global;
use std::test::Fail;
use store_api::{Refusal, run_machine};
use test_ends::holds;
use untold_store::{Untold, begun, opened, went};
use zarr_path::Path;

const GROUP: &[u8] = br#"{"zarr_format":3,"node_type":"group"}"#;

/// Whether the root was added.
fn adds_root(alloc: Global, session: &mut Session) -> bool {
    let Ok(path) = Path::read(alloc, "/") else {
        return false;
    };
    let added = went(session.add_group(&path, GROUP));
    drop(path);
    added
}

/// A commit that has begun.
fn started(alloc: Global, session: Session, message: Text) -> Option<Commit>
    ensures { IfSome result (λ commit. IsAsk (commit_rest commit)) }
{
    Commit::start(alloc, session, message).ok()
}

/// The snapshot of a commit that was done.
fn snapshot_of(tried: Result<Tried, Refusal>) -> Option<Id12> {
    match tried {
        Ok(Tried::Done(committed)) => Some(committed.id),
        Ok(Tried::Lost { .. }) => None,
        Err(why) => {
            drop(why);
            None
        }
    }
}

/// The snapshot that a commit of the session puts.
fn commits(alloc: Global, session: Session, store: &mut Untold) -> Option<Id12> {
    let Ok(message) = Text::of(alloc, "x") else {
        drop(session);
        return None;
    };
    let mut commit = started(alloc, session, message)?;
    let tried = run_machine(&mut commit, store);
    drop(commit);
    snapshot_of(tried)
}

/// The root is committed: the commit's snapshot and its base.
fn committed(alloc: Global, store: &mut Untold) -> Option<Doubt> {
    let mut session = opened(alloc, Draw::Count.ids(1), store)?;
    let base = session.base();
    if !adds_root(alloc, &mut session) {
        drop(session);
        return None;
    }
    let snapshot = commits(alloc, session, store)?;
    Some(Doubt { snapshot, base })
}

/// What `main` tells of the doubt.
fn settled(alloc: Global, doubt: Doubt, store: &mut Untold) -> Option<Settled> {
    let main = RefName::main(alloc).ok()?;
    let mut settle = Settle::new(alloc, main, doubt);
    let answer = run_machine(&mut settle, store);
    drop(settle);
    answer.ok()
}

/// What `main` tells of the commit's doubt, and again; and of one whose snapshot is the base of another commit's.
fn told_in(alloc: Global, store: &mut Untold) -> Option<[Settled; 3]> {
    let doubt = committed(alloc, store)?;
    let turned = Doubt {
        snapshot: doubt.base,
        base: doubt.snapshot,
    };
    Some([
        settled(alloc, doubt, store)?,
        settled(alloc, doubt, store)?,
        settled(alloc, turned, store)?,
    ])
}

/// The same, over a new store.
fn told(alloc: Global) -> Option<[Settled; 3]> {
    let mut store = begun(alloc, Untold::new(alloc))?;
    let told = told_in(alloc, &mut store);
    drop(store);
    told
}

/// A second settling answers what the first one did, and what is met first decides.
#[test]
fn a_second_settling(rt: HostRuntime) -> Result<(), Fail> {
    let want = [
        Settled::Committed,
        Settled::Committed,
        Settled::NotCommitted,
    ];
    holds(told(rt.alloc()) == Some(want), "settled")
}
