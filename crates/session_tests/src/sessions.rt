//! Sessions whose ids run out.

use ice_ids::{AnyIds, CountIds, Id8};
use session::Session;
use std::alloc::Global;
use std::test::Fail;
use store_api::Refusal;
use test_ends::holds;
use untold_store::{Untold, begun, opened, went};
use zarr_path::Path;
use zarr_tree::EditFault;

const GROUP: &[u8] = br#"{"zarr_format":3,"node_type":"group"}"#;

/// A session to write on `main` of an empty repository, if it was opened.
fn with_ids(alloc: Global, ids: AnyIds) -> Option<Session> {
    let mut store = begun(alloc, Untold::new(alloc))?;
    let session = opened(alloc, ids, &mut store);
    drop(store);
    session
}

fn is_spent(added: Result<Id8, Refusal>) -> bool {
    let is = matches!(&added, Err(Refusal::IdsSpent));
    drop(added);
    is
}

/// Whether a group is refused for want of an id, and there is none.
fn is_refused(session: &mut Session, path: &Path) -> bool {
    is_spent(session.add_group(path, GROUP)) && is_absent(session, path)
}

fn is_absent(session: &Session, path: &Path) -> bool {
    let meta = session.get_meta(path);
    let is = matches!(&meta, Err(Refusal::Edit(EditFault::NoNode)));
    drop(meta);
    is
}

/// Whether the root is added and found, and a group beneath it is refused.
fn takes_one(session: &mut Session, root: &Path, beneath: &Path) -> bool {
    went(session.add_group(root, GROUP))
        && is_refused(session, beneath)
        && went(session.get_meta(root))
}

/// Whether a session takes its last id for the first group, and refuses the second one.
fn takes_the_last(alloc: Global, session: &mut Session) -> Option<bool> {
    let root = Path::read(alloc, "/").ok()?;
    let beneath = Path::read(alloc, "/a").ok()?;
    Some(takes_one(session, &root, &beneath))
}

/// Whether a session with one id left takes it for the first group, and refuses the second one.
fn took_the_last(alloc: Global) -> Option<bool> {
    let ids = AnyIds::Count(CountIds::at(1, 4_294_967_294));
    let mut session = with_ids(alloc, ids)?;
    let took = takes_the_last(alloc, &mut session);
    drop(session);
    took
}

/// One id is left: the first group takes it, and the second one is refused.
#[test]
fn the_last_id(rt: HostRuntime) -> Result<(), Fail> {
    holds(took_the_last(rt.alloc()) == Some(true), "the last id")
}
