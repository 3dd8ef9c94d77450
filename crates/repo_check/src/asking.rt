//! The operation that comes next.

ghost use Rattle.std.specs.Prelude.{◌≡◌, true, false, IfOk};
ghost use Rattle.store_api.specs.Callers.{Called, Fits};
ghost use Rattle.store_api.specs.Driving.{has_failed, op_of};
ghost use Rattle.repo_check.specs.inside.Working.{checking_op, is_live};

use crate::standing::Checking;
use std::alloc::{AllocError, Global};
use store_api::{Key, Part, Reply, Request, Store, StoreFault, perform};

/// What is asked of the store.
fn request(alloc: Global, state: &Checking) -> Result<Request<'static>, AllocError>
    requires { is_live state.now ≡ true }
    ensures { IfOk result (λ request. op_of request ≡ checking_op state.now) }
{
    match state {
        Checking::Branches => Ok(Request::List {
            part: Part::Branches,
        }),
        Checking::Tags => Ok(Request::List { part: Part::Tags }),
        Checking::Branch(key) | Checking::Tag(key) => Ok(Request::Get {
            key: key.copy(alloc)?,
        }),
        Checking::Snapshot(id) => Ok(Request::Get {
            key: Key::Snapshot(*id),
        }),
        Checking::Log(id, _) => Ok(Request::Get { key: Key::Txn(*id) }),
        Checking::File(visit, _) => Ok(Request::Get {
            key: Key::Manifest(visit.manifest),
        }),
        Checking::Part(visit, _, _) => Ok(Request::Get {
            key: Key::Chunk(visit.object),
        }),
        Checking::Ended(_) => unreachable!(),
    }
}

/// Makes the operation that comes next.
pub(crate) fn ask<S: Store>(
    alloc: Global,
    state: &Checking,
    store: &mut S,
) -> Result<Reply, StoreFault>
    requires { is_live state.now ≡ true }
    ensures called { Called (λ reply. reply) (checking_op state.now) result (S.view store.old)
        (S.view store.new) }
    ensures fits { IfOk result (Fits (checking_op state.now)) }
    ensures answered { IfOk result (λ reply. has_failed reply ≡ false) }
{
    match request(alloc, state) {
        Ok(request) => {
            let answer = perform(store, &request);
            drop(request);
            answer
        }
        Err(_) => Err(StoreFault::NoMemory),
    }
}
