//! What is done with a repository as a whole, in one call.

ghost use Rattle.std.specs.Prelude.{◌≡◌, IfErr};
ghost use Rattle.store_api.specs.Running.{Runs};
ghost use Rattle.repository.specs.Beginning.{begun, begin_program, MayRefuseBegin};
ghost use Rattle.repository.specs.Refs.{refs_program, MayRefuseRefs};

use crate::ReadRefs;
use play_outcome::RefLines;
use refs_admin::make_repository;
use std::alloc::Global;
use store_api::{Refusal, Store, run_machine};

/// Makes the repository where there is none: puts the initial snapshot, and then the branch `main`
/// with a reference to it, each where its key is free. What stands there already is left as it is.
/// (Icechunk specification version 1, "Initialize New Repository".)
///
/// Refusals: `StoreFault` where the store failed, and `NoMemory`. A second call goes on where the
/// first one was cut off.
pub fn begin<S: Store>(alloc: Global, store: &mut S) -> Result<(), Refusal>
    ensures runs { Runs (S.view store.old) (S.view store.new) begin_program result }
    ensures listed { IfErr result MayRefuseBegin }
{
    begun(make_repository(alloc, store))
}

/// What a beginning answers where making a repository was answered so: one that was there stays.
fn begun(made: Result<(), Refusal>) -> Result<(), Refusal>
    ensures { result ≡ begun made }
{
    match made {
        Err(Refusal::RefExists(_)) => Ok(()),
        made => made,
    }
}

/// Reads all refs: the branches, and then the tags that have no tombstone, each in the order of
/// their names. It lists a part and gets its refs one after the other; one that is dropped between
/// is passed over.
///
/// Refusals: `BadFile` at the first ref whose bytes are no reference, `StoreFault` where the store
/// failed, and `NoMemory`.
pub fn read_refs<S: Store>(alloc: Global, store: &mut S) -> Result<RefLines, Refusal>
    ensures runs { Runs (S.view store.old) (S.view store.new) refs_program result }
    ensures listed { IfErr result MayRefuseRefs }
{
    run_machine(&mut ReadRefs::new(alloc), store)
}
