//! What is done with refs, each in one call over a store.

ghost use Rattle.std.specs.Prelude.{IfErr};
ghost use Rattle.store_api.specs.Running.{Runs};
ghost use Rattle.refs_admin.specs.NewRepository.{init_program, MayRefuseInit};
ghost use Rattle.refs_admin.specs.Branches.{branch_new_program, branch_reset_program, branch_drop_program, MayRefuseNew, MayRefuseReset, MayRefuseDrop};
ghost use Rattle.refs_admin.specs.Tags.{tag_new_program, tag_drop_program, MayRefuseTag};
ghost use Rattle.refs_admin.specs.LogReading.{chain_log_program, MayRefuseLog};
ghost use Rattle.repo_read.specs.Programs.{MayRefuseRef};

use crate::{BranchDrop, BranchNew, BranchReset, Init, Log, LogLines, TagDrop, TagNew, refs_law};
use ice_base::RefName;
use repo_read::At;
use std::alloc::Global;
use store_api::{Refusal, Store, run_machine};

/// Makes a repository where there is none; `RefExists` where `main` is there.
pub fn make_repository<S: Store>(alloc: Global, store: &mut S) -> Result<(), Refusal>
    ensures runs { Runs (S.view store.old) (S.view store.new) init_program result }
    ensures listed { IfErr result MayRefuseInit }
{
    refs_law();
    run_machine(&mut Init::new(alloc), store)
}

/// Makes a branch that names the snapshot that a ref or an id names.
pub fn make_branch<S: Store>(
    alloc: Global,
    name: RefName,
    at: At,
    store: &mut S,
) -> Result<(), Refusal>
    ensures runs { Runs (S.view store.old) (S.view store.new) (branch_new_program name at) result }
    ensures listed { IfErr result MayRefuseNew }
{
    refs_law();
    run_machine(&mut BranchNew::new(alloc, name, at), store)
}

/// Sets a branch to the snapshot that a ref or an id names.
pub fn set_branch<S: Store>(
    alloc: Global,
    name: RefName,
    at: At,
    store: &mut S,
) -> Result<(), Refusal>
    ensures runs { Runs (S.view store.old) (S.view store.new) (branch_reset_program name at)
        result }
    ensures listed { IfErr result MayRefuseReset }
{
    refs_law();
    run_machine(&mut BranchReset::new(alloc, name, at), store)
}

/// Drops a branch.
pub fn drop_branch<S: Store>(alloc: Global, name: RefName, store: &mut S) -> Result<(), Refusal>
    ensures runs { Runs (S.view store.old) (S.view store.new) (branch_drop_program name) result }
    ensures listed { IfErr result MayRefuseDrop }
{
    refs_law();
    run_machine(&mut BranchDrop::new(alloc, name), store)
}

/// Makes a tag that names the snapshot that a ref or an id names.
pub fn make_tag<S: Store>(
    alloc: Global,
    name: RefName,
    at: At,
    store: &mut S,
) -> Result<(), Refusal>
    ensures runs { Runs (S.view store.old) (S.view store.new) (tag_new_program name at) result }
    ensures listed { IfErr result MayRefuseTag }
{
    refs_law();
    run_machine(&mut TagNew::new(alloc, name, at), store)
}

/// Drops a tag.
pub fn drop_tag<S: Store>(alloc: Global, name: RefName, store: &mut S) -> Result<(), Refusal>
    ensures runs { Runs (S.view store.old) (S.view store.new) (tag_drop_program name) result }
    ensures listed { IfErr result MayRefuseRef }
{
    refs_law();
    run_machine(&mut TagDrop::new(alloc, name), store)
}

/// Reads the log of the chain of the snapshot that a ref or an id names, the first one first.
pub fn read_log<S: Store>(alloc: Global, at: At, store: &mut S) -> Result<LogLines, Refusal>
    ensures runs { Runs (S.view store.old) (S.view store.new) (chain_log_program at) result }
    ensures listed { IfErr result MayRefuseLog }
{
    refs_law();
    run_machine(&mut Log::new(alloc, at), store)
}
