//! The theorems of a run: the tasks of a script, played over one store, keep the histories of its branches; its collections remove
//! nothing that a ref, a leased session or an anchored session reaches.
#![tactic(auto)]

ghost use Rattle.run_histories.specs.Laws.{NeededLaw};
ghost use Rattle.run_histories.specs.Told.{BegunLaw, NothingLaw, OthersLaw, RunLaw};

use history_laws::{base_found, client_collects, commits_child, refs_kept, sessions_kept};
use reach::own_law;
use repo_objects::initial_law;

/// Where a run of tasks goes on a sound journal, to which its clients' ids are new, and nobody else acts,
/// nothing is put again, each call on a branch got the answer of the branch's history, each snapshot has a
/// well-formed tree, and each commit that took effect has the tree of the entry before it under exactly
/// the changes of a session of its client's task. Tasks that collect alone remove objects, and tasks that expire alone cut
/// histories; nothing else of this hangs on either.
pub fn run_law()
    ensures { RunLaw }
{
    initial_law();
}

/// The same of a run over an empty store, with no premise on what stood there: where its clients draw no id twice, as it
/// always is by counting.
pub fn begun_law()
    ensures { BegunLaw }
{
    initial_law();
}

/// Another run's source draws no node id and no object id of a run's where both count, for other clients.
pub fn others_law()
    ensures { OthersLaw }
{}

/// The journal of an empty store is sound, each source of ids is new to it, and nothing was ever put under what it may draw.
pub fn nothing_law()
    ensures { NothingLaw }
{}

/// In a run whose branches have their histories, each object that is removed is removed by a collection that dooms it: one that
/// it listed, when all that its gets of refs reach was marked, as older than its cutoff and not marked. Once it has listed all, and
/// as long as its cutoff precedes each session that commits beside it and it is quiet, no branch, no tag that stands, no leased and
/// no anchored session reaches what it dooms, and no session put it that the cutoff precedes; so what they reach stands.
pub fn needed_law()
    ensures { NeededLaw }
{
    own_law();
    client_collects();
    commits_child();
    refs_kept();
    sessions_kept();
    base_found();
}
