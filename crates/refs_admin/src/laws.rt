//! Laws of the calls on refs, as the contracts of functions that do nothing.

ghost use Rattle.store_api.specs.Callers.{Caller as TheCaller};
ghost use Rattle.refs_admin.specs.Laws.{MainStays, RefsLaw, TagsStay};
ghost use Rattle.refs_admin.specs.TagStates.{TagStatesLaw};
ghost use Rattle.refs_admin.specs.BranchHistories.{BranchHistoriesLaw};

use repo_objects::{initial_law, ref_law, snapshot_law};

/// Whatever others do, each operation of these calls is polite, and each answer tells the journal: a ref that was made, moved
/// or dropped was so by the client's own operation, and each refusal has its cause there.
pub fn refs_law()
    ensures { (by : TheCaller) → RefsLaw by }
{
    snapshot_law();
    ref_law();
    initial_law();
}

/// Whatever good events come, a tag stays as it was put, and so does a tombstone; and `main` stays there.
pub fn stays_law()
    ensures tags { TagsStay }
    ensures main { MainStays }
{}

/// In a legal polite journal what the answers of calls on tags tell is what the tag's state gives, at
/// the client's own event that decided them.
pub fn tag_states_law()
    ensures { TagStatesLaw }
{}

/// In a journal over which the histories run, what the answers of calls on branches tell is what the
/// branch's history gives, at the client's own event that decided them.
pub fn branch_histories_law()
    ensures { BranchHistoriesLaw }
{
    snapshot_law();
    ref_law();
    initial_law();
}
