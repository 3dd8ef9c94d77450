//! Laws of openings and commits, as the contracts of functions that do nothing.

ghost use Rattle.commit_path.specs.Laws.{OpeningLaw, SessionLaw, CommitLaw, AnswersLaw};

use changed_snapshot::{frozen_law, nodes_law, own_law, proper_law, ranked_law, tree_law};
use manifest_index::{extents_law, merged_law, new_list_law};
use repo_objects::{initial_law, log_law, manifest_law, ref_law, snapshot_law};

/// Whatever others do, each operation of an opening is polite, its client has changed no branch
/// wherever it may find no memory, and its answer tells the journal: a session begins at the snapshot
/// that was got at the branch, and each refusal has its cause there.
pub fn opening_law()
    ensures { OpeningLaw }
{
    snapshot_law();
    log_law();
    ref_law();
    initial_law();
    proper_law();
    nodes_law();
    tree_law();
    frozen_law();
    ranked_law();
    own_law();
    manifest_law();
    merged_law();
    new_list_law();
    extents_law();
}

/// What an opened session knows of its base, and that it can be written, stays so when nodes are added, changed
/// or dropped, when chunks are set in it or unset, and when properties are added; and what it knows, whatever good events come.
pub fn session_law()
    ensures { SessionLaw }
{}

/// Whatever others do, each operation of a commit is polite, its client has changed no branch wherever
/// it may find no memory, and its answer tells the journal: whether the commit took effect, or what was
/// found instead, and that the client changed no branch then.
pub fn commit_law()
    ensures { CommitLaw }
{
    snapshot_law();
    log_law();
    ref_law();
    initial_law();
    proper_law();
    nodes_law();
    tree_law();
    frozen_law();
    ranked_law();
    own_law();
    manifest_law();
    merged_law();
    new_list_law();
    extents_law();
}

/// What answers of openings and commits tell stays so, whatever good events others make.
pub fn answers_law()
    ensures { AnswersLaw }
{}
