//! Safe collection as laws over journals: what a collection dooms, no ref reaches and no session misses.
#![tactic(auto)]

ghost use Rattle.history_laws.specs.Laws.{
  RefsKept,
  DoomsStay,
  BasesKept,
  LeasesKept,
  PutsKept,
  AnchoredReached,
  ReachedFound,
  BasesFound,
  LeasesFound,
  OwnFound,
  ReachedPut,
  NoneMissed,
  NothingMissing,
  ClientCollects,
  FirstPreceded,
  BegunIsLate,
  CommitsChild,
  TookOne,
};

use repo_objects::{initial_law, manifest_law, ref_law, snapshot_law};

/// Once a collection has listed all objects, and as long as it was quiet and each commit beside it was a session's own, no
/// branch and no tag without a tombstone reaches what it dooms; and from then on it dooms the same.
pub fn refs_kept()
    ensures refs { RefsKept }
    ensures settled { DoomsStay }
{
    initial_law();
    snapshot_law();
    manifest_law();
}

/// Nor does the base of a session, where a ref reaches it, or where a lease stands that named it while a ref did; nor does
/// it doom what a session put that its cutoff precedes.
pub fn sessions_kept()
    ensures bases { BasesKept }
    ensures leases { LeasesKept }
    ensures puts { PutsKept }
    ensures anchored { AnchoredReached }
{
    initial_law();
    snapshot_law();
    manifest_law();
}

/// Where collections alone remove objects, what a branch or a tag without a tombstone reaches stands, and so do what the
/// base of a session reaches, where a ref reaches the base or it is leased, and what a session put that each cutoff
/// precedes. So an anchored session misses nothing, nor does a leased one.
pub fn base_found()
    ensures refs { ReachedFound }
    ensures bases { BasesFound }
    ensures leases { LeasesFound }
    ensures own { OwnFound }
    ensures was_put { ReachedPut }
    ensures none_missing { NoneMissed }
    ensures nothing { NothingMissing }
{
    initial_law();
    snapshot_law();
    manifest_law();
}

/// Where each event of a client is one that its collection may make, these are a collection's as the other laws take it.
pub fn client_collects()
    ensures { ClientCollects }
{}

/// A cutoff precedes a session where its first event isn't earlier; and that is so of each session that began behind the
/// first event of a collection that has listed all.
pub fn sessions_preceded()
    ensures first { FirstPreceded }
    ensures begun { BegunIsLate }
{
    initial_law();
    snapshot_law();
    manifest_law();
}

/// A commit that took effect, also where its answer was lost, is of a snapshot that was made over the one that its branch
/// named: so what is a client's own over that base is a commit of its session.
pub fn commits_child()
    ensures { CommitsChild }
{}

/// There is such a journal, with a collection that took an object which it doomed.
pub fn took_one()
    ensures { TookOne }
{
    initial_law();
    ref_law();
}
