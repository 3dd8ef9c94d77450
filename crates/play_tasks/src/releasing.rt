//! The releases of a session's leases, behind all that its task did.

ghost use Rattle.std.specs.Prelude.{◌≡◌, ◌<◌, ◌≤◌, ◌-◌, ◌^◌, [], false, true, drop, length, set, take, IsTrue};
ghost use Rattle.store_api.specs.Plays.{Acts, Ended, HasEnded, IsLive};
ghost use Rattle.leases.specs.Plays.{release_play};
ghost use Rattle.play_outcome.specs.Ending.{is_failed};
ghost use Rattle.play_tasks.specs.Playing.{release_all, release_from};
ghost use Rattle.play_tasks.specs.inside.Releasing.{lease_in, next_play, releases_rest, are_left, releases_left};

use crate::working::Releases;
use ice_ids::Id12;
use leases::release;
use play_outcome::{End, Outcome, Shown, Shows};
use store_api::Store;

/// The line that put a lease, and its id.
fn lease_in(shown: &Shown) -> Option<(u32, Id12)>
    ensures { result ≡ lease_in shown.now }
{
    match shown {
        Shown::Lease { line, id, .. } => Some((*line, *id)),
        Shown::Node { .. }
        | Shown::Meta { .. }
        | Shown::Chunk { .. }
        | Shown::Fill { .. }
        | Shown::Cells { .. }
        | Shown::Key { .. }
        | Shown::Log { .. } => None,
    }
}

/// Goes on to the first lease that is shown from a number on, from 0; where there is none, the task has ended.
fn release_on(shown: Vec<Shown>, end: End, from: usize) -> Releases
    requires { from ≤ length shown.items }
    ensures rest { releases_rest result ≡ release_from (take from shown.items)
        (drop from shown.items) end }
    ensures works { are_left result ≡ true }
    ensures few { releases_left result ≤ length shown.items - from }
    ensures small { releases_left result < 2 ^ 64 }
{
    for at in from..shown.len() {
        if let Some((line, id)) = lease_in(&shown[at]) {
            return Releases::Next {
                shown,
                end,
                at,
                line,
                id,
            };
        }
    }
    Releases::Ended {
        outcome: Outcome {
            shown: Shows::from_vec(shown),
            end,
        },
    }
}

/// Begins the releases of a session that has ended so.
pub(crate) fn begin_releases(outcome: Outcome) -> Releases
    ensures rest { releases_rest result ≡ release_all outcome }
    ensures works { are_left result ≡ true }
    ensures small { releases_left result < 2 ^ 64 }
{
    let Outcome { shown, end } = outcome;
    release_on(shown.into_vec(), end, 0)
}

/// What is shown, with this at a number in place of what was there.
fn show_at(mut shown: Vec<Shown>, at: usize, entry: Shown) -> Vec<Shown>
    requires { at < length shown.items }
    ensures { result.items ≡ set shown.items at entry }
{
    shown[at] = entry;
    shown
}

/// Releases the lease that is shown at this number, and tells there whether it was left.
fn release_next<S: Store>(
    shown: Vec<Shown>,
    end: End,
    at: usize,
    line: u32,
    id: Id12,
    store: &mut S,
) -> Releases
    requires { at < length shown.items }
    ensures acts { Acts is_failed (S.view store.old) (S.view store.new)
        (next_play shown.items end at line id) (releases_rest result) }
    ensures works { are_left result ≡ true }
    ensures falls { releases_left result < length shown.items - at }
{
    let left = release(id, store).err();
    let shown = show_at(shown, at, Shown::Lease { line, id, left });
    release_on(shown, end, at + 1)
}

/// Whether all are done.
pub(crate) fn have_ended(releases: &Releases) -> bool
    ensures ended { IsTrue result → HasEnded (releases_rest releases.now) }
    ensures live { result ≡ false → IsLive (releases_rest releases.now) }
{
    match releases {
        Releases::Next { .. } => false,
        Releases::Ended { .. } => true,
    }
}

/// What the task showed and how it ended, where all are done.
pub(crate) fn outcome_of(releases: Releases) -> Outcome
    requires { HasEnded (releases_rest releases) }
    ensures { releases_rest releases ≡ Ended result }
{
    match releases {
        Releases::Next { .. } => unreachable!(),
        Releases::Ended { outcome } => outcome,
    }
}

/// One release.
pub(crate) fn step_releasing<S: Store>(releases: Releases, store: &mut S) -> Releases
    requires live { IsLive (releases_rest releases) }
    requires works { are_left releases ≡ true }
    ensures acts { Acts is_failed (S.view store.old) (S.view store.new) (releases_rest releases)
        (releases_rest result) }
    ensures works { are_left result ≡ true }
    ensures falls { releases_left result < releases_left releases }
{
    match releases {
        Releases::Next {
            shown,
            end,
            at,
            line,
            id,
        } => release_next(shown, end, at, line, id, store),
        Releases::Ended { .. } => unreachable!(),
    }
}
