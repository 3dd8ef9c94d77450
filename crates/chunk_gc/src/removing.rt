//! The steps of a collection.

ghost use Rattle.std.specs.Prelude.{◌≡◌, ◌<◌, ◌≤◌, ◌+◌, ◌^◌, true, false, length, Result, Ok, Err, IfOk, IsTrue};
ghost use Rattle.object_store.specs.declared.events.Op.TheVariants as Op;
ghost use Rattle.object_store.specs.declared.keys.Why.TheVariants as Why;
ghost use Rattle.store_api.specs.Callers.{MayCall};
ghost use Rattle.store_api.specs.Program.{IsAsk, is_ask};
ghost use Rattle.store_api.specs.Plays.{Ask, Comes, Acts, IsLive, PlayIsPolite, call};
ghost use Rattle.chunk_gc.specs.Plays.{nothing, counted, sweep, ends_with, after_removal, after_marking, tells_failure};
ghost use Rattle.chunk_gc.specs.inside.Working.{many, mark_rest, mark_left};
ghost use Rattle.chunk_gc.specs.inside.Collecting.{collecting_rest, collecting_left, removing_rest, removal_rest, settled, answers_well, faults, total, is_standing, Blamed};

use crate::mark::Mark;
use crate::queue::Keys;
use crate::standing::{Collected, Collecting};
use cleanup_reports::Removed;
use store_api::{Gone, Key, Next, Refusal, Store, StoreFault, Why};

/// No objects.
pub(crate) const NOTHING: Removed = Removed {
    snapshots: 0,
    logs: 0,
    manifests: 0,
    chunks: 0,
};

/// One step of a collection that stands here.
pub(crate) fn step_on<S: Store>(state: Collecting, store: &mut S) -> Collecting
    requires live { IsLive (collecting_rest state) }
    requires stands { is_standing state ≡ true }
    requires polite { IsTrue (S.view store.old).caller.tells
        → PlayIsPolite (collecting_rest state) (S.view store.old).seen }
    ensures acts { Acts tells_failure (S.view store.old) (S.view store.new) (collecting_rest state)
        (collecting_rest result) }
    ensures stands { is_standing result ≡ true }
    ensures falls { collecting_left result < collecting_left state }
{
    match state {
        Collecting::Marking(mark) => step_marking(mark, store),
        Collecting::Removing { key, keys, removed } => step_removing(&key, keys, removed, store),
        Collecting::Ended(_) => unreachable!(),
    }
}

/// One step of the marking.
fn step_marking<S: Store>(mut mark: Mark, store: &mut S) -> Collecting
    requires { is_ask (mark_rest mark) ≡ true }
    ensures acts { Acts tells_failure (S.view store.old) (S.view store.new)
        (call (mark_rest mark) (after_marking nothing)) (collecting_rest result) }
    ensures stands { is_standing result ≡ true }
    ensures falls { collecting_left result < many + mark_left mark }
{
    let answer = mark.step(store);
    after_step(mark, answer)
}

/// Where a collection stands behind a step of the marking.
fn after_step(mark: Mark, answer: Result<Next<Keys>, Refusal>) -> Collecting
    requires { answers_well (is_ask (mark_rest mark)) answer ≡ true }
    ensures comes { Comes (settled (after_marking nothing) (mark_rest mark) answer)
        (collecting_rest result) }
    ensures blames { Blamed (faults answer) (collecting_rest result) }
    ensures stands { is_standing result ≡ true }
    ensures falls { collecting_left result ≤ many + mark_left mark }
{
    match answer {
        Ok(Next::Again) => Collecting::Marking(mark),
        Ok(Next::Ready(keys)) => begin_removing(keys),
        Err(why) => Collecting::Ended(Collected {
            removed: NOTHING,
            result: Err(why),
        }),
    }
}

/// Where a collection stands with these keys to be removed.
fn begin_removing(keys: Keys) -> Collecting
    ensures comes { Comes (sweep keys nothing) (collecting_rest result) }
    ensures blames { Blamed false (collecting_rest result) }
    ensures stands { is_standing result ≡ true }
    ensures falls { collecting_left result < many }
{
    let _few = keys.len();
    next_removal(keys, NOTHING)
}

/// Goes on with the next key, and ends behind the last one.
fn next_removal(mut keys: Keys, removed: Removed) -> Collecting
    requires { total removed + length keys < 2 ^ 64 }
    ensures comes { Comes (sweep keys removed) (collecting_rest result) }
    ensures blames { Blamed false (collecting_rest result) }
    ensures stands { is_standing result ≡ true }
    ensures falls { collecting_left result ≤ length keys }
{
    match keys.take() {
        None => Collecting::Ended(Collected {
            removed,
            result: Ok(()),
        }),
        Some(key) => Collecting::Removing { key, keys, removed },
    }
}

/// Removes a key.
fn step_removing<S: Store>(key: &Key, keys: Keys, removed: Removed, store: &mut S) -> Collecting
    requires fits { total removed + length keys + 1 < 2 ^ 64 }
    requires polite { MayCall (S.view store.old) (Op.Remove key.now Why.Collect) }
    ensures acts { Acts tells_failure (S.view store.old) (S.view store.new)
        (removing_rest key.now keys removed) (collecting_rest result) }
    ensures stands { is_standing result ≡ true }
    ensures falls { collecting_left result < length keys + 1 }
{
    let answer = store.remove(key, Why::Collect);
    after_removing(key, keys, removed, answer)
}

/// Where a collection stands behind the answer to a removal.
fn after_removing(
    key: &Key,
    keys: Keys,
    removed: Removed,
    answer: Result<Gone, StoreFault>,
) -> Collecting
    requires { total removed + length keys + 1 < 2 ^ 64 }
    ensures comes { Comes (removal_rest key.now keys removed answer) (collecting_rest result) }
    ensures blames { IfOk answer (λ _. Blamed false (collecting_rest result)) }
    ensures stands { is_standing result ≡ true }
    ensures falls { collecting_left result < length keys + 1 }
{
    match answer {
        Ok(Gone::Done { now: _ }) => next_removal(keys, with_one_more(removed, key)),
        Ok(Gone::Absent { now: _ }) => next_removal(keys, removed),
        Err(StoreFault::Failed) => Collecting::Ended(Collected {
            removed,
            result: Err(Refusal::StoreFault),
        }),
        Err(StoreFault::NoMemory) => Collecting::Ended(Collected {
            removed,
            result: Err(Refusal::NoMemory),
        }),
    }
}

/// With one more removal of such a key.
fn with_one_more(mut removed: Removed, key: &Key) -> Removed
    requires { total removed + 1 < 2 ^ 64 }
    ensures counted { result ≡ counted key.now removed }
    ensures few { total result ≤ total removed + 1 }
{
    match key {
        Key::Snapshot(_) => removed.snapshots += 1,
        Key::Txn(_) => removed.logs += 1,
        Key::Manifest(_) => removed.manifests += 1,
        Key::Chunk(_) => removed.chunks += 1,
        Key::Branch(_) | Key::Tag(_) | Key::Tombstone(_) | Key::Lease(_) => {}
    }
    removed
}
