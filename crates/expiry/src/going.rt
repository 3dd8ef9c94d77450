//! The steps of an expiry.

ghost use Rattle.std.specs.Prelude.{◌≡◌, ◌<◌, ◌≤◌, ◌+◌, true, false, length, Result, Ok, Err, IfOk, IsTrue};
ghost use Rattle.object_store.specs.declared.events.Op.TheVariants as Op;
ghost use Rattle.object_store.specs.declared.keys.Why.TheVariants as Why;
ghost use Rattle.store_api.specs.Callers.{Called, MayCall, Fits};
ghost use Rattle.store_api.specs.Driving.{has_failed, op_of};
ghost use Rattle.store_api.specs.Program.{is_ask};
ghost use Rattle.store_api.specs.Plays.{Comes, Acts, IsLive, PlayIsPolite, call};
ghost use Rattle.expiry.specs.Plays.{ends_with, after_look, drop_op, drop_told, cut_told, decide, tells_failure};
ghost use Rattle.expiry.specs.inside.Looking.{look_rest, look_left, may_decide, DropsRef, is_ref};
ghost use Rattle.expiry.specs.inside.Registers.{part_of};
ghost use Rattle.expiry.specs.inside.Expiring.{refs_rest, case_rest, listing_rest, expiring_rest, refs_left, listing_left, expiring_left, behind_left, is_standing, settled, answers_well, faults, Blamed, heard, listed_rest};
ghost use Rattle.expiry.specs.declared.look.Decision.TheVariants as decision;

use crate::look::{Decision, Look};
use crate::register::{Phase, Register, Turn, Turns};
use crate::standing::{Cut, Expired, Expiring};
use crate::telling::{cut_heard, drop_heard, listed_heard};
use crate::terms::Terms;
use cleanup_reports::What;
use std::alloc::Global;
use store_api::{
    Key, Listed, Next, Payload, Refusal, Reply, Request, Store, StoreFault, Version, Why, perform,
};

/// One step of an expiry that stands here.
pub(crate) fn step_on<S: Store>(
    alloc: Global,
    terms: Terms,
    state: Expiring,
    store: &mut S,
) -> Expiring
    requires live { IsLive (expiring_rest terms state) }
    requires stands { is_standing state ≡ true }
    requires polite { IsTrue (S.view store.old).caller.tells
        → PlayIsPolite (expiring_rest terms state) (S.view store.old).seen }
    ensures acts { Acts tells_failure (S.view store.old) (S.view store.new)
        (expiring_rest terms state) (expiring_rest terms result) }
    ensures stands { is_standing result ≡ true }
    ensures falls { expiring_left result < expiring_left state }
{
    match state {
        Expiring::Listing(refs) => step_listing(alloc, terms, refs, store),
        Expiring::Looking { look, turn } => step_looking(alloc, terms, look, turn, store),
        Expiring::Dropping { key, version, turn } => {
            step_dropping(alloc, terms, key, version, turn, store)
        }
        Expiring::Cutting { cut, turn } => step_cutting(alloc, terms, cut, turn, store),
        Expiring::Ended(_) => unreachable!(),
    }
}

/// Lists a part.
fn step_listing<S: Store>(alloc: Global, terms: Terms, refs: Register, store: &mut S) -> Expiring
    ensures acts { Acts tells_failure (S.view store.old) (S.view store.new)
        (listing_rest terms refs) (expiring_rest terms result) }
    ensures stands { is_standing result ≡ true }
    ensures falls { expiring_left result < listing_left refs }
{
    let answer = perform(store, &Request::List { part: refs.part() });
    after_listing(alloc, terms, refs, listed_heard(answer))
}

/// Where an expiry stands behind the answer to a listing.
fn after_listing(
    alloc: Global,
    terms: Terms,
    refs: Register,
    listed: Result<Listed, Refusal>,
) -> Expiring
    ensures comes { Comes (listed_rest terms refs listed) (expiring_rest terms result) }
    ensures blames { Blamed (faults listed) (expiring_rest terms result) }
    ensures stands { is_standing result ≡ true }
    ensures falls { expiring_left result < listing_left refs }
{
    match listed {
        Ok(listed) => enter_refs(alloc, terms, refs, &listed),
        Err(why) => Expiring::Ended(Expired {
            cases: refs.into_cases(),
            result: Err(why),
        }),
    }
}

/// Takes the room for the cases of the refs of a listing, and goes on with the first.
fn enter_refs(alloc: Global, terms: Terms, mut refs: Register, listed: &Listed) -> Expiring
    ensures comes { Comes (listed_rest terms refs (Ok listed.entry.now))
        (expiring_rest terms result) }
    ensures blames { Blamed false (expiring_rest terms result) }
    ensures stands { is_standing result ≡ true }
    ensures falls { expiring_left result < listing_left refs }
{
    match refs.enter(alloc, listed.entries.as_slice()) {
        Ok(()) => next_ref(alloc, terms, refs),
        Err(_) => Expiring::Ended(Expired {
            cases: refs.into_cases(),
            result: Err(Refusal::NoMemory),
        }),
    }
}

/// Goes on with the next ref, behind the last branch with the tags, and ends behind the last tag.
fn next_ref(alloc: Global, terms: Terms, refs: Register) -> Expiring
    ensures comes { Comes (refs_rest terms refs) (expiring_rest terms result) }
    ensures blames { Blamed false (expiring_rest terms result) }
    ensures stands { is_standing result ≡ true }
    ensures falls { expiring_left result ≤ refs_left refs }
{
    match refs.take() {
        Turns::Next { key, turn } => Expiring::Looking {
            look: Look::new(alloc, terms, key),
            turn,
        },
        Turns::Over(refs) => match refs.phase() {
            Phase::Branches => Expiring::Listing(refs.to_tags()),
            Phase::Tags => Expiring::Ended(Expired {
                cases: refs.into_cases(),
                result: Ok(()),
            }),
        },
    }
}

/// Makes one step of a look.
fn step_looking<S: Store>(
    alloc: Global,
    terms: Terms,
    mut look: Look,
    turn: Turn,
    store: &mut S,
) -> Expiring
    requires { is_ask (look_rest look) ≡ true }
    ensures acts { Acts tells_failure (S.view store.old) (S.view store.new)
        (call (look_rest look) (after_look look.key (case_rest terms look.key turn)))
        (expiring_rest terms result) }
    ensures stands { is_standing result ≡ true }
    ensures falls { expiring_left result < look_left look + 2 + refs_left turn }
{
    let answer = look.step(store);
    after_step(alloc, terms, look, turn, answer)
}

/// Where an expiry stands behind a step of a look.
fn after_step(
    alloc: Global,
    terms: Terms,
    look: Look,
    turn: Turn,
    answer: Result<Next<Decision>, Refusal>,
) -> Expiring
    requires live { answers_well (is_ask (look_rest look)) answer ≡ true }
    requires drops { DropsRef look.key answer }
    ensures comes { Comes (settled (after_look look.key (case_rest terms look.key turn))
        (look_rest look) answer) (expiring_rest terms result) }
    ensures blames { Blamed (faults answer) (expiring_rest terms result) }
    ensures stands { is_standing result ≡ true }
    ensures falls { expiring_left result ≤ look_left look + 2 + refs_left turn }
{
    match answer {
        Ok(Next::Again) => Expiring::Looking { look, turn },
        Ok(Next::Ready(decision)) => decide(alloc, terms, look.into_key(), turn, decision),
        Err(why) => Expiring::Ended(Expired {
            cases: turn.into_cases(),
            result: Err(why),
        }),
    }
}

/// Goes on by what is to be done with a ref.
fn decide(alloc: Global, terms: Terms, key: Key, turn: Turn, decision: Decision) -> Expiring
    requires { may_decide key decision ≡ true }
    ensures comes { Comes (decide key (case_rest terms key turn) decision)
        (expiring_rest terms result) }
    ensures blames { Blamed false (expiring_rest terms result) }
    ensures stands { is_standing result ≡ true }
    ensures falls { expiring_left result ≤ 1 + refs_left turn }
{
    match decision {
        Decision::Gone => next_ref(alloc, terms, turn.tell(key, What::Absent)),
        Decision::Keeps => next_ref(alloc, terms, turn.tell(key, What::Kept)),
        Decision::Drops { version } => Expiring::Dropping { key, version, turn },
        Decision::Cuts { id, version, bytes } => Expiring::Cutting {
            cut: Cut {
                key,
                id,
                version,
                bytes,
            },
            turn,
        },
    }
}

/// Drops a ref.
fn step_dropping<S: Store>(
    alloc: Global,
    terms: Terms,
    key: Key,
    version: Version,
    turn: Turn,
    store: &mut S,
) -> Expiring
    requires drops { is_ref key ≡ true }
    requires polite { MayCall (S.view store.old) (drop_op key version) }
    ensures acts { Acts tells_failure (S.view store.old) (S.view store.new)
        (decide key (case_rest terms key turn) (decision.Drops version))
        (expiring_rest terms result) }
    ensures stands { is_standing result ≡ true }
    ensures falls { expiring_left result < 1 + refs_left turn }
{
    let answer = drop_ref(alloc, &key, version, store);
    after_deciding(alloc, terms, key, turn, drop_heard(answer))
}

/// Makes the operation that drops a ref: it removes a branch at the version that was read, and puts the tombstone of a tag.
fn drop_ref<S: Store>(
    alloc: Global,
    key: &Key,
    version: Version,
    store: &mut S,
) -> Result<Reply, StoreFault>
    requires drops { is_ref key.now ≡ true }
    requires polite { MayCall (S.view store.old) (drop_op key.now version) }
    ensures called { Called (λ reply. reply) (drop_op key.now version) result (S.view store.old)
        (S.view store.new) }
    ensures fits { IfOk result (Fits (drop_op key.now version)) }
    ensures answered { IfOk result (λ reply. has_failed reply ≡ false) }
{
    match key {
        Key::Branch(_) => Ok(Reply::GoneAt(store.remove_at(key, version, Why::Expire)?)),
        Key::Tag(name) => match name.copy(alloc) {
            Ok(name) => Ok(Reply::New(store.put_new(&Key::Tombstone(name), &[], Why::Expire)?)),
            Err(_) => Err(StoreFault::NoMemory),
        },
        Key::Snapshot(_) | Key::Manifest(_) | Key::Txn(_) | Key::Chunk(_) => unreachable!(),
        Key::Tombstone(_) | Key::Lease(_) => unreachable!(),
    }
}

/// Cuts the history of a ref.
fn step_cutting<S: Store>(
    alloc: Global,
    terms: Terms,
    cut: Cut,
    turn: Turn,
    store: &mut S,
) -> Expiring
    requires { MayCall (S.view store.old) (Op.PutOver (Key.Snapshot cut.id) cut.bytes cut.version
        Why.Expire) }
    ensures acts { Acts tells_failure (S.view store.old) (S.view store.new)
        (decide cut.key (case_rest terms cut.key turn) (decision.Cuts cut.id cut.version cut.bytes))
        (expiring_rest terms result) }
    ensures stands { is_standing result ≡ true }
    ensures falls { expiring_left result < 1 + refs_left turn }
{
    let Cut {
        key,
        id,
        version,
        bytes,
    } = cut;
    let request = Request::PutOver {
        key: Key::Snapshot(id),
        bytes: Payload::Lent(bytes.as_slice()),
        old: version,
        why: Why::Expire,
    };
    let answer = perform(store, &request);
    after_deciding(alloc, terms, key, turn, cut_heard(id, answer))
}

/// Where an expiry stands behind the operation that decided what becomes of a ref. It takes no memory.
fn after_deciding(
    alloc: Global,
    terms: Terms,
    key: Key,
    turn: Turn,
    told: Result<What, Refusal>,
) -> Expiring
    ensures comes { Comes (case_rest terms key turn told) (expiring_rest terms result) }
    ensures blames { Blamed (faults told) (expiring_rest terms result) }
    ensures stands { is_standing result ≡ true }
    ensures falls { expiring_left result < 1 + refs_left turn }
{
    match told {
        Ok(what) => next_ref(alloc, terms, turn.tell(key, what)),
        Err(why) => Expiring::Ended(Expired {
            cases: turn.into_cases(),
            result: Err(why),
        }),
    }
}
