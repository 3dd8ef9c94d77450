//! The machine that reads of one ref what an expiry has to know.

ghost use Rattle.std.specs.Prelude.{◌≡◌, ◌<◌, ◌≤◌, ◌+◌, ◌-◌, if◌then◌else◌, IfErr, Ok, false};
ghost use Rattle.object_store.specs.declared.events.Op.TheVariants as Op;
ghost use Rattle.store_api.specs.Callers.{Fits};
ghost use Rattle.store_api.specs.Program.{IsAsk, Done, Lands, Steps, is_fault};
ghost use Rattle.store_api.specs.Driving.{Awaits, Took};
ghost use Rattle.expiry.specs.Verdicts.{is_older};
ghost use Rattle.expiry.specs.Looks.{most_below, next_of, cuts, look_below, look_head, look_named, look_program, MayRefuseLook};
ghost use Rattle.expiry.specs.inside.Looking.{look_rest, look_left, look_most, below_rest, head_rest, DropsRef, LookKeeps};

use crate::cutting::{cut, is_older, may_drop, next_of};
use crate::telling::{ref_seen, snapshot_seen};
use crate::terms::Terms;
use ice_base::Bytes;
use ice_ids::Id12;
use repo_objects::Loaded;
use repo_read::Resolved;
use std::alloc::{AllocError, Global};
use std::mem;
use store_api::{Key, Machine, Next, Refusal, Reply, Request, Store, Version, drive};

/// What is to be done with a ref.
#[derive(Debug, Drop)]
pub enum Decision {
    /// It was gone.
    Gone,
    /// It stays as it is.
    Keeps,
    /// It is dropped, as it stood at this version.
    Drops {
        version: Version,
    },
    /// Its history is cut: this snapshot, as it stood at this version, is put over with these bytes.
    Cuts {
        id: Id12,
        version: Version,
        bytes: Bytes,
    },
}

/// A snapshot, and the version at which it was read.
#[derive(Drop)]
pub struct Seen {
    pub file: Loaded,
    pub version: Version,
}

/// A walk along parents.
#[derive(Drop)]
pub struct Walk {
    /// The last snapshot that was read.
    last: Seen,
    /// How many may still be read.
    left: u32,
    /// Its parent, which is got next.
    next: Id12,
}

/// The operation that comes next.
#[derive(Drop)]
pub enum Looking {
    /// The ref is got.
    Ref,
    /// The snapshot is got that the ref names.
    Head(Resolved),
    /// A parent is got.
    Below(Walk),
    /// The machine has ended.
    Ended,
}

/// A machine that reads a ref, the snapshot that it names, and that one's parents, down to the first that was flushed before
/// the cutoff, and answers what is to be done with the ref. It changes nothing, and holds one snapshot between two operations.
/// It may answer `Missing`, `BadFile`, `TooDeep` (where it has read 65,536 snapshots, and there is a further one), `TooLarge`
/// (where the file of a cut would be longer than a file may be), `StoreFault` or `NoMemory` instead.
#[derive(Drop)]
pub struct Look {
    alloc: Global,
    terms: Terms,
    key: Key,
    state: Looking,
}

/// One fewer than the snapshots that are read of a history at most.
const MOST_BELOW: u32 = 65_535;

impl Machine for Look {
    type Answer = Decision;

    ghost rest = { look_rest };

    ghost left = { look_left };

    ghost keeps = { LookKeeps };

    ghost may_refuse = { MayRefuseLook };

    fn request(&self) -> Result<Request<'_>, AllocError> {
        match &self.state {
            Looking::Ref => Ok(Request::Get {
                key: self.key.copy(self.alloc)?,
            }),
            Looking::Head(named) => Ok(Request::Get {
                key: Key::Snapshot(named.id),
            }),
            Looking::Below(walk) => Ok(Request::Get {
                key: Key::Snapshot(walk.next),
            }),
            Looking::Ended => unreachable!(),
        }
    }

    fn answer(&mut self, reply: Reply) -> Result<Next<Decision>, Refusal> {
        let state = mem::replace(&mut self.state, Looking::Ended);
        match state {
            Looking::Ref => self.on_ref(reply),
            Looking::Head(named) => self.on_head(named, reply),
            Looking::Below(walk) => self.on_below(walk, reply),
            Looking::Ended => unreachable!(),
        }
    }

    fn stop(&mut self) {
        self.state = Looking::Ended;
    }

    ghost may_starve = { tt };
}

impl Look {
    /// Before its first operation. It takes no memory.
    pub fn new(alloc: Global, terms: Terms, key: Key) -> Look
        ensures program { look_rest result ≡ look_program terms key }
        ensures key { result.key ≡ key }
        ensures few { look_left result ≤ look_most }
    {
        Look {
            alloc,
            terms,
            key,
            state: Looking::Ref,
        }
    }

    /// The ref.
    pub fn into_key(self) -> Key
        ensures { result ≡ self.key }
    {
        self.key
    }

    /// One operation of the store.
    pub fn step<S: Store>(&mut self, store: &mut S) -> Result<Next<Decision>, Refusal>
        requires { IsAsk (look_rest self.old) }
        ensures step { Steps (S.view store.old) (S.view store.new) (look_rest self.old)
            (look_rest self.new) result }
        ensures falls { look_left self.new < look_left self.old }
        ensures kept { LookKeeps result self.old self.new }
        ensures listed { IfErr result MayRefuseLook }
    {
        drive(self, store)
    }

    /// Puts the next state where the machine has ended.
    fn go_to(&mut self, next: Looking) -> Next<Decision>
        requires { self.old.state ≡ Looking.Ended }
        ensures again { result ≡ Next.Again }
        ensures state { self.new ≡ record self.old { state = next } }
    {
        match mem::replace(&mut self.state, next) {
            Looking::Ended => Next::Again,
            _ => unreachable!(),
        }
    }

    fn on_ref(&mut self, reply: Reply) -> Result<Next<Decision>, Refusal>
        requires ended { self.old.state ≡ Looking.Ended }
        requires fits { Fits (Op.Get self.old.key) reply }
        ensures took { Took (look_program self.old.terms self.old.key) reply (look_rest self.new)
            result }
        ensures falls { look_left self.new < look_most }
        ensures kept { LookKeeps result self.old self.new }
        ensures listed { IfErr result MayRefuseLook }
    {
        match ref_seen(self.alloc, &self.key, reply) {
            Ok(named) => Ok(self.after_ref(named)),
            Err(why) => Err(why),
        }
    }

    /// Goes on with the snapshot that the ref names, if the ref is there.
    fn after_ref(&mut self, named: Option<Resolved>) -> Next<Decision>
        requires { self.old.state ≡ Looking.Ended }
        ensures lands { Lands (look_named self.old.terms self.old.key named) (look_rest self.new)
            (Ok result) }
        ensures falls { look_left self.new < look_most }
        ensures kept { LookKeeps (Ok result) self.old self.new }
    {
        match named {
            None => Next::Ready(Decision::Gone),
            Some(named) => self.go_to(Looking::Head(named)),
        }
    }

    fn on_head(&mut self, named: Resolved, reply: Reply) -> Result<Next<Decision>, Refusal>
        requires ended { self.old.state ≡ Looking.Ended }
        requires fits { Fits (Op.Get (Key.Snapshot named.id)) reply }
        ensures took { Took (head_rest self.old.terms self.old.key named) reply (look_rest self.new)
            result }
        ensures falls { look_left self.new < most_below + 1 }
        ensures kept { LookKeeps result self.old self.new }
        ensures listed { IfErr result MayRefuseLook }
    {
        match snapshot_seen(self.alloc, named.id, reply) {
            Ok(seen) => self.after_head(named.version, seen),
            Err(why) => Err(why),
        }
    }

    /// A ref that names an old snapshot is dropped, where it may be. Otherwise the walk goes on.
    fn after_head(&mut self, version: Version, head: Seen) -> Result<Next<Decision>, Refusal>
        requires { self.old.state ≡ Looking.Ended }
        ensures lands { Lands (look_head self.old.terms self.old.key version head)
            (look_rest self.new) result }
        ensures falls { look_left self.new < most_below + 1 }
        ensures kept { LookKeeps result self.old self.new }
        ensures calm { IfErr result (λ why. is_fault why ≡ false) }
        ensures listed { IfErr result MayRefuseLook }
    {
        if may_drop(self.terms, &self.key) && is_older(self.terms.cutoff, &head.file) {
            return Ok(Next::Ready(Decision::Drops { version }));
        }
        self.walk_on(head, MOST_BELOW)
    }

    /// Goes on with the parent of the last snapshot that was read, if there is one and it may be read.
    fn walk_on(&mut self, last: Seen, left: u32) -> Result<Next<Decision>, Refusal>
        requires { self.old.state ≡ Looking.Ended }
        ensures lands { Lands (look_below left self.old.terms.cutoff last (next_of last.file))
            (look_rest self.new) result }
        ensures falls { look_left self.new ≤ left }
        ensures kept { LookKeeps result self.old self.new }
        ensures calm { IfErr result (λ why. is_fault why ≡ false) }
        ensures listed { IfErr result MayRefuseLook }
    {
        match next_of(&last.file) {
            None => Ok(Next::Ready(Decision::Keeps)),
            Some(next) => {
                if left == 0 {
                    return Err(Refusal::TooDeep);
                }
                Ok(self.go_to(Looking::Below(Walk { last, left, next })))
            }
        }
    }

    fn on_below(&mut self, walk: Walk, reply: Reply) -> Result<Next<Decision>, Refusal>
        requires ended { self.old.state ≡ Looking.Ended }
        requires awaited { Awaits (below_rest self.old.terms walk) reply }
        ensures took { Took (below_rest self.old.terms walk) reply (look_rest self.new) result }
        ensures falls { look_left self.new < walk.left }
        ensures kept { LookKeeps result self.old self.new }
        ensures listed { IfErr result MayRefuseLook }
    {
        match snapshot_seen(self.alloc, walk.next, reply) {
            Ok(seen) => self.after_below(walk, seen),
            Err(why) => Err(why),
        }
    }

    /// Where a parent is old, the history is cut above it. Otherwise the walk goes on.
    fn after_below(&mut self, walk: Walk, seen: Seen) -> Result<Next<Decision>, Refusal>
        requires ended { self.old.state ≡ Looking.Ended }
        requires left { 0 < walk.left }
        ensures lands { Lands (if is_older self.old.terms.cutoff seen.file then Done
            (cuts walk.last) else look_below (walk.left - 1) self.old.terms.cutoff seen
            (next_of seen.file)) (look_rest self.new) result }
        ensures falls { look_left self.new < walk.left }
        ensures kept { LookKeeps result self.old self.new }
        ensures calm { IfErr result (λ why. is_fault why ≡ false) }
        ensures listed { IfErr result MayRefuseLook }
    {
        if !is_older(self.terms.cutoff, &seen.file) {
            return self.walk_on(seen, walk.left - 1);
        }
        match cut(self.alloc, &walk.last) {
            Ok(decision) => Ok(Next::Ready(decision)),
            Err(why) => Err(why),
        }
    }
}
