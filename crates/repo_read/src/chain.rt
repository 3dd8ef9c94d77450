//! The machine that walks along parents.

ghost use Rattle.std.specs.Prelude.{◌≡◌, ◌<◌, ◌≤◌, ◌-◌, ◌++◌, ◌∷◌, [], None, false, IfErr};
ghost use Rattle.store_api.specs.Program.{IsAsk, Lands, Steps, is_fault};
ghost use Rattle.repo_read.specs.Chains.{chain_program, most_snapshots, MayRefuseChain};
ghost use Rattle.repo_read.specs.inside.Working.{chain_rest, chain_left, walk_behind};

use crate::answers::snapshot_told;
use ice_ids::Id12;
use ice_items::Items;
use repo_objects::Loaded;
use std::alloc::{AllocError, Global};
use std::mem;
use store_api::{Key, Machine, Next, Refusal, Reply, Request, Store, drive};

/// The most snapshots that a walk reads. (Own.)
pub const MOST_SNAPSHOTS: u32 = 65_536;

/// A machine that reads the snapshots from one along the parents, down to the one without a parent. It may answer `Missing`,
/// `BadFile`, `TooDeep` (where it has read [`MOST_SNAPSHOTS`] without that end), `StoreFault` or `NoMemory` instead.
#[derive(Drop)]
pub struct Chain {
    alloc: Global,
    seen: Items<Loaded>,
    next: Option<Id12>,
    left: u32,
}

impl Machine for Chain {
    type Answer = Items<Loaded>;

    ghost rest = { chain_rest };

    ghost left = { chain_left };

    ghost keeps = { λ result old new. Unit {0} };

    ghost may_refuse = { MayRefuseChain };

    fn request(&self) -> Result<Request<'_>, AllocError> {
        let Some(id) = self.next else { unreachable!() };
        Ok(Request::Get {
            key: Key::Snapshot(id),
        })
    }

    fn answer(&mut self, reply: Reply) -> Result<Next<Items<Loaded>>, Refusal> {
        let Some(id) = self.next.take() else {
            unreachable!()
        };
        let loaded = snapshot_told(self.alloc, id, reply)?;
        self.on_snapshot(loaded)
    }

    fn stop(&mut self) {
        self.next = None;
    }

    ghost may_starve = { tt };
}

impl Chain {
    /// Before its first operation, which reads this snapshot.
    pub fn new(alloc: Global, from: Id12) -> Chain
        ensures rest { chain_rest result ≡ chain_program from }
        ensures few { chain_left result ≤ most_snapshots }
    {
        Chain {
            alloc,
            seen: Items::new(alloc),
            next: Some(from),
            left: MOST_SNAPSHOTS,
        }
    }

    /// One operation of the store.
    pub fn step<S: Store>(&mut self, store: &mut S) -> Result<Next<Items<Loaded>>, Refusal>
        requires { IsAsk (chain_rest self.old) }
        ensures step { Steps (S.view store.old) (S.view store.new) (chain_rest self.old)
            (chain_rest self.new) result }
        ensures falls { chain_left self.new < chain_left self.old }
        ensures listed { IfErr result MayRefuseChain }
    {
        drive(self, store)
    }

    /// Goes on with the parent of a snapshot that was read.
    fn on_snapshot(&mut self, loaded: Loaded) -> Result<Next<Items<Loaded>>, Refusal>
        requires left { 0 < self.old.left }
        requires ended { self.old.next ≡ None }
        ensures lands { Lands (walk_behind (self.old.left - 1) (self.old.seen ++ loaded ∷ [])
            loaded.parent) (chain_rest self.new) result }
        ensures falls { chain_left self.new < self.old.left }
        ensures faultless { IfErr result (λ refusal. is_fault refusal ≡ false) }
        ensures listed { IfErr result MayRefuseChain }
    {
        let parent = loaded.file().parent();
        let Ok(()) = self.seen.push(loaded) else {
            return Err(Refusal::NoMemory);
        };
        let Some(id) = parent else {
            let seen = mem::replace(&mut self.seen, Items::new(self.alloc));
            return Ok(Next::Ready(seen));
        };
        self.left -= 1;
        if self.left == 0 {
            return Err(Refusal::TooDeep);
        }
        self.next = Some(id);
        Ok(Next::Again)
    }
}
