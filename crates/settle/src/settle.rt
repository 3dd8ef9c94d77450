//! The machine that settles a doubt.

ghost use Rattle.std.specs.Prelude.{◌≡◌, ◌<◌, ◌≤◌, ◌+◌, ◌-◌, IfErr};
ghost use Rattle.repo_read.specs.Chains.{most_snapshots};
ghost use Rattle.store_api.specs.Program.{IsAsk, Lands, Steps};
ghost use Rattle.store_api.specs.Driving.{Awaits, Took, op_of};
ghost use Rattle.object_store.specs.declared.events.Op.TheVariants as Op;
ghost use Rattle.store_api.specs.declared.machines.Refusal.TheVariants as Refusal;
ghost use Rattle.settle.specs.Settling.{met, settle_program, unless_met, MayRefuseSettle};
ghost use Rattle.settle.specs.inside.Working.{settle_rest, settle_left, way_behind, way_rest};

use ice_base::RefName;
use ice_ids::Id12;
use repo_read::{MOST_SNAPSHOTS, ref_told, snapshot_told};
use std::alloc::{AllocError, Global};
use std::mem;
use store_api::{Key, Machine, Next, Refusal, Reply, Request, Store, drive};

/// A commit in doubt: the put of its branch failed, and may have been done.
#[derive(Clone, Copy, Debug)]
pub struct Doubt {
    /// The snapshot that it put.
    pub snapshot: Id12,
    /// The base of its session, which is that snapshot's parent.
    pub base: Id12,
}

/// What the chain tells that a branch names.
#[derive(Clone, Copy, Debug, PartialEq, Eq)]
pub enum Settled {
    /// The commit's snapshot is on it.
    Committed,
    /// The base is on it, and the snapshot isn't above that.
    NotCommitted,
    /// Neither of the two is on it.
    NotAncestor {
        /// The snapshot that the branch names.
        head: Id12,
    },
}

/// The way from the snapshot that a branch names along the parents.
#[derive(Clone, Copy)]
pub struct Way {
    /// The snapshot that the branch names.
    head: Id12,
    /// The snapshot that is got next.
    next: Id12,
    /// How many may still be read.
    left: u32,
}

/// The operation that comes next.
#[derive(Drop)]
pub enum Settling {
    /// The branch of this name is got.
    Branch(RefName),
    /// A snapshot is got, which is neither the commit's nor its base.
    Chain(Way),
    /// The machine has ended.
    Ended,
}

/// A machine that settles a doubt: it gets the branch, and then the snapshots from the one that it names along the parents, up to
/// the commit's snapshot or its base, of which it gets neither. It holds no snapshot. It may answer `NoRef`, `Missing`,
/// `TooDeep` (where it has read [`MOST_SNAPSHOTS`] without that end), `BadFile`, `StoreFault` or `NoMemory` instead.
#[derive(Drop)]
pub struct Settle {
    alloc: Global,
    doubt: Doubt,
    state: Settling,
}

impl Doubt {
    /// What is told where this snapshot is on the chain, if it is one of the two.
    fn met(&self, id: Id12) -> Option<Settled>
        ensures { result ≡ met self.now id }
    {
        if id == self.snapshot {
            Some(Settled::Committed)
        } else if id == self.base {
            Some(Settled::NotCommitted)
        } else {
            None
        }
    }
}

impl Way {
    /// The get that comes next.
    fn request(&self) -> Request<'_>
        ensures { op_of result ≡ Op.Get (Key.Snapshot self.now.next) }
    {
        Request::Get {
            key: Key::Snapshot(self.next),
        }
    }
}

impl Machine for Settle {
    type Answer = Settled;

    ghost rest = { settle_rest };

    ghost left = { settle_left };

    ghost keeps = { λ result old new. Unit {0} };

    ghost may_refuse = { MayRefuseSettle };

    fn request(&self) -> Result<Request<'_>, AllocError> {
        match &self.state {
            Settling::Branch(name) => Ok(Request::Get {
                key: Key::Branch(name.copy(self.alloc)?),
            }),
            Settling::Chain(way) => Ok(way.request()),
            Settling::Ended => unreachable!(),
        }
    }

    fn answer(&mut self, reply: Reply) -> Result<Next<Settled>, Refusal> {
        let state = mem::replace(&mut self.state, Settling::Ended);
        match state {
            Settling::Branch(name) => self.on_branch(&name, reply),
            Settling::Chain(way) => self.on_chain(way, reply),
            Settling::Ended => unreachable!(),
        }
    }

    fn stop(&mut self) {
        self.state = Settling::Ended;
    }

    ghost may_starve = { tt };
}

impl Settle {
    /// Before its first operation. It takes no memory.
    pub fn new(alloc: Global, branch: RefName, doubt: Doubt) -> Settle
        ensures program { settle_rest result ≡ settle_program branch doubt }
        ensures few { settle_left result ≤ 65537 }
    {
        Settle {
            alloc,
            doubt,
            state: Settling::Branch(branch),
        }
    }

    /// One operation of the store.
    pub fn step<S: Store>(&mut self, store: &mut S) -> Result<Next<Settled>, Refusal>
        requires { IsAsk (settle_rest self.old) }
        ensures step { Steps (S.view store.old) (S.view store.new) (settle_rest self.old)
            (settle_rest self.new) result }
        ensures falls { settle_left self.new < settle_left self.old }
        ensures listed { IfErr result MayRefuseSettle }
    {
        drive(self, store)
    }

    /// Begins the way at the snapshot that the branch names.
    fn on_branch(&mut self, branch: &RefName, reply: Reply) -> Result<Next<Settled>, Refusal>
        requires ended { self.old.state ≡ Settling.Ended }
        requires awaited { Awaits (settle_program branch.now self.old.doubt) reply }
        ensures took { Took (settle_program branch.now self.old.doubt) reply (settle_rest self.new)
            result }
        ensures falls { settle_left self.new < most_snapshots + 1 }
        ensures listed { IfErr result MayRefuseSettle }
    {
        let read = ref_told(self.alloc, branch, reply)?;
        self.onto(Way {
            head: read.id,
            next: read.id,
            left: MOST_SNAPSHOTS,
        })
    }

    /// Goes on with the parent of the snapshot that was got.
    fn on_chain(&mut self, way: Way, reply: Reply) -> Result<Next<Settled>, Refusal>
        requires ended { self.old.state ≡ Settling.Ended }
        requires awaited { Awaits (way_rest self.old.doubt way) reply }
        ensures took { Took (way_rest self.old.doubt way) reply (settle_rest self.new) result }
        ensures falls { settle_left self.new < way.left }
        ensures listed { IfErr result MayRefuseSettle }
    {
        let loaded = snapshot_told(self.alloc, way.next, reply)?;
        self.on_parent(way, loaded.file().parent())
    }

    /// Behind a snapshot with this parent.
    fn on_parent(&mut self, way: Way, parent: Option<Id12>) -> Result<Next<Settled>, Refusal>
        requires left { 0 < way.left }
        requires ended { self.old.state ≡ Settling.Ended }
        ensures lands { Lands (way_behind self.old.doubt way.head (way.left - 1) parent)
            (settle_rest self.new) result }
        ensures falls { settle_left self.new < way.left }
        ensures refused { IfErr result (λ refusal. refusal ≡ Refusal.TooDeep) }
    {
        match parent {
            Some(next) => self.onto(Way {
                head: way.head,
                next,
                left: way.left - 1,
            }),
            None => Ok(Next::Ready(Settled::NotAncestor { head: way.head })),
        }
    }

    /// Where a ref or a snapshot names the next one: it is one of the two, or it is got next, if one more may be read.
    fn onto(&mut self, way: Way) -> Result<Next<Settled>, Refusal>
        requires ended { self.old.state ≡ Settling.Ended }
        ensures lands { Lands
            (unless_met (met self.old.doubt way.next) (way_rest self.old.doubt way))
            (settle_rest self.new) result }
        ensures falls { settle_left self.new ≤ way.left }
        ensures refused { IfErr result (λ refusal. refusal ≡ Refusal.TooDeep) }
    {
        if let Some(settled) = self.doubt.met(way.next) {
            return Ok(Next::Ready(settled));
        }
        if way.left == 0 {
            return Err(Refusal::TooDeep);
        }
        put_back(&mut self.state, Settling::Chain(way));
        Ok(Next::Again)
    }
}

/// Puts the next state where the machine has ended.
fn put_back(state: &mut Settling, next: Settling)
    requires { state.old ≡ Settling.Ended }
    ensures { state.new ≡ next }
{
    match mem::replace(state, next) {
        Settling::Ended => {}
        _ => unreachable!(),
    }
}
