//! The machine that reads the log of a snapshot's chain.

ghost use Rattle.std.specs.Prelude.{◌≡◌, ◌<◌, ◌≤◌, ◌+◌, ◌-◌, ◌++◌, ◌∷◌, [], false, IfErr, IfOk};
ghost use Rattle.repo_read.specs.Chains.{most_snapshots};
ghost use Rattle.store_api.specs.Program.{IsAsk, Lands, Steps, is_fault};
ghost use Rattle.store_api.specs.Driving.{Awaits, Took, op_of};
ghost use Rattle.object_store.specs.declared.events.Op.TheVariants as Op;
ghost use Rattle.store_api.specs.declared.machines.Refusal.TheVariants as Refusal;
ghost use Rattle.repo_read.specs.Resolving.{no_ref};
ghost use Rattle.refs_admin.specs.LogReading.{chain_log_program, line_of, MayRefuseLog};
ghost use Rattle.repo_read.specs.Seeking.{resolution_left, resolving_left};
ghost use Rattle.refs_admin.specs.inside.Working.{first_rest, log_rest, log_left, log_walk, logging_left, logging_rest, walk_behind, walk_rest};

use ice_base::Text;
use ice_ids::Id12;
use ice_items::Items;
use repo_objects::Loaded;
use repo_read::{At, MOST_SNAPSHOTS, Resolution, Resolving, snapshot_told};
use snapshot_file::Props;
use std::alloc::{AllocError, Global};
use std::mem;
use store_api::{Key, Machine, Next, Refusal, Reply, Request, Store, drive};

/// What the log says of a snapshot.
#[derive(Debug, Drop)]
pub struct LogLine {
    /// The snapshot.
    pub id: Id12,
    /// When it was flushed, in microseconds.
    pub flushed_at: u64,
    /// The message of its commit.
    pub message: Text,
    /// The properties of its commit.
    pub props: Props,
}

/// Lines of a log.
pub type LogLines = Items<LogLine>;

/// A walk along parents.
#[derive(Drop)]
pub struct Walk {
    /// The snapshot that is got next.
    next: Id12,
    /// The lines of those that were read.
    lines: LogLines,
    /// How many may still be read.
    left: u32,
}

/// The operation that comes next.
#[derive(Drop)]
pub enum Logging {
    /// What names the snapshot is resolved.
    Resolving(Resolving),
    /// The snapshot is got that its own id named.
    Head(Walk),
    /// A snapshot is got that a ref or a child named.
    Chain(Walk),
    /// The machine has ended.
    Ended,
}

/// A machine that reads the log: it resolves what names the snapshot, and gets the snapshots from there along the parents, down
/// to the one without a parent. It answers a line for each, the first one first. It may answer `NoRef` (also where a snapshot
/// named by its own id was absent), `Missing`, `TooDeep` (where it has read [`MOST_SNAPSHOTS`] without that end), `BadFile`,
/// `StoreFault` or `NoMemory` instead.
#[derive(Drop)]
pub struct Log {
    alloc: Global,
    state: Logging,
}

impl Walk {
    /// Before its first operation.
    fn begin(alloc: Global, from: Id12) -> Walk
        ensures program { walk_rest result ≡ log_walk most_snapshots [] from }
        ensures live { IsAsk (walk_rest result) }
        ensures left { result.left ≡ most_snapshots }
    {
        Walk {
            next: from,
            lines: LogLines::new(alloc),
            left: MOST_SNAPSHOTS,
        }
    }

    /// With the line of a snapshot that was read behind the others.
    fn with_line(mut self, alloc: Global, loaded: &Loaded) -> Result<Walk, AllocError>
        ensures lines { IfOk result (λ walk. walk.lines ≡ self.lines ++ line_of loaded.now ∷ []) }
        ensures left { IfOk result (λ walk. walk.left ≡ self.left) }
    {
        self.lines.push(line_of(alloc, loaded)?)?;
        Ok(self)
    }

    /// The get that comes next.
    fn request(&self) -> Request<'_>
        ensures { op_of result ≡ Op.Get (Key.Snapshot self.now.next) }
    {
        Request::Get {
            key: Key::Snapshot(self.next),
        }
    }
}

impl Machine for Log {
    type Answer = LogLines;

    ghost rest = { log_rest };

    ghost left = { log_left };

    ghost keeps = { λ result old new. Unit {0} };

    ghost may_refuse = { MayRefuseLog };

    fn request(&self) -> Result<Request<'_>, AllocError> {
        match &self.state {
            Logging::Resolving(resolving) => resolving.request(self.alloc),
            Logging::Head(walk) => Ok(walk.request()),
            Logging::Chain(walk) => Ok(walk.request()),
            Logging::Ended => unreachable!(),
        }
    }

    fn answer(&mut self, reply: Reply) -> Result<Next<LogLines>, Refusal> {
        let state = mem::replace(&mut self.state, Logging::Ended);
        match state {
            Logging::Resolving(resolving) => self.on_resolving(resolving, reply),
            Logging::Head(walk) => self.on_head(walk, reply),
            Logging::Chain(walk) => self.on_chain(walk, reply),
            Logging::Ended => unreachable!(),
        }
    }

    fn stop(&mut self) {
        self.state = Logging::Ended;
    }

    ghost may_starve = { tt };
}

impl Log {
    /// Before its first operation.
    pub fn new(alloc: Global, at: At) -> Log
        ensures program { log_rest result ≡ chain_log_program at }
        ensures few { log_left result ≤ 65538 }
    {
        Log {
            alloc,
            state: first(alloc, Resolution::begin(at)),
        }
    }

    /// One operation of the store.
    pub fn step<S: Store>(&mut self, store: &mut S) -> Result<Next<LogLines>, Refusal>
        requires { IsAsk (log_rest self.old) }
        ensures step { Steps (S.view store.old) (S.view store.new) (log_rest self.old)
            (log_rest self.new) result }
        ensures falls { log_left self.new < log_left self.old }
        ensures listed { IfErr result MayRefuseLog }
    {
        drive(self, store)
    }

    fn on_resolving(
        &mut self,
        resolving: Resolving,
        reply: Reply,
    ) -> Result<Next<LogLines>, Refusal>
        requires ended { self.old.state ≡ Logging.Ended }
        requires awaited { Awaits (logging_rest (Logging.Resolving resolving)) reply }
        ensures took { Took (logging_rest (Logging.Resolving resolving)) reply (log_rest self.new)
            result }
        ensures falls { log_left self.new < resolving_left resolving + most_snapshots }
        ensures listed { IfErr result MayRefuseLog }
    {
        let next = match resolving.on_reply(self.alloc, reply)? {
            Resolution::Known(named) => Logging::Chain(Walk::begin(self.alloc, named.id)),
            Resolution::Asks(resolving) => Logging::Resolving(resolving),
        };
        put_back(&mut self.state, next);
        Ok(Next::Again)
    }

    fn on_head(&mut self, walk: Walk, reply: Reply) -> Result<Next<LogLines>, Refusal>
        requires ended { self.old.state ≡ Logging.Ended }
        requires awaited { Awaits (logging_rest (Logging.Head walk)) reply }
        ensures took { Took (logging_rest (Logging.Head walk)) reply (log_rest self.new) result }
        ensures falls { log_left self.new < walk.left }
        ensures listed { IfErr result MayRefuseLog }
    {
        match self.on_chain(walk, reply) {
            Ok(next) => Ok(next),
            Err(refusal) => Err(no_ref(refusal)),
        }
    }

    fn on_chain(&mut self, walk: Walk, reply: Reply) -> Result<Next<LogLines>, Refusal>
        requires ended { self.old.state ≡ Logging.Ended }
        requires awaited { Awaits (walk_rest walk) reply }
        ensures took { Took (walk_rest walk) reply (log_rest self.new) result }
        ensures falls { log_left self.new < walk.left }
        ensures listed { IfErr result MayRefuseLog }
    {
        let loaded = snapshot_told(self.alloc, walk.next, reply)?;
        self.on_snapshot(walk, &loaded)
    }

    /// Goes on with the parent of a snapshot that was read.
    fn on_snapshot(&mut self, walk: Walk, loaded: &Loaded) -> Result<Next<LogLines>, Refusal>
        requires left { 0 < walk.left }
        requires ended { self.old.state ≡ Logging.Ended }
        ensures lands { Lands (walk_behind (walk.left - 1) (walk.lines ++ line_of loaded.now ∷ [])
            loaded.now.parent) (log_rest self.new) result }
        ensures falls { log_left self.new < walk.left }
        ensures faultless { IfErr result (λ refusal. is_fault refusal ≡ false) }
        ensures listed { IfErr result MayRefuseLog }
    {
        let Ok(walk) = walk.with_line(self.alloc, loaded) else {
            return Err(Refusal::NoMemory);
        };
        match loaded.file().parent() {
            Some(id) => self.onto(walk, id),
            None => Ok(Next::Ready(walk.lines)),
        }
    }

    /// Goes on with a snapshot, if one more may be read.
    fn onto(&mut self, mut walk: Walk, id: Id12) -> Result<Next<LogLines>, Refusal>
        requires left { 0 < walk.left }
        requires ended { self.old.state ≡ Logging.Ended }
        ensures lands { Lands (log_walk (walk.left - 1) walk.lines id) (log_rest self.new) result }
        ensures falls { log_left self.new < walk.left }
        ensures refused { IfErr result (λ refusal. refusal ≡ Refusal.TooDeep) }
    {
        walk.left -= 1;
        if walk.left == 0 {
            return Err(Refusal::TooDeep);
        }
        walk.next = id;
        put_back(&mut self.state, Logging::Chain(walk));
        Ok(Next::Again)
    }
}

/// How a log begins.
fn first(alloc: Global, resolution: Resolution) -> Logging
    ensures program { logging_rest result ≡ first_rest resolution }
    ensures few { logging_left result ≤ resolution_left resolution + most_snapshots }
{
    match resolution {
        Resolution::Known(named) => Logging::Head(Walk::begin(alloc, named.id)),
        Resolution::Asks(resolving) => Logging::Resolving(resolving),
    }
}

/// What the log says of a snapshot that was read.
fn line_of(alloc: Global, loaded: &Loaded) -> Result<LogLine, AllocError>
    ensures { IfOk result (λ line. line ≡ line_of loaded.now) }
{
    let file = loaded.file();
    Ok(LogLine {
        id: file.id(),
        flushed_at: file.flushed_at(),
        message: Text::of(alloc, file.message())?,
        props: file.props().copy(alloc)?,
    })
}

/// Why there is no log from a snapshot that its own id names: where it is absent, there is no such ref.
fn no_ref(refusal: Refusal) -> Refusal
    ensures { result ≡ no_ref refusal }
{
    match refusal {
        Refusal::Missing(_) => Refusal::NoRef,
        refusal => refusal,
    }
}

/// Puts the next state where the machine has ended.
fn put_back(state: &mut Logging, next: Logging)
    requires { state.old ≡ Logging.Ended }
    ensures { state.new ≡ next }
{
    match mem::replace(state, next) {
        Logging::Ended => {}
        _ => unreachable!(),
    }
}
