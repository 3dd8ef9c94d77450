//! The machine that rebases a session.

ghost use Rattle.std.specs.Prelude.{◌≡◌, ◌<◌, ◌≤◌, ◌+◌, ◌-◌, ◌∷◌, length, reverse, unwrap_or, None, Some, IfOk, IfErr, IsSome, false};
ghost use Rattle.zarr_tree.specs.Touched.{IsOrdered};
ghost use Rattle.repo_objects.specs.Trees.{nodes_in};
ghost use Rattle.repo_read.specs.Chains.{most_snapshots};
ghost use Rattle.store_api.specs.Program.{IsAsk, IsDone, Lands, Steps, is_fault};
ghost use Rattle.store_api.specs.Driving.{Awaits, Took};
ghost use Rattle.rebase.specs.Rebasing.{after_ref, on_head, head_of, solve_program, rebasing_rest, rebase_rest, with_session, rebase_session, KeepsSession, walk_left, rebase_left, RebaseStarts, MayRefuseStart, MayRefuseRebase};
ghost use Rattle.rebase.specs.inside.Working.{commits_behind, lists_behind, walk_behind};

use crate::rebasing::{Rebasing, Solving, Walk};
use crate::solving::{before_of, held_of, is_too_full, taken_out, without};
use commit_path::Writer;
use conflicts::Policy;
use held_log::HeldLists;
use ice_items::Items;
use repo_objects::Loaded;
use repo_read::{MOST_SNAPSHOTS, Resolved, log_told, ref_told, snapshot_told};
use session::Session;
use std::alloc::{AllocError, Global};
use std::mem;
use store_api::{Key, Machine, Next, Refusal, Reply, Request, Store, drive};
use zarr_changes::ChangeSet;
use zarr_tree::EditFault;

/// What a rebase came to, with the session.
#[derive(Drop)]
pub enum Rebased {
    /// The session is on the branch's snapshot, past so many commits.
    OnHead(Session, u32),
    /// The branch names the session's base.
    UpToDate(Session),
}

/// A machine that rebases a session: it gets the branch, then the snapshots from there along the parents, down to the commit whose
/// parent is the session's base, and then the logs of these commits, the oldest first. The conflicts of what is held with each are
/// solved by the policy before the next log is got. The session stays in the machine as it was until it is given out, and comes
/// back after a refusal: `NoRef`, `Missing`, `BadFile` (also where a log hides a node), `TooDeep`, `NotAncestor`, `Left`, `Full`,
/// `StoreFault` or `NoMemory`.
#[derive(Drop)]
pub struct Rebase {
    alloc: Global,
    policy: Policy,
    session: Option<Writer>,
    state: Rebasing,
}

impl Machine for Rebase {
    type Answer = Rebased;

    ghost rest = { rebase_rest };

    ghost left = { rebase_left };

    ghost keeps = { λ result old new. KeepsSession result (rebase_session old) (rebase_session new) };

    ghost may_refuse = { MayRefuseRebase };

    fn request(&self) -> Result<Request<'_>, AllocError> {
        match &self.state {
            Rebasing::Ref => Ok(Request::Get {
                key: Key::Branch(self.writer().branch().copy(self.alloc)?),
            }),
            Rebasing::Snapshot(walk) => Ok(Request::Get {
                key: Key::Snapshot(walk.next),
            }),
            Rebasing::Log(solving) => Ok(Request::Get {
                key: Key::Txn(solving.oldest.file().id()),
            }),
            Rebasing::Ended => unreachable!(),
        }
    }

    fn answer(&mut self, reply: Reply) -> Result<Next<Rebased>, Refusal> {
        match mem::replace(&mut self.state, Rebasing::Ended) {
            Rebasing::Ref => self.on_ref(reply),
            Rebasing::Snapshot(walk) => self.on_snapshot(walk, reply),
            Rebasing::Log(solving) => self.on_log(solving, reply),
            Rebasing::Ended => unreachable!(),
        }
    }

    fn stop(&mut self) {
        drop(mem::replace(&mut self.state, Rebasing::Ended));
    }

    ghost may_starve = { tt };
}

impl Rebase {
    /// Begins a rebase. Of a session that was opened to read it is refused by `ReadOnly`, and the session comes back as it was.
    pub fn start(
        alloc: Global,
        session: Session,
        policy: Policy,
    ) -> Result<Rebase, (Session, Refusal)>
        ensures starts { RebaseStarts policy session result }
        ensures few { IfOk result (λ m. rebase_left m ≤ 131073) }
        ensures listed { IfErr result (λ refused. MayRefuseStart refused.1) }
    {
        if !session.writes() {
            return Err((session, Refusal::ReadOnly));
        }
        Ok(Rebase {
            alloc,
            policy,
            session: Some(Writer::new(session)),
            state: Rebasing::Ref,
        })
    }

    /// The session, after a refusal: as it was.
    pub fn into_session(self) -> Session
        requires { IsSome (rebase_session self) }
        ensures { rebase_session self ≡ Some result }
    {
        let Rebase { session, state, .. } = self;
        drop(state);
        match session {
            Some(writer) => writer.into_session(),
            None => unreachable!(),
        }
    }

    /// One operation of the store.
    pub fn step<S: Store>(&mut self, store: &mut S) -> Result<Next<Rebased>, Refusal>
        requires { IsAsk (rebase_rest self.old) }
        ensures step { Steps (S.view store.old) (S.view store.new) (rebase_rest self.old)
            (rebase_rest self.new) result }
        ensures falls { rebase_left self.new < rebase_left self.old }
        ensures session { KeepsSession result (rebase_session self.old) (rebase_session self.new) }
        ensures listed { IfErr result MayRefuseRebase }
    {
        drive(self, store)
    }

    /// The session in the machine, which writes.
    fn writer(&self) -> &Writer
        requires { IsSome self.now.session }
        ensures { self.now.session ≡ Some result.now }
    {
        match &self.session {
            Some(writer) => writer,
            None => unreachable!(),
        }
    }

    /// The session in the machine.
    fn session(&self) -> &Session
        requires { IsSome self.now.session }
        ensures { self.now.session ≡ Some result.now }
    {
        self.writer().as_session()
    }

    /// The branch was got.
    fn on_ref(&mut self, reply: Reply) -> Result<Next<Rebased>, Refusal>
        requires ended { self.old.state ≡ Rebasing.Ended }
        requires awaited { Awaits
            (with_session self.old.session (λ s. rebasing_rest self.old.policy s Rebasing.Ref))
            reply }
        ensures took { Took
            (with_session self.old.session (λ s. rebasing_rest self.old.policy s Rebasing.Ref))
            reply (rebase_rest self.new) result }
        ensures falls { rebase_left self.new < most_snapshots + most_snapshots + 1 }
        ensures session { KeepsSession result (rebase_session self.old) (rebase_session self.new) }
        ensures listed { IfErr result MayRefuseRebase }
    {
        match ref_told(self.alloc, self.writer().branch(), reply) {
            Ok(named) => self.on_named(named),
            Err(why) => Err(why),
        }
    }

    /// The branch names a snapshot: the walk begins there, if it isn't the base.
    fn on_named(&mut self, named: Resolved) -> Result<Next<Rebased>, Refusal>
        requires live { IsSome self.old.session }
        requires ended { self.old.state ≡ Rebasing.Ended }
        ensures lands { Lands
            (with_session self.old.session (λ s. after_ref self.old.policy s named))
            (rebase_rest self.new) result }
        ensures falls { rebase_left self.new < most_snapshots + most_snapshots + 1 }
        ensures session { KeepsSession result (rebase_session self.old) (rebase_session self.new) }
        ensures faultless { IfErr result (λ refusal. is_fault refusal ≡ false) }
        ensures listed { IfErr result MayRefuseRebase }
    {
        if named.id != self.session().base() {
            self.state.follow(Rebasing::Snapshot(Walk {
                named,
                above: Items::new(self.alloc),
                next: named.id,
            }));
            return Ok(Next::Again);
        }
        let Some(writer) = self.session.take() else {
            unreachable!()
        };
        let mut session = writer.into_session();
        session.renew(named.version);
        Ok(Next::Ready(Rebased::UpToDate(session)))
    }

    /// A snapshot was got.
    fn on_snapshot(&mut self, walk: Walk, reply: Reply) -> Result<Next<Rebased>, Refusal>
        requires ended { self.old.state ≡ Rebasing.Ended }
        requires awaited { Awaits
            (with_session self.old.session
            (λ s. rebasing_rest self.old.policy s (Rebasing.Snapshot walk))) reply }
        ensures took { Took
            (with_session self.old.session
            (λ s. rebasing_rest self.old.policy s (Rebasing.Snapshot walk))) reply
            (rebase_rest self.new) result }
        ensures falls { rebase_left self.new < walk_left walk }
        ensures session { KeepsSession result (rebase_session self.old) (rebase_session self.new) }
        ensures listed { IfErr result MayRefuseRebase }
    {
        match snapshot_told(self.alloc, walk.next, reply) {
            Ok(loaded) => self.on_loaded(walk, loaded),
            Err(why) => {
                drop(walk);
                Err(why)
            }
        }
    }

    /// A snapshot was read: it is the oldest commit, or the walk goes on with its parent.
    fn on_loaded(&mut self, mut walk: Walk, loaded: Loaded) -> Result<Next<Rebased>, Refusal>
        requires live { IsSome self.old.session }
        requires ended { self.old.state ≡ Rebasing.Ended }
        requires left { length walk.above < most_snapshots }
        ensures lands { Lands
            (with_session self.old.session (λ s. walk_behind self.old.policy s walk loaded))
            (rebase_rest self.new) result }
        ensures falls { rebase_left self.new < walk_left walk }
        ensures session { KeepsSession result (rebase_session self.old) (rebase_session self.new) }
        ensures faultless { IfErr result (λ refusal. is_fault refusal ≡ false) }
        ensures listed { IfErr result MayRefuseRebase }
    {
        let Some(parent) = loaded.file().parent() else {
            let head = walk.named.id;
            drop(walk);
            drop(loaded);
            return Err(Refusal::NotAncestor { head });
        };
        if parent == self.session().base() {
            self.state
                .follow(Rebasing::Log(first_solving(walk, loaded)));
            return Ok(Next::Again);
        }
        let Ok(()) = walk.above.push(loaded) else {
            drop(walk);
            return Err(Refusal::NoMemory);
        };
        if walk.above.len() == MOST_SNAPSHOTS as usize {
            drop(walk);
            return Err(Refusal::TooDeep);
        }
        walk.next = parent;
        self.state.follow(Rebasing::Snapshot(walk));
        Ok(Next::Again)
    }

    /// A log was got.
    fn on_log(&mut self, solving: Solving, reply: Reply) -> Result<Next<Rebased>, Refusal>
        requires ended { self.old.state ≡ Rebasing.Ended }
        requires awaited { Awaits
            (with_session self.old.session
            (λ s. rebasing_rest self.old.policy s (Rebasing.Log solving))) reply }
        ensures took { Took
            (with_session self.old.session
            (λ s. rebasing_rest self.old.policy s (Rebasing.Log solving))) reply
            (rebase_rest self.new) result }
        ensures falls { rebase_left self.new < length solving.later + 1 }
        ensures session { KeepsSession result (rebase_session self.old) (rebase_session self.new) }
        ensures listed { IfErr result MayRefuseRebase }
    {
        match log_told(solving.oldest.file().id(), reply) {
            Ok(log) => {
                let answer = self.on_lists(solving, &log.lists());
                drop(log);
                answer
            }
            Err(why) => {
                drop(solving);
                Err(why)
            }
        }
    }

    /// A commit's log was read: the conflicts with it are solved.
    fn on_lists(&mut self, solving: Solving, lists: &HeldLists) -> Result<Next<Rebased>, Refusal>
        requires live { IsSome self.old.session }
        requires ended { self.old.state ≡ Rebasing.Ended }
        requires order { IsOrdered lists.now }
        ensures lands { Lands
            (with_session self.old.session (λ s. lists_behind self.old.policy s solving lists.now))
            (rebase_rest self.new) result }
        ensures falls { rebase_left self.new < length solving.later + 1 }
        ensures session { KeepsSession result (rebase_session self.old) (rebase_session self.new) }
        ensures faultless { IfErr result (λ refusal. is_fault refusal ≡ false) }
        ensures listed { IfErr result MayRefuseRebase }
    {
        let session = self.session();
        let held = held_of(session, &solving.held);
        let before = before_of(session, &solving.before);
        let out = match taken_out(
            self.alloc,
            self.policy,
            held,
            before,
            &solving.oldest,
            lists,
        ) {
            Ok(out) => out,
            Err(why) => {
                drop(solving);
                return Err(why);
            }
        };
        let Solving {
            named,
            oldest,
            later,
            before,
            held,
            count,
        } = solving;
        drop(before);
        let Ok(held) = without(self.alloc, session.changes(), held, out.as_slice()) else {
            drop(oldest);
            drop(later);
            drop(out);
            return Err(Refusal::NoMemory);
        };
        drop(out);
        self.on_solved(named, oldest, later, held, count)
    }

    /// The conflicts with a commit are solved: the log of the next one is got, if there is one.
    fn on_solved(
        &mut self,
        named: Resolved,
        commit: Loaded,
        later: Items<Loaded>,
        held: Option<ChangeSet>,
        count: u32,
    ) -> Result<Next<Rebased>, Refusal>
        requires live { IsSome self.old.session }
        requires ended { self.old.state ≡ Rebasing.Ended }
        ensures lands { Lands
            (with_session self.old.session (λ s. commits_behind self.old.policy s named count commit
            later (unwrap_or held s.held))) (rebase_rest self.new) result }
        ensures falls { rebase_left self.new < length later + 1 }
        ensures session { KeepsSession result (rebase_session self.old) (rebase_session self.new) }
        ensures faultless { IfErr result (λ refusal. is_fault refusal ≡ false) }
        ensures listed { IfErr result MayRefuseRebase }
    {
        let mut later = later.into_vec();
        let Some(oldest) = later.pop() else {
            return self.finish(named, commit, held, count);
        };
        self.state.follow(Rebasing::Log(Solving {
            named,
            oldest,
            later: Items::from_vec(later),
            before: Some(commit),
            held,
            count,
        }));
        Ok(Next::Again)
    }

    /// The conflicts with all commits are solved: the session moves on, unless its tree would have too many nodes.
    fn finish(
        &mut self,
        named: Resolved,
        head: Loaded,
        held: Option<ChangeSet>,
        count: u32,
    ) -> Result<Next<Rebased>, Refusal>
        requires live { IsSome self.old.session }
        requires ended { self.old.state ≡ Rebasing.Ended }
        ensures lands { Lands
            (with_session self.old.session
            (λ s. on_head s named count head (unwrap_or held s.held))) (rebase_rest self.new)
            result }
        ensures falls { rebase_left self.new < 1 }
        ensures session { KeepsSession result (rebase_session self.old) (rebase_session self.new) }
        ensures faultless { IfErr result (λ refusal. is_fault refusal ≡ false) }
        ensures listed { IfErr result MayRefuseRebase }
    {
        if is_too_full(held_of(self.session(), &held), &head) {
            drop(head);
            drop(held);
            return Err(Refusal::Edit(EditFault::Full));
        }
        let Some(writer) = self.session.take() else {
            unreachable!()
        };
        let mut session = writer.into_session();
        session.rebase_to(named.id, named.version, head, held);
        Ok(Next::Ready(Rebased::OnHead(session, count)))
    }
}

/// The commits of a walk that has come to its end, the oldest one.
fn first_solving(walk: Walk, oldest: Loaded) -> Solving
    requires { length walk.above < most_snapshots }
    ensures { result ≡ record {
      named = walk.named;
      oldest = oldest;
      later = walk.above;
      before =
          None;
      held = None;
      count = length walk.above + 1;
    } }
{
    let count = walk.above.len() as u32 + 1;
    Solving {
        named: walk.named,
        oldest,
        later: walk.above,
        before: None,
        held: None,
        count,
    }
}
