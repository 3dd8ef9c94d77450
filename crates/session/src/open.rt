//! The machine that opens a session.

ghost use Rattle.std.specs.Prelude.{◌≡◌, ◌<◌, ◌≤◌, ◌+◌, true, false, IfErr, IfOk};
ghost use Rattle.repo_read.specs.declared.resolving.At.TheVariants as At;
ghost use Rattle.repo_read.specs.Seeking.{resolving_left};
ghost use Rattle.store_api.specs.Program.{IsAsk, Steps};
ghost use Rattle.store_api.specs.Driving.{Awaits, Took};
ghost use Rattle.repo_read.specs.Resolving.{MayRefuseBase};
ghost use Rattle.session.specs.Opening.{open_program, base_program, opening_rest, open_rest, open_left, asked, of_branch, origin_for};

use crate::Session;
use crate::opening::Opening;
use crate::origin::{Origin, Tip};
use ice_base::RefName;
use ice_ids::AnyIds;
use repo_read::{At, Named, Resolution, Resolving, base_told};
use std::alloc::{AllocError, Global};
use std::mem;
use store_api::{Key, Machine, Next, Refusal, Reply, Request, Store, drive};

/// A machine that opens a session: it resolves what names a snapshot, and gets the snapshot. It answers `NoRef` (also where a
/// snapshot named by its own id was absent), `Missing`, `BadFile`, `StoreFault` or `NoMemory` in place of a session.
#[derive(Drop)]
pub struct Open {
    alloc: Global,
    at: At,
    writes: bool,
    ids: AnyIds,
    state: Opening,
}

impl Machine for Open {
    type Answer = Session;

    ghost rest = { open_rest };

    ghost left = { open_left };

    ghost keeps = { λ result old new. Unit {0} };

    ghost may_refuse = { MayRefuseBase };

    fn request(&self) -> Result<Request<'_>, AllocError> {
        match &self.state {
            Opening::Naming(resolving) => resolving.request(self.alloc),
            Opening::Base(named) => Ok(Request::Get {
                key: Key::Snapshot(named.id),
            }),
            Opening::Ended => unreachable!(),
        }
    }

    fn answer(&mut self, reply: Reply) -> Result<Next<Session>, Refusal> {
        match mem::replace(&mut self.state, Opening::Ended) {
            Opening::Naming(resolving) => self.on_naming(resolving, reply),
            Opening::Base(named) => self.on_base(named, reply),
            Opening::Ended => unreachable!(),
        }
    }

    fn stop(&mut self) {
        drop(mem::replace(&mut self.state, Opening::Ended));
    }

    ghost may_starve = { tt };
}

impl Open {
    /// Opens a session to write to a branch, which draws these ids.
    pub fn write(alloc: Global, branch: RefName, ids: AnyIds) -> Result<Open, AllocError>
        ensures program { IfOk result (λ machine. open_rest machine
            ≡ open_program (record { at = At.Branch branch; writes = true; ids = ids })) }
        ensures few { IfOk result (λ machine. open_left machine ≤ 3) }
    {
        Open::begin(alloc, At::Branch(branch), true, ids)
    }

    /// Opens a session to read what a branch, a tag or an id names.
    pub fn read(alloc: Global, at: At, ids: AnyIds) -> Result<Open, AllocError>
        ensures program { IfOk result (λ machine. open_rest machine
            ≡ open_program (record { at = at; writes = false; ids = ids })) }
        ensures few { IfOk result (λ machine. open_left machine ≤ 3) }
    {
        Open::begin(alloc, at, false, ids)
    }

    /// Before the first operation: an id is known at once.
    fn begin(alloc: Global, at: At, writes: bool, ids: AnyIds) -> Result<Open, AllocError>
        ensures program { IfOk result (λ machine. open_rest machine
            ≡ open_program (record { at = at; writes = writes; ids = ids })) }
        ensures few { IfOk result (λ machine. open_left machine ≤ 3) }
    {
        let state = match Resolution::begin(at.copy(alloc)?) {
            Resolution::Known(named) => Opening::Base(named),
            Resolution::Asks(resolving) => Opening::Naming(resolving),
        };
        Ok(Open {
            alloc,
            at,
            writes,
            ids,
            state,
        })
    }

    /// One operation of the store.
    pub fn step<S: Store>(&mut self, store: &mut S) -> Result<Next<Session>, Refusal>
        requires { IsAsk (open_rest self.old) }
        ensures step { Steps (S.view store.old) (S.view store.new) (open_rest self.old)
            (open_rest self.new) result }
        ensures falls { open_left self.new < open_left self.old }
        ensures listed { IfErr result MayRefuseBase }
    {
        drive(self, store)
    }

    fn on_naming(&mut self, resolving: Resolving, reply: Reply) -> Result<Next<Session>, Refusal>
        requires ended { self.old.state ≡ Opening.Ended }
        requires awaited { Awaits (opening_rest (asked self.old) (Opening.Naming resolving)) reply }
        ensures took { Took (opening_rest (asked self.old) (Opening.Naming resolving)) reply
            (open_rest self.new) result }
        ensures falls { open_left self.new < resolving_left resolving + 1 }
        ensures listed { IfErr result MayRefuseBase }
    {
        let next = match resolving.on_reply(self.alloc, reply)? {
            Resolution::Known(named) => Opening::Base(named),
            Resolution::Asks(resolving) => Opening::Naming(resolving),
        };
        self.state.follow(next);
        Ok(Next::Again)
    }

    fn on_base(&mut self, named: Named, reply: Reply) -> Result<Next<Session>, Refusal>
        requires ended { self.old.state ≡ Opening.Ended }
        requires awaited { Awaits (base_program (asked self.old) named) reply }
        ensures took { Took (base_program (asked self.old) named) reply (open_rest self.new)
            result }
        ensures falls { open_left self.new < 1 }
        ensures listed { IfErr result MayRefuseBase }
    {
        let loaded = base_told(self.alloc, &self.at, named.id, reply)?;
        let Ok(origin) = self.origin(named) else {
            drop(loaded);
            return Err(Refusal::NoMemory);
        };
        let session = Session::begin(self.alloc, origin, self.ids, named.id, loaded);
        Ok(Next::Ready(session))
    }

    /// What named the base of the session that begins at what was named.
    fn origin(&self, named: Named) -> Result<Origin, AllocError>
        ensures { IfOk result (λ origin. origin ≡ origin_for (asked self.now) named) }
    {
        match (&self.at, named.version) {
            (At::Branch(branch), Some(version)) => {
                let branch = branch.copy(self.alloc)?;
                Ok(self.of_branch(Tip { branch, version }))
            }
            (At::Tag(tag), _) => Ok(Origin::ReadsTag(tag.copy(self.alloc)?)),
            (At::Branch(_), None) | (At::Snapshot(_), _) => Ok(Origin::ReadsId),
        }
    }

    /// A branch that named the base.
    fn of_branch(&self, tip: Tip) -> Origin
        ensures { result ≡ of_branch self.now.writes tip }
    {
        if self.writes {
            Origin::Writes(tip)
        } else {
            Origin::ReadsBranch(tip)
        }
    }
}
