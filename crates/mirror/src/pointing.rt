//! The target's refs, which are put or left.

ghost use Rattle.std.specs.Prelude.{◌≡◌, ◌<◌, ◌≤◌, ◌+◌, IfOk};
ghost use Rattle.ref_file.specs.Refs.{ref_bytes};
ghost use Rattle.store_api.specs.Driving.{payload_bytes, op_of};
ghost use Rattle.two_stores.specs.Pairs.{Asks, Awaits, Took};
ghost use Rattle.mirror_reports.specs.Told.{buried_told};
ghost use Rattle.mirror.specs.Programs.{see_ref, differs, unless_buried, with_ref};
ghost use Rattle.mirror.specs.inside.Working.{work_of, on_first, stage_rest, mirror_rest, HasFirst, Lands, EndsOutright, mirror_left, stage_left, others_left};

use crate::mirror::{Mirror, Stage};
use crate::target::cause_of;
use ice_base::Bytes;
use ice_ids::Id12;
use mirror_reports::replies::{buried_told, made_told, moved_told, ref_told};
use ref_file::ref_write;
use repo_read::Resolved;
use std::alloc::{AllocError, Global};
use store_api::{Payload, Refusal, Reply, Request, Version, Why};
use two_stores::{Asked, Side};

/// The bytes of a reference, to be put.
fn reference(alloc: Global, id: Id12) -> Result<Payload<'static>, AllocError>
    ensures { IfOk result (λ payload. payload_bytes payload ≡ ref_bytes id) }
{
    Ok(Payload::Made(Bytes::of(alloc, &ref_write(id))?))
}

impl Mirror {
    /// The put of the ref in work, where it was absent.
    pub(crate) fn make_ref(&self) -> Result<Asked<'_>, AllocError>
        requires { HasFirst self.now }
        ensures { IfOk result (λ asked. Asks (stage_rest Stage.NewRef self.now (work_of self.now))
            asked.side (op_of asked.request)) }
    {
        let key = self.first().key(self.alloc)?;
        let why = cause_of(&key);
        Ok(Asked {
            side: Side::To,
            request: Request::PutNew {
                key,
                bytes: reference(self.alloc, self.target)?,
                why,
            },
        })
    }

    /// The put of the ref in work over this version.
    pub(crate) fn move_ref(&self, old: Version) -> Result<Asked<'_>, AllocError>
        requires { HasFirst self.now }
        ensures { IfOk result
            (λ asked. Asks (stage_rest (Stage.OverRef old) self.now (work_of self.now)) asked.side
            (op_of asked.request)) }
    {
        Ok(Asked {
            side: Side::To,
            request: Request::PutOver {
                key: self.first().key(self.alloc)?,
                bytes: reference(self.alloc, self.target)?,
                old,
                why: Why::Reset,
            },
        })
    }

    pub(crate) fn on_target(&mut self, reply: Reply)
        requires starved { self.old.stage ≡ Stage.Starved }
        requires awaited { Awaits (stage_rest Stage.Target self.old (work_of self.old)) reply }
        ensures took { Took (stage_rest Stage.Target self.old (work_of self.old)) reply
            (mirror_rest self.new) }
        ensures falls { mirror_left self.new < stage_left Stage.Target self.old }
    {
        match ref_told(self.alloc, Side::To, self.first(), reply) {
            Ok(there) => self.after_target(there),
            Err(why) => self.refuse(why),
        }
    }

    /// Puts the target's ref, or leaves it.
    pub(crate) fn after_target(&mut self, there: Option<Resolved>)
        requires starved { self.old.stage ≡ Stage.Starved }
        requires first { HasFirst self.old }
        ensures lands { mirror_rest self.new ≡ on_first self.old.register.names (work_of self.old)
            (λ r next. see_ref r self.old.target (work_of self.old) next there)
            self.old.register.phase }
        ensures falls { mirror_left self.new < stage_left Stage.Target self.old }
    {
        match there {
            None => self.stage = Stage::NewRef,
            Some(there) => {
                if self.first().tag {
                    self.stage = Stage::Tombstone(there.id);
                } else if there.id == self.target {
                    self.told_ref(false);
                } else {
                    self.stage = Stage::OverRef(there.version);
                }
            }
        }
    }

    pub(crate) fn on_tombstone(&mut self, there: Id12, reply: Reply)
        requires starved { self.old.stage ≡ Stage.Starved }
        requires awaited { Awaits (stage_rest (Stage.Tombstone there) self.old (work_of self.old))
            reply }
        ensures took { Took (stage_rest (Stage.Tombstone there) self.old (work_of self.old)) reply
            (mirror_rest self.new) }
        ensures outright { EndsOutright (work_of self.old) (buried_told reply)
            (mirror_rest self.new) }
        ensures falls { mirror_left self.new < stage_left (Stage.Tombstone there) self.old }
    {
        match buried_told(reply) {
            Ok(buried) => self.after_tombstone(there, buried),
            Err(why) => self.refuse(why),
        }
    }

    /// Leaves the target's tag, where it has no tombstone and names the same snapshot.
    pub(crate) fn after_tombstone(&mut self, there: Id12, buried: bool)
        requires starved { self.old.stage ≡ Stage.Starved }
        requires first { HasFirst self.old }
        ensures lands { Lands self.old.register.refs
            (on_first self.old.register.names (work_of self.old)
            (λ r next. unless_buried r self.old.target (work_of self.old) next there buried)
            self.old.register.phase) (mirror_rest self.new) }
        ensures falls { mirror_left self.new < stage_left (Stage.Tombstone there) self.old }
    {
        if buried {
            self.refuse_ref();
        } else if there == self.target {
            self.told_ref(false);
        } else {
            self.refuse_ref();
        }
    }

    /// Ends refused, since the target's ref can't follow.
    pub(crate) fn refuse_ref(&mut self)
        requires starved { self.old.stage ≡ Stage.Starved }
        requires first { HasFirst self.old }
        ensures lands { Lands self.old.register.refs
            (on_first self.old.register.names (work_of self.old)
            (λ r next. differs r (work_of self.old)) self.old.register.phase)
            (mirror_rest self.new) }
        ensures falls { mirror_left self.new < 1 }
    {
        if let Ok(key) = self.first().key(self.alloc) {
            self.refuse(Refusal::Differs(key));
        }
    }

    pub(crate) fn on_new_ref(&mut self, reply: Reply)
        requires starved { self.old.stage ≡ Stage.Starved }
        requires awaited { Awaits (stage_rest Stage.NewRef self.old (work_of self.old)) reply }
        ensures took { Took (stage_rest Stage.NewRef self.old (work_of self.old)) reply
            (mirror_rest self.new) }
        ensures falls { mirror_left self.new < stage_left Stage.NewRef self.old }
    {
        match made_told(reply) {
            Ok(()) => self.told_ref(true),
            Err(why) => self.refuse(why),
        }
    }

    pub(crate) fn on_over_ref(&mut self, reply: Reply)
        requires starved { self.old.stage ≡ Stage.Starved }
        requires awaited { (old : Version)
            → Awaits (stage_rest (Stage.OverRef old) self.old (work_of self.old)) reply }
        ensures took { (old : Version)
            → Took (stage_rest (Stage.OverRef old) self.old (work_of self.old)) reply
            (mirror_rest self.new) }
        ensures falls { mirror_left self.new < 1 + others_left self.old }
    {
        match moved_told(reply) {
            Ok(()) => self.told_ref(true),
            Err(why) => self.refuse(why),
        }
    }

    /// Tells what became of the ref in work, and goes on with the next one. It takes no memory.
    pub(crate) fn told_ref(&mut self, put: bool)
        requires first { HasFirst self.old }
        ensures lands { mirror_rest self.new ≡ on_first self.old.register.names (work_of self.old)
            (λ r next. next (with_ref r self.old.target put (work_of self.old)))
            self.old.register.phase }
        ensures falls { mirror_left self.new ≤ others_left self.old }
    {
        self.register.tell(self.target, put);
        self.next_ref();
    }
}
