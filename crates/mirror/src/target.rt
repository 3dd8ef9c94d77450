//! What a mirror puts in the target, or compares there.

ghost use Rattle.std.specs.Prelude.{◌≡◌, ◌<◌, ◌≤◌, ◌+◌, ◌^◌, ◌≢◌, ◌⊎◌, false, Ok, IfSome, IfNone, IfErr, MatchOption};
ghost use Rattle.object_store.specs.declared.events.Op.TheVariants as Op;
ghost use Rattle.store_api.specs.Driving.{op_of};
ghost use Rattle.repo_read.specs.Answers.{Answers};
ghost use Rattle.two_stores.specs.Pairs.{Awaits, Took};
ghost use Rattle.mirror_reports.specs.Told.{bytes_told, put_told};
ghost use Rattle.mirror.specs.Programs.{on_told, with_put, with_copied, cause_of, counted, fits_there};
ghost use Rattle.mirror.specs.inside.Working.{work_of, object_key, object_bytes, count_of, behind_object, behind_put, behind_same, behind_snapshot, stage_rest, mirror_rest, Lands, EndsOutright, mirror_left, stage_left, line_left, object_left};

use crate::mirror::{Mirror, Object, Stage};
use ice_base::Bytes;
use ice_ids::Id12;
use mirror_reports::Mirrored;
use mirror_reports::files::is_fine;
use mirror_reports::replies::{bytes_told, put_told};
use store_api::{Key, Payload, Refusal, Reply, Request, Why};
use two_stores::{Asked, Side};

/// What the put of an object is for.
pub(crate) fn cause_of(key: &Key) -> Why
    ensures { result ≡ cause_of key.now }
{
    match key {
        Key::Snapshot(id) => {
            if *id == Id12::INITIAL {
                Why::Init
            } else {
                Why::Set
            }
        }
        Key::Txn(_) | Key::Manifest(_) | Key::Chunk(_) => Why::Set,
        Key::Branch(_) => Why::Create,
        Key::Tag(_) => Why::Tag,
        Key::Tombstone(_) => Why::Drop,
        Key::Lease(_) => Why::Lease,
    }
}

/// No objects.
pub(crate) const NO_PUTS: Mirrored = Mirrored {
    snapshots: 0,
    logs: 0,
    manifests: 0,
    chunks: 0,
};

/// One more, if it can be counted.
fn one_more(count: u64) -> Option<u64>
    ensures { MatchOption result (count + 1 ≡ 2 ^ 64) (λ more. more ≡ count + 1) }
{
    count.checked_add(1)
}

/// With one more such object, if it can be counted.
fn with_one_more(mut counts: Mirrored, object: Object) -> Option<Mirrored>
    ensures some { (m : Mirror) → IfSome result
        (λ more. more ≡ counted (object_key object m) counts) }
    ensures none { IfNone result (count_of object counts + 1 ≡ 2 ^ 64) }
{
    match object {
        Object::Snapshot => counts.snapshots = one_more(counts.snapshots)?,
        Object::Log => counts.logs = one_more(counts.logs)?,
        Object::Manifest(_) => counts.manifests = one_more(counts.manifests)?,
        Object::Chunk(_) => counts.chunks = one_more(counts.chunks)?,
    }
    Some(counts)
}

impl Mirror {
    /// The bytes of an object, as they are put.
    pub(crate) fn bytes_of(&self, object: Object) -> &Bytes
        ensures { result.now ≡ object_bytes object self.now }
    {
        match object {
            Object::Chunk(_) | Object::Log => &self.object,
            Object::Manifest(_) => &self.manifest,
            Object::Snapshot => &self.snapshot,
        }
    }

    /// The put of an object.
    pub(crate) fn put_of(&self, object: Object) -> Asked<'_>
        ensures side { result.side ≡ Side.To }
        ensures request { op_of result.request ≡ Op.PutNew (object_key object self.now)
            (object_bytes object self.now) (cause_of (object_key object self.now)) }
    {
        let key = self.key_of(object);
        let why = cause_of(&key);
        Asked {
            side: Side::To,
            request: Request::PutNew {
                key,
                bytes: Payload::Lent(self.bytes_of(object).as_slice()),
                why,
            },
        }
    }

    pub(crate) fn on_put(&mut self, object: Object, reply: Reply)
        requires starved { self.old.stage ≡ Stage.Starved }
        requires awaited { Awaits (stage_rest (Stage.Put object) self.old (work_of self.old))
            reply }
        ensures took { Took (stage_rest (Stage.Put object) self.old (work_of self.old)) reply
            (mirror_rest self.new) }
        ensures outright { EndsOutright (work_of self.old) (put_told reply)
            (mirror_rest self.new) }
        ensures there { put_told reply ≡ Ok false → mirror_rest self.new ≡ behind_put object
            self.old (work_of self.old) false }
        ensures falls { mirror_left self.new < stage_left (Stage.Put object) self.old }
    {
        match put_told(reply) {
            Ok(true) => self.after_put(object),
            Ok(false) => self.stage = Stage::Same(object),
            Err(why) => self.refuse(why),
        }
    }

    /// Counts an object that was put.
    pub(crate) fn after_put(&mut self, object: Object)
        requires starved { self.old.stage ≡ Stage.Starved }
        ensures lands { Lands self.old.register.refs
            (behind_object object self.old
            (with_put (object_key object self.old) (work_of self.old))) (mirror_rest self.new) }
        ensures sure { object ≢ Object.Snapshot
            → (mirror_rest self.new ≡ behind_object object self.old
            (with_put (object_key object self.old) (work_of self.old)))
            ⊎ (count_of object self.old.counts + 1 ≡ 2 ^ 64) }
        ensures falls { mirror_left self.new ≤ object_left object self.old }
    {
        if let Some(counts) = with_one_more(self.counts, object) {
            self.counts = counts;
            self.after_object(object);
        }
    }

    pub(crate) fn on_same(&mut self, object: Object, reply: Reply)
        requires starved { self.old.stage ≡ Stage.Starved }
        requires awaited { Awaits (stage_rest (Stage.Same object) self.old (work_of self.old))
            reply }
        ensures took { Took (stage_rest (Stage.Same object) self.old (work_of self.old)) reply
            (mirror_rest self.new) }
        ensures outright { EndsOutright (work_of self.old)
            (bytes_told Side.To (object_key object self.old) reply) (mirror_rest self.new) }
        ensures sure { object ≢ Object.Snapshot → mirror_rest self.new ≡ on_told (work_of self.old)
            (behind_same object self.old (work_of self.old))
            (bytes_told Side.To (object_key object self.old) reply) }
        ensures falls { mirror_left self.new < stage_left (Stage.Same object) self.old }
    {
        match bytes_told(Side::To, self.key_of(object), reply) {
            Ok(there) => self.after_same(object, &there),
            Err(why) => self.refuse(why),
        }
    }

    /// Goes on where what stands in the target is fine.
    pub(crate) fn after_same(&mut self, object: Object, there: &Bytes)
        requires starved { self.old.stage ≡ Stage.Starved }
        ensures lands { Lands self.old.register.refs
            (behind_same object self.old (work_of self.old) there.now) (mirror_rest self.new) }
        ensures sure { object ≢ Object.Snapshot → mirror_rest self.new ≡ behind_same object self.old
            (work_of self.old) there.now }
        ensures falls { mirror_left self.new ≤ object_left object self.old }
    {
        match self.is_fine(object, there) {
            Ok(true) => self.after_object(object),
            Ok(false) => self.refuse(Refusal::Differs(self.key_of(object))),
            Err(why) => self.refuse(why),
        }
    }

    /// Whether what stands in the target is fine.
    pub(crate) fn is_fine(&self, object: Object, there: &Bytes) -> Result<bool, Refusal>
        ensures told { Answers (fits_there (object_key object self.now)
            (object_bytes object self.now) there.now) result }
        ensures sure { IfErr result (λ _. object ≡ Object.Snapshot) }
    {
        match object {
            Object::Snapshot => is_fine(self.alloc, self.link.id, &self.snapshot, there),
            Object::Chunk(_) | Object::Log => Ok(&self.object == there),
            Object::Manifest(_) => Ok(&self.manifest == there),
        }
    }

    /// Goes on behind an object that stands in the target.
    pub(crate) fn after_object(&mut self, object: Object)
        requires starved { self.old.stage ≡ Stage.Starved }
        ensures lands { Lands self.old.register.refs
            (behind_object object self.old (work_of self.old)) (mirror_rest self.new) }
        ensures sure { object ≢ Object.Snapshot → mirror_rest self.new ≡ behind_object object
            self.old (work_of self.old) }
        ensures falls { mirror_left self.new ≤ object_left object self.old }
    {
        match object {
            Object::Chunk(_) => self.next_chunk(),
            Object::Manifest(_) => self.next_manifest(),
            Object::Log => self.stage = Stage::Put(Object::Snapshot),
            Object::Snapshot => self.after_snapshot(),
        }
    }

    /// The snapshot in work is copied.
    pub(crate) fn after_snapshot(&mut self)
        requires starved { self.old.stage ≡ Stage.Starved }
        ensures lands { Lands self.old.register.refs
            (behind_snapshot self.old (with_copied self.old.link.id (work_of self.old)))
            (mirror_rest self.new) }
        ensures falls { mirror_left self.new ≤ line_left self.old }
    {
        if let Ok(_) = self.copied.insert(self.link.id) {
            self.next_link();
        }
    }
}
