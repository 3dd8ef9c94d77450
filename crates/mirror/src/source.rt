//! What a mirror reads in the source: its refs, the way down, and the objects on the way up.

ghost use Rattle.std.specs.Prelude.{◌≡◌, ◌<◌, ◌≤◌, ◌+◌, ◌*◌, false, Ok, Err, IfOk, IfErr, OnOk, MatchResult, length};
ghost use Rattle.held_manifest.specs.Objects.{objects_of};
ghost use Rattle.repo_objects.specs.Readings.{read_snapshot, read_manifest, read_log};
ghost use Rattle.live_refs.specs.Live.{live};
ghost use Rattle.store_api.specs.Program.{is_no_memory};
ghost use Rattle.repo_read.specs.Answers.{at_key};
ghost use Rattle.two_stores.specs.Pairs.{Awaits, Took};
ghost use Rattle.repo_objects.specs.Lines.{found, enter_ids, enter_rows};
ghost use Rattle.mirror_reports.specs.Told.{bytes_told, listed_told, file_under};
ghost use Rattle.mirror.specs.Programs.{ref_ids, copy_refs, copy_line, down, down_onto, behind_ref};
ghost use Rattle.mirror.specs.inside.Registers.{many};
ghost use Rattle.mirror.specs.inside.Working.{work_of, object_key, behind_line, behind_refs, behind_chunk, behind_manifest, on_first, taken, stage_rest, mirror_rest, HasFirst, Lands, EndsOutright, Entered, Refuses, mirror_left, stage_left, refs_left, others_left, line_left, files_left, chunks_left, taken_left, each_snapshot};

use crate::lines::{Link, Links};
use crate::mirror::{Mirror, Object, Stage};
use crate::register::Phase;
use held_manifest::HeldManifest;
use ice_base::Bytes;
use ice_ids::Id12;
use mirror_reports::files::file_under;
use mirror_reports::replies::{bytes_told, listed_told, ref_told};
use repo_objects::{Loaded, Unread, log_hold, manifest_hold};
use repo_read::{MOST_SNAPSHOTS, Resolved, snapshot_told};
use std::mem;
use store_api::{Entry, Key, Refusal, Reply};
use two_stores::Side;

/// The manifest of this id, or `BadFile`. It takes no memory.
fn manifest_read(id: Id12, file: Bytes) -> Result<HeldManifest, Refusal>
    ensures { MatchResult result (λ held. read_manifest id file ≡ Ok held)
        (λ why. at_key (Key.Manifest id) (read_manifest id file) ≡ Err why) }
{
    match manifest_hold(id, file) {
        Ok(held) => Ok(held),
        Err(bad) => Err(Refusal::BadFile(Key::Manifest(id), bad)),
    }
}

/// Whether bytes are the log of this id, or `BadFile`. It takes no memory.
fn log_fits(id: Id12, file: Bytes) -> Result<(), Refusal>
    ensures { MatchResult result (λ _. Entered (read_log id file) (λ log. Unit {0}))
        (λ why. at_key (Key.Txn id) (read_log id file) ≡ Err why) }
{
    match log_hold(id, file) {
        Ok(_) => Ok(()),
        Err(bad) => Err(Refusal::BadFile(Key::Txn(id), bad)),
    }
}

impl Mirror {
    pub(crate) fn on_list(&mut self, reply: Reply)
        requires starved { self.old.stage ≡ Stage.Starved }
        requires awaited { Awaits (stage_rest Stage.List self.old (work_of self.old)) reply }
        ensures took { Took (stage_rest Stage.List self.old (work_of self.old)) reply
            (mirror_rest self.new) }
        ensures outright { EndsOutright (work_of self.old) (listed_told reply)
            (mirror_rest self.new) }
        ensures falls { mirror_left self.new < stage_left Stage.List self.old }
    {
        match listed_told(reply) {
            Ok(listed) => self.after_list(listed.entries.as_slice()),
            Err(why) => self.refuse(why),
        }
    }

    pub(crate) fn after_list(&mut self, entries: &[Entry])
        requires starved { self.old.stage ≡ Stage.Starved }
        ensures lands { Lands self.old.register.refs
            (copy_refs (ref_ids (live entries.now)) (work_of self.old)
            (behind_refs self.old.register.phase)) (mirror_rest self.new) }
        ensures falls { mirror_left self.new < stage_left Stage.List self.old }
    {
        if let Ok(()) = self.register.enter(self.alloc, entries) {
            self.next_ref();
        }
    }

    /// Goes on with the next ref, and behind the last one with the tags, or to the end.
    pub(crate) fn next_ref(&mut self)
        ensures lands { mirror_rest self.new ≡ copy_refs self.old.register.names (work_of self.old)
            (behind_refs self.old.register.phase) }
        ensures falls { mirror_left self.new ≤ refs_left self.old }
    {
        match (self.register.first(), self.register.phase()) {
            (Some(_), _) => self.stage = Stage::Ref,
            (None, Phase::Branches) => {
                self.register.turn_to_tags();
                self.stage = Stage::List;
            }
            (None, Phase::Tags) => self.finish(),
        }
    }

    /// Ends well.
    pub(crate) fn finish(&mut self)
        ensures { self.new ≡ record self.old { stage = Stage.Ended; result = Ok self.old.counts } }
    {
        drop(mem::replace(&mut self.result, Ok(self.counts)));
        self.stage = Stage::Ended;
    }

    pub(crate) fn on_ref(&mut self, reply: Reply)
        requires starved { self.old.stage ≡ Stage.Starved }
        requires awaited { Awaits (stage_rest Stage.Ref self.old (work_of self.old)) reply }
        ensures took { Took (stage_rest Stage.Ref self.old (work_of self.old)) reply
            (mirror_rest self.new) }
        ensures falls { mirror_left self.new < stage_left Stage.Ref self.old }
    {
        match ref_told(self.alloc, Side::From, self.first(), reply) {
            Ok(named) => self.after_ref(named),
            Err(why) => self.refuse(why),
        }
    }

    /// Goes down from the snapshot that a ref names; one that is absent is passed over.
    pub(crate) fn after_ref(&mut self, named: Option<Resolved>)
        requires starved { self.old.stage ≡ Stage.Starved }
        requires first { HasFirst self.old }
        ensures lands { mirror_rest self.new ≡ on_first self.old.register.names (work_of self.old)
            (λ r next. behind_ref r (work_of self.old) next named) self.old.register.phase }
        ensures falls { mirror_left self.new < refs_left self.old }
    {
        match named {
            None => {
                self.register.pass();
                self.next_ref();
            }
            Some(named) => {
                self.target = named.id;
                self.left = MOST_SNAPSHOTS;
                drop(mem::replace(&mut self.line, Links::new(self.alloc)));
                self.down(named.id);
            }
        }
    }

    /// Goes on with this snapshot of the way down, or ends the way where it is copied.
    pub(crate) fn down(&mut self, id: Id12)
        requires starved { self.old.stage ≡ Stage.Starved }
        requires few { length self.old.line < many }
        ensures lands { mirror_rest self.new ≡ down self.old.left self.old.line (work_of self.old)
            (behind_line self.old) id }
        ensures falls { mirror_left self.new < self.old.left + each_snapshot * many + 4
            + others_left self.old }
    {
        if self.copied.contains(&id) {
            self.next_link();
        } else if self.left == 0 {
            self.refuse(Refusal::TooDeep);
        } else {
            self.left -= 1;
            self.stage = Stage::Down(id);
        }
    }

    pub(crate) fn on_down(&mut self, id: Id12, reply: Reply)
        requires starved { self.old.stage ≡ Stage.Starved }
        requires awaited { Awaits (stage_rest (Stage.Down id) self.old (work_of self.old)) reply }
        ensures took { Took (stage_rest (Stage.Down id) self.old (work_of self.old)) reply
            (mirror_rest self.new) }
        ensures falls { mirror_left self.new < stage_left (Stage.Down id) self.old }
    {
        match snapshot_told(self.alloc, id, reply) {
            Ok(loaded) => self.after_down(id, loaded.file().parent()),
            Err(why) => self.refuse(why),
        }
    }

    /// Goes on with the parent of a snapshot, and behind the oldest one with the way up.
    pub(crate) fn after_down(&mut self, id: Id12, parent: Option<Id12>)
        requires starved { self.old.stage ≡ Stage.Starved }
        ensures lands { Lands self.old.register.refs
            (down_onto (λ more next. down self.old.left more (work_of self.old)
            (behind_line self.old) next) self.old.line (work_of self.old) (behind_line self.old) id
            parent) (mirror_rest self.new) }
        ensures falls { mirror_left self.new < stage_left (Stage.Down id) self.old }
    {
        let Ok(()) = self.line.push(Link { id, parent }) else {
            return;
        };
        let _few = self.line.len();
        match parent {
            None => self.next_link(),
            Some(parent) => self.down(parent),
        }
    }

    /// Goes on with the next snapshot of the way up, and behind the last one with the target's ref.
    pub(crate) fn next_link(&mut self)
        requires starved { self.old.stage ≡ Stage.Starved }
        ensures lands { mirror_rest self.new ≡ copy_line self.old.line (work_of self.old)
            (behind_line self.old) }
        ensures falls { mirror_left self.new ≤ line_left self.old }
    {
        match self.line.take() {
            None => self.stage = Stage::Target,
            Some(link) => {
                self.link = link;
                self.stage = Stage::Take(Object::Snapshot);
            }
        }
    }

    pub(crate) fn on_take(&mut self, object: Object, reply: Reply)
        requires starved { self.old.stage ≡ Stage.Starved }
        requires awaited { Awaits (stage_rest (Stage.Take object) self.old (work_of self.old))
            reply }
        ensures took { Took (stage_rest (Stage.Take object) self.old (work_of self.old)) reply
            (mirror_rest self.new) }
        ensures outright { EndsOutright (work_of self.old)
            (bytes_told Side.From (object_key object self.old) reply) (mirror_rest self.new) }
        ensures falls { mirror_left self.new < stage_left (Stage.Take object) self.old }
    {
        match bytes_told(Side::From, self.key_of(object), reply) {
            Ok(bytes) => self.after_take(object, bytes),
            Err(why) => self.refuse(why),
        }
    }

    pub(crate) fn after_take(&mut self, object: Object, bytes: Bytes)
        requires starved { self.old.stage ≡ Stage.Starved }
        ensures lands { Lands self.old.register.refs
            (taken object self.old (work_of self.old) bytes) (mirror_rest self.new) }
        ensures falls { mirror_left self.new ≤ taken_left object self.old }
    {
        match object {
            Object::Chunk(id) => self.take_chunk(id, bytes),
            Object::Manifest(id) => self.take_manifest(id, bytes),
            Object::Log => self.take_log(bytes),
            Object::Snapshot => self.take_snapshot(bytes),
        }
    }

    pub(crate) fn take_chunk(&mut self, id: Id12, bytes: Bytes)
        requires starved { self.old.stage ≡ Stage.Starved }
        ensures lands { mirror_rest self.new ≡ taken (Object.Chunk id) self.old (work_of self.old)
            bytes }
        ensures falls { mirror_left self.new ≤ taken_left (Object.Chunk id) self.old }
    {
        self.object = bytes;
        self.stage = Stage::Put(Object::Chunk(id));
    }

    pub(crate) fn take_manifest(&mut self, id: Id12, bytes: Bytes)
        requires starved { self.old.stage ≡ Stage.Starved }
        ensures lands { Lands self.old.register.refs
            (taken (Object.Manifest id) self.old (work_of self.old) bytes) (mirror_rest self.new) }
        ensures falls { mirror_left self.new ≤ taken_left (Object.Manifest id) self.old }
    {
        match self.enter_manifest(id, &bytes) {
            Ok(()) => {
                self.file = id;
                self.manifest = bytes;
                self.next_chunk();
            }
            Err(why) => self.refuse(why),
        }
    }

    /// The objects in which a manifest has chunks are found.
    pub(crate) fn enter_manifest(&mut self, id: Id12, bytes: &Bytes) -> Result<(), Refusal>
        ensures ok { OnOk result
            (Entered (read_manifest id bytes.now)
            (λ m. self.new ≡ record self.old
            { chunks = enter_ids (objects_of m) (found self.old.chunks.all) })) }
        ensures few { OnOk result (length self.new.chunks.todo < many) }
        ensures err { IfErr result (λ why. is_no_memory why ≡ false
            → at_key (Key.Manifest id) (read_manifest id bytes.now) ≡ Err why) }
        ensures refs { self.new.register ≡ self.old.register }
    {
        let Ok(copy) = bytes.copy(self.alloc) else {
            return Err(Refusal::NoMemory);
        };
        let held = manifest_read(id, copy)?;
        self.chunks.leave();
        let entered = self.chunks.enter_objects(&held);
        drop(held);
        let _few = self.chunks.waiting();
        match entered {
            Ok(()) => Ok(()),
            Err(_) => Err(Refusal::NoMemory),
        }
    }

    /// Goes on with the next object with chunks, and behind the last one puts the manifest.
    pub(crate) fn next_chunk(&mut self)
        requires starved { self.old.stage ≡ Stage.Starved }
        ensures lands { mirror_rest self.new ≡ behind_chunk self.old (work_of self.old) }
        ensures falls { mirror_left self.new ≤ chunks_left self.old }
    {
        match self.chunks.take() {
            None => self.stage = Stage::Put(Object::Manifest(self.file)),
            Some(id) => self.stage = Stage::Take(Object::Chunk(id)),
        }
    }

    pub(crate) fn take_log(&mut self, bytes: Bytes)
        requires starved { self.old.stage ≡ Stage.Starved }
        ensures lands { Lands self.old.register.refs (taken Object.Log self.old (work_of self.old)
            bytes) (mirror_rest self.new) }
        ensures falls { mirror_left self.new ≤ taken_left Object.Log self.old }
    {
        match self.check_log(&bytes) {
            Ok(()) => {
                self.object = bytes;
                self.stage = Stage::Put(Object::Log);
            }
            Err(why) => self.refuse(why),
        }
    }

    /// Whether the bytes are the log of the snapshot in work.
    pub(crate) fn check_log(&self, bytes: &Bytes) -> Result<(), Refusal>
        ensures ok { OnOk result (Entered (read_log self.now.link.id bytes.now) (λ log. Unit {0})) }
        ensures err { IfErr result (λ why. is_no_memory why ≡ false
            → at_key (Key.Txn self.now.link.id) (read_log self.now.link.id bytes.now) ≡ Err why) }
    {
        let id = self.link.id;
        let Ok(copy) = bytes.copy(self.alloc) else {
            return Err(Refusal::NoMemory);
        };
        log_fits(id, copy)?;
        Ok(())
    }

    pub(crate) fn take_snapshot(&mut self, bytes: Bytes)
        requires starved { self.old.stage ≡ Stage.Starved }
        ensures lands { Lands self.old.register.refs
            (taken Object.Snapshot self.old (work_of self.old) bytes) (mirror_rest self.new) }
        ensures falls { mirror_left self.new ≤ taken_left Object.Snapshot self.old }
    {
        match self.enter_snapshot(bytes) {
            Ok(file) => {
                self.snapshot = file;
                self.next_manifest();
            }
            Err(why) => self.refuse(why),
        }
    }

    /// The manifests that the snapshot in work names are found. The file that is put of it.
    pub(crate) fn enter_snapshot(&mut self, bytes: Bytes) -> Result<Bytes, Refusal>
        ensures ok { IfOk result (λ file. Entered (read_snapshot self.old.link.id bytes)
            (λ s. (self.new ≡ record self.old
            { files = enter_rows s.nodes (found self.old.files.all) })
            × (file_under self.old.link.parent bytes s ≡ Ok file))) }
        ensures few { OnOk result (length self.new.files.todo < many) }
        ensures err { IfErr result (λ why. is_no_memory why ≡ false
            → Refuses self.old.link bytes why) }
        ensures refs { self.new.register ≡ self.old.register }
    {
        let id = self.link.id;
        let Ok(copy) = bytes.copy(self.alloc) else {
            return Err(Refusal::NoMemory);
        };
        let loaded = match Loaded::read(self.alloc, id, copy) {
            Ok(loaded) => loaded,
            Err(Unread::NoMemory) => return Err(Refusal::NoMemory),
            Err(Unread::Bad(bad)) => return Err(Refusal::BadFile(Key::Snapshot(id), bad)),
        };
        let file = file_under(self.alloc, self.link.parent, bytes, &loaded)?;
        self.files.leave();
        let entered = self.files.enter_rows(&loaded.file().nodes());
        drop(loaded);
        let _few = self.files.waiting();
        match entered {
            Ok(()) => Ok(file),
            Err(_) => Err(Refusal::NoMemory),
        }
    }

    /// Goes on with the next manifest, and behind the last one with the log; the initial snapshot has none.
    pub(crate) fn next_manifest(&mut self)
        requires starved { self.old.stage ≡ Stage.Starved }
        ensures lands { mirror_rest self.new ≡ behind_manifest self.old (work_of self.old) }
        ensures falls { mirror_left self.new ≤ files_left self.old }
    {
        match self.files.take() {
            Some(id) => self.stage = Stage::Take(Object::Manifest(id)),
            None => {
                if self.link.id == Id12::INITIAL {
                    self.stage = Stage::Put(Object::Snapshot);
                } else {
                    self.stage = Stage::Take(Object::Log);
                }
            }
        }
    }
}
