//! The store in memory.

ghost use Rattle.std.specs.Prelude.{◌≡◌, [], refl, true, length, option_map, slice_get, IfOk, IfErr, OnOk, OnErr, IsOk};
ghost use Rattle.object_store.specs.Machine.{found, version_at, IsListing};
ghost use Rattle.object_store.specs.Callers.{Called, as_client};
ghost use Rattle.mem_store.specs.Standing.{copy_of};
ghost use Rattle.mem_store.specs.Lent.{event_lent};
ghost use Rattle.mem_store.specs.KeptEvents.{puts_in};
ghost use Rattle.mem_store.specs.Memory.{journal_of, client_of, clock_of, view_of, IsLogged, IsUnchanged, Exactly};

use crate::answers::{Content, gone_answer, gone_at_answer, got, new_answer, over_answer};
use crate::events::EventRef;
use crate::journal::{Journal, copy};
use crate::kept_events::Answer;
use crate::requests;
use ice_base::{Bytes, Clock};
use object_store::{
    Entries, Gone, GoneAt, Got, Key, Listed, New, ObjectStore, Op, Over, Part, Reply, Rule,
    StoreFault, Version, Viewed, WholeStore, Why,
};
use std::alloc::{AllocError, Global};

/// A store in memory: it keeps its journal, and which put stands at each key, and answers from
/// them. It never answers `Failed`. An operation's time is the greater of its clock's moment and the
/// last operation's time. An operation costs a look-up, and a listing what stands in its part.
#[derive(Debug, Drop)]
pub struct MemStore<C> {
    alloc: Global,
    clock: C,
    client: u32,
    journal: Journal,
}

impl<C: Clock> MemStore<C> {
    /// A store with no events, for the client 0.
    pub fn new(alloc: Global, clock: C) -> MemStore<C>
        ensures journal { journal_of result ≡ [] }
        ensures client { client_of result ≡ 0 }
        ensures clock { clock_of result ≡ clock }
    {
        MemStore {
            alloc,
            clock,
            client: 0,
            journal: Journal::new(alloc),
        }
    }

    /// How many events there were.
    pub fn number_of_events(&self) -> usize
        ensures { result ≡ length (journal_of self.now) }
    {
        self.journal.len()
    }

    /// The event at a place of the journal.
    pub fn event(&self, place: usize) -> Option<EventRef<'_>>
        ensures { option_map event_lent result ≡ slice_get (journal_of self.now) place }
    {
        self.journal.event(place)
    }

    /// The version that stands at a key.
    pub fn standing(&self, key: &Key) -> Option<Version>
        ensures { result ≡ option_map (λ s. version_at s.version)
            (found (journal_of self.now) key.now) }
    {
        self.journal.place(key).map(Version)
    }

    pub(crate) fn allocator(&self) -> Global
        ensures { result ≡ self.now.alloc }
    {
        self.alloc
    }

    /// Adds the event of an operation, and tells its time.
    pub(crate) fn log(
        &mut self,
        op: Result<Op, AllocError>,
        answer: Answer,
    ) -> Result<u64, StoreFault>
        ensures logged { IfOk result
            (λ time. IfOk op (λ op. IsLogged C.gives op answer time self.old self.new)) }
        ensures made { OnOk result (IsOk op) }
        ensures fault { IfErr result (λ fault. fault ≡ StoreFault.NoMemory) }
        ensures unchanged { OnErr result (IsUnchanged self.old self.new) }
    {
        let Ok(op) = op else {
            return Err(StoreFault::NoMemory);
        };
        let logged = self
            .journal
            .add(self.alloc, &mut self.clock, self.client, op, answer);
        match logged {
            Ok(time) => Ok(time),
            Err(_) => Err(StoreFault::NoMemory),
        }
    }

    /// A copy of what a put put.
    fn copied(&self, at: Option<u64>) -> Result<Option<Content>, AllocError>
        ensures { IfOk result
            (λ copied. copied ≡ option_map copy_of (puts_in (journal_of self.now) at)) }
    {
        let Some(place) = at else {
            return Ok(None);
        };
        let put = self.journal.put(place);
        let bytes = Bytes::of(self.alloc, put.bytes)?;
        Ok(Some(Content {
            bytes,
            version: Version(put.version),
        }))
    }

    /// A listing, for the caller and for the journal.
    fn listed_twice(&self, part: Part) -> Result<(Entries, Entries), AllocError>
        ensures listing { IfOk result (λ pair. IsListing (found (journal_of self.now)) part
            pair.0) }
        ensures same { IfOk result (λ pair. pair.1 ≡ pair.0) }
    {
        let entries = self.journal.listing(self.alloc, part)?;
        let kept = copy(self.alloc, entries.as_slice())?;
        Ok((entries, kept))
    }
}

impl<C: Clock> Viewed for MemStore<C> {
    ghost view = { λ s. view_of s };
}

impl<C: Clock, R: Rule> ObjectStore<R> for MemStore<C> {
    fn get(&mut self, key: &Key) -> Result<Got, StoreFault>
        ensures call { Called R.may (λ got. Reply.Got got) (Op.Get key.now) result
            (view_of self.old) (view_of self.new) }
        ensures exact { Exactly C.gives (λ got. Reply.Got got) (Op.Get key.now) result self.old
            self.new }
    {
        let at = self.journal.place(key);
        let Ok(content) = self.copied(at) else {
            return Err(StoreFault::NoMemory);
        };
        let op = requests::get(self.alloc, key);
        let now = self.log(op, Answer::Stood(at))?;
        Ok(got(content, now))
    }

    fn put_new(&mut self, key: &Key, bytes: &[u8], why: Why) -> Result<New, StoreFault>
        ensures call { Called R.may (λ new. Reply.New new) (Op.PutNew key.now bytes.now why) result
            (view_of self.old) (view_of self.new) }
        ensures exact { Exactly C.gives (λ new. Reply.New new) (Op.PutNew key.now bytes.now why)
            result self.old self.new }
    {
        let at = self.journal.place(key);
        let place = self.journal.len() as u64;
        let op = requests::put_new(self.alloc, key, bytes, why);
        let now = self.log(op, Answer::Stood(at))?;
        Ok(new_answer(at, place, now))
    }

    fn put_over(
        &mut self,
        key: &Key,
        bytes: &[u8],
        old: Version,
        why: Why,
    ) -> Result<Over, StoreFault>
        ensures call { Called R.may (λ over. Reply.Over over) (Op.PutOver key.now bytes.now old why)
            result (view_of self.old) (view_of self.new) }
        ensures exact { Exactly C.gives (λ over. Reply.Over over)
            (Op.PutOver key.now bytes.now old why) result self.old self.new }
    {
        let at = self.journal.place(key);
        let place = self.journal.len() as u64;
        let op = requests::put_over(self.alloc, key, bytes, old, why);
        let now = self.log(op, Answer::Stood(at))?;
        Ok(over_answer(at, old, place, now))
    }

    fn remove(&mut self, key: &Key, why: Why) -> Result<Gone, StoreFault>
        ensures call { Called R.may (λ gone. Reply.Gone gone) (Op.Remove key.now why) result
            (view_of self.old) (view_of self.new) }
        ensures exact { Exactly C.gives (λ gone. Reply.Gone gone) (Op.Remove key.now why) result
            self.old self.new }
    {
        let at = self.journal.place(key);
        let op = requests::remove(self.alloc, key, why);
        let now = self.log(op, Answer::Stood(at))?;
        Ok(gone_answer(at, now))
    }

    fn remove_at(&mut self, key: &Key, old: Version, why: Why) -> Result<GoneAt, StoreFault>
        ensures call { Called R.may (λ gone. Reply.GoneAt gone) (Op.RemoveAt key.now old why) result
            (view_of self.old) (view_of self.new) }
        ensures exact { Exactly C.gives (λ gone. Reply.GoneAt gone) (Op.RemoveAt key.now old why)
            result self.old self.new }
    {
        let at = self.journal.place(key);
        let op = requests::remove_at(self.alloc, key, old, why);
        let now = self.log(op, Answer::Stood(at))?;
        Ok(gone_at_answer(at, old, now))
    }

    fn list(&mut self, part: Part) -> Result<Listed, StoreFault>
        ensures call { Called R.may (λ listed. Reply.Listed listed) (Op.List part) result
            (view_of self.old) (view_of self.new) }
        ensures exact { Exactly C.gives (λ listed. Reply.Listed listed) (Op.List part) result
            self.old self.new }
    {
        let Ok((entries, kept)) = self.listed_twice(part) else {
            return Err(StoreFault::NoMemory);
        };
        let now = self.log(Ok(Op::List { part }), Answer::Listed(kept))?;
        Ok(Listed { entries, now })
    }
}

impl<C: Clock> WholeStore for MemStore<C> {
    ghost tells = { true };

    fn set_client(&mut self, client: u32)
        ensures view { view_of self.new ≡ as_client client (view_of self.old) }
        ensures clock { clock_of self.new ≡ clock_of self.old }
    {
        self.client = client;
    }

    ghost told = { λ s. refl };

    ghost alone = { λ s. record { low = refl; end = refl } };
}
