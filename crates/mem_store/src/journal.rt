//! The journal, and which puts stand after it.

ghost use Rattle.std.specs.Prelude.{◌≡◌, ◌<◌, length, vec_capacity, vec_len, IfOk, OnErr, OnOk};
ghost use Rattle.object_store.specs.declared.keys.Key.{Key as Name};
ghost use Rattle.mem_store.specs.Places.{place_in, place_after};

use crate::answers::Standing;
use crate::events::EventRef;
use crate::index::Index;
use crate::kept_events::{Answer, KeptEvent, event_at, last_time, put_in};
use ice_base::Clock;
use object_store::{Entries, Entry, Key, Op, Part};
use std::alloc::{AllocError, Global};
use std::collections::btree_map::Iter;
use std::marker::Model;

/// A journal. Contracts see it as its events; beside them it keeps which put stands at each key.
#[derive(Debug, Drop)]
pub(crate) struct Journal {
    logs: Vec<KeptEvent>,
    index: Index,
}

impl Model for Journal {
    ghost use Rattle.std.specs.Prelude.{List};
    ghost use Rattle.object_store.specs.declared.events.Event.{Event};

    ghost Value = { List Event };

    ghost use Rattle.mem_store.specs.Kept.{journal_kept, IsIndexed};

    ghost view = { journal_kept };

    ghost invariant = { IsIndexed };
}

impl Journal {
    ghost use Rattle.std.specs.Prelude.{◌≡◌, ◌<◌, ◌^◌, ◌++◌, [], ◌∷◌, length, option_map, slice_get, IfOk, OnErr};
    ghost use Rattle.object_store.specs.Machine.{found, last_time, IsListing};
    ghost use Rattle.mem_store.specs.Standing.{stored_of};
    ghost use Rattle.mem_store.specs.Lent.{event_lent};
    ghost use Rattle.mem_store.specs.Times.{IsTime};
    ghost use Rattle.mem_store.specs.KeptEvents.{put_in, puts_in, event_in};
    ghost use Rattle.mem_store.specs.Listed.{entries_in};

    /// No events.
    pub(crate) fn new(alloc: Global) -> Journal
        ensures { result ≡ [] }
    {
        Journal {
            logs: Vec::new(alloc),
            index: Index::new(alloc),
        }
    }

    /// How many events there are.
    pub(crate) fn len(&self) -> usize
        ensures { result ≡ length self.now }
    {
        self.logs.len()
    }

    /// The event at a place.
    pub(crate) fn event(&self, place: usize) -> Option<EventRef<'_>>
        ensures { option_map event_lent result ≡ slice_get self.now place }
    {
        event_at(&self.logs, place)
    }

    /// The put that stands at a key.
    pub(crate) fn place(&self, key: &Key) -> Option<u64>
        ensures { puts_in self.now result ≡ found self.now key.now }
    {
        self.index.place(key)
    }

    /// What the put at this place put.
    pub(crate) fn put(&self, place: u64) -> Standing<'_>
        ensures { stored_of result ≡ put_in self.now place }
    {
        put_in(&self.logs, place)
    }

    /// The entries of these keys and puts.
    fn entries(&self, alloc: Global, rows: Iter<'_, Key, u64>) -> Result<Entries, AllocError>
        ensures { IfOk result (λ entries. entries ≡ entries_in self.now rows.entry) }
    {
        let mut list = Entries::new(alloc);
        for (key, place) in rows {
            let put = self.put(*place);
            list.push(Entry {
                key: key.copy(alloc)?,
                size: put.bytes.len() as u64,
                created: put.created,
            })?;
        }
        Ok(list)
    }

    /// The listing of a part.
    pub(crate) fn listing(&self, alloc: Global, part: Part) -> Result<Entries, AllocError>
        ensures { IfOk result (λ entries. IsListing (found self.now) part entries) }
    {
        self.entries(alloc, self.index.shelf(part).iter())
    }

    /// Adds the event of an operation. It takes its memory before it asks the clock: without memory
    /// the clock too is as it was.
    pub(crate) fn add<C: Clock>(
        &mut self,
        alloc: Global,
        clock: &mut C,
        client: u32,
        op: Op,
        answer: Answer,
    ) -> Result<u64, AllocError>
        ensures added { IfOk result (λ time. self.new ≡ self.old ++ event_in self.old
            (record { client = client; op = op; answer = answer; time = time }) ∷ []) }
        ensures timely { IfOk result
            (λ time. IsTime C.gives clock.old clock.new (last_time self.old) time) }
        ensures fits { IfOk result (λ time. time < 2 ^ 64) }
        ensures err { OnErr result (self.new ≡ self.old) }
        ensures clock { OnErr result (clock.new ≡ clock.old) }
    {
        let done = answer.is_done();
        if let Err(error) = make_room(&mut self.logs, &mut self.index, alloc, &op, done) {
            drop((op, answer));
            return Err(error);
        }
        let time = clock.now().max(last_time(&self.logs));
        let log = KeptEvent {
            client,
            op,
            answer,
            time,
        };
        match self.logs.push(log) {
            Ok(()) => Ok(time),
            Err(_) => unreachable!(),
        }
    }
}

/// Takes the memory for one more event: there is room for it, and the index is as it is after it.
/// Without memory nothing has changed.
fn make_room(
    logs: &mut Vec<KeptEvent>,
    index: &mut Index,
    alloc: Global,
    op: &Op,
    done: bool,
) -> Result<(), AllocError>
    ensures room { OnOk result (vec_len logs.new < vec_capacity logs.new) }
    ensures logs { logs.new.items ≡ logs.old.items }
    ensures ok { OnOk result ((q : Name)
        → place_in index.new q ≡ place_after (length logs.old.items) op.now done q
        (place_in index.old q)) }
    ensures err { OnErr result ((q : Name) → place_in index.new q ≡ place_in index.old q) }
{
    logs.reserve(1)?;
    index.follow(alloc, op, done, logs.len() as u64)
}

/// A copy of entries.
pub(crate) fn copy(alloc: Global, entries: &[Entry]) -> Result<Entries, AllocError>
    ensures { IfOk result (λ copy. copy ≡ entries.now) }
{
    let mut list = Entries::new(alloc);
    for entry in entries {
        list.push(Entry {
            key: entry.key.copy(alloc)?,
            size: entry.size,
            created: entry.created,
        })?;
    }
    Ok(list)
}
