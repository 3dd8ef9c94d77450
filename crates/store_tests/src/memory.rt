//! Stores in memory: a journal of many events, and a clock that goes back.

use ice_base::{Clock, RefName, TickClock};
use ice_ids::Id12;
use mem_store::MemStore;
use std::alloc::Global;
use std::test::Fail;
use store_api::{Got, Key, ObjectStore, Polite, StoreFault, Version, Why};
use test_ends::holds;

/// The key of a chunk; the keys ascend with the number.
fn chunk(number: u32) -> Key {
    let [a, b, c, d] = number.to_be_bytes();
    Key::Chunk(Id12([a, b, c, d, 0, 0, 0, 0, 0, 0, 0, 0]))
}

type Memory = MemStore<TickClock>;

const PUTS: u32 = 200_000;

const GETS: u32 = 400_000;

/// Whether the chunk of this number is put.
fn puts(store: &mut Memory, number: u32) -> bool {
    let key = chunk(number);
    let put = ObjectStore::<Polite>::put_new(store, &key, b"x", Why::Set);
    drop(key);
    put.is_ok()
}

fn puts_all(store: &mut Memory) -> bool {
    for number in 0..PUTS {
        if !puts(store, number) {
            return false;
        }
    }
    true
}

/// Whether an object is got.
fn gets(store: &mut Memory, key: &Key) -> bool {
    let got = ObjectStore::<Polite>::get(store, key);
    let gets = got.is_ok();
    drop(got);
    gets
}

fn gets_often(store: &mut Memory, key: &Key) -> bool {
    for _ in 0..GETS {
        if !gets(store, key) {
            return false;
        }
    }
    true
}

/// Whether all is put and got, and behind that the first chunk stands at its version.
fn stands(store: &mut Memory) -> bool {
    let first = chunk(0);
    let stands = puts_all(store)
        && gets_often(store, &first)
        && store.standing(&first) == Some(Version(0));
    drop(first);
    stands
}

/// An operation reads what stands, and not the journal: a walk over the journal would make more than
/// 100,000,000,000 turns here.
#[test]
fn many_events(rt: HostRuntime) -> Result<(), Fail> {
    let mut store = MemStore::new(rt.alloc(), TickClock::new());
    let stands = stands(&mut store);
    let events = store.number_of_events();
    drop(store);
    holds(stands, "the first chunk")?;
    holds(events == 600_000, "events")
}

/// A clock that goes back.
#[derive(Drop)]
struct Falling(u64);

impl Clock for Falling {
    fn now(&mut self) -> u64 {
        self.0 /= 2;
        self.0
    }
}

/// When nothing is found.
fn absent_at(got: Result<Got, StoreFault>) -> Option<u64> {
    let now = match &got {
        Ok(Got::Absent { now }) => Some(*now),
        _ => None,
    };
    drop(got);
    now
}

/// When nothing is found at a key, of two gets.
fn absent_twice(store: &mut MemStore<Falling>, key: &Key) -> [Option<u64>; 2] {
    let first = absent_at(ObjectStore::<Polite>::get(store, key));
    let second = absent_at(ObjectStore::<Polite>::get(store, key));
    [first, second]
}

/// When nothing is found at `main`, of two gets by a clock that goes back.
fn absent_behind(alloc: Global) -> Option<[Option<u64>; 2]> {
    let key = Key::Branch(RefName::main(alloc).ok()?);
    let mut store = MemStore::new(alloc, Falling(9));
    let times = absent_twice(&mut store, &key);
    drop(store);
    drop(key);
    Some(times)
}

#[test]
fn times_never_fall(rt: HostRuntime) -> Result<(), Fail> {
    let times = absent_behind(rt.alloc());
    holds(times == Some([Some(4), Some(4)]), "both are at 4")
}
