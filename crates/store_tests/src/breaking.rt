//! Files of the system that break, and what the store over them says and leaves.

use crate::calls::{Answering, Call, Counts, answers, branch, fails, made_on};
use crate::folders::{made, removed};
use crate::stores::{HostStore, claim_at};
use dir_store::DirStore;
use ice_base::TickClock;
use ice_ids::Id12;
use std::alloc::{Allocator, Global};
use std::cell::Cell;
use std::fs::{File, Metadata, OpenFile, OpenOptions};
use std::io::{ErrorKind, Read, Seek, SeekFrom, Write};
use std::rt::Files;
use std::test::Fail;
use std::{fs, io};
use store_api::{Got, Key, Over, Part, Reply, StoreFault};
use test_ends::{holds, none};

/// The number of the calls so far, and of the last call that made a folder in the directory itself, and
/// that flushed it.
#[derive(Drop)]
struct Calls {
    made: Cell<u64>,
    flushed: Cell<u64>,
    count: Cell<u64>,
}

impl Calls {
    fn new() -> Calls {
        Calls {
            made: Cell::new(0),
            flushed: Cell::new(0),
            count: Cell::new(0),
        }
    }

    /// Whether a folder was made, and the directory flushed behind the last one.
    fn are_flushed(&self) -> bool {
        self.made.get() < self.flushed.get()
    }
}

/// Files of the system. A call breaks: that one alone, or all from it on, as where a program is cut
/// off there. What no store calls breaks always.
#[derive(Clone, Copy)]
struct Breaking<'a> {
    rt: HostRuntime,
    calls: &'a Calls,
    broken: u64,
    for_good: bool,
}

impl<'a> Breaking<'a> {
    /// Counts a call, and tells whether it breaks.
    fn breaks(&self) -> bool {
        let number = self.calls.count.get();
        self.calls.count.set(number.saturating_add(1));
        number == self.broken || (self.for_good && number > self.broken)
    }

    /// Notes that this call made a folder in the directory.
    fn note_made(&self) {
        self.calls.made.set(self.calls.count.get());
    }

    /// Notes that this call flushed the directory.
    fn note_flushed(&self) {
        self.calls.flushed.set(self.calls.count.get());
    }
}

/// Why a call breaks.
fn full() -> io::Error {
    io::Error::from(ErrorKind::StorageFull)
}

/// An open file of them.
#[derive(Drop)]
struct BreakingFile<'a> {
    file: File,
    files: Breaking<'a>,
    is_root: bool,
}

impl<'a> Read for BreakingFile<'a> {
    fn read(&mut self, buf: &mut [u8]) -> io::Result<usize> {
        if self.files.breaks() {
            return Err(full());
        }
        self.file.read(buf)
    }
}

impl<'a> Write for BreakingFile<'a> {
    /// A write that breaks has written one byte.
    fn write(&mut self, buf: &[u8]) -> io::Result<usize> {
        if self.files.breaks() {
            let _ = self.file.write(buf.get(..1).unwrap_or(buf));
            return Err(full());
        }
        self.file.write(buf)
    }

    fn flush(&mut self) -> io::Result<()> {
        Ok(())
    }
}

impl<'a> Seek for BreakingFile<'a> {
    fn seek(&mut self, _to: SeekFrom) -> io::Result<u64> {
        Err(full())
    }
}

/// Nothing is flushed, so that the tests are quick.
impl<'a> OpenFile for BreakingFile<'a> {
    fn metadata(&self) -> io::Result<Metadata> {
        if self.files.breaks() {
            return Err(full());
        }
        self.file.metadata()
    }

    fn set_len(&self, _size: u64) -> io::Result<()> {
        Err(full())
    }

    fn sync_all(&self) -> io::Result<()> {
        if self.files.breaks() {
            return Err(full());
        }
        if self.is_root {
            self.files.note_flushed();
        }
        Ok(())
    }

    fn sync_data(&self) -> io::Result<()> {
        Err(full())
    }
}

impl<'a> Alloc for Breaking<'a> {
    type A = Global;

    fn alloc(&self) -> Global {
        self.rt.alloc()
    }
}

impl<'a> Files for Breaking<'a> {
    type File = BreakingFile<'a>;

    type Dir = <HostRuntime as Files>::Dir;

    fn open_file(&self, how: &OpenOptions, path: &str) -> io::Result<BreakingFile<'a>> {
        if self.breaks() {
            return Err(full());
        }
        Ok(BreakingFile {
            file: self.rt.open_file(how, path)?,
            files: *self,
            is_root: !path.contains('/'),
        })
    }

    fn open_dir(&self, path: &str) -> io::Result<<HostRuntime as Files>::Dir> {
        if self.breaks() {
            return Err(full());
        }
        self.rt.open_dir(path)
    }

    fn metadata(&self, _path: &str) -> io::Result<Metadata> {
        Err(full())
    }

    fn symlink_metadata(&self, path: &str) -> io::Result<Metadata> {
        if self.breaks() {
            return Err(full());
        }
        Files::symlink_metadata(&self.rt, path)
    }

    fn copy(&self, _from: &str, _to: &str) -> io::Result<u64> {
        Err(full())
    }

    fn rename(&self, from: &str, to: &str) -> io::Result<()> {
        if self.breaks() {
            return Err(full());
        }
        Files::rename(&self.rt, from, to)
    }

    fn remove_file(&self, path: &str) -> io::Result<()> {
        if self.breaks() {
            return Err(full());
        }
        Files::remove_file(&self.rt, path)
    }

    fn create_dir(&self, path: &str) -> io::Result<()> {
        if self.breaks() {
            return Err(full());
        }
        Files::create_dir(&self.rt, path)?;
        self.note_made();
        Ok(())
    }

    fn remove_dir(&self, _path: &str) -> io::Result<()> {
        Err(full())
    }

    fn remove_dir_all<B: Allocator>(&self, _alloc: B, _path: &str) -> io::Result<()> {
        Err(full())
    }

    fn hard_link(&self, original: &str, link: &str) -> io::Result<()> {
        if self.breaks() {
            return Err(full());
        }
        Files::hard_link(&self.rt, original, link)
    }
}

/// A store in a directory of them, and what it counts.
#[derive(Drop)]
struct BreakingStore<'a> {
    store: DirStore<Breaking<'a>, TickClock>,
    counts: Counts,
}

impl<'a> BreakingStore<'a> {
    /// The store in the directory at this path, if that can be listed.
    fn at(files: Breaking<'a>, path: &str) -> Option<BreakingStore<'a>> {
        match DirStore::at(files, path, TickClock::new()) {
            Ok(store) => Some(BreakingStore {
                store,
                counts: Counts::NONE,
            }),
            Err(_) => None,
        }
    }
}

impl<'a> Answering for BreakingStore<'a> {
    fn reply(&mut self, key: &Key, call: &Call<'_>) -> Result<Reply, StoreFault> {
        made_on(&mut self.store, &mut self.counts, key, call)
    }
}

/// More calls than the operations below make.
const MOST: u64 = 300;

/// The keys that the operations are on.
#[derive(Drop)]
struct Keys {
    snapshot: Key,
    main: Key,
    other: Key,
}

/// One of the keys.
#[derive(Clone, Copy)]
enum At {
    Snapshot,
    Main,
    Other,
}

impl Keys {
    fn make(alloc: Global) -> Option<Keys> {
        let main = branch(alloc, "main")?;
        let other = branch(alloc, "other")?;
        Some(Keys {
            snapshot: Key::Snapshot(Id12::INITIAL),
            main,
            other,
        })
    }

    fn at(&self, at: At) -> &Key {
        match at {
            At::Snapshot => &self.snapshot,
            At::Main => &self.main,
            At::Other => &self.other,
        }
    }
}

/// Whether an operation is made in the directory at this path.
fn makes(rt: HostRuntime, path: &str, key: &Key, call: &Call<'_>) -> bool {
    let Ok(mut store) = HostStore::at(rt, path, TickClock::new()) else {
        return false;
    };
    let makes = answers(&mut store, key, call);
    drop(store);
    makes
}

/// Makes a directory with one branch.
fn begins(rt: HostRuntime, path: &str, keys: &Keys) -> bool {
    made(rt, path) && makes(rt, path, &keys.main, &Call::New(b"one"))
}

/// Writes, reads and removals.
const NINE: [(At, Call<'static>); 9] = [
    (At::Snapshot, Call::New(b"whole")),
    (At::Main, Call::Over(b"two", b"one")),
    (At::Main, Call::New(b"never")),
    (At::Other, Call::New(b"made")),
    (At::Main, Call::Get),
    (At::Main, Call::List(Part::Branches)),
    (At::Main, Call::List(Part::Snapshots)),
    (At::Other, Call::RemoveAt(b"made")),
    (At::Snapshot, Call::Remove),
];

/// Makes the nine operations, and tells how many failed.
fn failures<S: Answering>(store: &mut S, keys: &Keys) -> u64 {
    let mut failed: u64 = 0;
    for (at, call) in &NINE {
        if fails(store, keys.at(*at), call) {
            failed = failed.saturating_add(1);
        }
    }
    failed
}

/// Makes the nine operations in the directory at this path: how many failed, and whether those and no others were counted as
/// failures, and all of them as operations.
fn failed_of_nine(files: Breaking<'_>, path: &str, keys: &Keys) -> Option<(u64, bool)> {
    let mut store = BreakingStore::at(files, path)?;
    let failed = failures(&mut store, keys);
    let counted = store.counts.faults == failed && store.counts.operations == 9;
    drop(store);
    Some((failed, counted))
}

/// Makes the operations in a fresh directory, with this call broken: whether the call was made, and whether it, and no other,
/// was counted as a failure.
fn work(
    rt: HostRuntime,
    path: &str,
    keys: &Keys,
    broken: u64,
    for_good: bool,
) -> Option<(bool, bool)> {
    if !begins(rt, path, keys) {
        return None;
    }
    let calls = Calls::new();
    let files = Breaking {
        rt,
        calls: &calls,
        broken,
        for_good,
    };
    let (failed, counted) = failed_of_nine(files, path, keys)?;
    let broke = calls.count.get() > broken;
    Some((broke, counted && failed == u64::from(broke)))
}

/// Breaks each call in turn, until none is left to break: the first whose failure isn't counted, if there is one.
fn first_uncounted(rt: HostRuntime, keys: &Keys) -> Option<u64> {
    for broken in 1..MOST {
        match work(rt, "failing_calls", keys, broken, false) {
            Some((true, true)) => {}
            Some((false, true)) => return None,
            _ => return Some(broken),
        }
    }
    Some(MOST)
}

fn uncounted(rt: HostRuntime) -> Option<u64> {
    let Some(keys) = Keys::make(rt.alloc()) else {
        return Some(0);
    };
    let uncounted = first_uncounted(rt, &keys);
    drop(keys);
    uncounted
}

#[test]
fn each_failed_call_is_counted(rt: HostRuntime) -> Result<(), Fail> {
    none(uncounted(rt))?;
    removed(rt, "failing_calls")
}

/// Whether these contents may stand at a key where a run of the operations is cut off.
fn may_stand(at: At, bytes: &[u8]) -> bool {
    match at {
        At::Snapshot => bytes == b"whole".as_slice(),
        At::Main => bytes == b"one".as_slice() || bytes == b"two".as_slice(),
        At::Other => bytes == b"made".as_slice(),
    }
}

/// Whether what was got may be what is at a key then.
fn may_be(at: At, got: &Got) -> bool {
    match got {
        Got::Found { bytes, .. } => may_stand(at, bytes.as_slice()),
        Got::Absent { .. } => !matches!(at, At::Main),
    }
}

/// Whether a key has contents that it may have, or, where that may be, none.
fn is_whole<S: Answering>(store: &mut S, keys: &Keys, at: At) -> bool {
    let reply = store.reply(keys.at(at), &Call::Get);
    let is = match &reply {
        Ok(Reply::Got(got)) => may_be(at, got),
        _ => false,
    };
    drop(reply);
    is
}

/// Whether a branch that has one of its two contents is there, and can be put over.
fn moves<S: Answering>(store: &mut S, main: &Key) -> bool {
    moves_from(store, main, b"one") || moves_from(store, main, b"two")
}

/// Whether a branch of these contents can be put over.
fn moves_from<S: Answering>(store: &mut S, main: &Key, bytes: &[u8]) -> bool {
    let reply = store.reply(main, &Call::Over(b"three", bytes));
    let moves = matches!(&reply, Ok(Reply::Over(Over::Done { .. })));
    drop(reply);
    moves
}

/// Whether what is in a store is whole, and can be gone on with.
fn is_sound<S: Answering>(store: &mut S, keys: &Keys) -> bool {
    is_whole(store, keys, At::Main)
        && is_whole(store, keys, At::Snapshot)
        && is_whole(store, keys, At::Other)
        && moves(store, &keys.main)
}

/// Whether what a program that was cut off has left is whole, and can be gone on with.
fn goes_on(rt: HostRuntime, path: &str, keys: &Keys) -> bool {
    let Ok(mut claimed) = claim_at(rt, path) else {
        return false;
    };
    let is_sound = is_sound(&mut claimed.store, keys);
    drop(claimed);
    is_sound
}

/// Whether so many files are left aside.
fn leaves(rt: HostRuntime, path: &str, count: usize) -> bool {
    match fs::read_dir(&rt, path) {
        Ok(files) => files.count() == count,
        Err(_) => false,
    }
}

/// Cuts a program off at each call in turn, until none is left: the first call behind which what is left isn't whole, or
/// something is left aside, if there is one.
fn first_broken(rt: HostRuntime, keys: &Keys) -> Option<u64> {
    for broken in 1..MOST {
        let Some((broke, _)) = work(rt, "cut_off", keys, broken, true) else {
            return Some(broken);
        };
        if !goes_on(rt, "cut_off", keys) || !leaves(rt, "cut_off/icerepo.new", 0) {
            return Some(broken);
        }
        if !broke {
            return None;
        }
    }
    Some(MOST)
}

fn broken_off(rt: HostRuntime) -> Option<u64> {
    let Some(keys) = Keys::make(rt.alloc()) else {
        return Some(0);
    };
    let broken = first_broken(rt, &keys);
    drop(keys);
    broken
}

#[test]
fn a_program_that_is_cut_off_leaves_whole_files(rt: HostRuntime) -> Result<(), Fail> {
    none(broken_off(rt))?;
    removed(rt, "cut_off")
}

/// Leaves a thousand files and more where files are put aside, and one that was never put there.
fn litter(rt: HostRuntime) -> io::Result<()> {
    for number in 0..1200u32 {
        let path = format!(in rt.alloc(); "leftovers/icerepo.new/{number}")?;
        fs::write(&rt, path.as_str(), "cut off")?;
    }
    fs::write(&rt, "leftovers/icerepo.new/readme", "mine")
}

/// Whether a put is done beside leftovers, and what is there then can be gone on with.
fn puts_beside_litter(rt: HostRuntime, keys: &Keys) -> bool {
    begins(rt, "leftovers", keys)
        && litter(rt).is_ok()
        && makes(rt, "leftovers", &keys.other, &Call::New(b"made"))
        && goes_on(rt, "leftovers", keys)
}

fn goes_on_beside_litter(rt: HostRuntime) -> bool {
    let Some(keys) = Keys::make(rt.alloc()) else {
        return false;
    };
    let goes_on = puts_beside_litter(rt, &keys);
    drop(keys);
    goes_on
}

#[test]
fn leftovers_never_stop_a_put(rt: HostRuntime) -> Result<(), Fail> {
    holds(goes_on_beside_litter(rt), "goes on")?;
    holds(leaves(rt, "leftovers/icerepo.new", 1), "one is left")?;
    removed(rt, "leftovers")
}

/// Whether a snapshot is put.
fn puts<S: Answering>(store: &mut S, id: Id12) -> bool {
    let key = Key::Snapshot(id);
    let puts = answers(store, &key, &Call::New(b"one"));
    drop(key);
    puts
}

/// Puts two snapshots in the directory at this path: whether the first put was done, and whether the second one was.
fn two_puts(files: Breaking<'_>, path: &str) -> Option<(bool, bool)> {
    let mut store = BreakingStore::at(files, path)?;
    let first = puts(&mut store, Id12([1; 12]));
    let second = puts(&mut store, Id12([2; 12]));
    drop(store);
    Some((first, second))
}

/// Puts two snapshots in an empty directory, with this call broken: whether the first put was refused, and
/// whether the second put was done and the directory flushed behind the last folder made in it.
fn put_two(rt: HostRuntime, path: &str, broken: u64) -> Option<(bool, bool)> {
    if !made(rt, path) {
        return None;
    }
    let calls = Calls::new();
    let files = Breaking {
        rt,
        calls: &calls,
        broken,
        for_good: false,
    };
    let (first, second) = two_puts(files, path)?;
    Some((!first, second && calls.are_flushed()))
}

/// Breaks each call in turn, until the first put isn't refused: the first behind which the second put wasn't done, or the
/// directory not flushed, if there is one.
fn first_unflushed(rt: HostRuntime) -> Option<u64> {
    for broken in 1..MOST {
        match put_two(rt, "flushed", broken) {
            Some((true, true)) => {}
            Some((false, _)) => return None,
            _ => return Some(broken),
        }
    }
    Some(MOST)
}

#[test]
fn a_folder_is_made_once_it_is_flushed(rt: HostRuntime) -> Result<(), Fail> {
    none(first_unflushed(rt))?;
    removed(rt, "flushed")
}
