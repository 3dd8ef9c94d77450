//! A store over one in memory that answers otherwise than it should.

ghost use Rattle.std.specs.Prelude.{◌≡◌, false, refl, [], None, IfOk};
ghost use Rattle.snapshot_file.specs.Layout.{IsWritable};
ghost use Rattle.ice_base.specs.Ends.{raised};

use flat_tables::WriteFault;
use ice_base::{Bytes, Text, TickClock};
use ice_ids::Id12;
use ice_items::Items;
use mem_store::MemStore;
use snapshot_file::{Props, SnapshotFile, write};
use std::alloc::{AllocError, Global};
use store_api::{
    CountingStore, Entry, Gone, GoneAt, Got, Key, Listed, New, ObjectStore, Over, Part, Polite,
    Rule, StoreFault, Version, Viewed, WholeStore, Why,
};

/// What such a store answers otherwise than the one beneath.
#[derive(Clone, Copy)]
pub(crate) enum Lie {
    /// A get of the object with this name finds these bytes.
    Bytes(&'static str, &'static [u8]),
    /// A get of an object of this part finds under the first id what stands under the second one.
    Other(Part, Id12, Id12),
    /// A listing of the first part has the entries of these parts, one part after the other.
    Listing(Part, &'static [Part]),
    /// A listing of this part has its entries from the last to the first.
    Backwards(Part),
    /// Each snapshot whose id begins with 255 is there, without nodes, and its parent is the one with the next id.
    Endless,
    /// Each such snapshot is there, without nodes, and is its own parent.
    Own,
    /// A put over fails, and isn't done.
    Fails,
}

/// A store in memory that tells nothing of its journal. From one call on its lies hold.
#[derive(Drop)]
pub(crate) struct Lying {
    alloc: Global,
    memory: MemStore<TickClock>,
    lies: &'static [Lie],
    from: u64,
    made: u64,
    snapshots: u64,
    client: u32,
    faults: u64,
}

impl Lying {
    /// A store with no objects, whose lies hold from the call with this number on.
    pub(crate) fn new(alloc: Global, lies: &'static [Lie], from: u64) -> Lying {
        Lying {
            alloc,
            memory: MemStore::new(alloc, TickClock::new()),
            lies,
            from,
            made: 0,
            snapshots: 0,
            client: 0,
            faults: 0,
        }
    }

    /// From the next call on it has these lies alone.
    pub(crate) fn lie(&mut self, lies: &'static [Lie]) {
        self.lies = lies;
    }

    /// How many gets of snapshots there were.
    pub(crate) fn snapshots(&self) -> u64 {
        self.snapshots
    }
}

/// A number with one more. At its end it stands still.
fn one_more(count: u64) -> u64
    ensures { result ≡ raised count }
{
    count.saturating_add(1)
}

/// The number of gets of snapshots behind a get.
fn with_get(snapshots: u64, key: &Key) -> u64 {
    match key {
        Key::Snapshot(_) => one_more(snapshots),
        _ => snapshots,
    }
}

/// The lies that hold at a call.
fn holding(lies: &'static [Lie], from: u64, made: u64) -> &'static [Lie] {
    if made < from { &[] } else { lies }
}

/// What the store beneath finds.
fn beneath(memory: &mut MemStore<TickClock>, key: &Key) -> Result<Got, AllocError> {
    match ObjectStore::<Polite>::get(memory, key) {
        Ok(got) => Ok(got),
        Err(_) => Err(AllocError),
    }
}

/// The bytes that the store beneath finds.
fn bytes_beneath(memory: &mut MemStore<TickClock>, key: &Key) -> Result<Option<Bytes>, AllocError> {
    match beneath(memory, key)? {
        Got::Found { bytes, .. } => Ok(Some(bytes)),
        Got::Absent { .. } => Ok(None),
    }
}

/// The key of this part under the second id, where the key is that under the first one.
fn under_other(part: Part, from: Id12, to: Id12, key: &Key) -> Option<Key> {
    match (part, key) {
        (Part::Snapshots, Key::Snapshot(id)) if *id == from => Some(Key::Snapshot(to)),
        (Part::Manifests, Key::Manifest(id)) if *id == from => Some(Key::Manifest(to)),
        (Part::Txns, Key::Txn(id)) if *id == from => Some(Key::Txn(to)),
        (Part::Chunks, Key::Chunk(id)) if *id == from => Some(Key::Chunk(to)),
        _ => None,
    }
}

/// What stands under the other id.
fn other_bytes(
    memory: &mut MemStore<TickClock>,
    other: Option<Key>,
) -> Result<Option<Bytes>, AllocError> {
    let Some(other) = other else {
        return Ok(None);
    };
    let bytes = bytes_beneath(memory, &other);
    drop(other);
    bytes
}

/// The bytes, where the key has this name.
fn named_bytes(
    alloc: Global,
    key: &Key,
    name: &str,
    bytes: &[u8],
) -> Result<Option<Bytes>, AllocError> {
    let text = format!(in alloc; "{key}")?;
    let is_named = text.as_str() == name;
    drop(text);
    if !is_named {
        return Ok(None);
    }
    Ok(Some(Bytes::of(alloc, bytes)?))
}

/// A snapshot without nodes.
fn snapshot_of(alloc: Global, id: Id12, parent: Id12) -> Result<SnapshotFile, AllocError>
    ensures { IfOk result IsWritable }
{
    let message = Text::of(alloc, "hostile")?;
    Ok(SnapshotFile {
        id,
        parent: Some(parent),
        nodes: Items::new(alloc),
        flushed_at: 0,
        message,
        props: Props::new(alloc),
        manifest_files: Items::new(alloc),
    })
}

/// The bytes that were written.
fn written(file: Result<Vec<u8>, WriteFault>) -> Result<Bytes, AllocError> {
    match file {
        Ok(file) => Ok(Bytes::from_vec(file)),
        Err(_) => Err(AllocError),
    }
}

/// The file of a snapshot without nodes.
fn file_of(alloc: Global, id: Id12, parent: Id12) -> Result<Bytes, AllocError> {
    let snapshot = snapshot_of(alloc, id, parent)?;
    let file = write(alloc, &snapshot);
    drop(snapshot);
    written(file)
}

/// The id whose last four bytes are the next number.
fn next(id: Id12) -> Id12 {
    let [a, b, c, d, e, f, g, h, i, j, k, l] = id.0;
    let number = u32::from_be_bytes([i, j, k, l]).wrapping_add(1);
    let [i, j, k, l] = number.to_be_bytes();
    Id12([a, b, c, d, e, f, g, h, i, j, k, l])
}

/// The id of a snapshot that begins with 255.
fn far(key: &Key) -> Option<Id12> {
    match key {
        Key::Snapshot(id) if id.0[0] == 255 => Some(*id),
        _ => None,
    }
}

/// The file of such a snapshot, whose parent has the next id or its own.
fn far_bytes(alloc: Global, key: &Key, own: bool) -> Result<Option<Bytes>, AllocError> {
    let Some(id) = far(key) else {
        return Ok(None);
    };
    let parent = if own { id } else { next(id) };
    Ok(Some(file_of(alloc, id, parent)?))
}

/// The bytes that a lie has for a key, if it has any.
fn lied_bytes(
    alloc: Global,
    memory: &mut MemStore<TickClock>,
    lie: &Lie,
    key: &Key,
) -> Result<Option<Bytes>, AllocError> {
    match lie {
        Lie::Bytes(name, bytes) => named_bytes(alloc, key, name, bytes),
        Lie::Other(part, from, to) => other_bytes(memory, under_other(*part, *from, *to, key)),
        Lie::Endless => far_bytes(alloc, key, false),
        Lie::Own => far_bytes(alloc, key, true),
        Lie::Listing(_, _) | Lie::Backwards(_) | Lie::Fails => Ok(None),
    }
}

/// What a get finds.
fn got(
    alloc: Global,
    memory: &mut MemStore<TickClock>,
    lies: &[Lie],
    key: &Key,
) -> Result<Got, AllocError> {
    for lie in lies {
        if let Some(bytes) = lied_bytes(alloc, memory, lie, key)? {
            return Ok(Got::Found {
                bytes,
                version: Version(0),
                now: 0,
            });
        }
    }
    beneath(memory, key)
}

/// What the store beneath lists.
fn listed_beneath(memory: &mut MemStore<TickClock>, part: Part) -> Result<Listed, AllocError> {
    match ObjectStore::<Polite>::list(memory, part) {
        Ok(listed) => Ok(listed),
        Err(_) => Err(AllocError),
    }
}

/// The entries of parts, one part after the other.
fn joined(
    alloc: Global,
    memory: &mut MemStore<TickClock>,
    parts: &[Part],
) -> Result<Listed, AllocError> {
    let mut entries: Vec<Entry> = Vec::new(alloc);
    let mut now = 0;
    for part in parts {
        let listed = listed_beneath(memory, *part)?;
        now = listed.now;
        entries.append(&mut listed.entries.into_vec())?;
    }
    Ok(Listed {
        entries: Items::from_vec(entries),
        now,
    })
}

/// The entries of a part, from the last to the first.
fn backwards(memory: &mut MemStore<TickClock>, part: Part) -> Result<Listed, AllocError> {
    let Listed { entries, now } = listed_beneath(memory, part)?;
    let mut entries = entries.into_vec();
    entries.reverse();
    Ok(Listed {
        entries: Items::from_vec(entries),
        now,
    })
}

/// What a listing has.
fn listed(
    alloc: Global,
    memory: &mut MemStore<TickClock>,
    lies: &[Lie],
    part: Part,
) -> Result<Listed, AllocError> {
    for lie in lies {
        match lie {
            Lie::Listing(of, parts) if *of == part => return joined(alloc, memory, parts),
            Lie::Backwards(of) if *of == part => return backwards(memory, part),
            _ => {}
        }
    }
    listed_beneath(memory, part)
}

/// Whether a put over fails.
fn fails(lies: &[Lie]) -> bool {
    lies.iter().any(|lie| matches!(lie, Lie::Fails))
}

impl Viewed for Lying {
    ghost view = { λ s. record { caller = record { tells = false; number = s.client; low = 0; end = None; home = [] }; seen = []; faults = s.faults } };
}

impl<R: Rule> ObjectStore<R> for Lying {
    fn get(&mut self, key: &Key) -> Result<Got, StoreFault> {
        let lies = holding(self.lies, self.from, self.made);
        self.made = one_more(self.made);
        self.snapshots = with_get(self.snapshots, key);
        match got(self.alloc, &mut self.memory, lies, key) {
            Ok(got) => Ok(got),
            Err(_) => Err(StoreFault::NoMemory),
        }
    }

    fn put_new(&mut self, key: &Key, bytes: &[u8], why: Why) -> Result<New, StoreFault> {
        self.made = one_more(self.made);
        match ObjectStore::<R>::put_new(&mut self.memory, key, bytes, why) {
            Ok(new) => Ok(new),
            Err(_) => Err(StoreFault::NoMemory),
        }
    }

    fn put_over(
        &mut self,
        key: &Key,
        bytes: &[u8],
        old: Version,
        why: Why,
    ) -> Result<Over, StoreFault> {
        let lies = holding(self.lies, self.from, self.made);
        self.made = one_more(self.made);
        if fails(lies) {
            self.faults = one_more(self.faults);
            return Err(StoreFault::Failed);
        }
        match ObjectStore::<R>::put_over(&mut self.memory, key, bytes, old, why) {
            Ok(over) => Ok(over),
            Err(_) => Err(StoreFault::NoMemory),
        }
    }

    fn remove(&mut self, key: &Key, why: Why) -> Result<Gone, StoreFault> {
        self.made = one_more(self.made);
        match ObjectStore::<R>::remove(&mut self.memory, key, why) {
            Ok(gone) => Ok(gone),
            Err(_) => Err(StoreFault::NoMemory),
        }
    }

    fn remove_at(&mut self, key: &Key, old: Version, why: Why) -> Result<GoneAt, StoreFault> {
        self.made = one_more(self.made);
        match ObjectStore::<R>::remove_at(&mut self.memory, key, old, why) {
            Ok(gone) => Ok(gone),
            Err(_) => Err(StoreFault::NoMemory),
        }
    }

    fn list(&mut self, part: Part) -> Result<Listed, StoreFault> {
        let lies = holding(self.lies, self.from, self.made);
        self.made = one_more(self.made);
        match listed(self.alloc, &mut self.memory, lies, part) {
            Ok(listed) => Ok(listed),
            Err(_) => Err(StoreFault::NoMemory),
        }
    }
}

impl WholeStore for Lying {
    ghost tells = { false };

    fn set_client(&mut self, client: u32) {
        self.client = client;
        self.memory.set_client(client);
    }

    ghost told = { λ s. refl };

    ghost alone = { λ s. record { low = refl; end = refl } };
}

impl CountingStore for Lying {
    fn operations(&self) -> u64 {
        self.made
    }
}
