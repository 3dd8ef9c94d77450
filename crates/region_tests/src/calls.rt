//! Calls on sessions over a store.

ghost use Rattle.std.specs.Prelude.{IfSome};
ghost use Rattle.store_api.specs.Program.{IsAsk};
ghost use Rattle.commit_path.specs.Committing.{commit_rest};

use array_region::{Getting, Numbers, Region, RegionGet, RegionSet, Setting};
use commit_path::{Commit, Tried};
use ice_base::Text;
use ice_ids::Draw;
use session::{Session, Setting as ChunkSetting};
use std::alloc::Global;
use std::mem;
use store_api::{Refusal, run_machine};
use untold_store::{Untold, begun, opened};
use zarr_path::{Index, Path};

/// A box of the array at a path.
pub(crate) fn region(alloc: Global, path: &Path, from: &[u64], to: &[u64]) -> Option<Region> {
    Some(Region {
        path: path.copy(alloc).ok()?,
        from: Vec::from_slice(alloc, from).ok()?,
        to: Vec::from_slice(alloc, to).ok()?,
    })
}

/// The session with a chunk.
fn chunk_set(
    path: &Path,
    index: &Index,
    bytes: &[u8],
    session: Session,
    store: &mut Untold,
) -> Option<Session> {
    match session.set_chunk(path, index, bytes) {
        Ok(ChunkSetting::Ready(session)) => Some(session),
        Ok(ChunkSetting::Again(mut machine)) => {
            let set = run_machine(&mut machine, store);
            drop(machine);
            set.ok()
        }
        Err(refused) => {
            drop(refused);
            None
        }
    }
}

/// The numbers of a box, and the session.
fn numbers_read(
    alloc: Global,
    session: Session,
    region: Region,
    store: &mut Untold,
) -> Option<(Session, Numbers)> {
    match RegionGet::start(alloc, session, region) {
        Ok(Getting::Ready(session, numbers)) => Some((session, numbers)),
        Ok(Getting::Again(mut machine)) => {
            let read = run_machine(&mut machine, store);
            let session = machine.into_session();
            match read {
                Ok(numbers) => Some((session, numbers)),
                Err(why) => {
                    drop(why);
                    drop(session);
                    None
                }
            }
        }
        Err(refused) => {
            drop(refused);
            None
        }
    }
}

/// The session in which a box has these numbers.
fn numbers_set(
    alloc: Global,
    session: Session,
    region: Region,
    numbers: Vec<i128>,
    store: &mut Untold,
) -> Option<Session> {
    match RegionSet::start(alloc, session, region, numbers) {
        Ok(Setting::Ready(session)) => Some(session),
        Ok(Setting::Again(mut machine)) => {
            let set = run_machine(&mut machine, store);
            drop(machine);
            set.ok()
        }
        Err(refused) => {
            drop(refused);
            None
        }
    }
}

/// A commit that has begun.
fn started(alloc: Global, session: Session, message: Text) -> Option<Commit>
    ensures { IfSome result (λ commit. IsAsk (commit_rest commit)) }
{
    Commit::start(alloc, session, message).ok()
}

/// Whether a commit was done.
fn was_done(tried: Result<Tried, Refusal>) -> bool {
    let done = matches!(&tried, Ok(Tried::Done(_)));
    drop(tried);
    done
}

/// A session over what this one commits, which draws the ids of another client.
fn committed(alloc: Global, session: Session, client: u32, store: &mut Untold) -> Option<Session> {
    let message = Text::of(alloc, "x").ok()?;
    let mut commit = started(alloc, session, message)?;
    let tried = run_machine(&mut commit, store);
    drop(commit);
    if was_done(tried) {
        opened(alloc, Draw::Count.ids(client), store)
    } else {
        None
    }
}

/// A repository in memory, and the session that is open in it.
pub(crate) struct Opened {
    store: Untold,
    session: Option<Session>,
}

impl Drop for Opened {
    fn drop(self) {
        let Opened { store, session } = self;
        drop(store);
        drop(session);
    }
}

impl Opened {
    /// A new repository, and a session to write on its `main`.
    pub(crate) fn new(alloc: Global) -> Option<Opened> {
        let mut store = begun(alloc, Untold::new(alloc))?;
        let session = opened(alloc, Draw::Count.ids(1), &mut store);
        Some(Opened { store, session })
    }

    /// Has this session open, if there is one.
    fn keep(&mut self, session: Option<Session>) -> Option<()> {
        let is_there = session.is_some();
        drop(mem::replace(&mut self.session, session));
        is_there.then_some(())
    }

    /// The session, for edits.
    pub(crate) fn session(&mut self) -> Option<&mut Session> {
        self.session.as_mut()
    }

    /// Sets a chunk.
    pub(crate) fn set_chunk(&mut self, path: &Path, index: &Index, bytes: &[u8]) -> Option<()> {
        let session = self.session.take()?;
        let set = chunk_set(path, index, bytes, session, &mut self.store);
        self.keep(set)
    }

    /// The numbers of a box.
    pub(crate) fn numbers(&mut self, alloc: Global, region: Region) -> Option<Numbers> {
        let session = self.session.take()?;
        let (session, numbers) = numbers_read(alloc, session, region, &mut self.store)?;
        self.keep(Some(session))?;
        Some(numbers)
    }

    /// Puts numbers into a box.
    pub(crate) fn set_numbers(
        &mut self,
        alloc: Global,
        region: Region,
        numbers: Vec<i128>,
    ) -> Option<()> {
        let session = self.session.take()?;
        let set = numbers_set(alloc, session, region, numbers, &mut self.store);
        self.keep(set)
    }

    /// Commits, and opens a session over that, which draws the ids of another client.
    pub(crate) fn commit(&mut self, alloc: Global, client: u32) -> Option<()> {
        let session = self.session.take()?;
        let next = committed(alloc, session, client, &mut self.store);
        self.keep(next)
    }
}
