//! The machine that reads the refs of a repository.

ghost use Rattle.std.specs.Prelude.{◌≡◌, ◌<◌, ◌≤◌, ◌+◌, ◌-◌, drop, length, false, IfOk, IfErr};
ghost use Rattle.store_api.specs.Program.{IsAsk, Steps, Lands, is_fault};
ghost use Rattle.repository.specs.Refs.{refs_program, read_each, read_branches, on_got, line_of, MayRefuseRefs};
ghost use Rattle.live_refs.specs.Live.{live};
ghost use Rattle.store_api.specs.Driving.{Awaits, Took};
ghost use Rattle.repository.specs.Reading.{reading_rest, reading_left, refs_rest, refs_left, no_length, Answers, AddsLine};

use ice_ids::Id12;
use live_refs::next_live;
use play_outcome::{RefLine, RefLines};
use repo_objects::{Unread, ref_read};
use std::alloc::{AllocError, Global};
use std::mem;
use store_api::{Entries, Got, Key, Machine, Next, Part, Refusal, Reply, Request, Store, drive};

/// The operation that comes next.
#[derive(Drop)]
pub enum Reading {
    /// The branches are listed.
    Branches,
    /// The branch at this place of the listing is got.
    Branch { entries: Entries, place: usize },
    /// The tags are listed.
    Tags,
    /// The tag at this place of the listing is got.
    Tag { entries: Entries, place: usize },
    /// The machine has ended.
    Ended,
}

/// A machine that reads all refs: the branches, and then the tags that have no tombstone, each in the
/// order of their names. It lists a part and gets its refs one after the other; one that is dropped
/// between is passed over. It may answer `BadFile`, at the first ref whose bytes are no reference,
/// `StoreFault` or `NoMemory` in place of the lines.
#[derive(Drop)]
pub struct ReadRefs {
    alloc: Global,
    lines: RefLines,
    state: Reading,
}

impl Machine for ReadRefs {
    type Answer = RefLines;

    ghost rest = { refs_rest };

    ghost left = { refs_left };

    ghost keeps = { λ result old new. Unit {0} };

    ghost may_refuse = { MayRefuseRefs };

    fn request(&self) -> Result<Request<'_>, AllocError> {
        match &self.state {
            Reading::Branches => Ok(Request::List {
                part: Part::Branches,
            }),
            Reading::Tags => Ok(Request::List { part: Part::Tags }),
            Reading::Branch { entries, place } | Reading::Tag { entries, place } => {
                Ok(Request::Get {
                    key: entries.as_slice()[*place].key.copy(self.alloc)?,
                })
            }
            Reading::Ended => unreachable!(),
        }
    }

    fn answer(&mut self, reply: Reply) -> Result<Next<RefLines>, Refusal> {
        let state = mem::replace(&mut self.state, Reading::Ended);
        match (state, reply) {
            (Reading::Branches, Reply::Listed(listed)) => Ok(self.on_branches(listed.entries, 0)),
            (Reading::Branch { entries, place }, Reply::Got(got)) => {
                self.on_branch(entries, place, got)
            }
            (Reading::Tags, Reply::Listed(listed)) => Ok(self.on_tags(listed.entries, 0)),
            (Reading::Tag { entries, place }, Reply::Got(got)) => self.on_tag(entries, place, got),
            _ => Err(Refusal::StoreFault),
        }
    }

    fn stop(&mut self) {
        self.state = Reading::Ended;
    }

    ghost may_starve = { tt };
}

impl ReadRefs {
    /// Before its first operation.
    pub fn new(alloc: Global) -> ReadRefs
        ensures { refs_rest result ≡ refs_program }
    {
        ReadRefs {
            alloc,
            lines: RefLines::new(alloc),
            state: Reading::Branches,
        }
    }

    /// One operation of the store.
    pub fn step<S: Store>(&mut self, store: &mut S) -> Result<Next<RefLines>, Refusal>
        requires { IsAsk (refs_rest self.old) }
        ensures step { Steps (S.view store.old) (S.view store.new) (refs_rest self.old)
            (refs_rest self.new) result }
        ensures falls { refs_left self.new < refs_left self.old }
        ensures listed { IfErr result MayRefuseRefs }
    {
        drive(self, store)
    }

    fn on_branch(
        &mut self,
        entries: Entries,
        place: usize,
        got: Got,
    ) -> Result<Next<RefLines>, Refusal>
        requires ended { self.old.state ≡ Reading.Ended }
        requires awaited { Awaits (reading_rest self.old.lines (Reading.Branch entries place))
            (Reply.Got got) }
        ensures took { Took (reading_rest self.old.lines (Reading.Branch entries place))
            (Reply.Got got) (refs_rest self.new) result }
        ensures falls { refs_left self.new < reading_left (Reading.Branch entries place) }
        ensures listed { IfErr result MayRefuseRefs }
    {
        let key = &entries.as_slice()[place].key;
        add_ref(self.alloc, &mut self.lines, key, got)?;
        Ok(self.on_branches(entries, place + 1))
    }

    fn on_tag(
        &mut self,
        entries: Entries,
        place: usize,
        got: Got,
    ) -> Result<Next<RefLines>, Refusal>
        requires ended { self.old.state ≡ Reading.Ended }
        requires awaited { Awaits (reading_rest self.old.lines (Reading.Tag entries place))
            (Reply.Got got) }
        ensures took { Took (reading_rest self.old.lines (Reading.Tag entries place))
            (Reply.Got got) (refs_rest self.new) result }
        ensures falls { refs_left self.new < reading_left (Reading.Tag entries place) }
        ensures listed { IfErr result MayRefuseRefs }
    {
        let key = &entries.as_slice()[place].key;
        add_ref(self.alloc, &mut self.lines, key, got)?;
        Ok(self.on_tags(entries, place + 1))
    }

    /// Goes on with the branches from this place of the listing, and behind them with the tags.
    fn on_branches(&mut self, entries: Entries, from: usize) -> Next<RefLines>
        requires { from ≤ length entries }
        ensures lands { Lands (read_branches self.old.lines (drop from entries))
            (refs_rest self.new) (Ok result) }
        ensures falls { refs_left self.new < (length entries - from) + no_length + 3 }
        ensures short { length entries < no_length }
    {
        let place = next_live(entries.as_slice(), from);
        self.state = if place < entries.len() {
            Reading::Branch { entries, place }
        } else {
            Reading::Tags
        };
        Next::Again
    }

    /// Goes on with the tags from this place of the listing.
    fn on_tags(&mut self, entries: Entries, from: usize) -> Next<RefLines>
        requires within { from ≤ length entries }
        requires ended { self.old.state ≡ Reading.Ended }
        ensures lands { Lands (read_each self.old.lines (live (drop from entries)))
            (refs_rest self.new) (Ok result) }
        ensures falls { refs_left self.new < (length entries - from) + 1 }
        ensures short { length entries < no_length }
    {
        let place = next_live(entries.as_slice(), from);
        if place < entries.len() {
            self.state = Reading::Tag { entries, place };
            return Next::Again;
        }
        Next::Ready(mem::replace(&mut self.lines, RefLines::new(self.alloc)))
    }
}

/// Puts the line of a ref that was got behind the lines. One that is gone by now is passed over.
fn add_ref(alloc: Global, lines: &mut RefLines, key: &Key, got: Got) -> Result<(), Refusal>
    ensures adds { AddsLine (on_got key.now (Reply.Got got)) lines.old lines.new result }
    ensures faultless { IfErr result (λ refusal. is_fault refusal ≡ false) }
    ensures listed { IfErr result MayRefuseRefs }
{
    let Some(line) = on_got(alloc, key, got)? else {
        return Ok(());
    };
    match lines.push(line) {
        Ok(()) => Ok(()),
        Err(_) => Err(Refusal::NoMemory),
    }
}

fn on_got(alloc: Global, key: &Key, got: Got) -> Result<Option<RefLine>, Refusal>
    ensures answers { Answers (on_got key.now (Reply.Got got)) result }
    ensures faultless { IfErr result (λ refusal. is_fault refusal ≡ false) }
    ensures listed { IfErr result MayRefuseRefs }
{
    let Got::Found {
        bytes,
        version: _,
        now: _,
    } = got
    else {
        return Ok(None);
    };
    match ref_read(alloc, bytes.as_slice()) {
        Ok(id) => match line_of(alloc, key, id) {
            Ok(line) => Ok(line),
            Err(_) => Err(Refusal::NoMemory),
        },
        Err(Unread::NoMemory) => Err(Refusal::NoMemory),
        Err(Unread::Bad(bad)) => match key.copy(alloc) {
            Ok(key) => Err(Refusal::BadFile(key, bad)),
            Err(_) => Err(Refusal::NoMemory),
        },
    }
}

/// The line of a ref. Keys of other kinds have none.
fn line_of(alloc: Global, key: &Key, id: Id12) -> Result<Option<RefLine>, AllocError>
    ensures { IfOk result (λ line. line ≡ line_of key.now id) }
{
    match key {
        Key::Branch(name) => Ok(Some(RefLine {
            tag: false,
            name: name.copy(alloc)?,
            id,
        })),
        Key::Tag(name) => Ok(Some(RefLine {
            tag: true,
            name: name.copy(alloc)?,
            id,
        })),
        Key::Snapshot(_) | Key::Manifest(_) | Key::Txn(_) | Key::Chunk(_) => Ok(None),
        Key::Tombstone(_) | Key::Lease(_) => Ok(None),
    }
}
