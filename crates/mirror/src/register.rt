//! The refs that a mirror has come to and what became of them, and those that are left.

ghost use Rattle.std.specs.Prelude.{◌≡◌, ◌<◌, ◌∷◌, ◌++◌, List, length, IfOk, OnOk, OnErr, MatchOption, []};
ghost use Rattle.live_refs.specs.Live.{live};
ghost use Rattle.mirror.specs.Programs.{ref_ids};
ghost use Rattle.mirror.specs.inside.Registers.{at_first, part_of, many};

use ice_ids::Id12;
use ice_items::Items;
use live_refs::is_gone;
use mirror_reports::{MirrorRef, MirrorRefs, RefId};
use object_store::{Entry, Key, Part};
use std::alloc::{AllocError, Global};
use std::collections::VecDeque;
use std::marker::Model;

/// What is copied: first branches, then tags.
#[derive(Clone, Copy, Debug, PartialEq, Eq)]
pub enum Phase {
    Branches,
    Tags,
}

/// What became of refs, and those that are left of a listing. The first of these is in work; room for what becomes of them is taken
/// beforehand.
#[derive(Drop)]
pub struct Register {
    phase: Phase,
    refs: Vec<MirrorRef>,
    names: VecDeque<RefId>,
}

impl Model for Register {
    ghost use Rattle.std.specs.Prelude.{◌+◌, ◌≤◌, vec_len, vec_capacity};
    ghost use Rattle.std.specs.VecDeque.{deque_len};
    ghost use Rattle.mirror.specs.inside.Registers.{Refs};

    ghost Value = { Refs };

    ghost view = { λ r. record { phase = r.phase; refs = r.refs.items; names = r.names.items } };

    ghost invariant = { λ r. vec_len r.refs + deque_len r.names ≤ vec_capacity r.refs };
}

impl Register {
    /// Before the listing of the branches. It takes no memory.
    pub fn new(alloc: Global) -> Register
        ensures { result ≡ at_first }
    {
        Register {
            phase: Phase::Branches,
            refs: Vec::new(alloc),
            names: VecDeque::new(alloc),
        }
    }

    /// What is copied.
    pub fn phase(&self) -> Phase
        ensures { result ≡ self.now.phase }
    {
        self.phase
    }

    /// The part that is listed.
    pub fn part(&self) -> Part
        ensures { result ≡ part_of self.now.phase }
    {
        match self.phase {
            Phase::Branches => Part::Branches,
            Phase::Tags => Part::Tags,
        }
    }

    /// The refs of a listing are left now. Without memory for them, what became of others stays.
    pub fn enter(&mut self, alloc: Global, entries: &[Entry]) -> Result<(), AllocError>
        ensures ok { OnOk result
            (self.new ≡ record self.old { names = ref_ids (live entries.now) }) }
        ensures few { OnOk result (length self.new.names < many) }
        ensures err { OnErr result (self.new.refs ≡ self.old.refs) }
    {
        let names = live_refs(alloc, entries)?;
        self.refs.reserve(names.len())?;
        self.names = names;
        Ok(())
    }

    /// The ref that is in work, if one is left.
    pub fn first(&self) -> Option<&RefId>
        ensures { MatchOption result (self.now.names ≡ []) (λ r. (rs : List RefId)
            × (self.now.names ≡ r.now ∷ rs)) }
    {
        self.names.front()
    }

    /// Passes over the ref that is in work.
    pub fn pass(&mut self)
        ensures { (r : RefId) (rs : List RefId) → self.old.names ≡ r ∷ rs
            → self.new ≡ record self.old { names = rs } }
    {
        drop(self.names.pop_front());
    }

    /// Tells what became of the ref that is in work. It takes no memory.
    pub fn tell(&mut self, id: Id12, put: bool)
        ensures { (r : RefId) (rs : List RefId) → self.old.names ≡ r ∷ rs
            → self.new
            ≡ record
            self.old {
              refs = self.old.refs ++ record {
                tag = r.tag;
                name = r.name;
                id = id;
                put =
                    put;
              } ∷ [];
              names = rs;
            } }
    {
        if let Some(RefId { tag, name }) = self.names.pop_front() {
            match self.refs.push(MirrorRef { tag, name, id, put }) {
                Ok(()) => {}
                Err(_) => unreachable!(),
            }
        }
    }

    /// Before the listing of the tags.
    pub fn turn_to_tags(&mut self)
        ensures { self.new ≡ record self.old { phase = Phase.Tags } }
    {
        self.phase = Phase::Tags;
    }

    /// What became of the refs so far.
    pub fn refs(&self) -> &[MirrorRef]
        ensures { result.now ≡ self.now.refs }
    {
        self.refs.as_slice()
    }

    /// What became of the refs.
    pub fn into_refs(self) -> MirrorRefs
        ensures { result ≡ self.refs }
    {
        Items::from_vec(self.refs)
    }
}

/// The refs of a listing that stand.
fn live_refs(alloc: Global, entries: &[Entry]) -> Result<VecDeque<RefId>, AllocError>
    ensures { IfOk result (λ names. names.items ≡ ref_ids (live entries.now)) }
{
    let mut names = VecDeque::new(alloc);
    for place in 0..entries.len() {
        enter_live(alloc, &mut names, &entries[place], &entries[place + 1..])?;
    }
    Ok(names)
}

/// Puts the ref of this entry behind the others, where it stands.
fn enter_live(
    alloc: Global,
    names: &mut VecDeque<RefId>,
    entry: &Entry,
    behind: &[Entry],
) -> Result<(), AllocError>
    ensures { OnOk result (names.new.items ++ ref_ids (live behind.now) ≡ names.old.items ++ ref_ids
        (live (entry.now ∷ behind.now))) }
{
    if is_gone(&entry.key, behind) {
        return Ok(());
    }
    match &entry.key {
        Key::Branch(name) => names.push_back(RefId {
            tag: false,
            name: name.copy(alloc)?,
        })?,
        Key::Tag(name) => names.push_back(RefId {
            tag: true,
            name: name.copy(alloc)?,
        })?,
        Key::Snapshot(_) | Key::Manifest(_) | Key::Txn(_) | Key::Chunk(_) => {}
        Key::Tombstone(_) | Key::Lease(_) => {}
    }
    Ok(())
}
