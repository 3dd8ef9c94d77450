//! The refs that an expiry came to and what became of them, and those that it still comes to.

ghost use Rattle.std.specs.Prelude.{◌≡◌, [], ◌∷◌, ◌++◌, ◌<◌, length, IfOk, OnOk, OnErr};
ghost use Rattle.live_refs.specs.Live.{live};
ghost use Rattle.expiry.specs.inside.Registers.{Refs, at_first, part_of, many};
ghost use Rattle.expiry.specs.inside.Taking.{Takes};

use cleanup_reports::{RefCase, RefCases, What};
use ice_items::Items;
use live_refs::is_gone;
use object_store::{Entry, Key, Part};
use std::alloc::{AllocError, Global};
use std::collections::VecDeque;
use std::marker::Model;

/// What is expired: first branches, then tags.
#[derive(Clone, Copy, Debug, PartialEq, Eq)]
pub enum Phase {
    Branches,
    Tags,
}

/// What became of refs, and those that are left of a listing. Room for their cases is taken beforehand.
#[derive(Drop)]
pub struct Register {
    phase: Phase,
    cases: Vec<RefCase>,
    keys: VecDeque<Key>,
}

impl Model for Register {
    ghost use Rattle.std.specs.Prelude.{◌+◌, ◌≤◌, vec_len, vec_capacity};
    ghost use Rattle.std.specs.VecDeque.{deque_len};
    ghost use Rattle.expiry.specs.inside.Registers.{Refs};

    ghost Value = { Refs };

    ghost view = { λ r. record { phase = r.phase; cases = r.cases.items; keys = r.keys.items } };

    ghost invariant = { λ r. vec_len r.cases + deque_len r.keys ≤ vec_capacity r.cases };
}

/// A register from which a ref was taken, with room for its case too.
#[derive(Drop)]
pub struct Turn {
    phase: Phase,
    cases: Vec<RefCase>,
    keys: VecDeque<Key>,
}

impl Model for Turn {
    ghost use Rattle.std.specs.Prelude.{◌+◌, ◌<◌, vec_len, vec_capacity};
    ghost use Rattle.std.specs.VecDeque.{deque_len};
    ghost use Rattle.expiry.specs.inside.Registers.{Refs};

    ghost Value = { Refs };

    ghost view = { λ t. record { phase = t.phase; cases = t.cases.items; keys = t.keys.items } };

    ghost invariant = { λ t. vec_len t.cases + deque_len t.keys < vec_capacity t.cases };
}

/// What comes next of a register.
#[derive(Drop)]
pub enum Turns {
    /// No ref is left.
    Over(Register),
    /// This one is taken.
    Next { key: Key, turn: Turn },
}

impl Register {
    /// Before the listing of the branches. It takes no memory.
    pub fn new(alloc: Global) -> Register
        ensures { result ≡ at_first }
    {
        Register {
            phase: Phase::Branches,
            cases: Vec::new(alloc),
            keys: VecDeque::new(alloc),
        }
    }

    /// What is expired.
    pub fn phase(&self) -> Phase
        ensures { result ≡ self.now.phase }
    {
        self.phase
    }

    /// The part that is listed.
    pub fn part(&self) -> Part
        ensures { result ≡ part_of self.now.phase }
    {
        match self.phase {
            Phase::Branches => Part::Branches,
            Phase::Tags => Part::Tags,
        }
    }

    /// The refs of a listing are left now. Without memory for them and their cases, what became of others stays.
    pub fn enter(&mut self, alloc: Global, entries: &[Entry]) -> Result<(), AllocError>
        ensures ok { OnOk result (self.new ≡ record self.old { keys = live entries.now }) }
        ensures few { OnOk result (length self.new.keys < many) }
        ensures err { OnErr result (self.new.cases ≡ self.old.cases) }
    {
        let keys = live_keys(alloc, entries)?;
        self.cases.reserve(keys.len())?;
        self.keys = keys;
        Ok(())
    }

    /// Takes the next ref.
    pub fn take(self) -> Turns
        ensures { Takes self result }
    {
        let Register {
            phase,
            cases,
            mut keys,
        } = self;
        match keys.pop_front() {
            None => Turns::Over(Register { phase, cases, keys }),
            Some(key) => Turns::Next {
                key,
                turn: Turn { phase, cases, keys },
            },
        }
    }

    /// Before the listing of the tags.
    pub fn to_tags(self) -> Register
        ensures { result ≡ record self { phase = Phase.Tags } }
    {
        Register {
            phase: Phase::Tags,
            cases: self.cases,
            keys: self.keys,
        }
    }

    /// What became of the refs.
    pub fn into_cases(self) -> RefCases
        ensures { result ≡ self.cases }
    {
        Items::from_vec(self.cases)
    }
}

impl Turn {
    /// Tells what became of the ref that was taken. It takes no memory.
    pub fn tell(self, key: Key, what: What) -> Register
        ensures { result ≡ record self {
          cases = self.cases ++ record { key = key; what = what }
              ∷ [];
        } }
    {
        let Turn {
            phase,
            mut cases,
            keys,
        } = self;
        match cases.push(RefCase { key, what }) {
            Ok(()) => Register { phase, cases, keys },
            Err(_) => unreachable!(),
        }
    }

    /// What became of the refs before it.
    pub fn into_cases(self) -> RefCases
        ensures { result ≡ self.cases }
    {
        Items::from_vec(self.cases)
    }
}

/// The keys of a listing whose refs stand.
fn live_keys(alloc: Global, entries: &[Entry]) -> Result<VecDeque<Key>, AllocError>
    ensures { IfOk result (λ keys. keys.items ≡ live entries.now) }
{
    let mut keys = VecDeque::new(alloc);
    for place in 0..entries.len() {
        enter_live(alloc, &mut keys, &entries[place], &entries[place + 1..])?;
    }
    Ok(keys)
}

/// Puts the key of this entry behind the others, where its ref stands.
fn enter_live(
    alloc: Global,
    keys: &mut VecDeque<Key>,
    entry: &Entry,
    behind: &[Entry],
) -> Result<(), AllocError>
    ensures { OnOk result (keys.new.items ++ live behind.now ≡ keys.old.items ++ live
        (entry.now ∷ behind.now)) }
{
    if is_gone(&entry.key, behind) {
        return Ok(());
    }
    keys.push_back(entry.key.copy(alloc)?)?;
    Ok(())
}
