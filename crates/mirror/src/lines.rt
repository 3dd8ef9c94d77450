//! Snapshots of a chain, to be taken in their order.

ghost use Rattle.std.specs.Prelude.{◌≡◌, [], ◌∷◌, length, OnOk, OnErr};
ghost use Rattle.mirror.specs.Lines.{Takes};

use ice_ids::Id12;
use std::alloc::{AllocError, Global};
use std::collections::VecDeque;
use std::marker::Model;

/// A snapshot of a chain.
#[derive(Clone, Copy, Debug, PartialEq, Eq)]
pub struct Link {
    /// The snapshot.
    pub id: Id12,
    /// Its parent, as it was first read.
    pub parent: Option<Id12>,
}

/// Snapshots of a chain, of which the oldest is taken first. Contracts see them as the list of those that are left.
#[derive(Drop)]
pub struct Links {
    links: VecDeque<Link>,
}

impl Model for Links {
    ghost use Rattle.std.specs.Prelude.{List};
    ghost use Rattle.mirror.specs.declared.lines.Link.{Link as TheLink};

    ghost Value = { List TheLink };

    ghost view = { λ l. l.links.items };
}

impl Links {
    /// No snapshots. It takes no memory.
    pub fn new(alloc: Global) -> Links
        ensures { result ≡ [] }
    {
        Links {
            links: VecDeque::new(alloc),
        }
    }

    /// How many are left.
    pub fn len(&self) -> usize
        ensures { result ≡ length self.now }
    {
        self.links.len()
    }

    /// Puts an older one before the others. Without memory for it, all is as before.
    pub fn push(&mut self, link: Link) -> Result<(), AllocError>
        ensures ok { OnOk result (self.new ≡ link ∷ self.old) }
        ensures err { OnErr result (self.new ≡ self.old) }
    {
        self.links.push_front(link)?;
        Ok(())
    }

    /// Takes the oldest one.
    pub fn take(&mut self) -> Option<Link>
        ensures { Takes self.old result self.new }
    {
        self.links.pop_front()
    }
}
