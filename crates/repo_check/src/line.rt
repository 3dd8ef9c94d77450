//! What is to be taken, one after the other.

ghost use Rattle.std.specs.Prelude.{◌≡◌, [], ◌∷◌, ◌++◌, length, OnOk, OnErr};
ghost use Rattle.repo_check.specs.inside.Working.{Takes};

use std::alloc::{AllocError, Global};
use std::collections::VecDeque;
use std::marker::Model;

/// What is to be taken, the first first. Contracts see it as the list of what is left.
#[derive(Drop)]
pub(crate) struct Line<T> {
    items: VecDeque<T>,
}

impl<T> Model for Line<T> {
    ghost use Rattle.std.specs.Prelude.{List};

    ghost Value = { List T };

    ghost view = { λ line. line.items.items };
}

impl<T> Line<T> {
    /// Nothing. It takes no memory.
    pub fn new(alloc: Global) -> Line<T>
        ensures { result ≡ [] }
    {
        Line {
            items: VecDeque::new(alloc),
        }
    }

    /// How much is left.
    pub fn len(&self) -> usize
        ensures { result ≡ length self.now }
    {
        self.items.len()
    }

    /// Takes the first.
    pub fn take(&mut self) -> Option<T>
        ensures { Takes self.old result self.new }
    {
        self.items.pop_front()
    }
}

impl<T: Drop> Line<T> {
    /// Puts one behind the others. Without memory for it, all is as before.
    pub fn push(&mut self, item: T) -> Result<(), AllocError>
        ensures ok { OnOk result (self.new ≡ self.old ++ item ∷ []) }
        ensures err { OnErr result (self.new ≡ self.old) }
    {
        self.items.push_back(item)?;
        Ok(())
    }
}
