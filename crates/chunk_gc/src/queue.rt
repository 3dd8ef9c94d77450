//! Keys, to be taken in their order.

ghost use Rattle.std.specs.Prelude.{◌≡◌, [], ◌∷◌, ◌++◌, length, IfOk, OnOk, OnErr};
ghost use Rattle.chunk_gc.specs.Lines.{Takes};

use object_store::Key;
use std::alloc::{AllocError, Global};
use std::collections::VecDeque;
use std::marker::Model;

/// Keys, of which the first is taken first. Contracts see them as the list of those that are left.
#[derive(Drop)]
pub struct Keys {
    keys: VecDeque<Key>,
}

impl Model for Keys {
    ghost use Rattle.std.specs.Prelude.{List};
    ghost use Rattle.object_store.specs.declared.keys.Key.{Key as TheKey};

    ghost Value = { List TheKey };

    ghost view = { λ k. k.keys.items };
}

impl Keys {
    /// No keys. It takes no memory.
    pub fn new(alloc: Global) -> Keys
        ensures { result ≡ [] }
    {
        Keys {
            keys: VecDeque::new(alloc),
        }
    }

    /// How many are left.
    pub fn len(&self) -> usize
        ensures { result ≡ length self.now }
    {
        self.keys.len()
    }

    /// Puts a key behind the others. Without memory for it, all is as before.
    pub fn push(&mut self, key: Key) -> Result<(), AllocError>
        ensures ok { OnOk result (self.new ≡ self.old ++ key ∷ []) }
        ensures err { OnErr result (self.new ≡ self.old) }
    {
        self.keys.push_back(key)?;
        Ok(())
    }

    /// Takes the first one.
    pub fn take(&mut self) -> Option<Key>
        ensures { Takes self.old result self.new }
    {
        self.keys.pop_front()
    }
}
