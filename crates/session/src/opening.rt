//! Where an opening stands.

use repo_read::{Named, Resolving};
use std::mem;

/// The operation that comes next.
#[derive(Drop)]
pub enum Opening {
    /// What names the snapshot is resolved.
    Naming(Resolving),
    /// The snapshot is got that was named.
    Base(Named),
    /// The machine has ended.
    Ended,
}

impl Opening {
    ghost use Rattle.std.specs.Prelude.{◌≡◌};

    /// The operation that comes next, where none did.
    pub(crate) fn follow(&mut self, next: Opening)
        requires { self.old ≡ Opening.Ended }
        ensures { self.new ≡ next }
    {
        match mem::replace(self, next) {
            Opening::Ended => {}
            _ => unreachable!(),
        }
    }
}
