//! Where the setting of a chunk stands.

use crate::Session;
use std::mem;

/// The operation that comes next, and the session.
#[derive(Drop)]
pub enum Putting {
    /// The object is put.
    Object(Session),
    /// The machine was refused, and has the session.
    Refused(Session),
    /// The session was given out.
    Ended,
}

impl Putting {
    ghost use Rattle.std.specs.Prelude.{◌≡◌};

    /// The session, which the machine has again where it was given out.
    pub(crate) fn hold(&mut self, session: Session)
        requires { self.old ≡ Putting.Ended }
        ensures { self.new ≡ Putting.Refused session }
    {
        match mem::replace(self, Putting::Refused(session)) {
            Putting::Ended => {}
            _ => unreachable!(),
        }
    }
}
