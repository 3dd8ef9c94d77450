//! Properties of the snapshot that a session commits.

ghost use Rattle.std.specs.Prelude.{◌≡◌};
ghost use Rattle.session.specs.Editing.{Leaves, prop_added};
ghost use Rattle.session.specs.inside.Props.{refusal_of_prop};

use crate::Session;
use snapshot_file::PropFault;
use store_api::Refusal;

/// A session refuses a property as its properties do.
fn refusal_of_prop(fault: PropFault) -> Refusal
    ensures { result ≡ refusal_of_prop fault }
{
    match fault {
        PropFault::Name | PropFault::Value | PropFault::Twice | PropFault::Many => {
            Refusal::BadProp(fault)
        }
        PropFault::NoMemory => Refusal::NoMemory,
    }
}

impl Session {
    /// Adds a property to the snapshot that the session commits: a text under a name, as an instrument or an author. It stays
    /// behind a rebase. It is refused by `ReadOnly`, by `BadProp` (the name or the value isn't one that a property has, the name is
    /// there, or there are as many as there may be) or by `NoMemory`, the first in this order, and the session is as before.
    pub fn add_prop(&mut self, name: &str, value: &str) -> Result<(), Refusal>
        ensures { Leaves (prop_added self.old name.now value.now) self.old result self.new }
    {
        if !self.writes() {
            return Err(Refusal::ReadOnly);
        }
        match self.props.add(name, value) {
            Ok(()) => Ok(()),
            Err(fault) => Err(refusal_of_prop(fault)),
        }
    }
}
