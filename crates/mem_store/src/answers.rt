//! What operations answer of what stands at a key.

ghost use Rattle.std.specs.Prelude.{◌≡◌, List};
ghost use Rattle.object_store.specs.declared.events.Event.{Event};
ghost use Rattle.object_store.specs.Machine.{new_of, over_of, gone_of, gone_at_of};
ghost use Rattle.mem_store.specs.Standing.{got_from};
ghost use Rattle.mem_store.specs.KeptEvents.{puts_in};

use ice_base::Bytes;
use object_store::{Gone, GoneAt, Got, New, Over, Version};

/// What a put put: the bytes, the position of the put in the journal, and its time.
#[derive(Clone, Copy, Debug)]
pub(crate) struct Standing<'a> {
    pub(crate) bytes: &'a [u8],
    pub(crate) version: u64,
    pub(crate) created: u64,
}

/// A copy of what stands at a key.
#[derive(Debug, Drop)]
pub(crate) struct Content {
    pub(crate) bytes: Bytes,
    pub(crate) version: Version,
}

/// What a get answers at this time.
pub(crate) fn got(copied: Option<Content>, now: u64) -> Got
    ensures { result ≡ got_from now copied }
{
    match copied {
        None => Got::Absent { now },
        Some(Content { bytes, version }) => Got::Found {
            bytes,
            version,
            now,
        },
    }
}

/// What a put of a free key at this place answers, where the put `at` stands there.
pub(crate) fn new_answer(at: Option<u64>, place: u64, now: u64) -> New
    ensures { (journal : List Event) → result ≡ new_of place now (puts_in journal at) }
{
    match at {
        None => New::Done {
            version: Version(place),
            now,
        },
        Some(found) => New::Present {
            version: Version(found),
            now,
        },
    }
}

/// What a put over a version answers.
pub(crate) fn over_answer(at: Option<u64>, old: Version, place: u64, now: u64) -> Over
    ensures { (journal : List Event) → result ≡ over_of place now old.0 (puts_in journal at) }
{
    match at {
        Some(found) if found == old.0 => Over::Done {
            version: Version(place),
            now,
        },
        _ => Over::Moved {
            found: at.map(Version),
            now,
        },
    }
}

/// What a removal answers.
pub(crate) fn gone_answer(at: Option<u64>, now: u64) -> Gone
    ensures { (journal : List Event) → result ≡ gone_of now (puts_in journal at) }
{
    match at {
        None => Gone::Absent { now },
        Some(_) => Gone::Done { now },
    }
}

/// What a removal of a version answers.
pub(crate) fn gone_at_answer(at: Option<u64>, old: Version, now: u64) -> GoneAt
    ensures { (journal : List Event) → result ≡ gone_at_of now old.0 (puts_in journal at) }
{
    match at {
        Some(found) if found == old.0 => GoneAt::Done { now },
        _ => GoneAt::Moved {
            found: at.map(Version),
            now,
        },
    }
}
