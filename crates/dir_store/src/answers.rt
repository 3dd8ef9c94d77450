//! Answers of the operations.

ghost use Rattle.std.specs.Prelude.{◌≡◌};
ghost use Rattle.object_files.specs.Versions.{version_for};
ghost use Rattle.dir_store.specs.inside.Telling.{told_got, told_new, told_over, told_gone, told_gone_at};

use ice_base::Bytes;
use object_files::version_for;
use object_store::{Gone, GoneAt, Got, Key, New, Over, Version};
use whole_files::VersionChange;

/// What a get answers, where this was read.
pub(crate) fn got(key: &Key, found: Option<Bytes>, now: u64) -> Got
    ensures { result ≡ told_got key.now found now }
{
    match found {
        None => Got::Absent { now },
        Some(bytes) => {
            let version = version_for(key, bytes.as_slice());
            Got::Found {
                bytes,
                version,
                now,
            }
        }
    }
}

/// What a put of a new key answers, where this was found.
pub(crate) fn new(key: &Key, found: Option<u64>, bytes: &[u8], now: u64) -> New
    ensures { result ≡ told_new found (version_for key.now bytes.now) now }
{
    match found {
        None => New::Done {
            version: version_for(key, bytes),
            now,
        },
        Some(found) => New::Present {
            version: Version(found),
            now,
        },
    }
}

/// What a put over a version answers.
pub(crate) fn over(key: &Key, change: VersionChange, bytes: &[u8], now: u64) -> Over
    ensures { result ≡ told_over change (version_for key.now bytes.now) now }
{
    match change {
        VersionChange::Made => Over::Done {
            version: version_for(key, bytes),
            now,
        },
        VersionChange::Other(found) => Over::Moved {
            found: found.map(Version),
            now,
        },
    }
}

/// What a removal answers.
pub(crate) fn gone(was_there: bool, now: u64) -> Gone
    ensures { result ≡ told_gone was_there now }
{
    if was_there {
        Gone::Done { now }
    } else {
        Gone::Absent { now }
    }
}

/// What a removal of a version answers.
pub(crate) fn gone_at(change: VersionChange, now: u64) -> GoneAt
    ensures { result ≡ told_gone_at change now }
{
    match change {
        VersionChange::Made => GoneAt::Done { now },
        VersionChange::Other(found) => GoneAt::Moved {
            found: found.map(Version),
            now,
        },
    }
}
