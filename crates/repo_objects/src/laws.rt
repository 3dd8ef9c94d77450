//! Laws of the definitions: each function's clause is the law, and its body is empty.

ghost use Rattle.repo_objects.specs.Laws.{SnapshotLaw, ManifestLaw, InitialLaw, LogLaw, RefLaw};

use ice_ids::laws::texts_of_object_ids;
use manifest_file::laws as manifest_laws;
use ref_file::written_refs;
use snapshot_file::{initial_law as initial_file_law, read_law};
use txn_file::laws::round_trip_law;

/// What is written of a snapshot is read under its id; what is read can be written.
pub fn snapshot_law()
    ensures { SnapshotLaw }
{
    read_law();
}

/// What is written of a manifest is read under its id; what is read can be written.
pub fn manifest_law()
    ensures { ManifestLaw }
{
    manifest_laws::read_law();
}

/// The bytes of the initial snapshot are read as the initial snapshot.
pub fn initial_law()
    ensures { InitialLaw }
{
    initial_file_law();
}

/// What is written of a log is read under its id.
pub fn log_law()
    ensures { LogLaw }
{
    round_trip_law();
}

/// What is written of a reference is read as its id.
pub fn ref_law()
    ensures { RefLaw }
{
    written_refs();
    texts_of_object_ids();
}
