//! The law of expiries, as the contract of a function that does nothing.

ghost use Rattle.expiry.specs.Laws.{ExpireLaw};

use repo_objects::snapshot_law;

/// Exact expiry. Whatever others do, each operation of an expiry is polite, and one that it owes: it puts over a snapshot only
/// where a history is to end there by its own gets, at the version that it read, and with nothing changed but the parent; and
/// drops only what is to be dropped, a branch at the version that it read. Its outcome tells what became of each ref, and where it
/// was refused, its cause.
pub fn expire_law()
    ensures { ExpireLaw }
{
    snapshot_law();
}
