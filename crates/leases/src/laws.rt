//! Laws of leases, as the contracts of functions that do nothing.

ghost use Rattle.store_api.specs.Callers.{Caller as TheCaller};
ghost use Rattle.leases.specs.Laws.{LeaseLaw};

use repo_objects::ref_law;

/// Whatever others do: each operation of a lease is polite, where its base was put, and so is a release; each outcome tells the
/// journal, which stays so; and where a lease was confirmed, the ref named the base at that moment.
pub fn lease_law()
    ensures { (by : TheCaller) → LeaseLaw by }
{
    ref_law();
}
