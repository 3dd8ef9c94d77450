//! Plans of calls that fail.

ghost use Rattle.std.specs.Prelude.{◌≡◌};
ghost use Rattle.mem_store.specs.Plans.{planned};

/// What a plan says of the call with this number.
pub(crate) fn planned(plan: &[(u64, bool)], number: u64) -> Option<bool>
    ensures { result ≡ planned plan.now number }
{
    plan.iter().find(|call| call.0 == number).map(|call| call.1)
}
