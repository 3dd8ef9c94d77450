//! Whose failure a mirror tells, as the contract of a function that does nothing.

ghost use Rattle.mirror.specs.Laws.{FairLaw};

/// A failure of a store is told there alone where that store's operation failed.
pub fn fair_law()
    ensures { FairLaw }
{}
