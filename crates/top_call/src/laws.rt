//! Laws of statuses, as the contracts of functions that do nothing.

ghost use Rattle.top_call.specs.Statuses.{RowsLaw, NumbersLaw};

/// Each status of a run comes exactly where its own cause holds and none that goes before it.
pub fn rows_law()
    ensures { RowsLaw }
{}

/// Statuses with the same number are the same, but for what `Usage` and `Script` hold.
pub fn numbers_law()
    ensures { NumbersLaw }
{}
