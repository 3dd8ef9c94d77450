//! Laws of transaction logs: each function's clause is the law, and its body is empty.

ghost use Rattle.txn_file.specs.Laws.{OrderedLaw, RoundTripLaw, TouchedLaw, BytesLaw};

/// What a file stands for can be written: each of its lists strictly ascends.
pub fn ordered_law()
    ensures { OrderedLaw }
{}

/// The one file of a log, if it isn't too long, stands for that log.
pub fn round_trip_law()
    ensures { RoundTripLaw }
{}

/// A log can be written exactly where its lists stand in the order of what changes touch.
pub fn touched_law()
    ensures { TouchedLaw }
{}

/// The file of a log is bytes.
pub fn bytes_law()
    ensures { BytesLaw }
{}
