//! Laws of manifests: each function's clause is the law, and its body is empty.

ghost use Rattle.manifest_file.specs.Laws.{OrderedLaw, ReadLaw, RoundTripLaw};

/// What a file stands for can be written: its lists strictly ascend, and there are no more chunks than the limit.
pub fn ordered_law()
    ensures { OrderedLaw }
{}

/// The one file of a manifest, if it isn't too long, stands for that manifest.
pub fn round_trip_law()
    ensures { RoundTripLaw }
{}

/// What a file of bytes stands for can be written: its ids and numbers have their widths, the bytes of its chunks are
/// bytes, and its lists are in order. What is written is bytes, and is read again if it keeps to the limit of a file.
pub fn read_law()
    ensures { ReadLaw }
{}
