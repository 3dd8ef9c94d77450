//! Laws of the definitions, as the contracts of functions that do nothing.

ghost use Rattle.repository.specs.Closing.{RefsLaw};

/// The closing reading: where nobody else acts while the refs are read, the lines that are read are
/// those of the refs that stand at the end. Each branch, and each tag without a tombstone, has one
/// line with the snapshot that it names, and there are no others; none of these refs is unreadable;
/// the branches come first, and each kind in the order of the names (Icechunk specification version
/// 1, "Reference Files").
pub fn refs_law()
    ensures { RefsLaw }
{}
