//! Laws of manifests that are held: each function's clause is the law, and its body is empty.

ghost use Rattle.held_manifest.specs.Laws.{HeldLaw, ObjectsLaw};

/// Whatever reading a file and holding it answer, they agree, unless memory ran out in the reading.
pub fn held_law()
    ensures { HeldLaw }
{}

/// The objects of a manifest's entries are exactly those that some entry of some array of it has its bytes in. It waits for
/// the collection, which keeps what manifests name.
pub fn objects_law()
    ensures { ObjectsLaw }
{}
