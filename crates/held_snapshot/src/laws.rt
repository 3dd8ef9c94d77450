//! Laws of snapshots that are held: each function's clause is the law, and its body is empty.

ghost use Rattle.held_snapshot.specs.Laws.{HeldLaw};

/// Whatever reading a file and holding it answer, they agree, unless memory ran out in the reading.
pub fn held_law()
    ensures { HeldLaw }
{}
