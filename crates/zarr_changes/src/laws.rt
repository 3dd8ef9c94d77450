//! Laws of change sets: each function's clause is the law, and its body is empty.

ghost use Rattle.zarr_changes.specs.Laws.{RefusalLaw, SetRefusalLaw, UnsetRefusalLaw, AddedLaw, TextLaw, DropLaw, SetLaw, UnsetLaw, TakenLaw};

/// A tree refuses a node by its nodes alone.
pub fn refusal_law()
    ensures { RefusalLaw }
{}

/// A tree refuses a chunk's bytes by its nodes and the bytes' number alone.
pub fn set_refusal_law()
    ensures { SetRefusalLaw }
{}

/// A tree refuses that there be no chunk by its nodes alone.
pub fn unset_refusal_law()
    ensures { UnsetRefusalLaw }
{}

/// A node more is one more edit in the changes.
pub fn added_law<P>()
    ensures { AddedLaw P }
{}

/// Other metadata is one more edit in the changes.
pub fn text_law<P>()
    ensures { TextLaw P }
{}

/// A node, and all beneath it, taken away is one more edit in the changes.
pub fn drop_law<P>()
    ensures { DropLaw P }
{}

/// A chunk whose bytes are at a place is one more edit in the changes.
pub fn set_law<P>()
    ensures { SetLaw P }
{}

/// That there be no chunk is one more edit in the changes.
pub fn unset_law<P>()
    ensures { UnsetLaw P }
{}

/// Entries that are taken out are given up.
pub fn taken_law<P>()
    ensures { TakenLaw P }
{}
