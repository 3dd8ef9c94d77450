//! Rules that callers of a store keep.

ghost use Rattle.std.specs.Prelude.{List};
ghost use Rattle.object_store.specs.declared.events.Op.{Op};
ghost use Rattle.object_store.specs.declared.events.Event.{Event};

/// What callers of a store may do: which operation may follow on which journal. A store asks it of each of its callers, and
/// tells each of them that the others keep it. What it says of bytes is nothing that a store knows.
pub trait Rule {
    ghost may: { List Event → Op → Type 0 };
}
