//! The law of keys: the function's clause is the law, and its body is empty.

ghost use Rattle.zarr_keys.specs.Laws.{ReadBackLaw};

/// What was set at a key without any operation, metadata or a short chunk, is read there.
pub fn read_back_law()
    ensures { ReadBackLaw }
{}
