//! Laws of references: functions that do nothing, whose contracts are the laws.

ghost use Rattle.std.specs.Prelude.{◌≡◌, ℕ, List, length};
ghost use Rattle.ice_ids.specs.declared.Id12.{Id12};
ghost use Rattle.ice_ids.specs.Text.{IsId12};
ghost use Rattle.ref_file.specs.Refs.{RefersTo, ref_bytes};

/// A file refers to one snapshot at most, and the file that is written of an id, 35 bytes, to the
/// snapshot of that id.
pub fn written_refs()
    ensures read { (id : Id12) → IsId12 id → RefersTo (ref_bytes id) id }
    ensures long { (id : Id12) → length (ref_bytes id) ≡ 35 }
    ensures one { (file : List ℕ) (a b : Id12) → RefersTo file a → RefersTo file b → a ≡ b }
{}
