//! Laws of the definitions of scripts.

ghost use Rattle.script_values.specs.Arrays.{PlainLaw};
ghost use Rattle.script_values.specs.HexText.{HexLaw};

/// The plain text of an array of one of the eight types is that of `zarr_meta`.
#[tactic(auto, using(crate::proofs::PlainText::plain_law))]
pub fn plain_law()
    ensures { PlainLaw }
{}

/// A word stands for bytes just where it is their text.
pub fn hex_law()
    ensures { HexLaw }
{}
