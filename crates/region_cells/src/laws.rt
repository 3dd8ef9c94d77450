//! Laws of boxes, as the contracts of functions that do nothing.

ghost use Rattle.region_cells.specs.Laws.{WholeLaw, PartLaw, BoxLaw, NumberLaw, WrittenLaw, FilledLaw};

/// Numbers that each cell of a box has at its place are those of its cells in C order.
#[tactic(auto, using(crate::proofs::BoxLaws::whole_box))]
pub fn whole_law()
    ensures { WholeLaw }
{}

/// What reading a part of a box comes to is told whole.
#[tactic(auto, using(crate::proofs::ReadLaws::part_is))]
pub fn part_law()
    ensures { PartLaw }
{}

/// Where the chunks that a box meets are read over the fill value, one after another, each cell has its number.
#[tactic(auto, using(crate::proofs::ReadLaws::box_read))]
pub fn box_law()
    ensures { BoxLaw }
{}

/// A number of the type is that of its own bytes.
#[tactic(auto, using(crate::proofs::NumberLaws::number_back))]
pub fn number_law()
    ensures { NumberLaw }
{}

/// What writing a part of a box comes to is told whole.
#[tactic(auto, using(crate::proofs::FillLaws::written_is))]
pub fn written_law()
    ensures { WrittenLaw }
{}

/// Each element of a chunk that was filled has the number's bytes.
#[tactic(auto, using(crate::proofs::FillLaws::filled_at))]
pub fn filled_law()
    ensures { FilledLaw }
{}
