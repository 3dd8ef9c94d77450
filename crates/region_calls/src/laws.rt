//! Laws of boxes, as the contracts of functions that do nothing.

ghost use Rattle.region_calls.specs.Laws.{RegionLaw, RegionSetLaw, OwningRegionLaw};

use crate::{owning_calls_law, set_law};
use commit_path::session_law;
use region_cells::box_law;

/// Whatever others do, a read of a box only reads, its client has changed no branch, and its answer is the numbers of the box in the
/// session's base under its own changes, or why there are none.
pub fn region_law()
    ensures { RegionLaw }
{
    box_law();
}

/// Whatever others do, a write of a box puts objects politely and under ids that the session draws, its client has changed no
/// branch, and its answer tells the journal. The session that it leads to has the tree with the numbers in the box, can be
/// written, and knows that the bytes of its chunks are there.
pub fn region_set_law()
    ensures { RegionSetLaw }
{
    session_law();
    set_law();
}

/// Whatever others do, the objects of a write of a box are put where its client put none before, if its source draws no id twice;
/// and what the client owns with a session it owns behind writes, their objects among it.
pub fn owning_region_law()
    ensures { OwningRegionLaw }
{
    owning_calls_law();
}
