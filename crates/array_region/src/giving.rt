//! Whether numbers can be those of a box.

ghost use Rattle.std.specs.Prelude.{◌≡◌};
ghost use Rattle.array_region.specs.Writing.{cells_refused};
ghost use Rattle.array_region.specs.Setting.{Gives};

use crate::given::Given;
use crate::plans::Plan;
use region_cells::first_outside;
use store_api::{Refusal, RegionFault};

/// Why these can't be the numbers of the box, if they can't.
fn refused(plan: &Plan, numbers: &[i128]) -> Option<Refusal>
    ensures { result ≡ cells_refused plan.now.array.kind plan.now.count numbers.now }
{
    if numbers.len() != plan.count {
        return Some(Refusal::Region(RegionFault::CellCount {
            want: plan.count as u64,
            got: numbers.len() as u64,
        }));
    }
    match first_outside(plan.array.kind, numbers) {
        Some(at) => Some(Refusal::Region(RegionFault::CellRange { at: at as u64 })),
        None => None,
    }
}

/// The box with these numbers. It is refused by `CellCount` where they aren't as many as its cells, and by `CellRange` with the
/// first one that the array's type doesn't hold.
pub(crate) fn given(plan: Plan, numbers: Vec<i128>) -> Result<Given, Refusal>
    ensures { Gives plan numbers.items result }
{
    if let Some(why) = refused(&plan, numbers.as_slice()) {
        drop(plan);
        drop(numbers);
        return Err(why);
    }
    Ok(Given { plan, numbers })
}
