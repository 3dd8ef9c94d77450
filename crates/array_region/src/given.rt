//! The numbers that a box gets.

ghost use Rattle.std.specs.Prelude.{◌≡◌, length};
ghost use Rattle.region_cells.specs.Rows.{AreInRange};

use crate::plans::Plan;

/// A box, and the numbers of its cells, in C order.
#[derive(Debug, Drop)]
pub(crate) struct Given {
    pub(crate) plan: Plan,
    pub(crate) numbers: Vec<i128>,
    ghost whole: { length numbers.items ≡ plan.count },
    ghost range: { AreInRange plan.array.kind numbers.items },
}
