//! Plans of what is read or written.

ghost use Rattle.array_region.specs.Getting.{Plans};
ghost use Rattle.array_region.specs.Reading.{box_refused, ToldOutright};
ghost use Rattle.array_region.specs.Setting.{PlansWrite};

use crate::plans::{Plan, Region, counted};
use session::Session;
use std::alloc::Global;
use store_api::Refusal;
use zarr_tree::grid_law;

/// What is to be read or written.
pub(crate) fn planned(alloc: Global, session: &Session, region: Region) -> Result<Plan, Refusal>
    ensures reads { Plans session.now region result }
    ensures writes { PlansWrite session.now region result }
    ensures outright { ToldOutright (box_refused session.now region.path region.from.items
        region.to.items) result }
{
    grid_law();
    let found = match session.find_array(&region.path) {
        Ok(found) => found,
        Err(why) => return Err(why),
    };
    let count = match counted(found.array, &region) {
        Ok(count) => count,
        Err(why) => return Err(why),
    };
    let Ok(array) = found.array.copy(alloc) else {
        drop(region);
        return Err(Refusal::NoMemory);
    };
    let node = found.node;
    Ok(Plan {
        node,
        array,
        region,
        count,
    })
}
