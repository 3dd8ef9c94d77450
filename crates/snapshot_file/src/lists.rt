//! Lists of what arrays have for each dimension.

use ice_base::Text;
use ice_items::Items;

/// The lengths of an array's dimensions, each with that of a chunk in it.
pub type Shape = Items<(u64, u64)>;

/// The names of an array's dimensions, which may be missing.
pub type Names = Items<Option<Text>>;

/// For each dimension of an array the first index that is held, and the one behind the last.
pub type Extents = Items<(u32, u32)>;
