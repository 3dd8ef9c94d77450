//! What the heads and the body lines of a script say, each by its words and whatever stands around it.
//!
//! - Heads: `write BRANCH TRIES POLICY`, `read AT`, `refs`, `collect CUTOFF`, `expire CUTOFF FLAGS` and `check`;
//! - edits: `group PATH`, `array PATH TYPE SHAPE CHUNKS FILL`, `make PATH JSON`, `meta PATH JSON`, `drop PATH`, `set PATH INDEX HEX`,
//!   `fill PATH INDEX BYTE`, `unset PATH INDEX`, `put PATH FROM TO CELLS`, `zset KEY HEX`, `zdel KEY` and `prop PROPERTY VALUE`;
//! - looks: `list PATH`, `get PATH`, `chunk PATH INDEX`, `cells PATH FROM TO` and `zget KEY`; and `lease`;
//! - `commit MESSAGE`;
//! - calls on refs: `branch REF AT`, `reset REF AT`, `unbranch REF`, `tag REF AT`, `untag REF` and `log AT`.
//!
//! What words stand for is told by `script_values`, and where a line may stand by `play_script`, which has the grammar as a whole.
#![tactic(auto)]

mod calls;
mod forms;
mod openings;
mod refs;

pub use calls::{Access, Call, CellBox, Class, EditCall, Head, ReadCall, RefCall};
pub use forms::{Form, form_in};
pub use openings::head_in;
