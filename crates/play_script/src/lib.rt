//! Scripts: the tasks that clients play against a repository, and the turns that they take.
//!
//! A script is UTF-8 text of at most 1,048,576 bytes. A line ends with a line feed, which the last one may lack; words stand
//! between single spaces; empty lines and those that begin with `#` are passed over. It is any number of tasks, at most 64,
//! then at most one line of turns:
//!
//! - `task NAME write BRANCH TRIES POLICY`, a task that edits: lines `group PATH`, `array PATH TYPE SHAPE CHUNKS FILL`,
//!   `make PATH JSON`, `meta PATH JSON`, `drop PATH`, `set PATH INDEX HEX`, `fill PATH INDEX BYTE`, `unset PATH INDEX`,
//!   `put PATH FROM TO CELLS`, `zset KEY HEX`, `zdel KEY`, `prop PROPERTY VALUE`, and those of a task that reads, then at most one `commit MESSAGE`;
//!   JSON, VALUE and MESSAGE are the rest of the line and may be empty;
//! - `task NAME read AT`, a task that reads: lines `list PATH`, `get PATH`, `chunk PATH INDEX`, `cells PATH FROM TO`, `zget KEY` and `lease`;
//! - `task NAME refs`, a task about refs: lines `branch REF AT`, `reset REF AT`, `unbranch REF`, `tag REF AT`, `untag REF` and
//!   `log AT`, one at least;
//! - `task NAME collect CUTOFF`, a task that collects, with no line of its own;
//! - `task NAME expire CUTOFF FLAGS`, a task that expires, with no line of its own;
//! - `task NAME check`, a task that checks, with no line of its own;
//! - `turns WORDS`, each word a task's `NAME`, or `NAME*COUNT` with a count of 1 to 9,999; perhaps no word.
//!
//! Names are 1 to 16 bytes of `a` to `z`, `0` to `9` and `_`, and distinct. TRIES is one digit.
//! POLICY is `fail`, `ours` or `theirs`, alone or followed by `+a`, `+g` or `+ag`. AT is `branch REF`, `tag REF` or `id ID`.
//! SHAPE and CHUNKS are numbers of up to 128 bits, INDEX of up to 32 bits, and FROM and TO of up to 64 bits, joined by commas,
//! or `-` for none; FILL is a number of 128 bits with a sign, and CELLS are such numbers, joined likewise. HEX is pairs of lower-case digits of base 16, or `-` for no bytes; BYTE is one such pair.
//! A KEY or a PROPERTY is any word. A CUTOFF is microseconds since 1970 in up to 20 digits, or `@` and an instant; FLAGS is
//! `keep`, `branches`, `tags` or `both`.
#![tactic(auto)]

mod bodies;
mod faults;
mod heads;
mod names;
mod reading;
mod scripts;
mod turning;

pub use faults::ScriptFault;
pub use heads::MOST_TASKS;
pub use reading::MOST_BYTES;
pub use scripts::{Line, Lines, Script, Task, Tasks, Turn, Turns};
