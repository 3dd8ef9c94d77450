//! What the words of a line of a script stand for.
//!
//! A line's parts are cut at single spaces, and lists at commas (`words`). Each word is a value, as a name, a path, a number, bytes,
//! a cutoff or a policy (`values`), or a list of numbers (`lists`), or is refused with a kind of fault, `ScriptKind`. Of the
//! kinds of several parts the first in the order of `ScriptKind` is told (`parts`). What a line may say is told by `script_calls`.
#![tactic(auto)]

mod arrays;
mod boxed;
mod kinds;
mod laws;
pub mod lists;
pub mod parts;
pub mod values;
pub mod words;

pub use arrays::array_text;
pub use boxed::Boxed;
pub use kinds::ScriptKind;
pub use laws::{hex_law, plain_law};
pub use values::TaskName;
