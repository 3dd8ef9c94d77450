//! JSON texts: the value that bytes stand for, with want of memory told apart from a refusal.
//!
//! The reader is `serde_json`. Of a repeated member the last counts, arrays and objects nest up to
//! 127 deep, and a number that is too large for a float makes the whole text no JSON. A number with
//! a fraction or an exponent, `-0`, and a whole number outside -2^63 to 2^64 - 1 are floats.
#![tactic(auto)]

ghost use Rattle.std.specs.Prelude.{MatchResult};
ghost use Rattle.serde_json.specs.View.{view};
ghost use Rattle.json_words.specs.Reading.{ReadsAs, Refuses};

use serde_json::{Category, Value};
use std::alloc::Global;

/// Why no value was read.
#[derive(Clone, Copy, Debug, Drop, PartialEq, Eq)]
pub enum JsonFault {
    /// The bytes aren't UTF-8, or `serde_json` refuses their text.
    Json,
    /// There was no memory.
    NoMemory,
}

/// Reads the value that the bytes stand for. `Json` is told exactly where there is none.
pub fn read_value(alloc: Global, bytes: &[u8]) -> Result<Value, JsonFault>
    ensures { MatchResult result (λ value. ReadsAs bytes.now (view value)) (Refuses bytes.now) }
{
    Value::from_slice(alloc, bytes).map_err(|error| match error.classify() {
        Category::Memory => JsonFault::NoMemory,
        _ => JsonFault::Json,
    })
}
