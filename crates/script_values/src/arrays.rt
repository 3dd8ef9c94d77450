//! The plain text of an array.

ghost use Rattle.std.specs.Prelude.{◌≡◌, IfOk, string_bytes};
ghost use Rattle.serde_json.specs.Data.{string};
ghost use Rattle.serde_json.specs.Written.{compact_text};
ghost use Rattle.script_values.specs.Arrays.{codec_of, array_line_text};

use ice_base::Text;
use serde_json::Value;
use std::alloc::{AllocError, Global};
use zarr_meta::{IntKind, codec_text, text_about};

/// The codec of elements of a type.
fn codec_of(data_type: &str) -> &'static str
    ensures { result.now ≡ codec_of data_type.now }
{
    codec_text(match data_type {
        "int8" | "uint8" => IntKind::Int8,
        _ => IntKind::Int16,
    })
}

/// A text as a string of JSON.
fn quoted(alloc: Global, text: Text) -> Result<String, AllocError>
    ensures { IfOk result (λ quoted. string_bytes quoted ≡ compact_text (string text)) }
{
    Value::String(text.into_string()).to_string(alloc)
}

/// The plain text of an array.
pub fn array_text(
    alloc: Global,
    data_type: Text,
    shape: &[u128],
    chunks: &[u128],
    fill: i128,
) -> Result<Text, AllocError>
    ensures { IfOk result (λ text. text ≡ array_line_text data_type shape.now chunks.now fill) }
{
    let codec = codec_of(data_type.as_str());
    let quoted = quoted(alloc, data_type)?;
    let text = text_about(alloc, &quoted, codec, shape, chunks, fill)?;
    Ok(Text::from_string(text))
}
