//! The forms of body lines.

ghost use Rattle.std.specs.Prelude.{◌≡◌, IfOk, Ok};
ghost use Rattle.script_values.specs.Words.{seen};
ghost use Rattle.script_calls.specs.declared.calls.Call.TheVariants as Call;
ghost use Rattle.script_calls.specs.declared.calls.Class.TheVariants as Class;
ghost use Rattle.script_values.specs.Parts.{◌&◌};
ghost use Rattle.script_values.specs.Values.{text_of, path_of, index_of, bytes_of};
ghost use Rattle.script_calls.specs.Forms.{taken, lone_path, path_and_text, array_of, path_and_array, path_and_index, chunk_and_bytes, chunk_and_byte, box_of, lone_box, box_and_cells, lone_key, key_and_bytes, node_edit_of, chunk_edit_of, key_edit_of, edit_of, read_of, commit_of, name_and_value, prop_of, nothing, lease_of, ref_of, form, form_of};

use crate::calls::{Call, CellBox, Class, EditCall, ReadCall};
use crate::refs::ref_call;
use ice_base::{Bytes, Text};
use ice_items::Items;
use script_values::lists::{cells_in, corner_in, index_in, numbers_in};
use script_values::parts::{both, boxed};
use script_values::values::{byte_in, bytes_in, fill_in, path_in, text_in};
use script_values::words::{five, four, next, one, three, two};
use script_values::{Boxed, ScriptKind, array_text};
use std::alloc::{AllocError, Global};
use zarr_path::{Index, Path};

/// A body line by its first word.
#[derive(Drop)]
pub struct Form {
    /// Its class.
    pub class: Class,
    /// What it calls, or what is wrong with its words.
    pub call: Result<Call, ScriptKind>,
}

/// The path that a word is, in memory of its own.
fn boxed_path(alloc: Global, word: &str) -> Result<Result<Boxed<Path>, ScriptKind>, AllocError>
    ensures { IfOk result (λ r. r ≡ path_of word.now) }
{
    boxed(alloc, path_in(alloc, word)?)
}

/// The bytes that a word stands for, in memory of their own.
fn boxed_bytes(alloc: Global, word: &str) -> Result<Result<Boxed<Bytes>, ScriptKind>, AllocError>
    ensures { IfOk result (λ r. r ≡ bytes_of word.now) }
{
    boxed(alloc, bytes_in(alloc, word)?)
}

/// The index that a word lists, in memory of its own.
fn boxed_index(alloc: Global, word: &str) -> Result<Result<Boxed<Index>, ScriptKind>, AllocError>
    ensures { IfOk result (λ r. r ≡ index_of word.now) }
{
    boxed(alloc, index_in(alloc, word)?)
}

/// The place of a chunk, by two words.
fn chunk_in(
    alloc: Global,
    path: &str,
    index: &str,
) -> Result<Result<(Boxed<Path>, Boxed<Index>), ScriptKind>, AllocError>
    ensures { IfOk result (λ r. r ≡ (path_of path.now & index_of index.now)) }
{
    let path = boxed_path(alloc, path)?;
    let index = boxed_index(alloc, index)?;
    Ok(both(path, index))
}

/// The one path that is left of a line.
#[tactic(auto, unfolding(crate::specs::Forms::lone_path))]
fn lone_path(alloc: Global, rest: Option<&str>) -> Result<Result<Path, ScriptKind>, AllocError>
    ensures { IfOk result (λ r. r ≡ lone_path (seen rest.entry)) }
{
    match one(rest) {
        Some(path) => path_in(alloc, path),
        None => Ok(Err(ScriptKind::Word)),
    }
}

/// All that is left of a line.
fn rest_text(alloc: Global, rest: Option<&str>) -> Result<Result<Text, ScriptKind>, AllocError>
    ensures { IfOk result (λ r. r ≡ taken (seen rest.entry) text_of) }
{
    match rest {
        Some(text) => Ok(Ok(text_in(alloc, text)?)),
        None => Ok(Err(ScriptKind::Word)),
    }
}

/// A path and one space, and all that is left behind them.
#[tactic(auto, unfolding(crate::specs::Forms::path_and_text))]
fn path_and_text(
    alloc: Global,
    rest: Option<&str>,
) -> Result<Result<(Boxed<Path>, Boxed<Text>), ScriptKind>, AllocError>
    ensures { IfOk result (λ r. r ≡ path_and_text (seen rest.entry)) }
{
    let Some((path, rest)) = next(rest) else {
        return Ok(Err(ScriptKind::Word));
    };
    let path = boxed_path(alloc, path)?;
    let text = boxed(alloc, rest_text(alloc, rest)?)?;
    Ok(both(path, text))
}

/// The text of the array that four words tell.
#[tactic(auto, unfolding(crate::specs::Forms::array_of))]
fn array_in(
    alloc: Global,
    data_type: &str,
    shape: &str,
    chunks: &str,
    fill: &str,
) -> Result<Result<Text, ScriptKind>, AllocError>
    ensures { IfOk result (λ r. r ≡ array_of data_type.now shape.now chunks.now fill.now) }
{
    let data_type = text_in(alloc, data_type)?;
    let shape = numbers_in(alloc, shape)?;
    let chunks = numbers_in(alloc, chunks)?;
    match both(both(shape, chunks), fill_in(fill)) {
        Ok(((shape, chunks), fill)) => Ok(Ok(array_text(alloc, data_type, &shape, &chunks, fill)?)),
        Err(kind) => Ok(Err(kind)),
    }
}

/// A path, and the text of the array that four more words tell.
#[tactic(auto, unfolding(crate::specs::Forms::path_and_array))]
fn path_and_array(
    alloc: Global,
    rest: Option<&str>,
) -> Result<Result<(Boxed<Path>, Boxed<Text>), ScriptKind>, AllocError>
    ensures { IfOk result (λ r. r ≡ path_and_array (seen rest.entry)) }
{
    let Some((path, data_type, shape, chunks, fill)) = five(rest) else {
        return Ok(Err(ScriptKind::Word));
    };
    let path = boxed_path(alloc, path)?;
    let text = boxed(alloc, array_in(alloc, data_type, shape, chunks, fill)?)?;
    Ok(both(path, text))
}

/// A path and the index of a chunk.
#[tactic(auto, unfolding(crate::specs::Forms::path_and_index))]
fn path_and_index(
    alloc: Global,
    rest: Option<&str>,
) -> Result<Result<(Boxed<Path>, Boxed<Index>), ScriptKind>, AllocError>
    ensures { IfOk result (λ r. r ≡ path_and_index (seen rest.entry)) }
{
    match two(rest) {
        Some((path, index)) => chunk_in(alloc, path, index),
        None => Ok(Err(ScriptKind::Word)),
    }
}

/// A path, the index of a chunk, and bytes.
#[tactic(auto, unfolding(crate::specs::Forms::chunk_and_bytes))]
fn chunk_and_bytes(
    alloc: Global,
    rest: Option<&str>,
) -> Result<Result<((Boxed<Path>, Boxed<Index>), Boxed<Bytes>), ScriptKind>, AllocError>
    ensures { IfOk result (λ r. r ≡ chunk_and_bytes (seen rest.entry)) }
{
    let Some((path, index, bytes)) = three(rest) else {
        return Ok(Err(ScriptKind::Word));
    };
    let chunk = chunk_in(alloc, path, index)?;
    let bytes = boxed_bytes(alloc, bytes)?;
    Ok(both(chunk, bytes))
}

/// A path, the index of a chunk, and one byte.
#[tactic(auto, unfolding(crate::specs::Forms::chunk_and_byte))]
fn chunk_and_byte(
    alloc: Global,
    rest: Option<&str>,
) -> Result<Result<((Boxed<Path>, Boxed<Index>), u8), ScriptKind>, AllocError>
    ensures { IfOk result (λ r. r ≡ chunk_and_byte (seen rest.entry)) }
{
    let Some((path, index, byte)) = three(rest) else {
        return Ok(Err(ScriptKind::Word));
    };
    let chunk = chunk_in(alloc, path, index)?;
    Ok(both(chunk, byte_in(byte)))
}

/// The box of cells that three words tell, in memory of its own.
fn box_in(
    alloc: Global,
    path: &str,
    from: &str,
    to: &str,
) -> Result<Result<Boxed<CellBox>, ScriptKind>, AllocError>
    ensures { IfOk result (λ r. r ≡ box_of path.now from.now to.now) }
{
    let path = path_in(alloc, path)?;
    let from = corner_in(alloc, from)?;
    let to = corner_in(alloc, to)?;
    let place = both(both(path, from), to).map(|((path, from), to)| CellBox { path, from, to });
    boxed(alloc, place)
}

/// A box of cells.
#[tactic(auto, unfolding(crate::specs::Forms::lone_box))]
fn lone_box(
    alloc: Global,
    rest: Option<&str>,
) -> Result<Result<Boxed<CellBox>, ScriptKind>, AllocError>
    ensures { IfOk result (λ r. r ≡ lone_box (seen rest.entry)) }
{
    match three(rest) {
        Some((path, from, to)) => box_in(alloc, path, from, to),
        None => Ok(Err(ScriptKind::Word)),
    }
}

/// A box of cells, and their numbers.
#[tactic(auto, unfolding(crate::specs::Forms::box_and_cells))]
fn box_and_cells(
    alloc: Global,
    rest: Option<&str>,
) -> Result<Result<(Boxed<CellBox>, Boxed<Items<i128>>), ScriptKind>, AllocError>
    ensures { IfOk result (λ r. r ≡ box_and_cells (seen rest.entry)) }
{
    let Some((path, from, to, cells)) = four(rest) else {
        return Ok(Err(ScriptKind::Word));
    };
    let place = box_in(alloc, path, from, to)?;
    let numbers = boxed(alloc, cells_in(alloc, cells)?)?;
    Ok(both(place, numbers))
}

/// The one key that is left of a line.
#[tactic(auto, unfolding(crate::specs::Forms::lone_key))]
fn lone_key(alloc: Global, rest: Option<&str>) -> Result<Result<Text, ScriptKind>, AllocError>
    ensures { IfOk result (λ r. r ≡ lone_key (seen rest.entry)) }
{
    match one(rest) {
        Some(key) => Ok(Ok(text_in(alloc, key)?)),
        None => Ok(Err(ScriptKind::Word)),
    }
}

/// A key and bytes.
#[tactic(auto, unfolding(crate::specs::Forms::key_and_bytes))]
fn key_and_bytes(
    alloc: Global,
    rest: Option<&str>,
) -> Result<Result<(Boxed<Text>, Boxed<Bytes>), ScriptKind>, AllocError>
    ensures { IfOk result (λ r. r ≡ key_and_bytes (seen rest.entry)) }
{
    let Some((key, bytes)) = two(rest) else {
        return Ok(Err(ScriptKind::Word));
    };
    let key = Boxed::new(alloc, text_in(alloc, key)?)?;
    match boxed_bytes(alloc, bytes)? {
        Ok(bytes) => Ok(Ok((key, bytes))),
        Err(kind) => Ok(Err(kind)),
    }
}

/// A name and one space, and all that is left behind them.
#[tactic(auto, unfolding(crate::specs::Forms::name_and_value))]
fn name_and_value(
    alloc: Global,
    rest: Option<&str>,
) -> Result<Result<(Boxed<Text>, Boxed<Text>), ScriptKind>, AllocError>
    ensures { IfOk result (λ r. r ≡ name_and_value (seen rest.entry)) }
{
    let Some((name, rest)) = next(rest) else {
        return Ok(Err(ScriptKind::Word));
    };
    let name = Boxed::new(alloc, text_in(alloc, name)?)?;
    match boxed(alloc, rest_text(alloc, rest)?)? {
        Ok(value) => Ok(Ok((name, value))),
        Err(kind) => Ok(Err(kind)),
    }
}

/// What a line calls that changes a node.
#[tactic(auto, unfolding(crate::specs::Forms::node_edit_of))]
fn node_edit(
    alloc: Global,
    first: &str,
    rest: Option<&str>,
) -> Result<Option<Result<EditCall, ScriptKind>>, AllocError>
    ensures { IfOk result (λ call. call ≡ node_edit_of first.now (seen rest.entry)) }
{
    Ok(Some(match first {
        "group" => lone_path(alloc, rest)?.map(|path| EditCall::Group { path }),
        "array" => path_and_array(alloc, rest)?.map(|(path, text)| EditCall::Array { path, text }),
        "make" => path_and_text(alloc, rest)?.map(|(path, text)| EditCall::Make { path, text }),
        "meta" => path_and_text(alloc, rest)?.map(|(path, text)| EditCall::Meta { path, text }),
        "drop" => lone_path(alloc, rest)?.map(|path| EditCall::Drop { path }),
        _ => return Ok(None),
    }))
}

/// What a line calls that changes a chunk.
#[tactic(auto, unfolding(crate::specs::Forms::chunk_edit_of))]
fn chunk_edit(
    alloc: Global,
    first: &str,
    rest: Option<&str>,
) -> Result<Option<Result<EditCall, ScriptKind>>, AllocError>
    ensures { IfOk result (λ call. call ≡ chunk_edit_of first.now (seen rest.entry)) }
{
    Ok(Some(match first {
        "set" => chunk_and_bytes(alloc, rest)?.map(|((path, index), bytes)| EditCall::Set {
            path,
            index,
            bytes,
        }),
        "fill" => chunk_and_byte(alloc, rest)?.map(|((path, index), byte)| EditCall::Fill {
            path,
            index,
            byte,
        }),
        "unset" => {
            path_and_index(alloc, rest)?.map(|(path, index)| EditCall::Unset { path, index })
        }
        "put" => {
            box_and_cells(alloc, rest)?.map(|(place, numbers)| EditCall::Put { place, numbers })
        }
        _ => return Ok(None),
    }))
}

/// What a line calls that changes the value of a key.
#[tactic(auto, unfolding(crate::specs::Forms::key_edit_of))]
fn key_edit(
    alloc: Global,
    first: &str,
    rest: Option<&str>,
) -> Result<Option<Result<EditCall, ScriptKind>>, AllocError>
    ensures { IfOk result (λ call. call ≡ key_edit_of first.now (seen rest.entry)) }
{
    Ok(Some(match first {
        "zset" => key_and_bytes(alloc, rest)?.map(|(key, bytes)| EditCall::KeySet { key, bytes }),
        "zdel" => lone_key(alloc, rest)?.map(|key| EditCall::KeyErase { key }),
        _ => return Ok(None),
    }))
}

/// What a line calls that changes the tree.
fn edit_call(
    alloc: Global,
    first: &str,
    rest: Option<&str>,
) -> Result<Option<Result<EditCall, ScriptKind>>, AllocError>
    ensures { IfOk result (λ call. call ≡ edit_of first.now (seen rest.entry)) }
{
    if let Some(call) = node_edit(alloc, first, rest)? {
        return Ok(Some(call));
    }
    if let Some(call) = chunk_edit(alloc, first, rest)? {
        return Ok(Some(call));
    }
    key_edit(alloc, first, rest)
}

/// A line that changes the tree.
fn edit_in(alloc: Global, first: &str, rest: Option<&str>) -> Result<Option<Form>, AllocError>
    ensures { IfOk result
        (λ f. f ≡ form Class.Edit Call.Edit (edit_of first.now (seen rest.entry))) }
{
    match edit_call(alloc, first, rest)? {
        Some(call) => Ok(Some(Form {
            class: Class::Edit,
            call: call.map(Call::Edit),
        })),
        None => Ok(None),
    }
}

/// What a line calls that looks at the tree.
#[tactic(auto, unfolding(crate::specs::Forms::read_of))]
fn read_call(
    alloc: Global,
    first: &str,
    rest: Option<&str>,
) -> Result<Option<Result<ReadCall, ScriptKind>>, AllocError>
    ensures { IfOk result (λ call. call ≡ read_of first.now (seen rest.entry)) }
{
    Ok(Some(match first {
        "list" => lone_path(alloc, rest)?.map(|path| ReadCall::List { path }),
        "get" => lone_path(alloc, rest)?.map(|path| ReadCall::Get { path }),
        "chunk" => {
            path_and_index(alloc, rest)?.map(|(path, index)| ReadCall::Chunk { path, index })
        }
        "cells" => lone_box(alloc, rest)?.map(|place| ReadCall::Cells { place }),
        "zget" => lone_key(alloc, rest)?.map(|key| ReadCall::KeyGet { key }),
        _ => return Ok(None),
    }))
}

/// A line that looks at the tree.
fn read_in(alloc: Global, first: &str, rest: Option<&str>) -> Result<Option<Form>, AllocError>
    ensures { IfOk result
        (λ f. f ≡ form Class.Read Call.Read (read_of first.now (seen rest.entry))) }
{
    match read_call(alloc, first, rest)? {
        Some(call) => Ok(Some(Form {
            class: Class::Read,
            call: call.map(Call::Read),
        })),
        None => Ok(None),
    }
}

/// A line that commits.
#[tactic(auto, unfolding(crate::specs::Forms::commit_of))]
fn commit_in(alloc: Global, first: &str, rest: Option<&str>) -> Result<Option<Form>, AllocError>
    ensures { IfOk result
        (λ f. f ≡ form Class.Commit Call.Commit (commit_of first.now (seen rest.entry))) }
{
    let call = match first {
        "commit" => rest_text(alloc, rest)?.map(|message| Call::Commit { message }),
        _ => return Ok(None),
    };
    Ok(Some(Form {
        class: Class::Commit,
        call,
    }))
}

/// A line that is about refs.
fn refs_in(alloc: Global, first: &str, rest: Option<&str>) -> Result<Option<Form>, AllocError>
    ensures { IfOk result (λ f. f ≡ form Class.Ref Call.Ref (ref_of first.now (seen rest.entry))) }
{
    match ref_call(alloc, first, rest)? {
        Some(call) => Ok(Some(Form {
            class: Class::Ref,
            call: boxed(alloc, call)?.map(Call::Ref),
        })),
        None => Ok(None),
    }
}

/// A line that adds a property to the commit.
#[tactic(auto, unfolding(crate::specs::Forms::prop_of))]
fn prop_in(alloc: Global, first: &str, rest: Option<&str>) -> Result<Option<Form>, AllocError>
    ensures { IfOk result (λ f. f ≡ form Class.Edit (λ v. Call.Prop v.0 v.1)
        (prop_of first.now (seen rest.entry))) }
{
    let call = match first {
        "prop" => name_and_value(alloc, rest)?.map(|(name, value)| Call::Prop { name, value }),
        _ => return Ok(None),
    };
    Ok(Some(Form {
        class: Class::Edit,
        call,
    }))
}

/// A word behind which nothing stands.
fn nothing(rest: Option<&str>) -> Result<(), ScriptKind>
    ensures { result ≡ nothing (seen rest.entry) }
{
    match rest {
        None => Ok(()),
        Some(_) => Err(ScriptKind::Word),
    }
}

/// A line that keeps the session's base.
#[tactic(auto, unfolding(crate::specs::Forms::lease_of))]
fn lease_in(first: &str, rest: Option<&str>) -> Option<Form>
    ensures { result ≡ form Class.Read (λ _. Call.Lease) (lease_of first.now (seen rest.entry)) }
{
    match first {
        "lease" => Some(Form {
            class: Class::Read,
            call: nothing(rest).map(|_| Call::Lease),
        }),
        _ => None,
    }
}

/// A body line by its first word.
#[tactic(auto, unfolding(crate::specs::Forms::form_of))]
pub fn form_in(alloc: Global, first: &str, rest: Option<&str>) -> Result<Form, AllocError>
    ensures { IfOk result (λ r. r ≡ form_of first.now (seen rest.entry)) }
{
    if let Some(form) = edit_in(alloc, first, rest)? {
        return Ok(form);
    }
    if let Some(form) = read_in(alloc, first, rest)? {
        return Ok(form);
    }
    if let Some(form) = commit_in(alloc, first, rest)? {
        return Ok(form);
    }
    if let Some(form) = refs_in(alloc, first, rest)? {
        return Ok(form);
    }
    if let Some(form) = prop_in(alloc, first, rest)? {
        return Ok(form);
    }
    if let Some(form) = lease_in(first, rest) {
        return Ok(form);
    }
    Ok(Form {
        class: Class::Edit,
        call: Err(ScriptKind::Word),
    })
}
