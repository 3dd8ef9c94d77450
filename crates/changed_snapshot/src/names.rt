//! The names of dimensions that a row has.

ghost use Rattle.std.specs.Prelude.{◌≡◌, Some, IfOk, option_map, option_and_then};
ghost use Rattle.changed_snapshot.specs.Rows.{name_of, names_of};

use ice_base::Text;
use ice_items::Items;
use snapshot_file::Names;
use std::alloc::{AllocError, Global};

/// A text once more.
fn copy_text(alloc: Global, text: &str) -> Result<Text, AllocError>
    ensures { IfOk result (λ copy. name_of text.now ≡ Some copy) }
{
    Text::of(alloc, text)
}

/// A name once more, if it is there.
fn copy_name(alloc: Global, name: &Option<Text>) -> Result<Option<Text>, AllocError>
    ensures { IfOk result (λ copy. copy ≡ option_and_then name_of name.now) }
{
    match name {
        Some(name) => Ok(Some(copy_text(alloc, name.as_str())?)),
        None => Ok(None),
    }
}

/// The same names once more.
fn copy_list(alloc: Global, names: &Names) -> Result<Names, AllocError>
    ensures { IfOk result (λ copy. copy ≡ names_of names.now) }
{
    let mut copy = Vec::with_capacity(alloc, names.len())?;
    for name in names.as_slice() {
        copy.push(copy_name(alloc, name)?)?;
    }
    Ok(Items::from_vec(copy))
}

/// The names of an array's dimensions once more, if they are there.
pub(crate) fn copy_names(alloc: Global, names: &Option<Names>) -> Result<Option<Names>, AllocError>
    ensures { IfOk result (λ copy. copy ≡ option_map names_of names.now) }
{
    match names {
        Some(names) => Ok(Some(copy_list(alloc, names)?)),
        None => Ok(None),
    }
}
