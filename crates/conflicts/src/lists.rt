//! Looking up in paths that stand in order, by halves.

ghost use Rattle.std.specs.Prelude.{◌≡◌};
ghost use Rattle.std.specs.List.{list_any};
ghost use Rattle.std.specs.List.Sorted.{IsStrictlySortedBy};
ghost use Rattle.zarr_path.specs.Paths.{path_cmp, same_path};

use std::cmp::Ordering;
use zarr_path::Path;

/// How a path compares with another.
fn compare(path: &Path, text: &str) -> Ordering
    ensures { result ≡ path_cmp path.now text.now }
{
    path.as_str().cmp(text)
}

/// Whether paths in order have this one.
pub(crate) fn has_path(paths: &[Path], text: &str) -> bool
    requires { IsStrictlySortedBy path_cmp paths.now }
    ensures { result ≡ list_any (same_path text.now) paths.now }
{
    paths.binary_search_by(|path| compare(path, text)).is_ok()
}
