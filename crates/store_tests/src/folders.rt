//! Each folder of a test is made and removed here.

use std::fs;
use std::test::Fail;
use test_ends::holds;

/// Whether an empty folder was made.
pub(crate) fn made(rt: HostRuntime, path: &str) -> bool {
    let _ = fs::remove_dir_all(&rt, path);
    fs::create_dir_all(&rt, path).is_ok()
}

/// Removes a folder.
pub(crate) fn removed(rt: HostRuntime, path: &str) -> Result<(), Fail> {
    holds(fs::remove_dir_all(&rt, path).is_ok(), path)
}
