//! Objects that are put once, in a directory.

use crate::calls::Call;
use crate::directories::told_at;
use crate::folders::{made, removed};
use ice_ids::Id12;
use std::test::Fail;
use store_api::Key;
use test_ends::{holds, says};

/// What operations on a chunk answer in a fresh directory.
fn chunk_told(rt: HostRuntime, path: &str) -> Option<String> {
    let key = Key::Chunk(Id12([7; 12]));
    let calls = [
        Call::New(b"one"),
        Call::New(b"two"),
        Call::Get,
        Call::Over(b"three", b"two"),
        Call::RemoveAt(b"one"),
        Call::Remove,
    ];
    let told = told_at(rt, path, &key, &calls);
    drop(key);
    told
}

/// The version is 0, whatever the bytes are. So what stands there is found unchanged at each put over it and removal.
#[test]
fn a_chunk_has_the_version_0(rt: HostRuntime) -> Result<(), Fail> {
    holds(made(rt, "once"), "a folder")?;
    let want = "Ok(New(Done { version: Version(0), now: 0 }))\n\
        Ok(New(Present { version: Version(0), now: 1 }))\n\
        Ok(Got(Found { bytes: Bytes { items: [111, 110, 101] }, version: Version(0), now: 2 }))\n\
        Ok(Over(Done { version: Version(0), now: 3 }))\n\
        Ok(GoneAt(Done { now: 4 }))\n\
        Ok(Gone(Absent { now: 5 }))\n";
    says(chunk_told(rt, "once"), want)?;
    removed(rt, "once")
}
