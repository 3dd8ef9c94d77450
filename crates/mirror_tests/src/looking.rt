//! What stands in two stores.

use ice_base::Bytes;
use repo_check::{Check, CheckReport};
use std::alloc::Global;
use store_api::{Base, Entry, Got, Key, ObjectStore, Part, Rule, Store};

/// What a test may do: anything.
pub(crate) struct Anything;

impl Rule for Anything {
    ghost may = { λ journal op. Unit {0} };
}

/// A store in which a test may do anything.
pub(crate) trait Free: Base + ObjectStore<Anything> {}

impl<S: Base + ObjectStore<Anything>> Free for S {}

/// The bytes at a key.
fn bytes_at<S: Free>(store: &mut S, key: &Key) -> Option<Bytes> {
    match ObjectStore::<Anything>::get(store, key) {
        Ok(Got::Found { bytes, .. }) => Some(bytes),
        _ => None,
    }
}

/// Whether the same bytes stand at a key of both stores.
pub(crate) fn same_at<S: Free, T: Free>(from: &mut S, to: &mut T, key: &Key) -> bool {
    match (bytes_at(from, key), bytes_at(to, key)) {
        (Some(source), Some(target)) => source == target,
        _ => false,
    }
}

/// Whether the source has the same bytes under each of these keys.
fn are_same<S: Free, T: Free>(from: &mut S, to: &mut T, entries: &[Entry]) -> bool {
    let mut same = true;
    for entry in entries {
        same = same_at(from, to, &entry.key) && same;
    }
    same
}

/// Whether the source has each object of this part of the target, with the same bytes.
fn part_is_copied<S: Free, T: Free>(from: &mut S, to: &mut T, part: Part) -> bool {
    match ObjectStore::<Anything>::list(to, part) {
        Ok(listed) => are_same(from, to, listed.entries.as_slice()),
        Err(_) => false,
    }
}

/// The parts with objects that are put once.
const PARTS: [Part; 4] = [Part::Snapshots, Part::Txns, Part::Manifests, Part::Chunks];

/// Whether the source has each object of the target but for refs, with the same bytes.
pub(crate) fn is_copied<S: Free, T: Free>(from: &mut S, to: &mut T) -> bool {
    let mut copied = true;
    for part in PARTS {
        copied = part_is_copied(from, to, part) && copied;
    }
    copied
}

/// A check, from its beginning to its end.
fn checked<S: Store>(alloc: Global, store: &mut S) -> CheckReport {
    let mut check = Check::new(alloc);
    while !check.has_ended() {
        check.step(store);
    }
    check.into_report()
}

/// Whether a check finds all that refs reach.
pub(crate) fn is_sound<S: Store>(alloc: Global, store: &mut S) -> bool {
    let report = checked(alloc, store);
    let sound = report.result.is_ok();
    drop(report);
    sound
}
