//! What a check tells.

use check_reports::{CheckFault, Checked, FaultKind};
use repo_check::{Check, CheckReport};
use std::alloc::Global;
use store_api::{Key, Store};

/// A check, from its beginning to its end.
fn checked<S: Store>(alloc: Global, store: &mut S) -> CheckReport {
    let mut check = Check::new(alloc);
    while !check.has_ended() {
        check.step(store);
    }
    check.into_report()
}

/// Whether a check ends with these numbers and no fault.
pub(crate) fn is_sound<S: Store>(alloc: Global, store: &mut S, found: Checked) -> bool {
    let report = checked(alloc, store);
    let sound = match &report.result {
        Ok(checked) => *checked == found,
        Err(_) => false,
    };
    let none = report.faults.is_empty();
    drop(report);
    sound && none
}

/// Whether two keys are those of one object.
fn are_same(a: &Key, b: &Key) -> bool {
    match (a, b) {
        (Key::Snapshot(x), Key::Snapshot(y)) => x == y,
        (Key::Manifest(x), Key::Manifest(y)) => x == y,
        (Key::Txn(x), Key::Txn(y)) => x == y,
        (Key::Chunk(x), Key::Chunk(y)) => x == y,
        _ => false,
    }
}

/// Whether a fault tells this: that nothing is at the key, or that what is there is bad.
fn is_told(fault: &CheckFault, key: &Key, gone: bool) -> bool {
    let kind = match &fault.kind {
        FaultKind::Absent => gone,
        FaultKind::Bad(_) => !gone,
        FaultKind::Ring | FaultKind::NotWell { .. } => false,
    };
    kind && are_same(&fault.key, key)
}

/// Whether a check tells this fault alone.
pub(crate) fn tells_alone<S: Store>(alloc: Global, store: &mut S, key: &Key, gone: bool) -> bool {
    let report = checked(alloc, store);
    let told = match report.faults.as_slice() {
        [fault] => is_told(fault, key, gone),
        _ => false,
    };
    drop(report);
    told
}
