use grow_script::{Summary, grown_script};
use std::alloc::Global;
use std::test::Fail;
use test_ends::{none, says};

/// Lines of the script for one task, by their numbers from 0 on.
const LINES: [(usize, Option<&str>); 6] = [
    (0, Some("task t0 write main 0 fail")),
    (4, Some("task t1 write main 9 ours")),
    (5, Some("fill /x 22,25 cc")),
    (55, Some("commit t1")),
    (
        56,
        Some("turns t0*5 t1 t1 t1 t1 t1 t1 t1 t1 t1 t1 t1 t1 t1 t1 t1 t1 t1 t1 t1 t1"),
    ),
    (57, None),
];

/// The first of those lines that a script for one task doesn't have, if there is one.
fn first_wrong(text: &str) -> Option<u64> {
    for (number, line) in &LINES {
        if text.lines().nth(*number) != *line {
            return Some(*number as u64);
        }
    }
    None
}

/// The first of the lines that the script for one task doesn't have, if there is one, or no script.
fn wrong_line(alloc: Global) -> Option<u64> {
    let Ok(text) = grown_script(alloc, 1) else {
        return Some(0);
    };
    let wrong = first_wrong(text.as_str());
    drop(text);
    wrong
}

#[test]
fn script_of_one_task(rt: HostRuntime) -> Result<(), Fail> {
    none(wrong_line(rt.alloc()))
}

#[test]
fn summary_is_one_line(rt: HostRuntime) -> Result<(), Fail> {
    let summary = Summary {
        tasks: 2,
        committed: 2,
        refused: 0,
        events: 16,
    };
    let line = format!(in rt.alloc(); "{summary}");
    says(line.ok(), "tasks 2 committed 2 refused 0 events 16")
}
