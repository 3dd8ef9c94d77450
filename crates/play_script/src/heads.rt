//! Heads of tasks, each in view of the script before it.

ghost use Rattle.std.specs.Prelude.{◌≡◌, ◌+◌, ◌<◌, ◌≤◌, IfOk, length, false};
ghost use Rattle.script_values.specs.Words.{seen, lines_of};
ghost use Rattle.play_script.specs.Places.{most_tasks, is_passed, ends_task, has_line, with_task, is_head_placed, may_begin, task_line, head_line};
ghost use Rattle.play_script.specs.SoFar.{task_names, is_among};

use crate::bodies::is_open;
use crate::names::Names;
use crate::scripts::{Lines, Script, Task};
use script_calls::{Head, head_in};
use script_values::parts::{both, only_if};
use script_values::values::task_name_in;
use script_values::words::{cut_line, first_word, next};
use script_values::{ScriptKind, TaskName};
use std::alloc::{AllocError, Global};

/// How many tasks a script may have.
pub const MOST_TASKS: usize = 64;

/// Whether a line is passed over.
pub fn is_passed(line: &[u8]) -> bool
    ensures { result ≡ is_passed line.now }
{
    match line {
        [] => true,
        [first, ..] => *first == b'#',
    }
}

fn ends_task(line: &[u8]) -> bool
    ensures { result ≡ ends_task line.now }
{
    let first = first_word(line);
    first == b"task".as_slice() || first == b"turns".as_slice()
}

/// Whether the first line that isn't passed over is one of a body.
#[tactic(auto, unfolding(crate::specs::Places::has_line))]
fn has_line(text: &[u8]) -> bool
    ensures { result ≡ has_line (lines_of text.now) }
{
    let mut left = text;
    while !left.is_empty() {
        let (line, after) = cut_line(left);
        if !is_passed(line) {
            return !ends_task(line);
        }
        left = after;
    }
    false
}

/// The script with one more task.
fn with_task(
    alloc: Global,
    script: Script,
    line: u32,
    name: TaskName,
    head: Head,
) -> Result<Script, AllocError>
    ensures value { IfOk result (λ s. s ≡ with_task script line name head) }
    ensures few { IfOk result (λ s. length s.tasks ≡ length script.tasks + 1) }
{
    let mut script = script;
    let task = Task {
        name,
        line,
        head,
        body: Lines::new(alloc),
    };
    match script.tasks.push(task) {
        Ok(()) => Ok(script),
        Err(error) => {
            drop(script);
            Err(error)
        }
    }
}

/// Whether a head stands at its place: before the turns, and with a line behind it where it is that of refs.
#[tactic(auto, unfolding(crate::specs::Places::is_head_placed))]
fn is_head_placed(script: &Script, after: &[u8], word: &str) -> bool
    ensures { result ≡ is_head_placed script.now (lines_of after.now) word.now }
{
    if !is_open(script) {
        return false;
    }
    if word != "refs" {
        return true;
    }
    has_line(after)
}

/// What a head asks of the script before it and of the text behind it.
#[tactic(auto, unfolding(crate::specs::Places::may_begin), using(crate::proofs::Naming::among_tasks))]
fn may_begin(
    script: &Script,
    names: &Names,
    after: &[u8],
    name: &str,
    word: &str,
) -> Result<(), ScriptKind>
    requires { names.now ≡ task_names script.now.tasks }
    ensures value { result ≡ may_begin script.now (lines_of after.now) name.now word.now }
    ensures few { IfOk result (λ _. length script.now.tasks < most_tasks) }
    ensures unused { IfOk result (λ _. is_among names.now name.now ≡ false) }
{
    let placed = only_if(is_head_placed(script, after, word), ScriptKind::Misplaced);
    let few = only_if(script.tasks.as_slice().len() < MOST_TASKS, ScriptKind::Many);
    let unused = only_if(!names.has(name), ScriptKind::Name);
    match both(both(placed, few), unused) {
        Ok(_) => Ok(()),
        Err(kind) => Err(kind),
    }
}

/// The script with a task of this name, and the head that its word and the rest of its line give.
#[tactic(auto, unfolding(crate::specs::Places::task_line), using(crate::proofs::Naming::one_more_name))]
fn task_line(
    alloc: Global,
    script: Script,
    names: &mut Names,
    number: u32,
    after: &[u8],
    name: &str,
    word: &str,
    rest: Option<&str>,
) -> Result<Result<Script, ScriptKind>, AllocError>
    requires { names.old ≡ task_names script.tasks }
    ensures named { IfOk result (λ r. IfOk r (λ s. names.new ≡ task_names s.tasks)) }
    ensures value { IfOk result (λ r. r ≡ task_line script number (lines_of after.now) name.now
        word.now (seen rest.entry)) }
    ensures few { IfOk result (λ r. IfOk r (λ s. length s.tasks ≤ most_tasks)) }
{
    let before = may_begin(&script, names, after, name, word);
    let task_name = task_name_in(alloc, name)?;
    let head = head_in(alloc, word, rest)?;
    match both(both(before, task_name), head) {
        Ok((((), task_name), head)) => {
            let script = with_task(alloc, script, number, task_name, head)?;
            names.add(alloc, name)?;
            Ok(Ok(script))
        }
        Err(kind) => {
            drop(script);
            Ok(Err(kind))
        }
    }
}

/// The script with the task whose head's words, behind `task`, are these.
#[tactic(auto, unfolding(crate::specs::Places::head_line))]
pub fn head_line(
    alloc: Global,
    script: Script,
    names: &mut Names,
    number: u32,
    after: &[u8],
    rest: Option<&str>,
) -> Result<Result<Script, ScriptKind>, AllocError>
    requires { names.old ≡ task_names script.tasks }
    ensures named { IfOk result (λ r. IfOk r (λ s. names.new ≡ task_names s.tasks)) }
    ensures value { IfOk result (λ r. r ≡ head_line script number (lines_of after.now)
        (seen rest.entry)) }
    ensures few { IfOk result (λ r. IfOk r (λ s. length s.tasks ≤ most_tasks)) }
{
    let Some((name, rest)) = next(rest) else {
        return Ok(Err(ScriptKind::Word));
    };
    let Some((word, rest)) = next(rest) else {
        return Ok(Err(ScriptKind::Word));
    };
    task_line(alloc, script, names, number, after, name, word, rest)
}
