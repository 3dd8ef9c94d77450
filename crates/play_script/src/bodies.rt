//! Body lines, each in view of the script before it.

ghost use Rattle.std.specs.Prelude.{◌≡◌, ◌++◌, ◌∷◌, [], IfOk, length, option_map};
ghost use Rattle.script_values.specs.Words.{seen};
ghost use Rattle.play_script.specs.Places.{access_takes, head_takes, is_commit, takes, is_open, onto_last, with_line, body_line};

use crate::scripts::{Line, Script, Task, Tasks};
use script_calls::{Access, Call, Class, Head, form_in};
use script_values::ScriptKind;
use script_values::parts::{both, only_if};
use std::alloc::{AllocError, Global};

fn access_takes(access: &Access, class: Class) -> bool
    ensures { result ≡ access_takes access.now class }
{
    match access {
        Access::Write { .. } => class != Class::Ref,
        Access::Read { .. } => class == Class::Read,
    }
}

fn head_takes(head: &Head, class: Class) -> bool
    ensures { result ≡ head_takes head.now class }
{
    match head {
        Head::Session(access) => access_takes(access, class),
        Head::Refs => class == Class::Ref,
        Head::Collect { .. } => false,
        Head::Expire { .. } => false,
        Head::Check => false,
    }
}

fn is_commit(line: Option<&Line>) -> bool
    ensures { result ≡ is_commit (option_map (λ l. l.now) line.entry) }
{
    match line {
        None => false,
        Some(line) => matches!(&line.call, Call::Commit { .. }),
    }
}

fn takes(task: Option<&Task>, class: Class) -> bool
    ensures { result ≡ takes (option_map (λ t. t.now) task.entry) class }
{
    match task {
        None => false,
        Some(task) => { head_takes(&task.head, class) && !is_commit(task.body.as_slice().last()) }
    }
}

/// The `turns` line hasn't come yet.
pub fn is_open(script: &Script) -> bool
    ensures { result ≡ is_open script.now }
{
    script.turns.is_none()
}

/// The task with one more line.
fn with_more(task: Task, more: Line) -> Result<Task, AllocError>
    ensures { IfOk result (λ t. t ≡ record task { body = task.body ++ more ∷ [] }) }
{
    let mut task = task;
    match task.body.push(more) {
        Ok(()) => Ok(task),
        Err(error) => {
            drop(task);
            Err(error)
        }
    }
}

/// The tasks with one more line in the last one.
#[tactic(auto, using(crate::proofs::LastTask::onto_last_append))]
fn onto_last(tasks: Vec<Task>, more: Line) -> Result<Vec<Task>, AllocError>
    ensures value { IfOk result (λ ts. ts.items ≡ onto_last more tasks.items) }
    ensures few { IfOk result (λ ts. length ts.items ≡ length tasks.items) }
{
    let mut tasks = tasks;
    match tasks.pop() {
        Some(task) => {
            let task = with_more(task, more)?;
            tasks.push(task)?;
            Ok(tasks)
        }
        None => {
            drop(more);
            Ok(tasks)
        }
    }
}

/// The script with one more line in its last task.
fn with_line(script: Script, number: u32, call: Call) -> Result<Script, AllocError>
    ensures value { IfOk result (λ s. s ≡ with_line script number call) }
    ensures few { IfOk result (λ s. length s.tasks ≡ length script.tasks) }
{
    let Script { tasks, turns } = script;
    let tasks = onto_last(tasks.into_vec(), Line { number, call })?;
    Ok(Script {
        tasks: Tasks::from_vec(tasks),
        turns,
    })
}

/// The script with this body line, where its last task takes it.
#[tactic(auto, unfolding(crate::specs::Places::body_line))]
pub fn body_line(
    alloc: Global,
    script: Script,
    number: u32,
    first: &str,
    rest: Option<&str>,
) -> Result<Result<Script, ScriptKind>, AllocError>
    ensures value { IfOk result (λ r. r ≡ body_line script number first.now (seen rest.entry)) }
    ensures few { IfOk result (λ r. IfOk r (λ s. length s.tasks ≡ length script.tasks)) }
{
    let form = form_in(alloc, first, rest)?;
    let placed = is_open(&script) && takes(script.tasks.as_slice().last(), form.class);
    match both(only_if(placed, ScriptKind::Misplaced), form.call) {
        Ok(((), call)) => {
            let script = with_line(script, number, call)?;
            Ok(Ok(script))
        }
        Err(kind) => {
            drop(script);
            Ok(Err(kind))
        }
    }
}
