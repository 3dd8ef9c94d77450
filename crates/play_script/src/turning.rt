//! The line of turns.

ghost use Rattle.std.specs.Prelude.{◌≡◌, ◌≤◌, IfOk, length};
ghost use Rattle.script_values.specs.Words.{seen, pieces};
ghost use Rattle.script_values.specs.Parts.{each};
ghost use Rattle.play_script.specs.Places.{most_tasks, client_from, turn_of, turns_line};
ghost use Rattle.script_values.specs.SoFar.{parts_seen};

use crate::bodies::is_open;
use crate::scripts::{Script, Task, Turn, Turns};
use script_values::ScriptKind;
use script_values::parts::{both, only_if, with_part};
use script_values::values::count_in;
use script_values::words::cut;
use std::alloc::{AllocError, Global};

/// The number of the task of this name, from 1.
fn client_of(tasks: &[Task], name: &str) -> Result<u32, ScriptKind>
    requires { length tasks.now ≤ most_tasks }
    ensures { result ≡ client_from 1 tasks.now name.now }
{
    let mut client = 1;
    for task in tasks {
        if task.name.as_str() == name {
            return Ok(client);
        }
        client += 1;
    }
    Err(ScriptKind::Turn)
}

/// The turn that a word stands for.
#[tactic(auto, unfolding(crate::specs::Places::turn_of))]
fn turn_in(tasks: &[Task], word: &str) -> Result<Turn, ScriptKind>
    requires { length tasks.now ≤ most_tasks }
    ensures { result ≡ turn_of tasks.now word.now }
{
    if word.is_empty() {
        return Err(ScriptKind::Word);
    }
    let (name, count) = cut(word, '*');
    match both(client_of(tasks, name), count_in(count)) {
        Ok((client, count)) => Ok(Turn { client, count }),
        Err(kind) => Err(kind),
    }
}

/// All turns, or the earliest fault of their words.
fn turns_in(
    alloc: Global,
    tasks: &[Task],
    rest: Option<&str>,
) -> Result<Result<Vec<Turn>, ScriptKind>, AllocError>
    requires { length tasks.now ≤ most_tasks }
    ensures { IfOk result
        (λ r. parts_seen r ≡ each (turn_of tasks.now) (pieces 32 (seen rest.entry))) }
{
    let mut turns = Ok(Vec::new(alloc));
    let mut left = rest;
    while let Some(rest) = left {
        let (word, after) = cut(rest, ' ');
        turns = with_part(turns, turn_in(tasks, word))?;
        left = after;
    }
    Ok(turns)
}

/// The script with these turns.
#[tactic(auto, unfolding(crate::specs::Places::turns_line))]
pub fn turns_line(
    alloc: Global,
    script: Script,
    rest: Option<&str>,
) -> Result<Result<Script, ScriptKind>, AllocError>
    requires { length script.tasks ≤ most_tasks }
    ensures value { IfOk result (λ r. r ≡ turns_line script (seen rest.entry)) }
    ensures few { IfOk result (λ r. IfOk r (λ s. s.tasks ≡ script.tasks)) }
{
    let placed = only_if(is_open(&script), ScriptKind::Misplaced);
    let turns = turns_in(alloc, script.tasks.as_slice(), rest)?;
    let Script { tasks, turns: _ } = script;
    match both(placed, turns) {
        Ok(((), turns)) => Ok(Ok(Script {
            tasks,
            turns: Some(Turns::from_vec(turns)),
        })),
        Err(kind) => Ok(Err(kind)),
    }
}
