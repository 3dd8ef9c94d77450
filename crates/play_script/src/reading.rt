//! Whole scripts, line by line.

ghost use Rattle.std.specs.Prelude.{◌≡◌, ◌≤◌, ◌<◌, ◌+◌, Err, IfOk, MatchOption, length, false, true, take};
ghost use Rattle.std.specs.Str.{is_utf8};
ghost use Rattle.script_values.specs.Words.{seen, lines_of};
ghost use Rattle.play_script.specs.Places.{most_tasks, words_line, line_at};
ghost use Rattle.play_script.specs.Reading.{most_bytes, feeds, lines_from, empty, script_of, IsReading};
ghost use Rattle.play_script.specs.SoFar.{task_names};
ghost use Rattle.play_script.specs.Well.{IsWell};

use crate::bodies::body_line;
use crate::faults::ScriptFault;
use crate::heads::{head_line, is_passed};
use crate::names::Names;
use crate::scripts::{Script, Tasks};
use crate::turning::turns_line;
use script_values::ScriptKind;
use script_values::words::{cut, cut_line};
use std::alloc::{AllocError, Global};

/// How many bytes a script may have; who reads one needs the next byte too, to see that it is too long.
pub const MOST_BYTES: usize = 1_048_576;

/// The script with a line whose first word and rest are these.
#[tactic(auto, unfolding(crate::specs::Places::words_line), using(crate::proofs::Naming::body_names))]
fn words_line(
    alloc: Global,
    script: Script,
    names: &mut Names,
    number: u32,
    after: &[u8],
    first: &str,
    rest: Option<&str>,
) -> Result<Result<Script, ScriptKind>, AllocError>
    requires few { length script.tasks ≤ most_tasks }
    requires named { names.old ≡ task_names script.tasks }
    ensures value { IfOk result (λ r. r ≡ words_line script number (lines_of after.now) first.now
        (seen rest.entry)) }
    ensures few { IfOk result (λ r. IfOk r (λ s. length s.tasks ≤ most_tasks)) }
    ensures named { IfOk result (λ r. IfOk r (λ s. names.new ≡ task_names s.tasks)) }
{
    if first == "task" {
        return head_line(alloc, script, names, number, after, rest);
    }
    if first == "turns" {
        return turns_line(alloc, script, rest);
    }
    body_line(alloc, script, number, first, rest)
}

/// The line as text.
#[tactic(auto, using(script_values::proofs::Utf8::not_text, script_values::proofs::Utf8::is_text))]
fn text_of(line: &[u8]) -> Option<&str>
    ensures { MatchOption result (is_utf8 line.now ≡ false) (λ t. (is_utf8 line.now ≡ true)
        × (t.now ≡ line.now)) }
{
    match str::from_utf8(line) {
        Ok(text) => Some(text),
        Err(_) => None,
    }
}

/// The script with one more line.
#[tactic(auto, unfolding(crate::specs::Places::line_at))]
fn line_at(
    alloc: Global,
    script: Script,
    names: &mut Names,
    number: u32,
    after: &[u8],
    line: &[u8],
) -> Result<Result<Script, ScriptKind>, AllocError>
    requires few { length script.tasks ≤ most_tasks }
    requires named { names.old ≡ task_names script.tasks }
    ensures value { IfOk result (λ r. r ≡ line_at script number (lines_of after.now) line.now) }
    ensures few { IfOk result (λ r. IfOk r (λ s. length s.tasks ≤ most_tasks)) }
    ensures named { IfOk result (λ r. IfOk r (λ s. names.new ≡ task_names s.tasks)) }
{
    let Some(text) = text_of(line) else {
        return Ok(Err(ScriptKind::Text));
    };
    if is_passed(line) {
        return Ok(Ok(script));
    }
    let (first, rest) = cut(text, ' ');
    words_line(alloc, script, names, number, after, first, rest)
}

fn feeds(text: &[u8]) -> u32
    requires { length text.now ≤ most_bytes }
    ensures count { result ≡ feeds text.now }
    ensures within { result ≤ length text.now }
{
    text.iter().filter(|byte| **byte == b'\n').count() as u32
}

/// The line of the first byte too many.
fn long_line(text: &[u8]) -> u32
    requires { most_bytes < length text.now }
    ensures { result ≡ feeds (take most_bytes text.now) + 1 }
{
    let (front, _) = text.split_at(MOST_BYTES);
    feeds(front) + 1
}

fn lines_in(alloc: Global, text: &[u8]) -> Result<Script, ScriptFault>
    requires { length text.now ≤ most_bytes }
    ensures { IsReading (lines_from empty 1 (lines_of text.now)) result }
{
    let mut script = Script {
        tasks: Tasks::from_vec(Vec::new(alloc)),
        turns: None,
    };
    let mut names = Names::new(alloc);
    let mut number = 1;
    let mut left = text;
    while !left.is_empty() {
        let (line, after) = cut_line(left);
        script = match line_at(alloc, script, &mut names, number, after, line)? {
            Ok(script) => script,
            Err(kind) => return Err(ScriptFault::At { line: number, kind }),
        };
        left = after;
        number += 1;
    }
    Ok(script)
}

impl Script {
    /// Reads a text as a script. It is refused at its first line that isn't of the grammar, isn't at its place, or isn't
    /// built so far; of what is wrong with that line the first kind in the order of `ScriptKind` is told. A text of too
    /// many bytes is refused before all that, at the line of the first byte too many. A script that was read is well, as
    /// the workers above take it to be.
    #[tactic(auto, unfolding(crate::specs::Reading::script_of))]
    pub fn read(alloc: Global, text: &[u8]) -> Result<Script, ScriptFault>
        ensures reads { IsReading (script_of text.now) result }
        ensures long { most_bytes < length text.now
            → result
            ≡ Err (ScriptFault.At (feeds (take most_bytes text.now) + 1) ScriptKind.Long) }
        ensures well { IfOk result IsWell }
    {
        if text.len() > MOST_BYTES {
            return Err(ScriptFault::At {
                line: long_line(text),
                kind: ScriptKind::Long,
            });
        }
        lines_in(alloc, text)
    }
}
