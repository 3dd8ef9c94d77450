//! The lines of the script.

ghost use Rattle.std.specs.Prelude.{◌≡◌, ◌<◌, ◌≤◌, ◌*◌, ◌^◌, ◌++◌, IfOk, OnOk, string_bytes};
ghost use Rattle.grow_script.specs.Draws.{after};
ghost use Rattle.grow_script.specs.Script.{fill_line, fill_lines, fill_text, hex_pair, grow_task, grow_tasks, drawn_turns, script_text};

use crate::draws::Draws;
use std::alloc::{AllocError, Global};
use std::fmt::Write;

/// How many chunks a task fills.
const FILLS: u64 = 50;

const BASE_TASK: &str =
    "task t0 write main 0 fail\ngroup /\narray /x int32 512,512 8,8 0\ncommit base\n";

/// Appends a byte as two digits.
fn push_byte(text: &mut String, byte: u64) -> Result<(), AllocError>
    requires { byte < 256 }
    ensures { OnOk result (string_bytes text.new ≡ string_bytes text.old ++ hex_pair byte) }
{
    write!(text, "{byte:02x}")
}

fn push_chunk(text: &mut String, row: u64, column: u64, byte: u64) -> Result<(), AllocError>
    requires { byte < 256 }
    ensures { OnOk result (string_bytes text.new ≡ string_bytes text.old ++ fill_text row column
        byte) }
{
    write!(text, "fill /x {row},{column} ")?;
    push_byte(text, byte)?;
    text.push_str("\n")
}

fn push_fill(text: &mut String, draws: &mut Draws) -> Result<(), AllocError>
    ensures text { OnOk result (string_bytes text.new ≡ string_bytes text.old ++ fill_line
        draws.old.state) }
    ensures state { draws.new.state ≡ after 3 draws.old.state }
{
    let row = draws.below(64);
    let column = draws.below(64);
    let byte = draws.below(256);
    push_chunk(text, row, column, byte)
}

fn push_fills(text: &mut String, draws: &mut Draws) -> Result<(), AllocError>
    ensures text { OnOk result (string_bytes text.new ≡ string_bytes text.old ++ fill_lines 50
        draws.old.state) }
    ensures state { OnOk result (draws.new.state ≡ after 150 draws.old.state) }
{
    for _ in 0..FILLS {
        push_fill(text, draws)?;
    }
    Ok(())
}

fn push_task(text: &mut String, draws: &mut Draws, number: u64) -> Result<(), AllocError>
    ensures text { OnOk result (string_bytes text.new ≡ string_bytes text.old ++ grow_task number
        draws.old.state) }
    ensures state { OnOk result (draws.new.state ≡ after 150 draws.old.state) }
{
    write!(text, "task t{number} write main 9 ours\n")?;
    push_fills(text, draws)?;
    write!(text, "commit t{number}\n")
}

fn push_tasks(text: &mut String, draws: &mut Draws, count: u64) -> Result<(), AllocError>
    requires { count < 2 ^ 32 }
    ensures text { OnOk result (string_bytes text.new ≡ string_bytes text.old ++ grow_tasks count
        draws.old.state) }
    ensures state { OnOk result (draws.new.state ≡ after (150 * count) draws.old.state) }
{
    for before in 0..count {
        push_task(text, draws, before + 1)?;
    }
    Ok(())
}

fn push_turns(text: &mut String, draws: &mut Draws, tasks: u64) -> Result<(), AllocError>
    requires { (0 < tasks) × (tasks < 2 ^ 32) }
    ensures { OnOk result (string_bytes text.new ≡ string_bytes text.old ++ drawn_turns tasks
        (20 * tasks) draws.old.state) }
{
    for _ in 0..20 * tasks {
        let task = 1 + draws.below(tasks);
        write!(text, " t{task}")?;
    }
    Ok(())
}

/// The script of `grow N`, for an N from 1 on: a base task that lays out an array, then N tasks, each
/// of which fills 50 of its chunks, and a line of turns. All places, bytes and turns are drawn from N.
pub fn grown_script(alloc: Global, tasks: u8) -> Result<String, AllocError>
    requires { 1 ≤ tasks }
    ensures { IfOk result (λ text. string_bytes text ≡ script_text tasks) }
{
    let tasks = u64::from(tasks);
    let mut text = String::from_str(alloc, BASE_TASK)?;
    let mut draws = Draws { state: tasks };
    push_tasks(&mut text, &mut draws, tasks)?;
    text.push_str("turns t0*5")?;
    push_turns(&mut text, &mut draws, tasks)?;
    text.push_str("\n")?;
    Ok(text)
}
