//! What a script says.

use ice_items::Items;
use script_calls::{Call, Head};
use script_values::TaskName;

/// A body line.
#[derive(Drop)]
pub struct Line {
    /// Its number in the script, from 1.
    pub number: u32,
    /// What it calls.
    pub call: Call,
}

/// The body lines of a task, in their order.
pub type Lines = Items<Line>;

/// What one client does.
#[derive(Drop)]
pub struct Task {
    /// Its name, which no other task of the script has.
    pub name: TaskName,
    /// The number of its head's line in the script, from 1.
    pub line: u32,
    /// How it begins.
    pub head: Head,
    /// Its body lines.
    pub body: Lines,
}

/// The tasks of a script, in their order: the client of the task at place k, from 0, has the number k + 1.
pub type Tasks = Items<Task>;

/// Some steps of one client, one after another.
#[derive(Clone, Copy, Debug, PartialEq, Eq)]
pub struct Turn {
    /// The client: its task's number in the script, from 1.
    pub client: u32,
    /// How many steps, from 1 to 9,999.
    pub count: u32,
}

/// Turns, in their order.
pub type Turns = Items<Turn>;

/// Tasks, and the turns that they take where the script names them.
#[derive(Drop)]
pub struct Script {
    /// The tasks.
    pub tasks: Tasks,
    /// The turns: none where the script has no `turns` line, and an empty list where that line is bare.
    pub turns: Option<Turns>,
}
