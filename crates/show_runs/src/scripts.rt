//! Scripts of tasks.

use conflicts::{Pick, Policy};
use ice_base::RefName;
use play_script::{Line, Script, ScriptFault, Task, Turn};
use repo_read::At;
use script_calls::{Access, Call, CellBox, EditCall, Head, ReadCall, RefCall};
use show_files::{NoAnswer, push_bytes, push_index};
use std::alloc::{AllocError, Global};
use zarr_path::{Index, Path};

/// Appends a call at a path.
fn push_path(told: &mut String, call: &str, path: &Path) -> Result<(), AllocError> {
    told.push_str(call)?;
    told.push_str(path.as_str())
}

/// Appends a call at a path that gives a text.
fn push_text(told: &mut String, call: &str, path: &Path, text: &str) -> Result<(), AllocError> {
    push_path(told, call, path)?;
    write!(told, " '{text}'")
}

/// Appends a call at a path that gives words.
fn push_words(told: &mut String, call: &str, path: &Path, text: &str) -> Result<(), AllocError> {
    push_path(told, call, path)?;
    told.push(' ')?;
    told.push_str(text)
}

/// Appends a call at a chunk.
fn push_at(told: &mut String, call: &str, path: &Path, index: &Index) -> Result<(), AllocError> {
    push_path(told, call, path)?;
    push_index(told, index)
}

/// Appends a set of a chunk.
fn push_set(told: &mut String, path: &Path, index: &Index, bytes: &[u8]) -> Result<(), AllocError> {
    push_at(told, "set ", path, index)?;
    push_bytes(told, bytes)
}

/// Appends a fill of a chunk.
fn push_fill(told: &mut String, path: &Path, index: &Index, byte: u8) -> Result<(), AllocError> {
    push_at(told, "fill ", path, index)?;
    write!(told, " with {byte}")
}

/// Appends a corner of a box.
fn push_corner(told: &mut String, corner: &str, numbers: &[u64]) -> Result<(), AllocError> {
    told.push_str(corner)?;
    for number in numbers {
        write!(told, " {number}")?;
    }
    Ok(())
}

/// Appends a call at a box.
fn push_box(told: &mut String, call: &str, place: &CellBox) -> Result<(), AllocError> {
    push_path(told, call, &place.path)?;
    push_corner(told, " from", place.from.as_slice())?;
    push_corner(told, " to", place.to.as_slice())
}

/// Appends a put of a box.
fn push_put(told: &mut String, place: &CellBox, numbers: &[i128]) -> Result<(), AllocError> {
    push_box(told, "put ", place)?;
    told.push_str(" numbers")?;
    for number in numbers {
        write!(told, " {number}")?;
    }
    Ok(())
}

/// Appends a call at a key.
fn push_key(told: &mut String, call: &str, key: &str) -> Result<(), AllocError> {
    told.push_str(call)?;
    told.push_str(key)
}

/// Appends a set of what a key stands for.
fn push_key_set(told: &mut String, key: &str, bytes: &[u8]) -> Result<(), AllocError> {
    push_key(told, "key ", key)?;
    push_bytes(told, bytes)
}

/// Appends a change of the tree.
fn push_edit(told: &mut String, edit: &EditCall) -> Result<(), AllocError> {
    match edit {
        EditCall::Group { path } => push_path(told, "group ", path),
        EditCall::Array { path, text } => push_words(told, "array ", path, text.as_str()),
        EditCall::Make { path, text } => push_text(told, "make ", path, text.as_str()),
        EditCall::Meta { path, text } => push_text(told, "meta ", path, text.as_str()),
        EditCall::Drop { path } => push_path(told, "drop ", path),
        EditCall::Set { path, index, bytes } => push_set(told, path, index, bytes.as_slice()),
        EditCall::Fill { path, index, byte } => push_fill(told, path, index, *byte),
        EditCall::Unset { path, index } => push_at(told, "unset ", path, index),
        EditCall::Put { place, numbers } => push_put(told, place, numbers.as_slice()),
        EditCall::KeySet { key, bytes } => push_key_set(told, key.as_str(), bytes.as_slice()),
        EditCall::KeyErase { key } => push_key(told, "no key ", key.as_str()),
    }
}

/// Appends a look at the tree.
fn push_read(told: &mut String, read: &ReadCall) -> Result<(), AllocError> {
    match read {
        ReadCall::List { path } => push_path(told, "list ", path),
        ReadCall::Get { path } => push_path(told, "get ", path),
        ReadCall::Chunk { path, index } => push_at(told, "chunk ", path, index),
        ReadCall::Cells { place } => push_box(told, "cells ", place),
        ReadCall::KeyGet { key } => push_key(told, "key ", key.as_str()),
    }
}

/// Appends a call on a ref.
fn push_name(told: &mut String, call: &str, name: &RefName) -> Result<(), AllocError> {
    told.push_str(call)?;
    told.push_str(name.as_str())
}

/// Appends what names a snapshot.
fn push_named(told: &mut String, at: &At) -> Result<(), AllocError> {
    match at {
        At::Branch(name) => push_name(told, "branch ", name),
        At::Tag(name) => push_name(told, "tag ", name),
        At::Snapshot(id) => write!(told, "id {id}"),
    }
}

/// Appends a call that lets a ref name a snapshot.
fn push_ref_at(told: &mut String, call: &str, name: &RefName, at: &At) -> Result<(), AllocError> {
    push_name(told, call, name)?;
    told.push_str(" at ")?;
    push_named(told, at)
}

/// Appends what a log is of.
fn push_log(told: &mut String, at: &At) -> Result<(), AllocError> {
    told.push_str("log of ")?;
    push_named(told, at)
}

/// Appends a call on refs.
fn push_ref(told: &mut String, call: &RefCall) -> Result<(), AllocError> {
    match call {
        RefCall::Branch { name, at } => push_ref_at(told, "branch ", name, at),
        RefCall::Reset { name, at } => push_ref_at(told, "reset ", name, at),
        RefCall::Unbranch { name } => push_name(told, "no branch ", name),
        RefCall::Tag { name, at } => push_ref_at(told, "tag ", name, at),
        RefCall::Untag { name } => push_name(told, "no tag ", name),
        RefCall::Log { at } => push_log(told, at),
    }
}

/// Appends a commit.
fn push_commit(told: &mut String, message: &str) -> Result<(), AllocError> {
    write!(told, "commit '{message}'")
}

/// Appends a property of the commit.
fn push_prop(told: &mut String, name: &str, value: &str) -> Result<(), AllocError> {
    write!(told, "prop {name} '{value}'")
}

/// Appends what a line calls.
fn push_call(told: &mut String, call: &Call) -> Result<(), AllocError> {
    match call {
        Call::Edit(edit) => push_edit(told, edit),
        Call::Read(read) => push_read(told, read),
        Call::Commit { message } => push_commit(told, message.as_str()),
        Call::Ref(call) => push_ref(told, call),
        Call::Prop { name, value } => push_prop(told, name.as_str(), value.as_str()),
        Call::Lease => told.push_str("lease"),
    }
}

/// Appends the lines of a task.
fn push_lines(told: &mut String, lines: &[Line]) -> Result<(), AllocError> {
    for line in lines {
        write!(told, "\n    {} ", line.number)?;
        push_call(told, &line.call)?;
    }
    Ok(())
}

/// What becomes of chunks that both sides wrote.
fn pick_told(pick: Pick) -> &'static str {
    match pick {
        Pick::Fail => "fail",
        Pick::Ours => "ours",
        Pick::Theirs => "theirs",
    }
}

/// Appends how conflicts are solved, and which drops pass.
fn push_policy(told: &mut String, policy: &Policy) -> Result<(), AllocError> {
    told.push_str(pick_told(policy.chunks))?;
    if policy.drop_arrays {
        told.push_str(" arrays")?;
    }
    if policy.drop_groups {
        told.push_str(" groups")?;
    }
    Ok(())
}

/// Appends the branch that a task writes on, and how often it tries again.
fn push_writes(
    told: &mut String,
    branch: &RefName,
    tries: u8,
    policy: &Policy,
) -> Result<(), AllocError> {
    write!(told, "writes {branch} {tries} ")?;
    push_policy(told, policy)
}

/// Appends what a task reads at.
fn push_reads(told: &mut String, at: &At) -> Result<(), AllocError> {
    told.push_str("reads ")?;
    push_named(told, at)
}

/// Appends what a task opens a session for.
fn push_access(told: &mut String, access: &Access) -> Result<(), AllocError> {
    match access {
        Access::Write {
            branch,
            tries,
            policy,
        } => push_writes(told, branch, *tries, policy),
        Access::Read { at } => push_reads(told, at),
    }
}

/// Appends before when a task expires, and which refs it drops.
fn push_expires(
    told: &mut String,
    cutoff: u64,
    drop_branches: bool,
    drop_tags: bool,
) -> Result<(), AllocError> {
    write!(told, "expires before {cutoff}")?;
    if drop_branches {
        told.push_str(" branches")?;
    }
    if drop_tags {
        told.push_str(" tags")?;
    }
    Ok(())
}

/// Appends what a task does.
fn push_head(told: &mut String, head: &Head) -> Result<(), AllocError> {
    match head {
        Head::Session(access) => push_access(told, access),
        Head::Refs => told.push_str("refs"),
        Head::Collect { cutoff } => write!(told, "collects before {cutoff}"),
        Head::Expire {
            cutoff,
            drop_branches,
            drop_tags,
        } => push_expires(told, *cutoff, *drop_branches, *drop_tags),
        Head::Check => told.push_str("checks"),
    }
}

/// Appends tasks.
fn push_tasks(told: &mut String, tasks: &[Task]) -> Result<(), AllocError> {
    for task in tasks {
        write!(told, "\n  {} {} ", task.line, task.name.as_str())?;
        push_head(told, &task.head)?;
        push_lines(told, task.body.as_slice())?;
    }
    Ok(())
}

/// Appends turns.
fn push_turns(told: &mut String, turns: &[Turn]) -> Result<(), AllocError> {
    told.push_str("\n  turns")?;
    for turn in turns {
        let (client, count) = (turn.client, turn.count);
        write!(told, " {client}*{count}")?;
    }
    Ok(())
}

/// What a script says.
fn script_text(alloc: Global, script: &Script) -> Result<String, AllocError> {
    let tasks = script.tasks.as_slice();
    let mut told = format!(in alloc; "{} tasks", tasks.len())?;
    push_tasks(&mut told, tasks)?;
    if let Some(turns) = &script.turns {
        push_turns(&mut told, turns.as_slice())?;
    }
    Ok(told)
}

/// What a script says; it is let go.
fn script_told(alloc: Global, script: Script) -> Result<String, NoAnswer> {
    let told = script_text(alloc, &script);
    drop(script);
    Ok(told?)
}

/// What a text of tasks and turns says.
pub fn tell_script(alloc: Global, text: &[u8]) -> Result<String, NoAnswer> {
    match Script::read(alloc, text) {
        Ok(script) => script_told(alloc, script),
        Err(ScriptFault::At { line, kind }) => Ok(format!(in alloc; "line {line}: {kind}")?),
        Err(ScriptFault::NoMemory) => Err(NoAnswer::NoMemory),
    }
}
