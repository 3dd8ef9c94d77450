//! The lines of a task's body, played on its session.

ghost use Rattle.std.specs.Prelude.{ℕ, ◌≡◌, ◌≤◌, ◌+◌, ◌-◌, ◌*◌, ◌++◌, true, length, map, IfOk, OnErr};
ghost use Rattle.store_api.specs.Plays.{Comes};
ghost use Rattle.session.specs.Editing.{listed, prop_added, text_at};
ghost use Rattle.play_tasks.specs.Lines.{node_shown, nodes_shown, meta_shown, deed, edit_deed, read_deed, Goes, Commits, edits_to, silent, still, read_by};
ghost use Rattle.play_tasks.specs.inside.Working.{is_clean, is_well, is_local, without_id, working_rest, working_left, most_steps, lines_from, Edits, Looks, LineComes, CallComes, IsBounded};

use crate::boxes::{play_cells, play_put};
use crate::chunks::{play_fill, play_get, play_key_get, play_key_set, play_set, show};
use crate::commits::{begin_commit, tries_for};
use crate::leasing::play_lease;
use crate::working::{SessionTask, Step, Working};
use ice_base::Text;
use ice_ids::Id8;
use play_outcome::{End, Outcome, Shown, Shows};
use play_script::Line;
use script_calls::{Access, Call, EditCall, ReadCall};
use session::{Listing, Session};
use std::alloc::{AllocError, Global};
use store_api::Refusal;
use zarr_keys::key_erase;
use zarr_path::Path;

/// The shortest metadata of a group.
const GROUP_TEXT: &[u8] = br#"{"zarr_format":3,"node_type":"group"}"#;

/// The task was refused at this line of the script.
pub(crate) fn refuse(line: u32, shown: Vec<Shown>, why: Refusal) -> Working
    ensures { result ≡ Working.Ended (record { shown = shown.items; end = End.Refused line why }) }
{
    Working::Ended {
        outcome: Outcome {
            shown: Shows::from_vec(shown),
            end: End::Refused { line, why },
        },
    }
}

/// Shows the nodes of a listing that this line of the script asked for.
fn show_nodes(line: u32, nodes: Vec<Listing>, shown: &mut Vec<Shown>) -> Result<(), AllocError>
    ensures ok { IfOk result (λ done. shown.new.items ≡ shown.old.items ++ map (node_shown line)
        nodes.items) }
    ensures err { OnErr result (shown.new.items ≡ shown.old.items) }
{
    let before = shown.len();
    for node in nodes {
        let Listing { path, array } = node;
        if show(Shown::Node { line, array, path }, shown).is_err() {
            shown.truncate(before);
            return Err(AllocError);
        }
    }
    Ok(())
}

/// Shows the nodes beneath a path.
fn show_list(
    line: u32,
    session: &Session,
    path: &Path,
    shown: &mut Vec<Shown>,
) -> Result<(), Refusal>
    ensures looks { Looks (nodes_shown line (listed session.now path.now)) shown.old.items result
        shown.new.items }
    ensures local { is_local result ≡ true }
{
    let nodes = session.list_beneath(path)?;
    match show_nodes(line, nodes.into_vec(), shown) {
        Ok(()) => Ok(()),
        Err(_) => Err(Refusal::NoMemory),
    }
}

/// Shows the metadata of the node at a path.
fn show_meta(
    alloc: Global,
    line: u32,
    session: &Session,
    path: &Path,
    shown: &mut Vec<Shown>,
) -> Result<(), Refusal>
    ensures looks { Looks (meta_shown line (text_at session.now path.now)) shown.old.items result
        shown.new.items }
    ensures local { is_local result ≡ true }
{
    let meta = session.get_meta(path)?;
    let Ok(text) = meta.text.copy(alloc) else {
        return Err(Refusal::NoMemory);
    };
    match show(Shown::Meta { line, text }, shown) {
        Ok(()) => Ok(()),
        Err(_) => Err(Refusal::NoMemory),
    }
}

/// What an edit that adds a node came to, without the node's id.
fn without_id(added: Result<Id8, Refusal>) -> Result<(), Refusal>
    ensures { result ≡ without_id added }
{
    match added {
        Ok(_) => Ok(()),
        Err(why) => Err(why),
    }
}

/// Makes an edit that needs no operation.
fn edit_session(alloc: Global, edit: &EditCall, session: &mut Session) -> Result<(), Refusal>
    ensures edits { Edits (edits_to edit.now session.old) result session.new }
    ensures local { is_local result ≡ true }
{
    match edit {
        EditCall::Group { path } => without_id(session.add_group(path, GROUP_TEXT)),
        EditCall::Array { path, text } => {
            without_id(session.add_array(path, text.as_str().as_bytes()))
        }
        EditCall::Make { path, text } => {
            without_id(session.add_node(path, text.as_str().as_bytes()))
        }
        EditCall::Meta { path, text } => session.set_meta(path, text.as_str().as_bytes()),
        EditCall::Drop { path } => session.drop_node(path),
        EditCall::Unset { path, index } => session.unset_chunk(path, index),
        EditCall::KeyErase { key } => key_erase(alloc, session, key.as_str()),
        EditCall::Set { .. }
        | EditCall::Fill { .. }
        | EditCall::Put { .. }
        | EditCall::KeySet { .. } => Ok(()),
    }
}

fn play_change(
    alloc: Global,
    line: u32,
    edit: &EditCall,
    mut session: Session,
    shown: Vec<Shown>,
) -> Step
    ensures comes { (at : ℕ)
        → CallComes line at shown.items session (Goes (silent (edits_to edit.now session))) result }
    ensures clean { is_clean result ≡ true }
    ensures bounded { (at : ℕ) → IsBounded at result }
{
    match edit_session(alloc, edit, &mut session) {
        Ok(()) => Step::On { session, shown },
        Err(why) => {
            drop(session);
            Step::Stop(refuse(line, shown, why))
        }
    }
}

fn play_edit(
    alloc: Global,
    line: u32,
    at: usize,
    edit: &EditCall,
    session: Session,
    shown: Vec<Shown>,
) -> Step
    ensures comes { CallComes line at shown.items session (edit_deed edit.now session) result }
    ensures clean { is_clean result ≡ true }
    ensures bounded { IsBounded at result }
{
    match edit {
        EditCall::Set { path, index, bytes } => {
            play_set(line, at, path, index, bytes.as_slice(), session, shown)
        }
        EditCall::Fill { path, index, byte } => {
            play_fill(line, at, path, index, *byte, session, shown)
        }
        EditCall::Put { place, numbers } => {
            play_put(alloc, line, at, place, numbers, session, shown)
        }
        EditCall::KeySet { key, bytes } => {
            play_key_set(alloc, line, at, key, bytes.as_slice(), session, shown)
        }
        EditCall::Group { .. }
        | EditCall::Array { .. }
        | EditCall::Make { .. }
        | EditCall::Meta { .. }
        | EditCall::Drop { .. }
        | EditCall::Unset { .. }
        | EditCall::KeyErase { .. } => play_change(alloc, line, edit, session, shown),
    }
}

/// Shows what a read shows that needs no operation.
fn look(
    alloc: Global,
    line: u32,
    read: &ReadCall,
    session: &Session,
    shown: &mut Vec<Shown>,
) -> Result<(), Refusal>
    ensures looks { Looks (read_by line read.now session.now) shown.old.items result
        shown.new.items }
    ensures local { is_local result ≡ true }
{
    match read {
        ReadCall::List { path } => show_list(line, session, path, shown),
        ReadCall::Get { path } => show_meta(alloc, line, session, path, shown),
        ReadCall::Chunk { .. } | ReadCall::Cells { .. } | ReadCall::KeyGet { .. } => Ok(()),
    }
}

fn play_look(
    alloc: Global,
    line: u32,
    read: &ReadCall,
    session: Session,
    mut shown: Vec<Shown>,
) -> Step
    ensures comes { (at : ℕ)
        → CallComes line at shown.items session
        (Goes (still session (read_by line read.now session))) result }
    ensures clean { is_clean result ≡ true }
    ensures bounded { (at : ℕ) → IsBounded at result }
{
    match look(alloc, line, read, &session, &mut shown) {
        Ok(()) => Step::On { session, shown },
        Err(why) => {
            drop(session);
            Step::Stop(refuse(line, shown, why))
        }
    }
}

fn play_read(
    alloc: Global,
    line: u32,
    at: usize,
    read: &ReadCall,
    session: Session,
    shown: Vec<Shown>,
) -> Step
    ensures comes { CallComes line at shown.items session (read_deed line read.now session) result }
    ensures clean { is_clean result ≡ true }
    ensures bounded { IsBounded at result }
{
    match read {
        ReadCall::Chunk { path, index } => play_get(line, at, path, index, session, shown),
        ReadCall::Cells { place } => play_cells(alloc, line, at, place, session, shown),
        ReadCall::KeyGet { key } => play_key_get(alloc, line, at, key, session, shown),
        ReadCall::List { .. } | ReadCall::Get { .. } => play_look(
            alloc, line, read, session, shown,
        ),
    }
}

fn play_commit(
    alloc: Global,
    access: &Access,
    line: u32,
    message: &Text,
    session: Session,
    shown: Vec<Shown>,
) -> Step
    ensures comes { (at : ℕ) → LineComes access.now line at shown.items session
        (Commits message.now) result }
    ensures clean { is_clean result ≡ true }
    ensures bounded { (at : ℕ) → IsBounded at result }
{
    let Ok(message) = message.copy(alloc) else {
        drop(session);
        return Step::Stop(refuse(line, shown, Refusal::NoMemory));
    };
    let tries = tries_for(access);
    let shown = Shows::from_vec(shown);
    Step::Stop(begin_commit(alloc, line, tries, shown, message, session))
}

/// Adds a property to the snapshot that the session commits.
fn add_prop(name: &Text, value: &Text, session: &mut Session) -> Result<(), Refusal>
    ensures edits { Edits (prop_added session.old name.now value.now) result session.new }
    ensures local { is_local result ≡ true }
{
    session.add_prop(name.as_str(), value.as_str())
}

fn play_prop(line: u32, name: &Text, value: &Text, mut session: Session, shown: Vec<Shown>) -> Step
    ensures comes { (at : ℕ)
        → CallComes line at shown.items session
        (Goes (silent (prop_added session name.now value.now))) result }
    ensures clean { is_clean result ≡ true }
    ensures bounded { (at : ℕ) → IsBounded at result }
{
    match add_prop(name, value, &mut session) {
        Ok(()) => Step::On { session, shown },
        Err(why) => {
            drop(session);
            Step::Stop(refuse(line, shown, why))
        }
    }
}

/// Plays a line on a session that was opened so; the line behind it has the number `at`.
fn play_line(
    alloc: Global,
    access: &Access,
    line: &Line,
    at: usize,
    session: Session,
    shown: Vec<Shown>,
) -> Step
    ensures comes { LineComes access.now line.now.number at shown.items session
        (deed line.now.number line.now.call session) result }
    ensures clean { is_clean result ≡ true }
    ensures bounded { IsBounded at result }
{
    match &line.call {
        Call::Edit(edit) => play_edit(alloc, line.number, at, edit, session, shown),
        Call::Read(read) => play_read(alloc, line.number, at, read, session, shown),
        Call::Commit { message } => play_commit(
            alloc,
            access,
            line.number,
            message,
            session,
            shown,
        ),
        Call::Ref(_) => Step::On { session, shown },
        Call::Prop { name, value } => play_prop(line.number, name, value, session, shown),
        Call::Lease => play_lease(alloc, line.number, at, session, shown),
    }
}

/// Plays the lines of a task from a number on, on a session and with these lines shown: up to a machine, or to the first
/// that is refused, or to the first for which there is no memory.
pub(crate) fn play_lines(
    alloc: Global,
    task: &SessionTask<'_>,
    from: usize,
    session: Session,
    shown: Vec<Shown>,
) -> Working
    ensures leaves { Comes (lines_from task.now from session shown.items)
        (working_rest task.now result) }
    ensures clean { is_well result ≡ true }
    ensures bounded { working_left (length task.now.body.now) result
        ≤ (length task.now.body.now - from) * most_steps }
{
    let mut session = session;
    let mut shown = shown;
    for at in from..task.body.len() {
        match play_line(alloc, task.access, &task.body[at], at + 1, session, shown) {
            Step::On {
                session: next,
                shown: more,
            } => {
                session = next;
                shown = more;
            }
            Step::Stop(working) => return working,
        }
    }
    drop(session);
    Working::Ended {
        outcome: Outcome {
            shown: Shows::from_vec(shown),
            end: End::Done,
        },
    }
}
