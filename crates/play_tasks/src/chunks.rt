//! The lines of a task that set and read chunks, by their places and by their keys.

ghost use Rattle.std.specs.Prelude.{◌≡◌, ◌++◌, ◌∷◌, [], true, OnOk, OnErr};
ghost use Rattle.zarr_path.specs.Keys.{key_of};
ghost use Rattle.store_api.specs.Plays.{call};
ghost use Rattle.store_api.specs.Running.{Program};
ghost use Rattle.session.specs.Sessions.{SessionState};
ghost use Rattle.session.specs.Chunks.{filled};
ghost use Rattle.session.specs.Setting.{SetBegun};
ghost use Rattle.play_tasks.specs.Lines.{value_shown, key_shown, key_set_deed, key_get_deed, Sets, Reads};
ghost use Rattle.play_tasks.specs.inside.Working.{after_set, shown_for, is_clean, PlayComes, CallComes, IsBounded, EndsCalmly};

use crate::lines::refuse;
use crate::working::{AskedFor, Step, Working};
use ice_base::Text;
use play_outcome::Shown;
use session::{Getting, Session, Setting, Value};
use std::alloc::{AllocError, Global};
use store_api::Refusal;
use zarr_keys::{KeyGetting, KeyValue, key_answer, key_get, key_set};
use zarr_path::{Index, Path};

/// What follows a call that sets a chunk or a key: it was done, or a machine has it to do, or it was refused.
fn after_call(
    line: u32,
    at: usize,
    came: Result<Setting, (Session, Refusal)>,
    shown: Vec<Shown>,
) -> Step
    ensures comes { (s : SessionState) (p : Program SessionState) → SetBegun p s came
        → PlayComes line at shown.items (λ rest. call p (after_set line shown.items rest)) result }
    ensures clean { (s : SessionState) (p : Program SessionState) → SetBegun p s came → EndsCalmly p
        → is_clean result ≡ true }
    ensures bounded { IsBounded at result }
{
    match came {
        Ok(Setting::Ready(session)) => Step::On { session, shown },
        Ok(Setting::Again(set)) => Step::Stop(Working::Setting {
            line,
            at,
            shown,
            set,
        }),
        Err((session, why)) => {
            drop(session);
            Step::Stop(refuse(line, shown, why))
        }
    }
}

/// Sets a chunk.
pub(crate) fn play_set(
    line: u32,
    at: usize,
    path: &Path,
    index: &Index,
    bytes: &[u8],
    session: Session,
    shown: Vec<Shown>,
) -> Step
    ensures comes { CallComes line at shown.items session (Sets path.now index.now bytes.now)
        result }
    ensures clean { is_clean result ≡ true }
    ensures bounded { IsBounded at result }
{
    after_call(line, at, session.set_chunk(path, index, bytes), shown)
}

/// Sets what a key has.
pub(crate) fn play_key_set(
    alloc: Global,
    line: u32,
    at: usize,
    key: &Text,
    bytes: &[u8],
    session: Session,
    shown: Vec<Shown>,
) -> Step
    ensures comes { CallComes line at shown.items session
        (key_set_deed bytes.now (key_of key.now) session) result }
    ensures clean { is_clean result ≡ true }
    ensures bounded { IsBounded at result }
{
    after_call(
        line,
        at,
        key_set(alloc, session, key.as_str(), bytes),
        shown,
    )
}

/// Sets a chunk all of whose bytes are the same.
pub(crate) fn play_fill(
    line: u32,
    at: usize,
    path: &Path,
    index: &Index,
    byte: u8,
    session: Session,
    shown: Vec<Shown>,
) -> Step
    ensures comes { CallComes line at shown.items session
        (Sets path.now index.now (filled session path.now byte)) result }
    ensures clean { is_clean result ≡ true }
    ensures bounded { IsBounded at result }
{
    after_call(line, at, session.fill_chunk(path, index, byte), shown)
}

/// A chunk that this line of the script asked for.
fn value_shown(line: u32, value: Value) -> Shown
    ensures { result ≡ value_shown line value }
{
    match value {
        Value::Bytes(bytes) => Shown::Chunk { line, bytes },
        Value::Fill => Shown::Fill { line },
    }
}

/// What the key has that this line of the script asked for.
fn key_shown(line: u32, value: KeyValue) -> Shown
    ensures { result ≡ key_shown line value }
{
    match value {
        KeyValue::Bytes(bytes) => Shown::Key {
            line,
            bytes: Some(bytes),
        },
        KeyValue::Absent => Shown::Key { line, bytes: None },
    }
}

/// Shows one thing more.
pub(crate) fn show(value: Shown, shown: &mut Vec<Shown>) -> Result<(), AllocError>
    ensures ok { OnOk result (shown.new.items ≡ shown.old.items ++ value ∷ []) }
    ensures err { OnErr result (shown.new.items ≡ shown.old.items) }
{
    match shown.push(value) {
        Ok(()) => Ok(()),
        Err(failed) => {
            drop(failed);
            Err(AllocError)
        }
    }
}

/// Shows a chunk that was read for this line of the script.
pub(crate) fn show_value(
    asked: AskedFor,
    line: u32,
    value: Value,
    shown: &mut Vec<Shown>,
) -> Result<(), AllocError>
    ensures ok { OnOk result (shown.new.items ≡ shown.old.items ++ shown_for asked line value
        ∷ []) }
    ensures err { OnErr result (shown.new.items ≡ shown.old.items) }
{
    match asked {
        AskedFor::Chunk => show(value_shown(line, value), shown),
        AskedFor::Key => show(key_shown(line, key_answer(value)), shown),
    }
}

/// Reads a chunk.
pub(crate) fn play_get(
    line: u32,
    at: usize,
    path: &Path,
    index: &Index,
    session: Session,
    mut shown: Vec<Shown>,
) -> Step
    ensures comes { CallComes line at shown.items session
        (Reads path.now index.now (value_shown line)) result }
    ensures clean { is_clean result ≡ true }
    ensures bounded { IsBounded at result }
{
    match session.get_chunk(path, index) {
        Ok(Getting::Ready(session, value)) => {
            match show(value_shown(line, value), &mut shown) {
                Ok(()) => Step::On { session, shown },
                Err(_) => {
                    drop(session);
                    Step::Stop(refuse(line, shown, Refusal::NoMemory))
                }
            }
        }
        Ok(Getting::Again(get)) => Step::Stop(Working::Getting {
            line,
            at,
            asked: AskedFor::Chunk,
            shown,
            get,
        }),
        Err((session, why)) => {
            drop(session);
            Step::Stop(refuse(line, shown, why))
        }
    }
}

/// Reads what a key has.
pub(crate) fn play_key_get(
    alloc: Global,
    line: u32,
    at: usize,
    key: &Text,
    session: Session,
    mut shown: Vec<Shown>,
) -> Step
    ensures comes { CallComes line at shown.items session
        (key_get_deed line (key_of key.now) session) result }
    ensures clean { is_clean result ≡ true }
    ensures bounded { IsBounded at result }
{
    match key_get(alloc, session, key.as_str()) {
        Ok(KeyGetting::Ready(session, value)) => match show(key_shown(line, value), &mut shown) {
            Ok(()) => Step::On { session, shown },
            Err(_) => {
                drop(session);
                Step::Stop(refuse(line, shown, Refusal::NoMemory))
            }
        },
        Ok(KeyGetting::Again(get)) => Step::Stop(Working::Getting {
            line,
            at,
            asked: AskedFor::Key,
            shown,
            get,
        }),
        Err((session, why)) => {
            drop(session);
            Step::Stop(refuse(line, shown, why))
        }
    }
}
