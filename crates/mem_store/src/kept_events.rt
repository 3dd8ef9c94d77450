//! The events of the journal, as they are kept.

ghost use Rattle.std.specs.Prelude.{◌≡◌, length, option_map, slice_get, if◌then◌else◌};
ghost use Rattle.std.specs.Option.{option_copied};
ghost use Rattle.object_store.specs.Machine.{last_time, got_of};
ghost use Rattle.mem_store.specs.Standing.{stored_of};
ghost use Rattle.mem_store.specs.Lent.{reply_lent, event_lent};
ghost use Rattle.mem_store.specs.Places.{place_left, where_at};
ghost use Rattle.mem_store.specs.KeptEvents.{key_changed, is_done, bytes_put, put_in, puts_in, answered_by, reply_in, told};

use crate::answers::{Standing, gone_answer, gone_at_answer, new_answer, over_answer};
use crate::events::{EventRef, ReplyRef};
use object_store::{Entries, Key, Op, Reply, Version};

/// What an operation was answered by. The reply follows from it: the bytes of an object stand in
/// the event of their put alone.
#[derive(Debug, Drop)]
pub(crate) enum Answer {
    /// The put that stood at its key.
    Stood(Option<u64>),
    /// What a part listed.
    Listed(Entries),
    /// The operation failed, done or not done.
    Failed(bool),
}

/// An event of the journal.
#[derive(Debug, Drop)]
pub(crate) struct KeptEvent {
    pub(crate) client: u32,
    pub(crate) op: Op,
    pub(crate) answer: Answer,
    pub(crate) time: u64,
}

impl Answer {
    /// Whether the operation took effect.
    pub(crate) fn is_done(&self) -> bool
        ensures { result ≡ is_done self.now }
    {
        match self {
            Answer::Stood(_) | Answer::Listed(_) => true,
            Answer::Failed(done) => *done,
        }
    }
}

/// The key at which an operation may change what stands.
pub(crate) fn changed_key(op: &Op) -> Option<&Key>
    ensures { option_copied result ≡ key_changed op.now }
{
    match op {
        Op::PutNew { key, .. }
        | Op::PutOver { key, .. }
        | Op::Remove { key, .. }
        | Op::RemoveAt { key, .. } => Some(key),
        Op::Get { .. } | Op::List { .. } => None,
    }
}

/// The bytes that an operation puts.
pub(crate) fn bytes_put(op: &Op) -> &[u8]
    ensures { result.now ≡ bytes_put op.now }
{
    match op {
        Op::PutNew { bytes, .. } | Op::PutOver { bytes, .. } => bytes.as_slice(),
        Op::Get { .. } | Op::Remove { .. } | Op::RemoveAt { .. } | Op::List { .. } => &[],
    }
}

/// Where this version stands, what comes in its place.
fn where_at(old: u64, at: Option<u64>, new: Option<u64>) -> Option<u64>
    ensures { result ≡ where_at old at new }
{
    match at {
        Some(place) if place == old => new,
        _ => at,
    }
}

/// The put that stands at its key after an operation at this place that was done.
fn place_left(place: u64, op: &Op, at: Option<u64>) -> Option<u64>
    ensures { result ≡ place_left place op.now at }
{
    match op {
        Op::Get { .. } | Op::List { .. } => at,
        Op::PutNew { .. } => at.or(Some(place)),
        Op::PutOver { old, .. } => where_at(old.0, at, Some(place)),
        Op::Remove { .. } => None,
        Op::RemoveAt { old, .. } => where_at(old.0, at, None),
    }
}

/// The put that stands at its key after an operation at this place.
pub(crate) fn left_by(op: &Op, done: bool, place: u64, at: Option<u64>) -> Option<u64>
    ensures { result ≡ (if done then place_left place op.now at else at) }
{
    if done { place_left(place, op, at) } else { at }
}

/// The time of the last event, and 0 before the first.
pub(crate) fn last_time(logs: &[KeptEvent]) -> u64
    ensures { result ≡ last_time (told logs.now) }
{
    match logs.last() {
        None => 0,
        Some(log) => log.time,
    }
}

/// What the put at this place put.
pub(crate) fn put_in(logs: &[KeptEvent], place: u64) -> Standing<'_>
    ensures { stored_of result ≡ put_in (told logs.now) place }
{
    match logs.get(place as usize) {
        None => Standing {
            bytes: &[],
            version: place,
            created: 0,
        },
        Some(log) => Standing {
            bytes: bytes_put(&log.op),
            version: place,
            created: log.time,
        },
    }
}

/// What an operation after these events answers, where the put `at` stands at its key.
fn answered<'a>(before: &'a [KeptEvent], op: &Op, at: Option<u64>, now: u64) -> ReplyRef<'a>
    ensures { reply_lent result ≡ answered_by (length (told before.now)) now op.now
        (puts_in (told before.now) at) }
{
    let place = before.len() as u64;
    match op {
        Op::Get { .. } => found(before, at, now),
        Op::PutNew { .. } => ReplyRef::New(new_answer(at, place, now)),
        Op::PutOver { old, .. } => ReplyRef::Over(over_answer(at, *old, place, now)),
        Op::Remove { .. } => ReplyRef::Gone(gone_answer(at, now)),
        Op::RemoveAt { old, .. } => ReplyRef::GoneAt(gone_at_answer(at, *old, now)),
        Op::List { .. } => ReplyRef::Listed { entries: &[], now },
    }
}

/// What a get after these events answers.
fn found(before: &[KeptEvent], at: Option<u64>, now: u64) -> ReplyRef<'_>
    ensures { reply_lent result ≡ Reply.Got (got_of now (puts_in (told before.now) at)) }
{
    let Some(place) = at else {
        return ReplyRef::Absent { now };
    };
    let put = put_in(before, place);
    ReplyRef::Found {
        bytes: put.bytes,
        version: Version(put.version),
        now,
    }
}

/// The reply of an event after these.
fn reply_in<'a>(before: &'a [KeptEvent], log: &'a KeptEvent) -> ReplyRef<'a>
    ensures { reply_lent result ≡ reply_in (told before.now) log.now.time log.now.op
        log.now.answer }
{
    match &log.answer {
        Answer::Stood(at) => answered(before, &log.op, *at, log.time),
        Answer::Listed(entries) => ReplyRef::Listed {
            entries: entries.as_slice(),
            now: log.time,
        },
        Answer::Failed(done) => ReplyRef::Failed { done: *done },
    }
}

/// The event at a place.
pub(crate) fn event_at(logs: &[KeptEvent], place: usize) -> Option<EventRef<'_>>
    ensures { option_map event_lent result ≡ slice_get (told logs.now) place }
{
    let Some(log) = logs.get(place) else {
        return None;
    };
    Some(EventRef {
        client: log.client,
        op: &log.op,
        reply: reply_in(&logs[..place], log),
        time: log.time,
    })
}
