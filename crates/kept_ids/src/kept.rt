//! Sources that keep their place.

ghost use Rattle.std.specs.Prelude.{◌≡◌, IfSome, option_map};
ghost use Rattle.ice_ids.specs.Drawing.{after8, after12, drawn8, drawn12, stream_after, stream_drawn8, stream_drawn12};
ghost use Rattle.kept_ids.specs.Kept.{StandsAt};

use crate::words::{node_id, object_id};
use ice_ids::{AnyIds, Id8, Id12, Ids, StreamIds};
use rand_chacha::ChaCha20Rng;
use std::alloc::Global;
use std::marker::Model;

/// A generator in memory of its own, if it is kept.
type Kept = Option<Box<ChaCha20Rng>>;

/// A source of a client's ids, with the generator of their key stream where the next id is read, so that a block of it is made once
/// for all ids that are read there. Contracts see the source.
pub struct KeptIds {
    ids: AnyIds,
    stream: Kept,
}

// Written out, so that what holds a source lets go of it by one call.
impl Drop for KeptIds {
    fn drop(self) {
        let KeptIds { ids: _, stream } = self;
        drop(stream);
    }
}

impl Model for KeptIds {
    ghost use Rattle.std.specs.Prelude.{option_map};
    ghost use Rattle.ice_ids.specs.declared.drawing.AnyIds.{AnyIds as TheIds};
    ghost use Rattle.kept_ids.specs.Kept.{IsKeptFor};

    ghost Value = { TheIds };

    ghost view = { λ k. k.ids };

    ghost invariant = { λ k. IsKeptFor k.ids (option_map (λ b. b.value) k.stream) };
}

/// The generator of a source, in memory of its own where there is some.
fn begun(alloc: Global, ids: &StreamIds) -> Kept
    ensures { StandsAt ids.now (option_map (λ b. b.value) result) }
{
    match Box::new(alloc, ids.stream()) {
        Ok(stream) => Some(stream),
        Err(failed) => {
            drop(failed);
            None
        }
    }
}

/// The generator that is kept, or else a new one.
fn taken(alloc: Global, ids: &StreamIds, kept: Kept) -> Kept
    requires { StandsAt ids.now (option_map (λ b. b.value) kept) }
    ensures { StandsAt ids.now (option_map (λ b. b.value) result) }
{
    match kept {
        Some(stream) => Some(stream),
        None => begun(alloc, ids),
    }
}

/// The next object id of a stream. Without memory for a generator none is kept.
#[tactic(auto, using(crate::proofs::Places::next_place))]
fn next_object(alloc: Global, ids: &mut StreamIds, kept: &mut Kept) -> Option<Id12>
    requires { StandsAt ids.old (option_map (λ b. b.value) kept.old) }
    ensures drawn { result ≡ stream_drawn12 ids.old }
    ensures after { ids.new ≡ stream_after ids.old }
    ensures stands { StandsAt ids.new (option_map (λ b. b.value) kept.new) }
{
    if ids.is_dry() {
        return None;
    }
    let Some(mut stream) = taken(alloc, &*ids, kept.take()) else {
        return ids.next12();
    };
    let id = Id12(object_id(stream.as_mut()));
    ids.counter += 1;
    *kept = Some(stream);
    Some(id)
}

/// The next node id of a stream. Without memory for a generator none is kept.
#[tactic(auto, using(crate::proofs::Places::next_place))]
fn next_node(alloc: Global, ids: &mut StreamIds, kept: &mut Kept) -> Option<Id8>
    requires { StandsAt ids.old (option_map (λ b. b.value) kept.old) }
    ensures drawn { result ≡ stream_drawn8 ids.old }
    ensures after { ids.new ≡ stream_after ids.old }
    ensures stands { StandsAt ids.new (option_map (λ b. b.value) kept.new) }
{
    if ids.is_dry() {
        return None;
    }
    let Some(mut stream) = taken(alloc, &*ids, kept.take()) else {
        return ids.next8();
    };
    let id = Id8(node_id(stream.as_mut()));
    ids.counter += 1;
    *kept = Some(stream);
    Some(id)
}

impl KeptIds {
    /// These ids. It takes no memory.
    #[tactic(auto, using(crate::proofs::Places::none_kept))]
    pub fn new(ids: AnyIds) -> KeptIds
        ensures { result ≡ ids }
    {
        KeptIds { ids, stream: None }
    }

    /// The ids that are drawn next.
    pub fn ids(&self) -> AnyIds
        ensures { result ≡ self.now }
    {
        self.ids
    }

    /// The next object id, `None` exactly where nothing is left to draw. It may take memory, and does without.
    pub fn next12(&mut self, alloc: Global) -> Option<Id12>
        ensures drawn { result ≡ drawn12 self.old }
        ensures after { self.new ≡ after12 self.old }
    {
        match &mut self.ids {
            AnyIds::Count(ids) => ids.next12(),
            AnyIds::Stream(ids) => next_object(alloc, ids, &mut self.stream),
        }
    }

    /// The next node id, `None` exactly where nothing is left to draw. It may take memory, and does without.
    pub fn next8(&mut self, alloc: Global) -> Option<Id8>
        ensures drawn { result ≡ drawn8 self.old }
        ensures after { self.new ≡ after8 self.old }
    {
        match &mut self.ids {
            AnyIds::Count(ids) => ids.next8(),
            AnyIds::Stream(ids) => next_node(alloc, ids, &mut self.stream),
        }
    }
}
