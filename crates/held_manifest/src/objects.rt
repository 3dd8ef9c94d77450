ghost use Rattle.held_manifest.specs.Objects.{FindsRef, Finds};

use crate::arrays::Arrays;
use crate::chunks::Refs;
use ice_ids::Id12;
use std::marker::Model;

/// An object that a walk found, and the entry at which it goes on.
#[derive(Clone, Copy)]
pub(crate) struct Found {
    id: Id12,
    array: usize,
    chunk: usize,
}

/// The first object that chunks from number `from` on name, and the number of the chunk behind it.
fn object_in_refs(refs: &Refs, from: usize) -> Option<(Id12, usize)>
    ensures { FindsRef refs.now from result }
{
    for i in from..refs.len() {
        if let Some(id) = refs.at(i).place().object() {
            return Some((id, i + 1));
        }
    }
    None
}

/// The first object that chunks from number `chunk` of array number `array` on name.
fn object_in_arrays(arrays: &Arrays, array: usize, chunk: usize) -> Option<Found>
    ensures { Finds arrays.now array chunk result }
{
    let mut from = chunk;
    for i in array..arrays.len() {
        if let Some((id, behind)) = object_in_refs(&arrays.at(i).into_refs(), from) {
            return Some(Found {
                id,
                array: i,
                chunk: behind,
            });
        }
        from = 0;
    }
    None
}

/// The objects that the entries of a manifest name, entry by entry in their order: one for each entry whose bytes are in an
/// object. Contracts see it as the list of those that are still to come. It waits for the collection, which keeps what
/// manifests name.
#[derive(Drop)]
pub struct Objects<'a> {
    arrays: Arrays<'a>,
    array: usize,
    chunk: usize,
}

impl<'a> Model for Objects<'a> {
    ghost use Rattle.std.specs.Prelude.{List};
    ghost use Rattle.ice_ids.specs.declared.Id12.{Id12 as TheId};
    ghost use Rattle.held_manifest.specs.Objects.{objects_from};

    ghost Value = { List TheId };

    ghost view = { λ o. objects_from o.arrays o.array o.chunk };
}

impl<'a> Objects<'a> {
    ghost use Rattle.std.specs.Prelude.{◌≡◌};
    ghost use Rattle.held_manifest.specs.Objects.{objects_of_arrays};

    /// All that the entries of these arrays name.
    pub(crate) fn new(arrays: Arrays<'a>) -> Objects<'a>
        ensures { result ≡ objects_of_arrays arrays.entry }
    {
        Objects {
            arrays,
            array: 0,
            chunk: 0,
        }
    }
}

impl<'a> Iterator for Objects<'a> {
    ghost use Rattle.std.specs.Iterator.{YieldsFirst, item_count};

    type Item = Id12;

    ghost next_gives = { YieldsFirst (λ rest. rest) };

    ghost remaining = { item_count (λ rest. rest) };

    fn next(&mut self) -> Option<Id12> {
        let found = object_in_arrays(&self.arrays, self.array, self.chunk)?;
        self.array = found.array;
        self.chunk = found.chunk;
        Some(found.id)
    }
}
