ghost use Rattle.std.specs.Prelude.{◌≡◌, IsOk};
ghost use Rattle.zarr_tree.specs.Touched.{lists_new, lists_updated};
ghost use Rattle.txn_file.specs.Logs.{lists_of};
ghost use Rattle.held_log.specs.LookUp.{chunks_listed};

use crate::arrays::{Arrays, arrays_of, held_arrays};
use crate::ids::{Ids, held_ids, ids_of};
use crate::indices::Indices;
use flat_tables::{FileFault, Table};
use ice_ids::Id8;
use std::marker::Model;

/// The lists of a log, read in place. Contracts see them as the lists that they stand for.
#[derive(Drop)]
pub struct HeldLists<'a> {
    new_groups: Ids<'a>,
    new_arrays: Ids<'a>,
    deleted_groups: Ids<'a>,
    deleted_arrays: Ids<'a>,
    updated_arrays: Ids<'a>,
    updated_groups: Ids<'a>,
    updated_chunks: Arrays<'a>,
}

impl<'a> Model for HeldLists<'a> {
    ghost use Rattle.zarr_tree.specs.declared.lists.Touched.{Touched};

    ghost Value = { Touched };

    ghost view = { λ s. record {
      new_groups = s.new_groups;
      new_arrays = s.new_arrays;
      deleted_groups = s.deleted_groups;
      deleted_arrays = s.deleted_arrays;
      updated_arrays = s.updated_arrays;
      updated_groups = s.updated_groups;
      updated_chunks = s.updated_chunks;
    } };
}

/// The lists of a log's table; else the first fault.
#[tactic(auto, unfolding(txn_file::specs::Logs::lists_of))]
pub(crate) fn lists_of<'a>(table: &Table<'a>) -> Result<HeldLists<'a>, FileFault>
    ensures { result ≡ lists_of table.now }
{
    let new_groups = ids_of(table, 1)?;
    let new_arrays = ids_of(table, 2)?;
    let deleted_groups = ids_of(table, 3)?;
    let deleted_arrays = ids_of(table, 4)?;
    let updated_arrays = ids_of(table, 5)?;
    let updated_groups = ids_of(table, 6)?;
    let updated_chunks = arrays_of(table)?;
    Ok(HeldLists {
        new_groups,
        new_arrays,
        deleted_groups,
        deleted_arrays,
        updated_arrays,
        updated_groups,
        updated_chunks,
    })
}

/// The lists of a table, which were read before.
pub(crate) fn held_lists<'a>(table: &Table<'a>) -> HeldLists<'a>
    requires { IsOk (lists_of table.now) }
    ensures { lists_of table.now ≡ Ok result }
{
    HeldLists {
        new_groups: held_ids(table, 1),
        new_arrays: held_ids(table, 2),
        deleted_groups: held_ids(table, 3),
        deleted_arrays: held_ids(table, 4),
        updated_arrays: held_ids(table, 5),
        updated_groups: held_ids(table, 6),
        updated_chunks: held_arrays(table),
    }
}

impl<'a> HeldLists<'a> {
    /// Groups that were added.
    pub fn new_groups(&self) -> &Ids<'a>
        ensures { result.now ≡ self.now.new_groups }
    {
        &self.new_groups
    }

    /// Arrays that were added.
    pub fn new_arrays(&self) -> &Ids<'a>
        ensures { result.now ≡ self.now.new_arrays }
    {
        &self.new_arrays
    }

    /// Groups that were deleted.
    pub fn deleted_groups(&self) -> &Ids<'a>
        ensures { result.now ≡ self.now.deleted_groups }
    {
        &self.deleted_groups
    }

    /// Arrays that were deleted.
    pub fn deleted_arrays(&self) -> &Ids<'a>
        ensures { result.now ≡ self.now.deleted_arrays }
    {
        &self.deleted_arrays
    }

    /// Arrays whose metadata was changed.
    pub fn updated_arrays(&self) -> &Ids<'a>
        ensures { result.now ≡ self.now.updated_arrays }
    {
        &self.updated_arrays
    }

    /// Groups whose metadata was changed.
    pub fn updated_groups(&self) -> &Ids<'a>
        ensures { result.now ≡ self.now.updated_groups }
    {
        &self.updated_groups
    }

    /// Whether a node is listed as new.
    pub fn is_new(&self, id: &Id8) -> bool
        ensures { result ≡ lists_new self.now id.now }
    {
        self.new_groups.has(id) || self.new_arrays.has(id)
    }

    /// Whether a node is listed as updated.
    pub fn is_updated(&self, id: &Id8) -> bool
        ensures { result ≡ lists_updated self.now id.now }
    {
        self.updated_arrays.has(id) || self.updated_groups.has(id)
    }

    /// The chunks that are listed of an array. The search goes by halves.
    pub fn chunks_of(&self, id: &Id8) -> Indices<'a>
        ensures { result ≡ chunks_listed self.now.updated_chunks id.now }
    {
        self.updated_chunks.chunks_of(id)
    }
}
