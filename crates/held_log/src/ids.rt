ghost use Rattle.std.specs.Prelude.{◌≡◌, ◌<◌, Some, None, length, slice_get, IsOk};
ghost use Rattle.flat_tables.specs.Rows.{Ascends};
ghost use Rattle.file_fields.specs.Fields.{id_key};
ghost use Rattle.zarr_tree.specs.Touched.{lists};
ghost use Rattle.txn_file.specs.Logs.{ids_in, ids_of};
ghost use Rattle.held_manifest.specs.Views.{rows_or_none};

use file_fields::{id_follows, id8};
use flat_tables::{FileFault, Table, Vector};
use ice_ids::Id8;
use std::cmp::Ordering;
use std::marker::Model;

/// The ids of a vector in a slot, read in place. Contracts see them as the list of the ids that they stand for.
#[derive(Drop)]
struct IdVector<'a> {
    slot: u16,
    vector: Vector<'a>,
}

impl<'a> Model for IdVector<'a> {
    ghost use Rattle.std.specs.Prelude.{List, ◌≡◌, IsOk};
    ghost use Rattle.ice_ids.specs.declared.Id8.{Id8 as TheId};
    ghost use Rattle.txn_file.specs.Logs.{ids_in};
    ghost use Rattle.held_manifest.specs.Views.{rows_or_none};

    ghost Value = { List TheId };

    ghost view = { λ i. rows_or_none (ids_in i.slot i.vector) };

    ghost invariant = { λ i. IsOk (ids_in i.slot i.vector) × (i.vector.size ≡ 8) };
}

/// The ids of a vector, which stand in order; else the first fault.
fn ids_in<'a>(slot: u16, vector: Vector<'a>) -> Result<IdVector<'a>, FileFault>
    requires { vector.size ≡ 8 }
    ensures { result ≡ ids_in slot vector.entry }
{
    let mut last: Option<Id8> = None;
    for at in 0..vector.len() {
        let id = id8(vector.item(at));
        if !id_follows(last.as_ref(), &id) {
            return Err(FileFault::Order { slot, at });
        }
        last = Some(id);
    }
    Ok(IdVector { slot, vector })
}

impl<'a> IdVector<'a> {
    /// How many ids there are. They stand in the strict order of their bytes.
    fn len(&self) -> usize
        ensures count { result ≡ length self.now }
        ensures order { Ascends id_key None self.now }
    {
        self.vector.len()
    }

    /// Id number `i`, in their order.
    fn at(&self, i: usize) -> Id8
        requires { i < length self.now }
        ensures { slice_get self.now i ≡ Some result }
    {
        id8(self.vector.item(i))
    }

    /// Whether this id is among them. The search goes by halves.
    fn has(&self, id: &Id8) -> bool
        ensures { result ≡ lists self.now id.now }
    {
        let mut low = 0;
        let mut high = self.len();
        while low < high {
            let middle = low + (high - low) / 2;
            let found = self.at(middle);
            match found.cmp(id) {
                Ordering::Less => low = middle + 1,
                Ordering::Equal => return true,
                Ordering::Greater => high = middle,
            }
        }
        false
    }
}

/// A list of ids of nodes in a log, read in place: none where it is absent. Contracts see it as the list of the ids.
#[derive(Drop)]
pub struct Ids<'a> {
    rows: Option<IdVector<'a>>,
}

impl<'a> Model for Ids<'a> {
    ghost use Rattle.std.specs.Prelude.{List};
    ghost use Rattle.ice_ids.specs.declared.Id8.{Id8 as TheId};
    ghost use Rattle.held_log.specs.Views.{rows_there};

    ghost Value = { List TheId };

    ghost view = { λ i. rows_there i.rows };
}

/// The ids in a slot, none where it is absent; else the first fault.
#[tactic(auto, unfolding(txn_file::specs::Logs::ids_of))]
pub(crate) fn ids_of<'a>(table: &Table<'a>, slot: u16) -> Result<Ids<'a>, FileFault>
    ensures { result ≡ ids_of table.now slot }
{
    match table.vector(slot, 8)? {
        None => Ok(Ids { rows: None }),
        Some(vector) => Ok(Ids {
            rows: Some(ids_in(slot, vector)?),
        }),
    }
}

/// The ids in a slot that was read before.
pub(crate) fn held_ids<'a>(table: &Table<'a>, slot: u16) -> Ids<'a>
    requires { IsOk (ids_of table.now slot) }
    ensures { result ≡ rows_or_none (ids_of table.now slot) }
{
    match table.vector(slot, 8).unwrap() {
        None => Ids { rows: None },
        Some(vector) => Ids {
            rows: Some(IdVector { slot, vector }),
        },
    }
}

impl<'a> Ids<'a> {
    /// How many ids there are. They stand in the strict order of their bytes.
    pub fn len(&self) -> usize
        ensures count { result ≡ length self.now }
        ensures order { Ascends id_key None self.now }
    {
        match &self.rows {
            None => 0,
            Some(rows) => rows.len(),
        }
    }

    /// Id number `i`, in their order.
    pub fn at(&self, i: usize) -> Id8
        requires { i < length self.now }
        ensures { slice_get self.now i ≡ Some result }
    {
        match &self.rows {
            None => unreachable!(),
            Some(rows) => rows.at(i),
        }
    }

    /// Whether this id is among them. The search goes by halves.
    pub fn has(&self, id: &Id8) -> bool
        ensures { result ≡ lists self.now id.now }
    {
        match &self.rows {
            None => false,
            Some(rows) => rows.has(id),
        }
    }
}
