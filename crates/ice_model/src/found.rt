//! Conflicts of two sides.

ghost use Rattle.std.specs.Prelude.{◌≡◌, ◌↔◌, IfOk, IsTrue};
ghost use Rattle.std.specs.Option.{option_copied};
ghost use Rattle.zarr_tree.specs.Conflicts.{IsConflict};
ghost use Rattle.zarr_tree.specs.Touched.{IsOrdered};
ghost use Rattle.tree_model.specs.Models.{changes_of, tree_with};

use crate::counts::Counts;
use crate::places::Places;
use crate::sides::Side;
use crate::stops::{Stop, expect};
use conflicts::detect;
use held_log::{HeldLog, hold};
use ice_base::Bytes;
use ice_ids::Id12;
use ice_items::Items;
use manifest_file::Place;
use std::alloc::Global;
use tree_model::{Changes, Nodes, Sides, Tree, Under};
use txn_file::TxnFile;
use txn_file::laws::touched_law;
use zarr_path::{Index, Path};
use zarr_tree::{Case, Conflict, Touched, ordered_law};

/// The cases of conflicts, in their order.
const CASES: [Case; 10] = [
    Case::NewNodeConflictsWithExistingNode,
    Case::NewNodeInInvalidGroup,
    Case::ZarrMetadataDoubleUpdate,
    Case::ZarrMetadataUpdateOfDeletedArray,
    Case::ZarrMetadataUpdateOfDeletedGroup,
    Case::ChunkDoubleUpdate,
    Case::ChunksUpdatedInDeletedArray,
    Case::ChunksUpdatedInUpdatedArray,
    Case::DeleteOfUpdatedArray,
    Case::DeleteOfUpdatedGroup,
];

/// The log of a commit that touched these, written, and held to be read in place.
fn log_of(alloc: Global, lists: Touched) -> Result<HeldLog, Stop>
    requires { IsOrdered lists }
{
    touched_law();
    let log = TxnFile {
        id: Id12::INITIAL,
        lists,
    };
    let written = txn_file::write(alloc, &log);
    drop(log);
    let Ok(file) = written else {
        return Err(Stop::NoMemory);
    };
    match hold(Bytes::from_vec(file)) {
        Ok(log) => Ok(log),
        Err(_) => Err(Stop::Differ("a log that was written")),
    }
}

/// The conflicts that the detector finds of our changes with theirs.
fn found(
    alloc: Global,
    base: &Tree,
    ours: &Side,
    theirs: &Side,
    after: &Under<'_>,
) -> Result<Items<Conflict>, Stop> {
    ordered_law::<Place>();
    let log = log_of(alloc, theirs.set.net(alloc, base)?)?;
    let found = detect(alloc, &ours.set, &log.lists(), base, after);
    drop(log);
    Ok(found?)
}

/// Whether two chunks' indices are the same, or there is none.
fn same_index(index: Option<&Index>, other: Option<&Index>) -> bool {
    match (index, other) {
        (Some(index), Some(other)) => *index == *other,
        (None, None) => true,
        (Some(_), None) | (None, Some(_)) => false,
    }
}

/// Whether a conflict is this one.
fn is_conflict(
    conflict: Option<&Conflict>,
    case: Case,
    path: &Path,
    index: Option<&Index>,
) -> bool {
    match conflict {
        Some(conflict) => {
            conflict.case == case
                && conflict.path.as_str() == path.as_str()
                && same_index(conflict.index.as_ref(), index)
        }
        None => false,
    }
}

/// What is compared: conflicts that were found, and the model's sides.
#[derive(Clone, Copy)]
struct Both<'a> {
    places: &'a Places,
    found: &'a [Conflict],
    sides: Sides<'a>,
}

impl<'a> Both<'a> {
    /// Says whether this is a conflict, and if so, stops where it isn't the one that was found at this place.
    fn compare_one(
        &self,
        alloc: Global,
        at: usize,
        case: Case,
        path: &Path,
        index: Option<&Index>,
    ) -> Result<bool, Stop>
        ensures { IfOk result (λ is. IsTrue is
            ↔ IsConflict (changes_of self.now.sides.mine.now) self.now.sides.theirs.now
            (tree_with self.now.sides.before.now) (tree_with self.now.sides.after.now) case path.now
            (option_copied index.entry)) }
    {
        let is = self.sides.conflicts(alloc, case, path, index)?;
        if is {
            let alike = is_conflict(self.found.get(at), case, path, index);
            expect(alike, "a conflict")?;
        }
        Ok(is)
    }

    /// Compares the conflicts of a case at a path with those from a place on, and answers the place behind them.
    fn compare_case(
        &self,
        alloc: Global,
        at: usize,
        case: Case,
        path: &Path,
    ) -> Result<usize, Stop> {
        let is = self.compare_one(alloc, at, case, path, None)?;
        let mut at = at.saturating_add(usize::from(is));
        for index in self.places.indices.as_slice() {
            let is = self.compare_one(alloc, at, case, path, Some(index))?;
            at = at.saturating_add(usize::from(is));
        }
        Ok(at)
    }

    /// Compares the conflicts at a path in the same way.
    fn compare_path(&self, alloc: Global, at: usize, path: &Path) -> Result<usize, Stop> {
        let mut at = at;
        for case in &CASES {
            at = self.compare_case(alloc, at, *case, path)?;
        }
        Ok(at)
    }

    /// Compares all conflicts, in their order.
    fn compare(&self, alloc: Global) -> Result<(), Stop> {
        let mut at: usize = 0;
        for path in self.places.paths.as_slice() {
            at = self.compare_path(alloc, at, path)?;
        }
        expect(at == self.found.len(), "the number of conflicts")
    }
}

/// Stops where these conflicts aren't exactly those that the model finds, in their order, between our changes and what
/// theirs touched.
fn compare_found<'a>(
    alloc: Global,
    places: &'a Places,
    found: &'a [Conflict],
    mine: &'a Changes,
    theirs: &'a Touched,
    before: &'a Nodes,
    after: &'a Nodes,
) -> Result<(), Stop> {
    let sides = Sides {
        mine,
        theirs,
        before,
        after,
    };
    let both = Both {
        places,
        found,
        sides,
    };
    both.compare(alloc)
}

/// Stops where these conflicts aren't exactly those that the model finds between our changes and theirs.
fn compare_all(
    alloc: Global,
    places: &Places,
    found: &[Conflict],
    base: &Tree,
    ours: &Side,
    theirs: &Side,
    after: &Nodes,
) -> Result<(), Stop> {
    let touched = theirs.changes.touched(alloc, base)?;
    let mine = &ours.changes;
    let compared = compare_found(alloc, places, found, mine, &touched, &base.nodes, after);
    drop(touched);
    compared
}

/// Counts conflicts.
fn count_all(counts: &mut Counts, found: &[Conflict])
    ensures { counts.new ≡ record counts.old { conflicts = counts.new.conflicts } }
{
    for conflict in found {
        counts.count_conflict(conflict.case);
    }
}

/// Stops where the conflicts of our changes of a base with theirs differ; this is the tree after theirs.
pub fn compare_conflicts(
    alloc: Global,
    places: &Places,
    base: &Tree,
    ours: &Side,
    theirs: &Side,
    after: &Under<'_>,
    counts: &mut Counts,
) -> Result<(), Stop>
    ensures { counts.new ≡ record counts.old { conflicts = counts.new.conflicts } }
{
    let found = found(alloc, base, ours, theirs, after)?;
    count_all(counts, found.as_slice());
    compare_all(
        alloc,
        places,
        found.as_slice(),
        base,
        ours,
        theirs,
        &after.nodes,
    )
}
