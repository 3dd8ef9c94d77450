//! What comes next of what is left, behind what was met before.

ghost use Rattle.std.specs.Prelude.{◌≡◌};
ghost use Rattle.repo_check.specs.inside.Working.{TakesRoot, TakesNewFile, TakesNewPart};

use crate::line::Line;
use crate::work::Work;
use ice_ids::Id12;
use intact::{FileVisit, ManifestPlace, PartVisit, SnapshotPlace};

/// Takes the first of these snapshots that wasn't met, and what stands before it.
pub(crate) fn take_root(work: &Work, roots: &mut Line<Id12>) -> Option<Id12>
    ensures { TakesRoot work.now.met roots.old result roots.new }
{
    while let Some(id) = roots.take() {
        if !work.has_met(&id) {
            return Some(id);
        }
    }
    None
}

/// Takes the first manifest that wasn't got for its node, and what stands before it.
pub(crate) fn take_file(work: &Work, place: &mut SnapshotPlace) -> Option<FileVisit>
    ensures { TakesNewFile work.now.files place.old result place.new }
{
    while let Some(visit) = place.next() {
        if !work.has_file(&visit) {
            return Some(visit);
        }
    }
    None
}

/// Takes the first part that wasn't got, and what stands before it.
pub(crate) fn take_part(work: &Work, place: &mut ManifestPlace) -> Option<PartVisit>
    ensures { TakesNewPart work.now.parts place.old result place.new }
{
    while let Some(visit) = place.next() {
        if !work.has_part(&visit) {
            return Some(visit);
        }
    }
    None
}
