//! The lines of a task that read and write boxes of cells.

ghost use Rattle.std.specs.Prelude.{◌≡◌, ◌++◌, ◌∷◌, [], false, true, ℤ, List, IfOk, IfErr, OnOk, OnErr};
ghost use Rattle.store_api.specs.Program.{is_fault};
ghost use Rattle.store_api.specs.Plays.{call};
ghost use Rattle.store_api.specs.Running.{Program};
ghost use Rattle.session.specs.Sessions.{SessionState};
ghost use Rattle.array_region.specs.Getting.{Begins, IsFew};
ghost use Rattle.array_region.specs.Filling.{BeginsSet, IsFewSet};
ghost use Rattle.play_tasks.specs.Lines.{cells_shown, Puts, Gathers};
ghost use Rattle.play_tasks.specs.inside.Working.{after_get, after_set, is_clean, PlayComes, CallComes, IsBounded, IsBoxOf};

use crate::chunks::show;
use crate::lines::refuse;
use crate::working::{Step, Working};
use array_region::{Getting, Numbers, Region, RegionGet, RegionSet, Setting};
use ice_items::Items;
use play_outcome::Shown;
use script_calls::CellBox;
use session::Session;
use std::alloc::{AllocError, Global};
use store_api::Refusal;

/// The box that a line names.
fn region_of(alloc: Global, place: &CellBox) -> Result<Region, AllocError>
    ensures { IfOk result (IsBoxOf place.now) }
{
    let path = place.path.copy(alloc)?;
    let from = place.from.copy(alloc)?;
    let to = place.to.copy(alloc)?;
    Ok(Region {
        path,
        from: from.into_vec(),
        to: to.into_vec(),
    })
}

/// A box, and the numbers that a line puts into it.
fn region_with(
    alloc: Global,
    place: &CellBox,
    numbers: &Items<i128>,
) -> Result<(Region, Vec<i128>), AllocError>
    ensures { IfOk result (λ given. IsBoxOf place.now given.0 × (given.1.items ≡ numbers.now)) }
{
    let region = region_of(alloc, place)?;
    let numbers = numbers.copy(alloc)?;
    Ok((region, numbers.into_vec()))
}

/// Shows the numbers of a box that was read for this line of the script.
pub(crate) fn show_cells(
    line: u32,
    numbers: Numbers,
    shown: &mut Vec<Shown>,
) -> Result<(), AllocError>
    ensures ok { OnOk result (shown.new.items ≡ shown.old.items ++ cells_shown line numbers ∷ []) }
    ensures err { OnErr result (shown.new.items ≡ shown.old.items) }
{
    show(Shown::Cells { line, numbers }, shown)
}

/// What follows a call that reads a box: its numbers are shown, or a machine has them to read, or it was refused.
fn after_begun(
    line: u32,
    at: usize,
    came: Result<Getting, (Session, Refusal)>,
    mut shown: Vec<Shown>,
) -> Step
    requires few { IfOk came IsFew }
    requires calm { IfErr came (λ refused. is_fault refused.1 ≡ false) }
    ensures comes { (s : SessionState) (p : Program (List ℤ)) → Begins p s came
        → PlayComes line at shown.items
        (λ rest. call p (after_get (cells_shown line) line shown.items s rest)) result }
    ensures clean { (s : SessionState) (p : Program (List ℤ)) → Begins p s came
        → is_clean result ≡ true }
    ensures bounded { IsBounded at result }
{
    match came {
        Ok(Getting::Ready(session, numbers)) => match show_cells(line, numbers, &mut shown) {
            Ok(()) => Step::On { session, shown },
            Err(_) => {
                drop(session);
                Step::Stop(refuse(line, shown, Refusal::NoMemory))
            }
        },
        Ok(Getting::Again(get)) => Step::Stop(Working::Gathering {
            line,
            at,
            shown,
            get,
        }),
        Err((session, why)) => {
            drop(session);
            Step::Stop(refuse(line, shown, why))
        }
    }
}

/// Reads a box of cells.
pub(crate) fn play_cells(
    alloc: Global,
    line: u32,
    at: usize,
    place: &CellBox,
    session: Session,
    shown: Vec<Shown>,
) -> Step
    ensures comes { CallComes line at shown.items session
        (Gathers place.now.path place.now.from place.now.to (cells_shown line)) result }
    ensures clean { is_clean result ≡ true }
    ensures bounded { IsBounded at result }
{
    let Ok(region) = region_of(alloc, place) else {
        drop(session);
        return Step::Stop(refuse(line, shown, Refusal::NoMemory));
    };
    after_begun(line, at, RegionGet::start(alloc, session, region), shown)
}

/// What follows a call that writes a box: it was written, or a machine has it to write, or it was refused.
fn after_put(
    line: u32,
    at: usize,
    came: Result<Setting, (Session, Refusal)>,
    shown: Vec<Shown>,
) -> Step
    requires few { IfOk came IsFewSet }
    requires calm { IfErr came (λ refused. is_fault refused.1 ≡ false) }
    ensures comes { (s : SessionState) (p : Program SessionState) → BeginsSet p s came
        → PlayComes line at shown.items (λ rest. call p (after_set line shown.items rest)) result }
    ensures clean { (s : SessionState) (p : Program SessionState) → BeginsSet p s came
        → is_clean result ≡ true }
    ensures bounded { IsBounded at result }
{
    match came {
        Ok(Setting::Ready(session)) => Step::On { session, shown },
        Ok(Setting::Again(set)) => Step::Stop(Working::Putting {
            line,
            at,
            shown,
            set,
        }),
        Err((session, why)) => {
            drop(session);
            Step::Stop(refuse(line, shown, why))
        }
    }
}

/// Writes numbers into a box of cells.
pub(crate) fn play_put(
    alloc: Global,
    line: u32,
    at: usize,
    place: &CellBox,
    numbers: &Items<i128>,
    session: Session,
    shown: Vec<Shown>,
) -> Step
    ensures comes { CallComes line at shown.items session
        (Puts place.now.path place.now.from place.now.to numbers.now) result }
    ensures clean { is_clean result ≡ true }
    ensures bounded { IsBounded at result }
{
    let Ok((region, numbers)) = region_with(alloc, place, numbers) else {
        drop(session);
        return Step::Stop(refuse(line, shown, Refusal::NoMemory));
    };
    let came = RegionSet::start(alloc, session, region, numbers);
    after_put(line, at, came, shown)
}
