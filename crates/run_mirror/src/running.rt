//! A mirror from its beginning to its end.

ghost use Rattle.two_stores.specs.Sides.{pair_of};
ghost use Rattle.two_stores.specs.Pairs.{IsDone};
ghost use Rattle.mirror.specs.inside.Working.{mirror_rest};
ghost use Rattle.run_mirror.specs.Running.{WasMirrored};
ghost use Rattle.drafts.specs.Drafts.{IsBlank};
ghost use Rattle.run_mirror.specs.Ending.{MirrorEnds, WasTold};
ghost use Rattle.run_mirror.specs.inside.Coming.{HasCome};

use crate::ending::{MirrorEnded, MirrorStatus, status_of};
use crate::telling::add_mirror;
use drafts::Draft;
use ice_base::Sink;
use mirror::{Mirror, fair_law};
use mirror_calls::{mirror_law, mirrored_trees_law};
use mirror_reports::MirrorEnd;
use std::alloc::Global;
use store_api::Base;

/// Steps a mirror until it has ended.
fn run_to_end<S: Base, T: Base>(mirror: &mut Mirror, from: &mut S, to: &mut T)
    requires { HasCome (pair_of (S.view from.old) (T.view to.old))
        (pair_of (S.view from.old) (T.view to.old)) mirror.old }
    ensures came { HasCome (pair_of (S.view from.old) (T.view to.old))
        (pair_of (S.view from.new) (T.view to.new)) mirror.new }
    ensures ended { IsDone (mirror_rest mirror.new) }
{
    mirror_law();
    while !mirror.has_ended() {
        mirror.step(from, to);
    }
}

/// Copies a repository into another store, where nobody else acts on either.
pub fn mirror_store<S: Base, T: Base>(alloc: Global, from: &mut S, to: &mut T) -> MirrorEnd
    ensures { WasMirrored (pair_of (S.view from.old) (T.view to.old))
        (pair_of (S.view from.new) (T.view to.new)) result }
{
    mirror_law();
    mirrored_trees_law();
    fair_law();
    let mut mirror = Mirror::new(alloc);
    run_to_end(&mut mirror, from, to);
    mirror.into_end()
}

/// Writes what came of a mirror, over a blank draft, and tells the status. It takes no memory.
fn finish<K: Sink>(draft: Draft, end: &MirrorEnd, out: &mut K) -> MirrorStatus
    requires { IsBlank draft }
    ensures { WasTold end.now (K.at out.old) (K.at out.new) result }
{
    let mut draft = draft;
    add_mirror(&mut draft, out, end);
    let unwritten = draft.finish(out);
    status_of(&end.result, unwritten)
}

/// Copies a repository into another store, where nobody else acts on either, and writes what came of it. What writing takes is taken
/// first.
pub fn run_mirror<S: Base, T: Base, K: Sink>(
    alloc: Global,
    from: S,
    to: T,
    out: &mut K,
) -> MirrorEnded<S, T>
    ensures { MirrorEnds (pair_of (S.view from) (T.view to))
        (pair_of (S.view result.from) (T.view result.to)) (K.at out.old) (K.at out.new)
        result.status }
{
    let draft = match Draft::new(alloc) {
        Ok(draft) => draft,
        Err(_) => {
            return MirrorEnded {
                status: MirrorStatus::NoMemory,
                from,
                to,
            };
        }
    };
    let mut from = from;
    let mut to = to;
    let end = mirror_store(alloc, &mut from, &mut to);
    let status = finish(draft, &end, out);
    MirrorEnded { status, from, to }
}
