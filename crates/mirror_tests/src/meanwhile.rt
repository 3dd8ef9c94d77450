//! Others act in either store between the steps of a mirror.

ghost use Rattle.std.specs.Prelude.{◌≡◌, false};

use crate::looking::{is_copied, is_sound, same_at};
use crate::playing::{made, played};
use ice_base::{ByteSink, RefName};
use ice_ids::Draw;
use mirror::Mirror;
use run_mirror::{MirrorEnded, MirrorStatus, run_mirror};
use std::alloc::Global;
use std::test::Fail;
use store_api::{Base, CountingStore, Key};
use untold_store::Untold;

/// What others do meanwhile.
#[derive(Clone, Copy, PartialEq, Eq)]
enum Others {
    /// They commit in the source, twice.
    Commit,
    /// They drop a branch of the source, and collect.
    Collect,
    /// They commit in the target.
    Target,
}

/// All of that.
const OTHERS: [Others; 3] = [Others::Commit, Others::Collect, Others::Target];

/// Two commits, a tag, and a branch beside `main` with a commit of its own.
const MADE: &str =
    "task a write main 0 fail\ngroup /\narray /t uint8 1200 600 0\narray /p uint8 1200 600 0\ncommit layout\ntask b write main 0 fail\nfill /t 0 01\ncommit one\ntask c refs\ntag v1 branch main\nbranch trial branch main\ntask d write trial 0 fail\nfill /t 1 04\ncommit trial\nturns\n";

/// Two more commits on `main`.
const MORE: &str =
    "task a write main 1 fail\nfill /t 0 05\ncommit two\ntask b write main 1 fail\nfill /p 1 06\ncommit three\nturns a*3 b*3\n";

/// A group on `main`.
const GROUP: &str = "task a write main 0 fail\ngroup /other\ncommit other\n";

/// The root, where there is none, and a group.
const GROUPS: &str =
    "task a write main 0 fail\ngroup /\ncommit root\ntask b write main 0 fail\ngroup /other\ncommit other\nturns\n";

/// The branch is dropped, and what nothing reaches is collected that was put until now.
fn drops(alloc: Global, draw: Draw, from: &mut Untold) -> bool {
    let now = from.operations();
    match format!(in alloc; "task a refs\nunbranch trial\ntask b collect {now}\nturns\n") {
        Ok(script) => {
            let well = played(alloc, script.as_str(), draw, from);
            drop(script);
            well
        }
        Err(_) => false,
    }
}

/// Others act.
fn act(alloc: Global, others: Others, from: &mut Untold, to: &mut Untold) {
    let draw = Draw::Stream([7; 32]);
    match others {
        Others::Commit => played(alloc, MORE, draw, from),
        Others::Collect => drops(alloc, draw, from),
        Others::Target => made(alloc, GROUPS, draw, to),
    };
}

/// A step of a mirror over stores that tell no journal, where it hasn't ended; whether there was one.
fn step<S: Base, T: Base>(mirror: &mut Mirror, from: &mut S, to: &mut T) -> bool
    requires from { S.tells ≡ false }
    requires to { T.tells ≡ false }
{
    if mirror.has_ended() {
        return false;
    }
    mirror.step(from, to);
    true
}

/// Whether each ref of the target names a whole tree; and where others did no more than commit in the source, all of it is there.
fn is_whole(alloc: Global, others: Others, from: &mut Untold, to: &mut Untold) -> bool {
    let copied = others != Others::Commit || is_copied(from, to);
    is_sound(alloc, to) && copied
}

/// How many steps a mirror here makes at most.
const MOST_STEPS: u32 = 100;

/// Whether a mirror, before whose step of this number others act, ends, and the target is whole behind each fourth step and the last one.
fn goes_well(alloc: Global, others: Others, at: u32, from: &mut Untold, to: &mut Untold) -> bool {
    let mut mirror = Mirror::new(alloc);
    let mut whole = true;
    for number in 0..MOST_STEPS {
        if number == at {
            act(alloc, others, from, to);
        }
        if step(&mut mirror, from, to) && number % 4 == at % 4 {
            whole = is_whole(alloc, others, from, to) && whole;
        }
    }
    let ended = mirror.has_ended();
    drop(mirror);
    is_whole(alloc, others, from, to) && ended && whole
}

/// The stores behind a mirror that writes here, if it ends well.
fn written(
    alloc: Global,
    from: Untold,
    to: Untold,
    out: &mut ByteSink,
) -> Option<(Untold, Untold)> {
    let MirrorEnded { status, from, to } = run_mirror(alloc, from, to, out);
    if status == MirrorStatus::Done {
        Some((from, to))
    } else {
        drop(from);
        drop(to);
        None
    }
}

/// The stores behind a mirror to which nothing happens, if it ends well.
fn mirrored(alloc: Global, from: Untold, to: Untold) -> Option<(Untold, Untold)> {
    match ByteSink::new(alloc, 1_000, Vec::new(alloc)) {
        Ok(mut output) => {
            let stores = written(alloc, from, to, &mut output);
            drop(output);
            stores
        }
        Err(_) => {
            drop(from);
            drop(to);
            None
        }
    }
}

/// Whether the branch `main` of both stores names one snapshot.
fn same_main(alloc: Global, from: &mut Untold, to: &mut Untold) -> bool {
    match RefName::main(alloc) {
        Ok(name) => same_at(from, to, &Key::Branch(name)),
        Err(_) => false,
    }
}

/// Whether a mirror of these stores ends well with the source's `main`, and a run over what it made commits.
fn ends_well(alloc: Global, from: Untold, to: Untold) -> bool {
    let Some((mut from, mut to)) = mirrored(alloc, from, to) else {
        return false;
    };
    let same = same_main(alloc, &mut from, &mut to);
    let goes_on = played(alloc, GROUP, Draw::Stream([9; 32]), &mut to);
    let sound = is_sound(alloc, &mut to);
    drop(from);
    drop(to);
    same && goes_on && sound
}

/// Whether a mirror goes well before whose step of this number others act, and so does the next one.
fn is_kept(alloc: Global, others: Others, at: u32) -> bool {
    let mut from = Untold::new(alloc);
    let mut to = Untold::new(alloc);
    let made = made(alloc, MADE, Draw::Count, &mut from);
    let well = goes_well(alloc, others, at, &mut from, &mut to);
    ends_well(alloc, from, to) && made && well
}

/// The steps before which others act.
const STEPS: [u32; 5] = [1, 6, 15, 28, 35];

/// Whether it goes well, whenever they do this.
fn always_kept(alloc: Global, others: Others) -> bool {
    let mut kept = true;
    for at in STEPS {
        kept = is_kept(alloc, others, at) && kept;
    }
    kept
}

#[test]
fn others_between_steps(rt: HostRuntime) -> Result<(), Fail> {
    for others in OTHERS {
        if !always_kept(rt.alloc(), others) {
            return Err(Fail::new("a mirror beside others"));
        }
    }
    Ok(())
}
