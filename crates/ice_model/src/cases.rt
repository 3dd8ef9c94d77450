//! Cases.

use crate::arrays::compare_changed;
use crate::bases::Base;
use crate::chunks::compare_chunks;
use crate::counts::Counts;
use crate::dice::Dice;
use crate::drawing::{Numbers, draw_for, draw_path, root};
use crate::found::compare_conflicts;
use crate::listing::{compare_keys, compare_touched};
use crate::nodes::compare_nodes;
use crate::places::Places;
use crate::sides::Side;
use crate::stops::Stop;
use crate::telling::{push_all, push_edit};
use crate::trees::compare_trees;
use crate::words::Range;
use std::alloc::{AllocError, Global};
use std::io;
use tree_model::{Edit, Tree, Under};

/// A base, behind its root, and a side are made of fewer edits than these.
const MOST_EDITS: u32 = 14;

/// After one of so many edits all is compared, and not only what the edit answers.
const LOOKS: u32 = 4;

/// One of so many edits sets all chunks of an array.
const BOXES: u32 = 12;

/// In one of so many cases the base has no root.
const BARE: u32 = 16;

/// After how many cases is said how far it has come.
const OFTEN: u64 = 100_000;

/// A case as far as it has come.
#[derive(Drop)]
struct Made {
    dice: Dice,
    numbers: Numbers,
    told: String,
}

/// Tells an edit, and makes it of a base.
fn tell_and_edit(
    alloc: Global,
    told: &mut String,
    base: &mut Base,
    edit: Edit,
) -> Result<(), AllocError> {
    let pushed = push_edit(told, &edit);
    base.edit(alloc, edit)?;
    pushed
}

impl Made {
    /// A case of which nothing is drawn yet.
    fn new(alloc: Global, number: u64) -> Made {
        Made {
            dice: Dice::new(number),
            numbers: Numbers {
                drawn: 0,
                fresh: true,
            },
            told: String::new(alloc),
        }
    }

    /// The root group of a base.
    fn root(&mut self, alloc: Global, base: &mut Base) -> Result<(), Stop> {
        let edit = root(alloc, &mut self.numbers)?;
        Ok(tell_and_edit(alloc, &mut self.told, base, edit)?)
    }

    /// One more edit of a base.
    fn edit_base(&mut self, alloc: Global, base: &mut Base) -> Result<(), Stop> {
        let edit = draw_for(alloc, &mut self.dice, &mut self.numbers, &base.tree.nodes)?;
        Ok(tell_and_edit(alloc, &mut self.told, base, edit)?)
    }

    /// A base.
    fn base(&mut self, alloc: Global) -> Result<Base, Stop> {
        self.told.push_str("base:\n")?;
        let mut base = Base::new(alloc);
        if self.dice.below(BARE) != 0 {
            self.root(alloc, &mut base)?;
        }
        for _ in 0..self.dice.below(MOST_EDITS) {
            self.edit_base(alloc, &mut base)?;
        }
        Ok(base)
    }

    /// Makes an edit on a side.
    fn edit(
        &mut self,
        alloc: Global,
        base: &Tree,
        side: &mut Side,
        counts: &mut Counts,
    ) -> Result<(), Stop> {
        let under = side.changes.nodes_under(alloc, &base.nodes)?;
        let drawn = draw_for(alloc, &mut self.dice, &mut self.numbers, &under);
        drop(under);
        let edit = drawn?;
        let told = push_edit(&mut self.told, &edit);
        let done = side.edit(alloc, base, &edit, self.numbers.fresh);
        drop(edit);
        told?;
        counts.count_edit(done?);
        Ok(())
    }

    /// Sets all chunks at a path on a side.
    fn set_all(&mut self, alloc: Global, base: &Tree, side: &mut Side) -> Result<(), Stop> {
        let path = draw_path(alloc, &mut self.dice)?;
        let bytes = [self.dice.below(3) as u8, 7];
        let told = push_all(&mut self.told, &path, &bytes);
        let set = side.set_all(alloc, base, &path, &bytes, self.numbers.fresh);
        drop(path);
        told?;
        set
    }

    /// Makes an edit, or sets all chunks of an array, and now and then compares all.
    fn step(
        &mut self,
        alloc: Global,
        places: &Places,
        base: &Tree,
        side: &mut Side,
        counts: &mut Counts,
    ) -> Result<(), Stop> {
        let made = if self.dice.below(BOXES) == 0 {
            self.set_all(alloc, base, side)
        } else {
            self.edit(alloc, base, side, counts)
        };
        made?;
        if self.dice.below(LOOKS) == 0 {
            return compare_side(alloc, places, base, side, self.numbers.fresh);
        }
        Ok(())
    }

    /// One side: its edits, each of which is compared, and then all that they come to.
    fn side(
        &mut self,
        alloc: Global,
        places: &Places,
        base: &Base,
        counts: &mut Counts,
    ) -> Result<Side, Stop> {
        self.told.push_str("side:\n")?;
        let mut side = Side::new(alloc, base)?;
        for _ in 0..self.dice.below(MOST_EDITS) {
            self.step(alloc, places, &base.tree, &mut side, counts)?;
        }
        side.copy_set(alloc)?;
        compare_side(alloc, places, &base.tree, &side, self.numbers.fresh)?;
        Ok(side)
    }

    /// Two sides of a base, and what they do to one another.
    fn sides(
        &mut self,
        alloc: Global,
        places: &Places,
        base: &Base,
        counts: &mut Counts,
    ) -> Result<(), Stop> {
        let ours = self.side(alloc, places, base, counts)?;
        let theirs = self.side(alloc, places, base, counts)?;
        compare_sides(alloc, places, &base.tree, &ours, &theirs, counts)
    }

    /// A case.
    fn compare(&mut self, alloc: Global, places: &Places, counts: &mut Counts) -> Result<(), Stop> {
        let base = self.base(alloc)?;
        self.sides(alloc, places, &base, counts)
    }
}

/// Stops where the changes of a side, or what they come to, differ; this is the tree under them.
fn compare_under(
    alloc: Global,
    places: &Places,
    base: &Tree,
    side: &Side,
    under: &Under<'_>,
) -> Result<(), Stop> {
    let nodes = compare_nodes(alloc, places, base, &side.set, &under.nodes);
    let entries = compare_chunks(places, &side.set, &side.changes, &under.nodes);
    let base_entries = compare_chunks(places, &side.set, &side.changes, &base.nodes);
    let arrays = compare_changed(alloc, places, base, &side.set, &side.changes, &under.nodes);
    let keys = compare_keys(alloc, &side.set, &side.changes);
    let touched = compare_touched(alloc, base, &side.set, &side.changes);
    nodes
        .and(entries)
        .and(base_entries)
        .and(arrays)
        .and(keys)
        .and(touched)
}

/// Stops where the changes of a side, or what they come to, differ.
fn compare_side(
    alloc: Global,
    places: &Places,
    base: &Tree,
    side: &Side,
    fresh: bool,
) -> Result<(), Stop> {
    let under = side.changes.apply(alloc, base)?;
    let trees = if fresh {
        compare_trees(places, &under, &side.tree)
    } else {
        Ok(())
    };
    let compared = compare_under(alloc, places, base, side, &under);
    drop(under);
    trees.and(compared)
}

/// Stops where our changes differ over the other side's tree.
fn compare_over(
    alloc: Global,
    places: &Places,
    ours: &Side,
    after: &Under<'_>,
) -> Result<(), Stop> {
    let under = ours.changes.nodes_under(alloc, &after.nodes)?;
    let compared = compare_nodes(alloc, places, after, &ours.set, &under);
    drop(under);
    compared
}

/// Stops where our changes differ over the other side's tree, or in their conflicts with what the other side touched.
fn compare_with(
    alloc: Global,
    places: &Places,
    base: &Tree,
    ours: &Side,
    theirs: &Side,
    counts: &mut Counts,
) -> Result<(), Stop> {
    let after = theirs.changes.apply(alloc, base)?;
    let over = compare_over(alloc, places, ours, &after);
    let conflicts = compare_conflicts(alloc, places, base, ours, theirs, &after, counts);
    drop(after);
    over.and(conflicts)
}

/// Stops where two sides differ in what they do to one another.
fn compare_sides(
    alloc: Global,
    places: &Places,
    base: &Tree,
    side: &Side,
    other: &Side,
    counts: &mut Counts,
) -> Result<(), Stop> {
    let ours = compare_with(alloc, places, base, side, other, counts);
    ours.and(compare_with(alloc, places, base, other, side, counts))
}

/// Says how a case came out, and whether code and model agree.
fn tell_case<R: Print>(
    rt: &R,
    number: u64,
    compared: Result<(), Stop>,
    told: &str,
) -> io::Result<bool> {
    match compared {
        Ok(()) => return Ok(true),
        Err(Stop::Differ(what)) => println!(rt; "case {number} differs in {what}\n{told}")?,
        Err(Stop::NoMemory) => println!(rt; "case {number}: out of memory")?,
    }
    Ok(false)
}

/// Compares a case; if it differs, says so, and what it was.
fn compare_case<R: Print + AllocGlobal>(
    rt: &R,
    places: &Places,
    number: u64,
    counts: &mut Counts,
) -> io::Result<bool> {
    let mut made = Made::new(rt.alloc(), number);
    let compared = made.compare(rt.alloc(), places, counts);
    counts.count_case();
    tell_case(rt, number, compared, made.told.as_str())
}

/// Says what was compared.
fn tell<R: Print + AllocGlobal>(rt: &R, counts: &Counts) -> io::Result<()> {
    let told = counts.told(rt.alloc())?;
    println!(rt; "{told}")
}

/// Compares cases, one after another, up to the first that differs, and says whether there was none.
fn compare_range<R: Print + AllocGlobal>(
    rt: &R,
    places: &Places,
    range: Range,
) -> io::Result<bool> {
    let mut counts = Counts::new();
    for step in 0..range.count {
        if !compare_case(rt, places, range.first.wrapping_add(step), &mut counts)? {
            return Ok(false);
        }
        if counts.cases % OFTEN == 0 {
            tell(rt, &counts)?;
        }
    }
    tell(rt, &counts)?;
    Ok(true)
}

/// Compares cases as `compare_range` does, at all places.
pub fn compare_all<R: Print + AllocGlobal>(rt: &R, range: Range) -> io::Result<bool> {
    let places = Places::new(rt.alloc())?;
    let compared = compare_range(rt, &places, range);
    drop(places);
    compared
}
