//! Threads that take turns at a value.

ghost use Rattle.std.specs.Prelude.{◌≡◌, ℕ, ◌≤◌, ◌<◌, false, []};
ghost use Rattle.std.specs.Thread.{IsSync};
ghost use Rattle.turn_cell.specs.declared.known.Owners.{Owners};
ghost use Rattle.turn_cell.specs.Owners.{IsOwner, all_owners};
ghost use Rattle.turn_cell.specs.SeenJournals.{Grows};
ghost use Rattle.turn_cell.specs.Passes.{known, IsPassOf};

use std::alloc::Global;
use std::sync::Wait;
use std::test::Fail;
use std::thread::{Threads, join};
use test_ends::holds;
use turn_cell::{Journaled, Pass, TurnCell};

// A value with something to do in a turn.
trait Work: Journaled {
    fn work(&mut self, number: u32)
        ensures journal { (owners : Owners) → IsOwner owners number
            → Grows Self.owner owners (Self.journal self.old) (Self.journal self.new) }
        ensures count { Self.count self.old ≤ Self.count self.new };
}

// A number, which tells no journal.
#[derive(Drop)]
struct Tally(u64);

impl Journaled for Tally {
    type Entry = u32;

    ghost journal = { λ tally. [] };

    ghost owner = { λ number. number };

    ghost count = { λ tally. tally.0 };
}

impl Work for Tally {
    fn work(&mut self, number: u32) {
        self.0 = self.0.saturating_add(1);
    }
}

// The numbers of those that had a turn.
#[derive(Drop)]
struct Diary {
    numbers: Vec<u32>,
}

impl Journaled for Diary {
    type Entry = u32;

    ghost journal = { λ diary. diary.numbers.items };

    ghost owner = { λ number. number };

    ghost count = { λ diary. 0 };
}

impl Work for Diary {
    fn work(&mut self, number: u32) {
        let _ = self.numbers.push(number);
    }
}

fn work_once<W: Work, R: Wait>(rt: &R, cell: &TurnCell<W>, pass: &mut Pass<W>, number: u32)
    requires cell { IsPassOf cell.now pass.old }
    requires idle { (known pass.old).has_turn ≡ false }
    requires own { IsOwner (known pass.old).owners number }
    ensures cell { IsPassOf cell.now pass.new }
    ensures idle { (known pass.new).has_turn ≡ false }
    ensures owners { (known pass.new).owners ≡ (known pass.old).owners }
{
    let mut value = cell.take(rt, pass);
    value.work(number);
    cell.give(pass, value);
}

fn work_often<W: Work, R: Wait>(
    rt: &R,
    cell: &TurnCell<W>,
    pass: Pass<W>,
    number: u32,
    times: u32,
) -> Pass<W>
    requires cell { IsPassOf cell.now pass }
    requires idle { (known pass).has_turn ≡ false }
    requires own { IsOwner (known pass).owners number }
    ensures cell { IsPassOf cell.now result }
    ensures idle { (known result).has_turn ≡ false }
    ensures owners { (known result).owners ≡ (known pass).owners }
{
    let mut pass = pass;
    for _ in 0..times {
        work_once(rt, cell, &mut pass, number);
    }
    pass
}

// The numbers up to `last` work at once, each so many times.
fn work_at_once<W: Work + Send, R: Threads + Wait + Sync>(
    rt: &R,
    cell: &TurnCell<W>,
    pass: Pass<W>,
    last: u32,
    times: u32,
) -> Pass<W>
    requires cell { IsPassOf cell.now pass }
    requires idle { (known pass).has_turn ≡ false }
    requires least { (known pass).owners.low ≡ 0 }
    requires own { IsOwner (known pass).owners last }
    ensures cell { IsPassOf cell.now result }
    ensures idle { (known result).has_turn ≡ false }
    ensures owners { (known result).owners ≡ (known pass).owners }
{
    if last == 0 {
        return work_often(rt, cell, pass, 0, times);
    }
    let mut pass = pass;
    let own = cell.split(&mut pass, last);
    let before = last - 1;
    let (mut pass, own) = join(
        rt,
        move || -> Pass<W>
            requires { IsSync R.row × IsPassOf cell.now pass × ((known pass).has_turn ≡ false)
                × ((known pass).owners.low ≡ 0) × IsOwner (known pass).owners before }
            ensures { IsPassOf cell.entry.now result × ((known result).has_turn ≡ false)
                × ((known result).owners ≡ (known pass).owners) }
        { work_at_once(rt, cell, pass, before, times) },
        move || -> Pass<W>
            requires { IsSync R.row × IsPassOf cell.now own × ((known own).has_turn ≡ false)
                × IsOwner (known own).owners last }
            ensures { IsPassOf cell.entry.now result × ((known result).has_turn ≡ false)
                × ((known result).owners ≡ (known own).owners) }
        { work_often(rt, cell, own, last, times) },
    );
    cell.join(&mut pass, own);
    pass
}

/// What two threads count to that begin at 3, if there was memory.
fn counted_by_two<R: Threads + Wait + Sync>(rt: &R, alloc: Global) -> u64 {
    match TurnCell::new(alloc, Tally(3)) {
        Ok((cell, pass)) => {
            let pass = work_at_once(rt, &cell, pass, 1, 20_000);
            cell.close(rt, pass).0
        }
        Err((tally, _)) => tally.0,
    }
}

#[test]
fn two_threads_take_turns(rt: HostRuntime) -> Result<(), Fail> {
    holds(counted_by_two(&rt, rt.alloc()) == 40_003, "two threads")
}

fn empty_diary(alloc: Global) -> Diary {
    Diary {
        numbers: Vec::new(alloc),
    }
}

/// The numbers of ten threads that take turns, if there was memory.
fn numbers_of_ten<R: Threads + Wait + Sync>(rt: &R, alloc: Global) -> Option<Vec<u32>> {
    let (cell, pass) = TurnCell::new(alloc, empty_diary(alloc)).ok()?;
    let pass = work_at_once(rt, &cell, pass, 9, 300);
    Some(cell.close(rt, pass).numbers)
}

/// How often a number is there.
fn count_of(numbers: &[u32], number: u32) -> usize {
    let mut count: usize = 0;
    for other in numbers {
        if *other == number {
            count = count.saturating_add(1);
        }
    }
    count
}

/// Whether each of ten numbers is there 300 times, and no other.
fn are_turns_of_ten(numbers: &[u32]) -> bool {
    for number in 0..10 {
        if count_of(numbers, number) != 300 {
            return false;
        }
    }
    numbers.len() == 3_000
}

#[test]
fn ten_threads_take_turns(rt: HostRuntime) -> Result<(), Fail> {
    match numbers_of_ten(&rt, rt.alloc()) {
        Some(numbers) => holds(are_turns_of_ten(numbers.as_slice()), "turns"),
        None => holds(false, "no memory"),
    }
}

/// The numbers of those that had turns, where passes are joined in another order than they were split, if there was memory.
fn numbers_of_three<R: Wait>(rt: &R, alloc: Global) -> Option<Vec<u32>> {
    let (cell, mut first) = TurnCell::new(alloc, empty_diary(alloc)).ok()?;
    let mut third = cell.split(&mut first, 20);
    work_once(rt, &cell, &mut third, 25);
    let mut second = cell.split(&mut first, 10);
    work_once(rt, &cell, &mut second, 15);
    work_once(rt, &cell, &mut first, 5);
    cell.join(&mut second, third);
    work_once(rt, &cell, &mut second, 20);
    cell.join(&mut first, second);
    work_once(rt, &cell, &mut first, 17);
    Some(cell.close(rt, first).numbers)
}

#[test]
fn passes_are_joined_in_another_order(rt: HostRuntime) -> Result<(), Fail> {
    match numbers_of_three(&rt, rt.alloc()) {
        Some(numbers) => holds(
            numbers.as_slice() == [25, 15, 5, 20, 17].as_slice(),
            "turns",
        ),
        None => holds(false, "no memory"),
    }
}
