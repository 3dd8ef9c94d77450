//! The cell and the calls on it.
ghost use Rattle.std.specs.Prelude.{◌≡◌, ℕ, ◌<◌, ◌≤◌, [], ◌∷◌, true, false, Some, None, IfOk, IfErr, IfSome, IfNone};

use crate::journaled::Journaled;
use crate::known::Sight;
use crate::pass::{Pass, Token};
use crate::rule::{Both, Cut, Give, Look, Parts, Take, Turns};
use atomic_table::Table;
use std::alloc::{AllocError, Global};
use std::marker::Brand;
use std::snapshot::Snapshot;
use std::sync::Wait;
use std::sync::atomic::{AtomicU64, Ordering};
use std::thread::Parker;

// The cell's one word says whether a pass has the turn.
const FREE: u64 = 0;

const TAKEN: u64 = 1;

/// Keeps one value, and lends it to whoever has the turn.
///
/// Threads share it by reference. Whoever has a [`Pass`] of it may `take` the value, change it and `give` it back; no
/// other pass has the value in between.
#[derive(Drop)]
pub struct TurnCell<T: Journaled> {
    pub(crate) table: Table<Option<T>, Sight<T::Entry>, Snapshot<T>, Turns, Global>,
    // How many callers sleep, or are about to. Nobody is woken where none does: a wake is a call of the system.
    waiting: AtomicU64,
    ghost sized: { (table.shared.table_id.words ≡ 1) × (table.shared.table_id.slots ≡ 1) },
}

impl<T: Journaled> TurnCell<T> {
    ghost use Rattle.turn_cell.specs.Owners.{IsOwner, Adjoins, all_owners, lower_part, upper_part};
    ghost use Rattle.turn_cell.specs.SeenJournals.{Follows, Grows, starting, joined};
    ghost use Rattle.turn_cell.specs.Passes.{known, IsPassOf};

    /// A cell with this value. The pass has seen the value's journal and count, and it has all owner numbers. Where there
    /// is no memory, the value comes back.
    pub fn new(alloc: Global, value: T) -> Result<(TurnCell<T>, Pass<T>), (T, AllocError)>
        ensures cell { IfOk result (λ made. IsPassOf made.0 made.1) }
        ensures pass { IfOk result (λ made. known made.1 ≡ starting (T.journal value)
            (T.count value)) }
        ensures err { IfErr result (λ refused. refused.0 ≡ value) }
    {
        let about = Snapshot::of(&value);
        let slots = match slots_of(alloc, value) {
            Ok(slots) => slots,
            Err(value) => return Err((value, AllocError)),
        };
        match Table::new(alloc, &[FREE], slots, &about) {
            Ok((table, seat)) => {
                let waiting = AtomicU64::new(0);
                Ok((TurnCell { table, waiting }, Token { seat }))
            }
            Err(refused) => Err((value_of(refused.slots, &about), AllocError)),
        }
    }

    // What cuts a view in two is a type and sees no argument, so `C` has the place of the cut as a ghost member.
    fn split_at<C: Cut>(&self, pass: &mut Pass<T>, at: u32) -> Pass<T>
        requires here { at ≡ C.at }
        requires cell { IsPassOf self.now pass.old }
        requires idle { (known pass.old).has_turn ≡ false }
        requires own { IsOwner (known pass.old).owners at }
        requires above { (known pass.old).owners.low < at }
        ensures cell { IsPassOf self.now pass.new × IsPassOf self.now result }
        ensures lower { known pass.new
            ≡ record (known pass.old) { owners = lower_part at (known pass.old).owners } }
        ensures upper { known result ≡ record (known pass.old)
            { owners = upper_part at (known pass.old).owners } }
    {
        let _ = at;
        let seat = self.table.shared.split_seat::<Parts<C>>(&mut pass.seat);
        Token { seat }
    }

    /// Cuts the pass's range of owner numbers in two. The new pass has the numbers from `at` on, and the old one keeps
    /// those below. Both have seen what the old one had seen.
    pub fn split(&self, pass: &mut Pass<T>, at: u32) -> Pass<T>
        requires cell { IsPassOf self.now pass.old }
        requires idle { (known pass.old).has_turn ≡ false }
        requires own { IsOwner (known pass.old).owners at }
        requires above { (known pass.old).owners.low < at }
        ensures cell { IsPassOf self.now pass.new × IsPassOf self.now result }
        ensures lower { known pass.new
            ≡ record (known pass.old) { owners = lower_part at (known pass.old).owners } }
        ensures upper { known result ≡ record (known pass.old)
            { owners = upper_part at (known pass.old).owners } }
    {
        self.split_at::<Brand>(pass, at)
    }

    /// Makes one pass of two whose ranges of owner numbers lie side by side. It has both ranges, the greater count and
    /// the longer journal. The shorter journal is a prefix of the longer one, and no entry past it has an owner in the range of
    /// the pass that had the shorter one.
    pub fn join(&self, pass: &mut Pass<T>, other: Pass<T>)
        requires cell { IsPassOf self.now pass.old × IsPassOf self.now other }
        requires idle { ((known pass.old).has_turn ≡ false) × ((known other).has_turn ≡ false) }
        requires side_by_side { Adjoins (known pass.old).owners (known other).owners }
        ensures cell { IsPassOf self.now pass.new }
        ensures both { known pass.new ≡ joined (known pass.old) (known other) }

        // The joined journal is what each of the two had seen, and then entries of others.
        ensures first { Follows T.owner (known pass.old).owners (known pass.old).journal
            (known pass.new).journal }
        ensures second { Follows T.owner (known other).owners (known other).journal
            (known pass.new).journal }
    {
        let Token { seat } = other;
        self.table.shared.join_seat::<Both>(&mut pass.seat, seat);
        self.table.shared.load::<Look>(&mut pass.seat, 0);
    }

    // Takes the turn and the value, unless another pass has the turn.
    fn try_take(&self, pass: &mut Pass<T>) -> Option<T>
        requires cell { IsPassOf self.now pass.old }
        requires idle { (known pass.old).has_turn ≡ false }
        ensures cell { IsPassOf self.now pass.new }
        ensures journal { IfSome result
            (λ value. Follows T.owner (known pass.old).owners (known pass.old).journal (T.journal value)) }
        ensures count { IfSome result (λ value. (known pass.old).count ≤ T.count value) }
        ensures turn { IfSome result (λ value. known pass.new
            ≡ record (known pass.old) { journal = T.journal value; count = T.count value; has_turn = true }) }
        ensures none { IfNone result (known pass.new ≡ known pass.old) }
    {
        let shared = &self.table.shared;
        let found = shared.compare_exchange::<Take>(&mut pass.seat, 0, FREE, TAKEN);
        if found != FREE {
            return None;
        }
        shared.exchange(&mut pass.seat, 0, None)
    }

    /// Takes the turn and the value. It may wait for the turn, and sleeps as long as another pass has it.
    ///
    /// The value's journal begins with what the pass had seen, and no entry past that has an owner in the pass's range. Its
    /// count is at least the one that the pass had seen. The pass has seen that journal and that count from then on.
    pub fn take<R: Wait>(&self, rt: &R, pass: &mut Pass<T>) -> T
        requires cell { IsPassOf self.now pass.old }
        requires idle { (known pass.old).has_turn ≡ false }
        ensures cell { IsPassOf self.now pass.new }
        ensures journal { Follows T.owner (known pass.old).owners (known pass.old).journal
            (T.journal result) }
        ensures count { (known pass.old).count ≤ T.count result }
        ensures turn { known pass.new
            ≡ record (known pass.old) { journal = T.journal result; count = T.count result; has_turn = true } }
    {
        for _ in rt.forever() {
            if let Some(value) = self.try_take(pass) {
                return value;
            }
            self.wait(rt);
        }
        unreachable!()
    }

    // Sleeps while the turn is taken, or returns at once. Who gives the turn back meanwhile either finds that someone waits, or has
    // freed it before this looks.
    fn wait<R: Wait>(&self, rt: &R) {
        self.waiting.fetch_add(1, Ordering::SeqCst);
        self.table.shared.park(rt, 0, TAKEN as u32);
        self.waiting.fetch_sub(1, Ordering::SeqCst);
    }

    /// Gives the value and the turn back, and wakes one caller that waits for the turn, if there is one.
    ///
    /// The value may be another one than was taken. Its journal has to begin with the journal at the taking and go on with
    /// entries of the pass's own range alone, and its count may not have fallen. The pass has then seen all of it.
    pub fn give(&self, pass: &mut Pass<T>, value: T)
        requires cell { IsPassOf self.now pass.old }
        requires turn { (known pass.old).has_turn ≡ true }
        requires journal { Grows T.owner (known pass.old).owners (known pass.old).journal
            (T.journal value) }
        requires count { (known pass.old).count ≤ T.count value }
        ensures cell { IsPassOf self.now pass.new }
        ensures seen { known pass.new
            ≡ record (known pass.old) { journal = T.journal value; count = T.count value; has_turn = false } }
    {
        let shared = &self.table.shared;
        let before = shared.exchange(&mut pass.seat, 0, Some(value));
        let None = before else {
            unreachable!();
        };
        shared.store::<Give>(&mut pass.seat, 0, FREE);
        if self.waiting.load(Ordering::SeqCst) > 0 {
            shared.wake_one(0);
        }
    }

    /// Takes the value for good, with the promise of `take`. Where the pass has all owner numbers, the value's journal is
    /// exactly what the pass had seen.
    ///
    /// No other thread can be in the middle of a turn, since the cell is given up. So it waits only where some other
    /// pass has the turn and never gave it back, and then it waits for ever.
    pub fn close<R: Wait>(self, rt: &R, pass: Pass<T>) -> T
        requires cell { IsPassOf self pass }
        requires idle { (known pass).has_turn ≡ false }
        ensures journal { Follows T.owner (known pass).owners (known pass).journal
            (T.journal result) }
        ensures count { (known pass).count ≤ T.count result }
        ensures whole { (known pass).owners ≡ all_owners → T.journal result ≡ (known pass).journal }
    {
        let TurnCell { table, waiting } = self;
        drop(waiting);
        let Token { seat } = pass;
        let mut closed = table.close_with(seat);
        wait_unless_free(rt, closed.word(0));
        let value = closed.take(0);
        closed.free();
        value.unwrap()
    }
}

// The one slot, with the value. Where there is no memory, the value comes back.
fn slots_of<T>(alloc: Global, value: T) -> Result<Vec<Option<T>>, T>
    ensures ok { IfOk result (λ slots. slots.items ≡ Some value ∷ []) }
    ensures err { IfErr result (λ refused. refused ≡ value) }
{
    let mut slots = Vec::new(alloc);
    match slots.push(Some(value)) {
        Ok(()) => Ok(slots),
        Err(failed) => {
            slots.destroy_empty();
            Err(failed.value.unwrap())
        }
    }
}

fn value_of<T>(mut slots: Vec<Option<T>>, about: &Snapshot<T>) -> T
    requires { slots.items ≡ Some about.now.value ∷ [] }
    ensures { result ≡ about.now.value }
{
    let last = slots.pop();
    slots.destroy_empty();
    last.unwrap().unwrap()
}

// Returns where no pass has the turn. Else nobody can give it back any more, and it sleeps for ever.
fn wait_unless_free<R: Wait>(rt: &R, word: u64)
    ensures { word ≡ FREE }
{
    if word == FREE {
        return;
    }
    let never = Parker::new();
    for _ in rt.forever() {
        never.park(rt);
    }
    unreachable!()
}
