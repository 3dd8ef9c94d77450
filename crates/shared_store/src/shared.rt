//! A store that several callers share.
ghost use Rattle.std.specs.Prelude.{◌≡◌, ◌<◌, ◌≤◌, true, false, IfOk, IfErr};
ghost use Rattle.store_api.specs.Journal.{IsGoodJournal};
ghost use Rattle.turn_cell.specs.Owners.{IsOwner, Adjoins, all_owners, lower_part, upper_part};
ghost use Rattle.turn_cell.specs.SeenJournals.{Follows, starting, joined};
ghost use Rattle.turn_cell.specs.Passes.{known, IsPassOf};
ghost use Rattle.shared_store.specs.Told.{told, client_of};

use crate::legal_store::LegalStore;
use crate::port::Port;
use std::alloc::{AllocError, Global};
use std::sync::Wait;
use store_api::Base;
use turn_cell::{Pass, TurnCell};

/// A store that several clients share, each through a port of its own. Threads share it by reference, where the store
/// may be sent to another thread.
///
/// A pass of it has seen a part of the journal, as far as the store tells it, and a count of faults, and it has a range
/// of client numbers that no other pass has.
#[derive(Drop)]
pub struct Shared<S: Base> {
    pub(crate) cell: TurnCell<LegalStore<S>>,
}

/// Shares a store whose journal, where the store tells it, is legal and polite. The pass has seen the journal and the
/// count of faults, and it has all client numbers. Where there is no memory, the store comes back.
pub fn share<S: Base>(
    alloc: Global,
    store: S,
) -> Result<(Shared<S>, Pass<LegalStore<S>>), (S, AllocError)>
    requires good { S.tells ≡ true → IsGoodJournal (S.view store).seen }
    ensures cell { IfOk result (λ made. IsPassOf made.0.cell made.1) }
    ensures pass { IfOk result (λ made. known made.1
        ≡ starting (told S.tells (S.view store).seen) (S.view store).faults) }
    ensures err { IfErr result (λ refused. refused.0 ≡ store) }
{
    match TurnCell::new(alloc, LegalStore::new(store)) {
        Ok((cell, pass)) => Ok((Shared { cell }, pass)),
        Err((held, failed)) => Err((held.into_store(), failed)),
    }
}

impl<S: Base> Shared<S> {
    /// Cuts the pass's range of client numbers in two. The new pass has the numbers from `at` on, and the old one keeps
    /// those below. Both have seen what the old one had seen.
    pub fn split(&self, pass: &mut Pass<LegalStore<S>>, at: u32) -> Pass<LegalStore<S>>
        requires cell { IsPassOf self.now.cell pass.old }
        requires idle { (known pass.old).has_turn ≡ false }
        requires own { IsOwner (known pass.old).owners at }
        requires above { (known pass.old).owners.low < at }
        ensures cell { IsPassOf self.now.cell pass.new × IsPassOf self.now.cell result }
        ensures lower { known pass.new
            ≡ record (known pass.old) { owners = lower_part at (known pass.old).owners } }
        ensures upper { known result ≡ record (known pass.old)
            { owners = upper_part at (known pass.old).owners } }
    {
        self.cell.split(pass, at)
    }

    /// Makes one pass of two whose ranges of client numbers lie side by side. It has both ranges, the greater count of
    /// faults and the longer journal, which is what each of the two had seen, and then events of others.
    pub fn join(&self, pass: &mut Pass<LegalStore<S>>, other: Pass<LegalStore<S>>)
        requires cell { IsPassOf self.now.cell pass.old × IsPassOf self.now.cell other }
        requires idle { ((known pass.old).has_turn ≡ false) × ((known other).has_turn ≡ false) }
        requires side_by_side { Adjoins (known pass.old).owners (known other).owners }
        ensures cell { IsPassOf self.now.cell pass.new }
        ensures both { known pass.new ≡ joined (known pass.old) (known other) }
        ensures first { Follows client_of (known pass.old).owners (known pass.old).journal
            (known pass.new).journal }
        ensures second { Follows client_of (known other).owners (known other).journal
            (known pass.new).journal }
    {
        self.cell.join(pass, other);
    }

    /// A port, which makes its operations under this client number.
    pub fn port<'a, R>(
        &'a self,
        rt: &'a R,
        pass: Pass<LegalStore<S>>,
        client: u32,
    ) -> Port<'a, S, R>
        requires cell { IsPassOf self.now.cell pass }
        requires idle { (known pass).has_turn ≡ false }
        requires own { IsOwner (known pass).owners client }
        ensures pass { result.pass ≡ pass }
        ensures client { result.client ≡ client }
    {
        Port {
            cell: &self.cell,
            rt,
            pass,
            client,
        }
    }

    /// The store, given back. Its journal, where the store tells it, is legal and polite and begins with what the pass
    /// had seen. Where the pass has all client numbers, it is exactly that.
    ///
    /// That it returns isn't promised, though no other thread can be in the middle of an operation, since the shared
    /// store is given up.
    pub fn unshare<R: Wait>(self, rt: &R, pass: Pass<LegalStore<S>>) -> S
        requires cell { IsPassOf self.cell pass }
        requires idle { (known pass).has_turn ≡ false }
        ensures good { S.tells ≡ true → IsGoodJournal (S.view result).seen }
        ensures journal { Follows client_of (known pass).owners (known pass).journal
            (told S.tells (S.view result).seen) }
        ensures whole { (known pass).owners ≡ all_owners → told S.tells (S.view result).seen
            ≡ (known pass).journal }
        ensures faults { (known pass).count ≤ (S.view result).faults }
    {
        self.cell.close(rt, pass).into_store()
    }
}

impl<'a, S: Base, R> Port<'a, S, R> {
    /// The pass, given back.
    pub fn into_pass(self) -> Pass<LegalStore<S>>
        ensures pass { result ≡ self.entry.pass }
        ensures idle { (known result).has_turn ≡ false }
    {
        let Port {
            cell: _,
            rt: _,
            pass,
            client: _,
        } = self;
        pass
    }
}
