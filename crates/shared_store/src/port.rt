//! A client's way to a shared store.
ghost use Rattle.std.specs.Prelude.{◌≡◌, false};
ghost use Rattle.std.proofs.Props.{props};
ghost use Rattle.turn_cell.specs.Owners.{IsOwner};
ghost use Rattle.turn_cell.specs.Passes.{known, IsPassOf};
ghost use Rattle.shared_store.specs.Ports.{port_view};

use crate::legal_store::LegalStore;
use std::sync::Wait;
use store_api::{
    Base, Gone, GoneAt, Got, Key, Listed, New, ObjectStore, Over, Part, Polite, StoreFault,
    Version, Viewed, Why,
};
use turn_cell::{Pass, TurnCell};

/// One client's way to a shared store, and a store itself. It takes the turn for each operation, and may wait for it.
///
/// After an operation the journal, where the store tells it, is what the port's pass had seen, then polite events of
/// clients whose numbers the pass hasn't, and then this operation's event, which is missing exactly where memory ran
/// out. The count of faults is the store's as the pass last saw it.
#[derive(Drop)]
pub struct Port<'a, S: Base, R> {
    pub(crate) cell: &'a TurnCell<LegalStore<S>>,
    pub(crate) rt: &'a R,
    pub(crate) pass: Pass<LegalStore<S>>,
    pub(crate) client: u32,
    ghost of_cell: { IsPassOf cell.now pass },
    ghost idle: { (known pass).has_turn ≡ false },
    ghost inside: { IsOwner (known pass).owners client } by { Prim.hlevel props },
}

impl<'a, S: Base, R: Wait> Viewed for Port<'a, S, R> {
    ghost view = { λ p. port_view S.tells p.client p.pass };
}

impl<'a, S: Base, R: Wait> ObjectStore<Polite> for Port<'a, S, R> {
    fn get(&mut self, key: &Key) -> Result<Got, StoreFault> {
        let mut held = self.cell.take(self.rt, &mut self.pass);
        held.tell();
        let result = held.get(self.client, key);
        self.cell.give(&mut self.pass, held);
        result
    }

    fn put_new(&mut self, key: &Key, bytes: &[u8], why: Why) -> Result<New, StoreFault> {
        let mut held = self.cell.take(self.rt, &mut self.pass);
        held.tell();
        let result = held.put_new(self.client, key, bytes, why);
        self.cell.give(&mut self.pass, held);
        result
    }

    fn put_over(
        &mut self,
        key: &Key,
        bytes: &[u8],
        old: Version,
        why: Why,
    ) -> Result<Over, StoreFault> {
        let mut held = self.cell.take(self.rt, &mut self.pass);
        held.tell();
        let result = held.put_over(self.client, key, bytes, old, why);
        self.cell.give(&mut self.pass, held);
        result
    }

    fn remove(&mut self, key: &Key, why: Why) -> Result<Gone, StoreFault> {
        let mut held = self.cell.take(self.rt, &mut self.pass);
        held.tell();
        let result = held.remove(self.client, key, why);
        self.cell.give(&mut self.pass, held);
        result
    }

    fn remove_at(&mut self, key: &Key, old: Version, why: Why) -> Result<GoneAt, StoreFault> {
        let mut held = self.cell.take(self.rt, &mut self.pass);
        held.tell();
        let result = held.remove_at(self.client, key, old, why);
        self.cell.give(&mut self.pass, held);
        result
    }

    fn list(&mut self, part: Part) -> Result<Listed, StoreFault> {
        let mut held = self.cell.take(self.rt, &mut self.pass);
        held.tell();
        let result = held.list(self.client, part);
        self.cell.give(&mut self.pass, held);
        result
    }
}
