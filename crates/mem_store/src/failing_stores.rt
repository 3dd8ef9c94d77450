//! Whole stores in which an operation can be made to fail.

ghost use Rattle.std.specs.Prelude.{◌≡◌, ℕ, Bool, true, false, length, IfOk, Result as Or};
ghost use Rattle.object_store.specs.declared.events.Op.{Op};
ghost use Rattle.object_store.specs.declared.events.Reply.{Reply as TheReply};
ghost use Rattle.object_store.specs.declared.events.StoreFault.{StoreFault as TheFault};
ghost use Rattle.object_store.specs.Callers.{Called, Fits, as_client};
ghost use Rattle.object_store.specs.Callers.{has_failed};
ghost use Rattle.mem_store.specs.Lent.{op_lent};
ghost use Rattle.mem_store.specs.Failing.{MadeFail};

use crate::requests::OpRef;
use object_store::{ObjectStore, Reply, Rule, StoreFault, WholeStore};

/// A whole store that tells its journal.
pub trait Telling: WholeStore {
    /// What a change of the client did exactly.
    ghost serves: { ℕ → Self → Self → Type 0 };

    /// How many events there were.
    fn events(&self) -> usize
        ensures { result ≡ length (Self.view self.now).seen };

    /// Makes the next operations those of this client.
    fn serve(&mut self, client: u32)
        ensures view { Self.view self.new ≡ as_client client (Self.view self.old) }
        ensures exact { serves client self.old self.new };

    /// Each of them tells its journal.
    ghost says: { Self.tells ≡ true };
}

/// A whole store that tells its journal, and in which an operation can be made to fail. Its operations are made here by
/// one call, which says exactly what they did.
pub trait Failing<R: Rule>: ObjectStore<R> + Telling {
    /// What an operation did exactly: its reply or its fault, and the store before and after it.
    ghost does: { Op → Or TheReply TheFault → Self → Self → Type 0 };

    /// What an operation did exactly that was made to fail, and that was done first or not.
    ghost fails: { Bool → Op → TheFault → Self → Self → Type 0 };

    /// Makes an operation.
    fn make(&mut self, op: &OpRef<'_>) -> Result<Reply, StoreFault>
        ensures called { Called R.may (λ reply. reply) (op_lent op.now) result (Self.view self.old)
            (Self.view self.new) }
        ensures exact { does (op_lent op.now) result self.old self.new }
        ensures fits { IfOk result (Fits (op_lent op.now)) }
        ensures answered { IfOk result (λ reply. has_failed reply ≡ false) };

    /// Makes an operation fail. The failure is one event, and the operation was done first or not.
    fn fail(&mut self, op: &OpRef<'_>, done: bool) -> StoreFault
        ensures failed { MadeFail R.may done (op_lent op.now) result (Self.view self.old)
            (Self.view self.new) }
        ensures exact { fails done (op_lent op.now) result self.old self.new };
}
