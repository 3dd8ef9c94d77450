//! The store in memory as one in which an operation can be made to fail.

ghost use Rattle.std.specs.Prelude.{refl};
ghost use Rattle.mem_store.specs.Memory.{Exactly, Fails, Serves};

use crate::MemStore;
use crate::failing_stores::{Failing, Telling};
use crate::kept_events::Answer;
use crate::requests::OpRef;
use ice_base::Clock;
use object_store::{ObjectStore, Reply, Rule, StoreFault, WholeStore};

impl<C: Clock> Telling for MemStore<C> {
    ghost serves = { λ client old new. Serves client old new };

    fn events(&self) -> usize {
        self.number_of_events()
    }

    fn serve(&mut self, client: u32) {
        self.set_client(client);
    }

    ghost says = { refl };
}

impl<C: Clock, R: Rule> Failing<R> for MemStore<C> {
    ghost does = { λ op result old new. Exactly C.gives (λ reply. reply) op result old new };

    ghost fails = { λ done op fault old new. Fails C.gives done op fault old new };

    fn make(&mut self, op: &OpRef<'_>) -> Result<Reply, StoreFault> {
        match op {
            OpRef::Get { key } => ObjectStore::<R>::get(self, key).map(Reply::Got),
            OpRef::PutNew { key, bytes, why } => ObjectStore::<R>::put_new(
                self, key, bytes, *why,
            ).map(Reply::New),
            OpRef::PutOver {
                key,
                bytes,
                old,
                why,
            } => ObjectStore::<R>::put_over(self, key, bytes, *old, *why).map(Reply::Over),
            OpRef::Remove { key, why } => ObjectStore::<R>::remove(self, key, *why).map(
                Reply::Gone,
            ),
            OpRef::RemoveAt { key, old, why } => {
                ObjectStore::<R>::remove_at(self, key, *old, *why).map(Reply::GoneAt)
            }
            OpRef::List { part } => ObjectStore::<R>::list(self, *part).map(Reply::Listed),
        }
    }

    fn fail(&mut self, op: &OpRef<'_>, done: bool) -> StoreFault {
        let op = op.owned(self.allocator());
        match self.log(op, Answer::Failed(done)) {
            Ok(_) => StoreFault::Failed,
            Err(fault) => fault,
        }
    }
}
