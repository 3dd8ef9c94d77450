//! What tests begin over such a store: a repository, a session.

ghost use Rattle.std.specs.Prelude.{◌≡◌, Ok, is_ok, IfSome};
ghost use Rattle.store_api.specs.Running.{Runs};
ghost use Rattle.repository.specs.Beginning.{begin_program};
ghost use Rattle.session.specs.Opening.{open_rest};
ghost use Rattle.untold_store.specs.Untold.{opens_main, view_of};

use crate::Untold;
use ice_base::RefName;
use ice_ids::AnyIds;
use repository::begin;
use session::{Open, Session};
use std::alloc::Global;
use store_api::{Refusal, run_machine};

/// Whether a call wasn't refused.
pub fn went<T: Drop>(done: Result<T, Refusal>) -> bool
    ensures { result ≡ is_ok done }
{
    let went = done.is_ok();
    drop(done);
    went
}

/// This store with a repository in it, if one was begun.
pub fn begun(alloc: Global, store: Untold) -> Option<Untold>
    ensures { IfSome result (λ made. Runs (view_of store) (view_of made) begin_program (Ok tt)) }
{
    let mut store = store;
    match begin(alloc, &mut store) {
        Ok(()) => Some(store),
        Err(why) => {
            drop(why);
            drop(store);
            None
        }
    }
}

/// A session to write on `main`, which draws these ids, if it was opened.
pub fn opened(alloc: Global, ids: AnyIds, store: &mut Untold) -> Option<Session>
    ensures { IfSome result (λ session. Runs (view_of store.old) (view_of store.new)
        (opens_main ids) (Ok session)) }
{
    let mut open = opening(alloc, ids)?;
    let opened = run_machine(&mut open, store);
    drop(open);
    match opened {
        Ok(session) => Some(session),
        Err(why) => {
            drop(why);
            None
        }
    }
}

/// The opening of a session to write on `main`.
fn opening(alloc: Global, ids: AnyIds) -> Option<Open>
    ensures { IfSome result (λ machine. open_rest machine ≡ opens_main ids) }
{
    let Ok(main) = RefName::main(alloc) else {
        return None;
    };
    match Open::write(alloc, main, ids) {
        Ok(open) => Some(open),
        Err(_) => None,
    }
}
