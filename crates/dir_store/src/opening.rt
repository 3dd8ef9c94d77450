//! The opening of a directory for a run of a program.

ghost use Rattle.std.specs.Prelude.{IfOk};
ghost use Rattle.dir_store.specs.Store.{IsNewIn};

use crate::claims::Claim;
use crate::faults::OpenFault;
use crate::losing::is_main_lost;
use crate::seeds::random_seed;
use crate::store::{DirStore, of_listed};
use folder::SystemFolder;
use ice_base::Clock;
use std::fs::File;
use std::rt::Files;
use whole_files::in_memory;

/// What a run over a directory needs.
#[derive(Drop)]
pub struct Opened<R: Files, C> {
    /// The claim, to be kept as long as the store is used.
    pub claim: Claim,
    /// The store.
    pub store: DirStore<R, C>,
    /// 32 random bytes, for the drawing of ids.
    pub seed: [u8; 32],
    /// Whether the branch `main` isn't there, though other refs or snapshots are.
    pub main_is_lost: bool,
}

/// Opens the directory at this path: it is listed, and then claimed, so that no other program that
/// claims it uses it as long as the claim is kept.
pub fn open<R: Files<File = File> + AllocGlobal + Clone + Drop, C: Clock + Drop>(
    rt: R,
    path: &str,
    clock: C,
) -> Result<Opened<R, C>, OpenFault>
    ensures { IfOk result (λ opened. IsNewIn path.now clock opened.store) }
{
    let claim = Claim::of(&rt, path)?;
    let seed = random_seed(&rt)?;
    let tree = in_memory(SystemFolder::at(in_memory(rt.clone())?, path))?;
    let main_is_lost = is_main_lost(&tree, rt.alloc(), path)?;
    let store = in_memory(of_listed(rt, path, clock))?;
    Ok(Opened {
        claim,
        store,
        seed,
        main_is_lost,
    })
}
