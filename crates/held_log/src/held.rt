ghost use Rattle.std.specs.Prelude.{◌≡◌, IsOk};
ghost use Rattle.zarr_tree.specs.Touched.{IsOrdered};
ghost use Rattle.txn_file.specs.Logs.{log_of, txn_of};
ghost use Rattle.held_manifest.specs.Files.{Checks};
ghost use Rattle.held_log.specs.Files.{IsHeldAs, RootOf, log_or_empty};

use crate::lists::{HeldLists, held_lists, lists_of};
use file_fields::{id12_of, payload_in};
use flat_tables::{FileFault, Kind, Table};
use ice_base::Bytes;
use ice_ids::Id12;
use std::marker::Model;

/// The file of a transaction log. Contracts see it as the log that the file stands for.
#[derive(Debug, Drop)]
pub struct HeldLog {
    file: Bytes,
}

impl Model for HeldLog {
    ghost use Rattle.std.specs.Prelude.{IsOk};
    ghost use Rattle.txn_file.specs.declared.log.TxnFile.{TxnFile};
    ghost use Rattle.txn_file.specs.Logs.{txn_of};
    ghost use Rattle.held_log.specs.Files.{log_or_empty};

    ghost Value = { TxnFile };

    ghost view = { λ h. log_or_empty (txn_of h.file) };

    ghost invariant = { λ h. IsOk (txn_of h.file) };
}

/// Whether a payload says a log; else its first fault.
#[tactic(auto, unfolding(txn_file::specs::Logs::log_of))]
fn check_payload(payload: &[u8]) -> Result<(), FileFault>
    ensures { Checks result (log_of payload.now) }
{
    let table = Table::root(payload)?;
    let _id = id12_of(&table, 0)?;
    let _lists = lists_of(&table)?;
    Ok(())
}

/// Whether a file stands for a log; else its first fault.
#[tactic(auto, using(file_fields::proofs::Payloads::read_is, file_fields::proofs::Payloads::fault_is), unfolding(txn_file::specs::Logs::txn_of))]
fn check_file(file: &[u8]) -> Result<(), FileFault>
    ensures { Checks result (txn_of file.now) }
{
    check_payload(payload_in(Kind::Log, file)?)
}

/// Holds the file of a transaction log, or gives it back with the fault that reading it would answer. It takes no memory.
/// (Icechunk specification version 1, "Transaction log"; the order of faults is own.)
#[tactic(auto, using(crate::proofs::Parts::log_ok, crate::proofs::NoMemory::never_memory))]
pub fn hold(file: Bytes) -> Result<HeldLog, (Bytes, FileFault)>
    ensures { IsHeldAs file result }
{
    match check_file(file.as_slice()) {
        Ok(()) => Ok(HeldLog { file }),
        Err(fault) => Err((file, fault)),
    }
}

/// The root table of a file that stands for a log.
fn root(file: &[u8]) -> Table<'_>
    requires { IsOk (txn_of file.now) }
    ensures { RootOf file.now result }
{
    let payload = payload_in(Kind::Log, file).unwrap();
    Table::root(payload).unwrap()
}

impl HeldLog {
    /// The log's id, which is that of its snapshot.
    pub fn id(&self) -> Id12
        ensures { result ≡ self.now.id }
    {
        id12_of(&root(self.file.as_slice()), 0).unwrap()
    }

    /// What the log's commit changed, by ids of nodes: lists that stand in order.
    pub fn lists(&self) -> HeldLists<'_>
        ensures lists { result ≡ self.now.lists }
        ensures order { IsOrdered result }
    {
        held_lists(&root(self.file.as_slice()))
    }
}
