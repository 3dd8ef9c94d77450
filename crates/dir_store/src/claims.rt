//! The claim of a directory by one program.

ghost use Rattle.std.specs.Prelude.{◌≡◌};
ghost use Rattle.std.specs.IoError.{error_kind, raw_os_error};
ghost use Rattle.dir_store.specs.Faults.{listing_fault};

use crate::clearing::clear;
use crate::faults::OpenFault;
use folder::{Call, Lock, refused};
use std::fs::File;
use std::io::ErrorKind;
use std::rt::Files;
use std::{fs, io};
use whole_files::in_memory;

/// The claim of a directory: an advisory lock on a file in it, which the system holds until this value
/// is dropped or the program ends in whatever way. It binds only programs that claim the directory too.
#[derive(Drop)]
pub struct Claim {
    lock: Lock,
}

/// Why a path can't be listed.
fn listing_fault(error: &io::Error) -> OpenFault
    ensures { result ≡ listing_fault (error_kind error.now) (raw_os_error error.now) }
{
    match error.kind() {
        ErrorKind::NotFound => OpenFault::Missing,
        ErrorKind::NotADirectory => OpenFault::NotDirectory,
        ErrorKind::OutOfMemory => OpenFault::NoMemory,
        _ => OpenFault::from(refused(Call::List, error)),
    }
}

/// Lists a directory, so that it is known to be one.
fn list<R: Files + AllocGlobal + Clone + Drop>(rt: &R, path: &str) -> Result<(), OpenFault> {
    match fs::read_dir(rt, path) {
        Ok(_) => Ok(()),
        Err(error) => Err(listing_fault(&error)),
    }
}

/// Takes the lock.
fn lock<R: Files<File = File> + AllocGlobal>(rt: &R, path: &str) -> Result<Claim, OpenFault> {
    let name = in_memory(format!(in rt.alloc(); "{path}/icerepo.lock"))?;
    match Lock::of(rt, name.as_str())? {
        Some(lock) => Ok(Claim { lock }),
        None => Err(OpenFault::Taken),
    }
}

impl Claim {
    /// Claims the directory at this path: it must be there, since none is made. The file `icerepo.lock`
    /// is made in it where nothing has that name; what isn't a plain file there is refused. What a
    /// program that was cut off has left aside is removed, and what it has left at its place is flushed
    /// to disk.
    pub fn of<R: Files<File = File> + AllocGlobal + Clone + Drop>(
        rt: &R,
        path: &str,
    ) -> Result<Claim, OpenFault> {
        list(rt, path)?;
        let claim = lock(rt, path)?;
        clear(rt, path, &claim)?;
        Ok(claim)
    }
}
