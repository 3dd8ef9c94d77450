//! Locks of files, which the system keeps.

use crate::faults::{done, refused};
use crate::system::{check_same, look};
use crate::{Call, Cause, Kind, Trouble, failed};
use std::fs::{File, OpenOptions, TryLockError};
use std::io::ErrorKind;
use std::rt::Files;

/// An advisory lock on a file, which the system holds until this value is dropped or the program ends in whatever way.
#[derive(Drop)]
pub struct Lock {
    file: File,
}

/// Opens the file of the lock that stands there, if it is a plain one.
fn open_standing<R: Files>(rt: &R, path: &str) -> Result<R::File, Trouble> {
    match look(rt, path)? {
        Some(seen) if seen.kind == Kind::File => {
            let opened = OpenOptions::new().write(true).open(rt, path);
            let file = done(Call::Open, opened)?;
            check_same(&file, &seen)?;
            Ok(file)
        }
        Some(_) => Err(failed(Call::Lock, Cause::NotFile)),
        None => Err(failed(Call::Lock, Cause::Changed)),
    }
}

/// Opens the file of the lock, which is made where nothing is.
fn open_file<R: Files>(rt: &R, path: &str) -> Result<R::File, Trouble> {
    let made = OpenOptions::new()
        .write(true)
        .create_new(true)
        .open(rt, path);
    match made {
        Ok(file) => Ok(file),
        Err(error) if error.kind() == ErrorKind::AlreadyExists => open_standing(rt, path),
        Err(error) => Err(refused(Call::Open, &error)),
    }
}

impl Lock {
    /// Locks the plain file at this path, which is made where nothing is. There is none where another program holds it.
    pub fn of<R: Files<File = File>>(rt: &R, path: &str) -> Result<Option<Lock>, Trouble> {
        let file = open_file(rt, path)?;
        match file.try_lock() {
            Ok(()) => Ok(Some(Lock { file })),
            Err(TryLockError::WouldBlock) => Ok(None),
            Err(TryLockError::Error(error)) => Err(refused(Call::Lock, &error)),
        }
    }
}
