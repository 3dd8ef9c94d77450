//! The numbers of standard input, standard output and standard error. Where one of them was closed before the program began,
//! the system would give its number to the next file that is opened, and what is meant for the stream would stand there.

ghost use Rattle.std.specs.Prelude.{◌≡◌, IfErr};
ghost use Rattle.ice_cli.specs.Ending.{IsStreamFault};

use std::fs::{File, OpenOptions};
use std::os::fd::AsFd;
use top_call::Status;

/// The system's number for a file that isn't open.
const NOT_OPEN: i32 = 9;

/// What keeps the numbers of closed streams taken.
#[derive(Drop)]
pub struct Kept {
    input: Option<File>,
    error: Option<File>,
}

/// Whether a stream is closed.
fn is_closed<S: AsFd>(stream: &S) -> bool {
    match stream.as_fd().try_clone_to_owned() {
        Ok(_) => false,
        Err(error) => error.raw_os_error() == Some(NOT_OPEN),
    }
}

/// Takes the lowest free number, where a stream is closed. What is read from it fails, as of a closed stream.
fn taken(rt: &HostRuntime, closed: bool, fault: Status) -> Result<Option<File>, Status>
    ensures { IfErr result (λ status. status ≡ fault) }
{
    if !closed {
        return Ok(None);
    }
    match OpenOptions::new().write(true).open(rt, "/dev/null") {
        Ok(file) => Ok(Some(file)),
        Err(_) => Err(fault),
    }
}

/// Keeps the numbers of closed streams taken as long as what it gives is kept. A closed standard output is refused.
pub fn keep_numbers(rt: &HostRuntime) -> Result<Kept, Status>
    ensures { IfErr result IsStreamFault }
{
    if is_closed(&rt.stdout()) {
        return Err(Status::WriteFault);
    }
    let input = taken(rt, is_closed(&rt.stdin()), Status::ReadFault)?;
    let error = taken(rt, is_closed(&rt.stderr()), Status::WriteFault)?;
    Ok(Kept { input, error })
}
