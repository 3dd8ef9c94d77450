//! Why a call on files failed.

ghost use Rattle.std.specs.Prelude.{◌≡◌, Some, Ok, Err, IfErr, IfOk, MatchResult};
ghost use Rattle.std.specs.IoError.{error_kind, raw_os_error};
ghost use Rattle.folder.specs.declared.faults.FileFault.TheVariants as FileFault;
ghost use Rattle.folder.specs.Told.{cause_by, fault_by, call_text, cause_text, trouble_text};

use std::alloc::AllocError;
use std::io::{Error, ErrorKind};
use std::{fmt, io};

/// A call on files.
#[derive(Clone, Copy, Debug, PartialEq, Eq)]
pub enum Call {
    /// What lies at a path is asked.
    Look,
    /// A file or a folder is opened.
    Open,
    /// A file is read.
    Read,
    /// A file is written.
    Write,
    /// A file or a folder is flushed to disk.
    Flush,
    /// A folder is made.
    MakeFolder,
    /// A file is given a second name.
    Link,
    /// A file is moved.
    Move,
    /// A file is removed.
    Remove,
    /// A folder is listed.
    List,
    /// A file is locked.
    Lock,
}

impl fmt::Display for Call {
    ghost output = { λ call. Some (call_text call) };

    fn fmt<W: fmt::Write>(&self, f: &mut fmt::Formatter<W>) -> fmt::Result {
        f.write_str(match self {
            Call::Look => "look at",
            Call::Open => "open",
            Call::Read => "read",
            Call::Write => "write",
            Call::Flush => "flush",
            Call::MakeFolder => "make folder",
            Call::Link => "link",
            Call::Move => "move",
            Call::Remove => "remove",
            Call::List => "list",
            Call::Lock => "lock",
        })
    }
}

/// Why a call failed.
#[derive(Clone, Copy, Debug, PartialEq, Eq)]
pub enum Cause {
    /// The system refused it, by this number.
    System(i32),
    /// It was refused without a number.
    Unnamed,
    /// What lies there is no plain file.
    NotFile,
    /// What lies there is no folder.
    NotFolder,
    /// What lies in the place of a folder above it is none.
    Unreached,
    /// What lies in the place of the folder of files aside is no folder.
    NoAside,
    /// The file has more bytes than a file may have.
    TooLong,
    /// Something else lies there than a moment before.
    Changed,
    /// A folder in memory had no memory for it.
    NoRoom,
    /// A folder in memory was cut off before it.
    CutOff,
}

impl fmt::Display for Cause {
    ghost output = { cause_text };

    fn fmt<W: fmt::Write>(&self, f: &mut fmt::Formatter<W>) -> fmt::Result {
        match self {
            Cause::System(code) => write!(f, "{}", Error::from_raw_os_error(*code)),
            Cause::Unnamed => f.write_str("it failed"),
            Cause::NotFile => f.write_str("it is no plain file"),
            Cause::NotFolder => f.write_str("it is no folder"),
            Cause::Unreached => f.write_str("what should be its folder is no folder"),
            Cause::NoAside => f.write_str("icerepo.new is no folder"),
            Cause::TooLong => f.write_str("it is longer than a file may be"),
            Cause::Changed => f.write_str("it was changed meanwhile"),
            Cause::NoRoom => f.write_str("there is no room"),
            Cause::CutOff => f.write_str("it was cut off"),
        }
    }
}

/// A call that failed, and why.
#[derive(Clone, Copy, Debug, PartialEq, Eq)]
pub struct Trouble {
    /// The call.
    pub call: Call,
    /// Why it failed.
    pub cause: Cause,
}

impl fmt::Display for Trouble {
    ghost output = { trouble_text };

    fn fmt<W: fmt::Write>(&self, f: &mut fmt::Formatter<W>) -> fmt::Result {
        let Trouble { call, cause } = *self;
        write!(f, "{call}: {cause}")
    }
}

/// Why something on files wasn't done.
#[derive(Clone, Copy, Debug)]
pub enum FileFault {
    /// A call failed.
    Failed(Trouble),
    /// There was no memory.
    NoMemory,
}

impl From<AllocError> for FileFault {
    ghost from_gives = { λ _ fault. fault ≡ FileFault.NoMemory };

    fn from(_: AllocError) -> FileFault {
        FileFault::NoMemory
    }
}

impl From<Trouble> for FileFault {
    ghost from_gives = { λ trouble fault. fault ≡ FileFault.Failed trouble };

    fn from(trouble: Trouble) -> FileFault {
        FileFault::Failed(trouble)
    }
}

/// A call that failed for a cause of its own.
pub fn failed(call: Call, cause: Cause) -> Trouble
    ensures { result ≡ record { call = call; cause = cause } }
{
    Trouble { call, cause }
}

/// A call that the system refused.
pub fn refused(call: Call, error: &Error) -> Trouble
    ensures { result ≡ record { call = call; cause = cause_by (raw_os_error error.now) } }
{
    match error.raw_os_error() {
        Some(code) => failed(call, Cause::System(code)),
        None => failed(call, Cause::Unnamed),
    }
}

/// A call of the system.
pub(crate) fn done<T>(call: Call, called: io::Result<T>) -> Result<T, Trouble>
    ensures done { IfOk result (λ value. called ≡ Ok value) }
    ensures refused { IfErr called (λ error. result
        ≡ Err (record { call = call; cause = cause_by (raw_os_error error) })) }
{
    match called {
        Ok(value) => Ok(value),
        Err(error) => Err(refused(call, &error)),
    }
}

/// A call that the system refused, which takes memory.
fn refused_in_memory(call: Call, error: &Error) -> FileFault
    ensures { result ≡ fault_by call (error_kind error.now) (raw_os_error error.now) }
{
    match error.kind() {
        ErrorKind::OutOfMemory => FileFault::NoMemory,
        _ => FileFault::from(refused(call, error)),
    }
}

/// A call of the system that takes memory and changes nothing.
pub(crate) fn done_in_memory<T>(call: Call, called: io::Result<T>) -> Result<T, FileFault>
    ensures { MatchResult called (λ value. result ≡ Ok value)
        (λ error. result ≡ Err (fault_by call (error_kind error) (raw_os_error error))) }
{
    match called {
        Ok(value) => Ok(value),
        Err(error) => Err(refused_in_memory(call, &error)),
    }
}
