//! The statuses that the program ends with.

ghost use Rattle.std.specs.Prelude.{◌≡◌};
ghost use Rattle.top_call.specs.Statuses.{number_of, is_told, status_of};

use command_words::{UsageFault, WordsFault};
use ice_base::InputFault;
use play_script::ScriptFault;
use script_values::ScriptKind;
use std::alloc::AllocError;
use std::fmt;

/// How a call of the program ended.
#[derive(Clone, Copy, Debug, PartialEq, Eq)]
pub enum Status {
    /// All that was to be done ended well, and all that was to be written was written.
    Ok,
    /// A task or the closing reading ended by a refusal that is no fault of the store.
    Refused,
    /// The words of the command line are no command.
    Usage(UsageFault),
    /// This line is the first of the script that is refused.
    Script {
        /// The number of the line, from 1.
        line: u32,
        /// What is wrong with it.
        kind: ScriptKind,
    },
    /// The input couldn't be read.
    ReadFault,
    /// Not all that was to be written could be.
    WriteFault,
    /// The store failed.
    StoreFault,
    /// Memory ran out.
    NoMemory,
}

impl Status {
    /// The number that the process ends with.
    pub fn number(&self) -> u8
        ensures { result ≡ number_of self.now }
    {
        match self {
            Status::Ok => 0,
            Status::Refused => 1,
            Status::Usage(_) => 2,
            Status::Script { .. } => 3,
            Status::ReadFault => 4,
            Status::WriteFault => 5,
            Status::StoreFault => 6,
            Status::NoMemory => 7,
        }
    }

    /// Whether standard error has a line of it: not where the report says all.
    pub fn is_told(&self) -> bool
        ensures { result ≡ is_told self.now }
    {
        !matches!(self, Status::Ok | Status::Refused)
    }
}

/// The line of standard error, without its line feed; nothing where the status isn't told.
impl fmt::Display for Status {
    ghost use Rattle.std.specs.Prelude.{Some};
    ghost use Rattle.top_call.specs.Statuses.{line_of};

    ghost output = { λ status. Some (line_of status) };

    fn fmt<W: fmt::Write>(&self, f: &mut fmt::Formatter<W>) -> fmt::Result {
        match self {
            Status::Ok | Status::Refused => Ok(()),
            Status::Usage(_) => f.write_str("icerepo: usage"),
            Status::Script { line, kind } => write!(f, "icerepo: script line {line}: {kind}"),
            Status::ReadFault => f.write_str("icerepo: read fault"),
            Status::WriteFault => f.write_str("icerepo: write fault"),
            Status::StoreFault => f.write_str("icerepo: store fault"),
            Status::NoMemory => f.write_str("icerepo: no memory"),
        }
    }
}

impl From<WordsFault> for Status {
    ghost use Rattle.std.specs.Prelude.{◌≡◌};
    ghost use Rattle.top_call.specs.Statuses.{of_words};

    ghost from_gives = { λ fault status. status ≡ of_words fault };

    fn from(fault: WordsFault) -> Status {
        match fault {
            WordsFault::Usage(usage) => Status::Usage(usage),
            WordsFault::NoMemory => Status::NoMemory,
        }
    }
}

impl From<InputFault> for Status {
    ghost use Rattle.std.specs.Prelude.{◌≡◌};
    ghost use Rattle.top_call.specs.Statuses.{of_input};

    ghost from_gives = { λ fault status. status ≡ of_input fault };

    fn from(fault: InputFault) -> Status {
        match fault {
            InputFault::Fault => Status::ReadFault,
            InputFault::NoMemory => Status::NoMemory,
        }
    }
}

impl From<ScriptFault> for Status {
    ghost use Rattle.std.specs.Prelude.{◌≡◌};
    ghost use Rattle.top_call.specs.Statuses.{of_script};

    ghost from_gives = { λ fault status. status ≡ of_script fault };

    fn from(fault: ScriptFault) -> Status {
        match fault {
            ScriptFault::At { line, kind } => Status::Script { line, kind },
            ScriptFault::NoMemory => Status::NoMemory,
        }
    }
}

impl From<AllocError> for Status {
    ghost use Rattle.std.specs.Prelude.{◌≡◌};
    ghost use Rattle.top_call.specs.declared.statuses.Status.TheVariants as Status;

    ghost from_gives = { λ _ status. status ≡ Status.NoMemory };

    fn from(_error: AllocError) -> Status {
        Status::NoMemory
    }
}

/// What may keep a run from ending well, once its script is read.
#[derive(Clone, Copy, Debug, PartialEq, Eq)]
pub struct Causes {
    /// Some part ended for want of memory, or there was none for the report.
    pub no_memory: bool,
    /// The opening, a task or the closing reading ended by a fault of the store.
    pub store_fault: bool,
    /// Not all of the report was written.
    pub unwritten: bool,
    /// A task or the closing reading ended by another refusal.
    pub refused: bool,
}

impl Causes {
    /// The status of a run: that of the first cause that holds, in the order of the fields.
    pub fn status(&self) -> Status
        ensures { result ≡ status_of self.now }
    {
        if self.no_memory {
            Status::NoMemory
        } else if self.store_fault {
            Status::StoreFault
        } else if self.unwritten {
            Status::WriteFault
        } else if self.refused {
            Status::Refused
        } else {
            Status::Ok
        }
    }
}
