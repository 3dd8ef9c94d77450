//! How a call of a mirror ends.

ghost use Rattle.std.specs.Prelude.{◌≡◌};
ghost use Rattle.run_mirror.specs.Ending.{mirror_number, refused_as, status_of};

use mirror_reports::Mirrored;
use store_api::Refusal;

/// How a call ended.
#[derive(Clone, Copy, Debug, PartialEq, Eq)]
pub enum MirrorStatus {
    /// All was copied that was to be, and told.
    Done,
    /// The mirror was refused otherwise than by a failure of a store or for want of memory.
    Refused,
    /// Not all that was to be written could be.
    WriteFault,
    /// One of the stores failed.
    StoreFault,
    /// Memory ran out.
    NoMemory,
}

/// How a call ended, and the stores that it was given.
#[derive(Drop)]
pub struct MirrorEnded<S, T> {
    /// How it ended.
    pub status: MirrorStatus,
    /// The source, after all that was done.
    pub from: S,
    /// The target, after all that was done.
    pub to: T,
}

impl MirrorStatus {
    /// The number that the process ends with.
    pub fn number(&self) -> u8
        ensures { result ≡ mirror_number self.now }
    {
        match self {
            MirrorStatus::Done => 0,
            MirrorStatus::Refused => 1,
            MirrorStatus::WriteFault => 5,
            MirrorStatus::StoreFault => 6,
            MirrorStatus::NoMemory => 7,
        }
    }
}

/// The status of a refusal.
fn refused_as(why: &Refusal, unwritten: bool) -> MirrorStatus
    ensures { result ≡ refused_as why.now unwritten }
{
    match why {
        Refusal::NoMemory => MirrorStatus::NoMemory,
        Refusal::StoreFault | Refusal::TargetFault => MirrorStatus::StoreFault,
        _ => {
            if unwritten {
                MirrorStatus::WriteFault
            } else {
                MirrorStatus::Refused
            }
        }
    }
}

/// The status of a mirror that ended so, where its text was written whole or not.
pub(crate) fn status_of(ended: &Result<Mirrored, Refusal>, unwritten: bool) -> MirrorStatus
    ensures { result ≡ status_of ended.now unwritten }
{
    match ended {
        Ok(_) => {
            if unwritten {
                MirrorStatus::WriteFault
            } else {
                MirrorStatus::Done
            }
        }
        Err(why) => refused_as(why, unwritten),
    }
}
