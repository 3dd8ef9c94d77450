//! Why a text is no script.

use script_values::ScriptKind;
use std::alloc::AllocError;

/// Why a text is no script.
#[derive(Clone, Copy, Debug, PartialEq, Eq)]
pub enum ScriptFault {
    /// The first line that is refused, counted from 1, and the first kind of its faults.
    At {
        /// The number of the line.
        line: u32,
        /// What is wrong with it.
        kind: ScriptKind,
    },
    /// Memory ran out.
    NoMemory,
}

impl From<AllocError> for ScriptFault {
    ghost use Rattle.std.specs.Prelude.{◌≡◌};
    ghost use Rattle.play_script.specs.declared.faults.ScriptFault.TheVariants.{NoMemory};

    ghost from_gives = { λ _ fault. fault ≡ NoMemory };

    fn from(_error: AllocError) -> ScriptFault {
        ScriptFault::NoMemory
    }
}
