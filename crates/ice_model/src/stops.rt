//! What ends a comparison.

ghost use Rattle.std.specs.Prelude.{◌≡◌, ◌↔◌, IfErr, IsOk, IsTrue};

use std::alloc::AllocError;

/// Why a case isn't gone on with.
#[derive(Clone, Copy)]
pub enum Stop {
    /// Code and model differ in this.
    Differ(&'static str),
    /// Memory ran out.
    NoMemory,
}

impl From<AllocError> for Stop {
    ghost use Rattle.std.specs.Prelude.{◌≡◌};
    ghost use Rattle.ice_model.specs.declared.stops.Stop.TheVariants as Stop;

    ghost from_gives = { λ _ stop. stop ≡ Stop.NoMemory };

    fn from(_error: AllocError) -> Stop {
        Stop::NoMemory
    }
}

/// Stops where something differs.
pub fn expect(alike: bool, what: &'static str) -> Result<(), Stop>
    ensures ok { IsOk result ↔ IsTrue alike }
    ensures differs { IfErr result (λ stop. stop ≡ Stop.Differ what.entry) }
{
    if alike {
        Ok(())
    } else {
        Err(Stop::Differ(what))
    }
}
