//! Cutoffs as texts: a number of microseconds, or an instant.

ghost use Rattle.std.specs.Prelude.{MatchResult};
ghost use Rattle.moments.specs.Cutoffs.{IsMicros, IsNumber, Refuses, RefusesInstant, RefusesNumber, StandsFor};

use jiff::Timestamp;

/// Why a text is no cutoff.
#[derive(Clone, Copy, Debug, PartialEq, Eq)]
pub enum CutoffFault {
    /// It begins without `@`, and isn't 1 to 20 decimal digits that give a number of 64 bits.
    Number,
    /// What stands behind `@` isn't an instant.
    Instant,
    /// The instant is one before 1970.
    Early,
}

/// The microseconds since 1970, rounded down, of an instant.
fn instant_read(text: &str) -> Result<u64, CutoffFault>
    ensures { MatchResult result (IsMicros text.now) (RefusesInstant text.now) }
{
    let Ok(instant) = text.parse::<Timestamp>() else {
        return Err(CutoffFault::Instant);
    };
    if instant.as_nanosecond() < 0 {
        return Err(CutoffFault::Early);
    }
    Ok(instant.as_microsecond() as u64)
}

fn number_read(text: &str) -> Result<u64, CutoffFault>
    ensures { MatchResult result (IsNumber text.now) (RefusesNumber text.now) }
{
    if text.starts_with('+') || text.len() > 20 {
        return Err(CutoffFault::Number);
    }
    match text.parse::<u64>() {
        Ok(number) => Ok(number),
        Err(_) => Err(CutoffFault::Number),
    }
}

/// The moment that a text stands for, in microseconds: decimal digits are that number, and `@` and an
/// instant, as `jiff` reads a `Timestamp`, are its microseconds since 1970, rounded down. It takes no
/// memory.
pub fn cutoff_read(text: &str) -> Result<u64, CutoffFault>
    ensures { MatchResult result (StandsFor text.now) (Refuses text.now) }
{
    match text.strip_prefix('@') {
        Some(instant) => instant_read(instant),
        None => number_read(text),
    }
}
