//! The machine's clock.

ghost use Rattle.std.specs.Prelude.{◌≡◌, ◌≤◌};
ghost use Rattle.moments.specs.Clocks.{last_of};

use std::rt::Clock;

/// The machine's clock, in microseconds since 1970. It never goes back: where the machine's does, or
/// can't be read, the last moment stands. What the machine's clock tells is trusted.
#[derive(Drop)]
pub struct WallClock<R> {
    rt: R,
    last: u64,
}

impl<R: Clock> WallClock<R> {
    /// The clock of this machine.
    pub fn new(rt: R) -> WallClock<R>
        ensures { last_of result ≡ 0 }
    {
        WallClock { rt, last: 0 }
    }
}

impl<R: Clock> ice_base::Clock for WallClock<R> {
    ghost gives = { λ old moment new. (last_of old ≤ moment) × (last_of new ≡ moment) };

    /// A moment that isn't before the last one.
    fn now(&mut self) -> u64 {
        if let Ok(time) = self.rt.since_1970() {
            let moment = u64::try_from(time.as_micros()).unwrap_or(u64::MAX);
            self.last = self.last.max(moment);
        }
        self.last
    }
}
