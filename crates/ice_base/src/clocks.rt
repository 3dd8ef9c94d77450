//! Clocks.

ghost use Rattle.std.specs.Prelude.{◌≡◌, ℕ};
ghost use Rattle.ice_base.specs.Ends.{raised};

use std::marker::Model;

/// A clock that can't fail. By itself it promises nothing of its moments: they may repeat and go
/// back.
pub trait Clock {
    // How a clock may answer: itself before, the moment, itself after. By default nothing is said.
    ghost gives: { Self → ℕ → Self → Type 0 } = { λ _ _ _. Unit {0} };

    /// A moment, in microseconds.
    fn now(&mut self) -> u64
        ensures { gives self.old result self.new };
}

/// A clock that counts how often it was asked, seen as its next answer.
#[derive(Debug, Drop)]
pub struct TickClock {
    next: u64,
}

impl Model for TickClock {
    ghost use Rattle.std.specs.Prelude.{ℕ};

    ghost Value = { ℕ };

    ghost view = { λ c. c.next };
}

impl TickClock {
    /// A clock whose first answer is 0.
    pub fn new() -> TickClock
        ensures { result ≡ 0 }
    {
        TickClock { next: 0 }
    }
}

impl Clock for TickClock {
    ghost gives = { λ old moment new. (moment ≡ old) × (new ≡ raised old) };

    /// One more at each call; after the greatest u64 that number again.
    fn now(&mut self) -> u64 {
        let now = self.next;
        self.next = now.saturating_add(1);
        now
    }
}
