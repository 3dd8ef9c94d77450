//! The gate of the runs.

use play_at_once::Gate;
use std::hint::spin_loop;
use std::sync::Wait;
use std::sync::atomic::{AtomicU64, Ordering};

/// The most turns that a client waits for the other one.
const MOST_TURNS: u32 = 200_000_000;

/// A gate that lets all pass at once; or, where it is closed, holds each of two clients before its first step until the other
/// one is there too, or so many turns are over.
#[derive(Drop)]
pub(crate) struct Meeting {
    closed: bool,
    first: AtomicU64,
    second: AtomicU64,
    met: AtomicU64,
}

impl Meeting {
    /// An open gate, or a closed one.
    pub(crate) fn new(closed: bool) -> Meeting {
        Meeting {
            closed,
            first: AtomicU64::new(0),
            second: AtomicU64::new(0),
            met: AtomicU64::new(0),
        }
    }

    /// How many clients have met another one.
    pub(crate) fn met(&self) -> u64 {
        self.met.load(Ordering::SeqCst)
    }
}

impl Gate for Meeting {
    fn hold<R: Wait>(&self, rt: &R, client: u32, steps: u64) {
        let _ = rt;
        if !self.closed || steps > 0 {
            return;
        }
        let (own, other) = if client == 1 {
            (&self.first, &self.second)
        } else {
            (&self.second, &self.first)
        };
        own.store(1, Ordering::SeqCst);
        for _ in 0..MOST_TURNS {
            if other.load(Ordering::SeqCst) == 1 {
                self.met.fetch_add(1, Ordering::SeqCst);
                return;
            }
            spin_loop();
        }
    }
}
