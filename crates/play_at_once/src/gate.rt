//! Where workers pass before each of their steps.

use std::sync::Wait;

/// Called before each step of a worker. It may wait there, as a test does that wants two workers to meet.
pub trait Gate {
    /// Comes before the step of this client that follows on so many steps of its own.
    fn hold<R: Wait>(&self, rt: &R, client: u32, steps: u64);
}

/// A gate that lets all pass at once.
#[derive(Drop)]
pub struct OpenGate;

impl Gate for OpenGate {
    fn hold<R: Wait>(&self, rt: &R, client: u32, steps: u64) {
        let _ = rt;
        let _ = client;
        let _ = steps;
    }
}
