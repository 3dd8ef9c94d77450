//! How far a check is, told on standard error.

use play_at_once::Gate;
use std::sync::Wait;

/// How many operations are made between two lines.
const STRIDE: u64 = 1_000;

/// A gate that lets all pass at once, and where that is asked for says at each thousand operations of a worker how many it has
/// made. What standard error doesn't take is lost.
#[derive(Drop)]
pub struct Progress<R> {
    rt: R,
    shown: bool,
}

impl<R> Progress<R> {
    /// A gate that says it, or doesn't.
    pub fn new(rt: R, shown: bool) -> Progress<R> {
        Progress { rt, shown }
    }
}

impl<R: Eprint> Gate for Progress<R> {
    fn hold<W: Wait>(&self, rt: &W, client: u32, steps: u64) {
        let _ = rt;
        let _ = client;
        if self.shown && steps > 0 && steps % STRIDE == 0 {
            let _ = eprintln!(&self.rt; "icerepo: {steps} operations");
        }
    }
}
