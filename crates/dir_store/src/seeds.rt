//! Random bytes of the system.

use crate::faults::OpenFault;
use std::fs;
use std::io::Read;
use std::rt::Files;

/// Where the system gives random bytes.
const RANDOM: &str = "/dev/urandom";

/// 32 random bytes of the system. What they are is trusted: no contract speaks of them.
pub fn random_seed<R: Files>(rt: &R) -> Result<[u8; 32], OpenFault> {
    let Ok(mut file) = fs::open(rt, RANDOM) else {
        return Err(OpenFault::NoRandom);
    };
    let mut seed = [0u8; 32];
    match file.read_exact(&mut seed) {
        Ok(()) => Ok(seed),
        Err(_) => Err(OpenFault::NoRandom),
    }
}
