use ice_base::Clock;
use moments::{CutoffFault, WallClock, cutoff_read};
use std::test::Fail;
use test_ends::holds;

const CUTOFFS: [(&str, Result<u64, CutoffFault>); 23] = [
    ("12", Ok(12)),
    ("0012", Ok(12)),
    ("18446744073709551615", Ok(18446744073709551615)),
    ("18446744073709551616", Err(CutoffFault::Number)),
    ("000000000000000000001", Err(CutoffFault::Number)),
    ("+1", Err(CutoffFault::Number)),
    ("", Err(CutoffFault::Number)),
    ("12x", Err(CutoffFault::Number)),
    ("@", Err(CutoffFault::Instant)),
    ("@x", Err(CutoffFault::Instant)),
    ("@1970-01-01T00:00:00.0000129Z", Ok(12)),
    ("@1969-12-31T23:59:59Z", Err(CutoffFault::Early)),
    ("@1969-12-31T23:59:59.9999999Z", Err(CutoffFault::Early)),
    ("@1970-01-01T01:00:00+01:00", Ok(0)),
    ("@1970-01-01 00:00:01Z", Ok(1_000_000)),
    ("@1970-01-01t00:00:01z", Ok(1_000_000)),
    ("@1970-01-01T00:00:01", Err(CutoffFault::Instant)),
    ("@1970-01-01", Err(CutoffFault::Instant)),
    ("@1970-01-01T00:00:60Z", Ok(59_000_000)),
    ("@19700101T000001Z", Ok(1_000_000)),
    ("@1970-01-01T00:00:01Z[UTC]", Ok(1_000_000)),
    ("@9999-12-30T22:00:00.999999999Z", Ok(253402207200999999)),
    ("@9999-12-31T23:59:59Z", Err(CutoffFault::Instant)),
];

#[test]
fn cutoffs() -> Result<(), Fail> {
    for (text, cutoff) in &CUTOFFS {
        holds(cutoff_read(text) == *cutoff, text)?;
    }
    Ok(())
}

#[test]
fn clock_stays_or_goes_on(rt: HostRuntime) -> Result<(), Fail> {
    let mut clock = WallClock::new(rt);
    let first = clock.now();
    holds(0 < first && first <= clock.now(), "moments")
}
