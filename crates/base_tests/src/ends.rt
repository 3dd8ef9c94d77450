//! The standard ends.

use ice_base::{StdSink, StdSource, read_input, write_whole};
use std::test::Fail;
use test_ends::holds;

#[test]
fn standard_ends(rt: HostRuntime) -> Result<(), Fail> {
    let written = write_whole(&mut StdSink::new(rt), b"standard output\n");
    holds(written.is_ok(), "output")?;
    let read = read_input(rt.alloc(), &mut StdSource::new(rt), 10);
    holds(read.is_ok(), "input")
}
