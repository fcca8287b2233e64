//! Streams that come in pieces of each size.
ghost use Rattle.std.specs.Prelude.{None};

use super::checks::told;
use super::{FIRST, Ran, run, run_on, unhex};
use link_io::{Failed, MemSource, Source};
use std::alloc::{AllocError, Global};
use std::process::Abort;

// The first request without its last flag, and then whole: the first flag of the second one ends the first one.
const TWICE: &str =
    "7EA50310011DFB5CF47025E90E478B2A03616263380103EDCE637EA50310011DFB5CF47025E90E478B2A03616263380103EDCE637E";

// Two frames without a packet for a server: an empty payload for address 123, and one for address 82.
const NO_PACKETS: &str = "7EF7033F342D837E7EA503E90BA00B7E";

// A source that gives at most so many bytes at once.
#[derive(Drop)]
struct Trickle {
    inner: MemSource,
    most: usize,
}

impl Source for Trickle {
    ghost left = { λ _. None };

    ghost faults = { λ s. s.inner.faults };

    fn read(&mut self, buf: &mut [u8]) -> Result<usize, Failed> {
        let count = buf.len().min(self.most).max(1);
        self.inner.read(&mut buf[..count])
    }
}

// The command's run on this content, so many bytes at once.
fn run_cut(alloc: Global, line: &str, content: &[u8], most: usize) -> Result<Ran, AllocError> {
    let mut input = Trickle {
        inner: MemSource::new(Vec::from_slice(alloc, content)?, Vec::new(alloc)),
        most,
    };
    run_on(alloc, line, &mut input)
}

fn is_served_cut(
    rt: &impl Abort,
    alloc: Global,
    line: &str,
    digits: &str,
    most: usize,
    written: &[u8],
) -> Result<(), AllocError> {
    let cut = run_cut(alloc, line, &unhex(alloc, digits)?, most)?;
    let row = format!(in alloc; "{line}, {digits}, {most} at once")?;
    told(rt, row.as_str(), &cut, 0, written);
    Ok(())
}

fn is_served_however_cut(
    rt: &impl Abort,
    alloc: Global,
    line: &str,
    digits: &str,
) -> Result<(), AllocError> {
    let content = unhex(alloc, digits)?;
    let length = content.len();
    let whole = run(alloc, line, content)?;
    for most in 1..=length {
        is_served_cut(rt, alloc, line, digits, most, &whole.output)?;
    }
    Ok(())
}

const STREAMS: &[&str] = &[FIRST, TWICE, NO_PACKETS];

#[test]
fn streams_are_served_however_they_are_cut(rt: HostRuntime) -> Result<(), AllocError> {
    for &digits in STREAMS {
        is_served_however_cut(&rt, rt.alloc(), "replay", digits)?;
        is_served_however_cut(&rt, rt.alloc(), "replay journal", digits)?;
    }
    Ok(())
}
