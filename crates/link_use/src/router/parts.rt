//! Sinks that take a part of what a pump writes at once.
ghost use Rattle.std.specs.Prelude.{◌≡◌, false, None};

use super::{THREE_FRAMES, counts, ended, joined, number_is};
use frame_router::*;
use link_io::{Failed, MemSource, Sink, Why};
use std::alloc::{AllocError, Global};
use std::process::Abort;
use std::test::Fail;

// A sink that takes at most so many bytes of a piece, and whose call of this number fails.
#[derive(Drop)]
struct Narrow {
    bytes: Vec<u8>,
    step: usize,
    fail: u64,
    calls: u64,
    faults: u64,
    is_finished: bool,
}

impl Narrow {
    fn new(alloc: Global, step: usize, fail: u64) -> Narrow
        ensures { result.is_finished ≡ false }
    {
        Narrow {
            bytes: Vec::new(alloc),
            step,
            fail,
            calls: 0,
            faults: 0,
            is_finished: false,
        }
    }
}

impl Sink for Narrow {
    ghost written = { λ _. None };

    ghost faults = { λ s. s.faults };

    ghost finished = { λ s. s.is_finished };

    fn write(&mut self, bytes: &[u8]) -> Result<usize, Failed> {
        self.calls = self.calls.saturating_add(1);
        let count = bytes.len().min(self.step.max(1));
        if self.calls == self.fail || self.bytes.extend_from_slice(&bytes[..count]).is_err() {
            self.faults = self.faults.saturating_add(1);
            return Err(Failed);
        }
        Ok(count)
    }

    fn flush(&mut self) -> Result<(), Failed> {
        Ok(())
    }

    fn finish(&mut self) -> Result<(), Failed> {
        self.calls = self.calls.saturating_add(1);
        if self.calls == self.fail {
            self.faults = self.faults.saturating_add(1);
            return Err(Failed);
        }
        self.is_finished = true;
        Ok(())
    }
}

// Pumps three frames of 8 bytes each, which one read gives, of which the first and the last pass.
fn pumped(alloc: Global, step: usize, fail: u64) -> Result<(Pumped, Narrow), AllocError> {
    let mut routes = Routes::new(alloc);
    let _ = routes.add(123, Port::Right);
    let mut link_in = MemSource::new(joined(alloc, THREE_FRAMES)?, Vec::new(alloc));
    let mut link_out = Narrow::new(alloc, step, fail);
    let done = pump(alloc, &routes, Port::Left, &mut link_in, &mut link_out)?;
    Ok((done, link_out))
}

// The most bytes taken at once, the call that fails, the frames that passed and were lost before the one in which it fails, and how
// many bytes were taken.
const ROWS: &[(usize, u64, u64, u64, u64)] = &[
    (5, 1, 0, 0, 0),
    (5, 2, 0, 0, 5),
    (5, 3, 1, 1, 10),
    (5, 4, 1, 1, 15),
    (8, 2, 1, 1, 8),
    // the finish
    (16, 2, 2, 1, 16),
];

fn fails_within(
    rt: &impl Abort,
    alloc: Global,
    row: &(usize, u64, u64, u64, u64),
) -> Result<(), AllocError> {
    let (step, fail, passed, lost, taken) = *row;
    let (done, link_out) = pumped(alloc, step, fail)?;
    ended(rt, &done, Why::Sink, 24, counts(passed, 0, lost));
    number_is(rt, link_out.bytes.len() as u64, taken);
    Ok(())
}

#[test]
fn the_count_is_that_before_the_frame_in_which_a_write_fails(rt: HostRuntime) -> Result<(), Fail> {
    for row in ROWS {
        fails_within(&rt, rt.alloc(), row)?;
    }
    Ok(())
}

#[test]
fn what_one_read_gives_goes_out_by_one_write(rt: HostRuntime) -> Result<(), Fail> {
    let (done, link_out) = pumped(rt.alloc(), 4_096, 0)?;
    ended(&rt, &done, Why::Settled, 24, counts(2, 0, 1));
    // one write and the finish
    number_is(&rt, link_out.calls, 2);
    Ok(())
}
