//! Both directions run beside each other.
ghost use Rattle.std.specs.Prelude.{◌≡◌, false, None};

use super::{TO_82, TO_123, ended_by};
use frame_router::bridge::bridge;
use link_io::{Failed, Linker, Sink, Source, Why};
use std::process::Abort;
use std::sync::atomic::{AtomicU64, Ordering};
use std::test::Fail;
use std::time::Duration;
use std::{thread, time};

// A source turns at most so often, a millisecond each time.
const TURNS: u32 = 10_000;

// What both ends of a link see.
#[derive(Drop)]
struct Side {
    written: AtomicU64,
    late: AtomicU64,
}

impl Side {
    fn new() -> Side {
        Side {
            written: AtomicU64::new(0),
            late: AtomicU64::new(0),
        }
    }
}

// A source that gives a frame in one read, and its end only once the sink of its link was written to.
#[derive(Drop)]
struct AfterWrite<'a, R> {
    rt: &'a R,
    frame: &'static [u8],
    is_given: bool,
    side: &'a Side,
}

impl<'a, R: time::Clock> Source for AfterWrite<'a, R> {
    ghost left = { λ _. None };

    ghost faults = { λ _. 0 };

    fn read(&mut self, buf: &mut [u8]) -> Result<usize, Failed> {
        if self.is_given {
            turn_until_written(self.rt, self.side);
            return Ok(0);
        }
        self.is_given = true;
        let count = buf.len().min(self.frame.len());
        buf[..count].copy_from_slice(&self.frame[..count]);
        Ok(count)
    }
}

// Turns until the sink was written to, and counts as late where it never was.
fn turn_until_written<R: time::Clock>(rt: &R, side: &Side) {
    for _ in 0..TURNS {
        if side.written.load(Ordering::SeqCst) > 0 {
            return;
        }
        thread::sleep(rt, Duration::from_millis(1));
    }
    side.late.fetch_add(1, Ordering::SeqCst);
}

// A sink that counts its writes.
#[derive(Drop)]
struct Counting<'a> {
    side: &'a Side,
    is_finished: bool,
}

impl<'a> Sink for Counting<'a> {
    ghost written = { λ _. None };

    ghost faults = { λ _. 0 };

    ghost finished = { λ s. s.is_finished };

    fn write(&mut self, bytes: &[u8]) -> Result<usize, Failed> {
        self.side.written.fetch_add(1, Ordering::SeqCst);
        Ok(bytes.len())
    }

    fn flush(&mut self) -> Result<(), Failed> {
        Ok(())
    }

    fn finish(&mut self) -> Result<(), Failed> {
        self.is_finished = true;
        Ok(())
    }
}

// The ends of a link over which this frame comes.
fn ends_of<'a, R>(
    rt: &'a R,
    frame: &'static [u8],
    side: &'a Side,
) -> (AfterWrite<'a, R>, Counting<'a>)
    ensures { result.1.is_finished ≡ false }
{
    let link_in = AfterWrite {
        rt,
        frame,
        is_given: false,
        side,
    };
    let link_out = Counting {
        side,
        is_finished: false,
    };
    (link_in, link_out)
}

// Connects to the left side with a frame to 123, and then to the right one with a frame to 82.
#[derive(Drop)]
struct TwoSides<'a, R> {
    rt: &'a R,
    left: &'a Side,
    right: &'a Side,
    listens: bool,
    out: u64,
    faults: u64,
}

impl<'a, R: time::Clock + Sync> Linker for TwoSides<'a, R> {
    type In = AfterWrite<'a, R>;

    type Out = Counting<'a>;

    ghost links = { λ s. record { coming = None; gone = None; listens = s.listens; out = s.out; faults = s.faults; in_faults = 0; out_faults = 0 } };

    fn listen(&mut self, _path: &str) -> Result<(), Failed> {
        self.faults = self.faults.saturating_add(1);
        Err(Failed)
    }

    fn accept(&mut self) -> Result<(AfterWrite<'a, R>, Counting<'a>), Failed> {
        self.faults = self.faults.saturating_add(1);
        Err(Failed)
    }

    fn connect(&mut self, path: &str) -> Result<(AfterWrite<'a, R>, Counting<'a>), Failed> {
        if self.out == u64::MAX {
            self.faults = self.faults.saturating_add(1);
            return Err(Failed);
        }
        self.out += 1;
        if path == "left" {
            Ok(ends_of(self.rt, TO_123, self.left))
        } else {
            Ok(ends_of(self.rt, TO_82, self.right))
        }
    }

    fn back(&mut self, _link_in: AfterWrite<'a, R>, _link_out: Counting<'a>) {
        self.out -= 1;
    }
}

#[test]
fn both_directions_run_at_once(rt: HostRuntime) -> Result<(), Fail> {
    let (left, right) = (Side::new(), Side::new());
    let mut net = TwoSides {
        rt: &rt,
        left: &left,
        right: &right,
        listens: false,
        out: 0,
        faults: 0,
    };
    let done = bridge(&rt, rt.alloc(), &mut net, "left", "right", 123, 82)?;
    ended_by(&rt, "at once", &done, Why::Settled);
    number_is(&rt, "from the left", done.from_left.tally.passed, 1);
    number_is(&rt, "from the right", done.from_right.tally.passed, 1);
    number_is(&rt, "late at the left", left.late.load(Ordering::SeqCst), 0);
    number_is(
        &rt,
        "late at the right",
        right.late.load(Ordering::SeqCst),
        0,
    );
    Ok(())
}

fn number_is(rt: &impl Abort, row: &str, number: u64, want: u64) {
    assert_eq!(rt; number, want, "{row}");
}
