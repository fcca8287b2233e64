//! The time goes on while a write waits, and behind the last run.
ghost use Rattle.std.specs.Prelude.{◌<◌, ◌≤◌, None};

use super::{
    STAY, calls_of, echo_calls, ended, serve_echoes, sink, source, turn_until, word_is, wrote,
};
use link_io::{Clock, Failed, MemSink, MemSource, Sink, Source, Why};
use rpc_crew::Free;
use std::alloc::Global;
use std::process::Abort;
use std::sync::Wait;
use std::sync::atomic::{AtomicU64, Ordering};
use std::test::Fail;
use std::thread::Threads;
use std::time;

// The first Tick comes so many milliseconds behind the start.
const TICK: u64 = 500;

// What the ends of a link and its clock count: how often the clock was asked, whether a write is over, and how often
// somebody waited in vain.
struct Signs {
    asked: AtomicU64,
    written: AtomicU64,
    late: AtomicU64,
}

impl Drop for Signs {
    fn drop(self) {
        let Self {
            asked: _,
            written: _,
            late: _,
        } = self;
    }
}

fn no_signs() -> Signs {
    Signs {
        asked: AtomicU64::new(0),
        written: AtomicU64::new(0),
        late: AtomicU64::new(0),
    }
}

// A clock that counts how often it was asked. It stands still so often, and is at the moment of a Tick from then on.
#[derive(Drop)]
struct Asked<'a> {
    signs: &'a Signs,
    still: u64,
    last: u64,
}

impl<'a> Clock for Asked<'a> {
    ghost last = { λ c. c.last };

    fn now(&mut self) -> u64 {
        let times = self.signs.asked.fetch_add(1, Ordering::SeqCst);
        if times >= self.still && self.last < TICK {
            self.last = TICK;
        }
        self.last
    }
}

// A source whose second read waits until a first write is over.
#[derive(Drop)]
struct AfterWrite<'a, R> {
    rt: &'a R,
    inner: MemSource,
    begun: bool,
    signs: &'a Signs,
}

impl<'a, R: time::Clock> Source for AfterWrite<'a, R> {
    ghost left = { λ _. None };

    ghost faults = { λ s. s.inner.faults };

    fn read(&mut self, buf: &mut [u8]) -> Result<usize, Failed> {
        if self.begun {
            turn_until(self.rt, &self.signs.written, 1, &self.signs.late);
        }
        self.begun = true;
        self.inner.read(buf)
    }
}

// A sink whose first write waits until the clock was asked 1,000 times since that write began.
#[derive(Drop)]
struct AfterTime<'a, R> {
    rt: &'a R,
    inner: MemSink,
    begun: bool,
    signs: &'a Signs,
}

impl<'a, R: time::Clock> Sink for AfterTime<'a, R> {
    ghost written = { λ _. None };

    ghost faults = { λ s. s.inner.faults };

    ghost finished = { λ s. s.inner.finished };

    fn write(&mut self, bytes: &[u8]) -> Result<usize, Failed> {
        if !self.begun {
            self.begun = true;
            let asked = self.signs.asked.load(Ordering::SeqCst);
            let least = asked.saturating_add(1_000);
            turn_until(self.rt, &self.signs.asked, least, &self.signs.late);
        }
        let count = self.inner.write(bytes);
        self.signs.written.store(1, Ordering::SeqCst);
        count
    }

    fn flush(&mut self) -> Result<(), Failed> {
        self.inner.flush()
    }

    fn finish(&mut self) -> Result<(), Failed> {
        self.inner.finish()
    }
}

// A session over this source settles, writes so many frames, and nobody waits in vain. Its clock stands still so often.
fn settles_in_time<R: Abort + Threads + Wait + Sync + time::Clock, I: Source + Send>(
    rt: &R,
    alloc: Global,
    link_in: &mut I,
    signs: &Signs,
    workers: u32,
    still: u64,
    count: u32,
) -> Result<(), Fail>
    requires workers { (0 < workers) × (workers ≤ 16) }
{
    let mut clock = Asked {
        signs,
        still,
        last: 0,
    };
    let mut link_out = AfterTime {
        rt,
        inner: sink(alloc, &[])?,
        begun: false,
        signs,
    };
    let did = serve_echoes(
        rt,
        alloc,
        link_in,
        &mut link_out,
        workers,
        &mut clock,
        &Free,
    )?;
    ended(rt, did, Why::Settled, u64::from(count));
    wrote(rt, &link_out.inner, count);
    word_is(rt, &signs.late, 0);
    Ok(())
}

#[test]
fn the_clock_is_asked_while_a_write_waits(rt: HostRuntime) -> Result<(), Fail> {
    let alloc = rt.alloc();
    let signs = no_signs();
    let mut link_in = AfterWrite {
        rt: &rt,
        inner: source(alloc, echo_calls(alloc, 1)?),
        begun: false,
        signs: &signs,
    };
    settles_in_time(&rt, alloc, &mut link_in, &signs, 1, u64::MAX, 1)
}

// A call stays open behind the end of the input, and nothing is left to run while the first write waits. The Tick that comes then is
// an event for it, which is run before the session ends.
#[test]
fn a_tick_behind_the_last_run_is_run(rt: HostRuntime) -> Result<(), Fail> {
    let alloc = rt.alloc();
    let mut stream = calls_of(alloc, STAY, 1)?;
    stream.extend_from_slice(&echo_calls(alloc, 600)?)?;
    let mut link_in = source(alloc, stream);
    settles_in_time(&rt, alloc, &mut link_in, &no_signs(), 2, 600, 600)
}
