//! The moments of a session count from its start.
ghost use Rattle.std.specs.Prelude.{◌≡◌, None};

use super::checks::{count_is, status_is};
use super::one_frame::frames_in;
use super::uploads::{confirmation, frames, start};
use super::{link, store, words};
use link_io::{Clock, Failed, Linker, MemLinker, MemSink, MemSource, Sink, Source};
use pw_run::run;
use rpc_crew::Free;
use std::alloc::{AllocError, Global};
use std::process::Abort;
use std::sync::Wait;
use std::sync::atomic::{AtomicU64, Ordering};
use std::thread::Threads;
use std::time::Duration;
use std::{thread, time};

// A device turns at most so often, a millisecond each time.
const TURNS: u32 = 10_000;

// So often the clock is asked behind the answers, before the link ends.
const ASKED: u64 = 100;

// The answers to the opening of an upload: START_ACK, and what is asked for first.
const ANSWERS: u64 = 2;

// A clock that was made 10 s before the session, and stands at this moment behind the answers.
#[derive(Drop)]
struct Late<'a> {
    last: u64,
    moment: u64,
    written: &'a AtomicU64,
    asked: &'a AtomicU64,
}

impl<'a> Clock for Late<'a> {
    ghost last = { λ s. s.last };

    fn now(&mut self) -> u64 {
        let moment = if self.written.load(Ordering::SeqCst) < ANSWERS {
            10_000
        } else {
            self.asked.fetch_add(1, Ordering::SeqCst);
            self.moment
        };
        self.last = self.last.max(moment);
        self.last
    }
}

// A source whose end comes once the clock was asked often enough.
#[derive(Drop)]
struct Waiting<'a, R> {
    rt: &'a R,
    inner: MemSource,
    begun: bool,
    asked: &'a AtomicU64,
    late: &'a AtomicU64,
}

impl<'a, R: time::Clock> Source for Waiting<'a, R> {
    ghost left = { λ _. None };

    ghost faults = { λ s. s.inner.faults };

    fn read(&mut self, buf: &mut [u8]) -> Result<usize, Failed> {
        if self.begun {
            turn_until(self.rt, self.asked, ASKED, self.late);
        }
        self.begun = true;
        self.inner.read(buf)
    }
}

// Turns until the word is as large, and counts as late where it never was.
fn turn_until<R: time::Clock>(rt: &R, word: &AtomicU64, least: u64, late: &AtomicU64) {
    for _ in 0..TURNS {
        if word.load(Ordering::SeqCst) >= least {
            return;
        }
        thread::sleep(rt, Duration::from_millis(1));
    }
    late.fetch_add(1, Ordering::SeqCst);
}

// A sink that tells how many frames were written to it.
#[derive(Drop)]
struct Telling<'a> {
    inner: MemSink,
    written: &'a AtomicU64,
}

impl<'a> Sink for Telling<'a> {
    ghost written = { λ _. None };

    ghost faults = { λ s. s.inner.faults };

    ghost finished = { λ s. s.inner.finished };

    fn write(&mut self, bytes: &[u8]) -> Result<usize, Failed> {
        let count = self.inner.write(bytes);
        self.written.fetch_add(frames_in(bytes), Ordering::SeqCst);
        count
    }

    fn flush(&mut self) -> Result<(), Failed> {
        self.inner.flush()
    }

    fn finish(&mut self) -> Result<(), Failed> {
        self.inner.finish()
    }
}

// A linker over memory with such ends.
#[derive(Drop)]
struct Slow<'a, R> {
    rt: &'a R,
    net: MemLinker,
    written: &'a AtomicU64,
    asked: &'a AtomicU64,
    late: &'a AtomicU64,
}

impl<'a, R> Slow<'a, R> {
    fn ends(&self, link_in: MemSource, link_out: MemSink) -> (Waiting<'a, R>, Telling<'a>)
        ensures source { result.0.inner ≡ link_in }
        ensures sink { result.1.inner ≡ link_out }
    {
        (
            Waiting {
                rt: self.rt,
                inner: link_in,
                begun: false,
                asked: self.asked,
                late: self.late,
            },
            Telling {
                inner: link_out,
                written: self.written,
            },
        )
    }
}

impl<'a, R: time::Clock + Sync> Linker for Slow<'a, R> {
    type In = Waiting<'a, R>;

    type Out = Telling<'a>;

    ghost links = { λ s. record { coming = None; gone = None; listens = s.net.listens; out = s.net.out; faults = s.net.faults; in_faults = s.net.in_faults; out_faults = s.net.out_faults } };

    fn listen(&mut self, path: &str) -> Result<(), Failed> {
        self.net.listen(path)
    }

    fn accept(&mut self) -> Result<(Waiting<'a, R>, Telling<'a>), Failed> {
        let (link_in, link_out) = self.net.accept()?;
        Ok(self.ends(link_in, link_out))
    }

    fn connect(&mut self, path: &str) -> Result<(Waiting<'a, R>, Telling<'a>), Failed> {
        let (link_in, link_out) = self.net.connect(path)?;
        Ok(self.ends(link_in, link_out))
    }

    fn back(&mut self, link_in: Waiting<'a, R>, link_out: Telling<'a>) {
        self.net.back(link_in.inner, link_out.inner);
    }
}

// Serves a client that opens an upload and sends nothing of it until this moment. How many frames were written to the link.
fn writes<R: Threads + Wait + Sync + time::Clock + Abort>(
    rt: &R,
    alloc: Global,
    line: &str,
    moment: u64,
    status: u8,
) -> Result<usize, AllocError> {
    let written = AtomicU64::new(0);
    let asked = AtomicU64::new(0);
    let late = AtomicU64::new(0);
    let mut links = Vec::new(alloc);
    let opening = frames(alloc, &[start(1, 0), confirmation(1)])?;
    links.push(link(alloc, &opening, 0, 0)?)?;
    let mut net = Slow {
        rt,
        net: MemLinker::new(alloc, links, Vec::new(alloc))?,
        written: &written,
        asked: &asked,
        late: &late,
    };
    let mut clock = Late {
        last: 0,
        moment,
        written: &written,
        asked: &asked,
    };
    let ended = run(
        rt,
        alloc,
        &words(alloc, line)?,
        &mut MemSource::new(Vec::new(alloc), Vec::new(alloc)),
        &mut MemSink::new(Vec::new(alloc), Vec::new(alloc)),
        &mut store(alloc, 0)?,
        &mut net,
        &mut clock,
        &Free,
    );
    status_is(rt, line, ended, status);
    count_is(rt, "late", late.load(Ordering::SeqCst) as usize, 0);
    Ok(written.load(Ordering::SeqCst) as usize)
}

#[test]
fn the_first_tick_is_no_timeout(rt: HostRuntime) -> Result<(), AllocError> {
    let count = writes(&rt, rt.alloc(), "host p 1", 10_600, 6)?;
    count_is(&rt, "it is asked once", count, 2);
    Ok(())
}

// The upload was asked for at 10,000, and its first timeout is 2,000 ms behind.
#[test]
fn a_session_of_host_ticks_in_time(rt: HostRuntime) -> Result<(), AllocError> {
    let count = writes(&rt, rt.alloc(), "host p 1", 11_999, 6)?;
    count_is(&rt, "it is asked once", count, 2);
    let count = writes(&rt, rt.alloc(), "host p 1", 12_000, 6)?;
    count_is(&rt, "it is asked again", count, 3);
    Ok(())
}

// A session of `serve` has the clock of the run, by which 2,000 ms have passed at its first Tick.
#[test]
fn the_first_tick_of_an_old_run_of_serve_is_a_timeout(rt: HostRuntime) -> Result<(), AllocError> {
    let count = writes(&rt, rt.alloc(), "serve p 1 1", 10_600, 0)?;
    count_is(&rt, "it is asked again", count, 3);
    Ok(())
}
