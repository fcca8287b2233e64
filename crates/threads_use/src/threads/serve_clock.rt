//! The time goes on while a write of a link waits.
ghost use Rattle.std.specs.Prelude.{◌≡◌, None};

use super::cases::{Ran, ask_all, linker};
use super::checks::word_is;
use super::crews::{A_LINK, SERVED};
use super::{empty_store, status_of, turn_until};
use link_io::{Clock, Failed, Linker, MemLinker, MemSink, MemSource, Sink, Source};
use rpc_crew::Free;
use std::alloc::{AllocError, Global};
use std::sync::Wait;
use std::sync::atomic::{AtomicU64, Ordering};
use std::thread::Threads;
use std::time;

// A clock that stands still, and counts how often it was asked.
#[derive(Drop)]
struct Asked<'a> {
    times: &'a AtomicU64,
}

impl<'a> Clock for Asked<'a> {
    ghost last = { λ _. 0 };

    fn now(&mut self) -> u64 {
        self.times.fetch_add(1, Ordering::SeqCst);
        0
    }
}

// A source whose second read waits until a first write is over.
#[derive(Drop)]
struct AfterWrite<'a, R> {
    rt: &'a R,
    inner: MemSource,
    begun: bool,
    written: &'a AtomicU64,
    late: &'a AtomicU64,
}

impl<'a, R: time::Clock> Source for AfterWrite<'a, R> {
    ghost left = { λ _. None };

    ghost faults = { λ s. s.inner.faults };

    fn read(&mut self, buf: &mut [u8]) -> Result<usize, Failed> {
        if self.begun {
            turn_until(self.rt, self.written, 1, self.late);
        }
        self.begun = true;
        self.inner.read(buf)
    }
}

// A sink whose first write waits until the clock was asked 1,000 times since that write began.
#[derive(Drop)]
struct AfterTime<'a, R> {
    rt: &'a R,
    inner: MemSink,
    begun: bool,
    asked: &'a AtomicU64,
    written: &'a AtomicU64,
    late: &'a AtomicU64,
}

impl<'a, R: time::Clock> Sink for AfterTime<'a, R> {
    ghost written = { λ _. None };

    ghost faults = { λ s. s.inner.faults };

    ghost finished = { λ s. s.inner.finished };

    fn write(&mut self, bytes: &[u8]) -> Result<usize, Failed> {
        if !self.begun {
            self.begun = true;
            let least = self.asked.load(Ordering::SeqCst).saturating_add(1_000);
            turn_until(self.rt, self.asked, least, self.late);
        }
        let count = self.inner.write(bytes);
        self.written.store(1, Ordering::SeqCst);
        count
    }

    fn flush(&mut self) -> Result<(), Failed> {
        self.inner.flush()
    }

    fn finish(&mut self) -> Result<(), Failed> {
        self.inner.finish()
    }
}

// A linker over memory whose links wait: the source for the sink, and the sink for the clock.
#[derive(Drop)]
struct Waiting<'a, R> {
    rt: &'a R,
    net: MemLinker,
    asked: &'a AtomicU64,
    written: &'a AtomicU64,
    late: &'a AtomicU64,
}

impl<'a, R> Waiting<'a, R> {
    // The same ends, which wait.
    fn waiting(
        &self,
        link_in: MemSource,
        link_out: MemSink,
    ) -> (AfterWrite<'a, R>, AfterTime<'a, R>)
        ensures source { result.0.inner ≡ link_in }
        ensures sink { result.1.inner ≡ link_out }
    {
        (
            AfterWrite {
                rt: self.rt,
                inner: link_in,
                begun: false,
                written: self.written,
                late: self.late,
            },
            AfterTime {
                rt: self.rt,
                inner: link_out,
                begun: false,
                asked: self.asked,
                written: self.written,
                late: self.late,
            },
        )
    }
}

impl<'a, R: time::Clock + Sync> Linker for Waiting<'a, R> {
    type In = AfterWrite<'a, R>;

    type Out = AfterTime<'a, R>;

    ghost links = { λ s. record { coming = None; gone = None; listens = s.net.listens; out = s.net.out; faults = s.net.faults; in_faults = s.net.in_faults; out_faults = s.net.out_faults } };

    fn listen(&mut self, path: &str) -> Result<(), Failed> {
        self.net.listen(path)
    }

    fn accept(&mut self) -> Result<(AfterWrite<'a, R>, AfterTime<'a, R>), Failed> {
        let (link_in, link_out) = self.net.accept()?;
        Ok(self.waiting(link_in, link_out))
    }

    fn connect(&mut self, path: &str) -> Result<(AfterWrite<'a, R>, AfterTime<'a, R>), Failed> {
        let (link_in, link_out) = self.net.connect(path)?;
        Ok(self.waiting(link_in, link_out))
    }

    fn back(&mut self, link_in: AfterWrite<'a, R>, link_out: AfterTime<'a, R>) {
        self.net.back(link_in.inner, link_out.inner);
    }
}

// Serves a link whose ends wait, by a clock that counts here how often it is asked. What waits in vain counts there.
fn serve_waiting<R: Threads + Wait + Sync + time::Clock>(
    rt: &R,
    alloc: Global,
    times: &AtomicU64,
    late: &AtomicU64,
) -> Result<Ran, AllocError> {
    let written = AtomicU64::new(0);
    let mut waiting = Waiting {
        rt,
        net: linker(alloc, &A_LINK)?,
        asked: times,
        written: &written,
        late,
    };
    let mut input = MemSource::new(Vec::new(alloc), Vec::new(alloc));
    let mut output = MemSink::new(Vec::new(alloc), Vec::new(alloc));
    let mut store = empty_store(alloc, 0)?;
    let status = status_of(
        rt,
        alloc,
        "serve p 1 1",
        &mut input,
        &mut output,
        &mut store,
        &mut waiting,
        &mut Asked { times },
        &Free,
    )?;
    Ok(Ran {
        status,
        output,
        store,
        net: waiting.net,
        is_input_left: false,
    })
}

#[test]
fn the_clock_is_asked_while_a_write_waits(rt: HostRuntime) -> Result<(), AllocError> {
    let times = AtomicU64::new(0);
    let late = AtomicU64::new(0);
    let ran = serve_waiting(&rt, rt.alloc(), &times, &late)?;
    ask_all(&rt, 0, &ran, SERVED);
    word_is(&rt, "late", &late, 0);
    Ok(())
}
