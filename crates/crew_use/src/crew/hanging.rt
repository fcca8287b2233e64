//! What the other end of a link hears of a halt.
ghost use Rattle.std.specs.Prelude.{None};

use super::{echo_calls, ended, serve_echoes, sink, source, turn_until, word_is, wrote};
use link_io::{Failed, MemSink, MemSource, Sink, Source, Still, Why};
use rpc_crew::Free;
use std::sync::atomic::{AtomicU64, Ordering};
use std::test::Fail;
use std::time;

// A source that meets its end once the sink of the same link is finished.
#[derive(Drop)]
struct Patient<'a, R> {
    rt: &'a R,
    inner: MemSource,
    finished: &'a AtomicU64,
    late: &'a AtomicU64,
}

impl<'a, R: time::Clock> Source for Patient<'a, R> {
    ghost left = { λ _. None };

    ghost faults = { λ s. s.inner.faults };

    fn read(&mut self, buf: &mut [u8]) -> Result<usize, Failed> {
        let count = self.inner.read(buf)?;
        if count == 0 {
            turn_until(self.rt, self.finished, 1, self.late);
        }
        Ok(count)
    }
}

// A sink that tells when it is finished.
#[derive(Drop)]
struct Telling<'a> {
    inner: MemSink,
    finished: &'a AtomicU64,
}

impl<'a> Sink for Telling<'a> {
    ghost written = { λ _. None };

    ghost faults = { λ s. s.inner.faults };

    ghost finished = { λ s. s.inner.finished };

    fn write(&mut self, bytes: &[u8]) -> Result<usize, Failed> {
        self.inner.write(bytes)
    }

    fn flush(&mut self) -> Result<(), Failed> {
        self.inner.flush()
    }

    fn finish(&mut self) -> Result<(), Failed> {
        let done = self.inner.finish();
        self.finished.store(1, Ordering::SeqCst);
        done
    }
}

// The first write fails. The client waits for its answer, and closes once it hears that nothing more comes.
#[test]
fn a_client_hears_that_a_write_failed(rt: HostRuntime) -> Result<(), Fail> {
    let alloc = rt.alloc();
    let finished = AtomicU64::new(0);
    let late = AtomicU64::new(0);
    let mut link_in = Patient {
        rt: &rt,
        inner: source(alloc, echo_calls(alloc, 2)?),
        finished: &finished,
        late: &late,
    };
    let mut link_out = Telling {
        inner: sink(alloc, &[1])?,
        finished: &finished,
    };
    let did = serve_echoes(
        &rt,
        alloc,
        &mut link_in,
        &mut link_out,
        1,
        &mut Still::new(),
        &Free,
    )?;
    ended(&rt, did, Why::Sink, 0);
    wrote(&rt, &link_out.inner, 0);
    word_is(&rt, &finished, 1);
    word_is(&rt, &late, 0);
    Ok(())
}
