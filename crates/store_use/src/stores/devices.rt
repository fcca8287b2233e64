//! Sources and sinks that fail, and that take one byte at a call.
ghost use Rattle.std.specs.Prelude.{None};

use super::checks::{count_is, is_so, status_is, told};
use super::{
    FIRST, FIRST_FRAME, FIRST_JOURNAL, FIRST_REPORT, Ran, empty_store, run_failing, run_on,
    status_of,
};
use link_io::{Failed, MemSink, MemSource, Sink, Source};
use std::alloc::{AllocError, Global};
use std::process::Abort;

// The words, the number of the read that fails, and what is written. The first read gives the whole input.
const FAILING_READS: &[(&str, u64, &[u8])] = &[
    (
        "replay",
        1,
        b"frames 0 bad 0 other 0 dropped 0\nsource fault\n",
    ),
    (
        "replay",
        2,
        b"frames 1 bad 0 other 0 dropped 0
call 0 1 70f45cfb 8b470ee9 1 unary OK
out 7ea503080110011dfb5cf47025e90e478b2a0361626338019794283c7e
source fault
",
    ),
    ("replay raw", 1, b""),
    ("replay journal", 1, b"journal\n0 endin\n"),
    ("replay journal", 2, FIRST_JOURNAL),
    ("check", 1, b""),
    ("check", 2, b""),
];

fn ends_at_read(
    rt: &impl Abort,
    alloc: Global,
    line: &str,
    fail: u64,
    written: &[u8],
) -> Result<(), AllocError> {
    let fails = Vec::from_slice(alloc, &[fail])?;
    let mut input = MemSource::new(Vec::from_slice(alloc, FIRST)?, fails);
    let ran = run_on(alloc, line, &mut input)?;
    told(rt, line, fail, &ran, 3, written);
    Ok(())
}

#[test]
fn a_failing_source_is_told_with_what_came_before(rt: HostRuntime) -> Result<(), AllocError> {
    for &(line, fail, written) in FAILING_READS {
        ends_at_read(&rt, rt.alloc(), line, fail, written)?;
    }
    Ok(())
}

// A source and a sink that take one byte at a call.
#[derive(Drop)]
struct OneByte<D: Drop> {
    inner: D,
}

impl Source for OneByte<MemSource> {
    ghost left = { λ _. None };

    ghost faults = { λ s. s.inner.faults };

    fn read(&mut self, buf: &mut [u8]) -> Result<usize, Failed> {
        self.inner.read(&mut buf[..1])
    }
}

impl Sink for OneByte<MemSink> {
    ghost written = { λ _. None };

    ghost faults = { λ s. s.inner.faults };

    ghost finished = { λ s. s.inner.finished };

    fn write(&mut self, bytes: &[u8]) -> Result<usize, Failed> {
        self.inner.write(&bytes[..1])
    }

    fn flush(&mut self) -> Result<(), Failed> {
        self.inner.flush()
    }

    fn finish(&mut self) -> Result<(), Failed> {
        self.inner.finish()
    }
}

// The words, the input, and what is written where nothing fails.
const REPORTS: &[(&str, &[u8], &[u8])] = &[
    ("replay", FIRST, FIRST_REPORT),
    ("replay raw", FIRST, FIRST_FRAME),
    ("replay journal", FIRST, FIRST_JOURNAL),
    ("check", FIRST_JOURNAL, b"legal 6\n"),
];

const LOAD_REPORT: &[u8] = b"load 1 1\ncalls 1\npackets 1\npayload 3\n";

// Where this call of the sink fails, just this is written.
fn leaves(
    rt: &impl Abort,
    alloc: Global,
    line: &str,
    content: &[u8],
    fail: u64,
    left: &[u8],
) -> Result<(), AllocError> {
    let mut input = MemSource::new(Vec::from_slice(alloc, content)?, Vec::new(alloc));
    let ran = run_failing(alloc, line, &mut input, fail, &mut empty_store(alloc, 0)?)?;
    told(rt, line, fail, &ran, 4, left);
    Ok(())
}

// Runs a command into a sink that takes one byte at a call, and whose call with this number fails.
fn run_by_bytes<I: Source>(
    alloc: Global,
    line: &str,
    input: &mut I,
    fail: u64,
) -> Result<Ran, AllocError> {
    let fails = Vec::from_slice(alloc, &[fail])?;
    let mut output = OneByte {
        inner: MemSink::new(Vec::new(alloc), fails),
    };
    let mut store = empty_store(alloc, 0)?;
    let status = status_of(alloc, line, input, &mut output, &mut store)?;
    Ok(Ran {
        status,
        output: output.inner,
    })
}

// Where the fifth of many writes of one byte fails, the first four bytes are written.
fn leaves_four(
    rt: &impl Abort,
    alloc: Global,
    line: &str,
    content: &[u8],
    written: &[u8],
) -> Result<(), AllocError> {
    let mut input = MemSource::new(Vec::from_slice(alloc, content)?, Vec::new(alloc));
    let ran = run_by_bytes(alloc, line, &mut input, 5)?;
    let output = ran.output.bytes();
    status_is(rt, line, 5, ran.status, 4);
    count_is(rt, line, 5, output.len(), 4);
    is_so(rt, line, 5, written.starts_with(output));
    Ok(())
}

// The one write fails, and then the flush, and then the fifth write of one byte.
fn has_a_beginning(
    rt: &impl Abort,
    alloc: Global,
    line: &str,
    content: &[u8],
    written: &[u8],
) -> Result<(), AllocError> {
    leaves(rt, alloc, line, content, 1, b"")?;
    leaves(rt, alloc, line, content, 2, written)?;
    leaves_four(rt, alloc, line, content, written)
}

#[test]
fn a_failing_sink_has_a_beginning(rt: HostRuntime) -> Result<(), AllocError> {
    for &(line, content, written) in REPORTS {
        has_a_beginning(&rt, rt.alloc(), line, content, written)?;
    }
    has_a_beginning(&rt, rt.alloc(), "load 1 1", b"", LOAD_REPORT)
}

// A command over a source and a sink that take one byte at a call.
fn is_the_same_by_bytes(
    rt: &impl Abort,
    alloc: Global,
    line: &str,
    content: &[u8],
    written: &[u8],
) -> Result<(), AllocError> {
    let mut input = OneByte {
        inner: MemSource::new(Vec::from_slice(alloc, content)?, Vec::new(alloc)),
    };
    let ran = run_by_bytes(alloc, line, &mut input, 0)?;
    told(rt, line, 0, &ran, 0, written);
    Ok(())
}

#[test]
fn bytes_that_come_and_go_one_by_one_change_nothing(rt: HostRuntime) -> Result<(), AllocError> {
    for &(line, content, written) in REPORTS {
        is_the_same_by_bytes(&rt, rt.alloc(), line, content, written)?;
    }
    Ok(())
}
