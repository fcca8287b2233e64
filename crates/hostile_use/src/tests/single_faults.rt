//! One call of a device fails, by its number, upwards until a run meets no fault. The status names the device, and what was written
//! is what belongs to what came before.
ghost use Rattle.std.specs.Prelude.{None};

use super::checks::{
    is_not_stored, is_so, is_stored, lines_are, row_of, status_is, stores, told, wrote,
};
use super::{FIRST, Ran, SECOND, run_on, run_over, status_of, store};
use link_io::{Failed, MemSink, MemSource, MemStore, Sink, Source};
use rpc_crew::Free;
use std::alloc::{AllocError, Global};
use std::process::Abort;
use std::sync::Wait;
use std::thread::Threads;

// What a client sends that uploads `hello, store` and a newline as resource 7 in two chunks: `examples/upload/recording`.
const UPLOAD: &[&[u8]] = &[
    b"\x7E\xA5\x03\x10\x01\x1D\x7B\xC8\xD6\x5B\x25\x86\x05\x63\xD4\x38\x01\x6B\x08\xF3\x62\x7E",
    b"\x7E\xA5\x03\x08\x02\x10\x01\x1D\x7B\xC8\xD6\x5B\x25\x86\x05\x63\xD4\x2A\x08\x50\x01\x58\x07\x68\x02\x70\x01\x38\x01\x11\xDF\xEF\x69\x7E",
    b"\x7E\xA5\x03\x08\x02\x10\x01\x1D\x7B\xC8\xD6\x5B\x25\x86\x05\x63\xD4\x2A\x06\x50\x07\x60\x01\x68\x02\x38\x01\x94\x9E\x72\xEF\x7E",
    b"\x7E\xA5\x03\x08\x02\x10\x01\x1D\x7B\xC8\xD6\x5B\x25\x86\x05\x63\xD4\x2A\x0D\x32\x07\x68\x65\x6C\x6C\x6F\x2C\x20\x50\x00\x60\x01\x38\x01\x3D\x7F\x45\xFF\x7E",
    b"\x7E\xA5\x03\x08\x02\x10\x01\x1D\x7B\xC8\xD6\x5B\x25\x86\x05\x63\xD4\x2A\x10\x28\x07\x32\x06\x73\x74\x6F\x72\x65\x0A\x38\x00\x50\x00\x60\x01\x38\x01\x7F\x46\xDD\x08\x7E",
    b"\x7E\xA5\x03\x08\x02\x10\x01\x1D\x7B\xC8\xD6\x5B\x25\x86\x05\x63\xD4\x2A\x04\x50\x05\x60\x01\x38\x01\x14\x0F\x96\x42\x7E",
    b"\x7E\xA5\x03\x08\x08\x10\x01\x1D\x7B\xC8\xD6\x5B\x25\x86\x05\x63\xD4\x38\x01\x8F\x9A\x62\x31\x7E",
];

/// What is served of a call of Echo, the upload, and a second call of Echo: by one thread, and call by call.
pub(super) const REPORT: &str = "frames 9 bad 0 other 0 dropped 0
call 0 1 70f45cfb 8b470ee9 1 unary OK
call 1 1 5bd6c87b d4630586 1 bidi OK
call 2 1 70f45cfb 8b470ee9 2 unary OK
out 7ea503080110011dfb5cf47025e90e478b2a0361626338019794283c7e
out 7ea503080710011d7bc8d65b25860563d42a06500660016802380167de2ad27e
out 7ea503080710011d7bc8d65b25860563d42a0a1880024880085002600138015016889e7e
stored 7 13
out 7ea503080710011d7bc8d65b25860563d42a0640005004600138011dc429c67e
out 7ea503080110011d7bc8d65b25860563d43801e08d10477e
out 7ea503080110011dfb5cf47025e90e478b2a0361626338022dc521a57e
done
";

const CREW_REPORT: &str = "frames 9 bad 0 other 0 dropped 0
call 0 1 70f45cfb 8b470ee9 1 unary OK
call 1 1 5bd6c87b d4630586 1 bidi OK
call 2 1 70f45cfb 8b470ee9 2 unary OK
out 0 7ea503080110011dfb5cf47025e90e478b2a0361626338019794283c7e
out 1 7ea503080710011d7bc8d65b25860563d42a06500660016802380167de2ad27e
out 1 7ea503080710011d7bc8d65b25860563d42a0a1880024880085002600138015016889e7e
stored 1 7 13
out 1 7ea503080710011d7bc8d65b25860563d42a0640005004600138011dc429c67e
out 1 7ea503080110011d7bc8d65b25860563d43801e08d10477e
out 2 7ea503080110011dfb5cf47025e90e478b2a0361626338022dc521a57e
done
";

/// The commands, and what they write where nothing fails.
const REPORTS: &[(&str, &str)] = &[("replay", REPORT), ("crew 1", CREW_REPORT)];

/// What the client sends for these.
pub(super) fn stream(alloc: Global) -> Result<Vec<u8>, AllocError> {
    let mut stream = Vec::from_slice(alloc, FIRST)?;
    for frame in UPLOAD {
        stream.extend_from_slice(frame)?;
    }
    stream.extend_from_slice(SECOND)?;
    Ok(stream)
}

// A source and a sink that take so few bytes at a call.
const PIECE: usize = 8;

#[derive(Drop)]
struct Pieces<D: Drop> {
    inner: D,
}

impl Source for Pieces<MemSource> {
    ghost left = { λ _. None };

    ghost faults = { λ s. s.inner.faults };

    fn read(&mut self, buf: &mut [u8]) -> Result<usize, Failed> {
        let count = PIECE.min(buf.len());
        self.inner.read(&mut buf[..count])
    }
}

impl Sink for Pieces<MemSink> {
    ghost written = { λ _. None };

    ghost faults = { λ s. s.inner.faults };

    ghost finished = { λ s. s.inner.finished };

    fn write(&mut self, bytes: &[u8]) -> Result<usize, Failed> {
        let count = PIECE.min(bytes.len());
        self.inner.write(&bytes[..count])
    }

    fn flush(&mut self) -> Result<(), Failed> {
        self.inner.flush()
    }

    fn finish(&mut self) -> Result<(), Failed> {
        self.inner.finish()
    }
}

// A report with another last line than `done`.
fn ended_with(alloc: Global, report: Vec<u8>, last: &str) -> Result<String, AllocError> {
    let report = String::from_utf8(report).map_err(|_| AllocError)?;
    let Some(front) = report.strip_suffix("done\n") else {
        return Ok(String::new(alloc));
    };
    format!(in alloc; "{front}{last}\n")
}

// The command's run over a source of which this read fails.
fn run_failing<R: Threads + Wait + Sync>(
    rt: &R,
    alloc: Global,
    line: &str,
    whole: &[u8],
    fail: usize,
) -> Result<Ran, AllocError> {
    let mut input = Pieces {
        inner: MemSource::new(
            Vec::from_slice(alloc, whole)?,
            Vec::from_slice(alloc, &[fail as u64])?,
        ),
    };
    run_on(rt, alloc, line, &mut input, &Free)
}

// Where this read fails, the report is that of the bytes that came before it, but for its last line.
fn ends_at_read<R: Threads + Wait + Sync + Abort>(
    rt: &R,
    alloc: Global,
    line: &str,
    whole: &[u8],
    fail: usize,
) -> Result<(), AllocError> {
    let ran = run_failing(rt, alloc, line, whole, fail)?;
    let taken = whole
        .len()
        .min(fail.saturating_sub(1).saturating_mul(PIECE));
    let before = run_over(rt, alloc, line, &whole[..taken])?;
    let wanted = ended_with(alloc, before.output, "source fault")?;
    let row = row_of(alloc, line, fail as u64)?;
    told(rt, row.as_str(), &ran, 3, wanted.as_bytes());
    Ok(())
}

// Each read fails in turn. Behind the last one nothing does.
fn ends_at_each_read<R: Threads + Wait + Sync + Abort>(
    rt: &R,
    alloc: Global,
    line: &str,
    report: &str,
) -> Result<(), AllocError> {
    let whole = stream(alloc)?;
    let reads = whole.len().div_ceil(PIECE) + 1;
    for fail in 1..=reads {
        ends_at_read(rt, alloc, line, &whole, fail)?;
    }
    let ran = run_failing(rt, alloc, line, &whole, reads + 1)?;
    told(rt, line, &ran, 0, report.as_bytes());
    Ok(())
}

#[test]
fn a_read_that_fails_ends_the_input(rt: HostRuntime) -> Result<(), AllocError> {
    for &(line, report) in REPORTS {
        ends_at_each_read(&rt, rt.alloc(), line, report)?;
    }
    Ok(())
}

// Where this call of the sink fails, the status is this, and a beginning of the report is written. The upload is stored.
fn leaves_at_call<R: Threads + Wait + Sync + Abort>(
    rt: &R,
    alloc: Global,
    line: &str,
    report: &[u8],
    fail: usize,
    wanted: u8,
) -> Result<(), AllocError> {
    let mut input = MemSource::new(stream(alloc)?, Vec::new(alloc));
    let mut output = Pieces {
        inner: MemSink::new(Vec::new(alloc), Vec::from_slice(alloc, &[fail as u64])?),
    };
    let mut store = store(alloc, 0)?;
    let status = status_of(rt, alloc, line, &mut input, &mut output, &mut store, &Free)?;
    let written = report
        .len()
        .min(fail.saturating_sub(1).saturating_mul(PIECE));
    let row = row_of(alloc, line, fail as u64)?;
    status_is(rt, row.as_str(), status, wanted);
    wrote(rt, row.as_str(), output.inner.bytes(), &report[..written]);
    is_stored(rt, row.as_str(), &store);
    Ok(())
}

// Each call fails in turn, of which the last is the flush. Behind it nothing does.
fn leaves_at_each_call<R: Threads + Wait + Sync + Abort>(
    rt: &R,
    alloc: Global,
    line: &str,
    report: &[u8],
) -> Result<(), AllocError> {
    let calls = report.len().div_ceil(PIECE) + 1;
    for fail in 1..=calls {
        leaves_at_call(rt, alloc, line, report, fail, 4)?;
    }
    leaves_at_call(rt, alloc, line, report, calls + 1, 0)
}

#[test]
fn a_write_that_fails_leaves_a_beginning(rt: HostRuntime) -> Result<(), AllocError> {
    for &(line, report) in REPORTS {
        leaves_at_each_call(&rt, rt.alloc(), line, report.as_bytes())?;
    }
    Ok(())
}

// The lines of a report that tell what went out.
fn said(alloc: Global, report: &[u8]) -> Result<Vec<String>, AllocError> {
    let report = String::from_utf8(Vec::from_slice(alloc, report)?).map_err(|_| AllocError)?;
    let mut said = Vec::new(alloc);
    for line in report.lines() {
        if line.starts_with("out ") || line.starts_with("stored ") {
            said.push(String::from_str(alloc, line)?)?;
        }
    }
    Ok(said)
}

// The calls of the store, in order: the list, the upload's begin, its two pieces and its commit; and how many lines tell of what
// went out before each of them.
const SAID_BEFORE: &[usize] = &[0, 1, 3, 3, 3];

// The run of a command over a store whose call with this number fails, and the store.
fn run_storing<R: Threads + Wait + Sync>(
    rt: &R,
    alloc: Global,
    line: &str,
    fail: u64,
) -> Result<(Ran, MemStore), AllocError> {
    let mut input = MemSource::new(stream(alloc)?, Vec::new(alloc));
    let mut output = MemSink::new(Vec::new(alloc), Vec::new(alloc));
    let mut store = store(alloc, fail)?;
    let status = status_of(rt, alloc, line, &mut input, &mut output, &mut store, &Free)?;
    let output = Vec::from_slice(alloc, output.bytes())?;
    Ok((Ran { status, output }, store))
}

// Where the call of the store behind so many calls fails, just this many of these lines are told, and nothing is stored.
fn ends_behind_calls<R: Threads + Wait + Sync + Abort>(
    rt: &R,
    alloc: Global,
    line: &str,
    calls: u64,
    lines: &[String],
    count: usize,
) -> Result<(), AllocError> {
    let (ran, store) = run_storing(rt, alloc, line, calls.saturating_add(1))?;
    let told = said(alloc, &ran.output)?;
    let row = row_of(alloc, line, calls)?;
    status_is(rt, row.as_str(), ran.status, 5);
    is_so(rt, row.as_str(), ran.output.ends_with(b"\nstore fault\n"));
    let count = count.min(lines.len());
    lines_are(rt, row.as_str(), &told, &lines[..count]);
    is_not_stored(rt, row.as_str(), &store);
    Ok(())
}

// Each call of the store fails in turn. Behind the last one nothing does.
fn ends_behind_each_call<R: Threads + Wait + Sync + Abort>(
    rt: &R,
    alloc: Global,
    line: &str,
    report: &[u8],
) -> Result<(), AllocError> {
    let lines = said(alloc, report)?;
    let mut calls: u64 = 0;
    for &count in SAID_BEFORE {
        ends_behind_calls(rt, alloc, line, calls, &lines, count)?;
        calls = calls.saturating_add(1);
    }
    let (ran, store) = run_storing(rt, alloc, line, calls.saturating_add(1))?;
    told(rt, line, &ran, 0, report);
    stores(rt, line, &store, b"hello, store\n");
    Ok(())
}

#[test]
fn a_call_of_the_store_that_fails_is_the_last(rt: HostRuntime) -> Result<(), AllocError> {
    for &(line, report) in REPORTS {
        ends_behind_each_call(&rt, rt.alloc(), line, report.as_bytes())?;
    }
    Ok(())
}
