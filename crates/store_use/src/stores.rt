//! Recorded commands over stores that hold what they are given, and over sources, sinks and stores that fail.
ghost use Rattle.std.specs.Prelude.{◌≡◌, false};

mod checks;
mod devices;
mod input_limit;
mod journal_limit;
mod listing;
mod says;
mod uploads;
mod uploads_served;

use link_io::{Fulls, MemSink, MemSource, MemStore, Sink, Source};
use pw_run::run_recorded;
use std::alloc::{AllocError, Global};

/// The frame of a REQUEST of Echo with payload `abc` on channel 1, call 1, and what each form of `replay` writes of it.
const FIRST: &[u8] =
    b"\x7E\xA5\x03\x10\x01\x1D\xFB\x5C\xF4\x70\x25\xE9\x0E\x47\x8B\x2A\x03\x61\x62\x63\x38\x01\x03\xED\xCE\x63\x7E";

const FIRST_FRAME: &[u8] =
    b"\x7E\xA5\x03\x08\x01\x10\x01\x1D\xFB\x5C\xF4\x70\x25\xE9\x0E\x47\x8B\x2A\x03\x61\x62\x63\x38\x01\x97\x94\x28\x3C\x7E";

const FIRST_REPORT: &[u8] = b"frames 1 bad 0 other 0 dropped 0
call 0 1 70f45cfb 8b470ee9 1 unary OK
out 7ea503080110011dfb5cf47025e90e478b2a0361626338019794283c7e
done
";

const FIRST_JOURNAL: &[u8] = b"journal
0 arrive 10011dfb5cf47025e90e478b2a036162633801
2 start 0
2 finish 0 0:616263
1 flush
0 endin
";

/// What a command ended with, and what it wrote.
struct Ran {
    status: u8,
    output: MemSink,
}

impl Drop for Ran {
    fn drop(self) {
        let Self {
            status: _,
            output: _,
        } = self;
    }
}

fn words(alloc: Global, line: &str) -> Result<Vec<String>, AllocError> {
    let mut words = Vec::new(alloc);
    for word in line.split_whitespace() {
        words.push(String::from_str(alloc, word)?)?;
    }
    Ok(words)
}

/// A store without a resource, whose call with this number fails.
fn empty_store(alloc: Global, fail: u64) -> Result<MemStore, AllocError> {
    let fails = Vec::from_slice(alloc, &[fail])?;
    MemStore::new(alloc, Fulls::new(alloc), Fulls::new(alloc), fails)
}

/// Runs a command over these devices, and answers its status.
fn status_of<I: Source, O: Sink>(
    alloc: Global,
    line: &str,
    input: &mut I,
    output: &mut O,
    store: &mut MemStore,
) -> Result<u8, AllocError>
    requires { O.finished output.old ≡ false }
{
    let words = words(alloc, line)?;
    Ok(run_recorded(alloc, &words, input, output, store))
}

/// Runs a command on this input and over this store, with a sink whose call with this number fails.
fn run_failing<I: Source>(
    alloc: Global,
    line: &str,
    input: &mut I,
    fail: u64,
    store: &mut MemStore,
) -> Result<Ran, AllocError> {
    let fails = Vec::from_slice(alloc, &[fail])?;
    let mut output = MemSink::new(Vec::new(alloc), fails);
    let status = status_of(alloc, line, input, &mut output, store)?;
    Ok(Ran { status, output })
}

/// Runs a command on this input and with no resource, with devices that don't fail.
fn run_on<I: Source>(alloc: Global, line: &str, input: &mut I) -> Result<Ran, AllocError> {
    run_failing(alloc, line, input, 0, &mut empty_store(alloc, 0)?)
}

/// Runs a command on this content and over this store, with devices that don't fail.
fn run_storing(
    alloc: Global,
    line: &str,
    content: Vec<u8>,
    store: &mut MemStore,
) -> Result<Ran, AllocError> {
    let mut input = MemSource::new(content, Vec::new(alloc));
    run_failing(alloc, line, &mut input, 0, store)
}
