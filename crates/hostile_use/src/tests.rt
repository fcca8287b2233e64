//! The commands over devices in memory.
ghost use Rattle.std.specs.Prelude.{◌≡◌, false};

mod calm_loads;
mod checks;
mod damage;
mod link_faults;
mod single_faults;
mod uncalm;

use link_io::{Fulls, MemLinker, MemSink, MemSource, MemStore, Sink, Source, Still};
use pw_run::run;
use rpc_crew::{Free, Gate};
use std::alloc::{AllocError, Global};
use std::sync::Wait;
use std::thread::Threads;

/// The frame of a REQUEST of Echo with payload `abc` on channel 1, call 1, and that of its RESPONSE; and the same of call 2.
const FIRST: &[u8] =
    b"\x7E\xA5\x03\x10\x01\x1D\xFB\x5C\xF4\x70\x25\xE9\x0E\x47\x8B\x2A\x03\x61\x62\x63\x38\x01\x03\xED\xCE\x63\x7E";

const SECOND: &[u8] =
    b"\x7E\xA5\x03\x10\x01\x1D\xFB\x5C\xF4\x70\x25\xE9\x0E\x47\x8B\x2A\x03\x61\x62\x63\x38\x02\xB9\xBC\xC7\xFA\x7E";

/// What a command ended with, and what it wrote.
#[derive(Drop)]
struct Ran {
    status: u8,
    output: Vec<u8>,
}

fn words(alloc: Global, line: &str) -> Result<Vec<String>, AllocError> {
    let mut words = Vec::new(alloc);
    for word in line.split_whitespace() {
        words.push(String::from_str(alloc, word)?)?;
    }
    Ok(words)
}

/// A store without a resource, whose call with this number fails.
fn store(alloc: Global, fail: u64) -> Result<MemStore, AllocError> {
    MemStore::new(
        alloc,
        Fulls::new(alloc),
        Fulls::new(alloc),
        Vec::from_slice(alloc, &[fail])?,
    )
}

/// Runs a command over these devices, with no link and a clock that stands still, and answers its status.
fn status_of<R: Threads + Wait + Sync, I: Source + Send, O: Sink, G: Gate + Sync>(
    rt: &R,
    alloc: Global,
    line: &str,
    input: &mut I,
    output: &mut O,
    store: &mut MemStore,
    gate: &G,
) -> Result<u8, AllocError>
    requires { O.finished output.old ≡ false }
{
    let mut net = MemLinker::new(alloc, Vec::new(alloc), Vec::new(alloc))?;
    let words = words(alloc, line)?;
    Ok(run(
        rt,
        alloc,
        &words,
        input,
        output,
        store,
        &mut net,
        &mut Still::new(),
        gate,
    ))
}

/// Runs a command on this input, with no resource, and with devices that don't fail.
fn run_on<R: Threads + Wait + Sync, I: Source + Send, G: Gate + Sync>(
    rt: &R,
    alloc: Global,
    line: &str,
    input: &mut I,
    gate: &G,
) -> Result<Ran, AllocError> {
    let mut output = MemSink::new(Vec::new(alloc), Vec::new(alloc));
    let mut store = store(alloc, 0)?;
    let status = status_of(rt, alloc, line, input, &mut output, &mut store, gate)?;
    Ok(Ran {
        status,
        output: Vec::from_slice(alloc, output.bytes())?,
    })
}

/// Runs a command on this stream, with no resource, and with devices that don't fail.
fn run_over<R: Threads + Wait + Sync>(
    rt: &R,
    alloc: Global,
    line: &str,
    stream: &[u8],
) -> Result<Ran, AllocError> {
    let mut input = MemSource::new(Vec::from_slice(alloc, stream)?, Vec::new(alloc));
    run_on(rt, alloc, line, &mut input, &Free)
}
