//! The commands on threads, over devices in memory.
ghost use Rattle.std.specs.Prelude.{◌≡◌, false};

mod bridges;
mod cases;
mod checks;
mod crew_gates;
mod crew_reports;
mod crews;
mod serve_clock;
mod serve_links;

use cases::{Given, Ran, linker};
use link_io::{Clock, Fulls, Linker, MemSink, MemStore, Sink, Source, Still};
use pw_run::run;
use rpc_crew::Gate;
use std::alloc::{AllocError, Global};
use std::sync::Wait;
use std::sync::atomic::{AtomicU64, Ordering};
use std::thread::Threads;
use std::time::Duration;
use std::{thread, time};

/// The frame of a REQUEST of Echo with payload `abc` on channel 1, call 1, and that of its RESPONSE; and the same REQUEST of call 2.
const FIRST: &[u8] =
    b"\x7E\xA5\x03\x10\x01\x1D\xFB\x5C\xF4\x70\x25\xE9\x0E\x47\x8B\x2A\x03\x61\x62\x63\x38\x01\x03\xED\xCE\x63\x7E";

const FIRST_FRAME: &[u8] =
    b"\x7E\xA5\x03\x08\x01\x10\x01\x1D\xFB\x5C\xF4\x70\x25\xE9\x0E\x47\x8B\x2A\x03\x61\x62\x63\x38\x01\x97\x94\x28\x3C\x7E";

const SECOND: &[u8] =
    b"\x7E\xA5\x03\x10\x01\x1D\xFB\x5C\xF4\x70\x25\xE9\x0E\x47\x8B\x2A\x03\x61\x62\x63\x38\x02\xB9\xBC\xC7\xFA\x7E";

/// What `serve` tells of a connection with the first REQUEST.
const FIRST_SERVED: &[u8] = b"conn 1
frames 1 bad 0 other 0 dropped 0
call 0 1 70f45cfb 8b470ee9 1 unary OK
done
";

// A gate or a device turns at most so often, a millisecond each time.
const TURNS: u32 = 10_000;

/// The words of a line, in which `''` stands for an empty one.
fn words(alloc: Global, line: &str) -> Result<Vec<String>, AllocError> {
    let mut words = Vec::new(alloc);
    for word in line.split_whitespace() {
        let word = if word == "''" { "" } else { word };
        words.push(String::from_str(alloc, word)?)?;
    }
    Ok(words)
}

/// These parts, one behind the other.
fn joined(alloc: Global, parts: &[&[u8]]) -> Result<Vec<u8>, AllocError> {
    let mut content = Vec::new(alloc);
    for part in parts {
        content.extend_from_slice(part)?;
    }
    Ok(content)
}

/// A store without a resource, whose call with this number fails.
fn empty_store(alloc: Global, fail: u64) -> Result<MemStore, AllocError> {
    let fails = Vec::from_slice(alloc, &[fail])?;
    MemStore::new(alloc, Fulls::new(alloc), Fulls::new(alloc), fails)
}

/// Runs a command over these devices, and answers its status.
fn status_of<
    R: Threads + Wait + Sync,
    I: Source + Send,
    O: Sink,
    N: Linker,
    C: Clock + Send,
    G: Gate + Sync,
>(
    rt: &R,
    alloc: Global,
    line: &str,
    input: &mut I,
    output: &mut O,
    store: &mut MemStore,
    net: &mut N,
    clock: &mut C,
    gate: &G,
) -> Result<u8, AllocError>
    requires { O.finished output.old ≡ false }
{
    let words = words(alloc, line)?;
    Ok(run(rt, alloc, &words, input, output, store, net, clock, gate))
}

/// Runs a command on this input, with this gate at its handlers and a clock that stands still, and otherwise over the devices that
/// it is given.
fn run_over<R: Threads + Wait + Sync, I: Source + Send, G: Gate + Sync>(
    rt: &R,
    alloc: Global,
    line: &str,
    input: &mut I,
    given: &Given,
    gate: &G,
) -> Result<Ran, AllocError> {
    let fails = Vec::from_slice(alloc, &[given.failing_write])?;
    let mut output = MemSink::new(Vec::new(alloc), fails);
    let mut store = empty_store(alloc, given.failing_store_call)?;
    let mut net = linker(alloc, given)?;
    let mut clock = Still::new();
    let status = status_of(
        rt,
        alloc,
        line,
        input,
        &mut output,
        &mut store,
        &mut net,
        &mut clock,
        gate,
    )?;
    let is_input_left = matches!(input.read(&mut [0]), Ok(1));
    Ok(Ran {
        status,
        output,
        store,
        net,
        is_input_left,
    })
}

/// Turns until the word is as large, and counts as late where it never was.
fn turn_until<R: time::Clock>(rt: &R, word: &AtomicU64, least: u64, late: &AtomicU64) {
    for _ in 0..TURNS {
        if word.load(Ordering::SeqCst) >= least {
            return;
        }
        thread::sleep(rt, Duration::from_millis(1));
    }
    late.fetch_add(1, Ordering::SeqCst);
}
