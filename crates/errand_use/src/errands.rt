//! The commands of a client, over links in memory and over a socket of the system.
ghost use Rattle.std.specs.Prelude.{◌≡◌, IfOk, false};
ghost use Rattle.link_io.specs.LinkDevice.{IsUnused};

mod calls;
mod checks;
mod refused;
mod sockets;
mod transfers;
mod watches;
mod words;

use bytes::Bytes;
use link_io::{Clock, Fulls, Linker, MemLinker, MemSink, MemSource, MemStore, Still};
use pw_run::run;
use rpc_crew::Free;
use std::alloc::{AllocError, Global};
use std::sync::Wait;
use std::thread::Threads;

/// What a command ended with, and what it wrote.
#[derive(Drop)]
struct Ran {
    status: u8,
    output: Vec<u8>,
}

fn words_in(alloc: Global, line: &str) -> Result<Vec<String>, AllocError> {
    let mut words = Vec::new(alloc);
    for word in line.split_whitespace() {
        words.push(String::from_str(alloc, word)?)?;
    }
    Ok(words)
}

/// Runs a command over this store, this linker and this clock, with no input, and answers its status.
fn status_of<R: Threads + Wait + Sync, N: Linker, C: Clock + Send>(
    rt: &R,
    alloc: Global,
    line: &str,
    output: &mut MemSink,
    store: &mut MemStore,
    net: &mut N,
    clock: &mut C,
) -> Result<u8, AllocError>
    requires { output.old.finished ≡ false }
{
    let words = words_in(alloc, line)?;
    let mut input = MemSource::new(Vec::new(alloc), Vec::new(alloc));
    Ok(run(
        rt, alloc, &words, &mut input, output, store, net, clock, &Free,
    ))
}

/// Runs a command over this store, this linker and this clock, with an output whose calls with these numbers fail.
fn run_over<R: Threads + Wait + Sync, N: Linker, C: Clock + Send>(
    rt: &R,
    alloc: Global,
    line: &str,
    store: &mut MemStore,
    net: &mut N,
    clock: &mut C,
    fails: &[u64],
) -> Result<Ran, AllocError> {
    let mut output = MemSink::new(Vec::new(alloc), Vec::from_slice(alloc, fails)?);
    let status = status_of(rt, alloc, line, &mut output, store, net, clock)?;
    let output = Vec::from_slice(alloc, output.bytes())?;
    Ok(Ran { status, output })
}

/// Runs a command over links in memory, with an output whose calls with these numbers fail and a clock that stands still.
fn run_client<R: Threads + Wait + Sync>(
    rt: &R,
    alloc: Global,
    line: &str,
    store: &mut MemStore,
    net: &mut MemLinker,
    fails: &[u64],
) -> Result<Ran, AllocError> {
    run_over(rt, alloc, line, store, net, &mut Still::new(), fails)
}

/// The ends of a link over which this comes, and whose reads and writes with these numbers fail.
fn ends(
    alloc: Global,
    content: Vec<u8>,
    reads: &[u64],
    writes: &[u64],
) -> Result<(MemSource, MemSink), AllocError>
    ensures { IfOk result IsUnused }
{
    Ok((
        MemSource::new(content, Vec::from_slice(alloc, reads)?),
        MemSink::new(Vec::new(alloc), Vec::from_slice(alloc, writes)?),
    ))
}

/// A linker of one link over which this comes, and whose reads and writes with these numbers fail; its own calls with these numbers
/// fail, too.
fn failing_link(
    alloc: Global,
    content: Vec<u8>,
    reads: &[u64],
    writes: &[u64],
    fails: &[u64],
) -> Result<MemLinker, AllocError> {
    let mut links = Vec::new(alloc);
    links.push(ends(alloc, content, reads, writes)?)?;
    MemLinker::new(alloc, links, Vec::from_slice(alloc, fails)?)
}

/// A linker with one link over which this comes.
fn one_link(alloc: Global, content: Vec<u8>) -> Result<MemLinker, AllocError> {
    failing_link(alloc, content, &[], &[], &[])
}

/// A store that has resource 7, of which resource 9 was cut short, and whose calls with these numbers fail.
fn store(alloc: Global, fails: &[u64]) -> Result<MemStore, AllocError> {
    let mut full = Fulls::new(alloc);
    full.push((7, Bytes::copy_from_slice(alloc, b"seven")?))?;
    let mut left = Fulls::new(alloc);
    left.push((9, Bytes::copy_from_slice(alloc, b"abc")?))?;
    MemStore::new(alloc, full, left, Vec::from_slice(alloc, fails)?)
}
