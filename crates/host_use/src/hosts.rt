//! Connections that are served in turn, of which some fail, over devices in memory.
ghost use Rattle.std.specs.Prelude.{◌≡◌, IfOk};
ghost use Rattle.link_io.specs.LinkDevice.{IsUnused};

mod checks;
mod clocks;
mod faults;
mod one_frame;
mod uploads;

use bytes::Bytes;
use link_io::{Fulls, MemLinker, MemSink, MemSource, MemStore, Still};
use one_frame::OneFrames;
use pw_run::run;
use rpc_crew::Free;
use std::alloc::{AllocError, Global};
use std::sync::Wait;
use std::thread::Threads;

/// The frame of a REQUEST of Echo with payload `abc` on channel 1, call 1, and that of its RESPONSE.
const REQUEST: &[u8] =
    b"\x7E\xA5\x03\x10\x01\x1D\xFB\x5C\xF4\x70\x25\xE9\x0E\x47\x8B\x2A\x03\x61\x62\x63\x38\x01\x03\xED\xCE\x63\x7E";

const RESPONSE: &[u8] =
    b"\x7E\xA5\x03\x08\x01\x10\x01\x1D\xFB\x5C\xF4\x70\x25\xE9\x0E\x47\x8B\x2A\x03\x61\x62\x63\x38\x01\x97\x94\x28\x3C\x7E";

/// What became of a run: its status, the linker and the output, and the store.
#[derive(Drop)]
struct Hosted {
    status: u8,
    net: MemLinker,
    output: MemSink,
    store: MemStore,
}

fn words(alloc: Global, line: &str) -> Result<Vec<String>, AllocError> {
    let mut words = Vec::new(alloc);
    for word in line.split(' ') {
        words.push(String::from_str(alloc, word)?)?;
    }
    Ok(words)
}

/// The ends of a link over which this comes, and whose read and write with these numbers fail.
fn link(
    alloc: Global,
    content: &[u8],
    failing_read: u64,
    failing_write: u64,
) -> Result<(MemSource, MemSink), AllocError>
    ensures { IfOk result IsUnused }
{
    Ok((
        MemSource::new(
            Vec::from_slice(alloc, content)?,
            Vec::from_slice(alloc, &[failing_read])?,
        ),
        MemSink::new(Vec::new(alloc), Vec::from_slice(alloc, &[failing_write])?),
    ))
}

/// A store with a whole resource 9 of three bytes, whose call with this number fails.
fn store(alloc: Global, failing_call: u64) -> Result<MemStore, AllocError> {
    let mut full = Fulls::new(alloc);
    full.push((9, Bytes::copy_from_slice(alloc, b"xyz")?))?;
    MemStore::new(
        alloc,
        full,
        Fulls::new(alloc),
        Vec::from_slice(alloc, &[failing_call])?,
    )
}

/// Runs a command over these links, with a write for each frame. The call of the output and the call of the store with these numbers fail.
fn serve<R: Threads + Wait + Sync>(
    rt: &R,
    alloc: Global,
    line: &str,
    net: MemLinker,
    failing_output: u64,
    failing_store: u64,
) -> Result<Hosted, AllocError> {
    let mut output = MemSink::new(Vec::new(alloc), Vec::from_slice(alloc, &[failing_output])?);
    let mut store = store(alloc, failing_store)?;
    let mut net = OneFrames { net };
    let status = run(
        rt,
        alloc,
        &words(alloc, line)?,
        &mut MemSource::new(Vec::new(alloc), Vec::new(alloc)),
        &mut output,
        &mut store,
        &mut net,
        &mut Still::new(),
        &Free,
    );
    Ok(Hosted {
        status,
        net: net.net,
        output,
        store,
    })
}
