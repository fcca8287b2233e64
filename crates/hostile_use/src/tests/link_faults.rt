//! One call of the linker, of a link's ends, of the output or of the store fails while two links are served, by its number, upwards
//! until a run meets no fault. The status names the device, and each device has got what came before.
ghost use Rattle.std.specs.Prelude.{◌≡◌, IfOk};
ghost use Rattle.link_io.specs.LinkDevice.{IsUnused};

use super::checks::{count_is, is_so, row_of, status_is, wrote};
use super::single_faults::{REPORT, stream};
use super::{FIRST, store, words};
use link_io::{MemLinker, MemSink, MemSource, Still};
use pw_run::run;
use rpc_crew::Free;
use std::alloc::{AllocError, Global};
use std::process::Abort;
use std::sync::Wait;
use std::thread::Threads;

// The lines of the first connection, over which a call of Echo, an upload and a second call of Echo come, and of the second, over
// which one call comes.
const FIRST_CALLS: &str = "conn 1
frames 9 bad 0 other 0 dropped 0
call 0 1 70f45cfb 8b470ee9 1 unary OK
call 1 1 5bd6c87b d4630586 1 bidi OK
call 2 1 70f45cfb 8b470ee9 2 unary OK
";

// How many frames are written to the first link.
const FRAMES: usize = 6;

#[derive(Clone, Copy, PartialEq, Eq)]
enum Device {
    Linker,
    // The ends of the first link.
    LinkIn,
    LinkOut,
    Output,
    Store,
}

// What is written to the output.
enum Lines {
    // The text of both, one behind the other.
    All(&'static str, &'static str),
    // It begins and ends so: what it tells of the calls is up to how far the threads have come.
    From(&'static str, &'static str),
}

// The device and the number of its call that fails; the status, what is written to the output, the number of frames that are
// written to the first link, and the number of links that are handed back.
type Row = (Device, u64, u8, Lines, usize, usize);

const ROWS: &[Row] = &[
    // Listening, and accepting each of the links.
    (Device::Linker, 1, 6, Lines::All("", ""), 0, 0),
    (Device::Linker, 2, 6, Lines::All("", ""), 0, 0),
    (
        Device::Linker,
        3,
        6,
        Lines::All(FIRST_CALLS, "done\n"),
        FRAMES,
        1,
    ),
    (
        Device::Linker,
        4,
        0,
        Lines::All(FIRST_CALLS, DONE),
        FRAMES,
        2,
    ),
    // The read of all bytes, and that of the end.
    (
        Device::LinkIn,
        1,
        3,
        Lines::All(NOTHING, "source fault\n"),
        0,
        1,
    ),
    (
        Device::LinkIn,
        2,
        3,
        Lines::All(FIRST_CALLS, "source fault\n"),
        FRAMES,
        1,
    ),
    (
        Device::LinkIn,
        3,
        0,
        Lines::All(FIRST_CALLS, DONE),
        FRAMES,
        2,
    ),
    // The frame before the upload's begin has a write of its own. Behind that a write takes what frames are there, so that it is up
    // to the threads how many writes follow, but not more than frames.
    (Device::LinkOut, 1, 4, Lines::From(BEGUN, SINK_FAULT), 0, 1),
    (Device::LinkOut, 2, 4, Lines::From(BEGUN, SINK_FAULT), 1, 1),
    (
        Device::LinkOut,
        7,
        0,
        Lines::All(FIRST_CALLS, DONE),
        FRAMES,
        2,
    ),
    // A write and a flush for each connection.
    (Device::Output, 1, 4, Lines::All("", ""), FRAMES, 1),
    (
        Device::Output,
        2,
        4,
        Lines::All(FIRST_CALLS, "done\n"),
        FRAMES,
        1,
    ),
    (
        Device::Output,
        3,
        4,
        Lines::All(FIRST_CALLS, "done\n"),
        FRAMES,
        2,
    ),
    (
        Device::Output,
        4,
        4,
        Lines::All(FIRST_CALLS, DONE),
        FRAMES,
        2,
    ),
    (
        Device::Output,
        5,
        0,
        Lines::All(FIRST_CALLS, DONE),
        FRAMES,
        2,
    ),
    // The list, the upload's begin, its two pieces and its commit; and the list for the second connection.
    (
        Device::Store,
        1,
        5,
        Lines::All(NOTHING, "store fault\n"),
        0,
        1,
    ),
    (Device::Store, 2, 5, Lines::From(BEGUN, STORE_FAULT), 1, 1),
    (Device::Store, 3, 5, Lines::From(BEGUN, STORE_FAULT), 3, 1),
    (Device::Store, 4, 5, Lines::From(BEGUN, STORE_FAULT), 3, 1),
    (Device::Store, 5, 5, Lines::From(BEGUN, STORE_FAULT), 3, 1),
    (
        Device::Store,
        6,
        5,
        Lines::All(FIRST_CALLS, UNLISTED),
        FRAMES,
        2,
    ),
    (
        Device::Store,
        7,
        0,
        Lines::All(FIRST_CALLS, DONE),
        FRAMES,
        2,
    ),
];

const DONE: &str = "done
conn 2
frames 1 bad 0 other 0 dropped 0
call 0 1 70f45cfb 8b470ee9 1 unary OK
done
";

const UNLISTED: &str = "done
conn 2
frames 0 bad 0 other 0 dropped 0
store fault
";

const NOTHING: &str = "conn 1
frames 0 bad 0 other 0 dropped 0
";

const BEGUN: &str = "conn 1
frames ";

const SINK_FAULT: &str = "
sink fault
";

const STORE_FAULT: &str = "
store fault
";

// The ends of a link over which this comes.
fn ends(
    alloc: Global,
    content: Vec<u8>,
    failing_read: u64,
    failing_write: u64,
) -> Result<(MemSource, MemSink), AllocError>
    ensures { IfOk result IsUnused }
{
    Ok((
        MemSource::new(content, Vec::from_slice(alloc, &[failing_read])?),
        MemSink::new(Vec::new(alloc), Vec::from_slice(alloc, &[failing_write])?),
    ))
}

// What became of the two links.
#[derive(Drop)]
struct Served {
    status: u8,
    net: MemLinker,
    output: MemSink,
}

// The number of the failing call of a device, or 0.
fn fail(of: Device, device: Device, number: u64) -> u64 {
    if of == device { number } else { 0 }
}

// Both links, where the call of this device with this number fails.
fn both_links(alloc: Global, device: Device, number: u64) -> Result<MemLinker, AllocError> {
    let mut links = Vec::new(alloc);
    links.push(ends(
        alloc,
        stream(alloc)?,
        fail(Device::LinkIn, device, number),
        fail(Device::LinkOut, device, number),
    )?)?;
    links.push(ends(alloc, Vec::from_slice(alloc, FIRST)?, 0, 0)?)?;
    let fails = Vec::from_slice(alloc, &[fail(Device::Linker, device, number)])?;
    MemLinker::new(alloc, links, fails)
}

// Serves both links by one worker, where the call of this device with this number fails.
fn serve<R: Threads + Wait + Sync>(
    rt: &R,
    alloc: Global,
    device: Device,
    number: u64,
) -> Result<Served, AllocError> {
    let mut net = both_links(alloc, device, number)?;
    let fails = Vec::from_slice(alloc, &[fail(Device::Output, device, number)])?;
    let mut output = MemSink::new(Vec::new(alloc), fails);
    let mut store = store(alloc, fail(Device::Store, device, number))?;
    let status = run(
        rt,
        alloc,
        &words(alloc, "serve p 1 2")?,
        &mut MemSource::new(Vec::new(alloc), Vec::new(alloc)),
        &mut output,
        &mut store,
        &mut net,
        &mut Still::new(),
        &Free,
    );
    Ok(Served {
        status,
        net,
        output,
    })
}

// The first so many frames that one thread writes over the first connection.
fn first_frames(alloc: Global, count: usize) -> Result<Vec<u8>, AllocError> {
    let mut frames = Vec::new(alloc);
    for digits in REPORT
        .lines()
        .filter_map(|line| line.strip_prefix("out "))
        .take(count)
    {
        let frame = hex::decode(alloc, digits).map_err(|_| AllocError)?;
        frames.extend_from_slice(&frame)?;
    }
    Ok(frames)
}

fn is_written(alloc: Global, lines: &Lines, output: &[u8]) -> Result<bool, AllocError> {
    match *lines {
        Lines::All(front, back) => {
            let text = format!(in alloc; "{front}{back}")?;
            Ok(output == text.as_bytes())
        }
        Lines::From(front, back) => {
            Ok(output.starts_with(front.as_bytes()) && output.ends_with(back.as_bytes()))
        }
    }
}

// The first link that was handed back, if any was, has got the first so many frames.
fn has_frames(
    rt: &impl Abort,
    alloc: Global,
    row: &str,
    net: &MemLinker,
    count: usize,
) -> Result<(), AllocError> {
    if let Some((_, link_out)) = net.gone().first() {
        let wanted = first_frames(alloc, count)?;
        wrote(rt, row, link_out.bytes(), &wanted);
    }
    Ok(())
}

fn ends_at_fault<R: Threads + Wait + Sync + Abort>(
    rt: &R,
    alloc: Global,
    number: usize,
    row: &Row,
) -> Result<(), AllocError> {
    let (device, call, status, ref lines, frames, back) = *row;
    let served = serve(rt, alloc, device, call)?;
    let row = row_of(alloc, "row", number as u64)?;
    let row = row.as_str();
    status_is(rt, row, served.status, status);
    let is_told = is_written(alloc, lines, served.output.bytes())?;
    is_so(rt, row, is_told);
    count_is(rt, row, served.net.gone().len(), back);
    has_frames(rt, alloc, row, &served.net, frames)
}

#[test]
fn a_fault_of_a_device_ends_what_is_served(rt: HostRuntime) -> Result<(), AllocError> {
    for (number, row) in ROWS.iter().enumerate() {
        ends_at_fault(&rt, rt.alloc(), number, row)?;
    }
    Ok(())
}
