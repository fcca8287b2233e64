ghost use Rattle.std.specs.Prelude.{◌≡◌, ◌<◌, false, length};

mod folders;
mod links;
mod places;
mod stores;

use link_io::{
    Ending, Failed, MemSink, MemSource, Sink, Source, StdIn, StdOut, read_to_limit, write_whole,
};
use std::alloc::{AllocError, Global};
use std::io;
use std::process::Abort;

// A read of at most two bytes.
fn reads(
    rt: &impl Abort,
    source: &mut MemSource,
    buf: &mut [u8; 2],
    wanted: Result<usize, Failed>,
) {
    assert_eq!(rt; source.read(buf), wanted);
}

fn bytes_are(rt: &impl Abort, bytes: &[u8], wanted: &[u8]) {
    assert_eq!(rt; bytes, wanted);
}

#[test]
fn a_source_fails_at_the_chosen_call_and_loses_nothing(rt: HostRuntime) -> Result<(), AllocError> {
    let content = Vec::from_slice(rt.alloc(), &[1, 2, 3])?;
    let fails = Vec::from_slice(rt.alloc(), &[2])?;
    let mut source = MemSource::new(content, fails);
    let mut buf = [0; 2];
    reads(&rt, &mut source, &mut buf, Ok(2));
    bytes_are(&rt, &buf, &[1, 2]);
    reads(&rt, &mut source, &mut buf, Err(Failed));
    reads(&rt, &mut source, &mut buf, Ok(1));
    bytes_are(&rt, &buf, &[3, 2]);
    reads(&rt, &mut source, &mut buf, Ok(0));
    Ok(())
}

fn ended(rt: &impl Abort, answer: Result<(), Failed>, wanted: Result<(), Failed>) {
    assert_eq!(rt; answer, wanted);
}

fn writes(rt: &impl Abort, sink: &mut MemSink, bytes: &[u8], wanted: Result<usize, Failed>)
    requires open { sink.old.finished ≡ false }
    requires some { 0 < length bytes.now }
    ensures { sink.new.finished ≡ false }
{
    assert_eq!(rt; sink.write(bytes), wanted);
}

#[test]
fn a_sink_fails_at_the_chosen_call_and_keeps_the_rest(rt: HostRuntime) -> Result<(), AllocError> {
    let fails = Vec::from_slice(rt.alloc(), &[2, 3])?;
    let mut sink = MemSink::new(Vec::from_slice(rt.alloc(), &[9])?, fails);
    writes(&rt, &mut sink, &[1, 2], Ok(2));
    writes(&rt, &mut sink, &[3], Err(Failed));
    ended(&rt, sink.flush(), Err(Failed));
    ended(&rt, sink.flush(), Ok(()));
    ended(&rt, write_whole(&mut sink, &[4, 5]), Ok(()));
    bytes_are(&rt, sink.bytes(), &[9, 1, 2, 4, 5]);
    Ok(())
}

#[test]
fn a_sink_that_failed_to_finish_takes_more(rt: HostRuntime) -> Result<(), AllocError> {
    let fails = Vec::from_slice(rt.alloc(), &[1])?;
    let mut sink = MemSink::new(Vec::new(rt.alloc()), fails);
    if sink.finish().is_err() {
        ended(&rt, write_whole(&mut sink, &[4]), Ok(()));
        ended(&rt, sink.finish(), Ok(()));
    }
    bytes_are(&rt, sink.bytes(), &[4]);
    Ok(())
}

const READINGS: &[(usize, u64, Ending, usize)] = &[
    (0, 0, Ending::AtLimit, 0),
    (3, 0, Ending::AtLimit, 3),
    (4, 0, Ending::AtEnd, 3),
    (4, 1, Ending::Failed, 0),
    (4, 2, Ending::Failed, 3),
];

// The limit, the call that fails, how the reading ends, and how many bytes it took.
fn stops(
    rt: &impl Abort,
    alloc: Global,
    row: &(usize, u64, Ending, usize),
) -> Result<(), AllocError> {
    let (limit, fail, ending, length) = *row;
    let content = Vec::from_slice(alloc, &[1, 2, 3])?;
    let mut source = MemSource::new(content, Vec::from_slice(alloc, &[fail])?);
    let taken = read_to_limit(alloc, &mut source, limit)?;
    ends_so(rt, taken.ending, ending, limit, fail);
    length_is(rt, taken.bytes.len(), length, limit, fail);
    Ok(())
}

fn ends_so(rt: &impl Abort, ending: Ending, wanted: Ending, limit: usize, fail: u64) {
    assert_eq!(rt; ending, wanted, "limit {limit}, failing call {fail}");
}

fn length_is(rt: &impl Abort, length: usize, wanted: usize, limit: usize, fail: u64) {
    assert_eq!(rt; length, wanted, "limit {limit}, failing call {fail}");
}

#[test]
fn reading_stops_at_the_end_the_limit_and_a_fault(rt: HostRuntime) -> Result<(), AllocError> {
    for row in READINGS {
        stops(&rt, rt.alloc(), row)?;
    }
    Ok(())
}

// A device of the system that is broken, or takes nothing.
#[derive(Drop)]
struct Broken {
    takes_nothing: bool,
}

impl io::Read for Broken {
    fn read(&mut self, buf: &mut [u8]) -> io::Result<usize> {
        Err(io::Error::from(io::ErrorKind::Other))
    }
}

impl io::Write for Broken {
    fn write(&mut self, buf: &[u8]) -> io::Result<usize> {
        if self.takes_nothing {
            return Ok(0);
        }
        Err(io::Error::from(io::ErrorKind::Other))
    }

    fn flush(&mut self) -> io::Result<()> {
        Err(io::Error::from(io::ErrorKind::Other))
    }
}

fn counted(rt: &impl Abort, answer: Result<usize, Failed>, wanted: Result<usize, Failed>) {
    assert_eq!(rt; answer, wanted);
}

#[test]
fn the_standard_input_passes_bytes_on(rt: HostRuntime) {
    let mut buf = [0; 4];
    let input: [u8; 3] = [1, 2, 3];
    counted(&rt, StdIn::new(&input[..]).read(&mut buf), Ok(3));
    bytes_are(&rt, &buf, &[1, 2, 3, 0]);
}

#[test]
fn an_error_of_the_standard_input_is_a_fault(rt: HostRuntime) {
    let mut buf = [0; 4];
    let broken = Broken {
        takes_nothing: false,
    };
    counted(&rt, StdIn::new(broken).read(&mut buf), Err(Failed));
}

#[test]
fn the_standard_output_passes_bytes_on(rt: HostRuntime) {
    let mut written = Vec::new(rt.alloc());
    let mut output = StdOut::new(&mut written);
    counted(&rt, output.write(&[7, 8]), Ok(2));
    ended(&rt, output.flush(), Ok(()));
    bytes_are(&rt, &written, &[7, 8]);
}

fn turns_errors_into_faults(rt: &impl Abort, takes_nothing: bool) {
    let mut output = StdOut::new(Broken { takes_nothing });
    counted(rt, output.write(&[7]), Err(Failed));
    ended(rt, output.flush(), Err(Failed));
    ended(rt, output.finish(), Err(Failed));
}

#[test]
fn an_error_of_the_standard_output_is_a_fault(rt: HostRuntime) {
    turns_errors_into_faults(&rt, false);
    turns_errors_into_faults(&rt, true);
}
