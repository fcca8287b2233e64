//! Streams, and what is told of them.
use link_io::{MemSink, MemSource, Why};
use std::alloc::{AllocError, Global};
use std::process::Abort;
use stream_dump::{MethodName, dump};

const NAMES: &[MethodName<'static>] = &[
    MethodName {
        service: b"demo.Demo",
        method: b"Echo",
    },
    MethodName {
        service: b"pw.transfer.Transfer",
        method: b"Read",
    },
    MethodName {
        service: b"pw.transfer.Transfer",
        method: b"Write",
    },
];

// A stream, and its dump.
const ROWS: &[(&[u8], &str)] = &[
    // Nothing, and a text: no flag came.
    (b"", "frames 0 bad 0 other 0 dropped 0\n"),
    (
        b"hello\n",
        "0 skipped 6\nframes 0 bad 0 other 0 dropped 0\n",
    ),
    // Flags alone, and bytes around them.
    (b"\x7E\x7E\x7E", "frames 0 bad 0 other 0 dropped 0\n"),
    (
        b"ab\x7E\x7Ec",
        "0 skipped 2\n4 open 1\nframes 0 bad 0 other 0 dropped 0\n",
    ),
    // Half a frame.
    (
        b"\x7E\xA5\x03\x10\x01\x1D\xFB\x5C\xF4",
        "1 open 8\nframes 0 bad 0 other 0 dropped 0\n",
    ),
    // A frame to another address, one with another control octet, and one with an empty payload.
    (
        b"\x7E\xF7\x03\x3F\x34\x2D\x83\x7E",
        "1 frame 123 6 other\nframes 1 bad 0 other 1 dropped 0\n",
    ),
    (
        b"\x7E\xA5\x13\x10\x01\x1D\xFB\x5C\xF4\x70\x25\xE9\x0E\x47\x8B\x2A\x01\x78\x38\x03\x8F\x26\xD3\xA9\x7E",
        "1 frame 82 23 other\nframes 1 bad 0 other 1 dropped 0\n",
    ),
    (
        b"\x7E\xA5\x03\xE9\x0B\xA0\x0B\x7E",
        "1 frame 82 6 request 0 00000000 00000000 0 payload 0\nframes 1 bad 0 other 0 dropped 1\n",
    ),
    // A REQUEST and a RESPONSE of Echo, and a REQUEST of it on channel 0, which nobody hears.
    (
        b"\x7E\xA5\x03\x10\x01\x1D\xFB\x5C\xF4\x70\x25\xE9\x0E\x47\x8B\x2A\x03\x61\x62\x63\x38\x01\x03\xED\xCE\x63\x7E",
        "1 frame 82 25 request 1 demo.Demo Echo 1 payload 3 616263\nframes 1 bad 0 other 0 dropped 0\n",
    ),
    (
        b"\x7E\xA5\x03\x08\x01\x10\x01\x1D\xFB\x5C\xF4\x70\x25\xE9\x0E\x47\x8B\x38\x01\xB3\x99\x68\x36\x7E",
        "1 frame 82 22 response 1 demo.Demo Echo 1 status OK payload 0\nframes 1 bad 0 other 0 dropped 0\n",
    ),
    (
        b"\x7E\xA5\x03\x1D\xFB\x5C\xF4\x70\x25\xE9\x0E\x47\x8B\x2A\x01\x78\x38\x03\x59\x15\x7D\x5E\x0C\x7E",
        "1 frame 82 22 request 0 demo.Demo Echo 3 payload 1 78\nframes 1 bad 0 other 0 dropped 1\n",
    ),
    // A SERVER_ERROR, a packet of no type, and one that is malformed.
    (
        b"\x7E\xA5\x03\x08\x05\x10\x01\x1D\xFB\x5C\xF4\x70\x25\xE9\x0E\x47\x8B\x30\x05\x38\x01\x9D\xD9\xCF\xD6\x7E",
        "1 frame 82 24 server_error 1 demo.Demo Echo 1 status NOT_FOUND payload 0\nframes 1 bad 0 other 0 dropped 0\n",
    ),
    (
        b"\x7E\xA5\x03\x08\x09\x10\x01\x1D\xFB\x5C\xF4\x70\x25\xE9\x0E\x47\x8B\x38\x01\x34\x55\xE1\xF9\x7E",
        "1 frame 82 22 type 9 1 demo.Demo Echo 1 payload 0\nframes 1 bad 0 other 0 dropped 1\n",
    ),
    (
        b"\x7E\xA5\x03\x08\x01\x10\x01\x0B\x04\x36\x48\x14\x7E",
        "1 frame 82 11 packet malformed at 4\nframes 1 bad 0 other 0 dropped 1\n",
    ),
    // The last data of a read, a message of it that is no chunk, and the bytes of a chunk in a message of Echo.
    (
        b"\x7E\xA5\x03\x08\x07\x10\x01\x1D\x7B\xC8\xD6\x5B\x25\xDA\x66\x78\x5B\x2A\x0A\x32\x02\x68\x69\x38\x00\x50\x00\x60\x01\x38\x01\x26\x04\x2B\x52\x7E",
        "1 frame 82 34 server_stream 1 pw.transfer.Transfer Read 1 chunk DATA session 1 bytes 2 last\nframes 1 bad 0 other 0 dropped 0\n",
    ),
    (
        b"\x7E\xA5\x03\x08\x07\x10\x01\x1D\x7B\xC8\xD6\x5B\x25\xDA\x66\x78\x5B\x2A\x03\x50\x01\x0B\x38\x01\xC7\xE5\xE9\x6B\x7E",
        "1 frame 82 27 server_stream 1 pw.transfer.Transfer Read 1 chunk malformed at 2\nframes 1 bad 0 other 0 dropped 0\n",
    ),
    (
        b"\x7E\xA5\x03\x08\x02\x10\x01\x1D\xFB\x5C\xF4\x70\x25\xE9\x0E\x47\x8B\x2A\x04\x50\x01\x60\x01\x38\x01\xDB\x68\xD4\x53\x7E",
        "1 frame 82 28 client_stream 1 demo.Demo Echo 1 payload 4 50016001\nframes 1 bad 0 other 0 dropped 0\n",
    ),
    // The faults: an escape at the end, too few bytes, another check sequence, and an address without an end.
    (
        b"\x7E\xA5\x03\x7D\x7E",
        "1 bad Escape 3\nframes 0 bad 1 other 0 dropped 0\n",
    ),
    (
        b"\x7E\xA5\x03\x7E",
        "1 bad Short 2\nframes 0 bad 1 other 0 dropped 0\n",
    ),
    (
        b"\x7E\xA5\x03\xE9\x0B\xA0\x0C\x7E",
        "1 bad Check 6\nframes 0 bad 1 other 0 dropped 0\n",
    ),
    (
        b"\x7E\xA4\x02\x3E\x0A\xBC\x65\x7E",
        "1 bad Address 6\nframes 0 bad 1 other 0 dropped 0\n",
    ),
];

// One upload of resource 7, `hello, store`, as its client sent it.
const UPLOAD: &[&[u8]] = &[
    b"\x7E\xA5\x03\x10\x01\x1D\x7B\xC8\xD6\x5B\x25\x86\x05\x63\xD4\x38\x01\x6B\x08\xF3\x62\x7E",
    b"\x7E\xA5\x03\x08\x02\x10\x01\x1D\x7B\xC8\xD6\x5B\x25\x86\x05\x63\xD4\x2A\x08\x50\x01\x58\x07\x68\x02\x70\x01\x38\x01\x11\xDF\xEF\x69\x7E",
    b"\x7E\xA5\x03\x08\x02\x10\x01\x1D\x7B\xC8\xD6\x5B\x25\x86\x05\x63\xD4\x2A\x06\x50\x07\x60\x01\x68\x02\x38\x01\x94\x9E\x72\xEF\x7E",
    b"\x7E\xA5\x03\x08\x02\x10\x01\x1D\x7B\xC8\xD6\x5B\x25\x86\x05\x63\xD4\x2A\x0D\x32\x07\x68\x65\x6C\x6C\x6F\x2C\x20\x50\x00\x60\x01\x38\x01\x3D\x7F\x45\xFF\x7E",
    b"\x7E\xA5\x03\x08\x02\x10\x01\x1D\x7B\xC8\xD6\x5B\x25\x86\x05\x63\xD4\x2A\x10\x28\x07\x32\x06\x73\x74\x6F\x72\x65\x0A\x38\x00\x50\x00\x60\x01\x38\x01\x7F\x46\xDD\x08\x7E",
    b"\x7E\xA5\x03\x08\x02\x10\x01\x1D\x7B\xC8\xD6\x5B\x25\x86\x05\x63\xD4\x2A\x04\x50\x05\x60\x01\x38\x01\x14\x0F\x96\x42\x7E",
    b"\x7E\xA5\x03\x08\x08\x10\x01\x1D\x7B\xC8\xD6\x5B\x25\x86\x05\x63\xD4\x38\x01\x8F\x9A\x62\x31\x7E",
];

const UPLOAD_TEXT: &str = "1 frame 82 20 request 1 pw.transfer.Transfer Write 1 payload 0\n\
23 frame 82 32 client_stream 1 pw.transfer.Transfer Write 1 chunk START session 1 resource 7 version 2\n\
57 frame 82 30 client_stream 1 pw.transfer.Transfer Write 1 chunk START_ACK_CONFIRMATION session 1 version 2\n\
89 frame 82 37 client_stream 1 pw.transfer.Transfer Write 1 chunk DATA session 1 bytes 7\n\
128 frame 82 40 client_stream 1 pw.transfer.Transfer Write 1 chunk DATA session 1 offset 7 bytes 6 last\n\
170 frame 82 28 client_stream 1 pw.transfer.Transfer Write 1 chunk COMPLETION_ACK session 1\n\
200 frame 82 22 client_request_completion 1 pw.transfer.Transfer Write 1 payload 0\n\
frames 7 bad 0 other 0 dropped 0\n";

// What its server answered.
const ANSWER: &[&[u8]] = &[
    b"\x7E\xA5\x03\x08\x07\x10\x01\x1D\x7B\xC8\xD6\x5B\x25\x86\x05\x63\xD4\x2A\x06\x50\x06\x60\x01\x68\x02\x38\x01\x67\xDE\x2A\xD2\x7E",
    b"\x7E\xA5\x03\x08\x07\x10\x01\x1D\x7B\xC8\xD6\x5B\x25\x86\x05\x63\xD4\x2A\x0A\x18\x80\x02\x48\x80\x08\x50\x02\x60\x01\x38\x01\x50\x16\x88\x9E\x7E",
    b"\x7E\xA5\x03\x08\x07\x10\x01\x1D\x7B\xC8\xD6\x5B\x25\x86\x05\x63\xD4\x2A\x06\x40\x00\x50\x04\x60\x01\x38\x01\x1D\xC4\x29\xC6\x7E",
    b"\x7E\xA5\x03\x08\x01\x10\x01\x1D\x7B\xC8\xD6\x5B\x25\x86\x05\x63\xD4\x38\x01\xE0\x8D\x10\x47\x7E",
];

const ANSWER_TEXT: &str =
    "1 frame 82 30 server_stream 1 pw.transfer.Transfer Write 1 chunk START_ACK session 1 version 2\n\
33 frame 82 34 server_stream 1 pw.transfer.Transfer Write 1 chunk PARAMETERS_RETRANSMIT session 1 window_end 1024 max_chunk 256\n\
69 frame 82 30 server_stream 1 pw.transfer.Transfer Write 1 chunk COMPLETION session 1 status OK\n\
101 frame 82 22 response 1 pw.transfer.Transfer Write 1 status OK payload 0\n\
frames 4 bad 0 other 0 dropped 0\n";

// The sink behind a dump with these names, whose calls of these numbers fail, and why the dump ended.
fn dumped(
    alloc: Global,
    names: &[MethodName<'_>],
    stream: &[u8],
    fails: (&[u64], &[u64]),
) -> Result<(Why, MemSink), AllocError> {
    let (reads, writes) = fails;
    let mut source = MemSource::new(
        Vec::from_slice(alloc, stream)?,
        Vec::from_slice(alloc, reads)?,
    );
    let mut sink = MemSink::new(Vec::new(alloc), Vec::from_slice(alloc, writes)?);
    let why = dump(names, &mut source, &mut sink);
    Ok((why, sink))
}

/// These names, over a stream, tell this text.
pub(super) fn tells(
    rt: &impl Abort,
    alloc: Global,
    names: &[MethodName<'_>],
    stream: &[u8],
    text: &str,
) -> Result<(), AllocError> {
    let (_why, sink) = dumped(alloc, names, stream, (&[], &[]))?;
    assert_eq!(rt; sink.bytes(), text.as_bytes());
    Ok(())
}

fn ends(
    rt: &impl Abort,
    alloc: Global,
    stream: &[u8],
    fails: (&[u64], &[u64]),
    ending: Why,
) -> Result<(), AllocError> {
    let (why, _sink) = dumped(alloc, NAMES, stream, fails)?;
    assert_eq!(rt; why, ending);
    Ok(())
}

#[test]
fn each_segment_has_its_line(rt: HostRuntime) -> Result<(), AllocError> {
    for (stream, text) in ROWS {
        tells(&rt, rt.alloc(), NAMES, stream, text)?;
    }
    Ok(())
}

#[test]
fn an_upload_is_told_in_words(rt: HostRuntime) -> Result<(), AllocError> {
    frames_tell(&rt, rt.alloc(), UPLOAD, UPLOAD_TEXT)
}

#[test]
fn the_answer_to_an_upload_is_told_in_words(rt: HostRuntime) -> Result<(), AllocError> {
    frames_tell(&rt, rt.alloc(), ANSWER, ANSWER_TEXT)
}

fn frames_tell(
    rt: &impl Abort,
    alloc: Global,
    frames: &[&[u8]],
    text: &str,
) -> Result<(), AllocError> {
    let mut stream = Vec::new(alloc);
    for frame in frames {
        stream.extend_from_slice(frame)?;
    }
    tells(rt, alloc, NAMES, &stream, text)
}

#[test]
fn more_than_a_frame_may_carry_is_long(rt: HostRuntime) -> Result<(), AllocError> {
    let stream = flagged(rt.alloc(), 8_197)?;
    let text = "1 bad Long 8197\nframes 0 bad 1 other 0 dropped 0\n";
    tells(&rt, rt.alloc(), NAMES, &stream, text)
}

// So many bytes between two flags.
fn flagged(alloc: Global, count: usize) -> Result<Vec<u8>, AllocError> {
    let mut stream = vec![in alloc; 0x7E]?;
    stream.extend_from_slice(&vec![in alloc; 0; count]?)?;
    stream.push(0x7E)?;
    Ok(stream)
}

#[test]
fn ids_without_a_name_are_digits(rt: HostRuntime) -> Result<(), AllocError> {
    let text = "1 frame 82 22 response 1 70f45cfb 8b470ee9 1 status OK payload 0\n\
frames 1 bad 0 other 0 dropped 0\n";
    tells(&rt, rt.alloc(), &[], RESPONSE, text)
}

#[test]
fn the_name_of_a_service_serves_its_other_methods(rt: HostRuntime) -> Result<(), AllocError> {
    let names = [MethodName {
        service: b"demo.Demo",
        method: b"Count",
    }];
    let text = "1 frame 82 22 response 1 demo.Demo 8b470ee9 1 status OK payload 0\n\
frames 1 bad 0 other 0 dropped 0\n";
    tells(&rt, rt.alloc(), &names, RESPONSE, text)
}

#[test]
fn each_ending_is_told(rt: HostRuntime) -> Result<(), AllocError> {
    ends(&rt, rt.alloc(), RESPONSE, (&[], &[]), Why::Settled)?;
    ends(&rt, rt.alloc(), RESPONSE, (&[1], &[]), Why::Source)?;
    ends(&rt, rt.alloc(), RESPONSE, (&[2], &[]), Why::Source)?;
    ends(&rt, rt.alloc(), RESPONSE, (&[], &[3]), Why::Sink)
}

// A RESPONSE of Echo.
const RESPONSE: &[u8] =
    b"\x7E\xA5\x03\x08\x01\x10\x01\x1D\xFB\x5C\xF4\x70\x25\xE9\x0E\x47\x8B\x38\x01\xB3\x99\x68\x36\x7E";
