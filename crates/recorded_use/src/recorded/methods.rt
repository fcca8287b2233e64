//! Calls of the demo service, and packets to the transfer service.

use super::checks::{is_so, status_is, told};
use super::{CHAT, COUNT, DEMO, ECHO, SUM, Sent, run, stream, unhex};
use PacketType::{ClientError, ClientStream, Completion, Request};
use bytes::Bytes;
use rpc_frames::write_frame;
use rpc_packet::{CallName, Packet, PacketType};
use std::alloc::{AllocError, Global};
use std::process::Abort;

// The packets, and the report.
const CALLS: &[(&[Sent], &str)] = &[
    (
        &[(Request, 1, COUNT, 1, b"\x03", 0)],
        "frames 1 bad 0 other 0 dropped 0
call 0 1 70f45cfb b63613b6 1 server OK
out 7ea503080710011dfb5cf47025b61336b62a01013801d8ba1b167e
out 7ea503080710011dfb5cf47025b61336b62a0102380181045d147e
out 7ea503080710011dfb5cf47025b61336b62a01033801b66e9f157e
out 7ea503080110011dfb5cf47025b61336b6380198c1f0ac7e
done
",
    ),
    (
        &[
            (Request, 1, COUNT, 1, b"\x00", 0),
            (Request, 1, COUNT, 2, b"\x41", 0),
            (Request, 1, COUNT, 3, b"", 0),
        ],
        "frames 3 bad 0 other 0 dropped 0
call 0 1 70f45cfb b63613b6 1 server OK
call 1 1 70f45cfb b63613b6 2 server INVALID_ARGUMENT
call 2 1 70f45cfb b63613b6 3 server INVALID_ARGUMENT
out 7ea503080110011dfb5cf47025b61336b6380198c1f0ac7e
out 7ea503080110011dfb5cf47025b61336b6300338026d6d832b7e
out 7ea503080110011dfb5cf47025b61336b630033803fb5d845c7e
done
",
    ),
    // A message behind the end is answered with FAILED_PRECONDITION.
    (
        &[
            (Request, 2, SUM, 1, b"", 0),
            (ClientStream, 2, SUM, 1, b"\xff\x01", 0),
            (ClientStream, 2, SUM, 1, b"\x7e", 0),
            (Completion, 2, SUM, 1, b"", 0),
            (ClientStream, 2, SUM, 1, b"\x01", 0),
        ],
        "frames 5 bad 0 other 0 dropped 0
call 0 2 70f45cfb 09570bb8 1 client OK
out 7ea503080110021dfb5cf47025b80b57092a08000000000000017d5e3801881632b07e
out 7ea503080510021dfb5cf47025b80b5709300938011677eccd7e
done
",
    ),
    (
        &[
            (Request, 8, CHAT, 0, b"", 0),
            (ClientStream, 8, CHAT, 0, b"hi", 0),
            (Completion, 8, CHAT, 0, b"", 0),
        ],
        "frames 3 bad 0 other 0 dropped 0
call 0 8 70f45cfb 9ba981bc 0 bidi OK
out 7ea503080710081dfb5cf47025bc81a99b2a026869bcc18e987e
out 7ea503080110081dfb5cf47025bc81a99ba96e4a6d7e
done
",
    ),
    // A REQUEST of the same name cancels the live call; the second one stays open.
    (
        &[
            (Request, 1, CHAT, 7, b"", 0),
            (Request, 1, CHAT, 7, b"", 0),
            (ClientStream, 1, CHAT, 7, b"yo", 0),
        ],
        "frames 3 bad 0 other 0 dropped 0
call 0 1 70f45cfb 9ba981bc 7 bidi CANCELLED
call 1 1 70f45cfb 9ba981bc 7 bidi open
out 7ea503080710011dfb5cf47025bc81a99b2a02796f38072e78afe17e
done
",
    ),
    // An error of the client ends its call with its status; a number above 16 is UNKNOWN.
    (
        &[
            (Request, 1, SUM, 1, b"", 0),
            (ClientError, 1, SUM, 1, b"", 6),
            (Request, 1, CHAT, 2, b"", 0),
            (ClientError, 1, CHAT, 2, b"", 17),
            (Completion, 1, CHAT, 2, b"", 0),
        ],
        "frames 5 bad 0 other 0 dropped 0
call 0 1 70f45cfb 09570bb8 1 client ALREADY_EXISTS
call 1 1 70f45cfb 9ba981bc 2 bidi UNKNOWN
out 7ea503080510011dfb5cf47025bc81a99b300938028afbea697e
done
",
    ),
    // Two calls of one id, of two methods.
    (
        &[
            (Request, 1, SUM, 1, b"", 0),
            (Request, 1, ECHO, 1, b"abc", 0),
            (ClientStream, 1, SUM, 1, b"\x05", 0),
            (Completion, 1, SUM, 1, b"", 0),
        ],
        "frames 4 bad 0 other 0 dropped 0
call 0 1 70f45cfb 09570bb8 1 client OK
call 1 1 70f45cfb 8b470ee9 1 unary OK
out 7ea503080110011dfb5cf47025e90e478b2a0361626338019794283c7e
out 7ea503080110011dfb5cf47025b80b57092a080000000000000005380161cfcf267e
done
",
    ),
];

fn lines_in(text: &[u8]) -> usize {
    text.iter().filter(|byte| **byte == b'\n').count()
}

// The journal of these packets is legal. It has a line more than entries.
fn is_legal(
    rt: &impl Abort,
    alloc: Global,
    packets: &[Sent],
    report: &str,
) -> Result<(), AllocError> {
    let journal = run(alloc, "replay journal", stream(alloc, packets)?)?;
    status_is(rt, report, journal.status, 0);
    let lines = lines_in(&journal.output);
    let judged = run(alloc, "check", journal.output)?;
    let verdict = format!(in alloc; "legal {lines}\n")?;
    told(rt, report, &judged, 0, verdict.as_bytes());
    Ok(())
}

fn is_answered(
    rt: &impl Abort,
    alloc: Global,
    packets: &[Sent],
    report: &str,
) -> Result<(), AllocError> {
    let ran = run(alloc, "replay", stream(alloc, packets)?)?;
    told(rt, report, &ran, 0, report.as_bytes());
    is_legal(rt, alloc, packets, report)
}

#[test]
fn each_method_answers_by_its_rule(rt: HostRuntime) -> Result<(), AllocError> {
    for &(packets, report) in CALLS {
        is_answered(&rt, rt.alloc(), packets, report)?;
    }
    Ok(())
}

// A REQUEST of Echo with so many flags as its payload.
fn request(alloc: Global, length: usize) -> Result<Vec<u8>, AllocError> {
    let request = Packet {
        ptype: Request,
        name: CallName {
            channel: 1,
            service: DEMO,
            method: ECHO,
            call: 1,
        },
        payload: Bytes::from_vec(vec![in alloc; 0x7E; length]?).map_err(|_| AllocError)?,
        status: 0,
    };
    let mut content = Vec::new(alloc);
    write_frame(alloc, &request, &mut content)?;
    Ok(content)
}

// An Echo of so many bytes ends with this status.
fn ends_with(
    rt: &impl Abort,
    alloc: Global,
    length: usize,
    status: &str,
) -> Result<(), AllocError> {
    let ran = run(alloc, "replay", request(alloc, length)?)?;
    let lines = format!(in alloc;
        "frames 1 bad 0 other 0 dropped 0\ncall 0 1 70f45cfb 8b470ee9 1 unary {status}\nout "
    )?;
    status_is(rt, status, ran.status, 0);
    is_so(
        rt,
        status,
        ran.output.as_slice().starts_with(lines.as_bytes()),
    );
    Ok(())
}

#[test]
fn a_payload_that_cannot_be_sent_back_is_refused(rt: HostRuntime) -> Result<(), AllocError> {
    ends_with(&rt, rt.alloc(), 8_000, "OK")?;
    ends_with(&rt, rt.alloc(), 8_001, "RESOURCE_EXHAUSTED")
}

// A REQUEST of Read of the transfer service on channel 9, and what is written of it.
const READ_ON_NINE: &str = "7EA50310091D7BC8D65B25DA66785B380701373C197E";

const UNAVAILABLE: &[u8] =
    b"frames 1 bad 0 other 0 dropped 0\nout 7ea503080510091d7bc8d65b25da66785b300e3807b6914c957e\ndone\n";

#[test]
fn another_channel_is_unavailable(rt: HostRuntime) -> Result<(), AllocError> {
    let ran = run(rt.alloc(), "replay", unhex(rt.alloc(), READ_ON_NINE)?)?;
    told(&rt, "channel 9", &ran, 0, UNAVAILABLE);
    Ok(())
}
