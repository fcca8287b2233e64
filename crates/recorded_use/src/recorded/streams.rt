//! Streams with frames for others, damage, and packets to no live call.

use super::checks::told;
use super::{FIRST, FIRST_FRAME, FIRST_REPORT, run, unhex};
use hdlc_frame::encode_ui;
use std::alloc::{AllocError, Global};
use std::process::Abort;

// The REQUEST of `FIRST` as call 2, without its last flag, and with another payload than its check sequence is of.
const SECOND: &str = "7EA50310011DFB5CF47025E90E478B2A036162633802B9BCC7FA7E";

const UNFINISHED: &str = "7EA50310011DFB5CF47025E90E478B2A03616263380103EDCE63";

const DAMAGED: &str = "7EA50310011DFB5CF47025E90E478B2A03616262380103EDCE637E";
// An escape at a segment's end, and one in front of an escape. The next flag ends the segment.
const CUT_ESCAPE: &str = "7EA5037D";

const TWO_ESCAPES: &str = "7EA5037D7D00";
// A frame for address 123, one with another control octet, an empty payload, and one that is malformed.
const OTHER_ADDRESS: &str = "7EF7033F342D837E";

const OTHER_CONTROL: &str = "7EA51310011DFB5CF47025E90E478B2A017838038F26D3A97E";

const EMPTY_PAYLOAD: &str = "7EA503E90BA00B7E";

const MALFORMED: &str = "7EA503138454618F7E";
// A RESPONSE, which no server hears, and a REQUEST on channel 0.
const RESPONSE: &str = "7EA503080110011DFB5CF47025E90E478B2A017838031F51E7157E";

const CHANNEL_ZERO: &str = "7EA5031DFB5CF47025E90E478B2A0178380359157D5E0C7E";
// A REQUEST on channel 9, one of an unknown method, and packets to no live call.
const CHANNEL_NINE: &str = "7EA50310091DFB5CF47025B61336B62A01033801F46667FA7E";

const UNKNOWN_METHOD: &str = "7EA50310011DFB5CF4702579DDC9172A01783803C10EFA777E";

const STREAM_TO_ECHO: &str = "7EA503080210011DFB5CF47025E90E478B2A017838037D5D8C61FF7E";

const ERROR_TO_ECHO: &str = "7EA503080410011DFB5CF47025E90E478B300138032EDB6EB87E";

const ERROR_TO_UNKNOWN: &str = "7EA503080410011D01000000250100000030013803BE9CECBA7E";

// The input, in two parts, and what is written; the status is 0.
const STREAMS: &[(&str, &str, &str)] = &[
    (FIRST, "", FIRST_REPORT),
    ("", "", "frames 0 bad 0 other 0 dropped 0\ndone\n"),
    ("00", FIRST, FIRST_REPORT),
    (
        FIRST,
        SECOND,
        "frames 2 bad 0 other 0 dropped 0
call 0 1 70f45cfb 8b470ee9 1 unary OK
call 1 1 70f45cfb 8b470ee9 2 unary OK
out 7ea503080110011dfb5cf47025e90e478b2a0361626338019794283c7e
out 7ea503080110011dfb5cf47025e90e478b2a0361626338022dc521a57e
done
",
    ),
    (
        UNFINISHED,
        FIRST,
        "frames 2 bad 0 other 0 dropped 0
call 0 1 70f45cfb 8b470ee9 1 unary OK
call 1 1 70f45cfb 8b470ee9 1 unary OK
out 7ea503080110011dfb5cf47025e90e478b2a0361626338019794283c7e
out 7ea503080110011dfb5cf47025e90e478b2a0361626338019794283c7e
done
",
    ),
    (
        OTHER_ADDRESS,
        EMPTY_PAYLOAD,
        "frames 2 bad 0 other 1 dropped 1\ndone\n",
    ),
    (
        OTHER_CONTROL,
        MALFORMED,
        "frames 2 bad 0 other 1 dropped 1\ndone\n",
    ),
    (
        RESPONSE,
        CHANNEL_ZERO,
        "frames 2 bad 0 other 0 dropped 2\ndone\n",
    ),
    (
        ERROR_TO_ECHO,
        ERROR_TO_UNKNOWN,
        "frames 2 bad 0 other 0 dropped 0\ndone\n",
    ),
    (
        CHANNEL_NINE,
        UNKNOWN_METHOD,
        "frames 2 bad 0 other 0 dropped 0
out 7ea503080510091dfb5cf47025b61336b6300e3801cc44d3067e
out 7ea503080510011dfb5cf4702579ddc9173005380321aa26bd7e
done
",
    ),
    (
        STREAM_TO_ECHO,
        "",
        "frames 1 bad 0 other 0 dropped 0
out 7ea503080510011dfb5cf47025e90e478b30093803d541db317e
done
",
    ),
];

// What `replay` writes of these digits and then those.
fn reports(
    rt: &impl Abort,
    alloc: Global,
    digits: &str,
    more: &str,
    report: &str,
) -> Result<(), AllocError> {
    let mut content = unhex(alloc, digits)?;
    content.extend_from_slice(&unhex(alloc, more)?)?;
    let row = format!(in alloc; "{digits} {more}")?;
    let ran = run(alloc, "replay", content)?;
    told(rt, row.as_str(), &ran, 0, report.as_bytes());
    Ok(())
}

#[test]
fn each_stream_has_its_report(rt: HostRuntime) -> Result<(), AllocError> {
    for &(digits, more, report) in STREAMS {
        reports(&rt, rt.alloc(), digits, more, report)?;
    }
    Ok(())
}

// The report of `FIRST` behind a bad segment.
const BEHIND_DAMAGE: &str = "frames 1 bad 1 other 0 dropped 0
call 0 1 70f45cfb 8b470ee9 1 unary OK
out 7ea503080110011dfb5cf47025e90e478b2a0361626338019794283c7e
done
";

#[test]
fn a_fault_costs_its_segment(rt: HostRuntime) -> Result<(), AllocError> {
    reports(&rt, rt.alloc(), CUT_ESCAPE, FIRST, BEHIND_DAMAGE)?;
    reports(&rt, rt.alloc(), TWO_ESCAPES, FIRST, BEHIND_DAMAGE)?;
    reports(&rt, rt.alloc(), DAMAGED, FIRST, BEHIND_DAMAGE)
}

// A content of 8,192 bytes, one of 8,193, and a segment of one byte.
#[test]
fn a_content_past_its_limit_costs_its_segment(rt: HostRuntime) -> Result<(), AllocError> {
    let alloc = rt.alloc();
    let mut content = Vec::new(alloc);
    encode_ui(82, &vec![in alloc; 0u8; 8_186]?, &mut content)?;
    encode_ui(82, &vec![in alloc; 0u8; 8_187]?, &mut content)?;
    content.extend_from_slice(&[0x00, 0x7E])?;
    let ran = run(alloc, "replay", content)?;
    let report = b"frames 1 bad 2 other 0 dropped 1\ndone\n";
    told(&rt, "8,193 bytes", &ran, 0, report);
    Ok(())
}

fn sends(rt: &impl Abort, alloc: Global, digits: &str, written: &str) -> Result<(), AllocError> {
    let ran = run(alloc, "replay raw", unhex(alloc, digits)?)?;
    told(rt, digits, &ran, 0, &unhex(alloc, written)?);
    Ok(())
}

#[test]
fn raw_writes_the_frames_alone(rt: HostRuntime) -> Result<(), AllocError> {
    sends(&rt, rt.alloc(), FIRST, FIRST_FRAME)?;
    sends(&rt, rt.alloc(), "", "")?;
    sends(&rt, rt.alloc(), OTHER_ADDRESS, "")
}
