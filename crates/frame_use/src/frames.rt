//! Bytes from outside: the vectors of the format, and streams with the faults that each of them has.

use hdlc_frame::{
    Bad, Decoded, Decoder, Got, Machine, Phase, Place, PlacedFrame, Segment, Told, crc32,
    decode_pieces, encode_ui, encode_ui_into,
};
use std::alloc::Global;
use std::process::Abort;
use std::test::Fail;

const CHECKS: &[(&[u8], u32)] = &[
    (b"123456789", 0xcbf4_3926),
    (&[0xa5, 0x03], 0x0ba0_0be9),
    (&[0xf7, 0x03], 0x832d_343f),
    (&[0xa5, 0x03, 0x7e], 0xbc62_4961),
    (
        &[
            0xa5, 0x03, 0x10, 0x01, 0x1d, 0xfb, 0x5c, 0xf4, 0x70, 0x25, 0xe9, 0x0e, 0x47, 0x8b,
            0x2a, 0x03, 0x61, 0x62, 0x63, 0x38, 0x01,
        ],
        0x63ce_ed03,
    ),
    (
        &[
            0xa5, 0x03, 0x08, 0x01, 0x10, 0x01, 0x1d, 0xfb, 0x5c, 0xf4, 0x70, 0x25, 0xe9, 0x0e,
            0x47, 0x8b, 0x2a, 0x03, 0x61, 0x62, 0x63, 0x38, 0x01,
        ],
        0x3c28_9497,
    ),
    (
        &[
            0xa5, 0x03, 0x10, 0x01, 0x1d, 0xfb, 0x5c, 0xf4, 0x70, 0x25, 0xe9, 0x0e, 0x47, 0x8b,
            0x2a, 0x03, 0x61, 0x62, 0x63, 0x38, 0x02,
        ],
        0xfac7_bcb9,
    ),
    (
        &[
            0xa5, 0x03, 0x08, 0x01, 0x10, 0x01, 0x1d, 0xfb, 0x5c, 0xf4, 0x70, 0x25, 0xe9, 0x0e,
            0x47, 0x8b, 0x2a, 0x03, 0x61, 0x62, 0x63, 0x38, 0x02,
        ],
        0xa521_c52d,
    ),
];

fn check_is(rt: &impl Abort, octets: &[u8], check: u32) {
    assert_eq!(rt; crc32(octets), check, "{octets:?}");
}

#[test]
fn check_sequences(rt: HostRuntime) {
    for (octets, check) in CHECKS {
        check_is(&rt, octets, *check);
    }
}

const FRAMES: &[(u32, &[u8], &[u8])] = &[
    (82, &[], &[0x7e, 0xa5, 0x03, 0xe9, 0x0b, 0xa0, 0x0b, 0x7e]),
    (123, &[], &[0x7e, 0xf7, 0x03, 0x3f, 0x34, 0x2d, 0x83, 0x7e]),
    (
        82,
        &[0x7e],
        &[0x7e, 0xa5, 0x03, 0x7d, 0x5e, 0x61, 0x49, 0x62, 0xbc, 0x7e],
    ),
    (
        82,
        &[
            0x10, 0x01, 0x1d, 0xfb, 0x5c, 0xf4, 0x70, 0x25, 0xe9, 0x0e, 0x47, 0x8b, 0x2a, 0x03,
            0x61, 0x62, 0x63, 0x38, 0x01,
        ],
        &[
            0x7e, 0xa5, 0x03, 0x10, 0x01, 0x1d, 0xfb, 0x5c, 0xf4, 0x70, 0x25, 0xe9, 0x0e, 0x47,
            0x8b, 0x2a, 0x03, 0x61, 0x62, 0x63, 0x38, 0x01, 0x03, 0xed, 0xce, 0x63, 0x7e,
        ],
    ),
    (
        4294967295,
        &[0x7d, 0x5d],
        &[
            0x7e, 0xfe, 0xfe, 0xfe, 0xfe, 0x1f, 0x03, 0x7d, 0x5d, 0x5d, 0xa2, 0xdd, 0x69, 0xe6,
            0x7e,
        ],
    ),
];

fn are_octets(rt: &impl Abort, octets: &[u8], want: &[u8], address: u32) {
    assert_eq!(rt; octets, want, "{address}");
}

fn is_written(
    rt: &impl Abort,
    alloc: Global,
    address: u32,
    payload: &[u8],
    want: &[u8],
) -> Result<(), Fail> {
    let mut out = Vec::new(alloc);
    encode_ui(address, payload, &mut out)?;
    are_octets(rt, out.as_slice(), want, address);
    // what was there stays in front
    encode_ui(address, payload, &mut out)?;
    let (before, behind) = out.split_at(out.len() / 2);
    are_octets(rt, before, want, address);
    are_octets(rt, behind, want, address);
    Ok(())
}

#[test]
fn frames_are_written(rt: HostRuntime) -> Result<(), Fail> {
    for (address, payload, want) in FRAMES {
        is_written(&rt, rt.alloc(), *address, payload, want)?;
    }
    Ok(())
}

// The octets in hexadecimal, behind a text.
fn push_octets(text: &mut String, octets: &[u8]) -> Result<(), Fail> {
    for octet in octets {
        write!(text, "{octet:02x}")?;
    }
    Ok(())
}

// A frame's address, control octet and payload, or the fault, behind a text.
fn push_decoded(text: &mut String, decoded: &Decoded) -> Result<(), Fail> {
    match decoded {
        Decoded::Frame {
            address,
            control,
            payload,
        } => {
            write!(text, "{address}:{control}:")?;
            push_octets(text, payload)
        }
        Decoded::Bad(bad) => Ok(write!(text, "{bad:?}")?),
    }
}

// What was decoded, an entry for each segment.
fn told(alloc: Global, all: &[Decoded]) -> Result<String, Fail> {
    let mut text = String::new(alloc);
    for decoded in all {
        if !text.is_empty() {
            text.push(' ')?;
        }
        push_decoded(&mut text, decoded)?;
    }
    Ok(text)
}

const STREAMS: &[(&str, &[u8], &str)] = &[
    ("no octets", &[], ""),
    ("no flag", &[0xa5, 0x03, 0xe9, 0x0b, 0xa0, 0x0b], ""),
    (
        "one flag ends nothing",
        &[0xa5, 0x03, 0xe9, 0x0b, 0xa0, 0x0b, 0x7e],
        "",
    ),
    (
        "the last flag is missing",
        &[0x7e, 0xa5, 0x03, 0xe9, 0x0b, 0xa0, 0x0b],
        "",
    ),
    (
        "two frames share a flag",
        &[
            0x7e, 0xa5, 0x03, 0xe9, 0x0b, 0xa0, 0x0b, 0x7e, 0xf7, 0x03, 0x3f, 0x34, 0x2d, 0x83,
            0x7e,
        ],
        "82:3: 123:3:",
    ),
    (
        "flags repeat",
        &[
            0x7e, 0x7e, 0x7e, 0xa5, 0x03, 0xe9, 0x0b, 0xa0, 0x0b, 0x7e, 0x7e, 0x7e, 0x7e, 0xf7,
            0x03, 0x3f, 0x34, 0x2d, 0x83, 0x7e, 0x7e,
        ],
        "82:3: 123:3:",
    ),
    (
        "an escaped flag",
        &[0x7e, 0xa5, 0x03, 0x7d, 0x5e, 0x61, 0x49, 0x62, 0xbc, 0x7e],
        "82:3:7e",
    ),
    (
        "octets before the first flag and behind the last",
        &[
            0xf7, 0x03, 0x3f, 0x34, 0x2d, 0x83, 0x7e, 0xa5, 0x03, 0xe9, 0x0b, 0xa0, 0x0b, 0x7e,
            0xa5, 0x03,
        ],
        "82:3:",
    ),
    (
        "a request",
        &[
            0x7e, 0xa5, 0x03, 0x10, 0x01, 0x1d, 0xfb, 0x5c, 0xf4, 0x70, 0x25, 0xe9, 0x0e, 0x47,
            0x8b, 0x2a, 0x03, 0x61, 0x62, 0x63, 0x38, 0x01, 0x03, 0xed, 0xce, 0x63, 0x7e,
        ],
        "82:3:10011dfb5cf47025e90e478b2a036162633801",
    ),
    (
        "the last flag is missing, and then a whole frame",
        &[
            0x7e, 0xa5, 0x03, 0x10, 0x01, 0x1d, 0xfb, 0x5c, 0xf4, 0x70, 0x25, 0xe9, 0x0e, 0x47,
            0x8b, 0x2a, 0x03, 0x61, 0x62, 0x63, 0x38, 0x01, 0x03, 0xed, 0xce, 0x63, 0x7e, 0xa5,
            0x03, 0x10, 0x01, 0x1d, 0xfb, 0x5c, 0xf4, 0x70, 0x25, 0xe9, 0x0e, 0x47, 0x8b, 0x2a,
            0x03, 0x61, 0x62, 0x63, 0x38, 0x01, 0x03, 0xed, 0xce, 0x63, 0x7e,
        ],
        "82:3:10011dfb5cf47025e90e478b2a036162633801 82:3:10011dfb5cf47025e90e478b2a036162633801",
    ),
    (
        "an escape in front of a flag",
        &[
            0x7e, 0xa5, 0x03, 0x7d, 0x7e, 0xa5, 0x03, 0x10, 0x01, 0x1d, 0xfb, 0x5c, 0xf4, 0x70,
            0x25, 0xe9, 0x0e, 0x47, 0x8b, 0x2a, 0x03, 0x61, 0x62, 0x63, 0x38, 0x01, 0x03, 0xed,
            0xce, 0x63, 0x7e,
        ],
        "Escape 82:3:10011dfb5cf47025e90e478b2a036162633801",
    ),
    (
        "an escape in front of an escape",
        &[
            0x7e, 0xa5, 0x03, 0x7d, 0x7d, 0x00, 0x7e, 0xa5, 0x03, 0x10, 0x01, 0x1d, 0xfb, 0x5c,
            0xf4, 0x70, 0x25, 0xe9, 0x0e, 0x47, 0x8b, 0x2a, 0x03, 0x61, 0x62, 0x63, 0x38, 0x01,
            0x03, 0xed, 0xce, 0x63, 0x7e,
        ],
        "Escape 82:3:10011dfb5cf47025e90e478b2a036162633801",
    ),
    (
        "nothing begins anew behind a bad escape",
        &[0x7e, 0x7d, 0x7d, 0xa5, 0x03, 0xe9, 0x0b, 0xa0, 0x0b, 0x7e],
        "Escape",
    ),
    (
        "a changed octet",
        &[
            0x7e, 0xa5, 0x03, 0x10, 0x01, 0x1d, 0xfb, 0x5c, 0xf4, 0x70, 0x25, 0xe9, 0x0e, 0x47,
            0x8b, 0x2a, 0x03, 0x61, 0x62, 0x62, 0x38, 0x01, 0x03, 0xed, 0xce, 0x63, 0x7e, 0x7e,
            0xa5, 0x03, 0x10, 0x01, 0x1d, 0xfb, 0x5c, 0xf4, 0x70, 0x25, 0xe9, 0x0e, 0x47, 0x8b,
            0x2a, 0x03, 0x61, 0x62, 0x63, 0x38, 0x01, 0x03, 0xed, 0xce, 0x63, 0x7e,
        ],
        "Check 82:3:10011dfb5cf47025e90e478b2a036162633801",
    ),
    ("a segment of one octet", &[0x7e, 0x00, 0x7e], "Short"),
    (
        "five octets",
        &[0x7e, 0xa5, 0x03, 0xe9, 0x0b, 0xa0, 0x7e],
        "Short",
    ),
    (
        "another address",
        &[
            0x7e, 0xf7, 0x03, 0x3f, 0x34, 0x2d, 0x83, 0x7e, 0x7e, 0xa5, 0x03, 0xe9, 0x0b, 0xa0,
            0x0b, 0x7e,
        ],
        "123:3: 82:3:",
    ),
    (
        "an address that is not the shortest",
        &[0x7e, 0xa4, 0x01, 0x03, 0x55, 0x4c, 0x22, 0xa1, 0x7e],
        "82:3:",
    ),
    (
        "the largest address, and one more",
        &[
            0x7e, 0xfe, 0xfe, 0xfe, 0xfe, 0x1f, 0x03, 0x9c, 0x57, 0xee, 0xe4, 0x7e, 0x00, 0x00,
            0x00, 0x00, 0x21, 0x03, 0xfa, 0xe5, 0x54, 0xa4, 0x7e,
        ],
        "4294967295:3: Address",
    ),
    (
        "an address of six octets",
        &[
            0x7e, 0xa4, 0x00, 0x00, 0x00, 0x00, 0x01, 0x03, 0xf8, 0x48, 0x9a, 0xae, 0x7e,
        ],
        "Address",
    ),
    (
        "no control octet",
        &[0x7e, 0xa4, 0xa5, 0x75, 0x3c, 0x0e, 0x2d, 0x7e],
        "Address",
    ),
    (
        "an address that never ends",
        &[0x7e, 0xa4, 0xa4, 0xe3, 0x0c, 0x09, 0x5a, 0x7e],
        "Address",
    ),
    (
        "another control octet",
        &[0x7e, 0xa5, 0x13, 0x41, 0x0d, 0x76, 0xc6, 0x40, 0x7e],
        "82:19:41",
    ),
    (
        "damage to the first octet",
        &[0x5e, 0xa5, 0x03, 0xe9, 0x0b, 0xa0, 0x0b, 0x7e],
        "",
    ),
    (
        "damage to an inner octet",
        &[0x7e, 0xa5, 0x03, 0xe9, 0x2b, 0xa0, 0x0b, 0x7e],
        "Check",
    ),
    (
        "damage to the last octet",
        &[0x7e, 0xa5, 0x03, 0xe9, 0x0b, 0xa0, 0x0b, 0x5e],
        "",
    ),
    (
        "four faults among frames",
        &[
            0x7e, 0x7d, 0x7e, 0xa5, 0x03, 0xe9, 0x0b, 0xa0, 0x0b, 0x7e, 0x00, 0x7e, 0x7e, 0xa5,
            0x03, 0xe9, 0x0b, 0xa0, 0x0b, 0x7e, 0xa5, 0x03, 0xe9, 0x0b, 0xa0, 0x0c, 0x7e, 0x7e,
            0xf7, 0x03, 0x3f, 0x34, 0x2d, 0x83, 0x7e, 0xa4, 0xa5, 0x75, 0x3c, 0x0e, 0x2d, 0x7e,
        ],
        "Escape 82:3: Short 82:3: Check 123:3: Address",
    ),
];

// What is found in these pieces of a stream.
fn tells(
    rt: &impl Abort,
    alloc: Global,
    pieces: &[&[u8]],
    want: &str,
    name: &str,
) -> Result<(), Fail> {
    let found = decode_pieces(alloc, 8192, pieces)?;
    let cut = match pieces {
        [before, _] => before.len(),
        _ => 0,
    };
    assert_eq!(rt; told(alloc, &found)?.as_str(), want, "{name}, cut at {cut}");
    Ok(())
}

// It is the same however the stream is cut in two.
fn tells_however_cut(
    rt: &impl Abort,
    alloc: Global,
    row: &(&str, &[u8], &str),
) -> Result<(), Fail> {
    let (name, stream, want) = *row;
    tells(rt, alloc, &[stream], want, name)?;
    for cut in 0..stream.len() {
        let (before, behind) = stream.split_at(cut);
        tells(rt, alloc, &[before, behind], want, name)?;
    }
    Ok(())
}

#[test]
fn streams(rt: HostRuntime) -> Result<(), Fail> {
    for row in STREAMS {
        tells_however_cut(&rt, rt.alloc(), row)?;
    }
    Ok(())
}

const FRAME: &[u8] = &[0xa5, 0x03, 0xe9, 0x0b, 0xa0, 0x0b];

const FAULTS: &[(&str, &[u8])] = &[
    ("Escape", &[0xa5, 0x7d]),
    ("Long", &[0xa5, 0x03, 0xe9, 0x0b, 0xa0, 0x0b, 0x00]),
    ("Short", &[0xa5, 0x03, 0xe9, 0x0b, 0xa0]),
    ("Check", &[0xa5, 0x03, 0xe9, 0x0b, 0xa0, 0x0c]),
    ("Address", &[0xa4, 0xa5, 0x75, 0x3c, 0x0e, 0x2d]),
];

fn finds(rt: &impl Abort, alloc: Global, texts: &[&[u8]], want: &str) -> Result<(), Fail> {
    assert_eq!(rt; told_of(alloc, texts)?.as_str(), want);
    Ok(())
}

fn is_found_anywhere(rt: &impl Abort, alloc: Global, fault: &str, text: &[u8]) -> Result<(), Fail> {
    finds(rt, alloc, &[text], fault)?;
    let first = format!(in alloc; "{fault} 82:3: 82:3:")?;
    finds(rt, alloc, &[text, FRAME, FRAME], &first)?;
    let inner = format!(in alloc; "82:3: {fault} 82:3:")?;
    finds(rt, alloc, &[FRAME, text, FRAME], &inner)?;
    let last = format!(in alloc; "82:3: 82:3: {fault}")?;
    finds(rt, alloc, &[FRAME, FRAME, text], &last)
}

#[test]
fn each_fault_at_each_place(rt: HostRuntime) -> Result<(), Fail> {
    for (fault, text) in FAULTS {
        is_found_anywhere(&rt, rt.alloc(), fault, text)?;
    }
    Ok(())
}

// What is found in a stream of these texts with a flag in front of each and one at the end, in contents of at most six
// octets. It is the same however the stream is cut in two.
fn told_of(alloc: Global, texts: &[&[u8]]) -> Result<String, Fail> {
    let stream = flagged(alloc, texts)?;
    let whole = told(alloc, &decode_pieces(alloc, 6, &[&stream])?)?;
    for cut in 0..stream.len() {
        let (before, behind) = stream.split_at(cut);
        let parts = told(alloc, &decode_pieces(alloc, 6, &[before, behind])?)?;
        if parts.as_str() != whole.as_str() {
            return Err(Fail::new(format_args!("a cut at {cut} changed what was found")));
        }
    }
    Ok(whole)
}

fn flagged(alloc: Global, texts: &[&[u8]]) -> Result<Vec<u8>, Fail> {
    let mut stream = Vec::new(alloc);
    for text in texts {
        stream.push(0x7e)?;
        stream.extend_from_slice(text)?;
    }
    stream.push(0x7e)?;
    Ok(stream)
}

const REQUEST: &[u8] = &[
    0x7e, 0xa5, 0x03, 0x10, 0x01, 0x1d, 0xfb, 0x5c, 0xf4, 0x70, 0x25, 0xe9, 0x0e, 0x47, 0x8b, 0x2a,
    0x03, 0x61, 0x62, 0x63, 0x38, 0x01, 0x03, 0xed, 0xce, 0x63, 0x7e,
];

fn number_is(rt: &impl Abort, number: usize, want: usize) {
    assert_eq!(rt; number, want);
}

fn is_request(rt: &impl Abort, got: Got<'_>) {
    match got {
        Got::Frame(frame) => {
            number_is(rt, frame.address as usize, 82);
            number_is(rt, usize::from(frame.control), 3);
            number_is(rt, frame.payload.len(), 19);
        }
        Got::Bad(_) => panic!(rt; "a bad segment"),
    }
}

// Whether a request ends with this octet.
fn ends_request(rt: &impl Abort, decoder: &mut Decoder, octet: &[u8]) -> bool {
    let pushed = decoder.push(octet);
    assert_eq!(rt; pushed.taken, 1);
    match pushed.got {
        Some(got) => {
            is_request(rt, got);
            true
        }
        None => false,
    }
}

#[test]
fn each_frame_at_its_closing_flag(rt: HostRuntime) -> Result<(), Fail> {
    let mut stream = Vec::new(rt.alloc());
    // the first request lacks its last flag
    stream.extend_from_slice(&REQUEST[..REQUEST.len() - 1])?;
    stream.extend_from_slice(REQUEST)?;
    let mut decoder = Decoder::new(rt.alloc(), 8192)?;
    let mut places = Vec::new(rt.alloc());
    for at in 0..stream.len() {
        if ends_request(&rt, &mut decoder, &stream[at..at + 1]) {
            places.push(at)?;
        }
    }
    assert_eq!(rt; places.as_slice(), [26, 52].as_slice());
    Ok(())
}

// The limit, octets of payload, whether the frame is found.
const LIMITS: &[(usize, usize, bool)] = &[
    (6, 0, true),
    (6, 1, false),
    (7, 1, true),
    (8191, 8186, false),
    (8192, 8186, true),
    (8192, 8187, false),
];

// The one segment is a frame with so many octets of payload, or too long.
fn is_within(rt: &impl Abort, decoded: &Decoded, len: usize, is_found: bool) {
    let want = if is_found { Ok(len) } else { Err(Bad::Long) };
    let found = match decoded {
        Decoded::Frame { payload, .. } => Ok(payload.len()),
        Decoded::Bad(bad) => Err(*bad),
    };
    assert_eq!(rt; found, want, "{len}");
}

fn limit_holds(rt: &impl Abort, alloc: Global, row: &(usize, usize, bool)) -> Result<(), Fail> {
    let (limit, len, is_found) = *row;
    assert!(rt; 6 <= limit && limit <= 8192);
    let payload = vec![in alloc; 0x7e; len]?;
    let mut stream = Vec::new(alloc);
    encode_ui(82, &payload, &mut stream)?;
    let all = decode_pieces(alloc, limit, &[&stream])?;
    assert_eq!(rt; all.len(), 1, "{limit} {len}");
    for decoded in &all {
        is_within(rt, decoded, len, is_found);
    }
    Ok(())
}

#[test]
fn limits(rt: HostRuntime) -> Result<(), Fail> {
    for row in LIMITS {
        limit_holds(&rt, rt.alloc(), row)?;
    }
    Ok(())
}

const ESCAPED: &[u8] = &[0x7e, 0xa5, 0x03, 0x7d, 0x5e, 0x61, 0x49, 0x62, 0xbc, 0x7e];

const EMPTY_AND_MORE: &[u8] = &[0xa5, 0x03, 0xe9, 0x0b, 0xa0, 0x0b, 0x7e, 0x61];

// A frame of address 82 at octet 2 of the place.
fn frame(place: Place, len: usize) -> Segment {
    Segment::Frame(PlacedFrame {
        address: 82,
        control: 3,
        place,
        at: 2,
        len,
    })
}

fn writes_into(rt: &impl Abort, room: &mut [u8], want: Option<usize>) {
    assert_eq!(rt; encode_ui_into(82, &[0x7e], room), want);
}

fn takes(
    rt: &impl Abort,
    machine: &mut Machine,
    buffer: &mut [u8],
    piece: &[u8],
    taken: usize,
    segment: Segment,
) {
    let want = Told {
        taken,
        segment: Some(segment),
    };
    assert_eq!(rt; machine.push(buffer, piece), want);
}

#[test]
fn frames_in_the_memory_of_the_caller(rt: HostRuntime) {
    let mut text = [0; 32];
    writes_into(&rt, &mut text[..9], None);
    writes_into(&rt, &mut text, Some(10));
    are_octets(&rt, &text[..10], ESCAPED, 82);

    let mut buffer = [0; 8];
    let mut machine = Machine::new();
    let read = frame(Place::Buffer, 1);
    takes(&rt, &mut machine, &mut buffer, ESCAPED, 10, read);
    assert_eq!(rt; buffer[2], 0x7e);
    let empty = frame(Place::Piece, 0);
    takes(&rt, &mut machine, &mut buffer, EMPTY_AND_MORE, 7, empty);

    // A state that no stream leads to is safe.
    let mut other = Machine {
        phase: Phase::Plain,
        is_long: false,
        len: 100,
    };
    let bad = Segment::Bad(Bad::Check);
    takes(&rt, &mut other, &mut buffer, &[0x7e], 1, bad);
}
