//! Texts with runs of ordinary octets between their escapes: a decoder copies such a run in blocks of 32.
ghost use Rattle.std.specs.Prelude.{◌≤◌};

use hdlc_frame::{Bad, Decoded, decode_pieces, encode_ui};
use std::alloc::{AllocError, Global};
use std::process::Abort;
use std::test::Fail;

// How many ordinary octets stand between two that are escaped.
const RUNS: &[usize] = &[0, 1, 2, 30, 31, 32, 33, 34, 63, 64, 65, 95, 96, 97];

fn push_run(octets: &mut Vec<u8>, run: usize) -> Result<(), AllocError> {
    for _ in 0..run {
        octets.push(0x61)?;
    }
    Ok(())
}

// A flag, a run, an escape, a run and a flag.
fn content_with(alloc: Global, run: usize) -> Result<Vec<u8>, AllocError> {
    let mut payload = Vec::new(alloc);
    payload.push(0x7e)?;
    push_run(&mut payload, run)?;
    payload.push(0x7d)?;
    push_run(&mut payload, run)?;
    payload.push(0x7e)?;
    Ok(payload)
}

// The payload of the one frame that was found, or the one fault.
fn found(all: &[Decoded]) -> Option<Result<&[u8], Bad>> {
    match all {
        [Decoded::Frame { payload, .. }] => Some(Ok(payload.as_slice())),
        [Decoded::Bad(bad)] => Some(Err(*bad)),
        _ => None,
    }
}

fn finds(
    rt: &impl Abort,
    alloc: Global,
    limit: usize,
    pieces: &[&[u8]],
    want: Result<&[u8], Bad>,
) -> Result<(), Fail>
    requires { (6 ≤ limit) × (limit ≤ 8192) }
{
    let all = decode_pieces(alloc, limit, pieces)?;
    assert_eq!(rt; found(&all), Some(want));
    Ok(())
}

// However the stream is cut in two.
fn finds_however_cut(
    rt: &impl Abort,
    alloc: Global,
    limit: usize,
    stream: &[u8],
    want: Result<&[u8], Bad>,
) -> Result<(), Fail>
    requires { (6 ≤ limit) × (limit ≤ 8192) }
{
    for cut in 0..stream.len() {
        let (before, behind) = stream.split_at(cut);
        finds(rt, alloc, limit, &[before, behind], want)?;
    }
    Ok(())
}

// A content of the limit is read back, and one that is longer by an octet is refused.
fn is_read_back(rt: &impl Abort, alloc: Global, run: usize) -> Result<(), Fail> {
    let payload = content_with(alloc, run)?;
    let mut stream = Vec::new(alloc);
    encode_ui(82, &payload, &mut stream)?;
    let limit = payload.len().saturating_add(6);
    assert!(rt; 7 <= limit && limit <= 8192);
    finds_however_cut(rt, alloc, limit, &stream, Ok(&payload))?;
    finds_however_cut(rt, alloc, limit - 1, &stream, Err(Bad::Long))
}

#[test]
fn runs_between_escapes_are_read_back(rt: HostRuntime) -> Result<(), Fail> {
    for run in RUNS {
        is_read_back(&rt, rt.alloc(), *run)?;
    }
    Ok(())
}

// Behind an escape and a run: an escape in front of a flag, and escapes in front of one.
const ENDS: &[(&[u8], Bad)] = &[
    (&[0x7d, 0x7e], Bad::Escape),
    (&[0x7d, 0x7d, 0x61, 0x7e], Bad::Escape),
    (&[0x7d, 0x7d, 0x5e, 0x7e], Bad::Escape),
];

fn ends_badly(rt: &impl Abort, alloc: Global, run: usize, end: &(&[u8], Bad)) -> Result<(), Fail> {
    let (end, bad) = *end;
    let mut stream = Vec::new(alloc);
    stream.extend_from_slice(&[0x7e, 0x7d, 0x5e])?;
    push_run(&mut stream, run)?;
    stream.extend_from_slice(end)?;
    finds_however_cut(rt, alloc, 8192, &stream, Err(bad))
}

#[test]
fn a_run_with_a_bad_escape_behind_it_is_a_fault(rt: HostRuntime) -> Result<(), Fail> {
    for run in RUNS {
        for end in ENDS {
            ends_badly(&rt, rt.alloc(), *run, end)?;
        }
    }
    Ok(())
}
