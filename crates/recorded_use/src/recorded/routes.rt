//! Frames between two sides, routed by `route`.

use super::checks::{is_so, status_is, told};
use super::{is_silent_at_a_fault, run, tells};
use std::alloc::{AllocError, Global};

// The text, the status, and what is written. The frame 7ef7033f342d837e has address 123 and no payload, 7ea503e90ba00b7e
// address 82, and 7ef600000001035c3b1bf27e address 123 in five octets.
const FRAMES: &[(&str, u8, &str)] = &[
    (
        "to right 123\nleft 7ef7033f342d837e\nleft 7ea503e90ba00b7e\n",
        0,
        "right 7ef7033f342d837e\nleft passed 1 home 0 lost 1 other 0 bad 0 full 0\nright passed 0 home 0 lost 0 other 0 bad 0 full 0\n",
    ),
    (
        "to left 123\nleft 7ef7033f342d837e\n",
        0,
        "left passed 0 home 1 lost 0 other 0 bad 0 full 0\nright passed 0 home 0 lost 0 other 0 bad 0 full 0\n",
    ),
    (
        "to left 123\nright 7ef600000001035c3b1bf27e\ndrain left 1\nright 7ef7135b249a9e7e",
        0,
        "left 7ef7033f342d837e\nleft passed 0 home 0 lost 0 other 0 bad 0 full 0\nright passed 1 home 0 lost 0 other 1 bad 0 full 0\n",
    ),
    (
        "",
        0,
        "left passed 0 home 0 lost 0 other 0 bad 0 full 0\nright passed 0 home 0 lost 0 other 0 bad 0 full 0\n",
    ),
    (
        "to right 123\nleft 7ef7033f342d837e\ndrain right 1\n\n",
        7,
        "route line 4\n",
    ),
];

#[test]
fn frames_go_on_by_their_address(rt: HostRuntime) -> Result<(), AllocError> {
    for &(text, status, written) in FRAMES {
        tells(&rt, rt.alloc(), "route", text, status, written)?;
    }
    Ok(())
}

// Appends this piece so many times.
fn push_times(text: &mut String, piece: &str, times: u32) -> Result<(), AllocError> {
    for _ in 0..times {
        text.push_str(piece)?;
    }
    Ok(())
}

// Segments with a wrong check sequence, an escape in front of the end, too few octets, an address in six octets, one of
// 2^32 and more, and too many octets; and then a frame that passes.
const BAD_SEGMENTS: &str = "to right 123
left 7ef7033f342d827e
left f77d7e007e
left f600000000010366b0d01a7e
left fefefefe2103e14c2ba57e
left ";

fn bad_segments(alloc: Global) -> Result<Vec<u8>, AllocError> {
    let mut text = String::from_str(alloc, BAD_SEGMENTS)?;
    push_times(&mut text, "00", 8_193)?;
    text.push_str("7ef7033f342d837e\n")?;
    Ok(text.into_bytes())
}

const SIX_BAD: &[u8] =
    b"right 7ef7033f342d837e\nleft passed 1 home 0 lost 0 other 0 bad 6 full 0\nright passed 0 home 0 lost 0 other 0 bad 0 full 0\n";

#[test]
fn each_bad_segment_is_counted(rt: HostRuntime) -> Result<(), AllocError> {
    let ran = run(rt.alloc(), "route", bad_segments(rt.alloc())?)?;
    told(&rt, "bad segments", &ran, 0, SIX_BAD);
    Ok(())
}

// 257 frames, and none of them drained.
fn undrained(alloc: Global) -> Result<Vec<u8>, AllocError> {
    let mut text = String::from_str(alloc, "to right 123\n")?;
    push_times(&mut text, "left 7ef7033f342d837e\n", 257)?;
    Ok(text.into_bytes())
}

const ONE_LEFT_OUT: &[u8] =
    b"\nleft passed 256 home 0 lost 0 other 0 bad 0 full 1\nright passed 0 home 0 lost 0 other 0 bad 0 full 0\n";

#[test]
fn frame_257_finds_no_place(rt: HostRuntime) -> Result<(), AllocError> {
    let ran = run(rt.alloc(), "route", undrained(rt.alloc())?)?;
    status_is(&rt, "257 frames", ran.status, 0);
    let is_counted = ran.output.as_slice().ends_with(ONE_LEFT_OUT);
    is_so(&rt, "257 frames", is_counted);
    Ok(())
}

// The text, and the bad line that is told.
const BAD_LINES: &[(&str, &str)] = &[
    ("to left 123\nto right 123\n", "route line 2\n"),
    ("to left 4294967296\n", "route line 1\n"),
    ("left 7e\nto left 123\n", "route line 2\n"),
    ("left 7E\n", "route line 1\n"),
    ("drain left 257\n", "route line 1\n"),
    ("drain right 0\n", "route line 1\n"),
];

#[test]
fn the_first_bad_line_is_told_alone(rt: HostRuntime) -> Result<(), AllocError> {
    for &(text, written) in BAD_LINES {
        tells(&rt, rt.alloc(), "route", text, 7, written)?;
    }
    Ok(())
}

// 65 routes.
fn many_routes(alloc: Global) -> Result<Vec<u8>, AllocError> {
    let mut text = String::new(alloc);
    for address in 0..65u32 {
        writeln!(text, "to right {address}")?;
    }
    Ok(text.into_bytes())
}

#[test]
fn route_65_is_a_bad_line(rt: HostRuntime) -> Result<(), AllocError> {
    let ran = run(rt.alloc(), "route", many_routes(rt.alloc())?)?;
    told(&rt, "65 routes", &ran, 7, b"route line 65\n");
    Ok(())
}

#[test]
fn nothing_is_written_at_a_source_fault(rt: HostRuntime) -> Result<(), AllocError> {
    is_silent_at_a_fault(
        &rt,
        rt.alloc(),
        "route",
        "to right 123\nleft 7ef7033f342d837e\n",
    )
}
