//! Routes, a router that takes frames and gives them, and pumps over links in memory.

use frame_router::Port::*;
use frame_router::*;
use link_io::{MemSink, MemSource, Why};
use std::alloc::{AllocError, Global};
use std::process::Abort;
use std::test::Fail;

mod parts;
mod steps;

use steps::Step::*;
use steps::{Step, follows};

// A frame with address 123 and no payload, and one with address 82, as other encoders write them.
const TO_123: &[u8] = &[0x7E, 0xF7, 0x03, 0x3F, 0x34, 0x2D, 0x83, 0x7E];

const TO_82: &[u8] = &[0x7E, 0xA5, 0x03, 0xE9, 0x0B, 0xA0, 0x0B, 0x7E];

fn counts(passed: u64, home: u64, lost: u64) -> Tally {
    Tally {
        passed,
        home,
        lost,
        other: 0,
        bad: 0,
        full: 0,
    }
}

fn adds(
    rt: &impl Abort,
    routes: &mut Routes,
    address: u32,
    port: Port,
    want: Result<(), RouteRefused>,
) {
    assert_eq!(rt; routes.add(address, port), want);
}

fn finds(rt: &impl Abort, routes: &Routes, address: u32, want: Option<Port>) {
    assert_eq!(rt; routes.find(address), want);
}

fn tally_is(rt: &impl Abort, tally: Tally, want: Tally) {
    assert_eq!(rt; tally, want);
}

fn number_is(rt: &impl Abort, number: u64, want: u64) {
    assert_eq!(rt; number, want);
}

#[test]
fn an_address_has_one_route_and_65_are_too_many(rt: HostRuntime) -> Result<(), Fail> {
    let mut routes = Routes::new(rt.alloc());
    adds(&rt, &mut routes, 123, Port::Left, Ok(()));
    adds(&rt, &mut routes, 123, Port::Right, Err(RouteRefused::There));
    for address in 200..263u32 {
        adds(&rt, &mut routes, address, Port::Right, Ok(()));
    }
    let full = Err(RouteRefused::Full);
    adds(&rt, &mut routes, 4_294_967_295, Port::Left, full);
    adds(&rt, &mut routes, 262, Port::Left, Err(RouteRefused::There));
    finds(&rt, &routes, 123, Some(Port::Left));
    finds(&rt, &routes, 262, Some(Port::Right));
    finds(&rt, &routes, 263, None);
    Ok(())
}

const PASSES_OR_IS_LOST: &[Step] = &[
    Takes(Left, TO_123),
    Takes(Left, TO_82),
    Gives(Left, None),
    Gives(Right, Some(TO_123)),
    Gives(Right, None),
    Counted(Left, 1, 0, 1),
    Counted(Right, 0, 0, 0),
    Takes(Right, TO_123),
    Counted(Right, 0, 1, 0),
    Gives(Left, None),
];

#[test]
fn a_frame_passes_and_one_without_a_route_is_lost(rt: HostRuntime) -> Result<(), Fail> {
    follows(&rt, rt.alloc(), Right, PASSES_OR_IS_LOST)?;
    Ok(())
}

// Bad: a check sequence, an escape in front of the end, too short.
const BAD_CHECK: &[u8] = &[0x7E, 0xF7, 0x03, 0x3F, 0x34, 0x2D, 0x82, 0x7E];

const BAD_ESCAPE: &[u8] = &[0xF7, 0x7D, 0x7E, 0x01, 0x7E];

// A control octet of its own, with a check sequence that fits.
const OTHER_CONTROL: &[u8] = &[0xF7, 0x13, 0x5B, 0x24, 0x9A, 0x9E, 0x7E];

const SEGMENTS: &[Step] = &[
    Comes(Left, BAD_CHECK),
    Comes(Left, BAD_ESCAPE),
    Comes(Left, OTHER_CONTROL),
    Refused(Left, 1, 3),
];

#[test]
fn each_kind_of_segment_is_counted_once(rt: HostRuntime) -> Result<(), Fail> {
    follows(&rt, rt.alloc(), Right, SEGMENTS)?;
    Ok(())
}

// Address 123 in five octets.
const LONG: &[u8] = &[
    0x7E, 0xF6, 0x00, 0x00, 0x00, 0x01, 0x03, 0x5C, 0x3B, 0x1B, 0xF2, 0x7E,
];

const LONG_AND_SHORT: &[Step] = &[Comes(Right, LONG), Gives(Left, Some(TO_123))];

#[test]
fn a_long_spelling_of_an_address_goes_on_in_the_shortest(rt: HostRuntime) -> Result<(), Fail> {
    follows(&rt, rt.alloc(), Left, LONG_AND_SHORT)?;
    Ok(())
}

const UNTIL_257: &[Step] = &[
    Comes(Left, TO_123),
    ComesOften(255, b"second"),
    Comes(Left, TO_123),
    Passed(Left, 256),
    Full(Left, 1),
    Gives(Right, Some(TO_123)),
    Comes(Left, TO_123),
    Passed(Left, 257),
    LastOf(256, Some(TO_123)),
    Gives(Right, None),
];

#[test]
fn frame_257_is_dropped_where_none_was_taken(rt: HostRuntime) -> Result<(), Fail> {
    follows(&rt, rt.alloc(), Right, UNTIL_257)?;
    Ok(())
}

// These frames, one behind the other.
fn joined(alloc: Global, frames: &[&[u8]]) -> Result<Vec<u8>, AllocError> {
    let mut bytes = Vec::new(alloc);
    for frame in frames {
        bytes.extend_from_slice(frame)?;
    }
    Ok(bytes)
}

// Pumps these bytes from the left, over a source and a sink whose calls of these numbers fail.
fn pumped(
    alloc: Global,
    bytes: Vec<u8>,
    read_fails: &[u64],
    write_fails: &[u64],
) -> Result<(Pumped, MemSink), AllocError> {
    let mut routes = Routes::new(alloc);
    let _ = routes.add(123, Right);
    let mut link_in = MemSource::new(bytes, Vec::from_slice(alloc, read_fails)?);
    let mut link_out = MemSink::new(Vec::new(alloc), Vec::from_slice(alloc, write_fails)?);
    let pumped = pump(alloc, &routes, Left, &mut link_in, &mut link_out)?;
    Ok((pumped, link_out))
}

// A pump ended so, read so much and counted so.
fn ended(rt: &impl Abort, done: &Pumped, why: Why, read: u64, tally: Tally) {
    assert_eq!(rt; done.why, why);
    number_is(rt, done.read, read);
    tally_is(rt, done.tally, tally);
}

fn wrote(rt: &impl Abort, link_out: &MemSink, want: &[u8]) {
    assert_eq!(rt; link_out.bytes(), want);
}

// Three frames, of which the first and the last pass.
const THREE_FRAMES: &[&[u8]] = &[TO_123, TO_82, TO_123];

const TWICE: &[u8] = &[
    0x7E, 0xF7, 0x03, 0x3F, 0x34, 0x2D, 0x83, 0x7E, 0x7E, 0xF7, 0x03, 0x3F, 0x34, 0x2D, 0x83, 0x7E,
];

// What comes, the reads and the calls of the sink that fail, why the pump ends, how much it read, the frames that it counted as passed
// and as lost and the bad segments, and what it wrote.
type Row = (
    &'static [&'static [u8]],
    &'static [u64],
    &'static [u64],
    Why,
    u64,
    (u64, u64, u64),
    &'static [u8],
);

fn pumps(rt: &impl Abort, alloc: Global, row: &Row) -> Result<(), AllocError> {
    let &(frames, read_fails, write_fails, why, read, (passed, lost, bad), want) = row;
    let bytes = joined(alloc, frames)?;
    let (done, link_out) = pumped(alloc, bytes, read_fails, write_fails)?;
    let tally = Tally {
        bad,
        ..counts(passed, 0, lost)
    };
    ended(rt, &done, why, read, tally);
    wrote(rt, &link_out, want);
    Ok(())
}

const PASSES_AND_FINISHES: Row = (THREE_FRAMES, &[], &[], Why::Settled, 24, (2, 1, 0), TWICE);

#[test]
fn a_pump_writes_what_passes_and_finishes(rt: HostRuntime) -> Result<(), Fail> {
    pumps(&rt, rt.alloc(), &PASSES_AND_FINISHES)?;
    Ok(())
}

// A segment that is too short, a frame without a route, and one that passes.
const SHORT_LOST_AND_PASSED: &[&[u8]] = &[&[0x7E, 0x01, 0x7E], TO_82, TO_123];

const COUNTS_BEFORE_A_FAULT: Row = (
    SHORT_LOST_AND_PASSED,
    &[],
    &[1],
    Why::Sink,
    19,
    (0, 1, 1),
    &[],
);

#[test]
fn what_came_before_a_frame_that_fails_is_counted(rt: HostRuntime) -> Result<(), Fail> {
    pumps(&rt, rt.alloc(), &COUNTS_BEFORE_A_FAULT)?;
    Ok(())
}

const FAULTS: &[Row] = &[
    (THREE_FRAMES, &[1], &[], Why::Source, 0, (0, 0, 0), &[]),
    // Both frames that pass go out by the first call, and the second is the finish.
    (THREE_FRAMES, &[], &[1], Why::Sink, 24, (0, 0, 0), &[]),
    (THREE_FRAMES, &[], &[2], Why::Sink, 24, (2, 1, 0), TWICE),
];

#[test]
fn a_pump_tells_which_end_failed(rt: HostRuntime) -> Result<(), Fail> {
    for row in FAULTS {
        pumps(&rt, rt.alloc(), row)?;
    }
    Ok(())
}
