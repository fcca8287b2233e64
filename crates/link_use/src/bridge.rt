//! Bridges over links in memory.

ghost use Rattle.std.specs.Prelude.{IfOk};
ghost use Rattle.link_io.specs.LinkDevice.{IsUnused};

use frame_router::Tally;
use frame_router::bridge::{Bridged, bridge, bridge_text};
use link_io::{Failed, MemLinker, MemSink, MemSource, Why};
use std::alloc::{AllocError, Global};
use std::process::Abort;
use std::test::Fail;
use std::thread::Threads;

mod beside;

// A frame with address 123 and no payload, one with address 82, and one with address 5 and the payload `hello`.
const TO_123: &[u8] = &[0x7E, 0xF7, 0x03, 0x3F, 0x34, 0x2D, 0x83, 0x7E];

const TO_82: &[u8] = &[0x7E, 0xA5, 0x03, 0xE9, 0x0B, 0xA0, 0x0B, 0x7E];

const TO_5: &[u8] = &[
    0x7E, 0x0B, 0x03, 0x68, 0x65, 0x6C, 0x6C, 0x6F, 0xB1, 0xA8, 0xCD, 0xE9, 0x7E,
];

// The ends of a link: what it gives, and the numbers of the read and of the write that fail. None has the number 0.
fn link(
    alloc: Global,
    frames: &[&[u8]],
    read: u64,
    write: u64,
) -> Result<(MemSource, MemSink), AllocError>
    ensures { IfOk result IsUnused }
{
    let content = joined(alloc, frames)?;
    let source = MemSource::new(content, Vec::from_slice(alloc, &[read])?);
    let sink = MemSink::new(Vec::new(alloc), Vec::from_slice(alloc, &[write])?);
    Ok((source, sink))
}

// These bytes, one behind the other.
fn joined(alloc: Global, frames: &[&[u8]]) -> Result<Vec<u8>, AllocError> {
    let mut content = Vec::new(alloc);
    for frame in frames {
        content.extend_from_slice(frame)?;
    }
    Ok(content)
}

// A linker with two links, whose call of this number fails.
fn linker(
    alloc: Global,
    left: (MemSource, MemSink),
    right: (MemSource, MemSink),
    fail: u64,
) -> Result<MemLinker, AllocError>
    requires { IsUnused left × IsUnused right }
{
    let mut ends = Vec::new(alloc);
    ends.push(left)?;
    ends.push(right)?;
    MemLinker::new(alloc, ends, Vec::from_slice(alloc, &[fail])?)
}

// A bridge with address 123 at the right and 82 at the left.
fn run<R: Threads>(rt: &R, alloc: Global, net: &mut MemLinker) -> Result<Bridged, Failed> {
    bridge(rt, alloc, net, "left", "right", 123, 82)
}

fn counts(passed: u64, home: u64, lost: u64, bad: u64) -> Tally {
    Tally {
        passed,
        home,
        lost,
        other: 0,
        bad,
        full: 0,
    }
}

// A bridge ended so, and counted so from the left and from the right.
fn ended(rt: &impl Abort, done: &Bridged, why: Why, from_left: Tally, from_right: Tally) {
    ended_by(rt, "bridge", done, why);
    tally_is(rt, done.from_left.tally, from_left);
    tally_is(rt, done.from_right.tally, from_right);
}

fn ended_by(rt: &impl Abort, row: &str, done: &Bridged, why: Why) {
    assert_eq!(rt; done.why(), why, "{row}");
}

fn tally_is(rt: &impl Abort, tally: Tally, want: Tally) {
    assert_eq!(rt; tally, want);
}

// So many links were given back.
fn gave_back(rt: &impl Abort, row: &str, net: &MemLinker, count: usize) {
    assert_eq!(rt; net.gone().len(), count, "{row}");
}

// The link that was given back at this place got these frames.
fn link_got(rt: &impl Abort, net: &MemLinker, place: usize, want: &[u8]) {
    let got = match net.gone().get(place) {
        Some(ends) => ends.1.bytes(),
        None => b"no link",
    };
    assert_eq!(rt; got, want, "link {place}");
}

fn text_is(rt: &impl Abort, text: &str, want: &str) {
    assert_eq!(rt; text, want);
}

const LEFT: &[&[u8]] = &[TO_123, TO_82, TO_5, TO_123];

const RIGHT: &[&[u8]] = &[TO_82, TO_123, &[0x01, 0x7E]];

const TWICE_TO_123: &[u8] = &[
    0x7E, 0xF7, 0x03, 0x3F, 0x34, 0x2D, 0x83, 0x7E, 0x7E, 0xF7, 0x03, 0x3F, 0x34, 0x2D, 0x83, 0x7E,
];

const BOTH_WAYS: &str = "left passed 2 home 1 lost 1 other 0 bad 0 full 0
right passed 1 home 1 lost 0 other 0 bad 1 full 0
done
";

#[test]
fn frames_go_both_ways(rt: HostRuntime) -> Result<(), Fail> {
    let alloc = rt.alloc();
    let left = link(alloc, LEFT, 0, 0)?;
    let right = link(alloc, RIGHT, 0, 0)?;
    let mut net = linker(alloc, left, right, 0)?;
    let done = run(&rt, alloc, &mut net)?;
    ended(
        &rt,
        &done,
        Why::Settled,
        counts(2, 1, 1, 0),
        counts(1, 1, 0, 1),
    );
    gave_back(&rt, "both ways", &net, 2);
    link_got(&rt, &net, 0, TO_82);
    link_got(&rt, &net, 1, TWICE_TO_123);
    let text = bridge_text(alloc, done)?;
    text_is(&rt, text.as_str(), BOTH_WAYS);
    Ok(())
}

// A linker of two links with a frame each, whose connect of this number fails.
fn one_frame_each(alloc: Global, fail: u64) -> Result<MemLinker, AllocError> {
    let left = link(alloc, &[TO_123], 0, 0)?;
    let right = link(alloc, &[TO_82], 0, 0)?;
    linker(alloc, left, right, fail)
}

#[test]
fn no_bridge_is_made_where_the_first_link_fails(rt: HostRuntime) -> Result<(), Fail> {
    let alloc = rt.alloc();
    let mut net = one_frame_each(alloc, 1)?;
    assert!(rt; run(&rt, alloc, &mut net).is_err());
    gave_back(&rt, "no link", &net, 0);
    Ok(())
}

#[test]
fn no_bridge_is_made_of_one_link(rt: HostRuntime) -> Result<(), Fail> {
    let alloc = rt.alloc();
    let mut net = one_frame_each(alloc, 2)?;
    assert!(rt; run(&rt, alloc, &mut net).is_err());
    gave_back(&rt, "one link", &net, 1);
    link_got(&rt, &net, 0, b"");
    Ok(())
}

const SHORT_LOST_AND_PASSED: &[&[u8]] = &[&[0x7E, 0x01, 0x7E], TO_5, TO_123];

const BEFORE_A_FAULT: &str = "left passed 0 home 0 lost 1 other 0 bad 1 full 0
right passed 0 home 0 lost 0 other 0 bad 0 full 0
sink fault
";

// A segment that is too short, a frame without a route, and one whose write fails.
#[test]
fn what_came_before_a_frame_that_fails_is_told(rt: HostRuntime) -> Result<(), Fail> {
    let alloc = rt.alloc();
    let left = link(alloc, SHORT_LOST_AND_PASSED, 0, 0)?;
    let right = link(alloc, &[], 0, 1)?;
    let mut net = linker(alloc, left, right, 0)?;
    let text = bridge_text(alloc, run(&rt, alloc, &mut net)?)?;
    text_is(&rt, text.as_str(), BEFORE_A_FAULT);
    Ok(())
}

// The read and the write of a link that fail.
type Failing = (u64, u64);

// What fails at the left and then at the right, why the bridge ended, and its last line. A read gives all bytes of a link.
const FAULTS: &[(Failing, Failing, Why, &str)] = &[
    ((1, 0), (0, 0), Why::Source, "source fault\n"),
    ((0, 1), (0, 0), Why::Sink, "sink fault\n"),
    ((0, 0), (2, 0), Why::Source, "source fault\n"),
    ((0, 0), (0, 2), Why::Sink, "sink fault\n"),
    ((1, 1), (0, 0), Why::Source, "source fault\n"),
    ((0, 0), (1, 1), Why::Sink, "sink fault\n"),
];

fn tells_its_fault<R: Threads + Abort>(
    rt: &R,
    alloc: Global,
    left: Failing,
    right: Failing,
    why: Why,
    last: &str,
) -> Result<(), Fail> {
    let left = link(alloc, &[TO_123], left.0, left.1)?;
    let right = link(alloc, &[TO_82], right.0, right.1)?;
    let mut net = linker(alloc, left, right, 0)?;
    let done = run(rt, alloc, &mut net)?;
    ended_by(rt, last, &done, why);
    gave_back(rt, last, &net, 2);
    let text = bridge_text(alloc, done)?;
    assert!(rt; text.as_str().ends_with(last), "{last}");
    Ok(())
}

#[test]
fn a_fault_of_each_end_is_told(rt: HostRuntime) -> Result<(), Fail> {
    for &(left, right, why, last) in FAULTS {
        tells_its_fault(&rt, rt.alloc(), left, right, why, last)?;
    }
    Ok(())
}
