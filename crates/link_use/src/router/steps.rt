//! A router that follows a table of steps.

use super::counts;
use bytes::Bytes;
use frame_router::*;
use hdlc_frame::encode_ui;
use std::alloc::{AllocError, Global};
use std::process::Abort;

/// What comes to a router with a route to 123, and what is asked of it then.
#[derive(Clone, Copy)]
pub enum Step {
    /// These octets come from a side, and all of them are taken at once.
    Takes(Port, &'static [u8]),
    /// These octets come from a side, a segment at a call.
    Comes(Port, &'static [u8]),
    /// So many frames to 123 with this payload come from the left.
    ComesOften(u32, &'static [u8]),
    /// The frame that goes out next to a side.
    Gives(Port, Option<&'static [u8]>),
    /// The last of so many frames that go out to the right.
    LastOf(u32, Option<&'static [u8]>),
    /// So many frames from a side passed, were at home there and were lost, and nothing else came.
    Counted(Port, u64, u64, u64),
    /// So many frames of another kind and so many bad segments came from a side, and nothing else.
    Refused(Port, u64, u64),
    /// So many frames from a side passed.
    Passed(Port, u64),
    /// So many frames from a side found no place.
    Full(Port, u64),
}

/// A router with a route to 123 at this side follows the steps.
pub fn follows(
    rt: &impl Abort,
    alloc: Global,
    side: Port,
    steps: &[Step],
) -> Result<(), AllocError> {
    let mut routes = Routes::new(alloc);
    let _ = routes.add(123, side);
    let mut router = Router::new(alloc, routes)?;
    follow(rt, alloc, &mut router, steps)
}

fn follow(
    rt: &impl Abort,
    alloc: Global,
    router: &mut Router,
    steps: &[Step],
) -> Result<(), AllocError> {
    for (number, step) in steps.iter().enumerate() {
        take_step(rt, alloc, router, *step, number)?;
    }
    Ok(())
}

// What comes, or what goes out.
fn take_step(
    rt: &impl Abort,
    alloc: Global,
    router: &mut Router,
    step: Step,
    number: usize,
) -> Result<(), AllocError> {
    match step {
        Step::Takes(from, octets) => takes(rt, router, from, octets, number),
        Step::Comes(from, octets) => return feed_all(router, from, octets),
        Step::ComesOften(count, payload) => return feed_often(alloc, router, payload, count),
        Step::Gives(to, want) => frame_is(rt, router.next(to), want, number),
        Step::LastOf(count, want) => frame_is(rt, last_of(router, count), want, number),
        asked => is_counted(rt, router, asked, number),
    }
    Ok(())
}

// What is asked of the counts of a router.
fn is_counted(rt: &impl Abort, router: &Router, step: Step, number: usize) {
    match step {
        Step::Counted(from, passed, home, lost) => {
            tally_is(rt, router.tally(from), counts(passed, home, lost), number);
        }
        Step::Refused(from, other, bad) => {
            let want = Tally {
                other,
                bad,
                ..counts(0, 0, 0)
            };
            tally_is(rt, router.tally(from), want, number);
        }
        Step::Passed(from, want) => count_is(rt, router.tally(from).passed, want, number),
        Step::Full(from, want) => count_is(rt, router.tally(from).full, want, number),
        _ => panic!(rt; "step {number} asks for no count"),
    }
}

fn takes(rt: &impl Abort, router: &mut Router, from: Port, octets: &[u8], step: usize) {
    assert_eq!(rt; router.feed(from, octets), Ok(octets.len()), "step {step}");
}

// Feeds all of these octets.
fn feed_all(router: &mut Router, from: Port, octets: &[u8]) -> Result<(), AllocError> {
    let mut rest = octets;
    for _ in 0..octets.len() {
        let taken = router.feed(from, rest)?;
        rest = &rest[taken..];
    }
    Ok(())
}

// Feeds a frame to 123 with this payload so often.
fn feed_often(
    alloc: Global,
    router: &mut Router,
    payload: &[u8],
    count: u32,
) -> Result<(), AllocError> {
    let mut frame = Vec::new(alloc);
    encode_ui(123, payload, &mut frame)?;
    for _ in 0..count {
        feed_all(router, Port::Left, frame.as_slice())?;
    }
    Ok(())
}

// The last of so many frames that go out.
fn last_of(router: &mut Router, count: u32) -> Option<Bytes> {
    let mut last = None;
    for _ in 0..count {
        last = router.next(Port::Right);
    }
    last
}

// The frame that went out.
fn frame_is(rt: &impl Abort, frame: Option<Bytes>, want: Option<&[u8]>, step: usize) {
    match frame {
        Some(bytes) => octets_are(rt, Some(bytes.as_slice()), want, step),
        None => octets_are(rt, None, want, step),
    }
}

fn octets_are(rt: &impl Abort, octets: Option<&[u8]>, want: Option<&[u8]>, step: usize) {
    assert_eq!(rt; octets, want, "step {step}");
}

fn tally_is(rt: &impl Abort, tally: Tally, want: Tally, step: usize) {
    assert_eq!(rt; tally, want, "step {step}");
}

fn count_is(rt: &impl Abort, count: u64, want: u64, step: usize) {
    assert_eq!(rt; count, want, "step {step}");
}
