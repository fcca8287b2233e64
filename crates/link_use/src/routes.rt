use frame_router::text::{LinesRefused, route_text};
use std::alloc::{AllocError, Global};
use std::process::Abort;
use std::test::Fail;

fn prints(rt: &impl Abort, alloc: Global, text: &str, want: &str) -> Result<(), Fail> {
    let printed = route_text(alloc, text.as_bytes())?;
    assert_eq!(rt; printed.as_str(), want);
    Ok(())
}

fn is_bad(rt: &impl Abort, alloc: Global, text: &[u8], line: usize) {
    let done = route_text(alloc, text);
    assert_eq!(rt; done.err(), Some(LinesRefused::Line(line)));
}

// The frame 7ef7033f342d837e has address 123 and no payload, 7ea503e90ba00b7e address 82, and 7ef600000001035c3b1bf27e
// address 123 in five octets.
const FRAMES: &[(&str, &str)] = &[
    (
        "to right 123\nleft 7ef7033f342d837e\nleft 7ea503e90ba00b7e\n",
        "right 7ef7033f342d837e\nleft passed 1 home 0 lost 1 other 0 bad 0 full 0\nright passed 0 home 0 lost 0 other 0 bad 0 full 0\n",
    ),
    (
        "to left 123\nleft 7ef7033f342d837e",
        "left passed 0 home 1 lost 0 other 0 bad 0 full 0\nright passed 0 home 0 lost 0 other 0 bad 0 full 0\n",
    ),
    (
        "to right 123\nleft 7ef600000001035c3b1bf27e\ndrain right 1\n",
        "right 7ef7033f342d837e\nleft passed 1 home 0 lost 0 other 0 bad 0 full 0\nright passed 0 home 0 lost 0 other 0 bad 0 full 0\n",
    ),
    (
        "to left 82\nto right 123\nleft 7ef7033f342d837e\nright 7ea503e90ba00b7e\nright 7ef7033f342d837e\ndrain left 2\n",
        "left 7ea503e90ba00b7e\nright 7ef7033f342d837e\nleft passed 1 home 0 lost 0 other 0 bad 0 full 0\nright passed 1 home 1 lost 0 other 0 bad 0 full 0\n",
    ),
];

#[test]
fn frames_go_on_by_their_address(rt: HostRuntime) -> Result<(), Fail> {
    for (text, want) in FRAMES {
        prints(&rt, rt.alloc(), text, want)?;
    }
    Ok(())
}

const PIECES: &[(&str, &str)] = &[
    // A frame in two pieces, and a drain between them.
    (
        "to right 123\nleft 7ef7\ndrain right 256\nleft 033f342d837e\n",
        "right 7ef7033f342d837e\nleft passed 1 home 0 lost 0 other 0 bad 0 full 0\nright passed 0 home 0 lost 0 other 0 bad 0 full 0\n",
    ),
    // A control octet of its own, no bytes, a wrong check sequence, an escape at the end, and bytes that end no segment.
    (
        "to right 123\nleft 7ef7135b249a9e7e\nleft \nleft f7033f342d827e\nleft f77d7e01\n",
        "left passed 0 home 0 lost 0 other 1 bad 2 full 0\nright passed 0 home 0 lost 0 other 0 bad 0 full 0\n",
    ),
    (
        "",
        "left passed 0 home 0 lost 0 other 0 bad 0 full 0\nright passed 0 home 0 lost 0 other 0 bad 0 full 0\n",
    ),
];

#[test]
fn bytes_come_in_pieces(rt: HostRuntime) -> Result<(), Fail> {
    for (text, want) in PIECES {
        prints(&rt, rt.alloc(), text, want)?;
    }
    Ok(())
}

// 257 frames, and what is drained in front of the last one.
fn full_text(alloc: Global, drain: &str) -> Result<String, AllocError> {
    let mut text = String::from_str(alloc, "to right 123\n")?;
    for _ in 0..256u32 {
        text.push_str("left 7ef7033f342d837e\n")?;
    }
    text.push_str(drain)?;
    text.push_str("left 7ef7033f342d837e\n")?;
    Ok(text)
}

const FULL: &[(&str, &str)] = &[
    (
        "",
        "\nleft passed 256 home 0 lost 0 other 0 bad 0 full 1\nright passed 0 home 0 lost 0 other 0 bad 0 full 0\n",
    ),
    (
        "drain right 1\n",
        "\nleft passed 257 home 0 lost 0 other 0 bad 0 full 0\nright passed 0 home 0 lost 0 other 0 bad 0 full 0\n",
    ),
];

fn ends_so(rt: &impl Abort, alloc: Global, drain: &str, end: &str) -> Result<(), Fail> {
    let text = full_text(alloc, drain)?;
    let printed = route_text(alloc, text.as_bytes())?;
    assert!(rt; printed.as_str().ends_with(end));
    Ok(())
}

#[test]
fn frame_257_is_dropped(rt: HostRuntime) -> Result<(), Fail> {
    for (drain, end) in FULL {
        ends_so(&rt, rt.alloc(), drain, end)?;
    }
    Ok(())
}

const BAD_ROUTES: &[(&[u8], usize)] = &[
    (b"to left 123\nto right 123\n", 2),
    (b"to left 4294967296\n", 1),
    (b"to left 0123\n", 1),
    (b"to left \n", 1),
    (b"to left\n", 1),
    (b"to up 123\n", 1),
    (b"to left 123 \n", 1),
    (b"left 7e\nto left 123\n", 2),
    (b"to left 123\r\n", 1),
    (b"to left 123\n\n", 2),
    (b"\xFF", 1),
];

#[test]
fn bad_routes_are_told(rt: HostRuntime) -> Result<(), Fail> {
    for (text, line) in BAD_ROUTES {
        is_bad(&rt, rt.alloc(), text, *line);
    }
    Ok(())
}

const BAD_STEPS: &[(&[u8], usize)] = &[
    (b"left 7\n", 1),
    (b"left 7E\n", 1),
    (b"left\n", 1),
    (b"Left 7e\n", 1),
    (b"right  7e\n", 1),
    (b"up 7e\n", 1),
    (b"drain left 0\n", 1),
    (b"drain left 257\n", 1),
    (b"drain left 01\n", 1),
    (b"drain left\n", 1),
    (b"drain left \n", 1),
    (b"drain up 1\n", 1),
    (b"drain 1\n", 1),
    (b"left 7e\n\n", 2),
];

#[test]
fn bad_steps_are_told(rt: HostRuntime) -> Result<(), Fail> {
    for (text, line) in BAD_STEPS {
        is_bad(&rt, rt.alloc(), text, *line);
    }
    Ok(())
}

// 64 routes.
fn most_routes(alloc: Global) -> Result<String, AllocError> {
    let mut text = String::from_str(alloc, "to left 4294967295\n")?;
    for address in 0..63u32 {
        writeln!(text, "to right {address}")?;
    }
    Ok(text)
}

#[test]
fn route_65_is_too_many(rt: HostRuntime) -> Result<(), Fail> {
    let mut text = most_routes(rt.alloc())?;
    assert!(rt; route_text(rt.alloc(), text.as_bytes()).is_ok());
    text.push_str("to left 63\n")?;
    is_bad(&rt, rt.alloc(), text.as_bytes(), 65);
    Ok(())
}
