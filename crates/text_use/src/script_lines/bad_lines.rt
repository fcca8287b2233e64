//! The number of the first bad line, or 0 where there is none.
use link_script::text::read_script;
use std::alloc::{AllocError, Global};
use std::process::Abort;

fn bad_line(alloc: Global, text: &[u8]) -> Result<usize, AllocError> {
    match read_script(alloc, text)? {
        Ok(_) => Ok(0),
        Err(bad) => Ok(bad.line),
    }
}

// A text, and its first bad line.
type Row = (&'static [u8], usize);

fn is_bad_at(rt: &impl Abort, alloc: Global, text: &[u8], line: usize) -> Result<(), AllocError> {
    assert_eq!(rt; bad_line(alloc, text)?, line, "{}", text.escape_ascii());
    Ok(())
}

fn are_bad_at(rt: &impl Abort, alloc: Global, rows: &[Row]) -> Result<(), AllocError> {
    for (text, line) in rows {
        is_bad_at(rt, alloc, text, *line)?;
    }
    Ok(())
}

// The same without the text, which is long.
fn long_is_bad_at(
    rt: &impl Abort,
    alloc: Global,
    text: &str,
    line: usize,
) -> Result<(), AllocError> {
    assert_eq!(rt; bad_line(alloc, text.as_bytes())?, line);
    Ok(())
}

const COUNTED: &[Row] = &[
    (b"server 7 1000 1\nread 7 0\nread x 0\n", 3),
    (b"server 7 1000 1\nread 7 0\nread x 0", 3),
    (b"\n", 1),
    (b"read 7 0\n\n", 2),
    (b"read 7 0\n\nread 7 0", 2),
    (b"read 7 0\nread 7 0", 0),
];

#[test]
fn lines_are_counted_from_1(rt: HostRuntime) -> Result<(), AllocError> {
    are_bad_at(&rt, rt.alloc(), COUNTED)
}

const IN_FRONT: &[Row] = &[
    (b"chunk 0", 1),
    (b"chunk 1025", 1),
    (b"window 0", 1),
    (b"window 65", 1),
    (b"server 7 65537 1", 1),
    (b"left client 7 65537 1", 1),
];

#[test]
fn numbers_of_lines_in_front_have_bounds(rt: HostRuntime) -> Result<(), AllocError> {
    are_bad_at(&rt, rt.alloc(), IN_FRONT)
}

const OTHERS: &[Row] = &[
    (b"drop 0", 1),
    (b"flip 1 4294967296", 1),
    (b"write 7 16777217", 1),
    (b"count 256", 1),
    (b"close 0", 1),
    (b"close 9", 1),
];

#[test]
fn numbers_of_other_lines_have_bounds(rt: HostRuntime) -> Result<(), AllocError> {
    are_bad_at(&rt, rt.alloc(), OTHERS)
}

const SPELLINGS: &[Row] = &[
    (b"read 07 0", 1),
    (b"read 7  0", 1),
    (b"read 7 0 ", 1),
    (b"echo 7E", 1),
    (b"echo ", 1),
    (b"server 7 1000", 1),
];

#[test]
fn lines_have_one_spelling(rt: HostRuntime) -> Result<(), AllocError> {
    are_bad_at(&rt, rt.alloc(), SPELLINGS)
}

const ORDERS: &[Row] = &[
    (b"window 4\nchunk 256", 2),
    (b"server 7 1 1\nwindow 4", 2),
    (b"left server 7 1 1\nclient 7 1 1", 2),
    (b"drop 1\nleft client 7 1 1", 2),
    (b"echo 61\ndrop 1", 2),
    (
        b"client 7 1 1\nserver 7 1 1\nleft client 7 1 1\nleft server 7 1 1\nflip 1 0\ndrop 2",
        0,
    ),
];

#[test]
fn kinds_of_lines_have_an_order(rt: HostRuntime) -> Result<(), AllocError> {
    are_bad_at(&rt, rt.alloc(), ORDERS)
}

const ONCE: &[Row] = &[
    (b"chunk 4\nchunk 4", 2),
    (b"window 4\nwindow 4", 2),
    (b"server 7 1 1\nclient 7 1 1\nserver 7 2 2", 3),
    (b"left client 7 1 1\nleft client 7 2 2", 2),
    (b"drop 3\nrepeat 3", 2),
    (b"close 1\nclose 1", 0),
];

#[test]
fn some_things_are_said_once(rt: HostRuntime) -> Result<(), AllocError> {
    are_bad_at(&rt, rt.alloc(), ONCE)
}

#[test]
fn sixty_four_resources_are_whole(rt: HostRuntime) -> Result<(), AllocError> {
    let mut text = String::new(rt.alloc());
    for id in 0..32 {
        writeln!(text, "server {id} 1 1")?;
        writeln!(text, "client {id} 1 1")?;
    }
    long_is_bad_at(&rt, rt.alloc(), &text, 0)?;
    writeln!(text, "client 32 1 1")?;
    long_is_bad_at(&rt, rt.alloc(), &text, 65)?;
    Ok(())
}

#[test]
fn what_was_left_is_not_counted(rt: HostRuntime) -> Result<(), AllocError> {
    let mut text = String::new(rt.alloc());
    for id in 0..65 {
        writeln!(text, "left server {id} 1 1")?;
    }
    long_is_bad_at(&rt, rt.alloc(), &text, 0)?;
    Ok(())
}

#[test]
fn a_message_has_at_most_8000_bytes(rt: HostRuntime) -> Result<(), AllocError> {
    let mut text = String::new(rt.alloc());
    text.push_str("chat ")?;
    for _ in 0..8_000 {
        text.push_str("61")?;
    }
    long_is_bad_at(&rt, rt.alloc(), &text, 0)?;
    text.push_str("61")?;
    long_is_bad_at(&rt, rt.alloc(), &text, 1)?;
    Ok(())
}
